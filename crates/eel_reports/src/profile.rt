//! Which edges a profile counts: those off a spanning tree.
ghost use Rattle.std.specs.Prelude.{◌≡◌, ◌≤◌, ◌^◌, IfOk, length};
ghost use Rattle.std.specs.List.{All};
ghost use Rattle.cfg_view.specs.Code.{IsView};
ghost use Rattle.span_tree.specs.Cells.{cell_count};
ghost use Rattle.span_tree.specs.Weights.{weights_of};
ghost use Rattle.eel_reports.specs.Answers.Trees.{AreCells};

use cfg_view::View;
use eel_base::NoMemory;
use span_tree::{SpanTree, tree, weights};
use std::alloc::Global;

/// A spanning tree of the graph, grown heaviest first by the weights that are guessed.
pub fn heaviest_tree(alloc: Global, view: &View) -> Result<SpanTree, NoMemory>
    requires view { IsView view.now }
    requires few { length view.now.graph.edges ≤ 2 ^ 22 }
    ensures cells { IfOk result (AreCells view.now.graph (weights_of view.now.graph.blocks view.now.graph.edges)) }
    ensures few { IfOk result (λ cells. cell_count cells ≤ 2 ^ 22) }
{
    let weights = weights(alloc, &view.blocks, &view.graph)?;
    tree_by(alloc, view, &weights)
}

/// A spanning tree of the graph, grown heaviest first by these weights of its edges.
pub fn tree_by(alloc: Global, view: &View, weights: &[u64]) -> Result<SpanTree, NoMemory>
    requires few { length view.now.graph.edges ≤ 2 ^ 22 }
    requires len { length weights.now ≡ length view.now.graph.edges }
    requires most { All (λ weight. weight ≤ 2 ^ 32) weights.now }
    ensures cells { IfOk result (AreCells view.now.graph weights.now) }
    ensures few { IfOk result (λ cells. cell_count cells ≤ 2 ^ 22) }
{
    let tree = tree(alloc, &view.graph, weights)?;
    Ok(tree)
}
