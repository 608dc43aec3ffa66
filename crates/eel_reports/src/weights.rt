//! Weights of edges by the counts of an earlier run.
ghost use Rattle.std.specs.Prelude.{◌≡◌, ◌≤◌, ◌^◌, ℕ, IfErr, IfOk, List, length};
ghost use Rattle.std.specs.List.{All};
ghost use Rattle.cfg_view.specs.Code.{view_seen, IsView};
ghost use Rattle.span_tree.specs.Cells.{cell_count};
ghost use Rattle.weights_in.specs.Weights.{AreWeights};
ghost use Rattle.eel_said.specs.Command.{Weighed};
ghost use Rattle.eel_said.specs.Code.{outcome_seen};
ghost use Rattle.eel_reports.specs.Answers.Trees.{AreCells};
ghost use Rattle.eel_reports.specs.Code.{AreRefused};
ghost use Rattle.eel_reports.specs.Refusals.{unweighed_of};

use crate::profile::tree_by;
use cfg_view::View;
use eel_said::{LineCause, Outcome};
use span_tree::SpanTree;
use std::alloc::Global;
use weights_in::{WeightFault, read_weights};

/// The spanning tree of the graph that weighs most by the lines of the file `name`.
pub fn measured_tree<'a>(
    alloc: Global,
    view: &View,
    name: &'a str,
    lines: &[u8],
) -> Result<SpanTree, Outcome<'a>>
    requires view { IsView view.now }
    requires few { length view.now.graph.edges ≤ 2 ^ 22 }
    ensures cells { IfOk result (λ cells. (weights : List ℕ) × AreWeights (view_seen view.now) lines.now weights
        × AreCells view.now.graph weights cells) }
    ensures few { IfOk result (λ cells. cell_count cells ≤ 2 ^ 22) }
    ensures refused { IfErr result (λ outcome.
        AreRefused (Weighed name.now) (view_seen view.now) lines.now (outcome_seen outcome)) }
{
    let weights = weights_for(alloc, view, name, lines)?;
    let tree = tree_by(alloc, view, &weights)?;
    Ok(tree)
}

/// The weights that the lines of the file `name` have for the edges of a program.
fn weights_for<'a>(
    alloc: Global,
    view: &View,
    name: &'a str,
    lines: &[u8],
) -> Result<Vec<u64>, Outcome<'a>>
    requires { IsView view.now }
    ensures weights { IfOk result (λ weights. AreWeights (view_seen view.now) lines.now weights.items) }
    ensures len { IfOk result (λ weights. length weights.items ≡ length view.now.graph.edges) }
    ensures most { IfOk result (λ weights. All (λ weight. weight ≤ 2 ^ 32) weights.items) }
    ensures refused { IfErr result (λ outcome.
        AreRefused (Weighed name.now) (view_seen view.now) lines.now (outcome_seen outcome)) }
{
    match read_weights(alloc, lines, view) {
        Ok(weights) => Ok(weights),
        Err(fault) => Err(unweighed(name, fault)),
    }
}

/// What a fault of the lines of the file `name` comes to.
fn unweighed<'a>(name: &'a str, fault: WeightFault) -> Outcome<'a>
    ensures { outcome_seen result ≡ unweighed_of name.now fault }
{
    let (number, cause) = match fault {
        WeightFault::Line(number) => (number, LineCause::Grammar),
        WeightFault::Edge(number) => (number, LineCause::Edge),
        WeightFault::Total(number) => (number, LineCause::Total),
        WeightFault::NoMemory => return Outcome::OutOfMemory,
    };
    Outcome::BadLine {
        name,
        number,
        cause,
    }
}
