//! The spanning tree, and the cells of the edges off it.
ghost use Rattle.std.specs.Prelude.{◌≡◌, ◌^◌, ◌<◌, ◌≤◌, length, map, IfOk, IfSome};
ghost use Rattle.std.specs.List.{All};
ghost use Rattle.cfg_normal.specs.Code.{IsEdgeIn, IsGraph};
ghost use Rattle.cfg_normal.specs.Numbers.{is_node};
ghost use Rattle.flows.specs.Flows.{IsLeast, rest, weight_in};
ghost use Rattle.flows.specs.Links.{marked};
ghost use Rattle.flows.specs.SpanningTrees.{IsSpanningTree};
ghost use Rattle.span_tree.specs.Cells.{cell_at, cell_count, cell_of, has_cell, AreNumbered};
ghost use Rattle.span_tree.specs.Private.{link_of};
ghost use Rattle.span_tree.specs.Links.{links_of};
ghost use Rattle.span_tree.specs.Ties.{rank_of};

use crate::ranking::ranks;
use cfg_normal::{Edge, FlowGraph, node_number};
use eel_base::{EdgeNo, NoMemory};
use flow_tree::counted;
use flows::Link;
use std::alloc::Global;
use std::marker::Model;

/// A spanning tree of a flow graph, by the cells of the edges off it.
#[derive(Drop)]
pub struct SpanTree {
    cells: Vec<Option<u32>>,
    count: u32,
}

impl Model for SpanTree {
    ghost use Rattle.std.specs.Prelude.{◌≡◌, ℕ, List, Option};
    ghost use Rattle.span_tree.specs.Cells.{cell_count, AreNumbered};

    ghost Value = { List (Option ℕ) };

    ghost view = { λ t. t.cells.items };

    ghost invariant = { λ t. AreNumbered t.cells.items × (t.count ≡ cell_count t.cells.items) };
}

impl SpanTree {
    /// The cell of the edge `e`, or `None` where that is on the tree, or past the last edge.
    pub fn cell(&self, e: EdgeNo) -> Option<u32>
        ensures cell { result ≡ cell_at self.now e.0 }
        ensures within { IfSome result (λ cell. cell < cell_count self.now) }
    {
        self.cells.get(e.0 as usize).copied().flatten()
    }

    /// How many cells there are: one for each edge off the tree, which have 0, 1, 2 and so on in edge order.
    pub fn cells(&self) -> u32
        ensures count { result ≡ cell_count self.now }
        ensures numbered { AreNumbered self.now }
    {
        self.count
    }
}

/// A spanning tree of all nodes, grown heaviest first from the node that stands for all outside the text. The counts of
/// the edges off it determine all counts, and no set of edges whose counts do weighs less. Of several such sets it is the
/// one of the least ranks: as few calls and jumps as can be, and of landings mostly those that no call comes back to.
///
/// It takes time n log n in the number of edges.
pub fn tree(alloc: Global, graph: &FlowGraph, weights: &[u64]) -> Result<SpanTree, NoMemory>
    requires len { length weights.now ≡ length graph.now.edges }
    requires most { All (λ weight. weight ≤ 2 ^ 32) weights.now }
    ensures len { IfOk result (λ tree. length tree ≡ length graph.now.edges) }
    ensures numbered { IfOk result AreNumbered }
    ensures spans { IfOk result (λ tree. IsSpanningTree (links_of graph.now) (is_node graph.now) (rest (has_cell tree))) }
    ensures least { IfOk result (λ tree. IsLeast (links_of graph.now) (weight_in weights.now) (has_cell tree)) }
    ensures ties { IfOk result (λ tree. IsLeast (links_of graph.now) (rank_of graph.now weights.now) (has_cell tree)) }
{
    let counted = counted_edges(alloc, graph, weights)?;
    number(alloc, &counted)
}

/// Which edges are off the tree.
fn counted_edges(alloc: Global, graph: &FlowGraph, weights: &[u64]) -> Result<Vec<bool>, NoMemory>
    requires len { length weights.now ≡ length graph.now.edges }
    requires most { All (λ weight. weight ≤ 2 ^ 32) weights.now }
    ensures len { IfOk result (λ counted. length counted.items ≡ length graph.now.edges) }
    ensures few { IfOk result (λ counted. length counted.items < 2 ^ 32) }
    ensures spans { IfOk result (λ counted.
        IsSpanningTree (links_of graph.now) (is_node graph.now) (rest (marked counted.items))) }
    ensures least { IfOk result (λ counted.
        IsLeast (links_of graph.now) (weight_in weights.now) (marked counted.items)) }
    ensures ties { IfOk result (λ counted.
        IsLeast (links_of graph.now) (rank_of graph.now weights.now) (marked counted.items)) }
{
    let ranks = ranks(alloc, graph, weights)?;
    let links = links(alloc, graph)?;
    let outside = graph.count() as usize;
    let counted = counted(alloc, 2 * outside + 1, &links, &ranks, outside)?;
    Ok(counted)
}

/// The edges by the numbers of their nodes.
fn links(alloc: Global, graph: &FlowGraph) -> Result<Vec<Link>, NoMemory>
    ensures links { IfOk result (λ links. links.items ≡ map (link_of graph.now) graph.now.edges) }
    ensures graph { IsGraph graph.now }
{
    let edges = graph.edges();
    let mut links = Vec::with_capacity(alloc, edges.len())?;
    for edge in edges {
        links.push(link(graph, edge))?;
    }
    Ok(links)
}

/// An edge by the numbers of its nodes.
fn link(graph: &FlowGraph, edge: &Edge) -> Link
    requires { IsEdgeIn graph.now.blocks graph.now.opens edge.now }
    ensures { result ≡ link_of graph.now edge.now }
{
    Link {
        from: node_number(graph, edge.from) as usize,
        to: node_number(graph, edge.to) as usize,
    }
}

/// Gives each counted edge its cell.
fn number(alloc: Global, counted: &[bool]) -> Result<SpanTree, NoMemory>
    requires { length counted.now < 2 ^ 32 }
    ensures len { IfOk result (λ tree. length tree ≡ length counted.now) }
    ensures same { IfOk result (λ tree. has_cell tree ≡ marked counted.now) }
    ensures numbered { IfOk result AreNumbered }
{
    let mut cells = Vec::with_capacity(alloc, counted.len())?;
    let mut count: u32 = 0;
    for is_counted in counted {
        cells.push(is_counted.then_some(count))?;
        count += u32::from(*is_counted);
    }
    Ok(SpanTree { cells, count })
}
