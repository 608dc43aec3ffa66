//! The order in which edges come onto the tree.
ghost use Rattle.std.specs.Prelude.{◌≡◌, ◌^◌, ◌<◌, ◌≤◌, length, map, IfOk};
ghost use Rattle.std.specs.List.{All};
ghost use Rattle.cfg_blocks.specs.Blocks.{below};
ghost use Rattle.cfg_normal.specs.Code.{IsNodeIn};
ghost use Rattle.span_tree.specs.Ties.{follows_call, is_behind_call, is_call, rank_of, tie_of};

use cfg_blocks::{BlockEnd, EdgeKind};
use cfg_normal::{Edge, FlowGraph, Node};
use eel_base::{BlockNo, NoMemory};
use std::alloc::Global;

/// The rank of each edge, in order: an edge of a higher rank comes onto the tree before one of a lower.
pub(crate) fn ranks(alloc: Global, graph: &FlowGraph, weights: &[u64]) -> Result<Vec<u64>, NoMemory>
    requires len { length weights.now ≡ length graph.now.edges }
    requires most { All (λ weight. weight ≤ 2 ^ 32) weights.now }
    ensures { IfOk result (λ ranks. ranks.items ≡ map (rank_of graph.now weights.now) (below (length graph.now.edges))) }
{
    let count = graph.edges().len();
    let mut ranks = Vec::with_capacity(alloc, count)?;
    for number in 0..count {
        ranks.push(rank(graph, weights, number))?;
    }
    Ok(ranks)
}

/// The rank of an edge.
fn rank(graph: &FlowGraph, weights: &[u64], number: usize) -> u64
    requires number { number < length graph.now.edges }
    requires len { length weights.now ≡ length graph.now.edges }
    requires most { All (λ weight. weight ≤ 2 ^ 32) weights.now }
    ensures { result ≡ rank_of graph.now weights.now number }
{
    4 * weights[number] + tie(graph, graph.edges()[number])
}

/// Of edges that weigh the same, those whose counters would cost most come first.
fn tie(graph: &FlowGraph, edge: Edge) -> u64
    requires { IsNodeIn graph.now.blocks graph.now.opens edge.to }
    ensures tie { result ≡ tie_of graph.now.blocks edge }
    ensures few { result < 4 }
{
    match edge.kind {
        EdgeKind::Call | EdgeKind::Out => 3,
        EdgeKind::Land if is_behind_call(graph, edge.to) => 2,
        EdgeKind::Fall | EdgeKind::Taken | EdgeKind::Untaken | EdgeKind::Case => 1,
        EdgeKind::Land => 0,
    }
}

/// Whether a call comes back to a node.
fn is_behind_call(graph: &FlowGraph, to: Node) -> bool
    requires { IsNodeIn graph.now.blocks graph.now.opens to }
    ensures { result ≡ is_behind_call graph.now.blocks to }
{
    match to {
        Node::Block(block) | Node::Landed(block) => follows_call(graph, block),
        Node::X => false,
    }
}

/// Whether a call comes back to a block.
fn follows_call(graph: &FlowGraph, block: BlockNo) -> bool
    requires { block.0 < length graph.now.blocks.firsts }
    ensures { result ≡ follows_call graph.now.blocks block.0 }
{
    block.0 >= 2 && is_call(graph.end(BlockNo(block.0 - 2)))
}

/// Whether control leaves by a call.
fn is_call(end: BlockEnd) -> bool
    ensures { result ≡ is_call end }
{
    matches!(end, BlockEnd::Call { .. })
}
