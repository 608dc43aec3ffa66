//! The weights of edges.
ghost use Rattle.std.specs.Prelude.{◌≡◌, ◌^◌, ◌<◌, ◌≤◌, length, map, IfOk};
ghost use Rattle.std.specs.List.{All};
ghost use Rattle.cfg_blocks.specs.Blocks.{below};
ghost use Rattle.cfg_normal.specs.Code.{IsNodeIn};
ghost use Rattle.span_tree.specs.Weights.{block_weight, loops_at, weight_from, weights_of};

use crate::loops::loops_at_words;
use cfg_blocks::BlockList;
use cfg_normal::{FlowGraph, Node};
use eel_base::{BlockNo, NoMemory};
use std::alloc::Global;

/// Of the loops about an edge so many count.
const MOST_LOOPS: u64 = 1000;

/// The weight of each edge, in order. It takes time linear in the words of the text and the edges.
pub fn weights(alloc: Global, blocks: &BlockList, graph: &FlowGraph) -> Result<Vec<u64>, NoMemory>
    requires { graph.now.blocks ≡ blocks.now.blocks }
    ensures weights { IfOk result (λ weights. weights.items ≡ weights_of blocks.now.blocks graph.now.edges) }
    ensures most { IfOk result (λ weights. All (λ weight. weight ≤ 2 ^ 32) weights.items) }
{
    let loops = loops_at_words(alloc, blocks)?;
    let edges = graph.edges();
    let mut weights = Vec::with_capacity(alloc, edges.len())?;
    for edge in edges {
        weights.push(weight(graph, &loops, edge.from))?;
    }
    Ok(weights)
}

/// The weight of an edge that leaves a node, where `loops` has for each word in how many loops it stands.
fn weight(graph: &FlowGraph, loops: &[u32], from: Node) -> u64
    requires loops { loops.now ≡ map (loops_at graph.now.blocks) (below graph.now.blocks.words) }
    requires from { IsNodeIn graph.now.blocks graph.now.opens from }
    ensures { result ≡ weight_from graph.now.blocks from }
{
    match from {
        Node::Block(block) => block_weight(graph, loops, block),
        Node::Landed(block) => block_weight(graph, loops, block),
        Node::X => 1,
    }
}

/// The weight of an edge that leaves a block or its landed copy.
fn block_weight(graph: &FlowGraph, loops: &[u32], block: BlockNo) -> u64
    requires loops { loops.now ≡ map (loops_at graph.now.blocks) (below graph.now.blocks.words) }
    requires block { block.0 < length graph.now.blocks.firsts }
    ensures { result ≡ block_weight graph.now.blocks block.0 }
{
    let last = graph.last(block).0;
    let about = loops[last as usize];
    1 + 8 * u64::from(about).min(MOST_LOOPS)
}
