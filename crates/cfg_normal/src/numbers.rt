//! Nodes and kinds of edges by numbers, and which nodes are the same.
ghost use Rattle.std.specs.Prelude.{◌≡◌, ◌^◌, ◌<◌, ◌≤◌, length};
ghost use Rattle.cfg_normal.specs.Landings.{IsNumbered};
ghost use Rattle.cfg_normal.specs.Nodes.{same_node as same_node_of};
ghost use Rattle.cfg_normal.specs.Numbers.{kind_number as kind_number_of, node_number as node_number_of, node_numbers};

use crate::{FlowGraph, Node};
use cfg_blocks::EdgeKind;

/// A block's own number, the number of blocks for all that lies outside, and those behind it for landed copies.
pub fn node_number(graph: &FlowGraph, node: Node) -> u32
    requires { IsNumbered (length graph.now.blocks.firsts) node }
    ensures number { result ≡ node_number_of graph.now node }
    ensures within { result < node_numbers graph.now }
    ensures few { node_numbers graph.now ≤ 2 ^ 22 }
{
    // A graph has few blocks.
    let _edges = graph.edges();
    match node {
        Node::Block(block) => block.0,
        Node::X => graph.count(),
        Node::Landed(block) => graph.count() + 1 + block.0,
    }
}

/// The kinds of edges in their order.
pub fn kind_number(kind: EdgeKind) -> u32
    ensures number { result ≡ kind_number_of kind }
    ensures few { result < 7 }
{
    match kind {
        EdgeKind::Fall => 0,
        EdgeKind::Taken => 1,
        EdgeKind::Untaken => 2,
        EdgeKind::Call => 3,
        EdgeKind::Out => 4,
        EdgeKind::Land => 5,
        EdgeKind::Case => 6,
    }
}

/// Whether two nodes are the same.
pub fn same_node(one: Node, other: Node) -> bool
    ensures { result ≡ same_node_of one other }
{
    match (one, other) {
        (Node::Block(one), Node::Block(other)) => one.0 == other.0,
        (Node::Landed(one), Node::Landed(other)) => one.0 == other.0,
        (Node::X, Node::X) => true,
        _ => false,
    }
}
