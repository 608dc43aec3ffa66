//! The flow graph of a text: an edge for each way out of a block, with the delay slot that is run on it.
//!
//! The jump of an open switch has an edge for each node at which its targets land. A run may come to such a block, or to
//! that of the comparison, without having made the comparison: for it these blocks have a second node, the landed copy.
#![tactic(auto)]

use cfg_blocks::EdgeKind;
use eel_base::{BlockNo, WordNo};

mod edges;
mod flow;
mod landings;
mod loads;
mod nodes;
mod numbers;
mod opening;
mod opens;
mod tables;

pub use flow::{FlowGraph, graph};
pub use numbers::{kind_number, node_number, same_node};
pub use opens::OpenSwitch;

/// A block, all that lies outside the text, or the landed copy of a block.
#[derive(Clone, Copy, PartialEq, Eq, Debug, Drop)]
pub enum Node {
    Block(BlockNo),
    X,
    Landed(BlockNo),
}

/// The delay slot that is run on an edge: none, a word of the text, or the word behind its end.
#[derive(Clone, Copy, PartialEq, Eq, Debug, Drop)]
pub enum Slot {
    Nothing,
    Word(WordNo),
    Off,
}

/// An edge of the flow graph.
#[derive(Clone, Copy, PartialEq, Eq, Debug, Drop)]
pub struct Edge {
    pub from: Node,
    pub to: Node,
    pub kind: EdgeKind,
    pub slot: Slot,
}
