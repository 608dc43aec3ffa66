//! Trees of a graph that is given as a list of links: a heaviest one, the edges off it, and whether given edges are one.
//!
//! Source: Thomas Ball and James R. Larus, "Optimally Profiling and Tracing Programs", ACM TOPLAS 16 (4), 1994. The tree
//! grows from one node, as by Jarník and Prim.
#![tactic(auto)]

mod counters;
mod growth;
mod rows;
mod spanning;

pub use counters::{counted, off_tree};
pub use growth::grow;
pub use spanning::span;

/// One step of a tree's growth: the edge that was taken, and the node that it brought in.
#[derive(Clone, Copy, Drop)]
pub struct Join {
    pub edge: usize,
    pub node: usize,
}

/// A tree as it grew from its root.
#[derive(Drop)]
pub struct Tree {
    pub root: usize,
    /// For each node number, whether the tree has it.
    pub reached: Vec<bool>,
    /// The edges of the tree, in the order in which they were taken.
    pub joins: Vec<Join>,
}
