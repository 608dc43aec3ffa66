//! The flow graph of a text.
ghost use Rattle.std.specs.Prelude.{◌≡◌, ◌+◌, ◌^◌, ◌<◌, ◌≤◌, ◌-◌, length, slice_index, Some, IfOk};
ghost use Rattle.std.specs.List.{All};
ghost use Rattle.std.specs.Option.{is_some};
ghost use Rattle.cfg_blocks.specs.Blocks.{block_end, end_of, holding_of, last_word, size_of};
ghost use Rattle.cfg_normal.specs.Graph.{graph_of, lands};
ghost use Rattle.cfg_normal.specs.Code.{IsGraph, IsTableIn, edges_but_landings, jump_number};
ghost use Rattle.cfg_normal.specs.Landings.{IsNumbered};
ghost use Rattle.cfg_normal.specs.Opens.{is_copied, jumps_in, opens_of};

use crate::edges::edges_of;
use crate::nodes::{Nodes, nodes_of};
use crate::{Edge, Node, OpenSwitch};
use cfg_blocks::{BlockEnd, BlockList, Switch};
use eel_base::{BlockNo, NoMemory, Text, WordNo};
use std::alloc::Global;
use std::marker::Model;

/// The flow graph of a text.
#[derive(Drop)]
pub struct FlowGraph {
    nodes: Nodes,
    edges: Vec<Edge>,
    /// How many edges are no landings. The landings come behind them.
    ways: usize,
}

impl Model for FlowGraph {
    ghost use Rattle.cfg_normal.specs.Graph.{Graph};
    ghost use Rattle.cfg_normal.specs.Landings.{IsFlowGraph};

    ghost Value = { Graph };

    ghost view = { λ g. record { blocks = g.nodes.blocks; opens = g.nodes.opens; edges = g.edges.items } };

    ghost invariant = { λ g.
        IsFlowGraph (record { blocks = g.nodes.blocks; opens = g.nodes.opens; edges = g.edges.items }) g.ways };
}

impl FlowGraph {
    /// The edges: those that leave blocks, those that leave landed copies, and then the landings.
    #[inline]
    pub fn edges(&self) -> &[Edge]
        ensures edges { result.now ≡ self.now.edges }
        ensures graph { IsGraph self.now }
    {
        &self.edges
    }

    /// The edges but for the landings, which come last.
    #[inline]
    pub fn edges_but_landings(&self) -> &[Edge]
        ensures edges { result.now ≡ edges_but_landings self.now }
        ensures graph { IsGraph self.now }
    {
        &self.edges[..self.ways]
    }

    /// The open switches, in address order of their jumps.
    #[inline]
    pub fn opens(&self) -> &[OpenSwitch]
        ensures { result.now ≡ self.now.opens }
    {
        &self.nodes.opens
    }

    /// The node at which control lands that comes to the word `w` from outside: X where the text has no such word.
    pub fn lands(&self, w: WordNo) -> Node
        ensures node { result ≡ lands self.now (Some w.0) }
        ensures numbered { IsNumbered (length self.now.blocks.firsts) result }
    {
        self.lands_near(w, BlockNo(0))
    }

    /// The same as `lands`, where the block of the word is looked for as by `holding_near`.
    pub fn lands_near(&self, w: WordNo, near: BlockNo) -> Node
        ensures node { result ≡ lands self.now (Some w.0) }
        ensures numbered { IsNumbered (length self.now.blocks.firsts) result }
    {
        if w.0 < self.nodes.words() {
            self.nodes.lands(w, near)
        } else {
            Node::X
        }
    }

    /// Whether the block `b` has a landed copy.
    pub fn is_copied(&self, b: BlockNo) -> bool
        requires { b.0 < length self.now.blocks.firsts }
        ensures { result ≡ is_copied self.now.opens b.0 }
    {
        self.nodes.is_copied(b)
    }

    /// The number of the open switch whose jump ends the block `b`.
    pub fn jump_of(&self, b: BlockNo) -> Option<usize>
        requires { b.0 < length self.now.blocks.firsts }
        ensures number { result ≡ jump_number self.now.opens b.0 }
        ensures found { is_some result ≡ jumps_in self.now.opens b.0 }
    {
        self.nodes.jump_of(b)
    }

    /// How many blocks there are.
    #[inline]
    pub fn count(&self) -> u32
        ensures count { result ≡ length self.now.blocks.firsts }
        ensures some { 1 ≤ result }
    {
        self.nodes.blocks.count()
    }

    /// The first word of the block `b`.
    #[inline]
    pub fn first(&self, b: BlockNo) -> WordNo
        requires { b.0 < length self.now.blocks.firsts }
        ensures first { result.0 ≡ slice_index self.now.blocks.firsts b.0 }
        ensures within { result.0 < self.now.blocks.words }
    {
        self.nodes.blocks.first(b)
    }

    /// How many words the block `b` has.
    #[inline]
    pub fn words(&self, b: BlockNo) -> u32
        requires { b.0 < length self.now.blocks.firsts }
        ensures size { result ≡ size_of self.now.blocks b.0 }
        ensures some { 1 ≤ result }
        ensures within { slice_index self.now.blocks.firsts b.0 + result ≤ self.now.blocks.words }
        ensures few { self.now.blocks.words ≤ 2 ^ 20 }
    {
        self.nodes.blocks.words(b)
    }

    /// The last word of the block `b`.
    #[inline]
    pub fn last(&self, b: BlockNo) -> WordNo
        requires { b.0 < length self.now.blocks.firsts }
        ensures last { result.0 ≡ last_word self.now.blocks.firsts self.now.blocks.words b.0 }
        ensures above { slice_index self.now.blocks.firsts b.0 ≤ result.0 }
        ensures within { result.0 < self.now.blocks.words }
        ensures few { self.now.blocks.words ≤ 2 ^ 20 }
    {
        self.nodes.blocks.last(b)
    }

    /// How control leaves the last word of the block `b`.
    #[inline]
    pub fn end(&self, b: BlockNo) -> BlockEnd
        requires { b.0 < length self.now.blocks.firsts }
        ensures { result ≡ end_of self.now.blocks b.0 }
    {
        self.nodes.blocks.end(b)
    }

    /// The block that holds the word `w`.
    #[inline]
    pub fn holding(&self, w: WordNo) -> BlockNo
        requires { w.0 < self.now.blocks.words }
        ensures block { result.0 ≡ holding_of self.now.blocks w.0 }
        ensures within { result.0 < length self.now.blocks.firsts }
        ensures above { slice_index self.now.blocks.firsts result.0 ≤ w.0 }
        ensures below { w.0 < block_end self.now.blocks.firsts self.now.blocks.words result.0 }
    {
        self.nodes.blocks.holding(w)
    }

    /// The block that holds the word `w`. `near` and the block behind it are asked first, so that for words in order, each
    /// near the block of the one before, none is searched for.
    #[inline]
    pub fn holding_near(&self, w: WordNo, near: BlockNo) -> BlockNo
        requires { w.0 < self.now.blocks.words }
        ensures block { result.0 ≡ holding_of self.now.blocks w.0 }
        ensures within { result.0 < length self.now.blocks.firsts }
        ensures above { slice_index self.now.blocks.firsts result.0 ≤ w.0 }
        ensures below { w.0 < block_end self.now.blocks.firsts self.now.blocks.words result.0 }
    {
        self.nodes.blocks.holding_near(w, near)
    }
}

/// The flow graph of a text that was cut into blocks, whose program starts at the word `entry`. Of its switches, in
/// address order of their jumps, those that can be are open.
pub fn graph(
    alloc: Global,
    text: &Text,
    blocks: &BlockList,
    entry: WordNo,
    switches: &[Switch],
) -> Result<FlowGraph, NoMemory>
    requires made { blocks.now.blocks.words ≡ length text.now.words }
    requires tables { All (IsTableIn text.now) switches.now }
    ensures { IfOk result (λ graph. graph ≡ graph_of blocks.now.blocks (opens_of text.now blocks.now switches.now)) }
{
    let nodes = nodes_of(alloc, text, blocks, switches)?;
    let (edges, ways) = edges_of(alloc, &nodes)?;
    Ok(FlowGraph { nodes, edges, ways })
}
