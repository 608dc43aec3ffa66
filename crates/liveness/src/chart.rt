//! A text, its graph, and the places of that.
ghost use Rattle.std.specs.Prelude.{◌≡◌, ◌+◌, ◌^◌, ◌<◌, ◌≤◌, ◌↔◌, length, Some, IsTrue};
ghost use Rattle.cfg_blocks.specs.Code.{AreFirsts};
ghost use Rattle.cfg_normal.specs.Graph.{lands};
ghost use Rattle.cfg_normal.specs.Code.{IsNodeIn};
ghost use Rattle.cfg_normal.specs.Numbers.{node_number as node_number_of, node_numbers};
ghost use Rattle.liveness.specs.Search.{is_marked, node_place, nodes_from, place_of, AreCopies, IsOf};

use crate::places::Places;
use cfg_normal::{FlowGraph, Node, node_number};
use eel_base::{Text, WordNo};

/// A text, its graph, and the places of that.
#[derive(Clone, Copy)]
pub(crate) struct Chart<'a> {
    pub text: &'a Text,
    pub graph: &'a FlowGraph,
    pub places: &'a Places,
    ghost of_text: { graph.now.blocks.words ≡ length text.now.words },
    ghost few: { graph.now.blocks.words ≤ 2 ^ 20 },
    ghost of_firsts: { AreFirsts graph.now.blocks.words graph.now.blocks.firsts },
    ghost of_copies: { AreCopies graph.now (length graph.now.blocks.firsts) places.now.copies.items },
    ghost of_nodes: { places.now.nodes ≡ nodes_from graph.now },
    ghost of_marks: { length places.now.marks.items ≤ node_numbers graph.now },
}

impl Chart<'_> {
    /// How many places there are.
    pub(crate) fn count(&self) -> usize
        ensures count { result ≡ nodes_from self.now.graph.now + length self.now.places.now.marks.items }
        ensures few { result < 2 ^ 23 }
    {
        self.places.nodes as usize + self.places.marks.len()
    }

    /// The place of a word in a node.
    #[inline]
    pub(crate) fn place(&self, node: Node, word: u32) -> u32
        requires of { IsOf self.now.graph.now node word }
        ensures place { result ≡ place_of self.now.graph.now node word }
        ensures within { result < nodes_from self.now.graph.now }
    {
        match node {
            Node::Block(_) => word,
            Node::Landed(block) => {
                self.places.copies[block.0 as usize] + (word - self.graph.first(block).0)
            }
            Node::X => word,
        }
    }

    /// The place of a node.
    pub(crate) fn node(&self, node: Node) -> u32
        requires node { IsNodeIn self.now.graph.now.blocks self.now.graph.now.opens node }
        ensures { result ≡ node_place self.now.graph.now node }
    {
        self.places.nodes + node_number(self.graph, node)
    }

    /// Whether a node has a place.
    pub(crate) fn has_node(&self, node: Node) -> bool
        requires node { IsNodeIn self.now.graph.now.blocks self.now.graph.now.opens node }
        ensures { result ≡ is_marked self.now.places.now.marks.items (node_number_of self.now.graph.now node) }
    {
        match self
            .places
            .marks
            .get(node_number(self.graph, node) as usize)
        {
            Some(mark) => *mark,
            None => false,
        }
    }

    /// Whether control lands in the node that comes to its word from outside.
    #[inline]
    pub(crate) fn lands_at(&self, node: Node, word: u32) -> bool
        requires of { IsOf self.now.graph.now node word }
        ensures { IsTrue result ↔ (lands self.now.graph.now (Some word) ≡ node) }
    {
        match node {
            Node::Block(block) => {
                !self.graph.is_copied(block) || self.graph.lands(WordNo(word)) == node
            }
            _ => self.graph.lands(WordNo(word)) == node,
        }
    }
}
