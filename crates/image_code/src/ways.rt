//! The ways along edges.

ghost use Rattle.std.specs.Prelude.{◌≡◌, ◌+◌, ◌*◌, ◌^◌, ◌<◌, ◌%◌, ◌++◌, length, map, slice_index, IfOk, OnOk};
ghost use Rattle.std.specs.Int.{w32, cast_unsigned};
ghost use Rattle.cfg_normal.specs.Code.{IsEdgeIn, IsNodeIn};
ghost use Rattle.cfg_walk.specs.Matches.{last_in as last_in_of, target_along, way_address};
ghost use Rattle.image_code.specs.Made.{first_word as first_word_of, goes_behind, goes_on, slot_copy as slot_copy_of, way_along, way_by as way_by_of};
ghost use Rattle.image_code.specs.Lookups.{IsReached};
ghost use Rattle.image_code.specs.Labels.{Way};
ghost use Rattle.cfg_normal.specs.Code.{edges_but_landings};
ghost use Rattle.image_code.specs.Private.{pieces_for};
ghost use Rattle.cfg_blocks.specs.Blocks.{below};
ghost use Rattle.v8_decode.specs.Words.{decode_of};

use crate::maker::PieceMaker;
use crate::shape::{Exit, Head, Shape, SourceWord, bare, is_transfer, marked, push_piece, unused};
use cfg_blocks::EdgeKind;
use cfg_normal::{Edge, FlowGraph, Node, Slot, node_number};
use eel_base::{Addr, NoMemory, Text, WordNo};
use layout::Piece;
use std::alloc::Global;
use v8_decode::{Instr, decode};

// ---- where edges lead

// The address that lies so many words from one.
fn displaced(address: Addr, displacement: i32) -> Addr
    ensures { result.0 ≡ (address.0 + 4 * cast_unsigned w32 displacement) % 2 ^ 32 }
{
    let distance = displacement.cast_unsigned().wrapping_mul(4);
    Addr(address.0.wrapping_add(distance))
}

// The address to which a word leads along an edge of a kind: that of its target, or the one behind its slot.
fn target(text: &Text, word: WordNo, kind: EdgeKind) -> Addr
    requires word { word.0 < length text.now.words }
    ensures { result.0 ≡ target_along text.now word.0 kind (decode_of (slice_index text.now.words word.0)) }
{
    // The text ends below 2^31.
    let _words = text.len();
    let address = text.address(word);
    match (kind, decode(text.word(word))) {
        (EdgeKind::Taken, Instr::Branch { disp22, .. }) => displaced(address, disp22),
        (EdgeKind::Call, Instr::Call { disp30 }) => displaced(address, disp30),
        _ => Addr(address.0 + 8),
    }
}

// The first word of a node's block.
fn first_word(graph: &FlowGraph, node: Node) -> WordNo
    requires node { IsNodeIn graph.now.blocks graph.now.opens node }
    ensures { result.0 ≡ first_word_of graph.now node }
{
    match node {
        Node::Block(block) | Node::Landed(block) => graph.first(block),
        Node::X => WordNo(0),
    }
}

impl PieceMaker<'_> {
    // ---- where edges lead

    // The last word of a node's block. X has none, and word 0 stands for it.
    fn last_in(&self, node: Node) -> WordNo
        requires node { IsNodeIn self.now.graph.now.blocks self.now.graph.now.opens node }
        ensures word { result.0 ≡ last_in_of self.now.graph.now node }
        ensures within { result.0 < length self.now.text.now.words }
    {
        match node {
            Node::Block(block) | Node::Landed(block) => self.graph.last(block),
            Node::X => WordNo(0),
        }
    }

    // Where control goes on along an edge, to a word at its node.
    fn next_along(&self, edge: &Edge, to: WordNo) -> Result<Exit, NoMemory>
        requires edge { IsEdgeIn self.now.graph.now.blocks self.now.graph.now.opens edge.now }
        requires to { IsReached self.now.graph.now edge.now.to to.0 }
        ensures { IfOk result (λ next. next ≡ goes_on self.now.text.now self.now.graph.now edge.now.to to.0
            (way_address self.now.text.now self.now.graph.now edge.now.from edge.now.kind)) }
    {
        match edge.to {
            Node::X => {
                let last = self.last_in(edge.from);
                Ok(Exit::Far(target(self.text, last, edge.kind)))
            }
            node => Ok(Exit::Piece(self.enter(node, to)?)),
        }
    }

    // Where control goes on behind the copy of a slot's word.
    fn next_behind(&self, edge: &Edge, to: WordNo) -> Result<Exit, NoMemory>
        requires edge { IsEdgeIn self.now.graph.now.blocks self.now.graph.now.opens edge.now }
        requires to { IsReached self.now.graph.now edge.now.to to.0 }
        ensures { IfOk result (λ next. next ≡ goes_behind self.now.text.now self.now.graph.now edge.now to.0) }
    {
        match edge.kind {
            EdgeKind::Out => Ok(Exit::Found),
            _ => self.next_along(edge, to),
        }
    }

    // ---- ways

    // The copy of a slot's word on an edge with this number, and what comes behind it. A transfer in a slot ends the
    // run.
    fn slot_copy(
        &self,
        visit: SourceWord,
        word: u32,
        number: u32,
        edge: &Edge,
        to: WordNo,
    ) -> Result<Shape, NoMemory>
        requires edge { IsEdgeIn self.now.graph.now.blocks self.now.graph.now.opens edge.now }
        requires to { IsReached self.now.graph.now edge.now.to to.0 }
        ensures { IfOk result (λ p. p ≡ slot_copy_of self.now.text.now self.now.graph.now self.now.table.0
            visit word number edge.now to.0) }
    {
        if is_transfer(word) {
            return Ok(marked(visit, Head::Couple, None, Exit::Behind));
        }
        let next = self.next_behind(edge, to)?;
        Ok(marked(visit, Head::Word(word), Some(number), next))
    }

    /// The way along an edge with this number, to a word at its node, with its snippet. A slot behind the
    /// text has its place where the table begins.
    pub(crate) fn way_by(&self, number: u32, edge: &Edge, to: WordNo) -> Result<Shape, NoMemory>
        requires edge { IsEdgeIn self.now.graph.now.blocks self.now.graph.now.opens edge.now }
        requires to { IsReached self.now.graph.now edge.now.to to.0 }
        ensures { IfOk result (λ p. p ≡ way_by_of self.now.text.now self.now.graph.now self.now.table.0
            number edge.now to.0 edge.now.slot) }
    {
        match edge.slot {
            Slot::Nothing => Ok(bare(Some(number), self.next_along(edge, to)?)),
            Slot::Off => Ok(bare(None, Exit::Far(self.table))),
            Slot::Word(slot) => {
                let visit = SourceWord {
                    address: self.text.address(slot),
                    node: node_number(self.graph, edge.from),
                };
                self.slot_copy(visit, self.text.word(slot), number, edge, to)
            }
        }
    }

    // The way along an edge with this number; Fall edges have none, and Case edges have theirs by entries.
    fn way(&self, number: u32, edge: &Edge) -> Result<Shape, NoMemory>
        requires edge { IsEdgeIn self.now.graph.now.blocks self.now.graph.now.opens edge.now }
        ensures { IfOk result (λ p. p ≡ way_along self.now.text.now self.now.graph.now self.now.table.0
            number edge.now) }
    {
        match edge.kind {
            EdgeKind::Fall | EdgeKind::Case => Ok(unused()),
            _ => self.way_by(number, edge, first_word(self.graph, edge.to)),
        }
    }

    /// Adds the ways along the edges but for the landings.
    pub(crate) fn push_ways(&self, alloc: Global, list: &mut Vec<Piece>) -> Result<(), NoMemory>
        ensures { OnOk result (list.new.items ≡ list.old.items
            ++ pieces_for self.now (map Way (below (length (edges_but_landings self.now.graph.now))))) }
    {
        for (number, edge) in self.edges_but_landings().iter().enumerate() {
            let number = number as u32;
            push_piece(alloc, list, self.codes, self.way(number, edge)?)?;
        }
        Ok(())
    }
}
