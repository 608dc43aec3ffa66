//! The images of words.

ghost use Rattle.std.specs.Prelude.{◌≡◌, ◌+◌, ◌-◌, ◌^◌, ◌<◌, ◌≤◌, ◌++◌, if◌then◌else◌, IsTrue, false, [], length, map, option_to_list, slice_get, Some, IfOk, OnOk};
ghost use Rattle.std.specs.List.{range_with_len};
ghost use Rattle.cfg_blocks.specs.declared.EdgeKind.TheVariants.{Fall};
ghost use Rattle.cfg_normal.specs.declared.Node.TheVariants.{Block};
ghost use Rattle.cfg_normal.specs.Landings.{IsNumbered};
ghost use Rattle.cfg_walk.specs.Walk.{edge_from, ends_block as ends_block_of};
ghost use Rattle.image_code.specs.Lookups.{is_land};
ghost use Rattle.image_code.specs.Made.{branch_image as branch_image_of, choice_of, distance_of, image as image_of, is_slots as is_slots_of, jump_by, jump_image_by, next_at as next_at_of, next_to, way_out as way_out_of};
ghost use Rattle.image_code.specs.Labels.{Image, labels_in_order, node_in_order};
ghost use Rattle.image_code.specs.Private.{pieces_for};
ghost use Rattle.v8_encode.specs.Code.{op2_fits};

use crate::maker::PieceMaker;
use crate::numbering::piece;
use crate::shape::{Exit, Head, NOP, Shape, SourceWord, bare, is_transfer, marked, push_piece};
use cfg_blocks::EdgeKind;
use cfg_normal::{FlowGraph, Node, node_number, same_node};
use eel_base::{Addr, BlockNo, NoMemory, PieceNo, Text, WordNo};
use jump_code::{free_register, other_register, translate_target_code};
use layout::Piece;
use std::alloc::Global;
use v8_decode::{Cond, Instr, Op2, Reg, decode};

// The conditions of `bn` and `ba`.
const NEVER: u8 = 0;

const ALWAYS: u8 = 8;

// The operands of a JMPL.
#[derive(Clone, Copy)]
struct JumpWord {
    rd: Reg,
    rs1: Reg,
    op2: Op2,
}

// ---- words and nodes

/// The block of a node, near which those of the next words lie; for X the first one.
pub(crate) fn block_of(node: Node) -> BlockNo {
    match node {
        Node::Block(block) | Node::Landed(block) => block,
        Node::X => BlockNo(0),
    }
}

// Whether a word is the last one of a node's block.
fn ends_block(graph: &FlowGraph, node: Node, word: WordNo) -> bool
    requires { IsNumbered (length graph.now.blocks.firsts) node }
    ensures { result ≡ ends_block_of graph.now node word.0 }
{
    match node {
        Node::Block(block) | Node::Landed(block) => word.0 == graph.last(block).0,
        Node::X => false,
    }
}

// Whether a word is the slot of the transfer before it.
fn is_slots(text: &Text, word: WordNo) -> bool
    requires word { word.0 < length text.now.words }
    ensures { result ≡ is_slots_of text.now word.0 }
{
    word.0 > 0 && is_transfer(text.word(WordNo(word.0 - 1)))
}

// How far the word with the piece of a switch's first entry lies from that entry.
fn distance(cases: Addr, first: u32, table: Addr) -> u32
    requires { first < 2 ^ 30 }
    ensures { result ≡ distance_of cases.0 first table.0 }
{
    cases.0.wrapping_add(4 * first).wrapping_sub(table.0)
}

impl PieceMaker<'_> {
    // ---- where control goes on

    // The node of a word's image in the order of the text: the landed copy of a jump's block, and else the block
    // itself. The block is looked for near one.
    fn node_of(&self, word: WordNo, near: BlockNo) -> Node
        requires word { word.0 < self.now.graph.now.blocks.words }
        ensures node { result ≡ node_in_order self.now.graph.now word.0 }
        ensures numbered { IsNumbered (length self.now.graph.now.blocks.firsts) result }
    {
        let block = self.graph.holding_near(word, near);
        if self.graph.jump_of(block).is_some() {
            Node::Landed(block)
        } else {
            Node::Block(block)
        }
    }

    // Where control goes on after a word that is no transfer: at the image of the next word, or behind the text's last
    // one out of the text. After the slot's word of a transfer that is another piece, which may stand elsewhere.
    fn next_after(&self, word: WordNo) -> Exit
        requires word { word.0 < length self.now.text.now.words }
        ensures { result ≡ next_to self.now.text.now self.now.graph.now word.0 }
    {
        let words = self.text.len();
        if word.0 + 1 >= words {
            Exit::Far(self.text.address(WordNo(words)))
        } else if is_slots(self.text, word) {
            Exit::Piece(PieceNo(word.0 + 1))
        } else {
            Exit::Behind
        }
    }

    // Where control goes on at a node after a word that is no transfer: in a switch's own blocks, which end in
    // transfers, at the next word's image.
    fn next_at(&self, node: Node, word: WordNo) -> Exit
        requires word { word.0 < length self.now.text.now.words }
        ensures { result ≡ next_at_of self.now.text.now self.now.graph.now node word.0 }
    {
        if same_node(node, self.node_of(word, block_of(node))) {
            self.next_after(word)
        } else {
            Exit::Behind
        }
    }

    // The edge to the next word, behind the last word of a block.
    fn edge_behind(&self, node: Node, word: WordNo) -> Option<u32>
        requires node { IsNumbered (length self.now.graph.now.blocks.firsts) node }
        ensures { option_to_list result
            ≡ (if ends_block_of self.now.graph.now node word.0 then edge_from self.now.graph.now node Fall else []) }
    {
        if ends_block(self.graph, node, word) {
            self.leaving(node, EdgeKind::Fall)
        } else {
            None
        }
    }

    // ---- transfers

    // The way along the edge of a kind that leaves a node.
    fn way_out(&self, node: Node, kind: EdgeKind) -> Result<PieceNo, NoMemory>
        requires node { IsNumbered (length self.now.graph.now.blocks.firsts) node }
        requires kind { is_land kind ≡ false }
        ensures { IfOk result (λ p. p.0 ≡ way_out_of self.now.text.now self.now.graph.now node kind) }
    {
        match self.leaving(node, kind) {
            Some(edge) => piece(u64::from(self.text.len()) + u64::from(edge)),
            None => Ok(PieceNo(0)),
        }
    }

    // The image of a branch. `ba` and `bn` are a nop and a jump to the way along their only edge.
    fn branch_image(&self, visit: SourceWord, node: Node, cond: Cond) -> Result<Shape, NoMemory>
        requires node { IsNumbered (length self.now.graph.now.blocks.firsts) node }
        ensures { IfOk result (λ p. p ≡ branch_image_of self.now.text.now self.now.graph.now visit node cond) }
    {
        let taken = self.way_out(node, EdgeKind::Taken)?;
        let untaken = self.way_out(node, EdgeKind::Untaken)?;
        Ok(match cond.number() {
            ALWAYS => marked(visit, Head::Word(NOP), None, Exit::Piece(taken)),
            NEVER => marked(visit, Head::Word(NOP), None, Exit::Piece(untaken)),
            _ => marked(
                visit,
                Head::Branch { cond, to: taken },
                None,
                Exit::Piece(untaken),
            ),
        })
    }

    // The image of a JMPL at the block itself of an open switch.
    fn switch_jump(&self, visit: SourceWord, rd: Reg, number: usize) -> Shape
        ensures { result ≡ choice_of self.now.text.now self.now.graph.now self.now.jumps.0 self.now.cases.0 visit rd
            (Some number) (slice_get self.now.graph.now.opens number) }
    {
        match self.graph.opens().get(number) {
            Some(found) => {
                let first = self.entry(number);
                let distance = distance(self.cases, first, found.switch().table);
                marked(visit, Head::SwitchJump { rd, distance }, None, Exit::Behind)
            }
            None => bare(None, Exit::Behind),
        }
    }

    // The image of any other JMPL, which looks up in the jumps' table.
    fn jump_out(&self, visit: SourceWord, node: Node, jump: JumpWord) -> Result<Shape, NoMemory>
        requires node { IsNumbered (length self.now.graph.now.blocks.firsts) node }
        requires fits { IsTrue (op2_fits jump.op2) }
        ensures { IfOk result (λ p. p ≡ jump_by self.now.text.now self.now.graph.now self.now.jumps.0 self.now.cases.0
            visit node jump.rd jump.rs1 jump.op2) }
    {
        let JumpWord { rd, rs1, op2 } = jump;
        let way = self.way_out(node, EdgeKind::Out)?;
        let first = free_register(rd, rs1, &op2);
        let second = other_register(rd, rs1, &op2);
        let code = translate_target_code(first, second, rs1, op2, self.jumps);
        Ok(marked(visit, Head::LookUp { code, rd }, None, Exit::Piece(way)))
    }

    // The image of a JMPL at a block itself.
    fn jump_at(&self, visit: SourceWord, block: BlockNo, jump: JumpWord) -> Result<Shape, NoMemory>
        requires block { block.0 < length self.now.graph.now.blocks.firsts }
        requires fits { IsTrue (op2_fits jump.op2) }
        ensures { IfOk result (λ p. p ≡ jump_image_by self.now.text.now self.now.graph.now self.now.jumps.0
            self.now.cases.0 visit (Block block) jump.rd jump.rs1 jump.op2) }
    {
        let node = Node::Block(block);
        match self.graph.jump_of(block) {
            Some(number) => Ok(self.switch_jump(visit, jump.rd, number)),
            None => self.jump_out(visit, node, jump),
        }
    }

    // The image of a JMPL.
    fn jump_image(&self, visit: SourceWord, node: Node, jump: JumpWord) -> Result<Shape, NoMemory>
        requires node { IsNumbered (length self.now.graph.now.blocks.firsts) node }
        requires fits { IsTrue (op2_fits jump.op2) }
        ensures { IfOk result (λ p. p ≡ jump_image_by self.now.text.now self.now.graph.now self.now.jumps.0
            self.now.cases.0 visit node jump.rd jump.rs1 jump.op2) }
    {
        match node {
            Node::Block(block) => self.jump_at(visit, block, jump),
            Node::Landed(_) | Node::X => self.jump_out(visit, node, jump),
        }
    }

    // ---- images

    // The image of a word, for a node whose block holds it.
    fn image(&self, node: Node, word: WordNo) -> Result<Shape, NoMemory>
        requires node { IsNumbered (length self.now.graph.now.blocks.firsts) node }
        requires word { word.0 < length self.now.text.now.words }
        ensures { IfOk result (λ p. p ≡ image_of self.now.text.now self.now.graph.now self.now.jumps.0
            self.now.cases.0 node word.0) }
    {
        let visit = SourceWord {
            address: self.text.address(word),
            node: node_number(self.graph, node),
        };
        match decode(self.text.word(word)) {
            Instr::Branch { cond, .. } => self.branch_image(visit, node, cond),
            Instr::Call { .. } => {
                let way = self.way_out(node, EdgeKind::Call)?;
                Ok(marked(visit, Head::Call, None, Exit::Piece(way)))
            }
            Instr::Jmpl { rd, rs1, op2 } => {
                self.jump_image(visit, node, JumpWord { rd, rs1, op2 })
            }
            _ => {
                let edge = self.edge_behind(node, word);
                let next = self.next_at(node, word);
                Ok(marked(visit, Head::Word(self.text.word(word)), edge, next))
            }
        }
    }

    /// Adds the images of the words in the order of the text.
    pub(crate) fn push_images(&self, alloc: Global, list: &mut Vec<Piece>) -> Result<(), NoMemory>
        ensures { OnOk result (list.new.items ≡ list.old.items
            ++ pieces_for self.now (labels_in_order self.now.text.now self.now.graph.now)) }
    {
        let mut near = BlockNo(0);
        for word in 0..self.text.len() {
            let word = WordNo(word);
            let node = self.node_of(word, near);
            push_piece(alloc, list, self.codes, self.image(node, word)?)?;
            near = block_of(node);
        }
        Ok(())
    }

    /// Adds the images of so many words at a node.
    pub(crate) fn push_images_at(
        &self,
        alloc: Global,
        list: &mut Vec<Piece>,
        node: Node,
        from: u32,
        count: u32,
    ) -> Result<(), NoMemory>
        requires node { IsNumbered (length self.now.graph.now.blocks.firsts) node }
        requires words { from + count ≤ length self.now.text.now.words }
        ensures { OnOk result (list.new.items ≡ list.old.items
            ++ pieces_for self.now (map (Image node) (range_with_len from count))) }
    {
        let _words = self.text.len();
        for word in from..from + count {
            push_piece(alloc, list, self.codes, self.image(node, WordNo(word))?)?;
        }
        Ok(())
    }
}
