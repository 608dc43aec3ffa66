//! The numbers of pieces.

ghost use Rattle.std.specs.Prelude.{◌≡◌, ◌+◌, ◌-◌, ◌<◌, ◌^◌, length, IfOk};
ghost use Rattle.cfg_normal.specs.Landings.{IsNumbered};
ghost use Rattle.image_code.specs.Labels.{enter_number, foreign_number as foreign_number_of};
ghost use Rattle.image_code.specs.Lookups.{IsWordOf, saved_before, image_after};

use crate::firsts::small;
use crate::maker::PieceMaker;
use cfg_normal::{Node, node_number};
use eel_base::{BlockNo, NoMemory, PieceNo, WordNo};

/// The piece with a number.
pub(crate) fn piece(number: u64) -> Result<PieceNo, NoMemory>
    ensures { IfOk result (λ p. p.0 ≡ number) }
{
    Ok(PieceNo(small(number)?))
}

impl PieceMaker<'_> {
    /// The foreign piece: the last one.
    pub(crate) fn foreign(&self) -> Result<PieceNo, NoMemory>
        ensures { IfOk result (λ p. p.0 ≡ foreign_number_of self.now.text.now self.now.graph.now) }
    {
        let entries = self.entry(self.graph.opens().len());
        piece(u64::from(self.behind()) + u64::from(entries))
    }

    // How many pieces of a block stand before a word's image and not for its words: behind the load of an open
    // switch there is the one that saves the load's address.
    fn saved_before(&self, block: BlockNo, word: WordNo) -> u64
        requires block { block.0 < length self.now.graph.now.blocks.firsts }
        ensures { result ≡ saved_before self.now.text.now self.now.graph.now block.0 word.0 }
    {
        match self.graph.jump_of(block) {
            Some(number) => { if word.0 > self.load(number) { 1 } else { 0 } }
            None => 0,
        }
    }

    // The number of a word's image at a node, as if each piece of its block were for a word.
    fn image_after(&self, node: Node, block: BlockNo, word: WordNo) -> u64
        requires node { IsNumbered (length self.now.graph.now.blocks.firsts) node }
        requires block { block.0 < length self.now.graph.now.blocks.firsts }
        ensures number { result ≡ image_after self.now.graph.now self.now.lookups.now.images.items node block.0 word.0 }
        ensures few { result < 2 ^ 33 }
    {
        let first = self.first_image(node_number(self.graph, node));
        u64::from(first) + u64::from(word.0.saturating_sub(self.graph.first(block).0))
    }

    /// The piece where control enters a word at a node whose block holds it.
    pub(crate) fn enter(&self, node: Node, word: WordNo) -> Result<PieceNo, NoMemory>
        requires { IsWordOf self.now.graph.now node word.0 }
        ensures { IfOk result (λ p. p.0 ≡ enter_number self.now.text.now self.now.graph.now node word.0) }
    {
        match node {
            Node::Block(block) => {
                piece(self.image_after(node, block, word) + self.saved_before(block, word))
            }
            Node::Landed(block) => piece(self.image_after(node, block, word)),
            // X has no words.
            Node::X => self.foreign(),
        }
    }
}
