//! The landings at words, and the pieces to which the table leads.

ghost use Rattle.std.specs.Prelude.{◌≡◌, ◌<◌, ◌++◌, length, map, option_to_list, Some, IfOk, OnOk};
ghost use Rattle.cfg_blocks.specs.Blocks.{below};
ghost use Rattle.cfg_normal.specs.Graph.{lands};
ghost use Rattle.cfg_normal.specs.Landings.{IsNumbered};
ghost use Rattle.image_code.specs.Made.{landing as landing_of, lands_at as lands_at_of};
ghost use Rattle.image_code.specs.Labels.{Landing};
ghost use Rattle.image_code.specs.Private.{pieces_for};
ghost use Rattle.image_code.specs.Store.{operations_on};

use crate::images::block_of;
use crate::maker::PieceMaker;
use crate::numbering::piece;
use crate::shape::{Exit, Shape, bare, push_piece};
use cfg_normal::Node;
use eel_base::{BlockNo, NoMemory, PieceNo, WordNo};
use layout::Piece;
use snippets::Snippet;
use std::alloc::Global;

// How many operations the snippet on an edge has, if there is one.
fn operations(snips: &[Snippet], edge: Option<u32>) -> usize
    ensures { result ≡ operations_on snips.now (option_to_list edge) }
{
    match edge {
        Some(number) => match snips.get(number as usize) {
            Some(snippet) => snippet.ops().len(),
            None => 0,
        },
        None => 0,
    }
}

impl PieceMaker<'_> {
    // ---- landings

    // The landing at a word and its node: the snippet of its node's landing, and the way to where control enters the
    // word there.
    fn landing(&self, word: WordNo, node: Node) -> Result<Shape, NoMemory>
        requires word { word.0 < length self.now.text.now.words }
        requires node { node ≡ lands self.now.graph.now (Some word.0) }
        requires numbered { IsNumbered (length self.now.graph.now.blocks.firsts) node }
        ensures { IfOk result (λ p. p ≡ landing_of self.now.text.now self.now.graph.now word.0) }
    {
        let edge = self.landing_edge(node);
        let to = self.enter(node, word)?;
        Ok(bare(edge, Exit::Piece(to)))
    }

    /// Adds the landings at the words.
    pub(crate) fn push_landings(&self, alloc: Global, list: &mut Vec<Piece>) -> Result<(), NoMemory>
        ensures { OnOk result (list.new.items ≡ list.old.items
            ++ pieces_for self.now (map Landing (below (length self.now.text.now.words)))) }
    {
        let mut near = BlockNo(0);
        for word in 0..self.text.len() {
            let word = WordNo(word);
            let node = self.graph.lands_near(word, near);
            push_piece(alloc, list, self.codes, self.landing(word, node)?)?;
            near = block_of(node);
        }
        Ok(())
    }

    // ---- the table

    // The piece to which the table leads from a word, at the node where control lands that comes to it: where some
    // operation is made there its landing, and else where control enters its image.
    fn lands_at(&self, snips: &[Snippet], word: WordNo, node: Node) -> Result<PieceNo, NoMemory>
        requires word { word.0 < length self.now.text.now.words }
        requires node { node ≡ lands self.now.graph.now (Some word.0) }
        requires numbered { IsNumbered (length self.now.graph.now.blocks.firsts) node }
        ensures { IfOk result (λ p. p.0 ≡ lands_at_of self.now.text.now self.now.graph.now snips.now word.0) }
    {
        if operations(snips, self.landing_edge(node)) == 0 {
            self.enter(node, word)
        } else {
            let ways = self.edges_but_landings().len() as u64;
            piece(u64::from(self.text.len()) + ways + u64::from(word.0))
        }
    }

    /// The pieces to which the table leads from the words.
    pub(crate) fn landings(
        &self,
        alloc: Global,
        snips: &[Snippet],
    ) -> Result<Vec<PieceNo>, NoMemory>
        ensures { IfOk result (λ v. map (λ (n : PieceNo). n.0) v.items
            ≡ map (lands_at_of self.now.text.now self.now.graph.now snips.now)
            (below (length self.now.text.now.words))) }
    {
        let mut landings = Vec::with_capacity(alloc, self.text.len() as usize)?;
        let mut near = BlockNo(0);
        for word in 0..self.text.len() {
            let word = WordNo(word);
            let node = self.graph.lands_near(word, near);
            landings.push(self.lands_at(snips, word, node)?)?;
            near = block_of(node);
        }
        Ok(landings)
    }
}
