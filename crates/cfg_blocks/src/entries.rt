//! What leads to each block: first for each word, then for the first word of each block.
ghost use Rattle.std.specs.Prelude.{◌≡◌, ℕ, ◌<◌, ◌∷◌, [], length, map, IfOk};
ghost use Rattle.cfg_blocks.specs.Arrivals.{added, added_all, counted, counted_from, into_at, into_first, into_in, is_bare_in};
ghost use Rattle.cfg_blocks.specs.Blocks.{below};
ghost use Rattle.cfg_blocks.specs.Code.{way_of, ways_in};
ghost use Rattle.cfg_blocks.specs.Entries.{Entry};

use crate::leaders::follows;
use crate::{BlockEnd, BlockList, EdgeKind, Into, WayOut, WaysOut};
use eel_base::{BlockNo, NoMemory};
use std::alloc::Global;

/// A text that is cut into blocks: how control leaves each word, and which words the caller gives.
#[derive(Clone, Copy)]
pub(crate) struct CutText<'a> {
    pub list: &'a BlockList,
    pub word_ends: &'a [BlockEnd],
    pub given: &'a [bool],
    ghost of_ends: { length word_ends.now ≡ list.now.blocks.words },
    ghost of_given: { length given.now ≡ length word_ends.now },
}

// What leads to a word, and one edge more.
fn one_more(into: Into, from: BlockNo, kind: EdgeKind) -> Into
    ensures { result ≡ added into (record { from = from.0; kind = kind }) }
{
    match into {
        Into::Nothing => Into::One(from, kind),
        _ => Into::More,
    }
}

// Counts one way out of a block.
fn enter(intos: &mut [Into], from: BlockNo, is_bare: bool, way: WayOut)
    ensures { (k : ℕ) → k < length intos.old →
        into_at intos.new k ≡ added_all (into_at intos.old k) (counted from.0 is_bare (way_of way ∷ []) k) }
{
    if is_bare && matches!(way.kind, EdgeKind::Fall) {
        return;
    }
    if let Some(word) = way.to
        && (word as usize) < intos.len()
    {
        intos[word as usize] = one_more(intos[word as usize], from, way.kind);
    }
}

fn enter_by(intos: &mut [Into], from: BlockNo, is_bare: bool, ways: WaysOut)
    ensures { (k : ℕ) → k < length intos.old →
        into_at intos.new k ≡ added_all (into_at intos.old k) (counted from.0 is_bare (ways_in ways.0 ways.1) k) }
{
    let (one, other) = ways;
    enter(intos, from, is_bare, one);
    if let Some(way) = other {
        enter(intos, from, is_bare, way);
    }
}

impl CutText<'_> {
    // Whether a block is only a delay slot, which isn't given and to which nothing leads.
    fn is_bare(&self, known: &[Into], block: BlockNo) -> bool
        requires known { length known.now ≡ length self.now.word_ends.now }
        requires block { block.0 < length self.now.list.now.blocks.firsts }
        ensures { result ≡ is_bare_in self.now.list.now.blocks self.now.word_ends.now self.now.given.now known.now block.0 }
    {
        let first = self.list.first(block).0 as usize;
        self.list.words(block) == 1
            && follows(self.word_ends, first, 1)
            && !self.given[first]
            && matches!(known[first], Into::Nothing)
    }

    // Counts the ways out of all blocks.
    fn enter_all(&self, intos: &mut [Into], known: &[Into])
        requires { length known.now ≡ length self.now.word_ends.now }
        ensures { (k : ℕ) → k < length intos.old → into_at intos.new k ≡ added_all (into_at intos.old k)
            (counted_from self.now.list.now.blocks (is_bare_in self.now.list.now.blocks self.now.word_ends.now self.now.given.now known.now)
            (length self.now.list.now.blocks.firsts) k) }
    {
        for block in 0..self.list.count() {
            let block = BlockNo(block);
            let is_bare = self.is_bare(known, block);
            enter_by(intos, block, is_bare, self.list.ways(block));
        }
    }

    // What leads to each word, but for the ways on from the slots to which by `known` nothing leads.
    fn word_intos(&self, alloc: Global, known: &[Into]) -> Result<Vec<Into>, NoMemory>
        requires { length known.now ≡ length self.now.word_ends.now }
        ensures words { IfOk result (λ v. length v.items ≡ length self.now.word_ends.now) }
        ensures intos { IfOk result (λ v. (k : ℕ) → k < length self.now.word_ends.now →
            into_at v.items k ≡ added_all Into.Nothing
            (counted_from self.now.list.now.blocks (is_bare_in self.now.list.now.blocks self.now.word_ends.now self.now.given.now known.now)
            (length self.now.list.now.blocks.firsts) k)) }
    {
        let mut intos = vec![in alloc; Into::Nothing; self.word_ends.len()]?;
        self.enter_all(&mut intos, known);
        Ok(intos)
    }

    // What leads to the first word of each block.
    #[tactic(auto, unfolding(crate::specs::Arrivals::into_first))]
    fn at_firsts(&self, alloc: Global, intos: &[Into]) -> Result<Vec<Into>, NoMemory>
        requires { length intos.now ≡ length self.now.word_ends.now }
        ensures { IfOk result (λ v. v.items ≡ map (into_first intos.now self.now.list.now.blocks.firsts) (below (length self.now.list.now.blocks.firsts))) }
    {
        let mut at = Vec::with_capacity(alloc, self.list.count() as usize)?;
        for block in 0..self.list.count() {
            at.push(intos[self.list.first(BlockNo(block)).0 as usize])?;
        }
        Ok(at)
    }

    /// What leads to each block.
    pub(crate) fn intos(&self, alloc: Global) -> Result<Vec<Into>, NoMemory>
        ensures { IfOk result (λ v. v.items
            ≡ map (into_in self.now.list.now.blocks self.now.word_ends.now self.now.given.now) (below (length self.now.list.now.blocks.firsts))) }
    {
        // The first count tells which slots an edge leads to: it leaves none out.
        let all = vec![in alloc; Into::More; self.word_ends.len()]?;
        let led = self.word_intos(alloc, &all)?;
        let _count = self.list.count();
        let intos = self.word_intos(alloc, &led)?;
        let at = self.at_firsts(alloc, &intos)?;
        Ok(at)
    }
}
