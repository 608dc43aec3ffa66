//! The list of blocks.
ghost use Rattle.std.specs.Prelude.{◌≡◌, ℕ, ◌+◌, ◌-◌, ◌^◌, ◌<◌, ◌≤◌, ◌++◌, nat_le, IsTrue, length, map, slice_index, slice_index_or, count_by, IfOk, IfSome};
ghost use Rattle.cfg_blocks.specs.Arrivals.{entered_in};
ghost use Rattle.cfg_blocks.specs.Blocks.{below, block_end, end_of, holding_of, last_word, size_of};
ghost use Rattle.cfg_blocks.specs.Code.{AreFirsts, IsAscending, IsBlockList, ways_in};
ghost use Rattle.cfg_blocks.specs.Ends.{target_in};
ghost use Rattle.cfg_blocks.specs.Entries.{entered_of, ways_from};
ghost use Rattle.cfg_blocks.specs.Private.{block_end_in, word_ends};
ghost use Rattle.cfg_blocks.specs.Marks.{numbers, AreWords};

use crate::ends::{WaysOut, ways_of, word_ends};
use crate::entries::CutText;
use crate::leaders::{firsts, given_words};
use crate::{BlockEnd, Into};
use eel_base::{BlockNo, NoMemory, Text, WordNo};
use std::alloc::{AllocError, Global};
use std::marker::Model;

/// The basic blocks of a text, in address order.
#[derive(Drop)]
pub struct BlockList {
    firsts: Vec<u32>,
    words: u32,
    ends: Vec<BlockEnd>,
    intos: Vec<Into>,
}

impl Model for BlockList {
    ghost use Rattle.cfg_blocks.specs.Entries.{Entered};
    ghost use Rattle.cfg_blocks.specs.Code.{IsBlockList};

    ghost Value = { Entered };

    ghost view = { λ l. record {
      blocks = record { firsts = l.firsts.items; words = l.words; ends = l.ends.items };
      intos = l.intos.items;
    } };

    ghost invariant = { λ l. IsBlockList (record {
      blocks = record { firsts = l.firsts.items; words = l.words; ends = l.ends.items };
      intos = l.intos.items;
    }) };
}

impl Clone for BlockList {
    ghost is_clone = { λ list copy. copy ≡ list };

    fn clone(&self) -> Result<BlockList, AllocError> {
        let alloc = *self.firsts.allocator();
        let firsts = Vec::from_slice(alloc, &self.firsts)?;
        let ends = Vec::from_slice(alloc, &self.ends)?;
        let intos = Vec::from_slice(alloc, &self.intos)?;
        Ok(BlockList {
            firsts,
            words: self.words,
            ends,
            intos,
        })
    }
}

impl BlockList {
    /// How many blocks there are.
    #[inline]
    pub fn count(&self) -> u32
        ensures count { result ≡ length self.now.blocks.firsts }
        ensures some { 1 ≤ result }
        ensures list { IsBlockList self.now }
    {
        self.firsts.len() as u32
    }

    /// The first word of the block `b`.
    #[inline]
    pub fn first(&self, b: BlockNo) -> WordNo
        requires { b.0 < length self.now.blocks.firsts }
        ensures first { result.0 ≡ slice_index self.now.blocks.firsts b.0 }
        ensures within { result.0 < self.now.blocks.words }
    {
        WordNo(self.firsts[b.0 as usize])
    }

    /// How many words the block `b` has.
    #[inline]
    pub fn words(&self, b: BlockNo) -> u32
        requires { b.0 < length self.now.blocks.firsts }
        ensures size { result ≡ size_of self.now.blocks b.0 }
        ensures some { 1 ≤ result }
        ensures within { slice_index self.now.blocks.firsts b.0 + result ≤ self.now.blocks.words }
        ensures few { self.now.blocks.words ≤ 2 ^ 20 }
    {
        self.last(b).0 + 1 - self.firsts[b.0 as usize]
    }

    /// How control leaves the last word of the block `b`.
    #[inline]
    pub fn end(&self, b: BlockNo) -> BlockEnd
        requires { b.0 < length self.now.blocks.firsts }
        ensures end { result ≡ end_of self.now.blocks b.0 }
        ensures target { IfSome (target_in result) (λ word. word.0 < self.now.blocks.words) }
    {
        self.ends[b.0 as usize]
    }

    /// The last word of the block `b`.
    #[inline]
    pub fn last(&self, b: BlockNo) -> WordNo
        requires { b.0 < length self.now.blocks.firsts }
        ensures last { result.0 ≡ last_word self.now.blocks.firsts self.now.blocks.words b.0 }
        ensures above { slice_index self.now.blocks.firsts b.0 ≤ result.0 }
        ensures within { result.0 < self.now.blocks.words }
        ensures few { self.now.blocks.words ≤ 2 ^ 20 }
    {
        WordNo(last_of_block(&self.firsts, self.words, b.0))
    }

    /// The ways out of the block `b`.
    pub fn ways(&self, b: BlockNo) -> WaysOut
        requires { b.0 < length self.now.blocks.firsts }
        ensures { ways_from self.now.blocks b.0 ≡ ways_in result.0 result.1 }
    {
        ways_of(self.words, self.last(b).0, self.end(b))
    }

    /// The block that holds the word `w`.
    pub fn holding(&self, w: WordNo) -> BlockNo
        requires { w.0 < self.now.blocks.words }
        ensures block { result.0 ≡ holding_of self.now.blocks w.0 }
        ensures within { result.0 < length self.now.blocks.firsts }
        ensures above { slice_index self.now.blocks.firsts result.0 ≤ w.0 }
        ensures below { w.0 < block_end self.now.blocks.firsts self.now.blocks.words result.0 }
    {
        BlockNo(holding_in(&self.firsts, self.words, w.0))
    }

    /// The block that holds the word `w`. `near` and the block behind it are asked first, so that for words in order, each
    /// near the block of the one before, none is searched for.
    #[inline]
    pub fn holding_near(&self, w: WordNo, near: BlockNo) -> BlockNo
        requires { w.0 < self.now.blocks.words }
        ensures block { result.0 ≡ holding_of self.now.blocks w.0 }
        ensures within { result.0 < length self.now.blocks.firsts }
        ensures above { slice_index self.now.blocks.firsts result.0 ≤ w.0 }
        ensures below { w.0 < block_end self.now.blocks.firsts self.now.blocks.words result.0 }
    {
        BlockNo(held_near(&self.firsts, self.words, w.0, near.0))
    }

    /// What leads to the block `b`. A landing from outside isn't counted, nor is the way on from a block
    /// that is only a delay slot and to which nothing leads.
    #[inline]
    pub fn into(&self, b: BlockNo) -> Into
        requires { b.0 < length self.now.blocks.firsts }
        ensures { result ≡ slice_index_or self.now.intos b.0 Into.Nothing }
    {
        self.intos[b.0 as usize]
    }
}

/// The basic blocks of a text. The words of `starts`, at which something starts, and of `marks` begin blocks, besides
/// the text's own leaders.
pub fn blocks(
    alloc: Global,
    text: &Text,
    starts: &[WordNo],
    marks: &[WordNo],
) -> Result<BlockList, NoMemory>
    requires starts { AreWords text.now starts.now }
    requires marks { AreWords text.now marks.now }
    ensures { IfOk result (λ list. list ≡ entered_of text.now (numbers starts.now ++ numbers marks.now)) }
{
    let given = given_words(alloc, text.len(), starts, marks)?;
    let list = cut(alloc, text, &given)?;
    Ok(list)
}

// Cuts a text into blocks, where `given` marks the words that the caller gives.
fn cut(alloc: Global, text: &Text, given: &[bool]) -> Result<BlockList, NoMemory>
    requires { length given.now ≡ length text.now.words }
    ensures { IfOk result (λ list. list ≡ entered_in (word_ends text.now) given.now) }
{
    let words = text.len();
    let word_ends = word_ends(alloc, text)?;
    let firsts = firsts(alloc, &word_ends, given)?;
    let ends = block_ends(alloc, &firsts, &word_ends)?;
    let intos = vec![in alloc; Into::More; firsts.len()]?;
    let mut list = BlockList {
        firsts,
        words,
        ends,
        intos,
    };
    list.intos = CutText {
        list: &list,
        word_ends: &word_ends,
        given,
    }
    .intos(alloc)?;
    Ok(list)
}

// The block that holds the word: the last that begins at it or before.
fn holding_in(firsts: &[u32], words: u32, word: u32) -> u32
    requires firsts { AreFirsts words firsts.now }
    requires word { word < words }
    ensures block { result ≡ count_by (λ first. nat_le first word) firsts.now - 1 }
    ensures within { result < length firsts.now }
    ensures above { slice_index firsts.now result ≤ word }
    ensures below { word < block_end firsts.now words result }
{
    (firsts.partition_point(|first| *first <= word) - 1) as u32
}

// Whether a block, if there is one with this number, holds the word.
#[inline]
fn is_held(firsts: &[u32], words: u32, word: u32, block: u32) -> bool
    requires firsts { AreFirsts words firsts.now }
    requires word { word < words }
    ensures { IsTrue result → block ≡ count_by (λ first. nat_le first word) firsts.now - 1 }
{
    match firsts.get(block as usize) {
        Some(first) if *first <= word => word <= last_of_block(firsts, words, block),
        _ => false,
    }
}

// The block that holds the word, where this one and the next are asked first.
#[inline]
fn held_near(firsts: &[u32], words: u32, word: u32, near: u32) -> u32
    requires firsts { AreFirsts words firsts.now }
    requires word { word < words }
    ensures block { result ≡ count_by (λ first. nat_le first word) firsts.now - 1 }
{
    let next = near.wrapping_add(1);
    if is_held(firsts, words, word, near) {
        near
    } else if is_held(firsts, words, word, next) {
        next
    } else {
        holding_in(firsts, words, word)
    }
}

// The last word of a block: it stands before the first of the next block, or at the end of the text.
fn last_of_block(firsts: &[u32], words: u32, block: u32) -> u32
    requires block { block < length firsts.now }
    requires firsts { AreFirsts words firsts.now }
    ensures value { result ≡ last_word firsts.now words block }
    ensures within { result < words }
{
    match firsts.get(block as usize + 1) {
        Some(next) => *next - 1,
        None => words - 1,
    }
}

// How control leaves the last word of a block.
#[tactic(auto, unfolding(crate::specs::Private::block_end_in))]
fn block_end(firsts: &[u32], word_ends: &[BlockEnd], block: u32) -> BlockEnd
    requires block { block < length firsts.now }
    requires words { length word_ends.now < 2 ^ 32 }
    requires firsts { AreFirsts (length word_ends.now) firsts.now }
    ensures { result ≡ block_end_in word_ends.now firsts.now block }
{
    let last = last_of_block(firsts, word_ends.len() as u32, block);
    word_ends[last as usize]
}

// How control leaves each block.
fn block_ends(
    alloc: Global,
    firsts: &[u32],
    word_ends: &[BlockEnd],
) -> Result<Vec<BlockEnd>, NoMemory>
    requires words { length word_ends.now < 2 ^ 32 }
    requires firsts { AreFirsts (length word_ends.now) firsts.now }
    ensures ends { IfOk result (λ v.
        v.items ≡ map (block_end_in word_ends.now firsts.now) (below (length firsts.now))) }
    ensures len { IfOk result (λ v. length v.items ≡ length firsts.now) }
{
    let mut ends = Vec::with_capacity(alloc, firsts.len())?;
    for block in 0..firsts.len() as u32 {
        ends.push(block_end(firsts, word_ends, block))?;
    }
    Ok(ends)
}
