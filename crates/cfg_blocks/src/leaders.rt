//! Leaders: the words with which a block begins.
ghost use Rattle.std.specs.Prelude.{◌≡◌, ℕ, ◌<◌, ◌≤◌, ◌||◌, ◌^◌, length, filter, IfOk};
ghost use Rattle.std.specs.List.{All};
ghost use Rattle.cfg_blocks.specs.Blocks.{below, follows_transfer, is_it, is_target};
ghost use Rattle.cfg_blocks.specs.Code.{AreFirsts};
ghost use Rattle.cfg_blocks.specs.Private.{end_in, is_in, leads_by, leads_in, marked};

use crate::BlockEnd;
use crate::ends::{is_transfer, target_of};
use eel_base::{NoMemory, WordNo};
use std::alloc::Global;

/// Marks these words.
pub(crate) fn mark_words(marks: &mut [bool], words: &[WordNo])
    requires { All (λ word. word.0 < length marks.old) words.now }
    ensures { (k : ℕ) → k < length marks.old → marked marks.new k ≡ (marked marks.old k || is_in words.now k) }
{
    for word in words {
        marks[word.0 as usize] = true;
    }
}

// Marks a target.
#[tactic(auto, using(crate::proofs::Marks::marked_set))]
fn mark_target(marks: &mut [bool], target: Option<WordNo>)
    ensures { (k : ℕ) → k < length marks.old → marked marks.new k ≡ (marked marks.old k || is_it k target) }
{
    if let Some(word) = target
        && (word.0 as usize) < marks.len()
    {
        marks[word.0 as usize] = true;
    }
}

// Marks the words to which a transfer leads.
fn mark_targets(marks: &mut [bool], ends: &[BlockEnd])
    ensures { (k : ℕ) → k < length marks.old →
        marked marks.new k ≡ (marked marks.old k || is_target (length ends.now) (end_in ends.now) k) }
{
    for end in ends {
        mark_target(marks, target_of(end));
    }
}

// Whether the word is marked or one of the two after a transfer.
fn leads(ends: &[BlockEnd], marks: &[bool], word: usize) -> bool
    requires word { word < length ends.now }
    requires words { length marks.now ≡ length ends.now }
    ensures { result ≡ leads_by ends.now marks.now word }
{
    marks[word] || follows(ends, word, 1) || follows(ends, word, 2)
}

/// Whether a transfer stands `back` words before.
pub(crate) fn follows(ends: &[BlockEnd], word: usize, back: usize) -> bool
    requires within { word ≤ length ends.now }
    requires back { 0 < back }
    ensures { result ≡ follows_transfer (end_in ends.now) back word }
{
    back <= word && is_transfer(&ends[word - back])
}

// The words that are marked or follow a transfer, in order.
fn leading(alloc: Global, ends: &[BlockEnd], marks: &[bool]) -> Result<Vec<u32>, NoMemory>
    requires few { length ends.now < 2 ^ 32 }
    requires words { length marks.now ≡ length ends.now }
    ensures { IfOk result (λ v. v.items ≡ filter (leads_by ends.now marks.now) (below (length ends.now))) }
{
    let mut words = Vec::new(alloc);
    for word in 0..ends.len() {
        if leads(ends, marks, word) {
            words.push(word as u32)?;
        }
    }
    Ok(words)
}

/// The words that lead, where `given` marks those that the caller gives.
pub(crate) fn firsts(alloc: Global, ends: &[BlockEnd], given: &[bool]) -> Result<Vec<u32>, NoMemory>
    requires some { 0 < length ends.now }
    requires few { length ends.now < 2 ^ 32 }
    requires words { length given.now ≡ length ends.now }
    ensures words { IfOk result (λ v. v.items ≡ filter (leads_in ends.now given.now) (below (length ends.now))) }
    ensures firsts { IfOk result (λ v. AreFirsts (length ends.now) v.items) }
{
    let mut marks = Vec::from_slice(alloc, given)?;
    marks[0] = true;
    mark_targets(&mut marks, ends);
    let words = leading(alloc, ends, &marks)?;
    Ok(words)
}

/// The words that a caller gives.
pub(crate) fn given_words(
    alloc: Global,
    count: u32,
    starts: &[WordNo],
    marks: &[WordNo],
) -> Result<Vec<bool>, NoMemory>
    requires starts { All (λ word. word.0 < count) starts.now }
    requires marks { All (λ word. word.0 < count) marks.now }
    ensures words { IfOk result (λ v. length v.items ≡ count) }
    ensures given { IfOk result (λ v.
        (k : ℕ) → k < count → marked v.items k ≡ (is_in starts.now k || is_in marks.now k)) }
{
    let mut given = vec![in alloc; false; count as usize]?;
    mark_words(&mut given, starts);
    mark_words(&mut given, marks);
    Ok(given)
}
