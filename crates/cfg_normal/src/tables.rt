//! The tables of switches: the words where they stand, and those to which their entries lead.
ghost use Rattle.std.specs.Prelude.{◌≡◌, ℕ, ◌+◌, ◌<◌, ◌≤◌, ◌||◌, ◌==◌, ◌++◌, length, map, slice_index, Some, IfOk, OnOk};
ghost use Rattle.std.specs.List.{flat_map, list_any};
ghost use Rattle.std.specs.Option.{option_to_list};
ghost use Rattle.eel_base.specs.CodeText.{word_at};
ghost use Rattle.cfg_blocks.specs.Private.{marked};
ghost use Rattle.cfg_normal.specs.Opens.{targets_of, words_from};
ghost use Rattle.cfg_normal.specs.Code.{IsTableIn};

use cfg_blocks::Switch;
use eel_base::{Addr, NoMemory, Text, WordNo};
use std::alloc::Global;

/// The first word of a table.
pub(crate) fn table_start(text: &Text, switch: Switch) -> u32
    requires { IsTableIn text.now switch }
    ensures start { word_at text.now switch.table.0 ≡ Some result }
    ensures within { result + switch.count ≤ length text.now.words }
{
    match text.find(switch.table) {
        Some(word) => word.0,
        None => 0,
    }
}

// Adds the word to which an entry leads.
fn push_target(targets: &mut Vec<WordNo>, text: &Text, entry: u32) -> Result<(), NoMemory>
    requires { entry < length text.now.words }
    ensures { OnOk result (map (λ w. w.0) targets.new.items
        ≡ map (λ w. w.0) targets.old.items ++ option_to_list (word_at text.now (slice_index text.now.words entry))) }
{
    if let Some(word) = text.find(Addr(text.word(WordNo(entry)))) {
        targets.push(word)?;
    }
    Ok(())
}

// The words to which so many entries lead, from a word on.
fn targets_from(alloc: Global, text: &Text, from: u32, count: u32) -> Result<Vec<WordNo>, NoMemory>
    requires { from + count ≤ length text.now.words }
    ensures { IfOk result (λ v. map (λ w. w.0) v.items
        ≡ flat_map (λ word. option_to_list (word_at text.now (slice_index text.now.words word)))
        (words_from from count)) }
{
    let _words = text.len();
    let mut targets = Vec::with_capacity(alloc, count as usize)?;
    for n in 0..count {
        push_target(&mut targets, text, from + n)?;
    }
    Ok(targets)
}

/// The words to which the entries of a table lead, in their order.
pub(crate) fn targets(alloc: Global, text: &Text, switch: Switch) -> Result<Vec<WordNo>, NoMemory>
    requires { IsTableIn text.now switch }
    ensures { IfOk result (λ v. map (λ w. w.0) v.items ≡ targets_of text.now switch) }
{
    let targets = targets_from(alloc, text, table_start(text, switch), switch.count)?;
    Ok(targets)
}

/// Whether one of so many words from one on has its mark.
pub(crate) fn any_marked(marks: &[bool], from: u32, count: u32) -> bool
    requires { from + count ≤ length marks.now }
    ensures { result ≡ list_any (marked marks.now) (words_from from count) }
{
    let mut any = false;
    for n in 0..count {
        any = any || marks[from as usize + n as usize];
    }
    any
}

/// Marks so many words from one on.
pub(crate) fn mark_table(marks: &mut [bool], from: u32, count: u32)
    requires { from + count ≤ length marks.old }
    ensures long { length marks.new ≡ length marks.old }
    ensures marks { (k : ℕ) → k < length marks.old →
        marked marks.new k ≡ (marked marks.old k || list_any (λ x. x == k) (words_from from count)) }
{
    for n in 0..count {
        marks[from as usize + n as usize] = true;
    }
}
