//! How control leaves the words of a text.
ghost use Rattle.std.specs.Prelude.{◌≡◌, ◌+◌, ◌^◌, ◌<◌, ℤ, length, map, IfOk};
ghost use Rattle.eel_base.specs.CodeText.{numbered};
ghost use Rattle.cfg_blocks.specs.Ends.{branch_target, end_at, is_transfer, number_of, target_in, ways_of, within};
ghost use Rattle.cfg_blocks.specs.Code.{ways_in};
ghost use Rattle.cfg_blocks.specs.Private.{word_ends};

use crate::{BlockEnd, EdgeKind, WayOut};
use eel_base::{NoMemory, Text, WordNo};
use std::alloc::Global;
use v8_decode::{Cond, Instr, decode};

/// The condition of `ba`.
pub const ALWAYS: u8 = 8;

// That of `bn`.
const NEVER: u8 = 0;

/// The ways out of a block: one or two.
pub type WaysOut = (WayOut, Option<WayOut>);

// The word to which a branch leads; one on never leads nowhere.
fn branch_target(text: &Text, w: WordNo, cond: Cond, displacement: i32) -> Option<WordNo>
    requires { w.0 < length text.now.words }
    ensures { result ≡ branch_target text.now w.0 cond displacement }
{
    if cond.number() == NEVER {
        None
    } else {
        text.target(w, displacement)
    }
}

// How control leaves the word `w`.
#[tactic(auto, unfolding(crate::specs::Ends::end_at))]
fn word_end(text: &Text, w: WordNo) -> BlockEnd
    requires { w.0 < length text.now.words }
    ensures { result ≡ end_at text.now w.0 }
{
    match decode(text.word(w)) {
        Instr::Branch {
            cond,
            annul,
            disp22,
        } => BlockEnd::Branch {
            cond,
            annul,
            target: branch_target(text, w, cond, disp22),
        },
        Instr::Call { disp30 } => BlockEnd::Call {
            target: text.target(w, disp30),
        },
        Instr::Jmpl { .. } => BlockEnd::Jump,
        _ => BlockEnd::Fall,
    }
}

/// How control leaves each word, in order.
#[tactic(auto, unfolding(crate::specs::Private::word_ends))]
pub(crate) fn word_ends(alloc: Global, text: &Text) -> Result<Vec<BlockEnd>, NoMemory>
    ensures ends { IfOk result (λ v. v.items ≡ word_ends text.now) }
    ensures len { IfOk result (λ v. length v.items ≡ length text.now.words) }
{
    let mut ends = Vec::with_capacity(alloc, text.len() as usize)?;
    for word in 0..text.len() {
        ends.push(word_end(text, WordNo(word)))?;
    }
    Ok(ends)
}

/// Whether that is a transfer.
pub(crate) fn is_transfer(end: &BlockEnd) -> bool
    ensures { result ≡ is_transfer end.now }
{
    !matches!(end, BlockEnd::Fall)
}

/// The word to which a transfer leads, where the text has it.
pub(crate) fn target_of(end: &BlockEnd) -> Option<WordNo>
    ensures { result ≡ target_in end.now }
{
    match end {
        BlockEnd::Branch { target, .. } | BlockEnd::Call { target } => *target,
        BlockEnd::Fall | BlockEnd::Jump => None,
    }
}

// A word of so many, if it is one.
fn within(count: u32, word: u32) -> Option<u32>
    ensures { result ≡ within count word }
{
    if word < count { Some(word) } else { None }
}

fn number(target: Option<WordNo>) -> Option<u32>
    ensures { result ≡ number_of target }
{
    match target {
        Some(word) => Some(word.0),
        None => None,
    }
}

// A way.
fn way(kind: EdgeKind, to: Option<u32>) -> WayOut
    ensures { result ≡ record { kind = kind; to = to } }
{
    WayOut { kind, to }
}

/// The ways out of a word of so many, the last of a block.
pub(crate) fn ways_of(count: u32, word: u32, end: BlockEnd) -> WaysOut
    requires { word + 2 < 2 ^ 32 }
    ensures { ways_of count word end ≡ ways_in result.0 result.1 }
{
    match end {
        BlockEnd::Fall => (way(EdgeKind::Fall, within(count, word + 1)), None),
        BlockEnd::Branch { cond, target, .. } => {
            let taken = way(EdgeKind::Taken, number(target));
            let untaken = way(EdgeKind::Untaken, within(count, word + 2));
            match cond.number() {
                ALWAYS => (taken, None),
                NEVER => (untaken, None),
                _ => (taken, Some(untaken)),
            }
        }
        BlockEnd::Call { target } => (way(EdgeKind::Call, number(target)), None),
        BlockEnd::Jump => (way(EdgeKind::Out, None), None),
    }
}
