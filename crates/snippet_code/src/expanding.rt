//! The words of snippets.

ghost use Rattle.std.specs.Prelude.{◌≡◌, ◌++◌, ◌%◌, ◌-◌, ◌≤◌, OnOk, IfOk, drop, length, map, take};
ghost use Rattle.v8_decode.specs.Words.{decode_of};
ghost use Rattle.v8_encode.specs.Encoding.{word_of};
ghost use Rattle.std.specs.List.{All};
ghost use Rattle.scavenge.specs.Code.{register_count};
ghost use Rattle.snippets.specs.Cells.{named_by};
ghost use Rattle.snippets.specs.Grammar.{IsOp};
ghost use Rattle.snippet_code.specs.Laws.{EndLow};
ghost use Rattle.snippet_code.specs.Runs.{DoesJust};
ghost use Rattle.snippet_code.specs.Words as code;
ghost use Rattle.snippet_code.specs.Spills as spilling;

use crate::operations::{push_ops, registers_for};
use crate::single::{restore, save};
use eel_base::{Addr, NoMemory};
use scavenge::{Picked, pick};
use snippets::{Op, Snippet};
use std::alloc::{AllocError, Global};
use v8_decode::{Part, Reg, RegSet};

// How many words an operation takes at most. Few snippets have more than one.
const LONGEST: usize = 22;

/// Words that do just a snippet on the cells that stand from `cells` on.
///
/// They work in dead registers first. Others are kept in the editor's page meanwhile, and the codes change only where
/// they are dead.
pub fn expand(
    alloc: Global,
    s: &Snippet,
    cells: Addr,
    dead: RegSet,
    avoid: RegSet,
) -> Result<Vec<u32>, NoMemory>
    requires aligned { cells.0 % 4 ≡ 0 }
    requires low { EndLow cells.0 s.now }
    requires avoid { avoid ≡ named_by s.now }
    ensures few { length s.now ≤ 8 }
    ensures code { IfOk result (λ words. words.items ≡ code.code_of_snippet cells.0 dead avoid s.now) }
    ensures words { IfOk result (λ words. map decode_of words.items ≡ code.snippet_words cells.0 dead avoid s.now) }
    ensures just { IfOk result (λ words. DoesJust words.items cells.0 dead (spilling.spills_of dead avoid s.now) s.now) }
    ensures cost { IfOk result (λ words. length words.items ≤ code.cost_of dead avoid s.now) }
    ensures ops { OnOk result (All IsOp s.now) }
{
    Ok(code_of(alloc, s.ops(), cells, dead, avoid)?)
}

// The words, and that the operations are such as there can be.
fn code_of(
    alloc: Global,
    ops: &[Op],
    cells: Addr,
    dead: RegSet,
    avoid: RegSet,
) -> Result<Vec<u32>, AllocError>
    requires low { EndLow cells.0 ops.now }
    requires avoid { register_count avoid ≤ 8 }
    ensures code { IfOk result (λ words. words.items ≡ code.code_of_snippet cells.0 dead avoid ops.now) }
    ensures ops { OnOk result (All IsOp ops.now) }
{
    let codes_dead = dead.has(Part::Icc);
    let picked = pick(dead, avoid, registers_for(codes_dead, ops));
    let used = used(&picked);
    let spilled = last(used, picked.spills);
    let mut words = Vec::with_capacity(alloc, LONGEST)?;
    push_saves(&mut words, spilled)?;
    push_ops(&mut words, cells, codes_dead, used, ops)?;
    push_restores(&mut words, spilled)?;
    Ok(words)
}

// The registers that were picked.
fn used(picked: &Picked) -> &[Reg]
    requires few { picked.now.count ≤ 5 }
    ensures regs { result.now ≡ take picked.now.count picked.now.regs }
    ensures count { length result.now ≡ picked.now.count }
{
    &picked.regs[..usize::from(picked.count)]
}

// The last of them, so many.
fn last(regs: &[Reg], count: u8) -> &[Reg]
    requires few { count ≤ length regs.now }
    ensures { result.now ≡ drop (length regs.now - count) regs.now }
{
    &regs[regs.len() - usize::from(count)..]
}

fn push_saves(words: &mut Vec<u32>, spilled: &[Reg]) -> Result<(), AllocError>
    requires few { length spilled.now ≤ 5 }
    ensures { OnOk result (words.new.items ≡ words.old.items
        ++ map word_of (code.numbered code.save 0 spilled.now)) }
{
    for (n, reg) in spilled.iter().enumerate() {
        words.push(save(n, *reg))?;
    }
    Ok(())
}

fn push_restores(words: &mut Vec<u32>, spilled: &[Reg]) -> Result<(), AllocError>
    requires few { length spilled.now ≤ 5 }
    ensures { OnOk result (words.new.items ≡ words.old.items
        ++ map word_of (code.numbered code.restore 0 spilled.now)) }
{
    for (n, reg) in spilled.iter().enumerate() {
        words.push(restore(n, *reg))?;
    }
    Ok(())
}
