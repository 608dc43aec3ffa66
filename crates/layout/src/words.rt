//! The words of jumps and branches.

ghost use Rattle.std.specs.Prelude.{◌≡◌, ◌+◌, ◌*◌, ◌/◌, ◌%◌, ◌^◌, ◌<◌, ◌++◌, [], ◌∷◌, IsTrue, true, false, map, pos, OnOk};
ghost use Rattle.v8_decode.specs.declared.Instr.TheVariants as w;
ghost use Rattle.v8_decode.specs.Words.{decode_of};
ghost use Rattle.v8_encode.specs.Code.{fits_signed, has_word};
ghost use Rattle.code_runs.specs.LongJump.{long_jump};
ghost use Rattle.layout.specs.Laid.{nop as nop_of, opposite};
ghost use Rattle.layout.specs.Forms.{far};
ghost use Rattle.layout.specs.Private.{between, branch_in_form, jump_in_form};
ghost use Rattle.layout.specs.Emitting.{words_of};

use std::alloc::AllocError;
use v8_decode::{Cond, Instr, Op2};
use v8_encode::{branch, condition, jump, keep, nop, register, sethi, take, word, words};

/// A jump to an address, which keeps %g1 in the editor's page meanwhile.
pub fn long_jump_words(to: u32) -> [u32; 4]
    ensures words { result ≡ words_of (long_jump to) }
    ensures decodes { map decode_of result ≡ long_jump to }
{
    let first = register(1);
    words(&[
        keep(first, 0),
        sethi(first, to),
        jump(first, Op2::Imm((to % 1024) as i32)),
        take(first, 0),
    ])
}

// The condition that holds where this one doesn't.
fn opposite_of(cond: Cond) -> Cond
    ensures value { result ≡ opposite cond }
    ensures range { cond < 16 }
{
    let number = cond.number();
    condition(if number < 8 { number + 8 } else { number - 8 })
}

// A branch past the six words that begin with it, and a nop in its delay slot.
fn branch_past(cond: Cond) -> [u32; 2]
    ensures value { result ≡ words_of (w.Branch (opposite cond) false (pos 6) ∷ nop_of ∷ []) }
    ensures range { cond < 16 }
{
    words(&[branch(opposite_of(cond), false, 6), nop()])
}

// The displacement from a word to another that is in reach.
fn displacement(from: u64, to: u64) -> i32
    requires near { far from to ≡ false }
    requires from { from < 2 ^ 62 }
    requires to { to < 2 ^ 62 }
    ensures value { result ≡ between from to }
    ensures fits { fits_signed 22 result ≡ true }
{
    if to >= from {
        (to - from) as i32
    } else {
        -((from - to) as i32)
    }
}

// A branch to a word in reach, whose delay slot is annulled where it isn't taken.
fn branch_to(cond: Cond, from: u64, to: u64) -> Instr
    requires near { far from to ≡ false }
    requires from { from < 2 ^ 62 }
    requires to { to < 2 ^ 62 }
    ensures value { result ≡ w.Branch cond true (between from to) }
    ensures word { IsTrue (has_word result) }
    ensures range { cond < 16 }
{
    branch(condition(cond.number()), true, displacement(from, to))
}

/// Appends a Jump.
pub fn put_jump(
    code: &mut Vec<u32>,
    base: u32,
    from: u64,
    to: u64,
    long: bool,
) -> Result<(), AllocError>
    requires from { from < 2 ^ 62 }
    requires to { to < 2 ^ 62 }
    requires near { long ≡ false → far from to ≡ false }
    requires low { base + 4 * to < 2 ^ 32 }
    ensures { OnOk result (code.new.items ≡ code.old.items ++ words_of (jump_in_form long base from to)) }
{
    if long {
        code.extend_from_slice(&long_jump_words(base + 4 * to as u32))?;
    } else {
        code.push(word(branch_to(condition(8), from, to)))?;
    }
    Ok(())
}

/// Appends a Branch.
pub fn put_branch(
    code: &mut Vec<u32>,
    base: u32,
    cond: Cond,
    from: u64,
    to: u64,
    long: bool,
) -> Result<(), AllocError>
    requires from { from < 2 ^ 62 }
    requires to { to < 2 ^ 62 }
    requires near { long ≡ false → far from to ≡ false }
    requires low { base + 4 * to < 2 ^ 32 }
    ensures code { OnOk result (code.new.items ≡ code.old.items ++ words_of (branch_in_form long base cond from to)) }
    ensures condition { OnOk result (cond < 16) }
{
    if long {
        code.extend_from_slice(&branch_past(cond))?;
        code.extend_from_slice(&long_jump_words(base + 4 * to as u32))?;
    } else {
        code.extend_from_slice(&words(&[branch_to(cond, from, to), nop()]))?;
    }
    Ok(())
}
