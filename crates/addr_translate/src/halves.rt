//! A table of two levels, and its size.

ghost use Rattle.std.specs.Prelude.{◌≡◌, ℕ, ◌+◌, ◌-◌, ◌*◌, ◌/◌, ◌%◌, ◌<◌, ◌≤◌, ◌^◌, OnOk, IfOk, length};
ghost use Rattle.eel_base.specs.Code.{IsText};
ghost use Rattle.addr_translate.specs.HalfEntries.{half_bytes, half_entry as half_entry_of, half_word as half_word_of};
ghost use Rattle.addr_translate.specs.Halves.{IsHalvesOf, first_half, halves_size as halves_size_of, span_of};
ghost use Rattle.addr_translate.specs.Private.{halves};

use crate::blocks::{PAGE, Parts, last_byte};
use crate::entries::target;
use crate::table::put_word;
use eel_base::{Addr, NoMemory, Text};
use std::alloc::{AllocError, Global};

/// The bytes for which there is one word of the first level.
const HALF: u32 = 1 << 16;

/// The bytes of the first level.
const FIRST_LEVEL: u32 = 1 << 18;

// The parts of 64 KiB that hold text.
fn halves_of(text: &Text) -> Parts
    ensures first { result.first ≡ first_half text.now }
    ensures count { result.count ≡ halves text.now }
    ensures below { result.first + result.count ≤ 2 ^ 15 }
{
    let first = text.start().0 / HALF;
    let last = last_byte(text) / HALF;
    Parts {
        first,
        count: last - first + 1,
    }
}

// From the begin of the first of them to the end of the text's last page.
fn span(text: &Text) -> u32
    ensures value { result ≡ span_of text.now }
    ensures few { result ≤ 2 ^ 22 + 2 ^ 17 }
    ensures text { IsText text.now }
{
    PAGE * (last_byte(text) / PAGE + 1) - HALF * (text.start().0 / HALF)
}

/// How many bytes the table of two levels of a text has: a multiple of 4096.
pub fn halves_size(text: &Text) -> u32
    ensures value { result ≡ halves_size_of text.now }
    ensures pages { result % 4096 ≡ 0 }
    ensures few { result ≤ 2 ^ 23 }
    ensures text { IsText text.now }
{
    FIRST_LEVEL + span(text) + HALF
}

// What 32 bits keep of a difference.
fn less(number: u32, by: u32) -> u32
    ensures { result ≡ (number + 2 ^ 32 - by) % 2 ^ 32 }
{
    ((number as u64 + (1 << 32) - by as u64) % (1 << 32)) as u32
}

// The word of the first level for a part of 64 KiB.
fn half_word(text: &Text, base: Addr, half: u32) -> u32
    requires room { base.0 + halves_size_of text.now ≤ 2 ^ 31 }
    requires low { half < 2 ^ 16 }
    ensures { result ≡ half_word_of text.now base.0 half }
{
    let halves = halves_of(text);
    let entries = base.0 + FIRST_LEVEL;
    if halves.contains(half) {
        less(entries, HALF * halves.first)
    } else {
        less(entries + span(text), HALF * half)
    }
}

/// The word of the table with this number.
#[tactic(auto, unfolding(crate::specs::HalfEntries::half_entry))]
fn half_entry(text: &Text, targets: &[Addr], foreign: Addr, base: Addr, n: u32) -> u32
    requires targets { length targets.now ≡ length text.now.words }
    requires room { base.0 + halves_size_of text.now ≤ 2 ^ 31 }
    requires within { n < halves_size_of text.now / 4 }
    ensures { result ≡ half_entry_of text.now targets.now foreign base.0 n }
{
    if n < HALF {
        half_word(text, base, n)
    } else {
        let first = halves_of(text).first;
        target(text, targets, foreign, Addr(HALF * first + 4 * (n - HALF)))
    }
}

fn bytes_of(
    alloc: Global,
    text: &Text,
    targets: &[Addr],
    foreign: Addr,
    base: Addr,
) -> Result<Vec<u8>, AllocError>
    requires targets { length targets.now ≡ length text.now.words }
    requires room { base.0 + halves_size_of text.now ≤ 2 ^ 31 }
    ensures bytes { IfOk result (λ v. v.items ≡ half_bytes text.now targets.now foreign base.0) }

    // Each entry has 32 bits.
    ensures fits { OnOk result ((n : ℕ) → n < halves_size_of text.now / 4
        → half_entry_of text.now targets.now foreign base.0 n < 2 ^ 32) }
    ensures text { IsText text.now }
{
    let size = halves_size(text);
    let mut out = Vec::with_capacity(alloc, size as usize)?;
    for n in 0..size / 4 {
        put_word(&mut out, half_entry(text, targets, foreign, base, n))?;
    }
    Ok(out)
}

/// The bytes of the table of two levels that leads each aligned address of a text word to that word's target, and every
/// other aligned address to `foreign`. They are to stand at `base`, since the words of the first level say where the
/// entries stand.
pub fn build_halves(
    alloc: Global,
    text: &Text,
    targets: &[Addr],
    foreign: Addr,
    base: Addr,
) -> Result<Vec<u8>, NoMemory>
    requires targets { length targets.now ≡ length text.now.words }
    requires aligned { base.0 % 4096 ≡ 0 }
    requires room { base.0 + halves_size_of text.now ≤ 2 ^ 31 }
    ensures { IfOk result (λ v. IsHalvesOf text.now targets.now foreign
        (record { base = base.0; bytes = v.items })) }
{
    let bytes = bytes_of(alloc, text, targets, foreign, base)?;
    Ok(bytes)
}
