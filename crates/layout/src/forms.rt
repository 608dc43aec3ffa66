//! The forms of Jumps and Branches.

ghost use Rattle.std.specs.Prelude.{◌≡◌, ◌+◌, ◌*◌, ◌^◌, ◌<◌, ◌≤◌, if◌then◌else◌, true, false, length, replicate, slice_get, slice_set, Some, IfOk, IfSome};
ghost use Rattle.layout.specs.declared.items.Item.TheVariants as it;
ghost use Rattle.layout.specs.declared.entries.Entry.TheVariants as en;
ghost use Rattle.layout.specs.Forms.{offset, target as target_of, width as width_of};
ghost use Rattle.layout.specs.Private.{beyond, beyond_of, forms_in, goal_in, noted, widens, IsFormed, IsListing, IsOffsets, IsPassed, IsWidening, StartsBelow};

use crate::Item;
use crate::entries::{Cursor, Entry, Listing};
use eel_base::PieceNo;
use std::alloc::{AllocError, Global};

// The words that a Jump takes before what is left.
#[inline]
fn jump_width(to: PieceNo, left: &Cursor, long: bool) -> u64
    ensures value { result ≡ width_of long (Some (en.Item (it.Jump to))) (slice_get left.now 0) }
    ensures small { result ≤ 6 }
{
    if left.starts(to) {
        0
    } else {
        if long { 4 } else { 1 }
    }
}

/// The words that an entry takes before what is left.
#[inline]
pub fn width(entry: &Entry, left: &Cursor, long: bool) -> u64
    ensures value { result ≡ width_of long (Some entry.now) (slice_get left.now 0) }
    ensures small { result ≤ 6 }
{
    match entry {
        Entry::Item(Item::Word(_)) => 1,
        Entry::Item(Item::Jump(to)) => jump_width(*to, left, long),
        Entry::Item(Item::Branch { .. }) => if long { 6 } else { 2 },
        _ => 0,
    }
}

// The piece to which an entry leads.
#[inline]
fn target(entry: &Entry) -> Option<usize>
    ensures { result ≡ target_of (Some entry.now) }
{
    match entry {
        Entry::Item(Item::Jump(to)) => Some(to.0 as usize),
        Entry::Item(Item::Branch { to, .. }) => Some(to.0 as usize),
        _ => None,
    }
}

// Notes how many words come before a piece that starts here.
#[inline]
fn note_start(at: &mut [u64], entry: &Entry, here: u64)
    requires inside { StartsBelow (length at.old) entry.now }
    ensures { at.new ≡ noted at.old entry.now here }
{
    if let Entry::Start(piece) = entry {
        at[piece.0 as usize] = here;
    }
}

// Puts down how many words come before each piece, and gives how many there are.
fn offsets(entries: &Listing, forms: &[bool], at: &mut [u64]) -> u64
    requires small { length entries.now ≤ 2 ^ 42 }
    requires listing { IsListing entries.now (length at.old) }
    requires forms { length forms.now ≡ length entries.now }
    ensures at { IsOffsets entries.now (forms_in forms.now) at.new }
    ensures len { length at.new ≡ length at.old }
    ensures all { result ≡ offset entries.now (forms_in forms.now) (length entries.now) }
{
    let mut left = entries.cursor();
    let mut here = 0;
    for long in forms {
        let entry = left.next();
        note_start(at, &entry, here);
        here += width(&entry, &left, *long);
    }
    here
}

// Whether a piece is surely out of reach of an entry that had `before` words before it when a pass began, and has `here`
// now. Of the piece these are the words before it, as they are now or as they were.
#[inline]
fn is_beyond(before: u64, here: u64, words: u64) -> bool
    requires before { before < 2 ^ 63 }
    requires words { words < 2 ^ 63 }
    ensures { result ≡ beyond before here words }
{
    (here < words && before + (1 << 21) <= words) || (words < before && words + (1 << 21) < here)
}

// Whether the piece to which an entry leads is.
#[inline]
fn out_of_reach(entry: &Entry, at: &[u64], before: u64, here: u64) -> bool
    requires leads { IfSome (target_of (Some entry.now)) (λ k. k < length at.now) }
    requires before { before < 2 ^ 63 }
    requires words { IfSome (goal_in at.now entry.now) (λ words. words < 2 ^ 63) }
    ensures { result ≡ beyond_of before here (goal_in at.now entry.now) }
{
    match target(entry) {
        None => false,
        Some(to) => is_beyond(before, here, at[to]),
    }
}

// Widens an entry that is out of reach. Gives one if it did.
#[inline]
fn widen_entry(
    forms: &mut [bool],
    n: usize,
    entry: &Entry,
    at: &[u64],
    before: u64,
    here: u64,
) -> usize
    requires inside { n < length forms.old }
    requires leads { IfSome (target_of (Some entry.now)) (λ k. k < length at.now) }
    requires before { before < 2 ^ 63 }
    requires words { IfSome (goal_in at.now entry.now) (λ words. words < 2 ^ 63) }
    ensures forms { forms.new ≡ (if widens before here (goal_in at.now entry.now) (forms_in forms.old n)
        then slice_set forms.old n true else forms.old) }
    ensures value { result
        ≡ (if widens before here (goal_in at.now entry.now) (forms_in forms.old n) then 1 else 0) }
    ensures one { result ≤ 1 }
{
    if forms[n] || !out_of_reach(entry, at, before, here) {
        return 0;
    }
    forms[n] = true;
    1
}

// What a pass leaves: how many words there are then, and how many entries it has widened.
#[derive(Clone, Copy)]
struct Pass {
    all: u64,
    widened: usize,
}

// Widens those that are surely out of reach with those before them as they are widened, and notes on the way how many
// words come before each piece then.
fn widen(entries: &Listing, forms: &mut [bool], at: &mut [u64]) -> Pass
    requires small { length entries.now ≤ 2 ^ 42 }
    requires listing { IsListing entries.now (length at.old) }
    requires len { length forms.old ≡ length entries.now }
    requires offsets { IsOffsets entries.now (forms_in forms.old) at.old }
    requires widening { IsWidening entries.now (forms_in forms.old) }
    ensures pass { IsPassed entries.now forms.old forms.new at.new result.all result.widened }
    ensures count { length at.new ≡ length at.old }
{
    let mut left = entries.cursor();
    let mut before = 0;
    let mut here = 0;
    let mut widened = 0;
    for n in 0..forms.len() {
        let entry = left.next();
        let was = width(&entry, &left, forms[n]);
        widened += widen_entry(forms, n, &entry, at, before, here);
        note_start(at, &entry, here);
        before += was;
        here += width(&entry, &left, forms[n]);
    }
    Pass { all: here, widened }
}

// Widens those that are out of reach, until none is. Puts down how many words come before each piece then, and gives how
// many there are.
//
// A wider form only moves further apart what it lies between, and a pass widens each that is out of reach by those before
// it: so there are mostly few passes, and not one for each that is widened.
fn widen_all(entries: &Listing, forms: &mut [bool], at: &mut [u64]) -> u64
    requires small { length entries.now ≤ 2 ^ 42 }
    requires listing { IsListing entries.now (length at.old) }
    requires short { forms.old ≡ replicate (length entries.now) false }
    ensures formed { IsFormed entries.now forms.new at.new result }
    ensures count { length at.new ≡ length at.old }
    ensures len { length forms.new ≡ length forms.old }
{
    let all = offsets(entries, forms, at);
    // None can be out of reach then.
    if all < 1 << 21 {
        return all;
    }
    loop {
        let pass = widen(entries, forms, at);
        if pass.widened == 0 {
            return pass.all;
        }
    }
}

/// The forms of entries, how many words come before each piece, and how many there are.
#[derive(Drop)]
pub struct Formed {
    pub forms: Vec<bool>,
    pub at: Vec<u64>,
    pub all: u64,
}

/// The fewest long forms with which none is out of reach.
pub fn widened(alloc: Global, entries: &Listing, pieces: usize) -> Result<Formed, AllocError>
    requires small { length entries.now ≤ 2 ^ 42 }
    requires listing { IsListing entries.now pieces }
    ensures formed { IfOk result (λ f. IsFormed entries.now f.forms.items f.at.items f.all) }
    ensures count { IfOk result (λ f. length f.at.items ≡ pieces) }
{
    let mut forms = vec![in alloc; false; entries.len()]?;
    let mut at = vec![in alloc; 0; pieces]?;
    let all = widen_all(entries, &mut forms, &mut at);
    Ok(Formed { forms, at, all })
}
