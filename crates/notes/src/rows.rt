//! The words of notes, and the rows of their tables.
ghost use Rattle.std.specs.Prelude.{◌≡◌, ◌≤◌, ◌<◌, ◌+◌, ◌*◌, ◌^◌, IfErr, MatchResult, length, map, true, false, ◌&&◌, nat_le, nat_lt};
ghost use Rattle.std.specs.List.{list_any};
ghost use Rattle.notes.specs.Format.{note_at, follows, cell_of, holds};
ghost use Rattle.notes.specs.Code.{Answers, WantsMemoryIf, segment_seen, edge_seen, range_seen};
ghost use Rattle.notes.specs.Rules.{is_segment, is_range};
ghost use Rattle.notes.specs.Parts.{segment_at, block_at, edge_at, range_at, is_open};
ghost use Rattle.notes.specs.declared.note.NotesFault.TheVariants as faults;

use crate::cells::{NO_CELL, Taken};
use crate::note::{NoteEdge, NoteSegment, NotesFault};
use eel_base::{Addr, Range, be32_at};

/// The word at an offset.
pub(crate) fn word_at(notes: &[u8], at: u32) -> Result<u32, NotesFault>
    ensures word { Answers (λ word. word) result (note_at notes.now at) }
    ensures memory { IfErr result (WantsMemoryIf ⊥) }
{
    match be32_at(notes, at as usize) {
        Some(word) => Ok(word),
        None => Err(NotesFault::Bad(at)),
    }
}

/// Refuses what breaks the rule of the word at an offset.
pub(crate) fn keep(rule: bool, at: u32) -> Result<(), NotesFault>
    ensures { MatchResult result (λ _. rule ≡ true) (λ fault. (rule ≡ false) × (fault ≡ faults.Bad at)) }
{
    if !rule {
        return Err(NotesFault::Bad(at));
    }
    Ok(())
}

/// The page at an offset, which begins at `end` or above.
#[tactic(auto, unfolding(crate::specs::Parts::segment_at))]
pub(crate) fn segment_at(notes: &[u8], at: u32, end: u64) -> Result<NoteSegment, NotesFault>
    requires { at + 8 < 2 ^ 32 }
    ensures { Answers segment_seen result (segment_at end notes.now at) }
{
    let start = word_at(notes, at)?;
    let length = word_at(notes, at + 4)?;
    let segment = NoteSegment { start, length };
    keep(is_segment(&segment, end), at)?;
    Ok(segment)
}

fn is_segment(segment: &NoteSegment, end: u64) -> bool
    ensures { result ≡ is_segment end (segment_seen segment.now) }
{
    end <= u64::from(segment.start)
        && segment.length > 0
        && u64::from(segment.start) + u64::from(segment.length) <= 1 << 32
}

/// The first word of the block at an offset, after the block that begins at `before`.
#[tactic(auto, unfolding(crate::specs::Parts::block_at))]
pub(crate) fn block_at(
    notes: &[u8],
    at: u32,
    before: Option<u32>,
    words: u32,
) -> Result<u32, NotesFault>
    ensures { Answers (λ first. first) result (block_at words before notes.now at) }
{
    let first = word_at(notes, at)?;
    keep(follows(before, first) && first < words, at)?;
    Ok(first)
}

fn follows(before: Option<u32>, first: u32) -> bool
    ensures { result ≡ follows before first }
{
    match before {
        Some(before) => before < first,
        None => first == 0,
    }
}

/// The edge at an offset, in a graph of so many blocks.
#[tactic(auto, unfolding(crate::specs::Parts::edge_at))]
pub(crate) fn edge_at(
    notes: &[u8],
    at: u32,
    blocks: u32,
    taken: &Taken,
) -> Result<NoteEdge, NotesFault>
    requires at { at + 16 < 2 ^ 32 }
    requires width { 0 < taken.now.width }
    ensures { Answers edge_seen result (edge_at blocks (is_open taken.now.width taken.now.marks.items) notes.now at) }
{
    let kind = word_at(notes, at)?;
    let from = word_at(notes, at + 4)?;
    let to = word_at(notes, at + 8)?;
    let cell = word_at(notes, at + 12)?;
    keep(
        is_between(kind, from, to, blocks) && taken.is_open(cell),
        at,
    )?;
    let cell = cell_of(cell);
    Ok(NoteEdge {
        kind,
        from,
        to,
        cell,
    })
}

/// An edge of one of the seven kinds, between nodes.
fn is_between(kind: u32, from: u32, to: u32, blocks: u32) -> bool
    ensures { result ≡ (nat_le kind 6 && nat_le from (2 * blocks) && nat_le to (2 * blocks)) }
{
    kind <= 6 && is_node(from, blocks) && is_node(to, blocks)
}

/// The nodes are the blocks, one more, and then landed copies of blocks.
fn is_node(number: u32, blocks: u32) -> bool
    ensures { result ≡ nat_le number (2 * blocks) }
{
    u64::from(number) <= 2 * u64::from(blocks)
}

fn cell_of(word: u32) -> Option<u32>
    ensures { result ≡ cell_of word }
{
    if word == NO_CELL { None } else { Some(word) }
}

/// The place at an offset, which begins at `end` or above.
#[tactic(auto, unfolding(crate::specs::Parts::range_at))]
pub(crate) fn range_at(
    notes: &[u8],
    at: u32,
    blocks: u32,
    segments: &[NoteSegment],
    end: Addr,
) -> Result<Range, NotesFault>
    requires { at + 16 < 2 ^ 32 }
    ensures { Answers range_seen result (range_at blocks (map segment_seen segments.now) end.0 notes.now at) }
{
    let lo = Addr(word_at(notes, at)?);
    let hi = Addr(word_at(notes, at + 4)?);
    let address = Addr(word_at(notes, at + 8)?);
    let node = word_at(notes, at + 12)?;
    let range = Range {
        lo,
        hi,
        address,
        node,
    };
    keep(is_range(&range, blocks, segments, end), at)?;
    Ok(range)
}

#[tactic(auto, using(crate::proofs::Steps::any_map))]
fn is_range(range: &Range, blocks: u32, segments: &[NoteSegment], end: Addr) -> bool
    ensures { result ≡ is_range blocks (map segment_seen segments.now) end.0 (range_seen range.now) }
{
    range.lo.0 % 4 == 0
        && range.hi.0 % 4 == 0
        && range.address.0 % 4 == 0
        && range.lo.0 < range.hi.0
        && end.0 <= range.lo.0
        && lies_in(range, segments)
        && is_node(range.node, blocks)
}

/// Some page holds the place.
fn lies_in(range: &Range, segments: &[NoteSegment]) -> bool
    ensures { result ≡ list_any (λ segment. holds range.now.lo.0 range.now.hi.0 (segment_seen segment)) segments.now }
{
    segments.iter().any(|segment| holds(segment, range))
}

/// The page holds the place.
fn holds(segment: &NoteSegment, range: &Range) -> bool
    ensures { result ≡ holds range.now.lo.0 range.now.hi.0 (segment_seen segment.now) }
{
    segment.start <= range.lo.0
        && u64::from(range.hi.0) <= u64::from(segment.start) + u64::from(segment.length)
}
