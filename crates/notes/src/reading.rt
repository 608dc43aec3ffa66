//! Reading notes.
ghost use Rattle.std.specs.Prelude.{◌≡◌, ◌≤◌, ◌<◌, ◌+◌, ◌*◌, ◌%◌, ◌^◌, ◌&&◌, ◌==◌, nat_le, nat_lt, true, IfErr, IfOk, IsOk, IsTrue, MatchResult, length};
ghost use Rattle.elf32_sparc.specs.Header.{word_at};
ghost use Rattle.notes.specs.Format.{block_count_at, byte_count, counter_width, head_of, is_version, last_tool, most_cells, note_that, has_locator, notes_length, notes_of, notes_offset, notes_version, read_notes, tables_of};
ghost use Rattle.notes.specs.Code.{Answers, IsFault, WantsMemoryIf, notes_seen};
ghost use Rattle.notes.specs.Seen.{HasHead, notes_in};
ghost use Rattle.notes.specs.Heads.{head_seen};
ghost use Rattle.notes.specs.Parts.{cells_at, head_at, original_at, text_at};
ghost use Rattle.notes.specs.Rules.{AreNotes};

use crate::note::{Notes, NotesFault};
use crate::rows::{keep, word_at};
use crate::tables::{read_blocks, read_edges, read_ranges, read_segments};
use eel_base::be32_at;
use std::alloc::Global;

/// Where the locator stands, and how it begins: `EELN` and the version.
const LOCATOR_AT: usize = 4032;

const LOCATOR: u32 = 0x4545_4c4e;

/// The version of notes whose counters have one cell.
const NARROW: u32 = 1;

/// The version of notes whose counters have two cells.
const WIDE: u32 = 2;

/// The notes of a written file.
///
/// They are read in one pass. Beside the rows that are there it needs a byte for each cell that the notes name.
pub fn read_notes(alloc: Global, file: &[u8]) -> Result<Notes, NotesFault>
    ensures read { Answers notes_seen result (notes_of file.now) }
    ensures memory { IfErr result (WantsMemoryIf (HasHead file.now)) }
    ensures rules { IfOk result (λ notes. AreNotes (notes_seen notes)) }
    ensures inside { IfOk result (λ notes. notes.delta + notes.length ≤ length file.now) }
{
    let words = find_notes(file)?;
    let version = field(file, LOCATOR_AT + 4);
    let notes = read_words(alloc, version, words, file.len())?;
    Ok(notes)
}

/// The bytes of the notes, where the locator says.
#[tactic(auto, unfolding(crate::specs::Format::notes_of))]
fn find_notes(file: &[u8]) -> Result<&[u8], NotesFault>
    ensures notes { MatchResult result (λ notes. notes_of file.now ≡ read_notes (notes_version file.now) (length file.now) notes.now) (λ fault. IsFault fault (notes_of file.now)) }
    ensures version { IfOk result (λ notes. is_version (notes_version file.now) ≡ true) }
    ensures there { IfOk result (λ notes. IsTrue (has_locator file.now) × (notes_offset file.now + notes_length file.now ≤ length file.now)) }
    ensures bytes { IfOk result (λ notes. notes.now ≡ notes_in file.now) }
    ensures memory { IfErr result (WantsMemoryIf ⊥) }
{
    if !has_locator(file) {
        return Err(NotesFault::Absent);
    }
    let offset = field(file, LOCATOR_AT + 8) as usize;
    let length = field(file, LOCATOR_AT + 12) as usize;
    if offset + length > file.len() {
        return Err(NotesFault::Bad(0));
    }
    Ok(&file[offset..offset + length])
}

fn has_locator(file: &[u8]) -> bool
    ensures { result ≡ has_locator file.now }
{
    file.len() >= 4096
        && field(file, LOCATOR_AT) == LOCATOR
        && is_version(field(file, LOCATOR_AT + 4))
}

fn is_version(version: u32) -> bool
    ensures { result ≡ is_version version }
{
    version == NARROW || version == WIDE
}

/// The word at an offset of a file, or 0 past its end.
#[tactic(auto, unfolding(elf32_sparc::specs::Header::word_at))]
fn field(file: &[u8], at: usize) -> u32
    ensures { result ≡ word_at file.now at }
{
    be32_at(file, at).unwrap_or(0)
}

/// The notes of this version in these bytes, of a file of this size.
fn read_words(alloc: Global, version: u32, notes: &[u8], size: usize) -> Result<Notes, NotesFault>
    ensures read { Answers notes_seen result (read_notes version size notes.now) }
    ensures memory { IfErr result (WantsMemoryIf (IsOk (head_of version size notes.now))) }
    ensures inside { IfOk result (λ notes. notes.delta + notes.length ≤ size) }
{
    let head = read_head(version, notes, size)?;
    let notes = read_tables(alloc, notes, &head)?;
    Ok(notes)
}

/// The numbers before the tables.
#[derive(Clone, Copy)]
struct Head {
    version: u32,
    delta: u32,
    length: u32,
    tool: u32,
    start: u32,
    words: u32,
    entry: u32,
    base: u32,
    cells: u32,
    segment_count: u32,
}

/// The numbers before the tables, of this version, in a file of this size.
#[tactic(auto, unfolding(crate::specs::Parts::head_at))]
fn read_head(version: u32, notes: &[u8], size: usize) -> Result<Head, NotesFault>
    ensures head { Answers head_seen result (head_at version size notes.now) }
    ensures memory { IfErr result (WantsMemoryIf ⊥) }
    ensures inside { IfOk result (λ head. head.delta + head.length ≤ size) }
    ensures cells { IfOk result (λ head. head.cells ≤ 2 ^ 23) }
    ensures words { IfOk result (λ head. head.words ≤ 2 ^ 20) }
    ensures segments { IfOk result (λ head. head.segment_count ≤ 8) }
{
    let (delta, length) = original_at(notes, size)?;
    let tool = word_at(notes, 8)?;
    keep(tool <= last_tool(version), 8)?;
    let (start, words) = text_at(notes)?;
    let entry = word_at(notes, 20)?;
    let (base, cells) = cells_at(version, notes)?;
    let segment_count = word_at(notes, 32)?;
    keep(segment_count <= 8, 32)?;
    Ok(Head {
        version,
        delta,
        length,
        tool,
        start,
        words,
        entry,
        base,
        cells,
        segment_count,
    })
}

/// Where the original stands in a file of this size, and how many bytes it has.
#[tactic(auto, unfolding(crate::specs::Parts::original_at))]
fn original_at(notes: &[u8], size: usize) -> Result<(u32, u32), NotesFault>
    ensures original { Answers (λ original. original) result (original_at size notes.now) }
    ensures memory { IfErr result (WantsMemoryIf ⊥) }
    ensures inside { IfOk result (λ original. original.0 + original.1 ≤ size) }
{
    let delta = word_at(notes, 0)?;
    keep(delta >= 4096, 0)?;
    let length = word_at(notes, 4)?;
    keep(delta as usize + length as usize <= size, 4)?;
    Ok((delta, length))
}

/// Where the text starts, and how many words it has.
#[tactic(auto, unfolding(crate::specs::Parts::text_at))]
fn text_at(notes: &[u8]) -> Result<(u32, u32), NotesFault>
    ensures text { Answers (λ text. text) result (text_at notes.now) }
    ensures memory { IfErr result (WantsMemoryIf ⊥) }
    ensures words { IfOk result (λ text. text.1 ≤ 2 ^ 20) }
{
    let start = word_at(notes, 12)?;
    keep(start % 4 == 0 && start >= 0x1000, 12)?;
    let words = word_at(notes, 16)?;
    keep(is_text(start, words), 16)?;
    Ok((start, words))
}

/// Where the cells start, and how many there are. The rule of the one waits for the other.
#[tactic(auto, unfolding(crate::specs::Parts::cells_at))]
fn cells_at(version: u32, notes: &[u8]) -> Result<(u32, u32), NotesFault>
    ensures cells { Answers (λ cells. cells) result (cells_at version notes.now) }
    ensures memory { IfErr result (WantsMemoryIf ⊥) }
    ensures few { IfOk result (λ cells. cells.1 ≤ 2 ^ 23) }
{
    let base = word_at(notes, 24)?;
    let cells = word_at(notes, 28)?;
    keep(are_cells(base, cells), 24)?;
    keep(cells <= most_cells(version), 28)?;
    Ok((base, cells))
}

/// The greatest number of a tool.
fn last_tool(version: u32) -> u32
    ensures { result ≡ last_tool version }
{
    if version == NARROW { 2 } else { 3 }
}

/// How many cells there are at most.
fn most_cells(version: u32) -> u32
    ensures { result ≡ most_cells version }
{
    if version == NARROW { 1 << 22 } else { 1 << 23 }
}

/// How many cells a counter has.
fn counter_width(version: u32) -> u32
    ensures { result ≡ counter_width version }
{
    if version == NARROW { 1 } else { 2 }
}

/// A text has one to 2^20 words, and ends at 2^31 at most.
fn is_text(start: u32, words: u32) -> bool
    ensures { result ≡ (nat_le 1 words && nat_le words (2 ^ 20) && nat_le (start + 4 * words) 0x80000000) }
{
    words >= 1 && words <= 1 << 20 && u64::from(start) + 4 * u64::from(words) <= 1 << 31
}

/// Cells are words, and end at 2^32 at most.
fn are_cells(base: u32, cells: u32) -> bool
    ensures { result ≡ ((base % 4 == 0) && nat_le (base + 4 * cells) (2 ^ 32)) }
{
    base % 4 == 0 && u64::from(base) + 4 * u64::from(cells) <= 1 << 32
}

/// Nothing follows what ends at this offset.
fn end_at(notes: &[u8], end: u32) -> bool
    ensures { result ≡ (byte_count notes.now == end) }
{
    notes.len() == end as usize
}

/// The number of blocks, of a text of so many words that is entered at the block `entry`.
#[tactic(auto, unfolding(crate::specs::Format::block_count_at))]
fn block_count_at(notes: &[u8], at: u32, entry: u32, words: u32) -> Result<u32, NotesFault>
    ensures count { Answers (λ count. count) result (block_count_at entry words notes.now at) }
    ensures few { IfOk result (λ count. count ≤ words) }
{
    let count = word_at(notes, at)?;
    keep(entry < count, 20)?;
    keep(count >= 1 && count <= words, at)?;
    Ok(count)
}

/// A number of rows, which is below `limit`.
fn count_at(notes: &[u8], at: u32, limit: u32) -> Result<u32, NotesFault>
    ensures count { Answers (λ count. count) result (note_that (λ count. nat_lt count limit) notes.now at) }
    ensures few { IfOk result (λ count. count < limit) }
{
    let count = word_at(notes, at)?;
    keep(count < limit, at)?;
    Ok(count)
}

/// What comes after the numbers: the tables, and no more.
#[tactic(auto, unfolding(crate::specs::Format::tables_of))]
fn read_tables(alloc: Global, notes: &[u8], head: &Head) -> Result<Notes, NotesFault>
    requires cells { head.now.cells ≤ 2 ^ 23 }
    requires words { head.now.words ≤ 2 ^ 20 }
    requires segments { head.now.segment_count ≤ 8 }
    ensures read { Answers notes_seen result (tables_of notes.now (head_seen head.now)) }
    ensures delta { IfOk result (λ notes. notes.delta ≡ head.now.delta) }
    ensures length { IfOk result (λ notes. notes.length ≡ head.now.length) }
{
    let segments = read_segments(alloc, notes, 36, head.segment_count)?;
    let blocks_at = 36 + 8 * head.segment_count;
    let block_count = block_count_at(notes, blocks_at, head.entry, head.words)?;
    let blocks = read_blocks(alloc, notes, blocks_at + 4, block_count, head.words)?;
    let edges_at = blocks_at + 4 + 4 * block_count;
    let edge_count = count_at(notes, edges_at, 1 << 24)?;
    let edges = read_edges(
        alloc,
        notes,
        edges_at + 4,
        edge_count,
        block_count,
        counter_width(head.version),
        head.cells,
    )?;
    let ranges_at = edges_at + 4 + 16 * edge_count;
    let range_count = count_at(notes, ranges_at, 1 << 26)?;
    let ranges = read_ranges(
        alloc,
        notes,
        ranges_at + 4,
        range_count,
        block_count,
        &segments,
    )?;
    let end = ranges_at + 4 + 16 * range_count;
    keep(end_at(notes, end), end)?;
    Ok(Notes {
        version: head.version,
        delta: head.delta,
        length: head.length,
        tool: head.tool,
        start: head.start,
        words: head.words,
        entry: head.entry,
        base: head.base,
        cells: head.cells,
        segments,
        blocks,
        edges,
        ranges,
    })
}
