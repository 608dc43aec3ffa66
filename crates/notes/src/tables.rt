//! The tables of notes.
ghost use Rattle.std.specs.Prelude.{◌≡◌, ◌≤◌, ◌<◌, ◌+◌, ◌*◌, ◌^◌, [], None, map};
ghost use Rattle.notes.specs.Format.{segments_at, blocks_at, edges_at, ranges_at};
ghost use Rattle.notes.specs.Code.{Answers, segment_seen, edge_seen, range_seen};

use crate::cells::Taken;
use crate::note::{NoteEdge, NoteSegment, NotesFault};
use crate::rows::{block_at, edge_at, range_at, segment_at};
use eel_base::{Addr, Range};
use std::alloc::Global;

/// The pages.
pub(crate) fn read_segments(
    alloc: Global,
    notes: &[u8],
    at: u32,
    count: u32,
) -> Result<Vec<NoteSegment>, NotesFault>
    requires { at + 8 * count < 2 ^ 32 }
    ensures { Answers (λ segments. map segment_seen segments.items) result (segments_at notes.now at 0 count) }
{
    let mut segments = Vec::new(alloc);
    let mut end = 0;
    for row in 0..count {
        let segment = segment_at(notes, at + 8 * row, end)?;
        end = u64::from(segment.start) + u64::from(segment.length);
        segments.push(segment)?;
    }
    Ok(segments)
}

/// The blocks of a text of so many words.
pub(crate) fn read_blocks(
    alloc: Global,
    notes: &[u8],
    at: u32,
    count: u32,
    words: u32,
) -> Result<Vec<u32>, NotesFault>
    requires { at + 4 * count < 2 ^ 32 }
    ensures { Answers (λ blocks. blocks.items) result (blocks_at words notes.now at None count) }
{
    let mut blocks = Vec::new(alloc);
    let mut before = None;
    for row in 0..count {
        let first = block_at(notes, at + 4 * row, before, words)?;
        before = Some(first);
        blocks.push(first)?;
    }
    Ok(blocks)
}

/// The edges of a graph of so many blocks, where a counter has so many cells.
pub(crate) fn read_edges(
    alloc: Global,
    notes: &[u8],
    at: u32,
    count: u32,
    blocks: u32,
    width: u32,
    cells: u32,
) -> Result<Vec<NoteEdge>, NotesFault>
    requires few { cells ≤ 2 ^ 23 }
    requires width { 0 < width }
    requires place { at + 16 * count < 2 ^ 32 }
    ensures { Answers (λ edges. map edge_seen edges.items) result (edges_at width blocks cells notes.now at [] count) }
{
    let mut taken = Taken::none(alloc, width, cells)?;
    let mut edges = Vec::new(alloc);
    for row in 0..count {
        let edge = edge_at(notes, at + 16 * row, blocks, &taken)?;
        taken.mark(edge.cell);
        edges.push(edge)?;
    }
    Ok(edges)
}

/// The places, for a graph of so many blocks.
pub(crate) fn read_ranges(
    alloc: Global,
    notes: &[u8],
    at: u32,
    count: u32,
    blocks: u32,
    segments: &[NoteSegment],
) -> Result<Vec<Range>, NotesFault>
    requires { at + 16 * count < 2 ^ 32 }
    ensures { Answers (λ ranges. map range_seen ranges.items) result (ranges_at blocks (map segment_seen segments.now) notes.now at 0 count) }
{
    let mut ranges = Vec::new(alloc);
    let mut end = Addr(0);
    for row in 0..count {
        let range = range_at(notes, at + 16 * row, blocks, segments, end)?;
        end = range.hi;
        ranges.push(range)?;
    }
    Ok(ranges)
}
