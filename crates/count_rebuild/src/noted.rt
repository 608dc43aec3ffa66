//! The graph that notes tell, as lists.
ghost use Rattle.std.specs.Prelude.{◌≡◌, ◌<◌, ◌+◌, ◌^◌, ◌&&◌, nat_le, nat_lt, length, map, nat_abs, slice_index_or, IfOk};
ghost use Rattle.std.specs.List.{All, find, list_any};
ghost use Rattle.notes.specs.Format.{holds, node_at};
ghost use Rattle.notes.specs.Code.{edge_seen, notes_seen, segment_seen};
ghost use Rattle.count_rebuild.specs.Counts.{cell_value, counter_value};
ghost use Rattle.count_rebuild.specs.Private.{is_counted, link_of};

use eel_base::Addr;
use flows::Link;
use notes::{NoteEdge, NoteSegment, Notes, Range};
use std::alloc::{AllocError, Global};

/// The version of notes whose counters have one cell.
pub(crate) const NARROW: u32 = 1;

/// The version of notes whose counters have two cells.
pub(crate) const WIDE: u32 = 2;

/// The edges by their nodes.
pub(crate) fn links(alloc: Global, edges: &[NoteEdge]) -> Result<Vec<Link>, AllocError>
    ensures { IfOk result (λ links. links.items ≡ map (λ edge. link_of (edge_seen edge)) edges.now) }
{
    edges.iter().map(|edge| link(*edge)).collect(alloc)
}

fn link(edge: NoteEdge) -> Link
    ensures { result ≡ link_of (edge_seen edge) }
{
    Link {
        from: edge.from as usize,
        to: edge.to as usize,
    }
}

/// For each edge, whether it is counted.
pub(crate) fn counted(alloc: Global, edges: &[NoteEdge]) -> Result<Vec<bool>, AllocError>
    ensures { IfOk result (λ counted. counted.items ≡ map (λ edge. is_counted (edge_seen edge)) edges.now) }
{
    edges.iter().map(|edge| edge.cell.is_some()).collect(alloc)
}

/// For each edge, what its counter holds, or 0 where it has none.
pub(crate) fn values(
    alloc: Global,
    version: u32,
    edges: &[NoteEdge],
    cells: &[u32],
) -> Result<Vec<i128>, AllocError>
    ensures values { IfOk result (λ values. values.items ≡ map (λ edge. cell_value version cells.now (edge_seen edge).cell) edges.now) }
    ensures small { IfOk result (λ values. All (λ value. nat_abs value < 2 ^ 64) values.items) }
{
    held(alloc, version, edges, cells)
}

fn held(
    alloc: Global,
    version: u32,
    edges: &[NoteEdge],
    cells: &[u32],
) -> Result<Vec<i128>, AllocError>
    ensures { IfOk result (λ values. values.items ≡ map (λ edge. cell_value version cells.now (edge_seen edge).cell) edges.now) }
{
    edges
        .iter()
        .map(|edge| value(version, edge.cell, cells))
        .collect(alloc)
}

/// What a counter holds.
fn value(version: u32, cell: Option<u32>, cells: &[u32]) -> i128
    ensures { result ≡ cell_value version cells.now cell }
{
    match cell {
        Some(cell) => i128::from(counter_value(version, cells, cell)),
        None => 0,
    }
}

/// What the counter holds that begins with this cell: a word, or two, the high one first.
fn counter_value(version: u32, cells: &[u32], cell: u32) -> u64
    ensures { result ≡ counter_value version cells.now cell }
{
    let first = word_at(cells, cell as usize);
    if version == NARROW {
        return u64::from(first);
    }
    (1 << 32) * u64::from(first) + u64::from(word_at(cells, cell as usize + 1))
}

/// What a cell holds, or 0 where it is missing.
fn word_at(cells: &[u32], cell: usize) -> u32
    ensures { result ≡ slice_index_or cells.now cell 0 }
{
    cells.get(cell).copied().unwrap_or(0)
}

/// The node at which an address stands: that of its place, or the outside's where it lies in no page. An address in a
/// page and in no place stands at none.
pub fn node_at(n: &Notes, address: Addr) -> Option<u32>
    requires { length n.now.blocks.items < 2 ^ 32 }
    ensures { result ≡ node_at (notes_seen n.now) address.0 }
{
    match range_at(&n.ranges, address) {
        Some(range) => Some(range.node),
        None if in_page(&n.segments, address) => None,
        None => Some(n.blocks.len() as u32),
    }
}

/// The place that holds an address.
fn range_at(ranges: &[Range], address: Addr) -> Option<Range>
    ensures { result ≡ find (λ range. nat_le range.lo.0 address.0 && nat_lt address.0 range.hi.0) ranges.now }
{
    ranges.iter().copied().find(|range| has(*range, address))
}

/// Whether a place has an address.
fn has(range: Range, address: Addr) -> bool
    ensures { result ≡ (nat_le range.lo.0 address.0 && nat_lt address.0 range.hi.0) }
{
    range.lo.0 <= address.0 && address.0 < range.hi.0
}

/// Whether an address lies in a page.
fn in_page(segments: &[NoteSegment], address: Addr) -> bool
    ensures { result ≡ list_any (λ segment. holds address.0 (address.0 + 1) (segment_seen segment)) segments.now }
{
    segments.iter().any(|segment| holds(*segment, address.0))
}

/// Whether a page holds an address.
fn holds(segment: NoteSegment, address: u32) -> bool
    ensures { result ≡ holds address (address + 1) (segment_seen segment) }
{
    segment.start <= address
        && u64::from(address) < u64::from(segment.start) + u64::from(segment.length)
}
