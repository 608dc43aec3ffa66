//! The last edges, from the cells of a dump.
ghost use Rattle.std.specs.Prelude.{◌≡◌, ◌≤◌, ◌<◌, ◌+◌, ◌^◌, ◌++◌, ◌==◌, ℕ, length, drop, map, nat_lt, IfOk, IfErr, MatchBool, OnOk};
ghost use Rattle.std.specs.List.{All, filter_map, list_any, position, range_with_len};
ghost use Rattle.notes.specs.Rules.{AreNotes};
ghost use Rattle.notes.specs.Code.{notes_seen};
ghost use Rattle.dump_file.specs.Code.{dump_seen};
ghost use Rattle.count_rebuild.specs.Dumps.{IsTheirs};
ghost use Rattle.edge_ring.specs.Answers.{AreLast};
ghost use Rattle.edge_ring.specs.Code.{IsRefused};
ghost use Rattle.edge_ring.specs.Private.{edge_no_in};
ghost use Rattle.edge_ring.specs.Ring.{edges_in};
ghost use Rattle.edge_ring.specs.Traces.{IsPlaced, IsTrace, IsWhole};

use crate::RingFault;
use count_rebuild::node_at;
use dump_file::Dump;
use eel_base::EdgeNo;
use notes::Notes;
use std::alloc::{AllocError, Global};

/// The number of a trace among the tools.
const TRACE: u32 = 3;

/// The places of the largest ring have numbers of so many bits.
const MOST_BITS: u32 = 16;

/// The last edges that a run of the notes' file went along, the oldest first, by a dump of the run. Of the refusals the
/// first that has a cause is answered, in the order of their variants.
///
/// It takes time n in the number of cells.
pub fn last_edges(alloc: Global, n: &Notes, d: &Dump) -> Result<Vec<EdgeNo>, RingFault>
    requires notes { AreNotes (notes_seen n.now) }
    requires cells { length d.now.cells.items < 2 ^ 32 }
    ensures last { IfOk result (λ edges.
        AreLast (notes_seen n.now) (dump_seen d.now) (map (λ edge. edge.0) edges.items)) }
    ensures inside { IfOk result (λ edges. All (λ edge. edge.0 < length n.now.edges.items) edges.items) }
    ensures refused { IfErr result (IsRefused (notes_seen n.now) (dump_seen d.now)) }
{
    judge_dump(n, d)?;
    judge_place(n, d)?;
    judge_entries(n, d)?;
    let edges = edges_in(alloc, &d.cells)?;
    Ok(edges)
}

/// Judges that the notes are those of a trace, and the dump is one of their file.
fn judge_dump(n: &Notes, d: &Dump) -> Result<(), RingFault>
    requires { length d.now.cells.items < 2 ^ 32 }
    ensures theirs { OnOk result (IsTheirs IsTrace (notes_seen n.now) (dump_seen d.now)) }
    ensures refused { IfErr result (IsRefused (notes_seen n.now) (dump_seen d.now)) }
{
    if !is_trace(n) {
        return Err(RingFault::NoTrace);
    }
    if d.version != n.version {
        return Err(RingFault::Version {
            dump: d.version,
            notes: n.version,
        });
    }
    if n.version == 2 && d.length != n.length {
        return Err(RingFault::Other {
            length: d.length,
            wanted: n.length,
        });
    }
    let cells = d.cells.len() as u32;
    if cells != n.cells {
        return Err(RingFault::Shape {
            cells,
            wanted: n.cells,
        });
    }
    Ok(())
}

/// Whether notes are those of a trace.
fn is_trace(n: &Notes) -> bool
    ensures { MatchBool result (IsTrace (notes_seen n.now)) (¬ IsTrace (notes_seen n.now)) }
{
    n.tool == TRACE && is_ring(n.cells, MOST_BITS)
}

/// Whether so many cells are a count and 2^bits places, for some bits, from one to so many.
fn is_ring(cells: u32, most: u32) -> bool
    requires { most < 32 }
    ensures { result ≡ list_any (λ bits. (1 + 2 ^ bits) == cells) (range_with_len 1 most) }
{
    (1..most + 1).any(|bits| has_places(cells, bits))
}

/// Whether so many cells are a count and 2^bits places.
fn has_places(cells: u32, bits: u32) -> bool
    ensures { result ≡ ((1 + 2 ^ bits) == cells) }
{
    match 2u32.checked_pow(bits) {
        Some(places) => 1 + u64::from(places) == u64::from(cells),
        None => false,
    }
}

/// Judges that the run stands at a node.
fn judge_place(n: &Notes, d: &Dump) -> Result<(), RingFault>
    requires notes { AreNotes (notes_seen n.now) }
    requires theirs { IsTheirs IsTrace (notes_seen n.now) (dump_seen d.now) }
    ensures placed { OnOk result (IsPlaced (notes_seen n.now) (dump_seen d.now)) }
    ensures refused { IfErr result (IsRefused (notes_seen n.now) (dump_seen d.now)) }
{
    match node_at(n, d.pc) {
        Some(_) => Ok(()),
        None => Err(RingFault::Between(d.pc)),
    }
}

/// Judges that each place holds an edge, or none.
fn judge_entries(n: &Notes, d: &Dump) -> Result<(), RingFault>
    requires cells { length d.now.cells.items < 2 ^ 32 }
    requires placed { IsPlaced (notes_seen n.now) (dump_seen d.now) }
    ensures whole { OnOk result (IsWhole (notes_seen n.now) (dump_seen d.now)) }
    ensures refused { IfErr result (IsRefused (notes_seen n.now) (dump_seen d.now)) }
{
    match bad_place(&d.cells[1..], n.edges.len()) {
        Some(place) => Err(RingFault::Entry {
            cell: place as u32 + 1,
            value: d.cells[place + 1],
        }),
        None => Ok(()),
    }
}

/// The first place that holds more than the number of the last edge and one.
fn bad_place(places: &[u32], edges: usize) -> Option<usize>
    ensures { result ≡ position (λ entry. nat_lt edges entry) places.now }
{
    places.iter().position(|entry| edges < *entry as usize)
}

/// The edges that cells hold, from the place that comes next on and round to it.
fn edges_in(alloc: Global, cells: &[u32]) -> Result<Vec<EdgeNo>, AllocError>
    requires { 1 < length cells.now }
    ensures { (bits : ℕ) → length cells.now ≡ 1 + 2 ^ bits
        → IfOk result (λ edges. map (λ edge. edge.0) edges.items ≡ edges_in bits cells.now) }
{
    let places = &cells[1..];
    let (newer, older) = places.split_at(cells[0] as usize % places.len());
    edges_of(alloc, older, newer)
}

/// The edges that older and newer places hold.
fn edges_of(alloc: Global, older: &[u32], newer: &[u32]) -> Result<Vec<EdgeNo>, AllocError>
    ensures { IfOk result (λ edges. edges.items ≡ filter_map edge_no_in (older.now ++ newer.now)) }
{
    older
        .iter()
        .chain(newer.iter())
        .filter_map(|entry| edge_in(*entry))
        .collect(alloc)
}

/// The edge that a place holds, if it isn't empty.
#[tactic(auto, unfolding(crate::specs::Private::edge_no_in))]
fn edge_in(entry: u32) -> Option<EdgeNo>
    ensures { result ≡ edge_no_in entry }
{
    if entry == 0 {
        None
    } else {
        Some(EdgeNo(entry - 1))
    }
}
