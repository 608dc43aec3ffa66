//! Writing notes.
ghost use Rattle.std.specs.Prelude.{◌≡◌, ◌++◌, IfOk, OnOk};
ghost use Rattle.std.specs.List.{flat_map};
ghost use Rattle.notes.specs.Code.{notes_seen};
ghost use Rattle.notes.specs.Rules.{AreNotes};
ghost use Rattle.notes.specs.Written.{words_bytes, cell_word, notes_bytes};
ghost use Rattle.notes.specs.Rows.{segment_bytes, edge_bytes, range_bytes};

use crate::cells::NO_CELL;
use crate::note::{NoteEdge, NoteSegment, Notes};
use byteorder::{BigEndian, ByteOrder};
use eel_base::{NoMemory, Range};
use std::alloc::Global;

/// Notes as bytes, of the version that is written.
pub fn write_notes(alloc: Global, n: &Notes) -> Result<Vec<u8>, NoMemory>
    requires notes { AreNotes (notes_seen n.now) }
    requires version { n.now.version ≡ 2 }
    ensures { IfOk result (λ bytes. bytes.items ≡ notes_bytes (notes_seen n.now)) }
{
    let mut out = Vec::new(alloc);
    put_words(
        &mut out,
        &[
            n.delta, n.length, n.tool, n.start, n.words, n.entry, n.base, n.cells,
        ],
    )?;
    put_words(&mut out, &[n.segments.len() as u32])?;
    put_segments(&mut out, &n.segments)?;
    put_words(&mut out, &[n.blocks.len() as u32])?;
    put_words(&mut out, &n.blocks)?;
    put_words(&mut out, &[n.edges.len() as u32])?;
    put_edges(&mut out, &n.edges)?;
    put_words(&mut out, &[n.ranges.len() as u32])?;
    put_ranges(&mut out, &n.ranges)?;
    Ok(out)
}

#[tactic(auto, unfolding(crate::specs::Rows::segment_bytes))]
fn put_segments(out: &mut Vec<u8>, segments: &[NoteSegment]) -> Result<(), NoMemory>
    ensures { OnOk result (out.new.items ≡ out.old.items ++ flat_map segment_bytes segments.now) }
{
    for segment in segments {
        put_words(out, &[segment.start, segment.length])?;
    }
    Ok(())
}

#[tactic(auto, unfolding(crate::specs::Rows::edge_bytes))]
fn put_edges(out: &mut Vec<u8>, edges: &[NoteEdge]) -> Result<(), NoMemory>
    ensures { OnOk result (out.new.items ≡ out.old.items ++ flat_map edge_bytes edges.now) }
{
    for edge in edges {
        put_words(out, &[edge.kind, edge.from, edge.to, cell_word(edge.cell)])?;
    }
    Ok(())
}

/// An edge's cell as a word.
fn cell_word(cell: Option<u32>) -> u32
    ensures { result ≡ cell_word cell }
{
    cell.unwrap_or(NO_CELL)
}

#[tactic(auto, unfolding(crate::specs::Rows::range_bytes))]
fn put_ranges(out: &mut Vec<u8>, ranges: &[Range]) -> Result<(), NoMemory>
    ensures { OnOk result (out.new.items ≡ out.old.items ++ flat_map range_bytes ranges.now) }
{
    for range in ranges {
        put_words(out, &[range.lo.0, range.hi.0, range.address.0, range.node])?;
    }
    Ok(())
}

/// Adds big-endian words.
#[tactic(auto, unfolding(crate::specs::Written::words_bytes))]
fn put_words(out: &mut Vec<u8>, words: &[u32]) -> Result<(), NoMemory>
    ensures { OnOk result (out.new.items ≡ out.old.items ++ words_bytes words.now) }
{
    for word in words {
        let mut field = [0; 4];
        BigEndian::write_u32(&mut field, *word);
        out.extend_from_slice(&field)?;
    }
    Ok(())
}
