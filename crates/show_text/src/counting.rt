//! The lines of counts.
ghost use Rattle.std.specs.Prelude.{◌≡◌, ℕ, List, ◌++◌, length, slice_index, IfOk, OnOk};
ghost use Rattle.std.specs.List.{count_by, enumerate_from, flat_map, sum};
ghost use Rattle.notes.specs.Rules.{AreNotes};
ghost use Rattle.notes.specs.Code.{edge_seen, notes_seen};
ghost use Rattle.show_text.specs.CountLines.{count_line, count_lines, has_cell, kind_of, noted_block_text, noted_node_text, sum_line};

use crate::lines::put_line;
use crate::words::{Digits, NodeBytes, kind_text, plus_text};
use cfg_blocks::EdgeKind;
use eel_base::{NoMemory, hex8};
use itoa::Buffer;
use notes::{NoteEdge, Notes};
use std::alloc::Global;

/// The lines that show counts of the edges of notes: each edge that was completed, in the order of their numbers, and how
/// often all were.
#[tactic(auto, unfolding(crate::specs::CountLines::count_lines))]
pub fn counts(alloc: Global, n: &Notes, counts: &[u64]) -> Result<Vec<u8>, NoMemory>
    requires notes { AreNotes (notes_seen n.now) }
    requires counts { length counts.now ≡ length n.now.edges.items }
    ensures { IfOk result (λ text. text.items ≡ count_lines (notes_seen n.now) counts.now) }
{
    let mut text = Vec::new(alloc);
    put_counts(&mut text, n, counts)?;
    put_sum(&mut text, n, counts)?;
    Ok(text)
}

fn put_counts(text: &mut Vec<u8>, n: &Notes, counts: &[u64]) -> Result<(), NoMemory>
    requires notes { AreNotes (notes_seen n.now) }
    requires counts { length counts.now ≡ length n.now.edges.items }
    ensures { OnOk result (text.new.items
        ≡ text.old.items ++ flat_map (count_line (notes_seen n.now) counts.now) (enumerate_from 0 (notes_seen n.now).edges)) }
{
    for (number, edge) in n.edges.iter().enumerate() {
        put_count(text, n, number, *edge, counts[number])?;
    }
    Ok(())
}

/// Adds the line of an edge, where that was completed.
fn put_count(
    text: &mut Vec<u8>,
    n: &Notes,
    number: usize,
    edge: NoteEdge,
    count: u64,
) -> Result<(), NoMemory>
    requires { AreNotes (notes_seen n.now) }
    ensures { (counts : List ℕ) → slice_index counts number ≡ count → OnOk result (text.new.items
        ≡ text.old.items ++ count_line (notes_seen n.now) counts (number, edge_seen edge)) }
{
    if count == 0 {
        return Ok(());
    }
    let mut digits = Buffer::new();
    let mut from = [0; 9];
    let mut to = [0; 9];
    let mut times = Buffer::new();
    let number = digits.format(number).as_bytes();
    let kind = kind_text(noted_kind(edge.kind));
    let from = noted_node_text(n, edge.from, &mut from);
    let to = noted_node_text(n, edge.to, &mut to);
    let times = times.format(count).as_bytes();
    put_line(text, b"edge", &[number, kind, from, to, times])?;
    Ok(())
}

/// The kind of an edge of notes.
pub fn noted_kind(number: u32) -> EdgeKind
    ensures { result ≡ kind_of number }
{
    match number {
        0 => EdgeKind::Fall,
        1 => EdgeKind::Taken,
        2 => EdgeKind::Untaken,
        3 => EdgeKind::Call,
        4 => EdgeKind::Out,
        6 => EdgeKind::Case,
        _ => EdgeKind::Land,
    }
}

/// A node: the address of its block, with a plus behind it where it is the landed copy, or `x`.
#[tactic(auto, unfolding(crate::specs::CountLines::noted_node_text))]
pub fn noted_node_text<'a>(n: &Notes, node: u32, bytes: &'a mut NodeBytes) -> &'a [u8]
    requires { AreNotes (notes_seen n.now) }
    ensures { result.now ≡ noted_node_text (notes_seen n.now) node }
{
    let node = node as usize;
    let outside = n.blocks.len();
    if node < outside {
        *bytes = plus_text(noted_block_text(n, node));
        &bytes[..8]
    } else if node > outside {
        *bytes = plus_text(noted_block_text(n, node - (outside + 1)));
        bytes
    } else {
        b"x"
    }
}

/// The address of a block's first word.
fn noted_block_text(n: &Notes, block: usize) -> Digits
    requires { AreNotes (notes_seen n.now) }
    ensures { result ≡ noted_block_text (notes_seen n.now) block }
{
    let first = n.blocks.get(block).copied().unwrap_or(0);
    hex8(n.start + 4 * first)
}

/// Adds the line that says how many edges there are, how many have a cell, and how often all were completed.
fn put_sum(text: &mut Vec<u8>, n: &Notes, counts: &[u64]) -> Result<(), NoMemory>
    ensures { OnOk result (text.new.items ≡ text.old.items ++ sum_line (notes_seen n.now) counts.now) }
{
    let mut edges = Buffer::new();
    let mut counted = Buffer::new();
    let mut executions = Buffer::new();
    let edges = edges.format(n.edges.len()).as_bytes();
    let counted = counted.format(counted_edges(&n.edges)).as_bytes();
    let executions = executions.format(sum(counts)).as_bytes();
    put_line(
        text,
        b"edges",
        &[edges, b"counted", counted, b"executions", executions],
    )?;
    Ok(())
}

/// How many edges have a cell.
fn counted_edges(edges: &[NoteEdge]) -> usize
    ensures { result ≡ count_by (λ edge. has_cell (edge_seen edge)) edges.now }
{
    edges.iter().filter(|edge| edge.cell.is_some()).count()
}

/// The sum in 128 bits, which a slice of numbers of 64 bits can't exceed.
pub fn sum(counts: &[u64]) -> u128
    ensures { result ≡ sum counts.now }
{
    let mut sum: u128 = 0;
    for count in counts {
        sum += u128::from(*count);
    }
    sum
}
