//! The lines that show the last edges.
ghost use Rattle.std.specs.Prelude.{◌≡◌, ◌<◌, ◌≤◌, ◌++◌, ℕ, List, length, map, IfOk, OnOk};
ghost use Rattle.std.specs.List.{All, flat_map};
ghost use Rattle.notes.specs.Rules.{AreNotes};
ghost use Rattle.notes.specs.Code.{edge_seen, notes_seen};
ghost use Rattle.edge_ring.specs.Lines.{edge_line, noted_edge_line, ring_line, ring_lines};

use eel_base::{EdgeNo, NoMemory};
use itoa::Buffer;
use notes::{NoteEdge, Notes};
use show_text::{kind_text, noted_kind, noted_node_text, put_line};
use std::alloc::Global;

/// The lines that show edges of notes, each by its number, its kind and its ends, and how many there are of how many
/// that the ring of the notes' trace has room for.
#[tactic(auto, unfolding(crate::specs::Lines::ring_lines))]
pub fn ring_lines(alloc: Global, n: &Notes, edges: &[EdgeNo]) -> Result<Vec<u8>, NoMemory>
    requires notes { AreNotes (notes_seen n.now) }
    requires ring { 1 ≤ n.now.cells }
    requires edges { All (λ edge. edge.0 < length n.now.edges.items) edges.now }
    ensures { IfOk result (λ text. text.items ≡ ring_lines (notes_seen n.now) (map (λ edge. edge.0) edges.now)) }
{
    let mut text = Vec::new(alloc);
    put_edges(&mut text, n, edges)?;
    put_ring(&mut text, n, edges.len())?;
    Ok(text)
}

fn put_edges(text: &mut Vec<u8>, n: &Notes, edges: &[EdgeNo]) -> Result<(), NoMemory>
    requires notes { AreNotes (notes_seen n.now) }
    requires edges { All (λ edge. edge.0 < length n.now.edges.items) edges.now }
    ensures { OnOk result (text.new.items
        ≡ text.old.items ++ flat_map (λ edge. edge_line (notes_seen n.now) edge.0) edges.now) }
{
    for edge in edges {
        put_edge(text, n, *edge)?;
    }
    Ok(())
}

/// Adds the line of an edge.
fn put_edge(text: &mut Vec<u8>, n: &Notes, edge: EdgeNo) -> Result<(), NoMemory>
    requires notes { AreNotes (notes_seen n.now) }
    requires edge { edge.0 < length n.now.edges.items }
    ensures { OnOk result (text.new.items ≡ text.old.items ++ edge_line (notes_seen n.now) edge.0) }
{
    let number = edge.0 as usize;
    put_noted_edge(text, n, number, n.edges[number])?;
    Ok(())
}

/// Adds the line of an edge with this number.
fn put_noted_edge(
    text: &mut Vec<u8>,
    n: &Notes,
    number: usize,
    edge: NoteEdge,
) -> Result<(), NoMemory>
    requires { AreNotes (notes_seen n.now) }
    ensures { OnOk result (text.new.items
        ≡ text.old.items ++ noted_edge_line (notes_seen n.now) number (edge_seen edge)) }
{
    let mut digits = Buffer::new();
    let mut from = [0; 9];
    let mut to = [0; 9];
    let number = digits.format(number).as_bytes();
    let kind = kind_text(noted_kind(edge.kind));
    let from = noted_node_text(n, edge.from, &mut from);
    let to = noted_node_text(n, edge.to, &mut to);
    put_line(text, b"edge", &[number, kind, from, to])?;
    Ok(())
}

/// Adds the line that says how many edges are shown, and how many the ring has room for.
fn put_ring(text: &mut Vec<u8>, n: &Notes, edges: usize) -> Result<(), NoMemory>
    requires { 1 ≤ n.now.cells }
    ensures { (shown : List ℕ) → length shown ≡ edges
        → OnOk result (text.new.items ≡ text.old.items ++ ring_line (notes_seen n.now) shown) }
{
    let mut shown = Buffer::new();
    let mut places = Buffer::new();
    let shown = shown.format(edges).as_bytes();
    let places = places.format(n.cells - 1).as_bytes();
    put_line(text, b"edges", &[shown, b"ring", places])?;
    Ok(())
}
