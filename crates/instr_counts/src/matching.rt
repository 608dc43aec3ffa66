//! Whether notes are those of a text with each word marked.
ghost use Rattle.std.specs.Prelude.{◌≡◌, ◌<◌, ◌↔◌, IsTrue, length, map};
ghost use Rattle.cfg_blocks.specs.Blocks.{holding_of};
ghost use Rattle.cfg_normal.specs.Code.{IsEdgeIn};
ghost use Rattle.cfg_view.specs.Code.{view_seen, IsView};
ghost use Rattle.notes.specs.Code.{edge_seen, notes_seen};
ghost use Rattle.instr_counts.specs.Matches.{AreNoted, IsNoted, Matches};
ghost use Rattle.instr_counts.specs.Visits.{AreSingle};

use cfg_normal::{Edge, FlowGraph, kind_number, node_number};
use cfg_view::View;
use eel_base::BlockNo;
use notes::{NoteEdge, Notes};

/// Whether each block of a view has one word, and the text, the entry, the blocks and the edges of notes are those of
/// the view.
pub fn matches(v: &View, n: &Notes) -> bool
    requires { IsView v.now }
    ensures { IsTrue result ↔ Matches (view_seen v.now) (notes_seen n.now) }
{
    has_text(v, n)
        && are_single(&v.graph)
        && has_entry(v, n)
        && has_blocks(&v.graph, &n.blocks)
        && has_edges(&v.graph, &n.edges)
}

fn has_text(v: &View, n: &Notes) -> bool
    ensures { IsTrue result ↔ (n.now.start ≡ v.now.image.text.start) × (n.now.words ≡ length v.now.image.text.words) }
{
    let text = v.image.text();
    n.start == text.start().0 && n.words == text.len()
}

/// Whether each block has one word.
fn are_single(graph: &FlowGraph) -> bool
    ensures { IsTrue result ↔ AreSingle graph.now.blocks }
{
    for block in 0..graph.count() {
        if graph.words(BlockNo(block)) != 1 {
            return false;
        }
    }
    true
}

fn has_entry(v: &View, n: &Notes) -> bool
    requires { IsView v.now }
    ensures { IsTrue result ↔ n.now.entry ≡ holding_of v.now.graph.blocks v.now.image.entry }
{
    n.entry == v.graph.holding(v.image.entry()).0
}

/// Whether blocks begin with these words.
fn has_blocks(graph: &FlowGraph, firsts: &[u32]) -> bool
    ensures { IsTrue result ↔ firsts.now ≡ graph.now.blocks.firsts }
{
    if firsts.len() != graph.count() as usize {
        return false;
    }
    for block in 0..graph.count() {
        if firsts[block as usize] != graph.first(BlockNo(block)).0 {
            return false;
        }
    }
    true
}

fn has_edges(graph: &FlowGraph, noted: &[NoteEdge]) -> bool
    ensures { IsTrue result ↔ AreNoted graph.now (map edge_seen noted.now) graph.now.edges }
{
    let edges = graph.edges();
    if noted.len() != edges.len() {
        return false;
    }
    for (number, edge) in edges.iter().enumerate() {
        if !is_noted(graph, noted[number], edge) {
            return false;
        }
    }
    true
}

fn is_noted(graph: &FlowGraph, noted: NoteEdge, edge: &Edge) -> bool
    requires { IsEdgeIn graph.now.blocks graph.now.opens edge.now }
    ensures { IsTrue result ↔ IsNoted graph.now (edge_seen noted) edge.now }
{
    noted.kind == kind_number(edge.kind)
        && noted.from == node_number(graph, edge.from)
        && noted.to == node_number(graph, edge.to)
}
