//! What words and edges read and write.
ghost use Rattle.std.specs.Prelude.{◌≡◌, ◌^◌, ◌<◌, ◌≤◌, not, ◌&&◌, ◌||◌, length, IsTrue};
ghost use Rattle.v8_decode.specs.declared.Part.{Part};
ghost use Rattle.v8_decode.specs.Parts.{has};
ghost use Rattle.v8_decode.specs.Ranges.{has_even_pair};
ghost use Rattle.cfg_blocks.specs.Values.{instr_at};
ghost use Rattle.cfg_normal.specs.Code.{IsEdgeIn, IsGraph};
ghost use Rattle.liveness.specs.Live.{beyond, edge_at, is_landing, is_outside, slot_reads, slot_writes};
ghost use Rattle.liveness.specs.Search.{first_in, is_ahead, last_in, IsInside, IsSlotWithin};

use cfg_blocks::EdgeKind;
use cfg_normal::{Edge, FlowGraph, Node, Slot};
use eel_base::{BlockNo, Text, WordNo};
use v8_decode::{Instr, RegSet, decode, reads, writes};

/// The instruction at a word.
pub(crate) fn instr_at(text: &Text, word: u32) -> Instr
    requires { word < length text.now.words }
    ensures value { result ≡ instr_at text.now word }
    ensures pair { IsTrue (has_even_pair result) }
{
    decode(text.word(WordNo(word)))
}

/// The edge of a number.
pub(crate) fn edge_at(graph: &FlowGraph, e: usize) -> Edge
    requires { e < length graph.now.edges }
    ensures edge { result ≡ edge_at graph.now e }
    ensures inside { IsEdgeIn graph.now.blocks graph.now.opens result }
    ensures graph { IsGraph graph.now }
{
    graph.edges()[e]
}

/// Whether a node is all that lies outside the text.
pub(crate) fn is_outside(node: Node) -> bool
    ensures { result ≡ is_outside node }
{
    match node {
        Node::X => true,
        _ => false,
    }
}

/// Whether control lands at any word of the node to which an edge of the kind leads, and not at the first alone.
pub(crate) fn is_landing(kind: EdgeKind) -> bool
    ensures { result ≡ is_landing kind }
{
    match kind {
        EdgeKind::Land => true,
        EdgeKind::Case => true,
        _ => false,
    }
}

/// The first word of a node.
pub(crate) fn first_of(graph: &FlowGraph, node: Node) -> u32
    requires { IsInside graph.now node }
    ensures first { result ≡ first_in graph.now node }
    ensures within { result < graph.now.blocks.words }
{
    match node {
        Node::Block(block) | Node::Landed(block) => graph.first(block).0,
        Node::X => 0,
    }
}

/// The last word of a node.
pub(crate) fn last_of(graph: &FlowGraph, node: Node) -> u32
    requires { IsInside graph.now node }
    ensures last { result ≡ last_in graph.now node }
    ensures above { first_in graph.now node ≤ result }
    ensures within { result < graph.now.blocks.words }
    ensures few { graph.now.blocks.words ≤ 2 ^ 20 }
{
    match node {
        Node::Block(block) | Node::Landed(block) => graph.last(block).0,
        Node::X => 0,
    }
}

/// What is read on an edge whose snippet names these registers: by the slot, or, unless that writes it, by the snippet
/// or beyond.
pub(crate) fn ahead(text: &Text, edge: Edge, named: RegSet) -> RegSet
    requires { IsSlotWithin (length text.now.words) edge.slot }
    ensures { (x : Part) → has result x ≡ is_ahead text.now edge named x }
{
    let after = named.union(beyond(edge));
    slot_reads(text, edge.slot).union(after.minus(slot_writes(text, edge.slot)))
}

/// What is read beyond an edge.
pub(crate) fn beyond(edge: Edge) -> RegSet
    ensures { result ≡ beyond edge }
{
    match (edge.kind, edge.to) {
        (EdgeKind::Call, _) => RegSet::all(),
        (EdgeKind::Out, _) => RegSet::all(),
        (_, Node::X) => RegSet::all(),
        (_, Node::Block(_)) => RegSet::empty(),
        (_, Node::Landed(_)) => RegSet::empty(),
    }
}

/// What a slot reads.
fn slot_reads(text: &Text, slot: Slot) -> RegSet
    requires { IsSlotWithin (length text.now.words) slot }
    ensures { result ≡ slot_reads text.now slot }
{
    match slot {
        Slot::Nothing => RegSet::empty(),
        Slot::Word(word) => reads(instr_at(text, word.0)),
        Slot::Off => RegSet::all(),
    }
}

/// What a slot writes.
pub(crate) fn slot_writes(text: &Text, slot: Slot) -> RegSet
    requires { IsSlotWithin (length text.now.words) slot }
    ensures { result ≡ slot_writes text.now slot }
{
    match slot {
        Slot::Nothing => RegSet::empty(),
        Slot::Word(word) => writes(instr_at(text, word.0)),
        Slot::Off => RegSet::empty(),
    }
}
