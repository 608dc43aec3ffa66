//! How often words were visited.
ghost use Rattle.std.specs.Prelude.{◌≡◌, ℕ, ◌+◌, ◌*◌, ◌^◌, ◌<◌, ◌≤◌, ◌==◌, ◌&&◌, not, nat_le, nat_lt, length, slice_index, IfOk};
ghost use Rattle.std.specs.List.{find, All};
ghost use Rattle.cfg_blocks.specs.Blocks.{holding_of};
ghost use Rattle.notes.specs.Format.{range_at};
ghost use Rattle.notes.specs.Code.{notes_seen};
ghost use Rattle.dump_file.specs.Code.{dump_seen};
ghost use Rattle.cfg_view.specs.Code.{view_seen, IsView};
ghost use Rattle.instr_counts.specs.Private.{along, as_slot, is_block, is_word};
ghost use Rattle.instr_counts.specs.Answers.{begun_in, AreVisits};
ghost use Rattle.instr_counts.specs.Matches.{Matches};
ghost use Rattle.instr_counts.specs.Visits.{is_begun, is_slot, one_if, runs_slot};

use cfg_normal::{Edge, FlowGraph, Node, Slot};
use cfg_view::View;
use dump_file::Dump;
use eel_base::{Addr, NoMemory, Text, WordNo};
use notes::{Notes, Range};
use std::alloc::Global;

/// How often each word of a view was visited, by the counts of all edges and by where the run of a dump stands.
///
/// It takes time in proportion to the edges, and looks one place up.
pub fn visits(
    alloc: Global,
    v: &View,
    n: &Notes,
    d: &Dump,
    counts: &[u64],
) -> Result<Vec<u128>, NoMemory>
    requires view { IsView v.now }
    requires matches { Matches (view_seen v.now) (notes_seen n.now) }
    requires counts { length counts.now ≡ length n.now.edges.items }
    ensures visits { IfOk result (λ visits.
        AreVisits (view_seen v.now) (notes_seen n.now) (dump_seen d.now) counts.now visits.items) }
    ensures small { IfOk result (λ visits. All (λ count. count < 2 ^ 100) visits.items) }
{
    let mut visits = vec![in alloc; 0; v.image.text().len() as usize]?;
    add_all(&mut visits, v, n, d, counts);
    Ok(visits)
}

/// Adds all visits up, where there are none yet.
fn add_all(visits: &mut [u128], v: &View, n: &Notes, d: &Dump, counts: &[u64])
    requires view { IsView v.now }
    requires matches { Matches (view_seen v.now) (notes_seen n.now) }
    requires counts { length counts.now ≡ length n.now.edges.items }
    requires len { length visits.old ≡ length v.now.image.text.words }
    requires none { (word : ℕ) → slice_index visits.old word ≡ 0 }
    ensures len { length visits.new ≡ length visits.old }
    ensures visits { AreVisits (view_seen v.now) (notes_seen n.now) (dump_seen d.now) counts.now visits.new }
    ensures small { All (λ count. count < 2 ^ 100) visits.new }
{
    add_edges(visits, v.graph.edges(), counts);
    add(visits, v.image.entry(), 1);
    add_to(visits, begun(v.image.text(), &v.graph, n, d.pc), 1);
}

/// Adds the count of each edge to the words that are visited along it.
fn add_edges(visits: &mut [u128], edges: &[Edge], counts: &[u64])
    requires counts { length counts.now ≡ length edges.now }
    requires few { length edges.now < 2 ^ 24 }
    requires none { (word : ℕ) → slice_index visits.old word ≡ 0 }
    ensures len { length visits.new ≡ length visits.old }
    ensures added { (word : ℕ) → word < length visits.old → slice_index visits.new word
        ≡ along edges.now counts.now (length edges.now) word + as_slot edges.now counts.now (length edges.now) word }
    ensures small { (word : ℕ) → slice_index visits.new word < 2 ^ 90 }
{
    for (number, edge) in edges.iter().enumerate() {
        add_edge(visits, edge, counts[number]);
    }
}

/// Adds the count of an edge to the word to which that leads, and to the one that it runs as its slot.
fn add_edge(visits: &mut [u128], edge: &Edge, count: u64)
    requires { (word : ℕ) → slice_index visits.old word < 2 ^ 100 }
    ensures len { length visits.new ≡ length visits.old }
    ensures added { (word : ℕ) → word < length visits.old → slice_index visits.new word
        ≡ slice_index visits.old word + count * one_if (is_block word edge.now.to)
        + count * one_if (runs_slot word edge.now) }
    ensures small { (word : ℕ) → slice_index visits.new word < slice_index visits.old word + 2 ^ 65 }
{
    add_to(visits, block_word(edge.to), count);
    add_to(visits, slot_word(edge.slot), count);
}

/// The word of a node that is a block, where each has one.
fn block_word(node: Node) -> Option<WordNo>
    ensures { (word : ℕ) → is_word word result ≡ is_block word node }
{
    match node {
        Node::Block(block) => Some(WordNo(block.0)),
        Node::Landed(_) => None,
        Node::X => None,
    }
}

/// The word of a slot that lies in the text.
fn slot_word(slot: Slot) -> Option<WordNo>
    ensures { (word : ℕ) → is_word word result ≡ is_slot word slot }
{
    match slot {
        Slot::Word(word) => Some(word),
        Slot::Nothing => None,
        Slot::Off => None,
    }
}

/// Adds to the visits of a word.
fn add(visits: &mut [u128], word: WordNo, count: u64)
    requires { (other : ℕ) → slice_index visits.old other < 2 ^ 101 }
    ensures len { length visits.new ≡ length visits.old }
    ensures added { (other : ℕ) → other < length visits.old → slice_index visits.new other
        ≡ slice_index visits.old other + count * one_if (word.0 == other) }
    ensures small { (other : ℕ) → slice_index visits.new other ≤ slice_index visits.old other + count }
{
    let word = word.0 as usize;
    if word < visits.len() {
        visits[word] += u128::from(count);
    }
}

/// Adds to the visits of a word, if there is one.
fn add_to(visits: &mut [u128], word: Option<WordNo>, count: u64)
    requires { (other : ℕ) → slice_index visits.old other < 2 ^ 101 }
    ensures len { length visits.new ≡ length visits.old }
    ensures added { (other : ℕ) → other < length visits.old → slice_index visits.new other
        ≡ slice_index visits.old other + count * one_if (is_word other word) }
    ensures small { (other : ℕ) → slice_index visits.new other ≤ slice_index visits.old other + count }
{
    match word {
        Some(word) => add(visits, word, count),
        None => (),
    }
}

/// The word that was begun as a slot, if the run stands at one: its edge isn't completed.
fn begun(text: &Text, graph: &FlowGraph, n: &Notes, pc: Addr) -> Option<WordNo>
    requires { graph.now.blocks.words ≡ length text.now.words }
    ensures { (word : ℕ) → word < length text.now.words
        → begun_in text.now graph.now.blocks (range_at (notes_seen n.now) pc.0) word ≡ one_if (is_word word result) }
{
    match range_at(&n.ranges, pc) {
        Some(range) => begun_at(text, graph, range.address, range.node),
        None => None,
    }
}

/// The word that was begun, where the run stands at an address for a visit of a node.
fn begun_at(text: &Text, graph: &FlowGraph, address: Addr, node: u32) -> Option<WordNo>
    requires { graph.now.blocks.words ≡ length text.now.words }
    ensures { (word : ℕ) → word < length text.now.words
        → is_begun text.now graph.now.blocks address.0 node word ≡ is_word word result }
{
    let word = text.find(address)?;
    if is_elsewhere(graph, node, word) {
        Some(word)
    } else {
        None
    }
}

/// Whether a node is a block, and not that of the word.
fn is_elsewhere(graph: &FlowGraph, node: u32, word: WordNo) -> bool
    requires { word.0 < graph.now.blocks.words }
    ensures { result ≡ (nat_lt node (length graph.now.blocks.firsts)
        && not (node == holding_of graph.now.blocks word.0)) }
{
    node < graph.count() && node != graph.holding(word).0
}

/// The place that holds an address.
fn range_at(ranges: &[Range], address: Addr) -> Option<Range>
    ensures { result ≡ find (λ range. nat_le range.lo.0 address.0 && nat_lt address.0 range.hi.0) ranges.now }
{
    ranges.iter().copied().find(|range| has(*range, address))
}

/// Whether a place has an address.
fn has(range: Range, address: Addr) -> bool
    ensures { result ≡ (nat_le range.lo.0 address.0 && nat_lt address.0 range.hi.0) }
{
    range.lo.0 <= address.0 && address.0 < range.hi.0
}
