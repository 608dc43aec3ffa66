//! Which files are edited, and why others are not.
ghost use Rattle.std.specs.Prelude.{◌≡◌, ℕ, if◌then◌else◌, ◌+◌, ◌-◌, ◌*◌, ◌^◌, ◌<◌, ◌≤◌, length, map, slice_index, IfOk, OnErr, OnOk};
ghost use Rattle.std.specs.List.{count_by, range_with_len};
ghost use Rattle.indexmap.specs.IndexMap.{get};
ghost use Rattle.cfg_blocks.specs.Blocks.{size_of};
ghost use Rattle.cfg_normal.specs.Code.{IsEdgeIn, IsNodeIn};
ghost use Rattle.cfg_normal.specs.Landings.{IsNumbered};
ghost use Rattle.cfg_normal.specs.Numbers.{node_number as node_number_of};
ghost use Rattle.image_code.specs.Copies.{copies_of, is_at, targets_from, words_at};
ghost use Rattle.edit_core.specs.Taken.{bound_by, counted_on as counted_on_of, operations_on};
ghost use Rattle.edit_core.specs.Private.{case_key as case_key_of, count_of, is_entry, same_key, AreCounts};

use cfg_blocks::EdgeKind;
use cfg_normal::{Edge, FlowGraph, Node, node_number, same_node};
use eel_base::{BlockNo, NoMemory, Text, WordNo};
use elf32_sparc::{FileFault, ReadFault};
use indexmap::IndexMap;
use snippets::Snippet;
use std::alloc::Global;
use tool_kit::ToolKind;

/// Why a file was not edited.
#[derive(Clone, Copy)]
pub enum EditFault {
    File(FileFault),
    /// The edit asks for more bytes than there is room.
    Room { needed: u64, had: u64 },
    NoMemory,
}

impl From<NoMemory> for EditFault {
    ghost use Rattle.std.specs.Prelude.{◌≡◌};
    ghost use Rattle.edit_core.specs.declared.requests.EditFault.TheVariants as faults;

    ghost from_gives = { λ _ fault. fault ≡ faults.NoMemory };

    fn from(_: NoMemory) -> EditFault {
        EditFault::NoMemory
    }
}

impl From<ReadFault> for EditFault {
    ghost use Rattle.edit_core.specs.Code.{BecomesEditFault};

    ghost from_gives = { BecomesEditFault };

    fn from(fault: ReadFault) -> EditFault {
        match fault {
            ReadFault::File(fault) => EditFault::File(fault),
            ReadFault::NoMemory => EditFault::NoMemory,
        }
    }
}

/// What a tool asks of a graph.
#[derive(Drop)]
pub(crate) struct Request {
    pub kind: ToolKind,
    pub cells: u32,
    /// The snippet on each edge.
    pub snips: Vec<Snippet>,
}

/// How many bytes of room an edit asks for.
pub(crate) fn bound(
    alloc: Global,
    text: &Text,
    graph: &FlowGraph,
    kind: ToolKind,
    cells: u32,
    snips: &[Snippet],
) -> Result<u64, NoMemory>
    ensures { IfOk result (λ n. n ≡ bound_by text.now graph.now kind cells snips.now) }
{
    let operations = operations(alloc, graph, kind, snips)?;
    Ok((1 << 20) + 512 * u64::from(text.len()) + 4 * u64::from(cells) + 128 * operations)
}

// How many operations are made.
fn operations(
    alloc: Global,
    graph: &FlowGraph,
    kind: ToolKind,
    snips: &[Snippet],
) -> Result<u64, NoMemory>
    ensures sum { IfOk result (λ n. n ≡ operations_on kind graph.now graph.now.edges snips.now) }
    ensures few { IfOk result (λ n. n ≤ 2 ^ 47) }
{
    let cases = case_counts(alloc, graph)?;
    let mut sum = 0;
    for (edge, snippet) in graph.edges().iter().zip(snips) {
        sum += u64::from(copies(graph, &cases, edge)) * operation_count(kind, snippet);
    }
    Ok(sum)
}

// How often the snippet of an edge is made, where a table has the counts of Case edges.
fn copies(graph: &FlowGraph, cases: &CaseCounts, edge: &Edge) -> u32
    requires edge { IsEdgeIn graph.now.blocks graph.now.opens edge.now }
    requires cases { AreCounts graph.now (get same_key cases.now) }
    ensures copies { result ≡ copies_of graph.now edge.now }
    ensures few { result ≤ 2 ^ 20 }
{
    match edge.kind {
        EdgeKind::Land => landing_words(graph, edge.to),
        EdgeKind::Case => entries_along(graph, cases, edge),
        _ => 1,
    }
}

// How many words land at a node.
fn landing_words(graph: &FlowGraph, node: Node) -> u32
    requires node { IsNodeIn graph.now.blocks graph.now.opens node }
    ensures words { result ≡ count_by (is_at graph.now node) (words_at graph.now node) }
    ensures few { result ≤ 2 ^ 20 }
{
    match node {
        Node::Block(block) | Node::Landed(block) => landing_words_in(graph, node, block),
        Node::X => 0,
    }
}

// How many words of a block do.
fn landing_words_in(graph: &FlowGraph, node: Node, block: BlockNo) -> u32
    requires block { block.0 < length graph.now.blocks.firsts }
    ensures words { result ≡ count_by (is_at graph.now node)
        (range_with_len (slice_index graph.now.blocks.firsts block.0) (size_of graph.now.blocks block.0)) }
    ensures few { result ≤ 2 ^ 20 }
{
    let first = graph.first(block).0;
    let mut count = 0;
    for word in first..first + graph.words(block) {
        count += lands_at(graph, node, WordNo(word));
    }
    count
}

// One, if a word does.
fn lands_at(graph: &FlowGraph, node: Node, word: WordNo) -> u32
    ensures one { result ≡ (if is_at graph.now node word.0 then 1 else 0) }
    ensures few { result ≤ 1 }
{
    if same_node(graph.lands(word), node) {
        1
    } else {
        0
    }
}

// ---- Case edges

/// A Case edge by the block that it leaves and the number of its node.
#[derive(Clone, Copy, PartialEq, Eq, Hash)]
pub(crate) struct CaseKey {
    pub from: BlockNo,
    pub to: u32,
}

// How many entries of tables lead along each Case edge.
type CaseCounts = IndexMap<CaseKey, u32>;

// One more than a number. Where no `u32` is more, memory holds no list of so many entries.
fn one_more(count: u32) -> Result<u32, NoMemory>
    ensures more { IfOk result (λ n. n ≡ count + 1) }
    ensures many { OnErr result (count ≡ 2 ^ 32 - 1) }
{
    if count < u32::MAX {
        Ok(count + 1)
    } else {
        Err(NoMemory)
    }
}

// Counts one more under a key.
fn count_key(cases: &mut CaseCounts, key: CaseKey) -> Result<(), NoMemory>
    ensures { OnOk result ((other : CaseKey) → count_of (get same_key cases.new other)
        ≡ (if same_key key other then 1 else 0) + count_of (get same_key cases.old other)) }
{
    let count = one_more(count_at(cases, key))?;
    cases.insert(key, count)?;
    Ok(())
}

// How many entries of a table lead along a Case edge.
fn entries_along(graph: &FlowGraph, cases: &CaseCounts, edge: &Edge) -> u32
    requires edge { IsEdgeIn graph.now.blocks graph.now.opens edge.now }
    requires cases { AreCounts graph.now (get same_key cases.now) }
    ensures entries { result ≡ count_by (is_at graph.now edge.now.to) (targets_from graph.now edge.now.from) }
    ensures few { result ≤ 2 ^ 20 }
{
    // A graph has few entries.
    let _edges = graph.edges();
    match edge.from {
        Node::Block(block) => count_at(cases, case_key(graph, block, edge.to)),
        _ => 0,
    }
}

// What is counted under a key.
fn count_at(cases: &CaseCounts, key: CaseKey) -> u32
    ensures { result ≡ count_of (get same_key cases.now key) }
{
    match cases.get(&key) {
        Some(count) => *count,
        None => 0,
    }
}

// The key of a Case edge.
fn case_key(graph: &FlowGraph, from: BlockNo, to: Node) -> CaseKey
    requires { IsNumbered (length graph.now.blocks.firsts) to }
    ensures { result ≡ case_key_of from.0 (node_number_of graph.now to) }
{
    CaseKey {
        from,
        to: node_number(graph, to),
    }
}

// The entries of all tables, counted by the edges along which they lead.
fn case_counts(alloc: Global, graph: &FlowGraph) -> Result<CaseCounts, NoMemory>
    ensures { IfOk result (λ cases. AreCounts graph.now (get same_key cases)) }
{
    let mut cases = IndexMap::new(alloc);
    for found in graph.opens() {
        count_entries(&mut cases, graph, found.block(), found.targets())?;
    }
    Ok(cases)
}

// Counts the entries of a switch's table.
fn count_entries(
    cases: &mut CaseCounts,
    graph: &FlowGraph,
    block: BlockNo,
    targets: &[WordNo],
) -> Result<(), NoMemory>
    ensures { OnOk result ((key : CaseKey) → count_of (get same_key cases.new key)
        ≡ count_by (is_entry graph.now block.0 key) (map (λ (w : WordNo). w.0) targets.now)
        + count_of (get same_key cases.old key)) }
{
    for word in targets {
        let key = case_key(graph, block, graph.lands(*word));
        count_key(cases, key)?;
    }
    Ok(())
}

// How many operations an edge is taken to have.
fn operation_count(kind: ToolKind, snippet: &Snippet) -> u64
    ensures count { result ≡ counted_on_of kind snippet.now }
    ensures few { result ≤ 8 }
{
    match kind {
        ToolKind::Profile => 1,
        ToolKind::Plain | ToolKind::Script | ToolKind::Trace => snippet.ops().len() as u64,
    }
}
