//! Tables of the first edges: of each kind at a node, and between two nodes.

ghost use Rattle.std.specs.Prelude.{◌≡◌, ℕ, ◌+◌, ◌^◌, ◌<◌, ◌≤◌, ◌==◌, length, slice_index, IfOk, OnErr, OnOk};
ghost use Rattle.std.specs.List.{position};
ghost use Rattle.std.specs.Option.{option_or};
ghost use Rattle.indexmap.specs.IndexMap.{get};
ghost use Rattle.cfg_normal.specs.Code.{IsEdgeIn};
ghost use Rattle.cfg_normal.specs.Numbers.{node_numbers};
ghost use Rattle.image_code.specs.Lookups.{AreFirstEdges, first_mark, is_case, is_edge_at, mark_at, mark_of, node_of_edge as node_of_edge_in, number_where, same_case};

use cfg_blocks::EdgeKind;
use cfg_normal::{Edge, FlowGraph, kind_number, node_number};
use eel_base::NoMemory;
use indexmap::IndexMap;
use std::alloc::Global;

// ---- tables of what comes first

// Notes the number of an item, if it is the first at its place.
fn note_first(table: &mut [u32], place: usize, number: u32)
    requires place { place < length table.old }
    requires number { number + 1 < 2 ^ 32 }
    ensures marks { (n : ℕ) → slice_index table.new n ≡ first_mark (place == n) number (slice_index table.old n) }
    ensures long { length table.new ≡ length table.old }
{
    if table[place] == 0 {
        table[place] = number + 1;
    }
}

/// The number of the first item at a place.
pub(crate) fn first_at(table: &[u32], place: usize) -> Option<u32>
    requires place { place < length table.now }
    ensures { mark_of result ≡ slice_index table.now place }
{
    match table[place] {
        0 => None,
        mark => Some(mark - 1),
    }
}

/// A number that has one above it among the `u32`. Where there are more pieces than that, memory holds no list of them.
pub(crate) fn small(number: u64) -> Result<u32, NoMemory>
    ensures same { IfOk result (λ n. n ≡ number) }
    ensures few { IfOk result (λ n. n + 1 < 2 ^ 32) }
    ensures many { OnErr result (2 ^ 32 ≤ number + 1) }
{
    if number < u64::from(u32::MAX) {
        Ok(number as u32)
    } else {
        Err(NoMemory)
    }
}

// ---- edges

// The number of the node by which an edge is found: of a landing that to which it leads.
fn node_of_edge(graph: &FlowGraph, edge: &Edge) -> u32
    requires edge { IsEdgeIn graph.now.blocks graph.now.opens edge.now }
    ensures number { result ≡ node_of_edge_in graph.now edge.now }
    ensures within { result < node_numbers graph.now }
    ensures few { node_numbers graph.now ≤ 2 ^ 22 }
{
    if edge.kind == EdgeKind::Land {
        node_number(graph, edge.to)
    } else {
        node_number(graph, edge.from)
    }
}

/// A mark for each kind of edge, by the kind's number.
pub(crate) type KindMarks = [u32; 7];

// Notes an edge, if it is the first of its kind at its node.
fn note_edge(rows: &mut [KindMarks], graph: &FlowGraph, edge: &Edge, number: u32)
    requires edge { IsEdgeIn graph.now.blocks graph.now.opens edge.now }
    requires long { length rows.old ≡ node_numbers graph.now }
    requires number { number + 1 < 2 ^ 32 }
    ensures marks { (node kind : ℕ) → mark_at rows.new node kind
        ≡ first_mark (is_edge_at graph.now node kind edge.now) number (mark_at rows.old node kind) }
    ensures long { length rows.new ≡ length rows.old }
{
    let row = &mut rows[node_of_edge(graph, edge) as usize];
    note_first(row, kind_number(edge.kind) as usize, number);
}

// Notes the edges in rows without marks.
fn note_edges(rows: &mut [KindMarks], graph: &FlowGraph)
    requires long { length rows.old ≡ node_numbers graph.now }
    requires fresh { (node kind : ℕ) → mark_at rows.old node kind ≡ 0 }
    ensures { AreFirstEdges graph.now graph.now.edges rows.new }
{
    for (number, edge) in graph.edges().iter().enumerate() {
        note_edge(rows, graph, edge, number as u32);
    }
}

/// The first edges, by nodes and kinds.
pub(crate) fn first_edges(alloc: Global, graph: &FlowGraph) -> Result<Vec<KindMarks>, NoMemory>
    ensures { IfOk result (λ rows. AreFirstEdges graph.now graph.now.edges rows.items) }
{
    let mut rows = vec![in alloc; [0; 7]; 2 * graph.count() as usize + 1]?;
    note_edges(&mut rows, graph);
    Ok(rows)
}

// ---- Case edges

/// A Case edge by the numbers of its two nodes.
#[derive(Clone, Copy, PartialEq, Eq, Hash)]
pub(crate) struct CaseEdge {
    pub from: u32,
    pub to: u32,
}

/// The numbers of the first Case edges between two nodes.
pub(crate) type FirstCases = IndexMap<CaseEdge, u32>;

// Notes a Case edge, if it is the first between its nodes.
fn note_case(
    cases: &mut FirstCases,
    graph: &FlowGraph,
    edge: &Edge,
    number: u32,
) -> Result<(), NoMemory>
    requires edge { IsEdgeIn graph.now.blocks graph.now.opens edge.now }
    ensures { OnOk result ((case : CaseEdge) → get same_case cases.new case
        ≡ option_or (get same_case cases.old case) (number_where (is_case graph.now case edge.now) number)) }
{
    if edge.kind == EdgeKind::Case {
        let case = CaseEdge {
            from: node_number(graph, edge.from),
            to: node_number(graph, edge.to),
        };
        cases.entry(case)?.or_insert(number);
    }
    Ok(())
}

/// The first Case edges, by their two nodes.
pub(crate) fn first_cases(alloc: Global, graph: &FlowGraph) -> Result<FirstCases, NoMemory>
    ensures { IfOk result (λ cases. (case : CaseEdge)
        → get same_case cases case ≡ position (is_case graph.now case) graph.now.edges) }
{
    let mut cases = IndexMap::new(alloc);
    for (number, edge) in graph.edges().iter().enumerate() {
        note_case(&mut cases, graph, edge, number as u32)?;
    }
    Ok(cases)
}
