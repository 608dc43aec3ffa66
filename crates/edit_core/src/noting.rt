//! The notes on an edit.
ghost use Rattle.std.specs.Prelude.{◌≡◌, List, ◌+◌, ◌*◌, ◌^◌, ◌<◌, ◌≤◌, ◌++◌, length, map, IfOk};
ghost use Rattle.std.specs.List.{find};
ghost use Rattle.std.specs.Option.{ForSome};
ghost use Rattle.cfg_normal.specs.Code.{IsEdgeIn};
ghost use Rattle.eel_base.specs.Code.{IsText};
ghost use Rattle.elf32_write.specs.Headers.{segment_seen as segment_added};
ghost use Rattle.notes.specs.Code.{notes_seen, edge_seen, range_seen, segment_seen};
ghost use Rattle.snippets.specs.declared.snippet.Op.{Op};
ghost use Rattle.tool_kit.specs.Code.{AreAnswers, IsPlanOf};
ghost use Rattle.tool_kit.specs.Plans.{Plan};
ghost use Rattle.edit_core.specs.Faithful.{cell_noted as cell_noted_of, note_edge as note_edge_of, note_edges as note_edges_of, tool_number as tool_number_of};
ghost use Rattle.edit_core.specs.Written.{is_off as is_off_of, notes_on, off_range as off_range_of, off_ranges, segment_noted, segments_noted, segment_size, table_after};
ghost use Rattle.edit_core.specs.Private.{placement_in, IsViewOf};

use crate::addresses::AddressMap;
use cfg_normal::{Edge, FlowGraph, Slot, kind_number, node_number};
use eel_base::{Addr, BlockNo, NoMemory, Range, Text, WordNo};
use elf32_sparc::Image;
use elf32_write::{NewSegment, delta};
use layout::Placed;
use notes::{NoteEdge, NoteSegment, Notes};
use snippets::Snippet;
use std::alloc::Global;
use tool_kit::{Chooser, Tool, ToolKind, edge_at};

/// The version of the notes that are written.
const NOTES_VERSION: u32 = 2;

/// The notes on new code that a tool asked for, with what was added for it.
pub(crate) fn notes<F: Chooser>(
    alloc: Global,
    bytes: &[u8],
    image: &Image,
    graph: &FlowGraph,
    tool: &Tool<F>,
    placed: Placed,
    added: &[NewSegment],
) -> Result<Notes, NoMemory>
    requires limit { length bytes.now ≤ 2 ^ 26 }
    requires words { graph.now.blocks.words ≡ length image.now.text.words }
    requires text { IsText image.now.text }
    requires low { table_after image.now.base tool.now.cells ≤ 2 ^ 31 }
    requires added { map segment_noted (map segment_added added.now)
        ≡ segments_noted image.now.base tool.now.cells (segment_size image.now.text graph.now) placed.code.items }
    ensures { (plan : Plan) → IsViewOf bytes.now plan image.now graph.now → IsPlanOf F.says tool.now graph.now.edges plan
        → IfOk result (λ n. notes_seen n ≡ notes_on bytes.now plan (placement_in placed)) }
{
    let text = image.text();
    let addresses = AddressMap::above(image, tool.cells());
    Ok(Notes {
        version: NOTES_VERSION,
        delta: delta(image),
        length: bytes.len() as u32,
        tool: tool_number(tool.kind()),
        start: text.start().0,
        words: text.len(),
        entry: graph.holding(image.entry()).0,
        base: image.base().0,
        cells: tool.cells(),
        segments: note_segments(alloc, added)?,
        blocks: first_words(alloc, graph)?,
        edges: note_edges(alloc, graph, tool)?,
        ranges: noted_ranges(text, graph, addresses.table(), placed.ranges)?,
    })
}

// The tools by their numbers.
fn tool_number(kind: ToolKind) -> u32
    ensures { result ≡ tool_number_of kind }
{
    match kind {
        ToolKind::Plain => 0,
        ToolKind::Profile => 1,
        ToolKind::Script => 2,
        ToolKind::Trace => 3,
    }
}

// Added segments as notes have them.
fn note_segments(alloc: Global, added: &[NewSegment]) -> Result<Vec<NoteSegment>, NoMemory>
    ensures { IfOk result (λ v. map segment_seen v.items ≡ map segment_noted (map segment_added added.now)) }
{
    let mut segments = Vec::with_capacity(alloc, added.len())?;
    for segment in added {
        segments.push(NoteSegment {
            start: segment.vaddr.0,
            length: segment.memsz,
        })?;
    }
    Ok(segments)
}

// ---- places

// The place of a slot behind the text, if one is run, and then those of the code.
fn noted_ranges(
    text: &Text,
    graph: &FlowGraph,
    table: Addr,
    code: Vec<Range>,
) -> Result<Vec<Range>, NoMemory>
    requires { table.0 ≤ 2 ^ 31 }
    ensures { IfOk result (λ v. map range_seen v.items
        ≡ off_ranges text.now graph.now table.0 ++ map range_seen code.items) }
{
    let mut ranges = code;
    if let Some(edge) = first_off(graph) {
        ranges.insert(0, off_range(text, graph, table, &edge))?;
    }
    Ok(ranges)
}

// The first edge that runs a slot behind the text.
fn first_off(graph: &FlowGraph) -> Option<Edge>
    ensures first { result ≡ find is_off_of graph.now.edges }
    ensures inside { ForSome result (IsEdgeIn graph.now.blocks graph.now.opens) }
{
    graph.edges().iter().copied().find(|edge| is_off(*edge))
}

fn is_off(edge: Edge) -> bool
    ensures { result ≡ is_off_of edge }
{
    matches!(edge.slot, Slot::Off)
}

fn off_range(text: &Text, graph: &FlowGraph, table: Addr, edge: &Edge) -> Range
    requires table { table.0 ≤ 2 ^ 31 }
    requires edge { IsEdgeIn graph.now.blocks graph.now.opens edge.now }
    ensures { range_seen result ≡ off_range_of text.now graph.now table.0 edge.now }
{
    Range {
        lo: table,
        hi: Addr(table.0 + 4),
        address: text.address(WordNo(text.len())),
        node: node_number(graph, edge.from),
    }
}

// ---- the graph

// The first word of each block.
fn first_words(alloc: Global, graph: &FlowGraph) -> Result<Vec<u32>, NoMemory>
    ensures { IfOk result (λ v. v.items ≡ graph.now.blocks.firsts) }
{
    let mut firsts = Vec::with_capacity(alloc, graph.count() as usize)?;
    for block in 0..graph.count() {
        firsts.push(graph.first(BlockNo(block)).0)?;
    }
    Ok(firsts)
}

// The edges as notes have them. The tool answers once more for each, since its snippets go before the pieces come.
fn note_edges<F: Chooser>(
    alloc: Global,
    graph: &FlowGraph,
    tool: &Tool<F>,
) -> Result<Vec<NoteEdge>, NoMemory>
    ensures { (snips : List (List Op)) → AreAnswers F.says tool.now.choose graph.now.edges snips
        → IfOk result (λ v. map edge_seen v.items ≡ note_edges_of graph.now tool.now.kind graph.now.edges snips) }
{
    // What is known of the tool.
    let _cells = tool.cells();
    let edges = graph.edges();
    let mut noted = Vec::with_capacity(alloc, edges.len())?;
    for number in 0..edges.len() {
        let edge = edge_at(edges, number);
        noted.push(note_edge(graph, tool.kind(), &edge.edge, &tool.answer(edge)))?;
    }
    Ok(noted)
}

fn note_edge(graph: &FlowGraph, kind: ToolKind, edge: &Edge, snippet: &Snippet) -> NoteEdge
    requires { IsEdgeIn graph.now.blocks graph.now.opens edge.now }
    ensures { edge_seen result ≡ note_edge_of graph.now kind edge.now snippet.now }
{
    NoteEdge {
        kind: kind_number(edge.kind),
        from: node_number(graph, edge.from),
        to: node_number(graph, edge.to),
        cell: cell_noted(kind, snippet),
    }
}

// In a profile the cell of an edge's operation, if it has one.
fn cell_noted(kind: ToolKind, snippet: &Snippet) -> Option<u32>
    ensures { result ≡ cell_noted_of kind snippet.now }
{
    match kind {
        ToolKind::Profile => snippet.ops().first().map(|op| op.cell()),
        ToolKind::Plain | ToolKind::Script | ToolKind::Trace => None,
    }
}
