//! What edits put on the edges of a program.
ghost use Rattle.std.specs.Prelude.{◌≡◌, ◌+◌, ◌*◌, ◌<◌, ◌≤◌, ◌^◌, [], IfErr, IfOk, get_or, length};
ghost use Rattle.snippets.specs.Cells.{WorksBelow};
ghost use Rattle.cfg_blocks.specs.Marks.{numbers};
ghost use Rattle.cfg_view.specs.View.{view_of};
ghost use Rattle.cfg_view.specs.Code.{view_seen};
ghost use Rattle.span_tree.specs.Cells.{cell_at, cell_count};
ghost use Rattle.edge_ring.specs.Ring.{ring_on};
ghost use Rattle.edit_core.specs.Code.{EditRefuses};
ghost use Rattle.exact_counts.specs.Profiles.{counter_in};
ghost use Rattle.eel_reports.specs.Answers.Files.{IsSound};
ghost use Rattle.eel_reports.specs.Code.{HasCells};
ghost use Rattle.eel.specs.Answers.Edit.{IsEditOf};
ghost use Rattle.eel.specs.Private.{IsFit, cells_of, kind_of, ops_on, plan_for};

use cfg_view::View;
use edit_core::{EditFault, edit_view};
use eel_base::{EdgeNo, WordNo};
use snippets::{Op, Script, Snippet};
use span_tree::SpanTree;
use std::alloc::Global;
use tool_kit::{Chooser, EdgeRef, Tool, ToolKind};

/// What an edit puts on the edges of a program.
#[derive(Drop)]
pub enum Instrumentation {
    /// Nothing.
    Nothing,
    /// What a script names on each edge. Those past the last have nothing on them.
    Script(Script),
    /// A counter on each edge that has a cell, in two cells.
    Counters(SpanTree),
    /// On each edge an entry of a ring with so many bits.
    Ring(u32),
}

impl Chooser for Instrumentation {
    ghost use Rattle.eel.specs.Private.{MayAsk, Says};

    ghost may = { λ work edge. MayAsk work edge };

    ghost says = { λ work edge ops. Says work edge ops };

    fn choose(&self, edge: EdgeRef) -> Snippet {
        self.snippet(edge.no)
    }
}

impl Instrumentation {
    /// How many cells there are.
    fn cells(&self) -> u32
        requires { IsFit self.now }
        ensures { result ≡ cells_of self.now }
    {
        match self {
            Instrumentation::Nothing => 0,
            Instrumentation::Script(script) => script.cells,
            Instrumentation::Counters(tree) => 2 * tree.cells(),
            Instrumentation::Ring(bits) => ring_cells(*bits),
        }
    }

    /// What a tool that asks for it is for.
    fn kind(&self) -> ToolKind
        ensures { result ≡ kind_of self.now }
    {
        match self {
            Instrumentation::Nothing => ToolKind::Plain,
            Instrumentation::Script(_) => ToolKind::Script,
            Instrumentation::Counters(_) => ToolKind::Profile,
            Instrumentation::Ring(_) => ToolKind::Trace,
        }
    }

    /// The snippet on an edge.
    fn snippet(&self, edge: EdgeNo) -> Snippet
        requires fit { IsFit self.now }
        requires number { edge.0 < 2 ^ 24 }
        ensures ops { result ≡ ops_on self.now edge.0 }
        ensures below { WorksBelow (cells_of self.now) result }
    {
        match self {
            Instrumentation::Nothing => Snippet::empty(),
            Instrumentation::Script(script) => named_on(script, edge),
            Instrumentation::Counters(tree) => counter_on(tree, edge),
            Instrumentation::Ring(bits) => entry_of(*bits, edge),
        }
    }
}

/// How many cells a ring has: a count and its places.
fn ring_cells(bits: u32) -> u32
    requires { bits ≤ 16 }
    ensures { result ≡ 1 + 2 ^ bits }
{
    1 + (1 << bits)
}

/// What a script names on an edge.
fn named_on(script: &Script, edge: EdgeNo) -> Snippet
    requires { HasCells script.now }
    ensures ops { result ≡ get_or script.now.snips.items edge.0 [] }
    ensures below { WorksBelow script.now.cells result }
{
    match script.snips.get(edge.0 as usize) {
        Some(snippet) => *snippet,
        None => Snippet::empty(),
    }
}

/// What is done on an edge: its counter is raised, where it has one.
fn counter_on(tree: &SpanTree, edge: EdgeNo) -> Snippet
    requires { cell_count tree.now ≤ 2 ^ 22 }
    ensures counter { result ≡ counter_in 2 (cell_at tree.now edge.0) }
    ensures below { WorksBelow (2 * cell_count tree.now) result }
{
    let mut snippet = Snippet::empty();
    if let Some(cell) = tree.cell(edge) {
        snippet.push(Op::Count { cell: 2 * cell });
    }
    snippet
}

/// What is done on an edge: its number and one go into the ring, whose empty places hold 0.
fn entry_of(bits: u32, edge: EdgeNo) -> Snippet
    requires some { 1 ≤ bits }
    requires few { bits ≤ 16 }
    requires number { edge.0 < 2 ^ 24 }
    ensures entry { result ≡ ring_on bits edge.0 }
    ensures below { WorksBelow (1 + 2 ^ bits) result }
{
    let mut snippet = Snippet::empty();
    snippet.push(Op::Log {
        cell: 0,
        bits,
        value: edge.0 + 1,
    });
    snippet
}

/// The edit of a file without a fault, of which there is a view with these words marked, with this on its edges.
pub fn edit_by(
    alloc: Global,
    bytes: &[u8],
    view: &View,
    marks: Vec<WordNo>,
    work: Instrumentation,
) -> Result<Vec<u8>, EditFault>
    requires limit { length bytes.now ≤ 2 ^ 26 }
    requires sound { IsSound bytes.now }
    requires view { view_seen view.now ≡ view_of bytes.now (numbers marks.items) }
    requires fit { IsFit work }
    ensures edited { IfOk result (λ file. IsEditOf bytes.now (plan_for work (numbers marks.items) bytes.now) file.items) }
    ensures refused { IfErr result (EditRefuses bytes.now
        (λ plan. plan ≡ plan_for work (numbers marks.items) bytes.now)) }
{
    let cells = work.cells();
    let kind = work.kind();
    let tool = Tool::new(work, cells, marks, kind);
    edit_view(alloc, bytes, view, &tool)
}
