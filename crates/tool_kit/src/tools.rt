//! Tools.
ghost use Rattle.std.specs.Prelude.{◌≡◌, ℕ, ◌<◌, ◌^◌, get_or, length, IfOk};
ghost use Rattle.std.specs.List.{All};
ghost use Rattle.snippets.specs.Cells.{WorksBelow, WorksIn};
ghost use Rattle.snippets.specs.Grammar.{IsOp};
ghost use Rattle.tool_kit.specs.Good.{IsGood};
ghost use Rattle.tool_kit.specs.Code.{AreAnswers, numbered};
ghost use Rattle.tool_kit.specs.Sound.{IsSound};

use crate::choosing::Chooser;
use crate::edge_ref::{EdgeRef, ToolKind};
use cfg_normal::{Edge, FlowGraph};
use eel_base::{EdgeNo, NoMemory, WordNo};
use snippets::{Op, Snippet};
use std::alloc::Global;
use std::marker::Model;

/// A callback that chooses the snippet of each edge, and what is known of it: it may be called on every edge with a
/// number below 2^24, answers snippets with cells below `cells`, and equal ones for one edge.
#[derive(Drop)]
pub struct Tool<F: Chooser> {
    choose: F,
    cells: u32,
    marks: Vec<WordNo>,
    kind: ToolKind,
}

impl<F: Chooser> Model for Tool<F> {
    ghost use Rattle.tool_kit.specs.Kept.{Kept};
    ghost use Rattle.tool_kit.specs.Sound.{IsSound};

    ghost Value = { Kept F };

    ghost view = { λ t. record { choose = t.choose; cells = t.cells; marks = t.marks.items; kind = t.kind } };

    ghost invariant = { λ t. IsSound F.may F.says t.cells t.choose };
}

impl<F: Chooser> Tool<F> {
    /// A tool with this many cells. Each marked word begins a block.
    pub fn new(choose: F, cells: u32, marks: Vec<WordNo>, kind: ToolKind) -> Tool<F>
        requires { IsSound F.may F.says cells choose }
        ensures choose { result.choose ≡ choose }
        ensures cells { result.cells ≡ cells }
        ensures marks { result.marks ≡ marks.items }
        ensures kind { result.kind ≡ kind }
    {
        Tool {
            choose,
            cells,
            marks,
            kind,
        }
    }

    /// How many cells there are.
    pub fn cells(&self) -> u32
        ensures cells { result ≡ self.now.cells }
        ensures sound { IsSound F.may F.says self.now.cells self.now.choose }
    {
        self.cells
    }

    /// The marked words, each of which begins a block.
    pub fn marks(&self) -> &[WordNo]
        ensures { result.now ≡ self.now.marks }
    {
        &self.marks
    }

    /// What it is for.
    pub fn kind(&self) -> ToolKind
        ensures { result ≡ self.now.kind }
    {
        self.kind
    }

    /// The snippet for an edge.
    pub fn answer(&self, edge: EdgeRef) -> Snippet
        requires { edge.no.0 < 2 ^ 24 }
        ensures says { F.says self.now.choose edge result }
        ensures good { IsGood self.now.cells result }
    {
        let snippet = self.choose.choose(edge);
        all_known(snippet.ops());
        snippet
    }
}

/// A tool's snippets for the edges of a graph, in order.
pub fn snips<F: Chooser>(
    alloc: Global,
    t: &Tool<F>,
    g: &FlowGraph,
) -> Result<Vec<Snippet>, NoMemory>
    ensures answers { IfOk result (λ v. AreAnswers F.says t.now.choose g.now.edges v.items) }
    ensures good { IfOk result (λ v. All (IsGood t.now.cells) v.items) }
{
    let edges = g.edges();
    let mut snips = Vec::with_capacity(alloc, edges.len())?;
    for number in 0..edges.len() {
        snips.push(t.answer(edge_at(edges, number)))?;
    }
    Ok(snips)
}

/// The edge with this number.
pub fn edge_at(edges: &[Edge], number: usize) -> EdgeRef
    requires few { length edges.now < 2 ^ 24 }
    requires within { number < length edges.now }
    ensures number { result.no.0 ≡ number }
    ensures edge { (edge : _) → result ≡ numbered number (get_or edges.now number edge) }
{
    EdgeRef {
        no: EdgeNo(number as u32),
        edge: edges[number],
    }
}

// The numbers of an operation have their sizes, those of a ring where it works on cells.
fn known(op: Op)
    ensures { (cells : ℕ) → WorksIn cells op → IsOp op }
{
    match op {
        Op::Add { .. }
        | Op::Put { .. }
        | Op::Keep { .. }
        | Op::Top { .. }
        | Op::Count { .. }
        | Op::Log { .. } => {}
    }
}

fn all_known(ops: &[Op])
    ensures { (cells : ℕ) → WorksBelow cells ops.now → All IsOp ops.now }
{
    for op in ops {
        known(*op);
    }
}
