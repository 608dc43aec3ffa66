//! Reading weights.
ghost use Rattle.std.specs.Prelude.{◌≡◌, ◌≢◌, ◌≤◌, ◌<◌, ◌+◌, ◌*◌, ◌^◌, ◌↔◌, IsTrue, IfErr, IfOk, OnOk, length, slice_set, vec_len};
ghost use Rattle.std.specs.List.{All};
ghost use Rattle.cfg_normal.specs.Code.{IsEdgeIn, IsNodeIn};
ghost use Rattle.cfg_view.specs.Code.{view_seen, IsView};
ghost use Rattle.show_text.specs.Lines.{node_text};
ghost use Rattle.weights_in.specs.declared.reading.WeightFault.TheVariants as faults;
ghost use Rattle.weights_in.specs.Weights.{AreRefused, AreWeights, AreWordsOf, IsEdgeOf, IsGood, weight_of};
ghost use Rattle.weights_in.specs.Parts.{IsEnd, IsFirst, IsTaken, IsWithin, entry_in};

use crate::line::{EdgeLine, Line, Total, next_line};
use cfg_normal::{Edge, Node};
use cfg_view::View;
use show_text::{kind_text, node_text};
use std::alloc::{AllocError, Global};

/// Why some bytes give no weights. The number is that of the first bad line, counted from 1.
#[derive(Clone, Copy)]
pub enum WeightFault {
    /// It is outside the grammar, or missing.
    Line(u32),
    /// It isn't that of an edge, or its number isn't above that of the line before.
    Edge(u32),
    /// It counts other edges, or another sum.
    Total(u32),
    NoMemory,
}

impl From<AllocError> for WeightFault {
    ghost use Rattle.weights_in.specs.declared.reading.WeightFault.TheVariants as faults;

    ghost from_gives = { λ _ fault. fault ≡ faults.NoMemory };

    fn from(_: AllocError) -> WeightFault {
        WeightFault::NoMemory
    }
}

/// No edge weighs more.
const MOST: u64 = 1 << 32;

/// The weights of the edges of a graph, in order, by what was printed of its counts: each weighs one more than it was
/// completed, but at most 2^32.
///
/// It goes over the bytes once, and keeps one number for each edge.
pub fn read_weights(alloc: Global, bytes: &[u8], v: &View) -> Result<Vec<u64>, WeightFault>
    requires view { IsView v.now }
    ensures weights { IfOk result (λ weights. AreWeights (view_seen v.now) bytes.now weights.items) }
    ensures len { IfOk result (λ weights. length weights.items ≡ length v.now.graph.edges) }
    ensures most { IfOk result (λ weights. All (λ weight. weight ≤ 2 ^ 32) weights.items) }
    ensures refused { IfErr result (AreRefused (view_seen v.now) bytes.now) }
{
    let reading = Reading::new(alloc, v)?;
    read_lines(reading, bytes, v)
}

/// The weights by these lines, where none was read yet. It asks for no memory.
fn read_lines(mut reading: Reading, bytes: &[u8], v: &View) -> Result<Vec<u64>, WeightFault>
    requires view { IsView v.now }
    requires first { IsFirst (view_seen v.now) reading }
    ensures weights { IfOk result (λ weights. AreWeights (view_seen v.now) bytes.now weights.items) }
    ensures len { IfOk result (λ weights. length weights.items ≡ length v.now.graph.edges) }
    ensures most { IfOk result (λ weights. All (λ weight. weight ≤ 2 ^ 32) weights.items) }
    ensures refused { IfErr result (AreRefused (view_seen v.now) bytes.now) }
    ensures judged { IfErr result (λ fault. fault ≢ faults.NoMemory) }
{
    let mut rest = bytes;
    while let Some((line, after)) = next_line(rest) {
        match line {
            Line::Edge(entry) => reading.take(v, entry)?,
            Line::Last(total) => return reading.finish(v, total, after),
        }
        rest = after;
    }
    Err(WeightFault::Line(reading.lines + 1))
}

/// What was read so far.
#[derive(Drop)]
struct Reading {
    /// The weight of each edge.
    weights: Vec<u64>,
    /// How many lines there were.
    lines: u32,
    /// The least number that the next line may have.
    next: u32,
    /// How often the edges were completed.
    sum: u128,
}

impl Reading {
    fn new(alloc: Global, v: &View) -> Result<Reading, AllocError>
        ensures { IfOk result (IsFirst (view_seen v.now)) }
    {
        Ok(Reading {
            weights: vec![in alloc; 1; v.graph.edges().len()]?,
            lines: 0,
            next: 0,
            sum: 0,
        })
    }

    /// Takes the line of an edge.
    fn take(&mut self, v: &View, entry: EdgeLine) -> Result<(), WeightFault>
        requires view { IsView v.now }
        requires within { IsWithin (view_seen v.now) self.old }
        ensures taken { OnOk result (IsTaken (view_seen v.now) (entry_in entry.entry) self.old self.new) }
        ensures fault { IfErr result (λ fault. fault ≡ faults.Edge (self.old.lines + 1)) }
        ensures bad { IfErr result (λ fault. ¬ IsGood (view_seen v.now) self.old.next (entry_in entry.entry)) }
    {
        let line = self.lines + 1;
        if entry.number < self.next || !names_edge(v, entry) {
            return Err(WeightFault::Edge(line));
        }
        self.weights[entry.number as usize] = weight(entry.count);
        self.lines = line;
        self.next = entry.number + 1;
        self.sum += u128::from(entry.count);
        Ok(())
    }

    /// The weights, where the last line is right and nothing stands behind it.
    fn finish(self, v: &View, total: Total, rest: &[u8]) -> Result<Vec<u64>, WeightFault>
        requires { IsWithin (view_seen v.now) self }
        ensures { IsEnd (view_seen v.now) self total rest.now result }
    {
        if total.edges as usize != v.graph.edges().len() || total.executions != self.sum {
            return Err(WeightFault::Total(self.lines + 1));
        }
        if !rest.is_empty() {
            return Err(WeightFault::Line(self.lines + 2));
        }
        Ok(self.weights)
    }
}

/// The weight of an edge that was completed so often.
fn weight(count: u64) -> u64
    ensures { result ≡ weight_of count }
{
    count.saturating_add(1).min(MOST)
}

/// Whether the line is that of an edge of the graph.
fn names_edge(v: &View, entry: EdgeLine) -> bool
    requires { IsView v.now }
    ensures { IsTrue result ↔ IsEdgeOf (view_seen v.now) (entry_in entry.entry) }
{
    match v.graph.edges().get(entry.number as usize) {
        Some(edge) => are_words_of(v, edge, entry),
        None => false,
    }
}

/// Whether these are the words of this edge.
fn are_words_of(v: &View, edge: &Edge, entry: EdgeLine) -> bool
    requires view { IsView v.now }
    requires edge { IsEdgeIn v.now.graph.blocks v.now.graph.opens edge.now }
    ensures { IsTrue result ↔ AreWordsOf (view_seen v.now) edge.now (entry_in entry.entry) }
{
    entry.kind == kind_text(edge.kind)
        && is_node_text(v, edge.from, entry.from)
        && is_node_text(v, edge.to, entry.to)
}

fn is_node_text(v: &View, node: Node, word: &[u8]) -> bool
    requires view { IsView v.now }
    requires node { IsNodeIn v.now.graph.blocks v.now.graph.opens node }
    ensures { IsTrue result ↔ (word.now ≡ node_text v.now.image.text v.now.graph.blocks node) }
{
    let mut bytes = [0; 9];
    word == node_text(v, node, &mut bytes)
}
