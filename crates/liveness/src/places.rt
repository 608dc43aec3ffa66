//! The places of a graph: the words of its text, those of landed copies, and nodes.
ghost use Rattle.std.specs.Prelude.{◌≡◌, ℕ, ◌⊎◌, true, length, IfOk, OnOk};
ghost use Rattle.cfg_normal.specs.Code.{IsEdgeIn, IsGraph};
ghost use Rattle.cfg_normal.specs.Numbers.{node_numbers};
ghost use Rattle.liveness.specs.Search.{is_marked, nodes_from, AreCopies, AreMarks, ArePlaces, IsMarked};

use crate::effects::{edge_at, is_landing, is_outside};
use cfg_normal::{Edge, FlowGraph, Node, node_number};
use eel_base::{BlockNo, Text};
use std::alloc::{AllocError, Global};

/// Where the copy of each block begins, if it has one; where nodes begin; and which nodes have a place, by their
/// numbers, or nothing if none has.
#[derive(Drop)]
pub(crate) struct Places {
    pub copies: Vec<u32>,
    pub nodes: u32,
    pub marks: Vec<bool>,
}

/// The places of a graph.
pub(crate) fn places_of(alloc: Global, text: &Text, graph: &FlowGraph) -> Result<Places, AllocError>
    requires { graph.now.blocks.words ≡ length text.now.words }
    ensures { IfOk result (λ places.
        ArePlaces graph.now places.copies.items places.nodes places.marks.items) }
{
    let edges = graph.edges().len();
    let mut copies = Vec::with_capacity(alloc, graph.count() as usize)?;
    let nodes = place_copies(&mut copies, text.len(), graph)?;
    let mut marks = Vec::new(alloc);
    for e in 0..edges {
        mark_edge(&mut marks, graph, edge_at(graph, e))?;
    }
    Ok(Places {
        copies,
        nodes,
        marks,
    })
}

/// Puts down where the copy of each block begins, and answers where the last one ends.
fn place_copies(copies: &mut Vec<u32>, words: u32, graph: &FlowGraph) -> Result<u32, AllocError>
    requires none { length copies.old.items ≡ 0 }
    requires words { words ≡ graph.now.blocks.words }
    requires graph { IsGraph graph.now }
    ensures copies { OnOk result (AreCopies graph.now (length graph.now.blocks.firsts) copies.new.items) }
    ensures nodes { IfOk result (λ nodes. nodes ≡ nodes_from graph.now) }
{
    let mut next = words;
    for block in 0..graph.count() {
        copies.push(next)?;
        if graph.is_copied(BlockNo(block)) {
            next += graph.words(BlockNo(block));
        }
    }
    Ok(next)
}

/// Gives the node a place to which an edge from inside leads that lands there.
fn mark_edge(marks: &mut Vec<bool>, graph: &FlowGraph, edge: Edge) -> Result<(), AllocError>
    requires edge { IsEdgeIn graph.now.blocks graph.now.opens edge }
    requires len { (length marks.old.items ≡ 0) ⊎ (length marks.old.items ≡ node_numbers graph.now) }
    ensures len { OnOk result ((length marks.new.items ≡ 0) ⊎ (length marks.new.items ≡ node_numbers graph.now)) }
    ensures kept { OnOk result ((n : ℕ) → is_marked marks.old.items n ≡ true → is_marked marks.new.items n ≡ true) }
    ensures marked { OnOk result (IsMarked graph.now marks.new.items edge) }
{
    if is_outside(edge.from) || !is_landing(edge.kind) {
        return Ok(());
    }
    if marks.is_empty() {
        marks.resize(2 * graph.count() as usize + 1, false)?;
    }
    marks[node_number(graph, edge.to) as usize] = true;
    Ok(())
}
