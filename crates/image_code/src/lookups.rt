//! The tables by which the numbers of edges and of pieces are found.

ghost use Rattle.std.specs.Prelude.{◌≡◌, ◌+◌, ◌<◌, ◌≤◌, false, length, map, option_to_list, slice_get, slice_index, Some, All, IfOk};
ghost use Rattle.std.specs.List.{position};
ghost use Rattle.indexmap.specs.IndexMap.{get};
ghost use Rattle.cfg_blocks.specs.Blocks.{below};
ghost use Rattle.cfg_blocks.specs.declared.EdgeKind.TheVariants.{Case};
ghost use Rattle.cfg_normal.specs.declared.Node.TheVariants.{Block};
ghost use Rattle.cfg_normal.specs.Code.{IsEdgeIn, IsGraph, edges_but_landings as edges_but_landings_of};
ghost use Rattle.cfg_normal.specs.Opens.{Open};
ghost use Rattle.cfg_normal.specs.Landings.{IsNumbered};
ghost use Rattle.cfg_normal.specs.Numbers.{kind_number as kind_number_of, node_number as node_number_of, node_numbers};
ghost use Rattle.cfg_walk.specs.Walk.{edge_along, edge_from, landing_at};
ghost use Rattle.image_code.specs.Loads.{load_of as load_in};
ghost use Rattle.image_code.specs.Lookups.{AreFirstEdges, AreLookups, IsSource, is_case, is_land, mark_at, mark_of, open_begin, same_case};
ghost use Rattle.image_code.specs.Labels.{first_entry};

use crate::first_images::first_images;
use crate::firsts::{CaseEdge, FirstCases, KindMarks, first_at, first_cases, first_edges, small};
use crate::loads::load_of;
use crate::maker::PieceMaker;
use cfg_blocks::EdgeKind;
use cfg_normal::{Edge, FlowGraph, Node, OpenSwitch, kind_number, node_number};
use eel_base::{BlockNo, NoMemory, Text};
use std::alloc::Global;

/// Tables that find edges, open switches and pieces by their numbers. `edges` are marks: an entry is one more than the
/// number of the first edge at its place, or 0 where there is none.
#[derive(Drop)]
pub(crate) struct Lookups {
    /// The first edge of each kind that leaves a node, or the landing that leads to it, by the node's number.
    edges: Vec<KindMarks>,
    /// The first Case edge between two nodes.
    cases: FirstCases,
    /// The number of the piece where control enters the first word of a node, by the node's number.
    images: Vec<u32>,
    /// The number of the first piece behind those of open switches: the first one of a Case edge.
    behind: u32,
    /// The text word of the load of each open switch.
    loads: Vec<u32>,
    /// The number of the first table entry of each open switch, where the entries of all tables are numbered in one
    /// row; one more for how many entries there are.
    entries: Vec<u32>,
}

// ---- open switches

// The number of the first entry of each, and how many entries all have.
fn entries_of(alloc: Global, text: &Text, graph: &FlowGraph) -> Result<Vec<u32>, NoMemory>
    requires source { IsSource text.now graph.now }
    ensures { IfOk result (λ v. v.items ≡ map (first_entry text.now graph.now) (below (length graph.now.opens + 1))) }
{
    let mut entries = Vec::new(alloc);
    let mut entry = 0;
    entries.push(0)?;
    for found in graph.opens() {
        entry += u64::from(small(found.targets().len() as u64)?);
        entries.push(small(entry)?)?;
    }
    Ok(entries)
}

// The load of each.
fn loads_of(alloc: Global, text: &Text, graph: &FlowGraph) -> Result<Vec<u32>, NoMemory>
    requires source { IsSource text.now graph.now }
    ensures { IfOk result (λ v. v.items ≡ map (load_in text.now) graph.now.opens) }
{
    let mut loads = Vec::new(alloc);
    for found in graph.opens() {
        loads.push(load_of(text, graph, found))?;
    }
    Ok(loads)
}

// The tables of the edges: `edges` and `cases`.
fn edges_of(alloc: Global, graph: &FlowGraph) -> Result<(Vec<KindMarks>, FirstCases), NoMemory>
    requires graph { IsGraph graph.now }
    ensures edges { IfOk result (λ tables. AreFirstEdges graph.now graph.now.edges tables.0.items) }
    ensures cases { IfOk result (λ tables. (case : CaseEdge) → get same_case tables.1 case ≡ position (is_case graph.now case) graph.now.edges) }
{
    let edges = first_edges(alloc, graph)?;
    let cases = first_cases(alloc, graph)?;
    Ok((edges, cases))
}

// The tables of open switches: `loads` and `entries`.
fn opens_of(alloc: Global, text: &Text, graph: &FlowGraph) -> Result<(Vec<u32>, Vec<u32>), NoMemory>
    requires source { IsSource text.now graph.now }
    ensures loads { IfOk result (λ tables. tables.0.items ≡ map (load_in text.now) graph.now.opens) }
    ensures entries { IfOk result (λ tables. tables.1.items ≡ map (first_entry text.now graph.now) (below (length graph.now.opens + 1))) }
{
    let loads = loads_of(alloc, text, graph)?;
    let entries = entries_of(alloc, text, graph)?;
    Ok((loads, entries))
}

/// Builds the tables of a text's graph.
pub(crate) fn lookups_of(alloc: Global, text: &Text, graph: &FlowGraph) -> Result<Lookups, NoMemory>
    requires source { IsSource text.now graph.now }
    ensures { IfOk result (AreLookups text.now graph.now) }
{
    let (edges, cases) = edges_of(alloc, graph)?;
    let (images, behind) = first_images(alloc, text, graph)?;
    let (loads, entries) = opens_of(alloc, text, graph)?;
    Ok(Lookups {
        edges,
        cases,
        images,
        behind,
        loads,
        entries,
    })
}

// The number at a place.
fn number_at(table: &[u32], place: usize) -> u32
    requires place { place < length table.now }
    ensures { result ≡ slice_index table.now place }
{
    table[place]
}

impl<'a> PieceMaker<'a> {
    /// The edges but for the landings, which come last.
    pub(crate) fn edges_but_landings(&self) -> &'a [Edge]
        ensures edges { result.now ≡ edges_but_landings_of self.now.graph.now }
        ensures inside { All (IsEdgeIn self.now.graph.now.blocks self.now.graph.now.opens) result.now }
    {
        self.graph.edges_but_landings()
    }

    // The first edge of a kind that leaves a node, or the landing that leads to it.
    fn edge_at(&self, node: Node, kind: EdgeKind) -> Option<u32>
        requires node { IsNumbered (length self.now.graph.now.blocks.firsts) node }
        ensures { mark_of result ≡ mark_at self.now.lookups.now.edges.items (node_number_of self.now.graph.now node)
            (kind_number_of kind) }
    {
        let row = &self.lookups.edges[node_number(self.graph, node) as usize];
        first_at(row, kind_number(kind) as usize)
    }

    /// The edge of a kind that leaves a node.
    pub(crate) fn leaving(&self, node: Node, kind: EdgeKind) -> Option<u32>
        requires node { IsNumbered (length self.now.graph.now.blocks.firsts) node }
        requires kind { is_land kind ≡ false }
        ensures { option_to_list result ≡ edge_from self.now.graph.now node kind }
    {
        self.edge_at(node, kind)
    }

    /// The landing at a node.
    pub(crate) fn landing_edge(&self, node: Node) -> Option<u32>
        requires node { IsNumbered (length self.now.graph.now.blocks.firsts) node }
        ensures { option_to_list result ≡ landing_at self.now.graph.now node }
    {
        self.edge_at(node, EdgeKind::Land)
    }

    /// The Case edge from a block to a node.
    pub(crate) fn case_edge(&self, block: BlockNo, to: Node) -> Option<u32>
        requires block { block.0 < length self.now.graph.now.blocks.firsts }
        requires to { IsNumbered (length self.now.graph.now.blocks.firsts) to }
        ensures { option_to_list result ≡ edge_along self.now.graph.now (Block block) (record { kind = Case; to = Some to }) }
    {
        let number = node_number(self.graph, to);
        let case = CaseEdge {
            from: block.0,
            to: number,
        };
        match self.lookups.cases.get(&case) {
            Some(edge) => Some(*edge),
            None => None,
        }
    }

    /// The number of the piece where control enters the first word of the node with a number.
    pub(crate) fn first_image(&self, node: u32) -> u32
        requires node { node < node_numbers self.now.graph.now }
        ensures { result ≡ slice_index self.now.lookups.now.images.items node }
    {
        number_at(&self.lookups.images, node as usize)
    }

    /// The number of the first piece behind those of open switches: the first one of a Case edge.
    pub(crate) fn behind(&self) -> u32
        ensures { result ≡ open_begin self.now.text.now self.now.graph.now (length self.now.graph.now.opens) }
    {
        self.lookups.behind
    }

    /// The number of the first entry of an open switch; behind the last one, how many entries there are.
    pub(crate) fn entry(&self, number: usize) -> u32
        requires number { number ≤ length self.now.graph.now.opens }
        ensures { result ≡ first_entry self.now.text.now self.now.graph.now number }
    {
        number_at(&self.lookups.entries, number)
    }

    /// The load of an open switch.
    pub(crate) fn load(&self, number: usize) -> u32
        requires number { number < length self.now.graph.now.opens }
        ensures { (o : Open) → slice_get self.now.graph.now.opens number ≡ Some o → result ≡ load_in self.now.text.now o }
    {
        number_at(&self.lookups.loads, number)
    }
}
