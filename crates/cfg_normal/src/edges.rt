//! The edges of a flow graph, in the order of their numbers.
ghost use Rattle.std.specs.Prelude.{◌≡◌, ℕ, ◌+◌, ◌*◌, ◌^◌, ◌<◌, ◌≤◌, ◌==◌, ◌++◌, ◌-◌, length, map, slice_index, filter, IfOk, OnOk};
ghost use Rattle.std.specs.List.{flat_map, All};
ghost use Rattle.cfg_blocks.specs.Blocks.{below};
ghost use Rattle.cfg_blocks.specs.Code.{way_of};
ghost use Rattle.cfg_normal.specs.Graph.{case_of, copied_edges, directed, edge_of, edges_in, edges_of, graph_of, landing_at, landings_of, node_of, runs_slot, slot_behind, slot_on, ways_out};
ghost use Rattle.cfg_normal.specs.Code.{landing_count};
ghost use Rattle.cfg_normal.specs.Private.{landed_once, number_in, seen_mark, unseen_case};
ghost use Rattle.cfg_normal.specs.Landings.{IsNumbered};
ghost use Rattle.cfg_normal.specs.Opens.{is_copied};

use crate::nodes::Nodes;
use crate::{Edge, Node, Slot};
use cfg_blocks::{ALWAYS, BlockEnd, EdgeKind, WayOut};
use eel_base::{BlockNo, NoMemory, WordNo};
use std::alloc::Global;

// Whether the word that ends a block runs its slot on an edge.
fn runs_slot(end: BlockEnd, kind: EdgeKind) -> bool
    ensures { result ≡ runs_slot end kind }
{
    match end {
        BlockEnd::Fall => false,
        BlockEnd::Branch { cond, annul, .. } => {
            !annul || (kind == EdgeKind::Taken && cond.number() != ALWAYS)
        }
        BlockEnd::Call { .. } | BlockEnd::Jump => true,
    }
}

// The slot of the word `last`.
fn slot_behind(words: u32, last: u32) -> Slot
    requires { last < words }
    ensures { result ≡ slot_behind words last }
{
    if last + 1 < words {
        Slot::Word(WordNo(last + 1))
    } else {
        Slot::Off
    }
}

impl Nodes {
    /// How many words the text has.
    pub(crate) fn words(&self) -> u32
        ensures words { result ≡ self.now.blocks.words }
        ensures few { result ≤ 2 ^ 20 }
    {
        let last = BlockNo(self.blocks.count() - 1);
        self.blocks.last(last).0 + 1
    }

    // The number of a node.
    fn number(&self, node: Node) -> usize
        requires { IsNumbered (length self.now.blocks.firsts) node }
        ensures number { result ≡ number_in (length self.now.blocks.firsts) node }
        ensures within { result < 2 * length self.now.blocks.firsts + 1 }
        ensures few { length self.now.blocks.firsts ≤ 2 ^ 20 }
    {
        let count = self.blocks.count() as usize;
        match node {
            Node::Block(block) => block.0 as usize,
            Node::X => count,
            Node::Landed(block) => count + 1 + block.0 as usize,
        }
    }

    // The slot that is run on an edge of a block.
    fn slot_on(&self, block: BlockNo, kind: EdgeKind) -> Slot
        requires { block.0 < length self.now.blocks.firsts }
        ensures { result ≡ slot_on self.now.blocks block.0 kind }
    {
        if runs_slot(self.blocks.end(block), kind) {
            slot_behind(self.words(), self.blocks.last(block).0)
        } else {
            Slot::Nothing
        }
    }

    // The node to which a way out leads.
    fn target(&self, from: Node, way: WayOut) -> Node
        ensures { result ≡ directed self.now.opens from way.kind (node_of self.now.blocks way.to) }
    {
        match way.to {
            Some(word) => {
                if word < self.words() {
                    self.directed(from, way.kind, self.blocks.holding(WordNo(word)))
                } else {
                    Node::X
                }
            }
            None => Node::X,
        }
    }

    // The edge of a way out of a block, for the block or its landed copy.
    fn edge(&self, from: Node, block: BlockNo, way: WayOut) -> Edge
        requires { block.0 < length self.now.blocks.firsts }
        ensures { result ≡ edge_of self.now.blocks self.now.opens from block.0 (way_of way) }
    {
        Edge {
            from,
            to: self.target(from, way),
            kind: way.kind,
            slot: self.slot_on(block, way.kind),
        }
    }
}

// Adds the edges of the ways out of a block, for the block or its landed copy.
fn leave_by_ways(
    edges: &mut Vec<Edge>,
    nodes: &Nodes,
    from: Node,
    block: BlockNo,
) -> Result<(), NoMemory>
    requires { block.0 < length nodes.now.blocks.firsts }
    ensures { OnOk result (edges.new.items ≡ edges.old.items
        ++ ways_out nodes.now.blocks nodes.now.opens from block.0) }
{
    let (one, other) = nodes.blocks.ways(block);
    edges.push(nodes.edge(from, block, one))?;
    if let Some(way) = other {
        edges.push(nodes.edge(from, block, way))?;
    }
    Ok(())
}

// Adds the edge of a jump's block to a node, if the node hasn't the block's mark yet: its number and one.
fn add_case(
    edges: &mut Vec<Edge>,
    seen: &mut [u32],
    nodes: &Nodes,
    block: BlockNo,
    to: Node,
) -> Result<(), NoMemory>
    requires block { block.0 < length nodes.now.blocks.firsts }
    requires seen { length seen.old ≡ 2 * length nodes.now.blocks.firsts + 1 }
    requires to { IsNumbered (length nodes.now.blocks.firsts) to }
    ensures edges { OnOk result (edges.new.items ≡ edges.old.items
        ++ unseen_case nodes.now.blocks block.0 to
        (slice_index seen.old (number_in (length nodes.now.blocks.firsts) to) == block.0 + 1)) }
    ensures seen { OnOk result ((n : ℕ) → slice_index seen.new n
        ≡ seen_mark (number_in (length nodes.now.blocks.firsts) to) (block.0 + 1) n (slice_index seen.old n)) }
    ensures long { length seen.new ≡ length seen.old }
{
    let place = nodes.number(to);
    let mark = block.0 + 1;
    if seen[place] != mark {
        seen[place] = mark;
        edges.push(Edge {
            from: Node::Block(block),
            to,
            kind: EdgeKind::Case,
            slot: nodes.slot_on(block, EdgeKind::Case),
        })?;
    }
    Ok(())
}

// Adds the edges of a jump's block, one to each node at which its targets land.
fn leave_by_cases(
    edges: &mut Vec<Edge>,
    seen: &mut [u32],
    nodes: &Nodes,
    block: BlockNo,
    targets: &[WordNo],
) -> Result<(), NoMemory>
    requires block { block.0 < length nodes.now.blocks.firsts }
    requires seen { length seen.old ≡ 2 * length nodes.now.blocks.firsts + 1 }
    requires fresh { (n : ℕ) → slice_index seen.old n ≤ block.0 }
    requires targets { All (λ w. w.0 < nodes.now.blocks.words) targets.now }
    ensures edges { OnOk result (edges.new.items ≡ edges.old.items
        ++ map (case_of nodes.now.blocks block.0) (landed_once nodes.now.blocks nodes.now.opens targets.now)) }
    ensures seen { OnOk result ((n : ℕ) → slice_index seen.new n ≤ block.0 + 1) }
    ensures long { length seen.new ≡ length seen.old }
{
    for target in targets {
        let to = nodes.lands(*target, block);
        add_case(edges, seen, nodes, block, to)?;
    }
    Ok(())
}

// Adds the edges that leave a block.
fn leave(
    edges: &mut Vec<Edge>,
    seen: &mut [u32],
    nodes: &Nodes,
    block: BlockNo,
) -> Result<(), NoMemory>
    requires block { block.0 < length nodes.now.blocks.firsts }
    requires seen { length seen.old ≡ 2 * length nodes.now.blocks.firsts + 1 }
    requires fresh { (n : ℕ) → slice_index seen.old n ≤ block.0 }
    ensures edges { OnOk result (edges.new.items ≡ edges.old.items
        ++ edges_of nodes.now.blocks nodes.now.opens block.0) }
    ensures seen { OnOk result ((n : ℕ) → slice_index seen.new n ≤ block.0 + 1) }
    ensures long { length seen.new ≡ length seen.old }
{
    match nodes.jump_targets(block) {
        Some(targets) => leave_by_cases(edges, seen, nodes, block, targets)?,
        None => leave_by_ways(edges, nodes, Node::Block(block), block)?,
    }
    Ok(())
}

// Adds the edges that leave blocks, by blocks, where no node has a mark yet.
fn leave_blocks(edges: &mut Vec<Edge>, seen: &mut [u32], nodes: &Nodes) -> Result<(), NoMemory>
    requires seen { length seen.old ≡ 2 * length nodes.now.blocks.firsts + 1 }
    requires fresh { (n : ℕ) → slice_index seen.old n ≡ 0 }
    ensures { OnOk result (edges.new.items ≡ edges.old.items
        ++ flat_map (edges_of nodes.now.blocks nodes.now.opens) (below (length nodes.now.blocks.firsts))) }
{
    for block in 0..nodes.blocks.count() {
        leave(edges, seen, nodes, BlockNo(block))?;
    }
    Ok(())
}

// Adds the edges that leave blocks.
fn leave_all(alloc: Global, edges: &mut Vec<Edge>, nodes: &Nodes) -> Result<(), NoMemory>
    ensures { OnOk result (edges.new.items ≡ edges.old.items
        ++ flat_map (edges_of nodes.now.blocks nodes.now.opens) (below (length nodes.now.blocks.firsts))) }
{
    let mut seen = vec![in alloc; 0; 2 * nodes.blocks.count() as usize + 1]?;
    leave_blocks(edges, &mut seen, nodes)?;
    Ok(())
}

// Adds the edges that leave landed copies, by blocks.
fn leave_copies(edges: &mut Vec<Edge>, nodes: &Nodes) -> Result<(), NoMemory>
    ensures { OnOk result (edges.new.items ≡ edges.old.items
        ++ flat_map (copied_edges nodes.now.blocks nodes.now.opens)
        (filter (is_copied nodes.now.opens) (below (length nodes.now.blocks.firsts)))) }
{
    for block in 0..nodes.blocks.count() {
        let block = BlockNo(block);
        if nodes.is_copied(block) {
            leave_by_ways(edges, nodes, Node::Landed(block), block)?;
        }
    }
    Ok(())
}

// A landing.
fn landing(to: Node) -> Edge
    ensures { result ≡ landing_at to }
{
    Edge {
        from: Node::X,
        to,
        kind: EdgeKind::Land,
        slot: Slot::Nothing,
    }
}

// Adds the landings at a block and its copy.
fn land_in(edges: &mut Vec<Edge>, nodes: &Nodes, block: BlockNo) -> Result<(), NoMemory>
    requires { block.0 < length nodes.now.blocks.firsts }
    ensures { OnOk result (edges.new.items ≡ edges.old.items ++ map landing_at (landings_of nodes.now.opens block.0)) }
{
    if nodes.jump_of(block).is_none() {
        edges.push(landing(Node::Block(block)))?;
    }
    if nodes.is_copied(block) {
        edges.push(landing(Node::Landed(block)))?;
    }
    Ok(())
}

// Adds the landings from outside, by blocks.
fn land_at_all(edges: &mut Vec<Edge>, nodes: &Nodes) -> Result<(), NoMemory>
    ensures { OnOk result (edges.new.items ≡ edges.old.items
        ++ map landing_at (flat_map (landings_of nodes.now.opens) (below (length nodes.now.blocks.firsts)))) }
{
    for block in 0..nodes.blocks.count() {
        land_in(edges, nodes, BlockNo(block))?;
    }
    Ok(())
}

/// The edges: those that leave blocks, those that leave landed copies, and then the landings. Beside them, how many come
/// before the landings.
#[tactic(auto, unfolding(crate::specs::Graph::edges_in))]
pub(crate) fn edges_of(alloc: Global, nodes: &Nodes) -> Result<(Vec<Edge>, usize), NoMemory>
    ensures edges { IfOk result (λ r. r.0.items ≡ edges_in nodes.now.blocks nodes.now.opens) }
    ensures ways { IfOk result (λ r. r.1
        ≡ length r.0.items - landing_count (graph_of nodes.now.blocks nodes.now.opens)) }
{
    let mut edges = Vec::new(alloc);
    leave_all(alloc, &mut edges, nodes)?;
    leave_copies(&mut edges, nodes)?;
    let ways = edges.len();
    land_at_all(&mut edges, nodes)?;
    Ok((edges, ways))
}
