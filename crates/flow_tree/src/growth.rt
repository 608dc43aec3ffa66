//! Growth from one node, each time by a heaviest edge that crosses to a node outside.

ghost use Rattle.std.specs.Prelude.{◌≡◌, ℕ, ◌+◌, ◌<◌, length, IsTrue, IsFalse, false, true, OnOk, IfSome, IfNone, IfOk, if◌then◌else◌};
ghost use Rattle.std.specs.List.{All, Contains};
ghost use Rattle.std.specs.BinaryHeap.{heap_items};
ghost use Rattle.flows.specs.Trees.{crosses, differ, IsWhole};
ghost use Rattle.flows.specs.Links.{graph_of, marked, IsLinked};
ghost use Rattle.flows.specs.Flows.{weight_in};
ghost use Rattle.flow_tree.specs.Rows.{AllBelow, HasEnds};
ghost use Rattle.flow_tree.specs.Tree.{reached_by, IsGrown, IsHeaviestFirst};
ghost use Rattle.flow_tree.specs.Search.{AreCandidates, HasTaken, IsSearch, candidate, crosses_at};
ghost use Rattle.flow_tree.specs.declared.growth.Candidate.{Candidate};

use crate::rows::incident;
use crate::{Join, Tree};
use flows::Link;
use std::alloc::{AllocError, Global};
use std::collections::BinaryHeap;

// An edge that may be taken next. The greatest is the heaviest, and among those the last.
#[derive(Clone, Copy, Drop, PartialEq, Eq, PartialOrd, Ord)]
pub struct Candidate {
    pub weight: u64,
    pub edge: usize,
}

// A tree on its way, with every edge that crosses.
#[derive(Drop)]
pub struct Search {
    pub tree: Tree,
    pub heap: BinaryHeap<Candidate>,
}

// A graph as links between its nodes, each with a weight, and for each node a row with the numbers of its links.
#[derive(Clone, Copy)]
struct WeighedGraph<'a> {
    rows: &'a [Vec<usize>],
    links: &'a [Link],
    weights: &'a [u64],
    ghost linked: { IsLinked (length rows.now) links.now },
    ghost below: { AllBelow (length links.now) rows.now },
    ghost weighed: { length weights.now ≡ length links.now },
}

impl WeighedGraph<'_> {
    // Grows the tree that is its root alone.
    fn begin(&self, alloc: Global, root: usize) -> Result<Search, AllocError>
        requires root { root < length self.now.rows.now }
        requires ends { HasEnds self.now.links.now (length self.now.links.now) self.now.rows.now }
        ensures search { IfOk result (IsSearch (length self.now.rows.now) self.now.links.now self.now.weights.now) }
        ensures root { IfOk result (λ search. search.tree.root ≡ root) }
        ensures alone { IfOk result (λ search. length search.tree.joins.items ≡ 0) }
    {
        let mut reached = vec![in alloc; false; self.rows.len()]?;
        reached[root] = true;
        let mut heap = BinaryHeap::new(alloc);
        self.offer_all(&mut heap, &self.rows[root], &reached)?;
        Ok(Search {
            tree: Tree {
                root,
                reached,
                joins: Vec::new(alloc),
            },
            heap,
        })
    }

    // Brings one node more in, and answers whether there was an edge that crosses.
    fn join(&self, search: &mut Search) -> Result<bool, AllocError>
        requires search { IsSearch (length self.now.rows.now) self.now.links.now self.now.weights.now search.old }
        requires ends { HasEnds self.now.links.now (length self.now.links.now) self.now.rows.now }
        ensures search { OnOk result (IsSearch (length self.now.rows.now) self.now.links.now self.now.weights.now search.new) }
        ensures root { OnOk result (search.new.tree.root ≡ search.old.tree.root) }
        ensures more { IfOk result (λ more.
            IsTrue more → length search.new.tree.joins.items ≡ length search.old.tree.joins.items + 1) }
        ensures whole { IfOk result (λ more.
            IsFalse more → IsWhole (graph_of (length self.now.rows.now) self.now.links.now) (reached_by search.new.tree)) }
    {
        let Some(next) = self.next_crossing(&mut search.heap, &search.tree.reached) else {
            return Ok(false);
        };
        let edge = next.edge;
        let node = far_end(&search.tree.reached, self.links[edge]);
        search.tree.reached[node] = true;
        search.tree.joins.push(Join { edge, node })?;
        self.offer_all(&mut search.heap, &self.rows[node], &search.tree.reached)?;
        Ok(true)
    }

    // The heaviest candidate that crosses. Those before it, which no longer cross, are dropped.
    fn next_crossing(&self, heap: &mut BinaryHeap<Candidate>, marks: &[bool]) -> Option<Candidate>
        requires heap { AreCandidates self.now.weights.now (heap_items heap.old) }
        requires marks { length marks.now ≡ length self.now.rows.now }
        ensures heap { AreCandidates self.now.weights.now (heap_items heap.new) }
        ensures taken { IfSome result (HasTaken self.now.links.now marks.now (heap_items heap.old) (heap_items heap.new)) }
        ensures none { IfNone result ((c : Candidate) → Contains (heap_items heap.old) c
            → crosses_at self.now.links.now marks.now c.edge ≡ false) }
    {
        while let Some(top) = heap.pop() {
            if is_crossing(marks, self.links[top.edge]) {
                return Some(top);
            }
        }
        None
    }

    // Puts those links of a row on the heap that cross.
    fn offer_all(
        &self,
        heap: &mut BinaryHeap<Candidate>,
        row: &[usize],
        marks: &[bool],
    ) -> Result<(), AllocError>
        requires heap { AreCandidates self.now.weights.now (heap_items heap.old) }
        requires below { All (λ edge. edge < length self.now.links.now) row.now }
        requires marks { length marks.now ≡ length self.now.rows.now }
        ensures heap { OnOk result (AreCandidates self.now.weights.now (heap_items heap.new)) }
        ensures added { OnOk result ((e : ℕ) → Contains row.now e
            → crosses_at self.now.links.now marks.now e ≡ true → Contains (heap_items heap.new) (candidate self.now.weights.now e)) }
        ensures kept { OnOk result ((c : Candidate) → Contains (heap_items heap.old) c → Contains (heap_items heap.new) c) }
    {
        for edge in row {
            self.offer(heap, *edge, marks)?;
        }
        Ok(())
    }

    // Puts a link on the heap, if it crosses.
    fn offer(
        &self,
        heap: &mut BinaryHeap<Candidate>,
        edge: usize,
        marks: &[bool],
    ) -> Result<(), AllocError>
        requires heap { AreCandidates self.now.weights.now (heap_items heap.old) }
        requires edge { edge < length self.now.links.now }
        requires marks { length marks.now ≡ length self.now.rows.now }
        ensures heap { OnOk result (AreCandidates self.now.weights.now (heap_items heap.new)) }
        ensures added { OnOk result (crosses_at self.now.links.now marks.now edge ≡ true
            → Contains (heap_items heap.new) (candidate self.now.weights.now edge)) }
        ensures kept { OnOk result ((c : Candidate) → Contains (heap_items heap.old) c → Contains (heap_items heap.new) c) }
    {
        if is_crossing(marks, self.links[edge]) {
            heap.push(Candidate {
                weight: self.weights[edge],
                edge,
            })?;
        }
        Ok(())
    }
}

// Whether just one end of the link is marked.
fn is_crossing(marks: &[bool], link: Link) -> bool
    requires from { link.from < length marks.now }
    requires to { link.to < length marks.now }
    ensures { result ≡ differ (marked marks.now link.from) (marked marks.now link.to) }
{
    marks[link.from] != marks[link.to]
}

// Of a link that crosses, the end that is not marked.
fn far_end(marks: &[bool], link: Link) -> usize
    requires from { link.from < length marks.now }
    ensures { result ≡ (if marked marks.now link.from then link.to else link.from) }
{
    if marks[link.from] { link.to } else { link.from }
}

/// Grows a heaviest tree from `root`: of the edges that cross to a node outside it takes a heaviest, until none crosses.
///
/// `weights` has one weight for each link. It takes time n log n in the number of links.
pub fn grow(
    alloc: Global,
    nodes: usize,
    links: &[Link],
    weights: &[u64],
    root: usize,
) -> Result<Tree, AllocError>
    requires root { root < nodes }
    requires linked { IsLinked nodes links.now }
    requires weights { length weights.now ≡ length links.now }
    ensures root { IfOk result (λ t. t.root ≡ root) }
    ensures grown { IfOk result (λ t. IsGrown (graph_of nodes links.now) t) }
    ensures heaviest { IfOk result (λ t.
        IsHeaviestFirst (graph_of nodes links.now) (weight_in weights.now) t) }
    ensures whole { IfOk result (λ t. IsWhole (graph_of nodes links.now) (reached_by t)) }
{
    let rows = incident(alloc, nodes, links)?;
    let graph = WeighedGraph {
        rows: &rows,
        links,
        weights,
    };
    let mut search = graph.begin(alloc, root)?;
    for _ in 1..nodes {
        if !graph.join(&mut search)? {
            return Ok(search.tree);
        }
    }
    Ok(search.tree)
}
