//! Whether given edges are a spanning tree.

ghost use Rattle.std.specs.Prelude.{◌≡◌, ℕ, ◌+◌, ◌<◌, ◌≤◌, ◌↔◌, length, map, IfOk, IsSome, IfSome, true, IsTrue, if◌then◌else◌};
ghost use Rattle.std.specs.List.{All};
ghost use Rattle.flows.specs.Flows.{count_below, rest};
ghost use Rattle.flows.specs.SpanningTrees.{IsSpanningTree};
ghost use Rattle.flows.specs.Trees.{on};
ghost use Rattle.flows.specs.Links.{graph_of, marked, JoinsNodes};
ghost use Rattle.flow_tree.specs.Tree.{edges_of, IsGrown};

use crate::growth::grow;
use crate::{Join, Tree};
use flows::{Link, is_marked};
use std::alloc::{AllocError, Global};

fn count_marked(marks: &[bool]) -> usize
    ensures count { result ≡ count_below (length marks.now) (marked marks.now) }
    ensures at_most { result ≤ length marks.now }
{
    let mut n: usize = 0;
    for mark in marks {
        if *mark {
            n += 1;
        }
    }
    n
}

fn weight(counted: bool) -> u64
    ensures { result ≡ (if counted then 0 else 1) }
{
    if counted { 0 } else { 1 }
}

// 1 for an edge that is not counted, and 0 for the others.
fn weights(alloc: Global, counted: &[bool]) -> Result<Vec<u64>, AllocError>
    ensures { IfOk result (λ w. w.items ≡ map (λ c. if c then 0 else 1) counted.now) }
{
    counted.iter().map(|c| weight(*c)).collect(alloc)
}

// Whether none of the tree's edges is counted.
fn none_counted(joins: &[Join], counted: &[bool]) -> bool
    ensures { IsTrue result ↔ All (λ j. rest (marked counted.now) j.edge ≡ true) joins.now }
{
    joins.iter().all(|join| !is_marked(counted, join.edge))
}

/// The tree of the edges that are not counted, grown from `root`, or `None` where they are no spanning tree of the nodes.
///
/// `is_node` says for each number whether it is a node, and `counted` for each link whether it is counted.
pub fn span(
    alloc: Global,
    is_node: &[bool],
    links: &[Link],
    counted: &[bool],
    root: usize,
) -> Result<Option<Tree>, AllocError>
    requires root { IsTrue (marked is_node.now root) }
    requires nodes { JoinsNodes is_node.now links.now }
    requires counted { length counted.now ≡ length links.now }
    ensures exactly { IfOk result (λ o.
        let g = graph_of (length is_node.now) links.now in
        IsSome o ↔ IsSpanningTree g (marked is_node.now) (rest (marked counted.now))) }
    ensures root { IfOk result (λ o. IfSome o (λ t. t.root ≡ root)) }
    ensures grown { IfOk result (λ o.
        IfSome o (IsGrown (graph_of (length is_node.now) links.now))) }
    ensures reached { IfOk result (λ o. IfSome o (λ t. t.reached.items ≡ is_node.now)) }
    ensures edges { IfOk result (λ o. IfSome o (λ t.
        (e : ℕ) → e < length links.now → on (edges_of t) e ≡ rest (marked counted.now) e)) }
{
    let weights = weights(alloc, counted)?;
    let tree = grow(alloc, is_node.len(), links, &weights, root)?;
    let nodes = count_marked(is_node);
    let uncounted = counted.len() - count_marked(counted);
    if tree.joins.len() + 1 != nodes || uncounted + 1 != nodes {
        return Ok(None);
    }
    if !none_counted(&tree.joins, counted) {
        return Ok(None);
    }
    Ok(Some(tree))
}
