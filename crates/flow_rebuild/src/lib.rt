//! All counts from those off a tree: the one flow that has them.
//!
//! Source: Thomas Ball and James R. Larus, "Optimally Profiling and Tracing Programs", ACM TOPLAS 16 (4), 1994.
#![tactic(auto)]

ghost use Rattle.std.specs.Prelude.{◌≡◌, ◌↔◌, ℕ, ◌+◌, ◌*◌, ◌^◌, ◌<◌, ◌≤◌, length, slice_set, pos, ◌+ℤ◌, nat_abs, IfOk, negsuc, replicate, false, true, IsTrue};
ghost use Rattle.std.specs.List.{All};
ghost use Rattle.flows.specs.Flows.{IsTheFlow, rest};
ghost use Rattle.flows.specs.Trees.{on};
ghost use Rattle.flows.specs.Links.{graph_of, IsLinked, JoinsNodes};
ghost use Rattle.flow_tree.specs.Tree.{edges_of, edges_in, reached_by, IsGrown};
ghost use Rattle.flow_rebuild.specs.Excess.{excess};
ghost use Rattle.flow_rebuild.specs.Values.{int_at, abs_sum};
ghost use Rattle.flow_rebuild.specs.Private.{other_node, carries, added, passed};

use flow_tree::{Join, Tree};
use flows::Link;
use std::alloc::{AllocError, Global};

fn other_end(link: Link, node: usize) -> usize
    ensures { result ≡ other_node link node }
{
    if link.to == node { link.from } else { link.to }
}

fn carried(link: Link, node: usize, excess: i128) -> i128
    requires { nat_abs excess < 2 ^ 126 }
    ensures { result ≡ carries link node excess }
{
    if link.to == node { -excess } else { excess }
}

// The edge takes what its node has too much of to its other end.
#[tactic(auto, using(crate::proofs::Sums::sum_fits, crate::proofs::Sums::small_at, crate::proofs::Sums::small_read, crate::proofs::Sums::back_small))]
fn settle(values: &mut Vec<i128>, excess: &mut Vec<i128>, link: Link, edge: usize, node: usize)
    requires edge { edge < length values.old.items }
    requires from { link.from < length excess.old.items }
    requires to { link.to < length excess.old.items }
    requires node { node < length excess.old.items }
    requires small { abs_sum excess.old.items < 2 ^ 126 }
    ensures values { values.new.items ≡
        slice_set values.old.items edge (carries link node (int_at excess.old.items node)) }
    ensures excess { excess.new.items ≡
        slice_set (added excess.old.items (other_node link node) (int_at excess.old.items node)) node (pos 0) }
{
    let moved = excess[node];
    let other = other_end(link, node);
    values[edge] = carried(link, node, moved);
    excess[other] += moved;
    excess[node] = 0;
}

#[tactic(auto, using(crate::proofs::Sums::sum_fits, crate::proofs::Sums::small_at, crate::proofs::Sums::small_read, crate::proofs::Sums::back_small))]
fn add(excess: &mut Vec<i128>, node: usize, value: i128)
    requires node { node < length excess.old.items }
    requires small { abs_sum excess.old.items < 2 ^ 126 }
    requires value { nat_abs value < 2 ^ 126 }
    ensures { excess.new.items ≡ added excess.old.items node value }
{
    excess[node] += value;
}

// A value comes in at one end of a link, and goes out at the other.
#[tactic(auto, using(crate::proofs::Sums::abs_set_add))]
fn pass(excess: &mut Vec<i128>, link: Link, value: i128)
    requires from { link.from < length excess.old.items }
    requires to { link.to < length excess.old.items }
    requires small { abs_sum excess.old.items + 2 * nat_abs value < 2 ^ 126 }
    ensures { excess.new.items ≡ passed excess.old.items link value }
{
    add(excess, link.to, value);
    add(excess, link.from, -value);
}

// 1 at the start, and -1 at the end.
fn supply(alloc: Global, nodes: usize, start: usize, end: usize) -> Result<Vec<i128>, AllocError>
    requires start { start < nodes }
    requires end { end < nodes }
    ensures items { IfOk result (λ x.
        x.items ≡ added (added (replicate nodes (pos 0)) start (pos 1)) end (negsuc 0)) }
    ensures small { IfOk result (λ x. abs_sum x.items ≤ 2) }
{
    let mut excess = vec![in alloc; 0i128; nodes]?;
    add(&mut excess, start, 1);
    add(&mut excess, end, -1);
    Ok(excess)
}

// What each node has too much of, for a flow from start to end.
fn excesses(
    alloc: Global,
    nodes: usize,
    links: &[Link],
    values: &[i128],
    start: usize,
    end: usize,
) -> Result<Vec<i128>, AllocError>
    requires linked { IsLinked nodes links.now }
    requires start { start < nodes }
    requires end { end < nodes }
    requires values { length values.now ≡ length links.now }
    requires small { 2 * abs_sum values.now + 2 < 2 ^ 126 }
    ensures len { IfOk result (λ x. length x.items ≡ nodes) }
    ensures excess { IfOk result (λ x.
        (u : ℕ) → u < nodes →
        int_at x.items u ≡ excess (graph_of nodes links.now) start end (int_at values.now) u) }
    ensures small { IfOk result (λ x. abs_sum x.items ≤ 2 * abs_sum values.now + 2) }
{
    let mut excess = supply(alloc, nodes, start, end)?;
    for (e, link) in links.iter().enumerate() {
        pass(&mut excess, *link, values[e]);
    }
    Ok(excess)
}

// The values, with 0 on the edges of the tree.
fn cleared(alloc: Global, values: &[i128], joins: &[Join]) -> Result<Vec<i128>, AllocError>
    requires joins { All (λ j. j.edge < length values.now) joins.now }
    requires small { All (λ z. nat_abs z < 2 ^ 64) values.now }
    ensures len { IfOk result (λ x. length x.items ≡ length values.now) }
    ensures small { IfOk result (λ x. All (λ z. nat_abs z < 2 ^ 64) x.items) }
    ensures less { IfOk result (λ x. abs_sum x.items ≤ abs_sum values.now) }
    ensures kept { IfOk result (λ x.
        (e : ℕ) → on (edges_in joins.now) e ≡ false → int_at x.items e ≡ int_at values.now e) }
    ensures unset { IfOk result (λ x.
        (e : ℕ) → on (edges_in joins.now) e ≡ true → int_at x.items e ≡ pos 0) }
{
    let mut cleared = values.to_vec(alloc)?;
    for join in joins {
        cleared[join.edge] = 0;
    }
    Ok(cleared)
}

/// Whether each value is one that a counter of 64 bits holds, or the negative of one.
pub fn fit_counters(values: &[i128]) -> bool
    ensures { IsTrue result ↔ All (λ z. nat_abs z < 2 ^ 64) values.now }
{
    values.iter().all(|value| value.unsigned_abs() < 1 << 64)
}

/// The one flow from `start` to `end` that has the given values off the tree.
///
/// `values` has one value for each link; those on the tree are not read. The tree has `start`, `end` and both ends of each
/// link. The time is linear in the number of nodes and links.
pub fn rebuild(
    alloc: Global,
    links: &[Link],
    tree: &Tree,
    values: &[i128],
    start: usize,
    end: usize,
) -> Result<Vec<i128>, AllocError>
    requires tree { IsGrown (graph_of (length tree.now.reached.items) links.now) tree.now }
    requires ends { JoinsNodes tree.now.reached.items links.now }
    requires start { IsTrue (reached_by tree.now start) }
    requires end { IsTrue (reached_by tree.now end) }
    requires values { length values.now ≡ length links.now }
    requires small { All (λ z. nat_abs z < 2 ^ 64) values.now }
    ensures len { IfOk result (λ x. length x.items ≡ length links.now) }
    ensures flow { IfOk result (λ x.
        let g = graph_of (length tree.now.reached.items) links.now in
        let counted = rest (on (edges_of tree.now)) in
        IsTheFlow g counted start end (int_at values.now) (int_at x.items)) }
    ensures small { IfOk result (λ x. All (λ z. nat_abs z ≤ 2 * abs_sum values.now + 2) x.items) }
{
    let mut flow = cleared(alloc, values, &tree.joins)?;
    let mut excess = excesses(alloc, tree.reached.len(), links, &flow, start, end)?;
    for join in tree.joins.iter().rev() {
        settle(
            &mut flow,
            &mut excess,
            links[join.edge],
            join.edge,
            join.node,
        );
    }
    Ok(flow)
}
