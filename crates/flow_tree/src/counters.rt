//! Which edges want a counter.

ghost use Rattle.std.specs.Prelude.{◌≡◌, ℕ, ◌<◌, Bool, length, IfOk};
ghost use Rattle.std.specs.List.{All};
ghost use Rattle.flows.specs.Flows.{Determines, IsLeast, rest, weight_in};
ghost use Rattle.flows.specs.Trees.{IsConnected, on};
ghost use Rattle.flows.specs.SpanningTrees.{IsSpanningTree};
ghost use Rattle.flows.specs.Links.{graph_of, marked, IsLinked};
ghost use Rattle.flow_tree.specs.Tree.{edges_of, RisesWith};

use crate::Tree;
use crate::growth::grow;
use flows::Link;
use std::alloc::{AllocError, Global};

/// Which of `edges` edges are not in the tree.
pub fn off_tree(alloc: Global, tree: &Tree, edges: usize) -> Result<Vec<bool>, AllocError>
    requires { All (λ j. j.edge < edges) tree.now.joins.items }
    ensures len { IfOk result (λ off. length off.items ≡ edges) }
    ensures value { IfOk result (λ off.
        (e : ℕ) → e < edges → marked off.items e ≡ rest (on (edges_of tree.now)) e) }
{
    let mut off = vec![in alloc; true; edges]?;
    for join in &tree.joins {
        off[join.edge] = false;
    }
    Ok(off)
}

/// Which edges to count: those off a tree from `root` that is grown by ranks, an edge of the highest rank first. Their
/// counts determine all counts. In a connected graph the others are a spanning tree, and no set of edges whose counts
/// determine all counts weighs less, by the ranks or by any weight that rises with them.
pub fn counted(
    alloc: Global,
    nodes: usize,
    links: &[Link],
    ranks: &[u64],
    root: usize,
) -> Result<Vec<bool>, AllocError>
    requires root { root < nodes }
    requires linked { IsLinked nodes links.now }
    requires ranks { length ranks.now ≡ length links.now }
    ensures len { IfOk result (λ counted. length counted.items ≡ length links.now) }
    ensures determines { IfOk result (λ counted.
        Determines (graph_of nodes links.now) (marked counted.items)) }
    ensures spans { (is_node : ℕ → Bool) → IsConnected (graph_of nodes links.now) is_node root →
        IfOk result (λ counted.
        IsSpanningTree (graph_of nodes links.now) is_node (rest (marked counted.items))) }
    ensures least { (is_node : ℕ → Bool) (weight : ℕ → ℕ) → RisesWith (length links.now) (weight_in ranks.now) weight →
        IsConnected (graph_of nodes links.now) is_node root →
        IfOk result (λ counted. IsLeast (graph_of nodes links.now) weight (marked counted.items)) }
{
    let tree = grow(alloc, nodes, links, ranks, root)?;
    off_tree(alloc, &tree, links.len())
}
