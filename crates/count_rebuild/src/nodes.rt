//! Which numbers are nodes of the graph that notes tell.
ghost use Rattle.std.specs.Prelude.{◌≡◌, ℕ, ◌+◌, ◌*◌, ◌^◌, ◌<◌, ◌||◌, ◌==◌, nat_le, length, map, IfOk};
ghost use Rattle.std.specs.List.{list_any, range_with_len};
ghost use Rattle.flows.specs.Links.{marked};
ghost use Rattle.notes.specs.Rules.{AreNotes};
ghost use Rattle.notes.specs.Code.{edge_seen, notes_seen, range_seen};
ghost use Rattle.count_rebuild.specs.Noted.{ends_at, lies_at};
ghost use Rattle.count_rebuild.specs.Private.{AreNodes};

use notes::{NoteEdge, Notes, Range};
use std::alloc::{AllocError, Global};

/// For each number up to that of the last landed copy, whether it is a node.
pub(crate) fn nodes(alloc: Global, n: &Notes) -> Result<Vec<bool>, AllocError>
    requires { AreNotes (notes_seen n.now) }
    ensures { IfOk result (λ nodes. AreNodes (notes_seen n.now) nodes.items) }
{
    let mut nodes = blocks(alloc, n.blocks.len())?;
    mark_edges(&mut nodes, &n.edges);
    mark_ranges(&mut nodes, &n.ranges);
    Ok(nodes)
}

/// The blocks, and the outside.
fn blocks(alloc: Global, outside: usize) -> Result<Vec<bool>, AllocError>
    requires { 2 * outside + 1 < 2 ^ 32 }
    ensures { IfOk result (λ nodes.
        nodes.items ≡ map (λ number. nat_le number outside) (range_with_len 0 (2 * outside + 1))) }
{
    (0..2 * outside + 1)
        .map(|number| number <= outside)
        .collect(alloc)
}

/// The ends of edges.
fn mark_edges(nodes: &mut [bool], edges: &[NoteEdge])
    ensures len { length nodes.new ≡ length nodes.old }
    ensures marks { (node : ℕ) → node < length nodes.old → marked nodes.new node
        ≡ (marked nodes.old node || list_any (λ edge. ends_at node (edge_seen edge)) edges.now) }
{
    for edge in edges {
        mark(nodes, edge.from);
        mark(nodes, edge.to);
    }
}

/// The nodes of places.
fn mark_ranges(nodes: &mut [bool], ranges: &[Range])
    ensures len { length nodes.new ≡ length nodes.old }
    ensures marks { (node : ℕ) → node < length nodes.old → marked nodes.new node
        ≡ (marked nodes.old node || list_any (λ range. lies_at node (range_seen range)) ranges.now) }
{
    for range in ranges {
        mark(nodes, range.node);
    }
}

/// Marks a number, if the list has it.
fn mark(nodes: &mut [bool], number: u32)
    ensures len { length nodes.new ≡ length nodes.old }
    ensures marks { (node : ℕ) → node < length nodes.old → marked nodes.new node
        ≡ (marked nodes.old node || (number == node)) }
{
    let number = number as usize;
    if number < nodes.len() {
        nodes[number] = true;
    }
}
