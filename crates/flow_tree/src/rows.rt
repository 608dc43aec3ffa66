//! The edges at each node.

ghost use Rattle.std.specs.Prelude.{◌≡◌, ℕ, ◌<◌, length, OnOk, IfOk};
ghost use Rattle.flows.specs.Links.{IsLinked};
ghost use Rattle.flow_tree.specs.Rows.{IsAttached, HasEnds, AllBelow};

use flows::Link;
use std::alloc::{AllocError, Global};

// Puts an edge into the row of a node.
fn attach(rows: &mut Vec<Vec<usize>>, node: usize, edge: usize) -> Result<(), AllocError>
    requires row { node < length rows.old.items }
    ensures len { length rows.new.items ≡ length rows.old.items }
    ensures added { OnOk result (IsAttached rows.new.items node edge) }
    ensures kept { (u x : ℕ) → u < length rows.old.items →
        IsAttached rows.old.items u x → IsAttached rows.new.items u x }
    ensures below { (n : ℕ) → edge < n → AllBelow n rows.old.items → AllBelow n rows.new.items }
{
    rows[node].push(edge)?;
    Ok(())
}

fn empty_rows(alloc: Global, nodes: usize) -> Result<Vec<Vec<usize>>, AllocError>
    ensures len { IfOk result (λ rows. length rows.items ≡ nodes) }
    ensures below { IfOk result (λ rows. (n : ℕ) → AllBelow n rows.items) }
{
    let mut rows: Vec<Vec<usize>> = Vec::new(alloc);
    for _ in 0..nodes {
        rows.push(Vec::new(alloc))?;
    }
    Ok(rows)
}

/// For each node the edges that have it as an end.
pub fn incident(alloc: Global, nodes: usize, links: &[Link]) -> Result<Vec<Vec<usize>>, AllocError>
    requires linked { IsLinked nodes links.now }
    ensures len { IfOk result (λ rows. length rows.items ≡ nodes) }
    ensures ends { IfOk result (λ rows. HasEnds links.now (length links.now) rows.items) }
    ensures below { IfOk result (λ rows. AllBelow (length links.now) rows.items) }
{
    let mut rows = empty_rows(alloc, nodes)?;
    for (e, link) in links.iter().enumerate() {
        attach(&mut rows, link.from, e)?;
        attach(&mut rows, link.to, e)?;
    }
    Ok(rows)
}
