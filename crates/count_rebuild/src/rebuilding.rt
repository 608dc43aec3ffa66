//! The counts, or why there are none.
ghost use Rattle.std.specs.Prelude.{◌≡◌, ◌≢◌, ◌<◌, ◌^◌, length, map, nat_abs, IfOk, IfErr, OnOk};
ghost use Rattle.notes.specs.Rules.{AreNotes};
ghost use Rattle.notes.specs.Code.{edge_seen, notes_seen};
ghost use Rattle.dump_file.specs.Dump.{Dump as DumpSeen};
ghost use Rattle.dump_file.specs.Code.{dump_seen};
ghost use Rattle.count_rebuild.specs.Answers.{AreCounts};
ghost use Rattle.count_rebuild.specs.Code.{IsRefused};
ghost use Rattle.count_rebuild.specs.Counts.{IsShort, StandsAt};
ghost use Rattle.count_rebuild.specs.Dumps.{IsAlike, IsForThem, IsTheirs};
ghost use Rattle.count_rebuild.specs.Private.{link_of};
ghost use Rattle.count_rebuild.specs.Noted.{IsProfile};
ghost use Rattle.count_rebuild.specs.declared.fault.CountFault.TheVariants as faults;
ghost use Rattle.count_rebuild.specs.Parts.{AreWhole, IsBad, IsSmall, IsTreeOf, IsWhole};

use crate::CountFault;
use crate::nodes::nodes;
use crate::noted::{NARROW, WIDE, counted, links, node_at, values};
use dump_file::Dump;
use eel_base::EdgeNo;
use flow_tree::{Tree, span};
use flows::Link;
use notes::Notes;
use std::alloc::Global;

/// The number of a profile among the tools.
const PROFILE: u32 = 1;

/// So many steps can't raise a cell of 32 bits past its last value.
const STEPS: u64 = 1 << 32;

/// How often each edge of the notes' graph was completed, by a dump of a run of their file. Of the refusals the first that
/// has a cause is answered, in the order of their variants.
///
/// It takes time n log n in the number of edges.
pub fn rebuild(alloc: Global, n: &Notes, d: &Dump) -> Result<Vec<u64>, CountFault>
    requires notes { AreNotes (notes_seen n.now) }
    requires cells { length d.now.cells.items < 2 ^ 32 }
    ensures counts { IfOk result (λ counts. AreCounts (notes_seen n.now) (dump_seen d.now) counts.items) }
    ensures refused { IfErr result (IsRefused (notes_seen n.now) (dump_seen d.now)) }
{
    keep_tool(n)?;
    let links = links(alloc, &n.edges)?;
    let tree = profile_tree(alloc, n, &links)?;
    let node = standing(n, d)?;
    let values = values(alloc, n.version, &n.edges, &d.cells)?;
    let flow = flow_rebuild::rebuild(alloc, &links, &tree, &values, n.entry as usize, node)?;
    whole_numbers(alloc, &flow)
}

/// Refuses notes of another tool.
fn keep_tool(n: &Notes) -> Result<(), CountFault>
    ensures tool { OnOk result (n.now.tool ≡ 1) }
    ensures refused { (d : DumpSeen) → IfErr result (IsRefused (notes_seen n.now) d) }
    ensures judged { IfErr result (λ fault. fault ≢ faults.NoMemory) }
{
    if n.tool != PROFILE {
        return Err(CountFault::NoProfile);
    }
    Ok(())
}

/// The tree of the edges that aren't counted.
fn profile_tree(alloc: Global, n: &Notes, links: &[Link]) -> Result<Tree, CountFault>
    requires notes { AreNotes (notes_seen n.now) }
    requires tool { n.now.tool ≡ 1 }
    requires links { links.now ≡ map (λ edge. link_of (edge_seen edge)) n.now.edges.items }
    ensures tree { IfOk result (IsTreeOf (notes_seen n.now) links.now) }
    ensures refused { (d : DumpSeen) → IfErr result (IsRefused (notes_seen n.now) d) }
{
    let is_node = nodes(alloc, n)?;
    let counted = counted(alloc, &n.edges)?;
    match span(alloc, &is_node, links, &counted, n.entry as usize)? {
        Some(tree) => Ok(tree),
        None => Err(CountFault::NoProfile),
    }
}

/// Refuses a dump of the other version.
fn keep_alike(n: &Notes, d: &Dump) -> Result<(), CountFault>
    requires profile { IsProfile (notes_seen n.now) }
    ensures alike { IfOk result (λ _. IsAlike IsProfile (notes_seen n.now) (dump_seen d.now)) }
    ensures refused { IfErr result (IsRefused (notes_seen n.now) (dump_seen d.now)) }
    ensures judged { IfErr result (λ fault. fault ≢ faults.NoMemory) }
{
    if d.version != n.version {
        return Err(CountFault::Version {
            dump: d.version,
            notes: n.version,
        });
    }
    Ok(())
}

/// Refuses one that was made for another original; in version 1 it doesn't tell.
fn keep_for_them(n: &Notes, d: &Dump) -> Result<(), CountFault>
    requires alike { IsAlike IsProfile (notes_seen n.now) (dump_seen d.now) }
    ensures theirs { IfOk result (λ _. IsForThem IsProfile (notes_seen n.now) (dump_seen d.now)) }
    ensures refused { IfErr result (IsRefused (notes_seen n.now) (dump_seen d.now)) }
    ensures judged { IfErr result (λ fault. fault ≢ faults.NoMemory) }
{
    if n.version == WIDE && d.length != n.length {
        return Err(CountFault::Other {
            length: d.length,
            wanted: n.length,
        });
    }
    Ok(())
}

/// Refuses one with another number of cells.
fn keep_theirs(n: &Notes, d: &Dump) -> Result<(), CountFault>
    requires cells { length d.now.cells.items < 2 ^ 32 }
    requires for_them { IsForThem IsProfile (notes_seen n.now) (dump_seen d.now) }
    ensures theirs { IfOk result (λ _. IsTheirs IsProfile (notes_seen n.now) (dump_seen d.now)) }
    ensures refused { IfErr result (IsRefused (notes_seen n.now) (dump_seen d.now)) }
    ensures judged { IfErr result (λ fault. fault ≢ faults.NoMemory) }
{
    let cells = d.cells.len() as u32;
    if cells != n.cells {
        return Err(CountFault::Shape {
            cells,
            wanted: n.cells,
        });
    }
    Ok(())
}

/// Refuses one after which a counter can have begun at 0 again.
fn keep_short(n: &Notes, d: &Dump) -> Result<(), CountFault>
    requires theirs { IsTheirs IsProfile (notes_seen n.now) (dump_seen d.now) }
    ensures short { IfOk result (λ _. IsShort (notes_seen n.now) (dump_seen d.now)) }
    ensures refused { IfErr result (IsRefused (notes_seen n.now) (dump_seen d.now)) }
    ensures judged { IfErr result (λ fault. fault ≢ faults.NoMemory) }
{
    if n.version == NARROW && d.steps >= STEPS {
        return Err(CountFault::TooLong(d.steps));
    }
    Ok(())
}

/// The node at which the run stands, by a dump of the notes' file.
fn standing(n: &Notes, d: &Dump) -> Result<usize, CountFault>
    requires notes { AreNotes (notes_seen n.now) }
    requires profile { IsProfile (notes_seen n.now) }
    requires cells { length d.now.cells.items < 2 ^ 32 }
    ensures stands { IfOk result (StandsAt (notes_seen n.now) (dump_seen d.now)) }
    ensures refused { IfErr result (IsRefused (notes_seen n.now) (dump_seen d.now)) }
    ensures judged { IfErr result (λ fault. fault ≢ faults.NoMemory) }
{
    keep_alike(n, d)?;
    keep_for_them(n, d)?;
    keep_theirs(n, d)?;
    keep_short(n, d)?;
    match node_at(n, d.pc) {
        Some(node) => Ok(node as usize),
        None => Err(CountFault::Between(d.pc)),
    }
}

/// The flow as numbers of 64 bits, or the first that is below 0, or where none is the first that is too large.
fn whole_numbers(alloc: Global, flow: &[i128]) -> Result<Vec<u64>, CountFault>
    requires { length flow.now < 2 ^ 32 }
    ensures counts { IfOk result (λ counts. AreWhole flow.now counts.items) }
    ensures refused { IfErr result (IsBad flow.now) }
{
    keep_whole(flow)?;
    let counts = small_numbers(alloc, flow)?;
    Ok(counts)
}

/// Refuses a flow that is below 0 on an edge.
fn keep_whole(flow: &[i128]) -> Result<(), CountFault>
    requires { length flow.now < 2 ^ 32 }
    ensures whole { IfOk result (λ _. IsWhole flow.now) }
    ensures refused { IfErr result (IsBad flow.now) }
    ensures judged { IfErr result (λ fault. fault ≢ faults.NoMemory) }
{
    for (edge, value) in flow.iter().enumerate() {
        if *value < 0 {
            return Err(negative(edge, *value));
        }
    }
    Ok(())
}

/// The flow as numbers of 64 bits, or the first that is too large.
fn small_numbers(alloc: Global, flow: &[i128]) -> Result<Vec<u64>, CountFault>
    requires len { length flow.now < 2 ^ 32 }
    requires whole { IsWhole flow.now }
    ensures counts { IfOk result (λ counts. counts.items ≡ map nat_abs flow.now) }
    ensures small { IfOk result (λ _. IsSmall flow.now) }
    ensures refused { IfErr result (IsBad flow.now) }
{
    let mut counts = Vec::with_capacity(alloc, flow.len())?;
    for (edge, value) in flow.iter().enumerate() {
        let count = value.unsigned_abs();
        if count >= 1 << 64 {
            return Err(large(edge, *value));
        }
        counts.push(count as u64)?;
    }
    Ok(counts)
}

fn negative(edge: usize, value: i128) -> CountFault
    requires { edge < 2 ^ 32 }
    ensures { result ≡ faults.Negative (record { 0 = edge }) value }
{
    CountFault::Negative {
        edge: EdgeNo(edge as u32),
        value,
    }
}

fn large(edge: usize, value: i128) -> CountFault
    requires { edge < 2 ^ 32 }
    ensures { result ≡ faults.Large (record { 0 = edge }) value }
{
    CountFault::Large {
        edge: EdgeNo(edge as u32),
        value,
    }
}
