//! The search: what is live at a place is told to the places before it, until nothing is gained.
ghost use Rattle.std.specs.Prelude.{◌≡◌, ◌↔◌, ℕ, ◌<◌, ◌≤◌, ◌^◌, true, length, slice_index, IfOk, OnOk};
ghost use Rattle.v8_decode.specs.declared.Part.{Part};
ghost use Rattle.v8_decode.specs.Parts.{has};
ghost use Rattle.flood.specs.Flood.{at, AreLinks, IsLiveIn, Sets};
ghost use Rattle.flood.specs.Private.{fuel, AreAll, IsChain, IsFlooding, IsGrown};

use crate::Link;
use crate::chains::{Chain, chain_links};
use std::alloc::{AllocError, Global};
use v8_decode::RegSet;

/// For each place the set of parts that are live there, where each reads these.
///
/// A place is looked at once, and again each time that its set has grown: at most 34 times.
pub fn flood(alloc: Global, reads: Vec<RegSet>, links: &[Link]) -> Result<Vec<RegSet>, AllocError>
    requires places { length reads.items < 2 ^ 32 }
    requires links { AreLinks (length reads.items) links.now }
    requires few { length links.now < 2 ^ 32 }
    ensures len { IfOk result (λ sets. length sets.items ≡ length reads.items) }
    ensures live { IfOk result (λ sets. (p : ℕ) (x : Part) →
        (has (at sets.items p) x ≡ true) ↔ IsLiveIn reads.items links.now p x) }
{
    let chain = chain_links(alloc, reads.len(), links)?;
    let mut stack = all_places(alloc, reads.len() as u32)?;
    let mut sets = reads;
    while let Some(place) = stack.pop() {
        tell(&mut sets, &mut stack, place, links, &chain)?;
    }
    Ok(sets)
}

/// The places below a number, in order.
fn all_places(alloc: Global, count: u32) -> Result<Vec<u32>, AllocError>
    ensures { IfOk result (λ places. AreAll count places.items) }
{
    let mut places = Vec::with_capacity(alloc, count as usize)?;
    for place in 0..count {
        places.push(place)?;
    }
    Ok(places)
}

/// Tells what is live at a place to all places before it.
fn tell(
    sets: &mut Vec<RegSet>,
    stack: &mut Vec<u32>,
    place: u32,
    links: &[Link],
    chain: &Chain,
) -> Result<(), AllocError>
    requires place { place < length sets.old.items }
    requires links { AreLinks (length sets.old.items) links.now }
    requires few { length links.now < 2 ^ 32 }
    requires chain { IsChain (length sets.old.items) links.now chain.now.heads.items chain.now.nexts.items }
    ensures len { OnOk result (length sets.new.items ≡ length sets.old.items) }
    ensures told { OnOk result ((reads : Sets)
        → IsFlooding reads links.now place (slice_index chain.now.heads.items place) sets.old.items stack.old.items
        → IsFlooding reads links.now place 0 sets.new.items stack.new.items) }
    ensures falls { OnOk result (fuel sets.new.items stack.new.items ≤ fuel sets.old.items stack.old.items) }
{
    let mut next = chain.heads[place as usize];
    while next != 0 {
        let k = (next - 1) as usize;
        let link = links[k];
        let more = sets[place as usize].minus(link.kills);
        grow(sets, stack, link.from, more)?;
        next = chain.nexts[k];
    }
    Ok(())
}

/// Adds parts to the set of a place. If it gains any, the places before it are to be told.
fn grow(
    sets: &mut Vec<RegSet>,
    stack: &mut Vec<u32>,
    place: u32,
    more: RegSet,
) -> Result<(), AllocError>
    requires { place < length sets.old.items }
    ensures { OnOk result (IsGrown place more sets.old.items stack.old.items sets.new.items stack.new.items) }
{
    let had = sets[place as usize];
    let grown = had.union(more);
    if grown.count() == had.count() {
        return Ok(());
    }
    sets[place as usize] = grown;
    stack.push(place)?;
    Ok(())
}
