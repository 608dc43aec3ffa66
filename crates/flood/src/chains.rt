//! The links that lead to each place, the last first.
ghost use Rattle.std.specs.Prelude.{◌≡◌, ◌<◌, ◌^◌, length, IfOk};
ghost use Rattle.flood.specs.Flood.{AreLinks};
ghost use Rattle.flood.specs.Private.{IsChain};

use crate::Link;
use std::alloc::{AllocError, Global};

/// Links by one more than their numbers, 0 for none: the last that leads to each place, and before each link the last
/// of those before it that lead to the same place.
#[derive(Drop)]
pub(crate) struct Chain {
    pub heads: Vec<u32>,
    pub nexts: Vec<u32>,
}

/// The chains of all places, in one pass over the links.
pub(crate) fn chain_links(alloc: Global, places: usize, links: &[Link]) -> Result<Chain, AllocError>
    requires links { AreLinks places links.now }
    requires few { length links.now < 2 ^ 32 }
    ensures { IfOk result (λ c. IsChain places links.now c.heads.items c.nexts.items) }
{
    let mut heads = vec![in alloc; 0u32; places]?;
    let mut nexts = Vec::with_capacity(alloc, links.len())?;
    for (k, link) in links.iter().enumerate() {
        let place = link.to as usize;
        nexts.push(heads[place])?;
        heads[place] = k as u32 + 1;
    }
    Ok(Chain { heads, nexts })
}
