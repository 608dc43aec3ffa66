//! Placing pieces.

ghost use Rattle.std.specs.Prelude.{◌≡◌, ◌+◌, ◌*◌, ◌^◌, ◌%◌, ◌≤◌, length, IfOk};
ghost use Rattle.layout.specs.Laid.{placement_of, ArePieces, Lays};
ghost use Rattle.layout.specs.Forms.{offset};
ghost use Rattle.layout.specs.Compact.{IsCompact, RoomIs};
ghost use Rattle.layout.specs.Private.{addresses, forms_in, FitsIn, IsFormed, IsOffsets, IsPut};

use crate::assembler::Assembler;
use crate::entries::Listing;
use crate::forms::{Formed, widened};
use crate::order::order_of;
use crate::ranges::address;
use crate::{LayoutFault, Piece, Placed};
use eel_base::Addr;
use std::alloc::{AllocError, Global};

impl Assembler<'_> {
    // The addresses of pieces that have so many words before them.
    fn addresses_of(&self, alloc: Global, at: &[u64]) -> Result<Vec<Addr>, AllocError>
        requires { IsOffsets self.now.entries.now (forms_in self.now.forms.now) at.now }
        ensures { IfOk result (λ v. v.items ≡ addresses self.now.base.0 at.now) }
    {
        let mut addresses = Vec::with_capacity(alloc, at.len())?;
        for words in at {
            addresses.push(address(self.base, *words))?;
        }
        Ok(addresses)
    }

    // Code, addresses and ranges.
    fn put(&self, alloc: Global, words: Vec<u64>) -> Result<Placed, AllocError>
        requires { IsOffsets self.now.entries.now (forms_in self.now.forms.now) words.items }
        ensures { IfOk result (IsPut self.now.base.0 self.now.entries.now words.items
            (forms_in self.now.forms.now)) }
    {
        let code = self.emit(alloc, &words)?;
        let at = self.addresses_of(alloc, &words)?;
        drop(words);
        // Few pieces have more than one Mark.
        let ranges = self.ranges_of(alloc, at.len())?;
        Ok(Placed { code, at, ranges })
    }
}

// Code, addresses and ranges, or a fault where there isn't room.
fn put_within(
    alloc: Global,
    base: Addr,
    room: u32,
    entries: &Listing,
    forms: &[bool],
    at: Vec<u64>,
    all: u64,
) -> Result<Placed, LayoutFault>
    requires small { length entries.now ≤ 2 ^ 42 }
    requires formed { IsFormed entries.now forms.now at.items all }
    requires low { base.0 + room ≤ 2 ^ 31 }
    ensures put { IfOk result (IsPut base.0 entries.now at.items (forms_in forms.now)) }
    ensures room { FitsIn result (4 * offset entries.now (forms_in forms.now) (length entries.now)) room }
{
    let needed = 4 * all;
    if needed > room as u64 {
        return Err(LayoutFault::Room {
            needed,
            had: room as u64,
        });
    }
    let assembler = Assembler {
        base,
        entries,
        forms,
        all,
    };
    match assembler.put(alloc, at) {
        Ok(placed) => Ok(placed),
        Err(_) => Err(LayoutFault::NoMemory),
    }
}

/// Places pieces in the compact order, each Jump and Branch in the shortest form that its distance allows.
pub fn place(alloc: Global, pieces: &[Piece], base: Addr, room: u32) -> Result<Placed, LayoutFault>
    requires pieces { ArePieces pieces.now }
    requires aligned { base.0 % 4 ≡ 0 }
    requires low { base.0 + room ≤ 2 ^ 31 }
    ensures laid { IfOk result (λ p.
        Lays IsCompact pieces.now base.0 (placement_of p.code.items p.at.items p.ranges.items)) }
    ensures room { RoomIs result pieces.now room }
{
    let Ok(order) = order_of(alloc, pieces) else {
        return Err(LayoutFault::NoMemory);
    };
    let entries = Listing::new(pieces, &order);
    let Ok(formed) = widened(alloc, &entries, pieces.len()) else {
        return Err(LayoutFault::NoMemory);
    };
    let Formed { forms, at, all } = formed;
    put_within(alloc, base, room, &entries, &forms, at, all)
}
