//! What is laid: of each piece its start, then its items. No list of it is made.

ghost use Rattle.std.specs.Prelude.{◌≡◌, ◌+◌, ◌*◌, ◌^◌, ◌<◌, ◌≤◌, ◌∷◌, [], length, slice_get, slice_index_or};
ghost use Rattle.std.specs.List.{sum_by};
ghost use Rattle.layout.specs.Laying.{IsWhole};
ghost use Rattle.layout.specs.Forms.{entries_from, leads_next};

use crate::{Item, Piece};
use eel_base::PieceNo;
use std::marker::Model;

/// A part of a layout.
#[derive(Clone, Copy)]
pub enum Entry {
    /// A piece starts.
    Start(PieceNo),
    Item(Item),
}

/// The entries of pieces that are laid in an order.
#[derive(Drop)]
pub struct Listing<'a> {
    pieces: &'a [Piece],
    order: &'a [u32],
    count: usize,
}

impl<'a> Model for Listing<'a> {
    ghost use Rattle.std.specs.Prelude.{List};
    ghost use Rattle.layout.specs.declared.entries.Entry.{Entry};

    ghost Value = { List Entry };

    ghost use Rattle.layout.specs.Forms.{entries_from};
    ghost use Rattle.layout.specs.Private.{IsListed};

    ghost view = { λ l. entries_from l.pieces.now l.order.now };

    ghost invariant = { λ l. IsListed l.pieces.now l.order.now l.count };
}

/// What is left of a listing, which is taken entry by entry.
#[derive(Drop)]
pub struct Cursor<'a> {
    pieces: &'a [Piece],
    // What is left of the piece that was begun last, and the pieces behind it.
    items: &'a [Item],
    order: &'a [u32],
}

impl<'a> Model for Cursor<'a> {
    ghost use Rattle.std.specs.Prelude.{List};
    ghost use Rattle.layout.specs.declared.entries.Entry.{Entry};

    ghost Value = { List Entry };

    ghost use Rattle.layout.specs.Private.{entries_left, AreOrdered};

    ghost view = { λ c. entries_left c.items.now c.pieces.now c.order.now };

    ghost invariant = { λ c. AreOrdered c.pieces.now c.order.now };
}

// The items of the piece with this number.
#[inline]
fn items_at(pieces: &[Piece], k: usize) -> &[Item]
    requires inside { k < length pieces.now }
    ensures { result.now ≡ slice_index_or pieces.now k [] }
{
    let piece = &pieces[k];
    &piece.items
}

// How many entries there are.
fn count(pieces: &[Piece], order: &[u32]) -> usize
    requires whole { IsWhole pieces.now order.now }
    requires small { length (entries_from pieces.now order.now) ≤ 2 ^ 42 }
    ensures { result ≡ length (entries_from pieces.now order.now) }
{
    let mut count = 0;
    for k in order {
        count += 1 + items_at(pieces, *k as usize).len();
    }
    count
}

impl<'a> Listing<'a> {
    /// The entries of pieces in an order that has each of them once.
    pub fn new(pieces: &'a [Piece], order: &'a [u32]) -> Listing<'a>
        requires few { length pieces.now ≤ 2 ^ 28 }
        requires items { sum_by length pieces.now ≤ 2 ^ 40 }
        requires whole { IsWhole pieces.now order.now }
        ensures entries { result ≡ entries_from pieces.now order.now }
        ensures small { length result ≤ 2 ^ 42 }
    {
        Listing {
            pieces,
            order,
            count: count(pieces, order),
        }
    }

    pub fn len(&self) -> usize
        ensures { result ≡ length self.now }
    {
        self.count
    }

    /// All of them, to be taken one after the other.
    pub fn cursor(&self) -> Cursor<'a>
        ensures { result ≡ self.now }
    {
        Cursor {
            pieces: self.pieces,
            items: &[],
            order: self.order,
        }
    }
}

impl<'a> Cursor<'a> {
    /// Takes the next entry.
    #[inline]
    pub fn next(&mut self) -> Entry
        requires more { 0 < length self.old }
        ensures { self.old ≡ result ∷ self.new }
    {
        match self.items.split_first() {
            Some((item, items)) => {
                self.items = items;
                Entry::Item(*item)
            }
            None => {
                let k = self.order[0];
                self.items = items_at(self.pieces, k as usize);
                self.order = &self.order[1..];
                Entry::Start(PieceNo(k))
            }
        }
    }

    /// Whether this piece starts next.
    #[inline]
    pub fn starts(&self, piece: PieceNo) -> bool
        ensures { result ≡ leads_next piece (slice_get self.now 0) }
    {
        match self.items.first() {
            Some(_) => false,
            None => match self.order.first() {
                Some(k) => piece.0 == *k,
                None => false,
            },
        }
    }
}
