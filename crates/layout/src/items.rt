//! What is placed, and what placing gives.
use eel_base::{Addr, PieceNo, Range};
use std::marker::Model;
use v8_decode::Cond;

/// A part of a piece.
#[derive(Clone, Copy)]
pub enum Item {
    /// An instruction word.
    Word(u32),
    /// Goes on at the start of another piece.
    Jump(PieceNo),
    /// Goes on at the start of another piece where the condition holds.
    Branch { cond: Cond, to: PieceNo },
    /// The items from here to the next `EndMark` stand for an address of the original, at a node.
    Mark { address: Addr, node: u32 },
    EndMark,
}

/// Code that is entered at its first item.
#[derive(Drop)]
pub struct Piece {
    pub items: Vec<Item>,
}

impl Model for Piece {
    ghost use Rattle.std.specs.Prelude.{List};
    ghost use Rattle.layout.specs.declared.items.Item.{Item};

    ghost Value = { List Item };

    ghost view = { λ s. s.items.items };
}

/// Placed code, the address of each piece, and in ascending order the range of each Mark that covers a word.
#[derive(Drop)]
pub struct Placed {
    pub code: Vec<u32>,
    pub at: Vec<Addr>,
    pub ranges: Vec<Range>,
}

/// Why pieces are not placed.
#[derive(Clone, Copy, Debug, PartialEq, Eq)]
pub enum LayoutFault {
    /// The code has more bytes than there is room for.
    Room { needed: u64, had: u64 },
    NoMemory,
}
