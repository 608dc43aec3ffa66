//! Notes, and why a file has none that can be read.
ghost use Rattle.std.specs.Prelude.{◌≡◌};

use eel_base::Range;
use std::alloc::{AllocError, AllocFailed};

/// A page that was added.
#[derive(Clone, Copy)]
pub struct NoteSegment {
    pub start: u32,
    pub length: u32,
}

/// An edge of the graph. Its kind is the number of the kind. Its nodes are numbers of blocks, the number of blocks for all
/// that lies outside the text, and behind that, in the order of the blocks, their landed copies.
#[derive(Clone, Copy)]
pub struct NoteEdge {
    pub kind: u32,
    pub from: u32,
    pub to: u32,
    /// The cell that counts it.
    pub cell: Option<u32>,
}

/// What a written file says of itself.
#[derive(Drop)]
pub struct Notes {
    /// 1, where a counter has one cell, or 2, where it has two, the high word first.
    pub version: u32,
    /// The offset of the original in the file, and how many bytes it has.
    pub delta: u32,
    pub length: u32,
    /// 0 without snippets, 1 for a profile, 2 for a script, 3 for a trace.
    pub tool: u32,
    /// The address of the original's text, and how many words it has.
    pub start: u32,
    pub words: u32,
    /// The block at which the program is entered.
    pub entry: u32,
    /// The address of the first cell, and how many there are.
    pub base: u32,
    pub cells: u32,
    /// The pages that were added, in the order of their addresses.
    pub segments: Vec<NoteSegment>,
    /// The first word of each block.
    pub blocks: Vec<u32>,
    pub edges: Vec<NoteEdge>,
    /// The places, in the order of their addresses.
    pub ranges: Vec<Range>,
}

/// Why notes can't be read.
#[derive(Clone, Copy, Debug, PartialEq, Eq)]
pub enum NotesFault {
    /// The file has no locator of notes.
    Absent,
    /// The word at this offset in the notes is missing or breaks its rule; 0 also where they lie outside the file.
    Bad(u32),
    NoMemory,
}

impl<T: Drop> From<AllocFailed<T>> for NotesFault {
    ghost use Rattle.notes.specs.declared.note.NotesFault.TheVariants as faults;

    ghost from_gives = { λ _ fault. fault ≡ faults.NoMemory };

    fn from(_: AllocFailed<T>) -> NotesFault {
        NotesFault::NoMemory
    }
}

impl From<AllocError> for NotesFault {
    ghost use Rattle.notes.specs.declared.note.NotesFault.TheVariants as faults;

    ghost from_gives = { λ _ fault. fault ≡ faults.NoMemory };

    fn from(_: AllocError) -> NotesFault {
        NotesFault::NoMemory
    }
}
