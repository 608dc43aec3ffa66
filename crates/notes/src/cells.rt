//! The cells of edges.
ghost use Rattle.std.specs.Prelude.{◌≡◌, ◌<◌, IfOk, length, replicate, false};
ghost use Rattle.notes.specs.Format.{is_counter};
ghost use Rattle.notes.specs.Parts.{is_open, with_mark};

use std::alloc::{AllocError, Global};

/// The word of an edge without a cell.
pub(crate) const NO_CELL: u32 = 0xffff_ffff;

/// Which cells are taken, with a mark for each, and how many of them a counter has.
#[derive(Drop)]
pub(crate) struct Taken {
    width: u32,
    marks: Vec<bool>,
}

impl Taken {
    /// So many cells for counters of this width, none of which is taken.
    pub(crate) fn none(alloc: Global, width: u32, cells: u32) -> Result<Taken, AllocError>
        ensures width { IfOk result (λ taken. taken.width ≡ width) }
        ensures marks { IfOk result (λ taken. taken.marks.items ≡ replicate cells false) }
    {
        let marks = vec![in alloc; false; cells as usize]?;
        Ok(Taken { width, marks })
    }

    /// The word is no cell, or that of a counter which isn't taken.
    pub(crate) fn is_open(&self, word: u32) -> bool
        requires { 0 < self.now.width }
        ensures { result ≡ is_open self.now.width self.now.marks.items word }
    {
        word == NO_CELL || (self.is_counter(word) && !self.marks[word as usize])
    }

    /// A counter has its cells there.
    fn is_counter(&self, word: u32) -> bool
        requires { 0 < self.now.width }
        ensures { result ≡ is_counter self.now.width (length self.now.marks.items) word }
    {
        word % self.width == 0 && word as usize + self.width as usize <= self.marks.len()
    }

    /// Takes an edge's cell.
    pub(crate) fn mark(&mut self, cell: Option<u32>)
        ensures width { self.new.width ≡ self.old.width }
        ensures marks { self.new.marks.items ≡ with_mark cell self.old.marks.items }
    {
        if let Some(cell) = cell
            && (cell as usize) < self.marks.len()
        {
            self.marks[cell as usize] = true;
        }
    }
}
