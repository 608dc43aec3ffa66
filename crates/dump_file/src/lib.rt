//! Dumps: what a run has come to, as a file of its own.
//!
//! A dump has big-endian numbers, one after the other, and no more: `EELD`, the version, how the run ended, where it
//! stands, how many steps were made, in version 2 the size of the original, how many cells there are, and the cells.
//! `specs/Dump.antt` has the table.
#![tactic(auto)]

ghost use Rattle.dump_file.specs.Laws.{WrittenDumpsRead, ReadDumpsAreWritten};

mod dump;
mod reading;
mod writing;

pub use dump::{Dump, DumpFault};
pub use reading::read_dump;
pub use writing::write_dump;

/// Dumps read back from what is written of them.
pub fn written_dumps_read()
    ensures { WrittenDumpsRead }
{}

/// What reads is what is written of the dump that was read, and its numbers fit.
pub fn read_dumps_are_written()
    ensures { ReadDumpsAreWritten }
{}
