//! Dumps, and why a file is none.
ghost use Rattle.std.specs.Prelude.{◌≡◌};

use eel_base::Addr;
use std::alloc::{AllocError, AllocFailed};
use v8_step::Ending;

/// How far a run has come, and what its cells hold then.
#[derive(Drop)]
pub struct Dump {
    /// That of the notes of the file that was run, 1 or 2.
    pub version: u32,
    /// How the run ended, where it did.
    pub ending: Option<Ending>,
    /// Where it stands.
    pub pc: Addr,
    /// How many steps were made.
    pub steps: u64,
    /// The size of the original in bytes; 0 in version 1, which doesn't tell it.
    pub length: u32,
    /// What the cells hold, the first one first.
    pub cells: Vec<u32>,
}

/// Why a dump can't be read.
#[derive(Clone, Copy, Debug, PartialEq, Eq)]
pub enum DumpFault {
    /// The number at this offset isn't whole or breaks its rule. It is the first one.
    Bad(u32),
    NoMemory,
}

impl<T: Drop> From<AllocFailed<T>> for DumpFault {
    ghost use Rattle.dump_file.specs.declared.dump.DumpFault.TheVariants as faults;

    ghost from_gives = { λ _ fault. fault ≡ faults.NoMemory };

    fn from(_: AllocFailed<T>) -> DumpFault {
        DumpFault::NoMemory
    }
}

impl From<AllocError> for DumpFault {
    ghost use Rattle.dump_file.specs.declared.dump.DumpFault.TheVariants as faults;

    ghost from_gives = { λ _ fault. fault ≡ faults.NoMemory };

    fn from(_: AllocError) -> DumpFault {
        DumpFault::NoMemory
    }
}
