//! Why the last edges can't be told.
ghost use Rattle.std.specs.Prelude.{◌≡◌};

use eel_base::Addr;
use std::alloc::{AllocError, AllocFailed};

/// Why the last edges can't be told.
#[derive(Clone, Copy)]
pub enum RingFault {
    /// The notes are not those of a trace.
    NoTrace,
    /// The dump has this version, and the notes the other one.
    Version { dump: u32, notes: u32 },
    /// The dump was made for an original of this size, and the notes' is another one.
    Other { length: u32, wanted: u32 },
    /// The dump has so many cells, and the notes want another number.
    Shape { cells: u32, wanted: u32 },
    /// The run stands at this address, in new code that is no instruction's place.
    Between(Addr),
    /// This cell, the first of such cells, holds what stands for no edge.
    Entry { cell: u32, value: u32 },
    NoMemory,
}

impl<T: Drop> From<AllocFailed<T>> for RingFault {
    ghost use Rattle.edge_ring.specs.declared.fault.RingFault.TheVariants as faults;

    ghost from_gives = { λ _ fault. fault ≡ faults.NoMemory };

    fn from(_: AllocFailed<T>) -> RingFault {
        RingFault::NoMemory
    }
}

impl From<AllocError> for RingFault {
    ghost use Rattle.edge_ring.specs.declared.fault.RingFault.TheVariants as faults;

    ghost from_gives = { λ _ fault. fault ≡ faults.NoMemory };

    fn from(_: AllocError) -> RingFault {
        RingFault::NoMemory
    }
}
