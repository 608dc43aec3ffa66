//! Why counts can't be rebuilt.
ghost use Rattle.std.specs.Prelude.{◌≡◌};

use eel_base::{Addr, EdgeNo};
use std::alloc::{AllocError, AllocFailed};

/// Why counts can't be rebuilt.
#[derive(Clone, Copy, Debug, PartialEq, Eq)]
pub enum CountFault {
    /// The notes are not those of a profile: their tool is another one, or the edges without a cell are no spanning tree.
    NoProfile,
    /// The dump has this version, and the notes the other one.
    Version { dump: u32, notes: u32 },
    /// The dump was made for an original of this size, and the notes' is another one.
    Other { length: u32, wanted: u32 },
    /// The dump has so many cells, and the notes want another number.
    Shape { cells: u32, wanted: u32 },
    /// The run made so many steps, 2^32 or more, so that a counter of one cell may have begun at 0 again.
    TooLong(u64),
    /// The run stands at this address, in new code that is no instruction's place.
    Between(Addr),
    /// This edge, the first of such edges, would have been completed a number of times below 0.
    Negative { edge: EdgeNo, value: i128 },
    /// This edge, the first of such edges, would have been completed 2^64 times or more.
    Large { edge: EdgeNo, value: i128 },
    NoMemory,
}

impl<T: Drop> From<AllocFailed<T>> for CountFault {
    ghost use Rattle.count_rebuild.specs.declared.fault.CountFault.TheVariants as faults;

    ghost from_gives = { λ _ fault. fault ≡ faults.NoMemory };

    fn from(_: AllocFailed<T>) -> CountFault {
        CountFault::NoMemory
    }
}

impl From<AllocError> for CountFault {
    ghost use Rattle.count_rebuild.specs.declared.fault.CountFault.TheVariants as faults;

    ghost from_gives = { λ _ fault. fault ≡ faults.NoMemory };

    fn from(_: AllocError) -> CountFault {
        CountFault::NoMemory
    }
}
