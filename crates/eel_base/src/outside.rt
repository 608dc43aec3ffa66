//! The outside world: named files, a source of bytes and a sink for them. Contracts see what an object
//! holds where it tells it, and a count of faults that never falls.
ghost use Rattle.std.specs.Prelude.{◌≡◌, ◌⊎◌, ℕ, ◌+◌, ◌<◌, ◌≤◌, length, take, List, Option, IfOk, OnOk, OnErr, IsErrOf, vec_len};
ghost use Rattle.eel_base.specs.Outside.{Holding, stored, IsMissing, AreUnder, IsLonger, SameBut, Rose, raised, preceded, IsAtEnd, appended};

use std::alloc::Global;

/// Why a read of a whole text gave none.
#[derive(Clone, Copy, Debug, PartialEq, Eq)]
pub enum FetchFault {
    /// The device failed, or there is no such name.
    Failed,
    /// There are more bytes than the limit allows.
    TooLong,
    NoMemory,
}

/// Why a file was not put.
#[derive(Clone, Copy, Debug, PartialEq, Eq)]
pub enum PutFault {
    Failed,
    NoMemory,
}

/// The device failed.
#[derive(Clone, Copy, Debug, PartialEq, Eq)]
pub struct Failed;

/// Named files.
pub trait Files {
    ghost held: { Self → Option Holding };

    ghost faults: { Self → ℕ };

    /// The bytes of the file `name`, if they are at most `limit`.
    fn fetch(&mut self, alloc: Global, name: &str, limit: u64) -> Result<Vec<u8>, FetchFault>
        ensures kept { held self.new ≡ held self.old }
        ensures found { IfOk result (λ bytes. AreUnder (held self.old) name.now bytes.items) }
        ensures within { IfOk result (λ bytes. vec_len bytes ≤ limit) }
        ensures missing { IsMissing (held self.old) name.now → result ≡ Err FetchFault.Failed }
        ensures too_long { IsErrOf result FetchFault.TooLong → IsLonger (held self.old) name.now limit }
        ensures failed { IsErrOf result FetchFault.Failed → IsMissing (held self.old) name.now ⊎ Rose (faults self.old) (faults self.new) }
        ensures wanting { IsErrOf result FetchFault.NoMemory → faults self.new ≡ faults self.old }
        ensures unfaulted { OnOk result (faults self.new ≡ faults self.old) }
        ensures later { faults self.old ≤ faults self.new };

    /// Puts `bytes` under `name`, in the place of what stood there.
    fn put(&mut self, name: &str, bytes: &[u8]) -> Result<(), PutFault>
        ensures put { OnOk result (held self.new ≡ stored (held self.old) name.now bytes.now) }
        ensures others { IsErrOf result PutFault.Failed → SameBut name.now (held self.old) (held self.new) }
        ensures refused { IsErrOf result PutFault.NoMemory → held self.new ≡ held self.old }
        ensures failed { IsErrOf result PutFault.Failed → Rose (faults self.old) (faults self.new) }
        ensures later { faults self.old ≤ faults self.new };
}

/// A source of bytes, as a standard input.
pub trait Source {
    ghost left: { Self → Option (List ℕ) };

    ghost faults: { Self → ℕ };

    // how many reads succeeded
    ghost reads: { Self → ℕ };

    /// Moves the next bytes into `buf` and answers how many: for a `buf` that isn't empty, 0 exactly at
    /// the end.
    fn read(&mut self, buf: &mut [u8]) -> Result<usize, Failed>
        ensures within { IfOk result (λ count. count ≤ length buf.new) }
        ensures moved { IfOk result (λ count. left self.old ≡ preceded (take count buf.new) (left self.new)) }
        ensures end { IfOk result (λ count. count ≡ 0 → 0 < length buf.old → IsAtEnd (left self.old)) }
        ensures unmoved { OnErr result (left self.new ≡ left self.old) }
        ensures unfilled { OnErr result (buf.new ≡ buf.old) }
        ensures failed { OnErr result (Rose (faults self.old) (faults self.new)) }
        ensures unfaulted { OnOk result (faults self.new ≡ faults self.old) }
        ensures later { faults self.old ≤ faults self.new }
        ensures counted { OnOk result (reads self.new ≡ raised (reads self.old)) }
        ensures uncounted { OnErr result (reads self.new ≡ reads self.old) };
}

/// A sink for bytes, as a standard output.
pub trait Sink {
    ghost taken: { Self → Option (List ℕ) };

    ghost faults: { Self → ℕ };

    /// Takes the first bytes of the piece and answers how many: at least 1 of a piece that isn't empty.
    fn write(&mut self, bytes: &[u8]) -> Result<usize, Failed>
        ensures within { IfOk result (λ count. count ≤ length bytes.now) }
        ensures some { IfOk result (λ count. 0 < length bytes.now → 0 < count) }
        ensures took { IfOk result (λ count. taken self.new ≡ appended (taken self.old) (take count bytes.now)) }
        ensures untaken { OnErr result (taken self.new ≡ taken self.old) }
        ensures failed { OnErr result (Rose (faults self.old) (faults self.new)) }
        ensures later { faults self.old ≤ faults self.new };
}
