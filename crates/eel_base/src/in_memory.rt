//! The outside in memory, for tests and for output that nobody reads. These objects tell what they hold,
//! and fail at the calls that they are told to fail at.
ghost use Rattle.std.specs.Prelude.{◌≡◌, Some, None, ◌⊎◌, ◌+◌, ◌-◌, ◌<◌, ◌≤◌, List, [], length, take, drop, min, IfOk, OnOk, OnErr, IsErr, IsErrOf, IsTrue, IsNone, vec_len, ◌↔◌};
ghost use Rattle.std.specs.Option.{option_copied};
ghost use Rattle.eel_base.specs.Outside.{Holding, bytes_under, with_bytes, stored, IsMissing, AreUnder, IsLonger, SameBut, Rose, raised, preceded, IsAtEnd, appended};
ghost use Rattle.eel_base.specs.Code.{Calls, no_calls, is_to_fail, called, counted};
ghost use Rattle.eel_base.specs.InMemory.{FilesInMemory, SourceInMemory, SinkInMemory, fails_to_take};

use crate::numbers::NoMemory;
use crate::outside::{Failed, FetchFault, Files, PutFault, Sink, Source};
use std::alloc::Global;
use std::collections::BTreeMap;
use std::marker::Model;

/// The calls of an object: those that are to fail, counted from 0, how many were made, and its faults.
/// Both counts stay at their last value once they reach it.
#[derive(Drop)]
struct CallLog {
    fail: Vec<u64>,
    made: u64,
    faults: u64,
}

impl Model for CallLog {
    ghost use Rattle.eel_base.specs.Code.{Calls};

    ghost Value = { Calls };

    ghost view = { λ c. record { fail = c.fail.items; made = c.made; faults = c.faults } };
}

impl CallLog {
    fn new(fail: Vec<u64>) -> CallLog
        ensures { result ≡ no_calls fail.items }
    {
        CallLog {
            fail,
            made: 0,
            faults: 0,
        }
    }

    /// Notes one more call, and says whether it is to fail.
    fn begin(&mut self) -> bool
        ensures after { self.new ≡ called self.old }
        ensures answer { result ≡ is_to_fail self.old }
        ensures later { self.old.faults ≤ self.new.faults }
    {
        let is_to_fail = self.fail.contains(&self.made);
        self.made = self.made.saturating_add(1);
        if is_to_fail {
            self.fault();
        }
        is_to_fail
    }

    fn fault(&mut self)
        ensures after { self.new ≡ record self.old { faults = raised self.old.faults } }
        ensures later { self.old.faults ≤ self.new.faults }
    {
        self.faults = self.faults.saturating_add(1);
    }
}

/// Files in memory. Calls of `fetch` and `put` are counted together.
#[derive(Drop)]
pub struct MemFiles {
    alloc: Global,
    files: BTreeMap<String, Vec<u8>>,
    calls: CallLog,
}

impl Model for MemFiles {
    ghost use Rattle.eel_base.specs.InMemory.{FilesInMemory, holding_of};

    ghost Value = { FilesInMemory };

    ghost view = { λ f. record { held = holding_of f.files.entries; calls = f.calls } };
}

impl MemFiles {
    /// No files. The calls whose numbers are in `fail` are to fail.
    pub fn new(alloc: Global, fail: Vec<u64>) -> MemFiles
        ensures { result ≡ record { held = []; calls = no_calls fail.items } }
    {
        MemFiles {
            alloc,
            files: BTreeMap::new(alloc),
            calls: CallLog::new(fail),
        }
    }

    /// Puts `bytes` under `name`, as no counted call.
    pub fn add(&mut self, name: &str, bytes: &[u8]) -> Result<(), NoMemory>
        ensures ok { OnOk result (self.new ≡ record self.old { held = with_bytes self.old.held name.now bytes.now }) }
        ensures err { OnErr result (self.new ≡ self.old) }
    {
        let name = String::from_str(self.alloc, name)?;
        let bytes = Vec::from_slice(self.alloc, bytes)?;
        self.files.insert(name, bytes)?;
        Ok(())
    }

    /// The bytes under `name`.
    pub fn get(&self, name: &str) -> Option<&[u8]>
        ensures { option_copied result ≡ bytes_under name.now self.now.held }
    {
        match self.files.get(name) {
            Some(bytes) => Some(bytes.as_slice()),
            None => None,
        }
    }
}

impl Files for MemFiles {
    ghost held = { λ f. Some f.held };

    ghost faults = { λ f. f.calls.faults };

    fn fetch(&mut self, alloc: Global, name: &str, limit: u64) -> Result<Vec<u8>, FetchFault>
        ensures kept { Some self.new.held ≡ Some self.old.held }
        ensures found { IfOk result (λ bytes. AreUnder (Some self.old.held) name.now bytes.items) }
        ensures within { IfOk result (λ bytes. vec_len bytes ≤ limit) }
        ensures missing { IsMissing (Some self.old.held) name.now → result ≡ Err FetchFault.Failed }
        ensures too_long { IsErrOf result FetchFault.TooLong → IsLonger (Some self.old.held) name.now limit }
        ensures failed { IsErrOf result FetchFault.Failed → IsMissing (Some self.old.held) name.now ⊎ Rose self.old.calls.faults self.new.calls.faults }
        ensures wanting { IsErrOf result FetchFault.NoMemory → self.new.calls.faults ≡ self.old.calls.faults }
        ensures unfaulted { OnOk result (self.new.calls.faults ≡ self.old.calls.faults) }
        ensures later { self.old.calls.faults ≤ self.new.calls.faults }
        ensures after { self.new ≡ record self.old { calls = called self.old.calls } }
        ensures fails { IsTrue (is_to_fail self.old.calls) → result ≡ Err FetchFault.Failed }
        ensures only { IsErrOf result FetchFault.Failed → IsTrue (is_to_fail self.old.calls) ⊎ IsMissing (Some self.old.held) name.now }
    {
        if self.calls.begin() {
            return Err(FetchFault::Failed);
        }
        let Some(bytes) = self.get(name) else {
            return Err(FetchFault::Failed);
        };
        if bytes.len() as u64 > limit {
            return Err(FetchFault::TooLong);
        }
        match Vec::from_slice(alloc, bytes) {
            Ok(copy) => Ok(copy),
            Err(_) => Err(FetchFault::NoMemory),
        }
    }

    fn put(&mut self, name: &str, bytes: &[u8]) -> Result<(), PutFault>
        ensures put { OnOk result (Some self.new.held ≡ stored (Some self.old.held) name.now bytes.now) }
        ensures others { IsErrOf result PutFault.Failed → SameBut name.now (Some self.old.held) (Some self.new.held) }
        ensures refused { IsErrOf result PutFault.NoMemory → Some self.new.held ≡ Some self.old.held }
        ensures failed { IsErrOf result PutFault.Failed → Rose self.old.calls.faults self.new.calls.faults }
        ensures later { self.old.calls.faults ≤ self.new.calls.faults }
        ensures calls { self.new.calls ≡ called self.old.calls }
        ensures unchanged { OnErr result (self.new.held ≡ self.old.held) }
        ensures fails { result ≡ Err PutFault.Failed ↔ IsTrue (is_to_fail self.old.calls) }
    {
        if self.calls.begin() {
            return Err(PutFault::Failed);
        }
        match self.add(name, bytes) {
            Ok(()) => Ok(()),
            Err(NoMemory) => Err(PutFault::NoMemory),
        }
    }
}

/// A source of given bytes.
#[derive(Drop)]
pub struct MemSource {
    bytes: Vec<u8>,
    at: usize,
    reads: u64,
    calls: CallLog,
}

impl Model for MemSource {
    ghost use Rattle.std.specs.Prelude.{◌≤◌, drop, vec_len};
    ghost use Rattle.eel_base.specs.InMemory.{SourceInMemory};

    ghost Value = { SourceInMemory };

    ghost view = { λ s. record { left = drop s.at s.bytes.items; reads = s.reads; calls = s.calls } };

    ghost invariant = { λ s. s.at ≤ vec_len s.bytes };
}

impl MemSource {
    /// All of `bytes` are left. The calls whose numbers are in `fail` are to fail.
    pub fn new(bytes: Vec<u8>, fail: Vec<u64>) -> MemSource
        ensures { result ≡ record { left = bytes.items; reads = 0; calls = no_calls fail.items } }
    {
        MemSource {
            bytes,
            at: 0,
            reads: 0,
            calls: CallLog::new(fail),
        }
    }
}

impl Source for MemSource {
    ghost left = { λ s. Some s.left };

    ghost faults = { λ s. s.calls.faults };

    ghost reads = { λ s. s.reads };

    fn read(&mut self, buf: &mut [u8]) -> Result<usize, Failed>
        ensures within { IfOk result (λ count. count ≤ length buf.new) }
        ensures moved { IfOk result (λ count. Some self.old.left ≡ preceded (take count buf.new) (Some self.new.left)) }
        ensures rest { IfOk result (λ count. drop count buf.new ≡ drop count buf.old) }
        ensures end { IfOk result (λ count. count ≡ 0 → 0 < length buf.old → IsAtEnd (Some self.old.left)) }
        ensures unmoved { OnErr result (Some self.new.left ≡ Some self.old.left) }
        ensures unfilled { OnErr result (buf.new ≡ buf.old) }
        ensures failed { OnErr result (Rose self.old.calls.faults self.new.calls.faults) }
        ensures unfaulted { OnOk result (self.new.calls.faults ≡ self.old.calls.faults) }
        ensures later { self.old.calls.faults ≤ self.new.calls.faults }
        ensures counted { OnOk result (self.new.reads ≡ raised self.old.reads) }
        ensures uncounted { OnErr result (self.new.reads ≡ self.old.reads) }
        ensures calls { self.new.calls ≡ called self.old.calls }
        ensures fails { IsErr result ↔ IsTrue (is_to_fail self.old.calls) }
        ensures count { IfOk result (λ count. count ≡ min (length buf.old) (length self.old.left)) }
    {
        let fails = self.calls.begin();
        if fails {
            return Err(Failed);
        }
        let left = &self.bytes[self.at..];
        let count = buf.len().min(left.len());
        buf[..count].copy_from_slice(&left[..count]);
        self.at += count;
        self.reads = self.reads.saturating_add(1);
        Ok(count)
    }
}

/// A sink that keeps what it takes, up to a room that is fixed when it is made.
#[derive(Drop)]
pub struct MemSink {
    bytes: Vec<u8>,
    room: usize,
    calls: CallLog,
}

impl Model for MemSink {
    ghost use Rattle.std.specs.Prelude.{◌≤◌, vec_len, vec_capacity};
    ghost use Rattle.eel_base.specs.InMemory.{SinkInMemory};

    ghost Value = { SinkInMemory };

    ghost view = { λ s. record { taken = s.bytes.items; room = s.room; calls = s.calls } };

    ghost invariant = { λ s. (vec_len s.bytes ≤ s.room) × (s.room ≤ vec_capacity s.bytes) };
}

impl MemSink {
    /// An empty sink for `room` bytes. The calls whose numbers are in `fail` are to fail.
    pub fn new(alloc: Global, room: usize, fail: Vec<u64>) -> Result<MemSink, NoMemory>
        ensures { IfOk result (λ s. s ≡ record { taken = []; room = room; calls = no_calls fail.items }) }
    {
        Ok(MemSink {
            bytes: Vec::with_capacity(alloc, room)?,
            room,
            calls: CallLog::new(fail),
        })
    }

    /// What was taken.
    pub fn bytes(&self) -> &[u8]
        ensures { result.now ≡ self.now.taken }
    {
        self.bytes.as_slice()
    }
}

impl Sink for MemSink {
    ghost taken = { λ s. Some s.taken };

    ghost faults = { λ s. s.calls.faults };

    fn write(&mut self, bytes: &[u8]) -> Result<usize, Failed>
        ensures within { IfOk result (λ count. count ≤ length bytes.now) }
        ensures some { IfOk result (λ count. 0 < length bytes.now → 0 < count) }
        ensures took { IfOk result (λ count. Some self.new.taken ≡ appended (Some self.old.taken) (take count bytes.now)) }
        ensures untaken { OnErr result (Some self.new.taken ≡ Some self.old.taken) }
        ensures failed { OnErr result (Rose self.old.calls.faults self.new.calls.faults) }
        ensures later { self.old.calls.faults ≤ self.new.calls.faults }
        ensures room { self.new.room ≡ self.old.room }
        ensures count { IfOk result (λ count. count ≡ min (length bytes.now) (self.old.room - length self.old.taken)) }
        ensures calls { self.new.calls ≡ counted self.old.calls (fails_to_take self.old bytes.now) }
        ensures fails { IsErr result ↔ IsTrue (fails_to_take self.old bytes.now) }
    {
        if self.calls.begin() {
            return Err(Failed);
        }
        let count = bytes.len().min(self.room - self.bytes.len());
        if count == 0 && !bytes.is_empty() {
            self.calls.fault();
            return Err(Failed);
        }
        self.bytes.extend_from_slice(&bytes[..count]).unwrap();
        Ok(count)
    }
}

/// A sink that takes every byte and keeps none.
#[derive(Drop)]
pub struct NullSink;

impl NullSink {
    pub fn new() -> NullSink {
        NullSink
    }
}

impl Sink for NullSink {
    ghost taken = { λ _. None };

    ghost faults = { λ _. 0 };

    fn write(&mut self, bytes: &[u8]) -> Result<usize, Failed>
        ensures within { IfOk result (λ count. count ≤ length bytes.now) }
        ensures all { result ≡ Ok (length bytes.now) }
    {
        Ok(bytes.len())
    }
}
