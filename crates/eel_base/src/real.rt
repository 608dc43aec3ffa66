//! The real outside: files, a reader and a writer of std. They tell nothing of what they hold, and count
//! their faults. What the system does behind them is trusted.
ghost use Rattle.std.specs.Prelude.{◌≡◌, ◌≤◌, ◌<◌, take, length, None, vec_len, IfOk, OnOk, OnErr, IsErrOf};
ghost use Rattle.std.specs.Io.KnownBytes.{Appends, Consumes, IsAtEnd as NothingRemains, Keeps};
ghost use Rattle.eel_base.specs.Outside.{IsAtEnd, Rose, appended, preceded, raised};

use crate::outside::{Failed, FetchFault, Files, PutFault, Sink, Source};
use crate::whole::CHUNK;
use crate::whole_file::{fetch_opened, put_file, put_outcome};
use std::alloc::{Alloc, Global};
use std::io::{Read, Write};
use std::marker::Model;
use std::{fs, rt};

/// The files of the system. A missing name is a fault. A regular file is put whole: what stood there stays until
/// the new file is written, and after a failure. A put file of the format ELF is executable.
#[derive(Drop)]
pub struct RealFiles<R> {
    rt: R,
    faults: u64,
}

impl<R> Model for RealFiles<R> {
    ghost use Rattle.std.specs.Prelude.{ℕ};

    ghost Value = { ℕ };

    ghost view = { λ f. f.faults };
}

impl<R> RealFiles<R> {
    pub fn new(rt: R) -> RealFiles<R>
        ensures { result ≡ 0 }
    {
        RealFiles { rt, faults: 0 }
    }
}

impl<R: rt::Files + Alloc> Files for RealFiles<R> {
    ghost held = { λ _. None };

    ghost faults = { λ count. count };

    fn fetch(&mut self, alloc: Global, name: &str, limit: u64) -> Result<Vec<u8>, FetchFault>
        ensures within { IfOk result (λ bytes. vec_len bytes ≤ limit) }
        ensures failed { IsErrOf result FetchFault.Failed → Rose self.old self.new }
        ensures later { self.old ≤ self.new }
        ensures faulted { IsErrOf result FetchFault.Failed → self.new ≡ raised self.old }
        ensures too_long { IsErrOf result FetchFault.TooLong → self.new ≡ self.old }
        ensures wanting { IsErrOf result FetchFault.NoMemory → self.new ≡ self.old }
        ensures unfaulted { OnOk result (self.new ≡ self.old) }
    {
        let fetched = fetch_opened(fs::open(&self.rt, name), alloc, limit);
        if let Err(FetchFault::Failed) = fetched {
            self.faults = self.faults.saturating_add(1);
        }
        fetched
    }

    fn put(&mut self, name: &str, bytes: &[u8]) -> Result<(), PutFault>
        ensures failed { IsErrOf result PutFault.Failed → Rose self.old self.new }
        ensures later { self.old ≤ self.new }
        ensures faulted { IsErrOf result PutFault.Failed → self.new ≡ raised self.old }
        ensures wanting { IsErrOf result PutFault.NoMemory → self.new ≡ self.old }
        ensures unfaulted { OnOk result (self.new ≡ self.old) }
    {
        let put = put_outcome(put_file(&self.rt, name, bytes));
        if let Err(PutFault::Failed) = put {
            self.faults = self.faults.saturating_add(1);
        }
        put
    }
}

/// A reader of std as a source.
#[derive(Drop)]
pub struct StdSource<R> {
    reader: R,
    faults: u64,
    reads: u64,
}

impl<R> StdSource<R> {
    pub fn new(reader: R) -> StdSource<R>
        ensures reader { result.reader ≡ reader }
        ensures faults { result.faults ≡ 0 }
        ensures reads { result.reads ≡ 0 }
    {
        StdSource {
            reader,
            faults: 0,
            reads: 0,
        }
    }
}

impl<R: Read> Source for StdSource<R> {
    ghost left = { λ _. None };

    ghost faults = { λ s. s.faults };

    ghost reads = { λ s. s.reads };

    // Through a chunk, since a reader that fails may have written into what it was given. Where the reader tells what it
    // has left, that is what was moved, 0 comes only at its end, and a failed read moved nothing.
    fn read(&mut self, buf: &mut [u8]) -> Result<usize, Failed>
        ensures within { IfOk result (λ count. count ≤ length buf.new) }
        ensures moved { IfOk result (λ count. None ≡ preceded (take count buf.new) None) }
        ensures unfilled { OnErr result (buf.new ≡ buf.old) }
        ensures failed { OnErr result (Rose self.old.faults self.new.faults) }
        ensures later { self.old.faults ≤ self.new.faults }
        ensures faulted { OnErr result (self.new.faults ≡ raised self.old.faults) }
        ensures unfaulted { OnOk result (self.new.faults ≡ self.old.faults) }
        ensures counted { OnOk result (self.new.reads ≡ raised self.old.reads) }
        ensures uncounted { OnErr result (self.new.reads ≡ self.old.reads) }
        ensures given { IfOk result (λ count.
            Consumes (R.remaining self.old.reader) (R.remaining self.new.reader) (take count buf.new)) }
        ensures ended { IfOk result (λ count.
            count ≡ 0 → 0 < length buf.old → NothingRemains (R.remaining self.new.reader)) }
        ensures kept { OnErr result (Keeps (R.remaining self.old.reader) (R.remaining self.new.reader)) }
    {
        let mut chunk = [0; CHUNK];
        let want = buf.len().min(CHUNK);
        match self.reader.read(&mut chunk[..want]) {
            Ok(count) => {
                buf[..count].copy_from_slice(&chunk[..count]);
                self.reads = self.reads.saturating_add(1);
                Ok(count)
            }
            Err(_) => {
                self.faults = self.faults.saturating_add(1);
                Err(Failed)
            }
        }
    }
}

/// A writer of std as a sink. Taking nothing of a piece that isn't empty is a fault.
#[derive(Drop)]
pub struct StdSink<W> {
    writer: W,
    faults: u64,
}

impl<W> StdSink<W> {
    pub fn new(writer: W) -> StdSink<W>
        ensures writer { result.writer ≡ writer }
        ensures faults { result.faults ≡ 0 }
    {
        StdSink { writer, faults: 0 }
    }
}

impl<W: Write> Sink for StdSink<W> {
    ghost taken = { λ _. None };

    ghost faults = { λ s. s.faults };

    // Where the writer tells what it holds, that grows by just what was taken, and not at all after an error.
    fn write(&mut self, bytes: &[u8]) -> Result<usize, Failed>
        ensures within { IfOk result (λ count. count ≤ length bytes.now) }
        ensures some { IfOk result (λ count. 0 < length bytes.now → 0 < count) }
        ensures failed { OnErr result (Rose self.old.faults self.new.faults) }
        ensures later { self.old.faults ≤ self.new.faults }
        ensures faulted { OnErr result (self.new.faults ≡ raised self.old.faults) }
        ensures unfaulted { OnOk result (self.new.faults ≡ self.old.faults) }
        ensures given { IfOk result (λ count.
            Appends (W.contents self.old.writer) (W.contents self.new.writer) (take count bytes.now)) }
        ensures kept { OnErr result (Keeps (W.contents self.old.writer) (W.contents self.new.writer)) }
    {
        match self.writer.write(bytes) {
            Ok(count) if count > 0 || bytes.is_empty() => Ok(count),
            _ => {
                self.faults = self.faults.saturating_add(1);
                Err(Failed)
            }
        }
    }
}
