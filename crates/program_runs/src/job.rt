//! A program with its input, its runs, and its listing.
use cfg_view::look;
use eel_base::{Failed, FetchFault, Files, MemSink, NoMemory};
use elf32_sparc::ReadFault;
use show_text::show;
use std::alloc::{AllocError, AllocFailed, Global};
use thiserror::Error;
use v8_process::{LoadFault, load};
use v8_runner::{RunEnd, Stop, run};

/// How many bytes a program's file may have, and its input.
const FILE_LIMIT: u64 = 16 << 20;

/// How many bytes a program may put out to each of its streams.
const OUTPUT_LIMIT: usize = 64 << 10;

/// Why a program wasn't run or shown.
#[derive(Debug, Drop, Error)]
pub enum Refusal {
    #[error("can't be read")]
    Unread,
    #[error("file fault {0}")]
    FileFault(u8),
    #[error("no line of a script")]
    Script,
    #[error("different")]
    Different,
    #[error("out of memory")]
    NoMemory,
}

impl From<AllocError> for Refusal {
    fn from(_: AllocError) -> Refusal {
        Refusal::NoMemory
    }
}

impl<T: Drop> From<AllocFailed<T>> for Refusal {
    fn from(_: AllocFailed<T>) -> Refusal {
        Refusal::NoMemory
    }
}

impl From<NoMemory> for Refusal {
    fn from(_: NoMemory) -> Refusal {
        Refusal::NoMemory
    }
}

impl From<FetchFault> for Refusal {
    fn from(fault: FetchFault) -> Refusal {
        match fault {
            FetchFault::NoMemory => Refusal::NoMemory,
            FetchFault::Failed | FetchFault::TooLong => Refusal::Unread,
        }
    }
}

impl From<LoadFault> for Refusal {
    fn from(fault: LoadFault) -> Refusal {
        match fault {
            LoadFault::File(fault) => Refusal::FileFault(fault.code()),
            LoadFault::NoMemory => Refusal::NoMemory,
        }
    }
}

impl From<ReadFault> for Refusal {
    fn from(fault: ReadFault) -> Refusal {
        match fault {
            ReadFault::File(fault) => Refusal::FileFault(fault.code()),
            ReadFault::NoMemory => Refusal::NoMemory,
        }
    }
}

/// What came of a run, with the bytes to its output and to its error stream.
#[derive(Drop)]
pub struct Ran {
    pub end: RunEnd,
    pub out: MemSink,
    pub err: MemSink,
}

/// A program, and the input on which it runs.
#[derive(Drop)]
pub struct Job {
    program: Vec<u8>,
    input: Vec<u8>,
}

impl Job {
    /// Reads the file `name`, and its input from the file `name.input`. Where that can't be read the input is
    /// empty.
    pub fn read(alloc: Global, files: &mut impl Files, name: &str) -> Result<Job, Refusal> {
        let program = files.fetch(alloc, name, FILE_LIMIT)?;
        let input_name = format!(in alloc; "{name}.input")?;
        let input = match files.fetch(alloc, input_name.as_str(), FILE_LIMIT) {
            Err(FetchFault::Failed) => Vec::new(alloc),
            read => read?,
        };
        Ok(Job { program, input })
    }

    /// Runs the program from its start, without arguments, for `limit` steps at most.
    pub fn run(&self, alloc: Global, limit: u64) -> Result<Ran, Refusal> {
        let input = Vec::from_slice(alloc, &self.input)?;
        let mut machine = load(alloc, &self.program, &[], input)?;
        let mut out = MemSink::new(alloc, OUTPUT_LIMIT, Vec::new(alloc))?;
        let mut err = MemSink::new(alloc, OUTPUT_LIMIT, Vec::new(alloc))?;
        let end = run(&mut machine, limit, &mut out, &mut err);
        Ok(Ran { end, out, err })
    }

    /// The lines that show the program.
    pub fn listing(&self, alloc: Global) -> Result<Vec<u8>, Refusal> {
        let view = look(alloc, &self.program, &[])?;
        Ok(show(alloc, &view, &view.switches)?)
    }
}
