//! Texts that come in and go out: their bytes, or what comes of it where they can't be had or put.
ghost use Rattle.std.specs.Prelude.{◌≡◌, ◌≤◌, IfOk, IfErr, OnOk};
ghost use Rattle.eel_said.specs.Code.{outcome_seen};
ghost use Rattle.eel_said.specs.Seen.{files_seen, input_seen, stream_seen};
ghost use Rattle.eel_said.specs.Shared.{IsPrinted, IsPut, IsUnread, WasRead};
ghost use Rattle.eel_reports.specs.Answers.Run.{IsUnfed, WasFed};
ghost use Rattle.eel_reports.specs.Refusals.{unread_of};

use eel_base::{Failed, FetchFault, Files, PutFault, Sink, Source, put_all, read_all};
use eel_said::Outcome;
use std::alloc::Global;

/// How many bytes a file may have that is edited or shown.
pub const EDIT_LIMIT: u64 = 64 << 20;

/// How many bytes a file may have that is run, or that an edit has written.
pub const WRITTEN_LIMIT: u64 = 1536 << 20;

/// How many bytes the input of a run may have.
const INPUT_LIMIT: u64 = 64 << 20;

/// What the input is called where it is refused.
const STANDARD_INPUT: &str = "standard input";

/// Reads the file `name`.
pub fn fetch_file<'a, F: Files>(
    alloc: Global,
    files: &mut F,
    name: &'a str,
    limit: u64,
) -> Result<Vec<u8>, Outcome<'a>>
    ensures read { IfOk result (λ bytes.
        WasRead (files_seen F.Files files.old) name.now limit bytes.items) }
    ensures unread { IfErr result (λ outcome.
        IsUnread (files_seen F.Files files.old) (files_seen F.Files files.new) name.now limit (outcome_seen outcome)) }
    ensures kept { F.held files.new ≡ F.held files.old }
    ensures unfaulted { OnOk result (F.faults files.new ≡ F.faults files.old) }
    ensures later { F.faults files.old ≤ F.faults files.new }
{
    match files.fetch(alloc, name, limit) {
        Ok(bytes) => Ok(bytes),
        Err(fault) => Err(unread(name, limit, fault)),
    }
}

/// Reads the whole input of a run.
pub fn read_input<I: Source>(alloc: Global, input: &mut I) -> Result<Vec<u8>, Outcome<'static>>
    ensures fed { IfOk result (λ given.
        WasFed (input_seen I.Source input.old) (input_seen I.Source input.new) given.items) }
    ensures unfed { IfErr result (λ outcome.
        IsUnfed (input_seen I.Source input.old) (input_seen I.Source input.new) (outcome_seen outcome)) }
    ensures later { I.faults input.old ≤ I.faults input.new }
{
    match read_all(alloc, input, INPUT_LIMIT) {
        Ok(given) => Ok(given),
        Err(fault) => Err(unread(STANDARD_INPUT, INPUT_LIMIT, fault)),
    }
}

/// What a fault of the text with this name and limit comes to.
fn unread<'a>(name: &'a str, limit: u64, fault: FetchFault) -> Outcome<'a>
    ensures { outcome_seen result ≡ unread_of name.now limit fault }
{
    match fault {
        FetchFault::Failed => Outcome::DeviceFault,
        FetchFault::TooLong => Outcome::TooLong { name, limit },
        FetchFault::NoMemory => Outcome::OutOfMemory,
    }
}

/// Puts the bytes as the file `name`.
pub fn put_file<F: Files>(files: &mut F, name: &str, bytes: &[u8]) -> Outcome<'static>
    ensures put { IsPut (files_seen F.Files files.old) (files_seen F.Files files.new) name.now bytes.now (outcome_seen result) }
    ensures later { F.faults files.old ≤ F.faults files.new }
{
    match files.put(name, bytes) {
        Ok(()) => Outcome::Done,
        Err(PutFault::NoMemory) => Outcome::OutOfMemory,
        Err(PutFault::Failed) => Outcome::DeviceFault,
    }
}

/// Prints the bytes.
pub fn print<O: Sink>(out: &mut O, bytes: &[u8]) -> Outcome<'static>
    ensures printed { IsPrinted (stream_seen O.Sink out.old) (stream_seen O.Sink out.new) bytes.now (outcome_seen result) }
    ensures later { O.faults out.old ≤ O.faults out.new }
{
    match put_all(out, bytes) {
        Ok(()) => Outcome::Done,
        Err(Failed) => Outcome::DeviceFault,
    }
}
