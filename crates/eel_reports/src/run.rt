//! Programs that are read, started and run.
ghost use Rattle.std.specs.Prelude.{◌≡◌, ◌≤◌, IfOk, IfErr, OnOk, None};
ghost use Rattle.elf32_sparc.specs.FileFault.{load_fault};
ghost use Rattle.v8_process.specs.Arguments.{AreArguments, texts};
ghost use Rattle.v8_process.specs.Start.{start_of};
ghost use Rattle.eel_said.specs.Code.{outcome_seen};
ghost use Rattle.eel_said.specs.Seen.{files_seen, input_seen, stream_seen};
ghost use Rattle.eel_reports.specs.Answers.Run.{IsNotRun, IsRun};
ghost use Rattle.eel_reports.specs.Code.{HasBegun, IsUnbegun, stopped_of};

use crate::texts::{WRITTEN_LIMIT, fetch_file, read_input};
use eel_base::{Files, Sink, Source};
use eel_said::Outcome;
use std::alloc::Global;
use v8_process::{LoadFault, load};
use v8_runner::{RunEnd, Stop, run};
use v8_step::Machine;

/// A program that is to run.
#[derive(Clone, Copy)]
pub struct Job<'a> {
    pub file: &'a str,
    pub limit: u64,
    pub args: &'a [&'a str],
}

/// Reads the program and all of its input, and answers its bytes and the machine that is about to run it.
pub fn begin<'a, F: Files, I: Source>(
    alloc: Global,
    job: Job<'a>,
    files: &mut F,
    input: &mut I,
) -> Result<(Vec<u8>, Machine), Outcome<'a>>
    requires few { AreArguments (texts job.args.now) }
    ensures begun { IfOk result (λ begun. HasBegun job.entry.file.now (texts job.entry.args.now) (files_seen F.Files files.old)
        (input_seen I.Source input.old) (input_seen I.Source input.new) begun.0.items begun.1) }
    ensures unbegun { IfErr result (λ outcome. IsUnbegun job.entry.file.now
        (files_seen F.Files files.old) (files_seen F.Files files.new)
        (input_seen I.Source input.old) (input_seen I.Source input.new) (outcome_seen outcome)) }
    ensures kept { F.held files.new ≡ F.held files.old }
    ensures files_faults { F.faults files.old ≤ F.faults files.new }
    ensures input_faults { I.faults input.old ≤ I.faults input.new }
{
    let bytes = fetch_file(alloc, files, job.file, WRITTEN_LIMIT)?;
    let given = read_input(alloc, input)?;
    let machine = start(alloc, job, &bytes, given)?;
    Ok((bytes, machine))
}

/// The machine that is about to run the program.
fn start<'a>(
    alloc: Global,
    job: Job<'a>,
    bytes: &[u8],
    given: Vec<u8>,
) -> Result<Machine, Outcome<'a>>
    requires few { AreArguments (texts job.args.now) }
    ensures machine { IfOk result (λ machine.
        machine ≡ start_of bytes.now (texts job.entry.args.now) given.items) }
    ensures loads { OnOk result (load_fault bytes.now ≡ None) }
    ensures refused { IfErr result (λ outcome.
        IsNotRun job.entry.file.now bytes.now (outcome_seen outcome)) }
{
    match load(alloc, bytes, job.args, given) {
        Ok(machine) => Ok(machine),
        Err(LoadFault::File(fault)) => Err(Outcome::BadFile {
            name: job.file,
            code: fault.code(),
        }),
        Err(LoadFault::NoMemory) => Err(Outcome::OutOfMemory),
    }
}

/// Runs the machine.
pub fn run_machine<O: Sink, E: Sink>(
    mut machine: Machine,
    limit: u64,
    out: &mut O,
    err: &mut E,
) -> Outcome<'static>
    ensures ran { IsRun machine limit
        (stream_seen O.Sink out.old) (stream_seen O.Sink out.new) (stream_seen E.Sink err.old) (stream_seen E.Sink err.new)
        (outcome_seen result) }
    ensures out_faults { O.faults out.old ≤ O.faults out.new }
    ensures err_faults { E.faults err.old ≤ E.faults err.new }
{
    outcome_of(run(&mut machine, limit, out, err))
}

/// What the end of a run comes to.
pub fn outcome_of(end: RunEnd) -> Outcome<'static>
    ensures { outcome_seen result ≡ stopped_of end.stop end.steps }
{
    match end.stop {
        Stop::Limit => Outcome::Stopped {
            ending: None,
            steps: end.steps,
        },
        Stop::Ended(ending) => Outcome::Stopped {
            ending: Some(ending),
            steps: end.steps,
        },
        Stop::SinkFault => Outcome::DeviceFault,
    }
}
