//! The command `run` without a dump.
ghost use Rattle.std.specs.Prelude.{◌≤◌, None};
ghost use Rattle.v8_process.specs.Arguments.{AreArguments, texts};
ghost use Rattle.eel_said.specs.Code.{outcome_seen};
ghost use Rattle.eel_said.specs.Seen.{outside_seen};
ghost use Rattle.eel.specs.Answers.Dump.{Runs};

use eel_base::{Files, Sink, Source};
use eel_reports::{Job, begin, run_machine};
use eel_said::Outcome;
use std::alloc::Global;

/// Reads the program and all of its input, and runs it. What it puts out goes to `out` and `err`.
pub fn run_program<'a, F: Files, I: Source, O: Sink, E: Sink>(
    alloc: Global,
    job: Job<'a>,
    files: &mut F,
    input: &mut I,
    out: &mut O,
    err: &mut E,
) -> Outcome<'a>
    requires few { AreArguments (texts job.args.now) }
    ensures runs { Runs job.entry.file.now job.entry.limit None (texts job.entry.args.now)
        (outside_seen F.Files I.Source O.Sink E.Sink files.old input.old out.old err.old)
        (outside_seen F.Files I.Source O.Sink E.Sink files.new input.new out.new err.new)
        (outcome_seen result) }
    ensures files_faults { F.faults files.old ≤ F.faults files.new }
    ensures input_faults { I.faults input.old ≤ I.faults input.new }
    ensures out_faults { O.faults out.old ≤ O.faults out.new }
    ensures err_faults { E.faults err.old ≤ E.faults err.new }
{
    match begin(alloc, job, files, input) {
        Ok((_, machine)) => run_machine(machine, job.limit, out, err),
        Err(outcome) => outcome,
    }
}
