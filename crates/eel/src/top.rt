//! The one call that the program makes.
ghost use Rattle.std.specs.Prelude.{◌≡◌, ◌≤◌};
ghost use Rattle.eel_said.specs.Command.{command_of};
ghost use Rattle.v8_process.specs.Arguments.{texts};
ghost use Rattle.eel_said.specs.Code.{outcome_seen};
ghost use Rattle.eel_said.specs.Seen.{outside_seen};
ghost use Rattle.eel.specs.Answers.{HasFailed, IsDone, IsRefusal, IsUnchanged, IsUnrefused, Ran, WasWanting, meaning_of};

use crate::demo::demonstrate;
use crate::dumps::run_for_dump;
use crate::edit::edit_file;
use crate::report::report_run;
use crate::run::run_program;
use eel_base::{Files, Sink, Source};
use eel_reports::{Job, assemble_words, restore_original, show_program};
use eel_said::{Command, Outcome, parse};
use std::alloc::Global;

/// Does what the words ask for, with the files and streams given, and answers the status to end with.
pub fn eel<F: Files, I: Source, O: Sink, E: Sink>(
    alloc: Global,
    words: &[&str],
    files: &mut F,
    input: &mut I,
    out: &mut O,
    err: &mut E,
) -> u8
    // What comes of the words, the files and the input, and how it shows.
    ensures ran { Ran (command_of (texts words.now))
        (outside_seen F.Files I.Source O.Sink E.Sink files.old input.old out.old err.old)
        (outside_seen F.Files I.Source O.Sink E.Sink files.new input.new out.new err.new) result }

    // Done: a file is written, a program ran, or lines of it are printed.
    ensures done { result ≡ 0 → IsDone (command_of (texts words.now))
        (outside_seen F.Files I.Source O.Sink E.Sink files.old input.old out.old err.old)
        (outside_seen F.Files I.Source O.Sink E.Sink files.new input.new out.new err.new) }

    // A refusal changes no file and puts nothing out.
    ensures refused { IsRefusal result → IsUnchanged
        (outside_seen F.Files I.Source O.Sink E.Sink files.old input.old out.old err.old)
        (outside_seen F.Files I.Source O.Sink E.Sink files.new input.new out.new err.new) }

    // A program that is made from a number isn't refused.
    ensures unrefused { IsUnrefused (command_of (texts words.now)) result }

    // Nor does want of memory change a file. It puts nothing out, or comes once a program has run.
    ensures wanting { result ≡ 70 → WasWanting (command_of (texts words.now))
        (outside_seen F.Files I.Source O.Sink E.Sink files.old input.old out.old err.old)
        (outside_seen F.Files I.Source O.Sink E.Sink files.new input.new out.new err.new) }

    // A device failed, or the name that is read is missing.
    ensures failed { result ≡ 74 → HasFailed (command_of (texts words.now))
        (outside_seen F.Files I.Source O.Sink E.Sink files.old input.old out.old err.old)
        (outside_seen F.Files I.Source O.Sink E.Sink files.new input.new out.new err.new) }
{
    let outcome = perform(alloc, words, files, input, out, err);
    outcome.show(err)
}

/// Does what the words ask for, and says what came of it.
fn perform<'a, F: Files, I: Source, O: Sink, E: Sink>(
    alloc: Global,
    words: &'a [&'a str],
    files: &mut F,
    input: &mut I,
    out: &mut O,
    err: &mut E,
) -> Outcome<'a>
    ensures follows { (meaning_of (command_of (texts words.now))).follows
        (outside_seen F.Files I.Source O.Sink E.Sink files.old input.old out.old err.old)
        (outside_seen F.Files I.Source O.Sink E.Sink files.new input.new out.new err.new)
        (outcome_seen result) }
    ensures files_faults { F.faults files.old ≤ F.faults files.new }
    ensures input_faults { I.faults input.old ≤ I.faults input.new }
    ensures out_faults { O.faults out.old ≤ O.faults out.new }
    ensures err_faults { E.faults err.old ≤ E.faults err.new }
{
    match parse(words) {
        Command::Edit {
            input,
            output,
            tool,
        } => edit_file(alloc, files, input, output, &tool),
        Command::Run {
            file,
            limit,
            dump: None,
            args,
        } => run_program(alloc, Job { file, limit, args }, files, input, out, err),
        Command::Run {
            file,
            limit,
            dump: Some(dump),
            args,
        } => run_for_dump(
            alloc,
            Job { file, limit, args },
            dump,
            files,
            input,
            out,
            err,
        ),
        Command::Show { shown, file } => show_program(alloc, shown, file, files, out),
        Command::PutWords { listing, output } => assemble_words(alloc, files, listing, output),
        Command::Restore { written, output } => restore_original(alloc, files, written, output),
        Command::ReportRun {
            report,
            written,
            dump,
        } => report_run(alloc, report, files, written, dump, out),
        Command::Demo { number, routines } => demonstrate(alloc, number, routines, out),
        Command::Unknown => Outcome::BadWords,
    }
}
