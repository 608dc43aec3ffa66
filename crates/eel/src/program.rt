//! The call that `main` makes: the words behind the name of the program are a command.
ghost use Rattle.std.specs.Prelude.{◌≡◌, drop, map, string_bytes, IfOk, OnErr};
ghost use Rattle.eel_said.specs.Command.{command_of};
ghost use Rattle.v8_process.specs.Arguments.{texts};
ghost use Rattle.eel_said.specs.Seen.{outside_seen};
ghost use Rattle.eel.specs.Answers.{HasFailed, IsDone, IsRefusal, IsUnchanged, IsUnrefused, Ran, WasWanting};

use crate::top::eel;
use eel_base::{Files, Sink, Source};
use std::alloc::{AllocError, Global};

/// The words after the program's name.
pub fn words_given<'a>(alloc: Global, all: &'a [String]) -> Result<Vec<&'a str>, AllocError>
    ensures { IfOk result (λ words. texts words.items ≡ map string_bytes (drop 1 all.now)) }
{
    all.iter().skip(1).map(|word| word.as_str()).collect(alloc)
}

/// Runs the command that the words after the program's name are, with the files and streams given, and answers the
/// status to end with.
pub fn run_words<F: Files, I: Source, O: Sink, E: Sink>(
    alloc: Global,
    all: &[String],
    files: &mut F,
    input: &mut I,
    out: &mut O,
    err: &mut E,
) -> Result<u8, AllocError>
    // What comes of the words, the files and the input, and how it shows.
    ensures ran { IfOk result (Ran (command_of (map string_bytes (drop 1 all.now)))
        (outside_seen F.Files I.Source O.Sink E.Sink files.old input.old out.old err.old)
        (outside_seen F.Files I.Source O.Sink E.Sink files.new input.new out.new err.new)) }

    // So it is by the status, as with `eel`.
    ensures done { IfOk result (λ status. status ≡ 0 → IsDone (command_of (map string_bytes (drop 1 all.now)))
        (outside_seen F.Files I.Source O.Sink E.Sink files.old input.old out.old err.old)
        (outside_seen F.Files I.Source O.Sink E.Sink files.new input.new out.new err.new)) }
    ensures refused { IfOk result (λ status. IsRefusal status → IsUnchanged
        (outside_seen F.Files I.Source O.Sink E.Sink files.old input.old out.old err.old)
        (outside_seen F.Files I.Source O.Sink E.Sink files.new input.new out.new err.new)) }
    ensures unrefused { IfOk result (IsUnrefused (command_of (map string_bytes (drop 1 all.now)))) }
    ensures wanting { IfOk result (λ status. status ≡ 70 → WasWanting (command_of (map string_bytes (drop 1 all.now)))
        (outside_seen F.Files I.Source O.Sink E.Sink files.old input.old out.old err.old)
        (outside_seen F.Files I.Source O.Sink E.Sink files.new input.new out.new err.new)) }
    ensures failed { IfOk result (λ status. status ≡ 74 → HasFailed (command_of (map string_bytes (drop 1 all.now)))
        (outside_seen F.Files I.Source O.Sink E.Sink files.old input.old out.old err.old)
        (outside_seen F.Files I.Source O.Sink E.Sink files.new input.new out.new err.new)) }

    // Where the words can't be had, nothing has changed.
    ensures unrun { OnErr result (
        outside_seen F.Files I.Source O.Sink E.Sink files.new input.new out.new err.new
        ≡ outside_seen F.Files I.Source O.Sink E.Sink files.old input.old out.old err.old) }
{
    let words = words_given(alloc, all)?;
    Ok(eel(alloc, &words, files, input, out, err))
}
