//! The command `restore`.
ghost use Rattle.std.specs.Prelude.{◌≡◌, ◌≤◌, ◌+◌, IfOk, IfErr, length};
ghost use Rattle.notes.specs.Code.{notes_seen};
ghost use Rattle.eel_said.specs.Code.{outcome_seen};
ghost use Rattle.eel_said.specs.Seen.{files_seen};
ghost use Rattle.eel_said.specs.Shared.{written_limit};
ghost use Rattle.eel_reports.specs.Answers.Steps.{Makes};
ghost use Rattle.eel_reports.specs.Answers.Noted.{IsUnnoted};
ghost use Rattle.eel_reports.specs.Answers.Restore.{HasOriginal, original_in};

use crate::inputs::notes_in;
use crate::texts::{WRITTEN_LIMIT, fetch_file, put_file};
use eel_base::Files;
use eel_said::Outcome;
use notes::Notes;
use std::alloc::Global;

/// Reads `written`, and writes the original that stands in it as `output`.
pub fn restore_original<'a, F: Files>(
    alloc: Global,
    files: &mut F,
    written: &'a str,
    output: &str,
) -> Outcome<'a>
    ensures restores { Makes written_limit (IsUnnoted written.now) HasOriginal written.now output.now
        (files_seen F.Files files.old) (files_seen F.Files files.new) (outcome_seen result) }
    ensures later { F.faults files.old ≤ F.faults files.new }
{
    let bytes = match fetch_file(alloc, files, written, WRITTEN_LIMIT) {
        Ok(bytes) => bytes,
        Err(outcome) => return outcome,
    };
    match original(alloc, written, &bytes) {
        Ok(original) => put_file(files, output, original),
        Err(outcome) => outcome,
    }
}

/// The original in the file `name`.
fn original<'a, 'b>(alloc: Global, name: &'a str, file: &'b [u8]) -> Result<&'b [u8], Outcome<'a>>
    ensures original { IfOk result (λ original. HasOriginal file.now original.now) }
    ensures refused { IfErr result (λ outcome. IsUnnoted name.now file.now (outcome_seen outcome)) }
{
    let notes = notes_in(alloc, name, file)?;
    Ok(original_in(file, &notes))
}

/// The bytes of a file where notes say that the original stands.
pub fn original_in<'a>(file: &'a [u8], notes: &Notes) -> &'a [u8]
    requires { notes.now.delta + notes.now.length ≤ length file.now }
    ensures { result.now ≡ original_in file.now (notes_seen notes.now) }
{
    let start = notes.delta as usize;
    &file[start..start + notes.length as usize]
}
