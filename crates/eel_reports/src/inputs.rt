//! What files that are read hold: the view of a program, the notes of a written file, the dump of a run.
ghost use Rattle.std.specs.Prelude.{◌≡◌, ◌≤◌, ◌+◌, ◌<◌, ◌^◌, [], IfOk, IfErr, Ok, length};
ghost use Rattle.notes.specs.Format.{notes_of};
ghost use Rattle.cfg_view.specs.View.{view_of};
ghost use Rattle.cfg_view.specs.Code.{view_seen, IsView};
ghost use Rattle.notes.specs.Rules.{AreNotes};
ghost use Rattle.notes.specs.Code.{notes_seen};
ghost use Rattle.dump_file.specs.Code.{dump_seen};
ghost use Rattle.dump_file.specs.Reading.{read_dump};
ghost use Rattle.eel_said.specs.Code.{outcome_seen};
ghost use Rattle.eel_reports.specs.Answers.Files.{IsNotSound, IsSound};
ghost use Rattle.eel_reports.specs.Answers.Noted.{IsUndumped, IsUnnoted};
ghost use Rattle.eel_reports.specs.Refusals.{unsound_of};

use cfg_view::{View, look};
use dump_file::{Dump, DumpFault, read_dump};
use eel_said::Outcome;
use elf32_sparc::ReadFault;
use notes::{Notes, NotesFault, read_notes};
use std::alloc::Global;

/// The view of the file `name`.
pub fn view_in<'a>(alloc: Global, name: &'a str, bytes: &[u8]) -> Result<View, Outcome<'a>>
    ensures view { IfOk result (λ view. view_seen view ≡ view_of bytes.now []) }
    ensures whole { IfOk result IsView }
    ensures sound { IfOk result (λ view. IsSound bytes.now) }
    ensures refused { IfErr result (λ outcome. IsNotSound name.now bytes.now (outcome_seen outcome)) }
{
    match look(alloc, bytes, &[]) {
        Ok(view) => Ok(view),
        Err(fault) => Err(unsound(name, fault)),
    }
}

/// What a fault of the program that the file `name` is to be comes to.
pub fn unsound<'a>(name: &'a str, fault: ReadFault) -> Outcome<'a>
    ensures { outcome_seen result ≡ unsound_of name.now fault }
{
    match fault {
        ReadFault::File(fault) => Outcome::BadFile {
            name,
            code: fault.code(),
        },
        ReadFault::NoMemory => Outcome::OutOfMemory,
    }
}

/// The notes of the file `name`.
pub fn notes_in<'a>(alloc: Global, name: &'a str, file: &[u8]) -> Result<Notes, Outcome<'a>>
    ensures notes { IfOk result (λ notes. notes_of file.now ≡ Ok (notes_seen notes)) }
    ensures rules { IfOk result (λ notes. AreNotes (notes_seen notes)) }
    ensures inside { IfOk result (λ notes. notes.delta + notes.length ≤ length file.now) }
    ensures refused { IfErr result (λ outcome. IsUnnoted name.now file.now (outcome_seen outcome)) }
{
    match read_notes(alloc, file) {
        Ok(notes) => Ok(notes),
        Err(NotesFault::Absent) => Err(Outcome::NoNotes { name }),
        Err(NotesFault::Bad(at)) => Err(Outcome::BadNotes { name, at }),
        Err(NotesFault::NoMemory) => Err(Outcome::OutOfMemory),
    }
}

/// The dump that the file `name` is.
pub fn dump_in<'a>(alloc: Global, name: &'a str, bytes: &[u8]) -> Result<Dump, Outcome<'a>>
    ensures dump { IfOk result (λ dump. read_dump bytes.now ≡ Ok (dump_seen dump)) }
    ensures few { IfOk result (λ dump. length dump.cells.items < 2 ^ 32) }
    ensures refused { IfErr result (λ outcome. IsUndumped name.now bytes.now (outcome_seen outcome)) }
{
    match read_dump(alloc, bytes) {
        Ok(dump) => Ok(dump),
        Err(DumpFault::Bad(at)) => Err(Outcome::BadDump { name, at }),
        Err(DumpFault::NoMemory) => Err(Outcome::OutOfMemory),
    }
}
