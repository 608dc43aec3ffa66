//! The commands `counts`, `visits` and `trace`: what is told of a run by its dump.
ghost use Rattle.std.specs.Prelude.{◌≡◌, ◌≤◌, ◌+◌, ◌<◌, ◌^◌, IfOk, IfErr, length};
ghost use Rattle.notes.specs.Rules.{AreNotes};
ghost use Rattle.notes.specs.Code.{notes_seen};
ghost use Rattle.dump_file.specs.Code.{dump_seen};
ghost use Rattle.eel_said.specs.Outcome.{Stream};
ghost use Rattle.eel_said.specs.Code.{outcome_seen};
ghost use Rattle.eel_said.specs.Seen.{files_seen, stream_seen};
ghost use Rattle.eel_said.specs.Shared.{Feed, outside};
ghost use Rattle.eel.specs.Answers.Report.{IsRefused, IsReported, IsUnreported, Reports, Tell};

use crate::last_edges::edge_lines;
use dump_file::Dump;
use eel_base::{Files, Sink};
use eel_reports::{WRITTEN_LIMIT, count_lines, dump_in, fetch_file, notes_in, print, visit_lines};
use eel_said::{Outcome, Report};
use notes::Notes;
use std::alloc::Global;

/// How many bytes a dump may have.
const DUMP_LIMIT: u64 = 64 << 20;

/// Reads the file `written` and the dump `dump` of a run of it, and prints what is asked for.
pub fn report_run<'a, F: Files, O: Sink>(
    alloc: Global,
    report: Report,
    files: &mut F,
    written: &'a str,
    dump: &'a str,
    out: &mut O,
) -> Outcome<'a>
    // Whatever the input and the error stream are, they stay so.
    ensures reports { (feed : Feed) (err : Stream) → Reports report written.now dump.now
        (outside (files_seen F.Files files.old) feed (stream_seen O.Sink out.old) err)
        (outside (files_seen F.Files files.new) feed (stream_seen O.Sink out.new) err)
        (outcome_seen result) }
    ensures kept { F.held files.new ≡ F.held files.old }
    ensures files_faults { F.faults files.old ≤ F.faults files.new }
    ensures out_faults { O.faults out.old ≤ O.faults out.new }
{
    let file = match fetch_file(alloc, files, written, WRITTEN_LIMIT) {
        Ok(file) => file,
        Err(outcome) => return outcome,
    };
    let bytes = match fetch_file(alloc, files, dump, DUMP_LIMIT) {
        Ok(bytes) => bytes,
        Err(outcome) => return outcome,
    };
    match report_lines(alloc, report, written, &file, dump, &bytes) {
        Ok(lines) => print(out, &lines),
        Err(outcome) => outcome,
    }
}

/// The lines of what the file `written` and the dump `dump` tell.
fn report_lines<'a>(
    alloc: Global,
    report: Report,
    written: &'a str,
    file: &[u8],
    dump: &'a str,
    bytes: &[u8],
) -> Result<Vec<u8>, Outcome<'a>>
    ensures lines { IfOk result (λ lines. IsReported report file.now bytes.now lines.items) }
    ensures refused { IfErr result (λ outcome.
        IsUnreported report written.now file.now dump.now bytes.now (outcome_seen outcome)) }
{
    let notes = notes_in(alloc, written, file)?;
    let state = dump_in(alloc, dump, bytes)?;
    let lines = lines_of_report(alloc, report, written, file, dump, &notes, &state)?;
    Ok(lines)
}

/// The lines of what the notes of the file `written` and the dump `dump` tell.
fn lines_of_report<'a>(
    alloc: Global,
    report: Report,
    written: &'a str,
    file: &[u8],
    dump: &'a str,
    notes: &Notes,
    state: &Dump,
) -> Result<Vec<u8>, Outcome<'a>>
    requires rules { AreNotes (notes_seen notes.now) }
    requires inside { notes.now.delta + notes.now.length ≤ length file.now }
    requires few { length state.now.cells.items < 2 ^ 32 }
    ensures lines { IfOk result (λ lines.
        Tell report file.now (notes_seen notes.now) (dump_seen state.now) lines.items) }
    ensures refused { IfErr result (λ outcome. IsRefused report written.now file.now dump.now (notes_seen notes.now)
        (dump_seen state.now) (outcome_seen outcome)) }
{
    match report {
        Report::Counts => count_lines(alloc, written, dump, notes, state),
        Report::Visits => visit_lines(alloc, written, file, dump, notes, state),
        Report::LastEdges => edge_lines(alloc, written, dump, notes, state),
    }
}
