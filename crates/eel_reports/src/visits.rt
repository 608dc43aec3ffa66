//! How often each instruction ran.
ghost use Rattle.std.specs.Prelude.{◌≡◌, ◌≤◌, ◌+◌, ◌<◌, ◌^◌, ℕ, IfErr, IfOk, List, length};
ghost use Rattle.notes.specs.Rules.{AreNotes};
ghost use Rattle.notes.specs.Code.{notes_seen};
ghost use Rattle.dump_file.specs.Code.{dump_seen};
ghost use Rattle.cfg_view.specs.Code.{view_seen, IsView};
ghost use Rattle.instr_counts.specs.Answers.{AreVisits};
ghost use Rattle.instr_counts.specs.Lines.{visit_lines};
ghost use Rattle.instr_counts.specs.Matches.{Matches};
ghost use Rattle.eel_said.specs.Code.{outcome_seen};
ghost use Rattle.eel_reports.specs.Answers.Restore.{original_in};
ghost use Rattle.eel_reports.specs.Answers.Every.{every_view};
ghost use Rattle.eel_reports.specs.Answers.Visits.{HasEveryWord, IsUnvisited, TellVisits};
ghost use Rattle.eel_reports.specs.Private.{IsNotEveryWord};
ghost use Rattle.eel_reports.specs.Refusals.{unmarked_of};

use crate::counts::refusal;
use crate::every::look_at_words;
use crate::restore::original_in;
use cfg_view::View;
use count_rebuild::rebuild;
use dump_file::Dump;
use eel_base::NoMemory;
use eel_said::Outcome;
use elf32_sparc::ReadFault;
use instr_counts::{lines, matches, visits};
use notes::Notes;
use std::alloc::Global;

/// The lines of the visits by the notes of the file `written` and by the dump `dump`.
pub fn visit_lines<'a>(
    alloc: Global,
    written: &'a str,
    file: &[u8],
    dump: &'a str,
    notes: &Notes,
    state: &Dump,
) -> Result<Vec<u8>, Outcome<'a>>
    requires rules { AreNotes (notes_seen notes.now) }
    requires inside { notes.now.delta + notes.now.length ≤ length file.now }
    requires few { length state.now.cells.items < 2 ^ 32 }
    ensures lines { IfOk result (λ lines.
        TellVisits file.now (notes_seen notes.now) (dump_seen state.now) lines.items) }
    ensures refused { IfErr result (λ outcome. IsUnvisited written.now file.now dump.now (notes_seen notes.now)
        (dump_seen state.now) (outcome_seen outcome)) }
{
    let view = every_word_in(alloc, written, file, notes)?;
    let times = match rebuild(alloc, notes, state) {
        Ok(times) => times,
        Err(fault) => return Err(refusal(written, dump, fault)),
    };
    let lines = lines_of_visits(alloc, &view, notes, state, &times)?;
    Ok(lines)
}

/// The view of the original in the file `name` with every word marked, if the notes are of it.
fn every_word_in<'a>(
    alloc: Global,
    name: &'a str,
    file: &[u8],
    notes: &Notes,
) -> Result<View, Outcome<'a>>
    requires { notes.now.delta + notes.now.length ≤ length file.now }
    ensures view { IfOk result (λ view. view_seen view ≡ every_view (original_in file.now (notes_seen notes.now))) }
    ensures whole { IfOk result IsView }
    ensures every { IfOk result (λ view. HasEveryWord file.now (notes_seen notes.now)) }
    ensures refused { IfErr result (λ outcome.
        IsNotEveryWord name.now file.now (notes_seen notes.now) (outcome_seen outcome)) }
{
    let view = match look_at_words(alloc, original_in(file, notes)) {
        Ok((view, _)) => view,
        Err(fault) => return Err(unmarked(name, fault)),
    };
    if matches(&view, notes) {
        Ok(view)
    } else {
        Err(Outcome::NotEveryWord { name })
    }
}

/// What a fault of the original in the file `name` comes to.
fn unmarked<'a>(name: &'a str, fault: ReadFault) -> Outcome<'a>
    ensures { outcome_seen result ≡ unmarked_of name.now fault }
{
    match fault {
        ReadFault::File(_) => Outcome::NotEveryWord { name },
        ReadFault::NoMemory => Outcome::OutOfMemory,
    }
}

/// The lines of how often the words of a view were visited, by the counts of its edges and by where a run stands.
fn lines_of_visits(
    alloc: Global,
    view: &View,
    notes: &Notes,
    state: &Dump,
    times: &[u64],
) -> Result<Vec<u8>, NoMemory>
    requires view { IsView view.now }
    requires matches { Matches (view_seen view.now) (notes_seen notes.now) }
    requires counts { length times.now ≡ length notes.now.edges.items }
    ensures { IfOk result (λ lines. (visits : List ℕ)
        × AreVisits (view_seen view.now) (notes_seen notes.now) (dump_seen state.now) times.now visits
        × (lines.items ≡ visit_lines view.now.image.text visits)) }
{
    let visits = visits(alloc, view, notes, state, times)?;
    lines(alloc, view, &visits)
}
