//! The last edges that a run went along.
ghost use Rattle.std.specs.Prelude.{◌≡◌, ◌<◌, ◌^◌, IfOk, IfErr, length};
ghost use Rattle.notes.specs.Rules.{AreNotes};
ghost use Rattle.notes.specs.Code.{notes_seen};
ghost use Rattle.dump_file.specs.Code.{dump_seen};
ghost use Rattle.eel_said.specs.Code.{outcome_seen};
ghost use Rattle.eel.specs.Code.{EditsAreTraces};
ghost use Rattle.eel.specs.Answers.LastEdges.{IsUntold, TellEdges};
ghost use Rattle.eel.specs.Private.{untold_of};

use dump_file::Dump;
use edge_ring::{RingFault, last_edges, ring_lines};
use eel_said::{CountCause, Outcome};
use notes::Notes;
use std::alloc::Global;

/// The lines of the last edges by the notes of the file `written` and by the dump `dump`.
pub fn edge_lines<'a>(
    alloc: Global,
    written: &'a str,
    dump: &'a str,
    notes: &Notes,
    state: &Dump,
) -> Result<Vec<u8>, Outcome<'a>>
    requires rules { AreNotes (notes_seen notes.now) }
    requires few { length state.now.cells.items < 2 ^ 32 }
    ensures lines { IfOk result (λ lines. TellEdges (notes_seen notes.now) (dump_seen state.now) lines.items) }
    ensures refused { IfErr result (λ outcome.
        IsUntold written.now dump.now (notes_seen notes.now) (dump_seen state.now) (outcome_seen outcome)) }
{
    let edges = last_edges(alloc, notes, state).map_err(|fault| refusal(written, dump, fault))?;
    Ok(ring_lines(alloc, notes, &edges)?)
}

/// A file that was made with a ring is a trace, whose last edges are told.
pub fn edits_are_traces()
    ensures { EditsAreTraces }
{}

/// What a refusal to tell the edges of the file `written` by the dump `dump` comes to.
fn refusal<'a>(written: &'a str, dump: &'a str, fault: RingFault) -> Outcome<'a>
    ensures { outcome_seen result ≡ untold_of written.now dump.now fault }
{
    let cause = match fault {
        RingFault::NoTrace => return Outcome::NoTrace { name: written },
        RingFault::Version { dump, notes } => CountCause::Version { dump, notes },
        RingFault::Other { length, wanted } => CountCause::Length { length, wanted },
        RingFault::Shape { cells, wanted } => CountCause::Shape { cells, wanted },
        RingFault::Between(pc) => CountCause::Between(pc),
        RingFault::Entry { cell, value } => {
            return Outcome::BadCell {
                name: dump,
                cell,
                value,
            };
        }
        RingFault::NoMemory => return Outcome::OutOfMemory,
    };
    Outcome::NoCounts { name: dump, cause }
}
