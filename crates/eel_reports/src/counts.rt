//! How often each edge was completed.
ghost use Rattle.std.specs.Prelude.{◌≡◌, ◌<◌, ◌^◌, IfOk, IfErr, length};
ghost use Rattle.notes.specs.Rules.{AreNotes};
ghost use Rattle.notes.specs.Code.{notes_seen};
ghost use Rattle.dump_file.specs.Code.{dump_seen};
ghost use Rattle.eel_said.specs.Code.{outcome_seen};
ghost use Rattle.count_rebuild.specs.declared.fault.CountFault.{CountFault as FaultSeen};
ghost use Rattle.count_rebuild.specs.declared.fault.CountFault.TheVariants as faults;
ghost use Rattle.count_rebuild.specs.Answers.{AreCounts};
ghost use Rattle.count_rebuild.specs.Code.{IsRefused};
ghost use Rattle.eel_reports.specs.Answers.Counts.{IsUncounted, TellCounts};
ghost use Rattle.eel_reports.specs.Private.{uncounted_of};

use count_rebuild::{CountFault, rebuild};
use dump_file::Dump;
use eel_base::NoMemory;
use eel_said::{CountCause, Outcome};
use notes::Notes;
use show_text::counts;
use std::alloc::Global;

/// The lines of the counts by the notes of the file `written` and by the dump `dump`.
pub fn count_lines<'a>(
    alloc: Global,
    written: &'a str,
    dump: &'a str,
    notes: &Notes,
    state: &Dump,
) -> Result<Vec<u8>, Outcome<'a>>
    requires rules { AreNotes (notes_seen notes.now) }
    requires few { length state.now.cells.items < 2 ^ 32 }
    ensures lines { IfOk result (λ lines. TellCounts (notes_seen notes.now) (dump_seen state.now) lines.items) }
    ensures refused { IfErr result (λ outcome.
        IsUncounted written.now dump.now (notes_seen notes.now) (dump_seen state.now) (outcome_seen outcome)) }
{
    let times = rebuild(alloc, notes, state).map_err(|fault| refusal(written, dump, fault))?;
    Ok(counts(alloc, notes, &times)?)
}

/// How often each edge was completed, by a dump that tells it.
pub fn counts_of(alloc: Global, notes: &Notes, dump: &Dump) -> Result<Vec<u64>, NoMemory>
    requires rules { AreNotes (notes_seen notes.now) }
    requires few { length dump.now.cells.items < 2 ^ 32 }
    requires tells { (fault : FaultSeen) → IsRefused (notes_seen notes.now) (dump_seen dump.now) fault
        → fault ≡ faults.NoMemory }
    ensures { IfOk result (λ counts. AreCounts (notes_seen notes.now) (dump_seen dump.now) counts.items) }
{
    match rebuild(alloc, notes, dump) {
        Ok(counts) => Ok(counts),
        Err(CountFault::NoMemory) => Err(NoMemory),
        Err(_) => unreachable!(),
    }
}

/// What refused counts of the file `written` by the dump `dump` come to.
pub fn refusal<'a>(written: &'a str, dump: &'a str, fault: CountFault) -> Outcome<'a>
    ensures { outcome_seen result ≡ uncounted_of written.now dump.now fault }
{
    let cause = match fault {
        CountFault::NoProfile => return Outcome::NoProfile { name: written },
        CountFault::Version { dump, notes } => CountCause::Version { dump, notes },
        CountFault::Other { length, wanted } => CountCause::Length { length, wanted },
        CountFault::Shape { cells, wanted } => CountCause::Shape { cells, wanted },
        CountFault::TooLong(steps) => CountCause::Steps(steps),
        CountFault::Between(pc) => CountCause::Between(pc),
        CountFault::Negative { edge, value } => CountCause::Negative { edge, value },
        CountFault::Large { edge, value } => CountCause::Large { edge, value },
        CountFault::NoMemory => return Outcome::OutOfMemory,
    };
    Outcome::NoCounts { name: dump, cause }
}
