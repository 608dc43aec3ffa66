//! The command `demo`.
ghost use Rattle.std.specs.Prelude.{◌≡◌, ◌≤◌, ◌<◌, ◌^◌, ℕ, [], IfErr, IfOk, None, length};
ghost use Rattle.elf32_sparc.specs.FileFault.{load_fault};
ghost use Rattle.cfg_view.specs.View.{view_of};
ghost use Rattle.cfg_view.specs.Code.{view_seen, IsView};
ghost use Rattle.v8_step.specs.declared.Ending.{Ending as EndingSeen};
ghost use Rattle.notes.specs.Rules.{AreNotes};
ghost use Rattle.notes.specs.Code.{notes_seen};
ghost use Rattle.dump_file.specs.Code.{dump_seen};
ghost use Rattle.count_rebuild.specs.declared.fault.CountFault.TheVariants as faults;
ghost use Rattle.eel_said.specs.Outcome.{OutOfMemory, Stream};
ghost use Rattle.eel_said.specs.Code.{outcome_seen};
ghost use Rattle.eel_said.specs.Seen.{stream_seen};
ghost use Rattle.eel_said.specs.Shared.{Feed, Store, outside};
ghost use Rattle.eel_reports.specs.Answers.Demo.{EndsAlone, IsTold, TellOf, Tells, alone, walk_alone};
ghost use Rattle.eel_reports.specs.Tame.{EndsWithin, IsTame};
ghost use Rattle.eel.specs.Answers.Dump.{IsNoted};
ghost use Rattle.eel.specs.Private.{IsProfileOf, guessed, IsLastDump};

use crate::dumps::dump_of;
use crate::edit::refusal;
use crate::instrumentation::{Instrumentation, edit_by};
use cfg_view::View;
use dump_file::Dump;
use eel_base::{NoMemory, Sink};
use eel_reports::{
    counts_of, demo_lines, heaviest_tree, notes_in, print, run_alone, run_to_end, size_of,
    start_alone, view_in,
};
use eel_said::Outcome;
use notes::Notes;
use show_text::sum;
use std::alloc::Global;
use workload::make;

/// What the program is called in a refusal. There is none but for want of memory.
const NAME: &str = "demo";

/// Makes a program of so many routines from the number, edits it with counters, runs both, and prints what is told of
/// them.
pub fn demonstrate<O: Sink>(
    alloc: Global,
    number: u32,
    routines: u32,
    out: &mut O,
) -> Outcome<'static>
    requires some { 1 ≤ routines }
    requires few { routines ≤ 100000 }
    // Whatever the files, the input and the error stream are, they stay so.
    ensures tells { (files : Store) (feed : Feed) (err : Stream) → Tells number routines
        (outside files feed (stream_seen O.Sink out.old) err)
        (outside files feed (stream_seen O.Sink out.new) err)
        (outcome_seen result) }
    ensures later { O.faults out.old ≤ O.faults out.new }
{
    match lines_of_demo(alloc, number, routines) {
        Ok(lines) => print(out, &lines),
        Err(outcome) => outcome,
    }
}

/// The lines that are printed.
fn lines_of_demo(alloc: Global, number: u32, routines: u32) -> Result<Vec<u8>, Outcome<'static>>
    requires some { 1 ≤ routines }
    requires few { routines ≤ 100000 }
    ensures lines { IfOk result (λ lines. IsTold number routines lines.items) }
    ensures wanting { IfErr result (λ outcome. outcome_seen outcome ≡ OutOfMemory) }
{
    let original = make(alloc, number, routines)?;
    let lines = told_of(alloc, number, routines, &original)?;
    Ok(lines)
}

/// The lines on a program.
fn told_of(
    alloc: Global,
    number: u32,
    routines: u32,
    original: &[u8],
) -> Result<Vec<u8>, Outcome<'static>>
    requires { IsTame original.now }
    ensures lines { IfOk result (λ lines. TellOf number routines original.now lines.items) }
    ensures wanting { IfErr result (λ outcome. outcome_seen outcome ≡ OutOfMemory) }
{
    let view = view_in(alloc, NAME, original)?;
    let end = run_alone(alloc, original)?;
    let executions = executions(alloc, original, &view)?;
    let lines = demo_lines(alloc, number, routines, size_of(&view), end, executions)?;
    Ok(lines)
}

// ---- how often edges are completed

/// How often the program's run completes edges in all, as the cells of its profile tell.
fn executions(alloc: Global, original: &[u8], view: &View) -> Result<u128, Outcome<'static>>
    requires tame { IsTame original.now }
    requires view { view_seen view.now ≡ view_of original.now [] }
    requires whole { IsView view.now }
    ensures sum { IfOk result (λ sum. (ending : EndingSeen) (steps : ℕ) → EndsAlone original.now ending steps
        → sum ≡ length (walk_alone original.now steps)) }
    ensures wanting { IfErr result (λ outcome. outcome_seen outcome ≡ OutOfMemory) }
{
    let written = profile(alloc, original, view)?;
    let notes = notes_in(alloc, NAME, &written)?;
    let dump = last_dump(alloc, &written, &notes)?;
    let counts = counts_of(alloc, &notes, &dump)?;
    Ok(sum(&counts))
}

/// The program with counters.
fn profile(alloc: Global, original: &[u8], view: &View) -> Result<Vec<u8>, Outcome<'static>>
    requires tame { IsTame original.now }
    requires view { view_seen view.now ≡ view_of original.now [] }
    requires whole { IsView view.now }
    ensures written { IfOk result (λ written. IsProfileOf (guessed original.now) original.now written.items) }
    ensures wanting { IfErr result (λ outcome. outcome_seen outcome ≡ OutOfMemory) }
{
    let tree = heaviest_tree(alloc, view)?;
    match edit_by(
        alloc,
        original,
        view,
        Vec::new(alloc),
        Instrumentation::Counters(tree),
    ) {
        Ok(written) => Ok(written),
        Err(fault) => Err(refusal(NAME, fault)),
    }
}

/// What the run of a file with notes comes to.
fn last_dump(alloc: Global, written: &[u8], notes: &Notes) -> Result<Dump, NoMemory>
    requires loads { load_fault written.now ≡ None }
    requires rules { AreNotes (notes_seen notes.now) }
    requires noted { IsNoted written.now (notes_seen notes.now) }
    requires ends { EndsWithin (alone written.now) (2 ^ 32) }
    ensures dump { IfOk result (λ dump. IsLastDump written.now (notes_seen notes.now) (dump_seen dump)) }
    ensures few { IfOk result (λ dump. length dump.cells.items < 2 ^ 32) }
{
    let mut machine = start_alone(alloc, written)?;
    let end = run_to_end(&mut machine);
    let dump = dump_of(alloc, &machine, notes, end.steps)?;
    Ok(dump)
}
