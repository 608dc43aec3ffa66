//! The command `run` with a dump.
ghost use Rattle.std.specs.Prelude.{◌≡◌, ◌≤◌, ◌<◌, ◌+◌, ◌*◌, ◌%◌, ◌^◌, ℕ, IfOk, IfErr, Some, vec_len};
ghost use Rattle.std.specs.List.{list_any};
ghost use Rattle.elf32_sparc.specs.Mapping.{mappings};
ghost use Rattle.notes.specs.Rules.{AreNotes};
ghost use Rattle.notes.specs.Code.{notes_seen};
ghost use Rattle.v8_process.specs.Arguments.{AreArguments, texts};
ghost use Rattle.snippet_code.specs.Cells.{cell_at, words_at};
ghost use Rattle.code_runs.specs.Code.{CanLoad};
ghost use Rattle.code_runs.specs.StoredWords.{memory_word};
ghost use Rattle.dump_file.specs.Code.{dump_seen};
ghost use Rattle.dump_file.specs.Written.{dump_bytes as dump_bytes_of};
ghost use Rattle.eel_said.specs.Code.{outcome_seen};
ghost use Rattle.eel_said.specs.Seen.{files_seen, outside_seen, stream_seen};
ghost use Rattle.eel_said.specs.Shared.{Feed, outside};
ghost use Rattle.edit_core.specs.Faithful.{holds_cells};
ghost use Rattle.exact_counts.specs.Stops.{length_told as length_told_of, dump_of as dump_of_state};
ghost use Rattle.eel.specs.Private.{was_broken as was_broken_of, IsPutAfter};
ghost use Rattle.eel.specs.Answers.Dump.{Runs, IsDumped, IsNotNoted, IsNoted};
ghost use Rattle.eel.specs.Cells.{AreLoadable, KeepCells, has_cells as has_cells_of};

use bitflags::Flags;
use dump_file::{Dump, write_dump};
use eel_base::{Addr, Files, NoMemory, PutFault, Sink, Source};
use eel_reports::{Job, begin, notes_in, outcome_of};
use eel_said::Outcome;
use elf32_sparc::{SegFlags, Segment, read_segments};
use notes::Notes;
use std::alloc::Global;
use v8_memory::Memory;
use v8_runner::{Stop, run};
use v8_step::Machine;

/// The offset of the cells' address in notes.
const BASE_AT: u32 = 24;

/// The version of notes whose dumps don't tell the size of the original.
const NARROW: u32 = 1;

/// Reads the program and all of its input, runs it, and writes what the run has come to as the file `dump`.
pub fn run_for_dump<'a, F: Files, I: Source, O: Sink, E: Sink>(
    alloc: Global,
    job: Job<'a>,
    dump: &str,
    files: &mut F,
    input: &mut I,
    out: &mut O,
    err: &mut E,
) -> Outcome<'a>
    requires few { AreArguments (texts job.args.now) }
    ensures dumps { Runs job.entry.file.now job.entry.limit (Some dump.now) (texts job.entry.args.now)
        (outside_seen F.Files I.Source O.Sink E.Sink files.old input.old out.old err.old)
        (outside_seen F.Files I.Source O.Sink E.Sink files.new input.new out.new err.new)
        (outcome_seen result) }
    ensures files_faults { F.faults files.old ≤ F.faults files.new }
    ensures input_faults { I.faults input.old ≤ I.faults input.new }
    ensures out_faults { O.faults out.old ≤ O.faults out.new }
    ensures err_faults { E.faults err.old ≤ E.faults err.new }
{
    let (bytes, machine) = match begin(alloc, job, files, input) {
        Ok(begun) => begun,
        Err(outcome) => return outcome,
    };
    let notes = match noted(alloc, job.file, &bytes) {
        Ok(notes) => notes,
        Err(outcome) => return outcome,
    };
    let dumping = Dumping {
        limit: job.limit,
        notes: &notes,
        name: dump,
    };
    dump_machine(alloc, machine, dumping, files, out, err)
}

// ---- the notes

/// The notes of the file `name`, whose cells lie in a segment that may be read.
fn noted<'a>(alloc: Global, name: &'a str, bytes: &[u8]) -> Result<Notes, Outcome<'a>>
    ensures noted { IfOk result (λ notes. IsNoted bytes.now (notes_seen notes)) }
    ensures rules { IfOk result (λ notes. AreNotes (notes_seen notes)) }
    ensures refused { IfErr result (λ outcome. IsNotNoted name.now bytes.now (outcome_seen outcome)) }
{
    let notes = notes_in(alloc, name, bytes)?;
    if notes.cells == 0 || are_mapped(alloc, bytes, notes.base, notes.cells)? {
        Ok(notes)
    } else {
        Err(Outcome::BadNotes { name, at: BASE_AT })
    }
}

/// The cells lie in one segment that may be read.
#[tactic(auto, using(crate::proofs::Cells::segments_mapped))]
fn are_mapped(alloc: Global, bytes: &[u8], base: u32, count: u32) -> Result<bool, NoMemory>
    ensures { IfOk result (λ mapped. mapped ≡ list_any (holds_cells base count) (mappings bytes.now)) }
{
    let segments = read_segments(alloc, bytes)?;
    Ok(any_has_cells(&segments, base, count))
}

fn any_has_cells(segments: &[Segment], base: u32, count: u32) -> bool
    ensures { result ≡ list_any (has_cells_of base count) segments.now }
{
    segments
        .iter()
        .any(|segment| has_cells(segment, base, count))
}

fn has_cells(segment: &Segment, base: u32, count: u32) -> bool
    ensures { result ≡ has_cells_of base count segment.now }
{
    let end = u64::from(base) + 4 * u64::from(count);
    segment.vaddr.0 <= base
        && end <= u64::from(segment.vaddr.0) + u64::from(segment.memsz)
        && segment.flags.contains(SegFlags::PF_R)
}

// ---- the run

/// After how many steps at most a run is dumped, by which notes, and under which name.
#[derive(Clone, Copy)]
struct Dumping<'a> {
    limit: u64,
    notes: &'a Notes,
    name: &'a str,
}

/// Runs the machine, and puts what it has come to as a file.
fn dump_machine<F: Files, O: Sink, E: Sink>(
    alloc: Global,
    mut machine: Machine,
    dumping: Dumping,
    files: &mut F,
    out: &mut O,
    err: &mut E,
) -> Outcome<'static>
    requires rules { AreNotes (notes_seen dumping.notes.now) }
    requires cells { KeepCells (notes_seen dumping.notes.now) machine }
    ensures dumped { (input : Feed) → IsDumped (notes_seen dumping.entry.notes.now) machine dumping.entry.limit dumping.entry.name.now
        (outside (files_seen F.Files files.old) input (stream_seen O.Sink out.old) (stream_seen E.Sink err.old))
        (outside (files_seen F.Files files.new) input (stream_seen O.Sink out.new) (stream_seen E.Sink err.new))
        (outcome_seen result) }
    ensures files_faults { F.faults files.old ≤ F.faults files.new }
    ensures out_faults { O.faults out.old ≤ O.faults out.new }
    ensures err_faults { E.faults err.old ≤ E.faults err.new }
{
    let end = run(&mut machine, dumping.limit, out, err);
    if was_broken(end.stop) {
        return Outcome::DeviceFault;
    }
    let bytes = match dump_bytes(alloc, &machine, dumping.notes, end.steps) {
        Ok(bytes) => bytes,
        Err(NoMemory) => return Outcome::OutOfMemory,
    };
    put_dump(files, dumping.name, &bytes, outcome_of(end))
}

/// The run was broken off.
fn was_broken(stop: Stop) -> bool
    ensures { result ≡ was_broken_of stop }
{
    matches!(stop, Stop::SinkFault)
}

/// Puts the bytes as the file `name`, and where that is done answers what the run has come to.
fn put_dump<F: Files>(
    files: &mut F,
    name: &str,
    bytes: &[u8],
    ended: Outcome<'static>,
) -> Outcome<'static>
    ensures put { IsPutAfter (files_seen F.Files files.old) (files_seen F.Files files.new) name.now bytes.now
        (outcome_seen ended.entry) (outcome_seen result) }
    ensures later { F.faults files.old ≤ F.faults files.new }
{
    match files.put(name, bytes) {
        Ok(()) => ended,
        Err(PutFault::NoMemory) => Outcome::OutOfMemory,
        Err(PutFault::Failed) => Outcome::DeviceFault,
    }
}

/// The bytes of the dump of a machine after so many steps.
fn dump_bytes(
    alloc: Global,
    machine: &Machine,
    notes: &Notes,
    steps: u64,
) -> Result<Vec<u8>, NoMemory>
    requires rules { AreNotes (notes_seen notes.now) }
    requires cells { AreLoadable (notes_seen notes.now) machine.now.memory }
    ensures { IfOk result (λ bytes. bytes.items ≡ dump_bytes_of (dump_of_state (notes_seen notes.now) machine.now steps)) }
{
    let dump = dump_of(alloc, machine, notes, steps)?;
    let bytes = write_dump(alloc, &dump)?;
    Ok(bytes)
}

/// The dump of a machine after so many steps.
pub fn dump_of(
    alloc: Global,
    machine: &Machine,
    notes: &Notes,
    steps: u64,
) -> Result<Dump, NoMemory>
    requires rules { AreNotes (notes_seen notes.now) }
    requires cells { AreLoadable (notes_seen notes.now) machine.now.memory }
    ensures dump { IfOk result (λ dump. dump_seen dump ≡ dump_of_state (notes_seen notes.now) machine.now steps) }
    ensures few { IfOk result (λ dump. vec_len dump.cells < 2 ^ 30) }
{
    let cells = read_cells(alloc, machine.memory(), notes.base, notes.cells)?;
    Ok(Dump {
        version: notes.version,
        ending: machine.ending(),
        pc: machine.pc(),
        steps,
        length: length_told(notes),
        cells,
    })
}

/// The size of the original, in the version that tells it.
fn length_told(notes: &Notes) -> u32
    ensures { result ≡ length_told_of (notes_seen notes.now) }
{
    if notes.version == NARROW {
        0
    } else {
        notes.length
    }
}

/// So many words of memory, from an address on.
#[tactic(auto, using(crate::proofs::Cells::words_more))]
fn read_cells(alloc: Global, memory: &Memory, base: u32, count: u32) -> Result<Vec<u32>, NoMemory>
    requires aligned { base % 4 ≡ 0 }
    requires end { base + 4 * count ≤ 2 ^ 32 }
    requires few { count ≤ 2 ^ 23 }
    requires loadable { (k : ℕ) → k < count → CanLoad memory.now (cell_at base k) }
    ensures cells { IfOk result (λ cells. cells.items ≡ words_at base count memory.now) }
    ensures few { IfOk result (λ cells. vec_len cells < 2 ^ 30) }
{
    let mut cells = Vec::new(alloc);
    for cell in 0..count {
        cells.push(load_word(memory, Addr(base + 4 * cell)))?;
    }
    Ok(cells)
}

/// The word at an address that may be read.
fn load_word(memory: &Memory, address: Addr) -> u32
    requires aligned { address.0 % 4 ≡ 0 }
    requires loadable { CanLoad memory.now address.0 }
    ensures { result ≡ memory_word memory.now address.0 }
{
    match memory.load32(address) {
        Ok(word) => word,
        Err(_) => unreachable!(),
    }
}
