//! What came of a command, and how the program shows it.
ghost use Rattle.std.specs.Prelude.{◌≡◌, ◌≤◌, ◌++◌, ◌∷◌, [], codes};
ghost use Rattle.eel_said.specs.declared.outcome.CountCause.TheVariants as count_causes;
ghost use Rattle.eel_said.specs.Outcome.{BadLine, cause_text as cause_text_of, status_of, ending_text, line_of, Shows, NoCounts, line_about};
ghost use Rattle.eel_said.specs.Code.{outcome_seen};
ghost use Rattle.eel_said.specs.Private.{joined, Wrote};
ghost use Rattle.eel_said.specs.Seen.{stream_seen};

use eel_base::{Addr, EdgeNo, Failed, NoMemory, Sink, hex8, put_all};
use itoa::{Buffer, Integer};
use v8_step::Ending;

/// What came of a command.
#[derive(Clone, Copy)]
pub enum Outcome<'a> {
    /// An edit is done, or a program was shown.
    Done,
    /// A program ran for so many steps, and has ended or was stopped.
    Stopped {
        ending: Option<Ending>,
        steps: u64,
    },
    /// The words are outside the grammar.
    BadWords,
    /// The file `name` has this fault.
    BadFile {
        name: &'a str,
        code: u8,
    },
    /// The file `name` has more than `limit` bytes.
    TooLong {
        name: &'a str,
        limit: u64,
    },
    /// The line of the file `name` with this number, counted from 1, is bad: of a script, of weights or of a listing.
    BadLine {
        name: &'a str,
        number: u32,
        cause: LineCause,
    },
    /// The edit of the file `name` asks for `needed` bytes of room, and there are `had`.
    NoRoom {
        name: &'a str,
        needed: u64,
        had: u64,
    },
    /// The file `name` has no notes.
    NoNotes {
        name: &'a str,
    },
    /// The notes of the file `name` break a rule, first with their word at the offset `at`.
    BadNotes {
        name: &'a str,
        at: u32,
    },
    /// The dump `name` breaks a rule, first with its number at the offset `at`.
    BadDump {
        name: &'a str,
        at: u32,
    },
    /// The notes of the file `name` are not those of a profile.
    NoProfile {
        name: &'a str,
    },
    /// The notes of the file `name` are not those of its original with every word marked.
    NotEveryWord {
        name: &'a str,
    },
    /// The notes of the file `name` are not those of a trace.
    NoTrace {
        name: &'a str,
    },
    /// Nothing can be told of the dump `name`.
    NoCounts {
        name: &'a str,
        cause: CountCause,
    },
    /// This cell of the dump `name` holds what stands for no edge.
    BadCell {
        name: &'a str,
        cell: u32,
        value: u32,
    },
    OutOfMemory,
    DeviceFault,
}

impl From<NoMemory> for Outcome<'_> {
    ghost use Rattle.std.specs.Prelude.{◌≡◌};
    ghost use Rattle.eel_said.specs.declared.outcome.Outcome.TheVariants as outcomes;

    ghost from_gives = { λ _ outcome. outcome ≡ outcomes.OutOfMemory };

    fn from(_: NoMemory) -> Self {
        Outcome::OutOfMemory
    }
}

/// What is bad about a line.
#[derive(Clone, Copy)]
pub enum LineCause {
    /// It is outside the grammar.
    Grammar,
    /// It names an edge that isn't there, or not as that is.
    Edge,
    /// Its cell is too great.
    Cell,
    /// Its edge has no place for another operation.
    Operations,
    /// It isn't the sum of the lines before it.
    Total,
}

/// Why nothing can be told of a dump.
#[derive(Clone, Copy)]
pub enum CountCause {
    /// It has this version, and the notes the other one.
    Version { dump: u32, notes: u32 },
    /// It was made for an original of this size, and the notes' is another one.
    Length { length: u32, wanted: u32 },
    /// It has so many cells, and the notes want another number.
    Shape { cells: u32, wanted: u32 },
    /// The run made so many steps, that a cell may have begun at 0 again.
    Steps(u64),
    /// The run stands at this address, in new code that is no instruction's place.
    Between(Addr),
    /// This edge would have been completed a number of times below 0.
    Negative { edge: EdgeNo, value: i128 },
    /// This edge would have been completed 2^64 times or more.
    Large { edge: EdgeNo, value: i128 },
}

/// The status after a device failed, and where a line can't be written.
const DEVICE_FAULT: u8 = 74;

impl Outcome<'_> {
    /// The status with which the program ends.
    fn status(&self) -> u8
        ensures { result ≡ status_of (outcome_seen self.now) }
    {
        match self {
            Outcome::Done | Outcome::Stopped { .. } => 0,
            Outcome::BadWords => 64,
            Outcome::BadFile { .. }
            | Outcome::BadLine { .. }
            | Outcome::NoNotes { .. }
            | Outcome::BadNotes { .. }
            | Outcome::BadDump { .. }
            | Outcome::NoProfile { .. }
            | Outcome::NotEveryWord { .. }
            | Outcome::NoCounts { .. }
            | Outcome::NoTrace { .. }
            | Outcome::BadCell { .. } => 65,
            Outcome::TooLong { .. } => 66,
            Outcome::NoRoom { .. } => 69,
            Outcome::OutOfMemory => 70,
            Outcome::DeviceFault => DEVICE_FAULT,
        }
    }

    /// Writes the outcome's line, and answers its status.
    pub fn show<E: Sink>(&self, err: &mut E) -> u8
        ensures shows { Shows (outcome_seen self.now) result (stream_seen E.Sink err.old) (stream_seen E.Sink err.new) }
        ensures later { E.faults err.old ≤ E.faults err.new }
    {
        match put_line(self, err) {
            Ok(()) => self.status(),
            Err(Failed) => DEVICE_FAULT,
        }
    }
}

/// Writes the outcome's line, if it has one.
fn put_line<E: Sink>(outcome: &Outcome, err: &mut E) -> Result<(), Failed>
    ensures { Wrote (stream_seen E.Sink err.old) (stream_seen E.Sink err.new)
        (line_of (outcome_seen outcome.now)) result }
{
    match outcome {
        Outcome::Done => Ok(()),
        Outcome::Stopped { ending, steps } => put_ending(*ending, *steps, err),
        Outcome::BadWords => put_pieces(err, &[b"eel: bad words\n"]),
        Outcome::BadFile { name, code } => put_number(name, b"file fault ", *code, b"", err),
        Outcome::BadLine {
            name,
            number,
            cause,
        } => put_bad_line(name, *number, *cause, err),
        Outcome::TooLong { name, limit } => {
            put_number(name, b"longer than ", *limit, b" bytes", err)
        }
        Outcome::NoRoom { name, needed, had } => {
            put_numbers(name, b"room ", *needed, b" needed, ", *had, b" had", err)
        }
        Outcome::NoNotes { name } => put_about(name, b"no notes", err),
        Outcome::BadNotes { name, at } => put_number(name, b"bad notes at ", *at, b"", err),
        Outcome::BadDump { name, at } => put_number(name, b"bad dump at ", *at, b"", err),
        Outcome::NoProfile { name } => put_about(name, b"no profile", err),
        Outcome::NotEveryWord { name } => put_about(name, b"not every word", err),
        Outcome::NoCounts { name, cause } => put_no_counts(name, *cause, err),
        Outcome::NoTrace { name } => put_about(name, b"no trace", err),
        Outcome::BadCell { name, cell, value } => {
            put_numbers(name, b"cell ", *cell, b" has ", *value, b"", err)
        }
        Outcome::OutOfMemory => put_pieces(err, &[b"eel: out of memory\n"]),
        Outcome::DeviceFault => put_pieces(err, &[b"eel: device fault\n"]),
    }
}

/// Writes what is to be told of the file `name`.
fn put_about<E: Sink>(name: &str, text: &[u8], err: &mut E) -> Result<(), Failed>
    ensures { Wrote (stream_seen E.Sink err.old) (stream_seen E.Sink err.new) (line_about name.now text.now) result }
{
    put_pieces(err, &[b"eel: ", name.as_bytes(), b": ", text, b"\n"])
}

/// Writes what is to be told of the file `name`, with a number in it.
fn put_number<'a, N: Integer, E: Sink>(
    name: &'a str,
    before: &'a [u8],
    number: N,
    after: &'a [u8],
    err: &mut E,
) -> Result<(), Failed>
    ensures { Wrote (stream_seen E.Sink err.old) (stream_seen E.Sink err.new)
        (line_about name.now (before.now ++ N.text number ++ after.now)) result }
{
    let mut digits = Buffer::new();
    let number = digits.format(number).as_bytes();
    let name = name.as_bytes();
    put_pieces(err, &[b"eel: ", name, b": ", before, number, after, b"\n"])
}

/// Writes a line about a file with two numbers in it.
fn put_numbers<'a, M: Integer, N: Integer, E: Sink>(
    name: &'a str,
    before: &'a [u8],
    first: M,
    between: &'a [u8],
    second: N,
    after: &'a [u8],
    err: &mut E,
) -> Result<(), Failed>
    ensures { Wrote (stream_seen E.Sink err.old) (stream_seen E.Sink err.new)
        (line_about name.now (before.now ++ M.text first ++ between.now ++ N.text second ++ after.now)) result }
{
    let mut first_digits = Buffer::new();
    let mut second_digits = Buffer::new();
    let first = first_digits.format(first).as_bytes();
    let second = second_digits.format(second).as_bytes();
    let name = name.as_bytes();
    put_pieces(
        err,
        &[
            b"eel: ", name, b": ", before, first, between, second, after, b"\n",
        ],
    )
}

/// Writes that a line of the file `name` is bad.
fn put_bad_line<E: Sink>(
    name: &str,
    number: u32,
    cause: LineCause,
    err: &mut E,
) -> Result<(), Failed>
    ensures { Wrote (stream_seen E.Sink err.old) (stream_seen E.Sink err.new)
        (line_of (BadLine name.now number cause)) result }
{
    let mut digits = Buffer::new();
    let number = digits.format(number).as_bytes();
    let (name, cause) = (name.as_bytes(), cause_text(cause));
    put_pieces(
        err,
        &[b"eel: ", name, b": line ", number, b": ", cause, b"\n"],
    )
}

/// What is bad about a line, as it is told.
fn cause_text<'a>(cause: LineCause) -> &'a [u8]
    ensures { result.now ≡ cause_text_of cause }
{
    match cause {
        LineCause::Grammar => b"grammar",
        LineCause::Edge => b"edge",
        LineCause::Cell => b"cell",
        LineCause::Operations => b"operations",
        LineCause::Total => b"total",
    }
}

/// Writes why the dump `name` has no counts.
fn put_no_counts<E: Sink>(name: &str, cause: CountCause, err: &mut E) -> Result<(), Failed>
    ensures { Wrote (stream_seen E.Sink err.old) (stream_seen E.Sink err.new)
        (line_of (NoCounts name.now cause)) result }
{
    match cause {
        CountCause::Version { dump, notes } => put_numbers(
            name,
            b"dump version ",
            dump,
            b", notes version ",
            notes,
            b"",
            err,
        ),
        CountCause::Length { length, wanted } => put_numbers(
            name,
            b"made for ",
            length,
            b" bytes, ",
            wanted,
            b" wanted",
            err,
        ),
        CountCause::Shape { cells, wanted } => {
            put_numbers(name, b"", cells, b" cells, ", wanted, b" wanted", err)
        }
        CountCause::Steps(steps) => put_number(name, b"", steps, b" steps", err),
        CountCause::Between(pc) => put_between(name, pc, err),
        CountCause::Negative { edge, value } => put_count(name, edge, value, err),
        CountCause::Large { edge, value } => put_count(name, edge, value, err),
    }
}

/// Writes that the run stands between places.
fn put_between<E: Sink>(name: &str, pc: Addr, err: &mut E) -> Result<(), Failed>
    ensures { Wrote (stream_seen E.Sink err.old) (stream_seen E.Sink err.new)
        (line_of (NoCounts name.now (count_causes.Between pc))) result }
{
    put_place(name, &hex8(pc.0), err)
}

/// Writes that the run stands between places, at an address by its digits.
fn put_place<E: Sink>(name: &str, digits: &[u8], err: &mut E) -> Result<(), Failed>
    ensures { Wrote (stream_seen E.Sink err.old) (stream_seen E.Sink err.new)
        (line_about name.now (codes "pc " ++ digits.now ++ codes " between places")) result }
{
    let name = name.as_bytes();
    put_pieces(
        err,
        &[b"eel: ", name, b": pc ", digits, b" between places\n"],
    )
}

/// Writes that the edge would have this count.
fn put_count<E: Sink>(name: &str, edge: EdgeNo, value: i128, err: &mut E) -> Result<(), Failed>
    ensures { Wrote (stream_seen E.Sink err.old) (stream_seen E.Sink err.new)
        (line_of (NoCounts name.now (count_causes.Negative edge value))) result }
{
    put_numbers(name, b"edge ", edge.0, b" would be ", value, b"", err)
}

/// Writes how a run ended, or that it was stopped after so many steps.
fn put_ending<E: Sink>(ending: Option<Ending>, steps: u64, err: &mut E) -> Result<(), Failed>
    ensures { Wrote (stream_seen E.Sink err.old) (stream_seen E.Sink err.new)
        (ending_text ending steps ++ 10 ∷ []) result }
{
    let mut digits = Buffer::new();
    match ending {
        None => put_pieces(err, &[b"stopped ", digits.format(steps).as_bytes(), b"\n"]),
        Some(Ending::Exit(status)) => put_pieces(
            err,
            &[b"exit ", digits.format(status).as_bytes(), b"\n"],
        ),
        Some(Ending::Trap(number)) => put_pieces(
            err,
            &[b"trap ", digits.format(number).as_bytes(), b"\n"],
        ),
        Some(Ending::Window) => put_pieces(err, &[b"window\n"]),
        Some(Ending::Couple) => put_pieces(err, &[b"couple\n"]),
    }
}

/// Writes the pieces, one after the other.
fn put_pieces<E: Sink>(err: &mut E, pieces: &[&[u8]]) -> Result<(), Failed>
    ensures { Wrote (stream_seen E.Sink err.old) (stream_seen E.Sink err.new) (joined pieces.now) result }
{
    for piece in pieces {
        put_all(err, piece)?;
    }
    Ok(())
}
