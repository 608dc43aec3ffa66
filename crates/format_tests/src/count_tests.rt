//! Counts that are rebuilt, and why others can't be, by notes of small programs that were worked out by hand.
use crate::building::{NONE, edited, noted};
use count_rebuild::{CountFault, rebuild};
use dump_file::Dump;
use eel_base::{Addr, EdgeNo};
use notes::read_notes;
use std::alloc::Global;
use std::test::Fail;

/// Notes: their version, and their words.
#[derive(Clone, Copy)]
struct NotesOf {
    version: u32,
    rows: &'static [&'static [u32]],
}

/// A page at 0x20000 with one place, and a text of one block: it falls out of the text, which has a cell, and is
/// landed at, which has none.
const BLOCK: [u32; 19] = [
    1, 0x20000, 0x1000, 1, 0, 2, 0, 0, 1, 0, 5, 1, 0, NONE, 1, 0x20000, 0x20004, 0x10000, 0,
];

/// The block with a counter of one cell.
const NARROW_BLOCK: NotesOf = NotesOf {
    version: 1,
    rows: &[&[4096, 16, 1, 0x10000, 4, 0, 0x30000, 1], &BLOCK],
};

/// The block with a counter of two cells.
const WIDE_BLOCK: NotesOf = NotesOf {
    version: 2,
    rows: &[&[4096, 16, 1, 0x10000, 4, 0, 0x30000, 2], &BLOCK],
};

/// The program carry_loop: four blocks, and nine edges of which five have a cell. The place is one of the last block.
const CARRY_LOOP: NotesOf = NotesOf {
    version: 1,
    rows: &[
        &[4096, 112, 1, 0x10054, 7, 0, 0x30000, 5],
        &[1, 0x20000, 0x1000],
        &[4, 0, 1, 4, 5],
        &[9],
        &[0, 0, 1, 0],
        &[1, 1, 1, 1],
        &[2, 1, 3, NONE],
        &[0, 2, 3, 2],
        &[0, 3, 4, 3],
        &[5, 4, 0, NONE],
        &[5, 4, 1, 4],
        &[5, 4, 2, NONE],
        &[5, 4, 3, NONE],
        &[1, 0x20000, 0x20004, 0x10068, 3],
    ],
};

/// One block that is left by two edges with a counter of two cells each, and is landed at by one without.
const TWO_WAYS: NotesOf = NotesOf {
    version: 2,
    rows: &[
        &[4096, 16, 1, 0x10000, 4, 0, 0x30000, 4],
        &[1, 0x20000, 0x1000],
        &[1, 0],
        &[3, 0, 0, 1, 0, 1, 0, 1, 2, 5, 1, 0, NONE],
        &[1, 0x20000, 0x20004, 0x10000, 0],
    ],
};

/// Where the page has no place, and where there is no page.
const BETWEEN: u32 = 0x20004;

const OUTSIDE: u32 = 0x40000;

/// What a dump says beside its cells: its version, the size of the original, where the run stands, and after how many
/// steps.
type Told = (u32, u32, u32, u64);

const NARROW: Told = (1, 0, OUTSIDE, 5);

const WIDE: Told = (2, 16, OUTSIDE, 1 << 32);

/// What is rebuilt by the notes, from such a dump.
fn rebuilt(
    alloc: Global,
    notes_of: &NotesOf,
    told: Told,
    cells: &[u32],
) -> Result<Result<Vec<u64>, CountFault>, Fail> {
    let words = edited(alloc, notes_of.rows, &[])?;
    if words.len() > 100 || cells.len() > 5 {
        return Err(Fail::from("words or cells"));
    }
    let file = noted(alloc, notes_of.version, 4 * words.len() as u32, &words)?;
    let notes = read_notes(alloc, &file)?;
    let (version, length, pc, steps) = told;
    let dump = Dump {
        version,
        ending: None,
        pc: Addr(pc),
        steps,
        length,
        cells: Vec::from_slice(alloc, cells)?,
    };
    Ok(rebuild(alloc, &notes, &dump))
}

/// The fault, by the notes of the narrow block; nothing where counts are rebuilt.
fn narrow_fault(alloc: Global, told: Told, cells: &[u32]) -> Result<Option<CountFault>, Fail> {
    Ok(rebuilt(alloc, &NARROW_BLOCK, told, cells)?.err())
}

/// The fault, by the notes of the wide block; nothing where counts are rebuilt.
fn wide_fault(alloc: Global, told: Told, cells: &[u32]) -> Result<Option<CountFault>, Fail> {
    Ok(rebuilt(alloc, &WIDE_BLOCK, told, cells)?.err())
}

#[test]
fn five_cells_give_all_counts_of_a_loop(rt: HostRuntime) -> Result<(), Fail> {
    let told = (1, 0, 0x20000, 40);
    let counts = rebuilt(rt.alloc(), &CARRY_LOOP, told, &[1, 4, 0, 0, 0])??;
    assert_eq!(rt; counts.as_slice(), [1, 4, 1, 0, 0, 0, 0, 0, 0].as_slice());
    Ok(())
}

#[test]
fn two_cells_are_one_counter(rt: HostRuntime) -> Result<(), Fail> {
    let high = rebuilt(rt.alloc(), &WIDE_BLOCK, WIDE, &[1, 0])??;
    assert_eq!(rt; high.as_slice(), [1 << 32, u64::from(u32::MAX)].as_slice());
    let most = rebuilt(rt.alloc(), &WIDE_BLOCK, WIDE, &[u32::MAX, u32::MAX])??;
    assert_eq!(rt; most.as_slice(), [u64::MAX, u64::MAX - 1].as_slice());
    Ok(())
}

#[test]
fn counts_of_2_to_the_64_are_refused(rt: HostRuntime) -> Result<(), Fail> {
    let large = CountFault::Large {
        edge: EdgeNo(2),
        value: 1 << 64,
    };
    let most = rebuilt(rt.alloc(), &TWO_WAYS, WIDE, &[u32::MAX, u32::MAX, 0, 1])??;
    assert_eq!(rt; most.as_slice(), [u64::MAX, 1, u64::MAX].as_slice());
    let more = rebuilt(rt.alloc(), &TWO_WAYS, WIDE, &[u32::MAX, u32::MAX, 0, 2])?;
    assert_eq!(rt; more.err(), Some(large));
    Ok(())
}

/// The landing at the block would have a count below 0.
const NEGATIVE: CountFault = CountFault::Negative {
    edge: EdgeNo(1),
    value: -1,
};

#[test]
fn the_first_cause_is_told(rt: HostRuntime) -> Result<(), Fail> {
    let shape = CountFault::Shape {
        cells: 2,
        wanted: 1,
    };
    let version = CountFault::Version { dump: 2, notes: 1 };
    let long = CountFault::TooLong(1 << 32);
    let between = CountFault::Between(Addr(BETWEEN));
    let nowhere = (1, 0, BETWEEN, 5);
    let late = (1, 0, BETWEEN, 1 << 32);
    let other = (2, 0, BETWEEN, 1 << 32);
    assert_eq!(rt; narrow_fault(rt.alloc(), NARROW, &[1])?, None);
    assert_eq!(rt; narrow_fault(rt.alloc(), NARROW, &[0])?, Some(NEGATIVE));
    assert_eq!(rt; narrow_fault(rt.alloc(), nowhere, &[0])?, Some(between));
    assert_eq!(rt; narrow_fault(rt.alloc(), late, &[0])?, Some(long));
    assert_eq!(rt; narrow_fault(rt.alloc(), late, &[0, 0])?, Some(shape));
    assert_eq!(rt; narrow_fault(rt.alloc(), other, &[0, 0])?, Some(version));
    Ok(())
}

#[test]
fn the_first_cause_is_told_of_wide_counters(rt: HostRuntime) -> Result<(), Fail> {
    let shape = CountFault::Shape {
        cells: 1,
        wanted: 2,
    };
    let other = CountFault::Other {
        length: 20,
        wanted: 16,
    };
    let version = CountFault::Version { dump: 1, notes: 2 };
    let between = CountFault::Between(Addr(BETWEEN));
    let nowhere = (2, 16, BETWEEN, 1 << 32);
    let longer = (2, 20, BETWEEN, 1 << 32);
    let narrow = (1, 20, BETWEEN, 1 << 32);
    assert_eq!(rt; wide_fault(rt.alloc(), WIDE, &[0, 0])?, Some(NEGATIVE));
    assert_eq!(rt; wide_fault(rt.alloc(), nowhere, &[0, 0])?, Some(between));
    assert_eq!(rt; wide_fault(rt.alloc(), nowhere, &[0])?, Some(shape));
    assert_eq!(rt; wide_fault(rt.alloc(), longer, &[0])?, Some(other));
    assert_eq!(rt; wide_fault(rt.alloc(), narrow, &[0])?, Some(version));
    assert_eq!(rt; wide_fault(rt.alloc(), NARROW, &[0, 0])?, Some(version));
    Ok(())
}
