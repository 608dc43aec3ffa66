//! Notes of both versions through both calls: what is written reads back, and each rule broken once is named by its offset.
use crate::building::{NONE, edited, noted, place};
use notes::{NotesFault, read_notes, write_notes};
use std::alloc::Global;
use std::test::Fail;

/// The notes of a text of four words. They are of either version: two of the four cells count an edge each, or each of two
/// edges has two.
const ROWS: [&[u32]; 11] = [
    &[4096, 16, 1, 0x10000, 4, 1, 0x30000, 4],
    // Two pages, and two blocks.
    &[2, 0x20000, 0x1000, 0x30000, 8],
    &[2, 0, 2],
    // Three edges.
    &[3],
    &[0, 0, 1, 0],
    &[4, 1, 2, NONE],
    &[5, 2, 0, 2],
    // Three places.
    &[3],
    &[0x20000, 0x20004, 0x10000, 0],
    &[0x20004, 0x2000c, 0x10004, 0],
    &[0x20010, 0x20014, 0x10008, 1],
];

/// How many bytes they have.
const LENGTH: u32 = 168;

/// A file whose locator names notes of this version and of so many bytes at 4096, with one of their words replaced.
fn file(alloc: Global, version: u32, length: u32, at: usize, word: u32) -> Result<Vec<u8>, Fail> {
    let words = edited(alloc, &ROWS, &[(at / 4, word)])?;
    let mut file = noted(alloc, version, length, &words)?;
    place(&mut file, 8192, &[])?;
    Ok(file)
}

/// A file of version 2 with all of its words.
fn whole(alloc: Global, length: u32) -> Result<Vec<u8>, Fail> {
    file(alloc, 2, length, 0, 4096)
}

/// What is named; nothing where the notes read.
fn named(alloc: Global, file: &[u8]) -> Option<NotesFault> {
    read_notes(alloc, file).err()
}

/// The bytes from one place to another.
fn part(bytes: &[u8], from: usize, to: usize) -> &[u8] {
    bytes.get(from..to).unwrap_or(&[])
}

/// The notes of a file, read and written again, where they are of the version that is written.
fn written_again(alloc: Global, file: &[u8]) -> Result<Vec<u8>, Fail> {
    let notes = read_notes(alloc, file)?;
    if notes.version != 2 {
        return Err(Fail::from("the version"));
    }
    Ok(write_notes(alloc, &notes)?)
}

#[test]
fn notes_read_and_are_written_again(rt: HostRuntime) -> Result<(), Fail> {
    let file = whole(rt.alloc(), LENGTH)?;
    let again = written_again(rt.alloc(), &file)?;
    assert_eq!(rt; again.as_slice(), part(&file, 4096, 4264));
    Ok(())
}

/// The version, the place of a word, what it becomes, and the offset that is named.
const BROKEN: [(u32, usize, u32, u32); 51] = [
    (1, 0, 4095, 0),
    (1, 4, 4097, 4),
    (1, 8, 3, 8),
    (1, 12, 0x10002, 12),
    (1, 12, 0xffc, 12),
    (1, 16, 0, 16),
    (1, 16, 0x100001, 16),
    (1, 12, 0x7ffffff4, 16),
    (1, 20, 2, 20),
    (1, 24, 0x30002, 24),
    (1, 24, 0xfffffffc, 24),
    (1, 28, 0x3fff4001, 24),
    (1, 28, 0x400001, 28),
    (1, 32, 9, 32),
    (1, 40, 0, 36),
    (1, 44, 0x20ffc, 44),
    (1, 48, 0xfffd0001, 44),
    (1, 52, 0, 20),
    (1, 52, 5, 52),
    (1, 56, 1, 56),
    (1, 60, 0, 60),
    (1, 60, 4, 60),
    (1, 64, 0x1000000, 64),
    (1, 68, 7, 68),
    (1, 72, 5, 68),
    (1, 76, 5, 68),
    (1, 80, 4, 68),
    (1, 96, 0, 84),
    (1, 96, 2, 100),
    (1, 112, 0, 100),
    (1, 116, 0x4000000, 116),
    (1, 120, 0x1fffe, 120),
    (1, 124, 0x20002, 120),
    (1, 128, 0x10002, 120),
    (1, 132, 5, 120),
    (1, 124, 0x20000, 120),
    (1, 136, 0x20000, 136),
    (1, 156, 0x21004, 152),
    (1, 116, 2, 152),
    (2, 8, 4, 8),
    (2, 24, 0x30002, 24),
    (2, 28, 0x800001, 28),
    (2, 28, 3, 100),
    (2, 68, 7, 68),
    (2, 80, 1, 68),
    (2, 80, 4, 68),
    (2, 96, 2, 100),
    (2, 112, 0, 100),
    (2, 112, 3, 100),
    (2, 112, 4, 100),
    (2, 116, 2, 152),
];

#[test]
fn broken_rules_are_named(rt: HostRuntime) -> Result<(), Fail> {
    for (version, at, word, offset) in BROKEN {
        let file = file(rt.alloc(), version, LENGTH, at, word)?;
        let fault = named(rt.alloc(), &file);
        let wanted = Some(NotesFault::Bad(offset));
        assert_eq!(rt; fault, wanted, "version {version}: {word} at {at}");
    }
    Ok(())
}

/// The version, the place of a word, and what it may become: another tool, number of cells, or cell.
const HELD: [(u32, usize, u32); 7] = [
    (1, 8, 2),
    (1, 28, 0x400000),
    (1, 112, 3),
    (2, 8, 3),
    (2, 28, 0x400001),
    (2, 28, 0x800000),
    (2, 112, u32::MAX),
];

#[test]
fn rules_are_held_up_to_their_limits(rt: HostRuntime) -> Result<(), Fail> {
    for (version, at, word) in HELD {
        let file = file(rt.alloc(), version, LENGTH, at, word)?;
        let fault = named(rt.alloc(), &file);
        assert_eq!(rt; fault, None, "version {version}: {word} at {at}");
    }
    Ok(())
}

/// How many bytes the locator names, and the offset that is named.
const CUT: [(u32, u32); 9] = [
    (0, 0),
    (27, 24),
    (28, 28),
    (43, 40),
    (55, 52),
    (116, 116),
    (167, 164),
    (169, 168),
    (4097, 0),
];

#[test]
fn missing_words_and_bytes_left_over_are_named(rt: HostRuntime) -> Result<(), Fail> {
    for (length, offset) in CUT {
        let file = whole(rt.alloc(), length)?;
        let wanted = Some(NotesFault::Bad(offset));
        assert_eq!(rt; named(rt.alloc(), &file), wanted, "{length} bytes");
    }
    Ok(())
}

#[test]
fn notes_are_absent_without_a_locator(rt: HostRuntime) -> Result<(), Fail> {
    for version in [0, 3, 0x100] {
        let file = file(rt.alloc(), version, LENGTH, 0, 4096)?;
        let absent = Some(NotesFault::Absent);
        assert_eq!(rt; named(rt.alloc(), &file), absent, "version {version}");
    }
    let file = whole(rt.alloc(), LENGTH)?;
    let parts = [
        (0, 4095, NotesFault::Absent),
        (4, 8192, NotesFault::Absent),
        (0, 4096, NotesFault::Bad(0)),
    ];
    for (from, to, fault) in parts {
        assert_eq!(rt; named(rt.alloc(), part(&file, from, to)), Some(fault));
    }
    Ok(())
}
