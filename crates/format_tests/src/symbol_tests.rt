//! Function symbols of files whose section table was made by hand.
use crate::building::{THREE_WORDS, bytes_of, edited};
use eel_base::WordNo;
use elf32_sparc::{Image, read_image};
use std::alloc::Global;
use std::test::Fail;

/// The program, and what stands behind it.
const ROWS: [&[u32]; 14] = [
    &THREE_WORDS,
    // Symbols, at 96: name, value, size, and type and section. The last byte isn't in the section.
    &[1, 0x10058, 0, 0x12000001],
    // Outside the text, and at no word.
    &[1, 0x10050, 0, 0x12000001],
    &[1, 0x10060, 0, 0x12000001],
    &[1, 0x1005a, 0, 0x12000001],
    // An object.
    &[1, 0x10058, 0, 0x21000001],
    // A name up to the table's end, and two outside the table.
    &[3, 0x10058, 0, 0x02000001],
    &[u32::MAX, 0x10054, 0, 0x22000001],
    &[5, 0x1005c, 0, 0x12020001],
    &[1, 0x10058, 0, 0x12000001],
    // Their names, at 240: "", "f", "gb", and bytes after the table.
    &[0x00660067, 0x62696a00],
    // No section, the symbol table and its string table.
    &[0; 10],
    &[0, 2, 0, 0, 96, 143, 2, 0, 4, 16],
    &[0, 3, 0, 0, 240, 5, 0, 0, 1, 0],
];

/// Edits of the program's header: the section table is at 248.
const SECTIONED: [(usize, u32); 3] = [(8, 248), (11, 0x00010028), (12, 0x00030000)];

/// The image of the file with some of its words replaced, and more words after them.
fn image(alloc: Global, edits: &[(usize, u32)], more: &[u32]) -> Result<Image, Fail> {
    let mut words = edited(alloc, &ROWS, &SECTIONED)?;
    words.extend_from_slice(more)?;
    let words = edited(alloc, &[&words], edits)?;
    Ok(read_image(alloc, &bytes_of(alloc, &words)?)?)
}

/// The functions of the file, in the order of its symbols.
const FUNCTIONS: [(u32, &[u8]); 4] = [(1, b"f"), (1, b"gb"), (0, b""), (2, b"")];

#[test]
fn functions_are_read(rt: HostRuntime) -> Result<(), Fail> {
    let image = image(rt.alloc(), &[], &[])?;
    assert_eq!(rt; image.funcs().len(), 4);
    for (func, (start, name)) in image.funcs().iter().zip(FUNCTIONS) {
        assert_eq!(rt; func.start, WordNo(start));
        assert_eq!(rt; func.name.bytes(), name);
    }
    Ok(())
}

#[test]
fn long_names_are_cut(rt: HostRuntime) -> Result<(), Fail> {
    let edits = [(24, 0), (86, 368), (87, 256)];
    let image = image(rt.alloc(), &edits, &[0x61616161; 64])?;
    assert_eq!(rt; image.funcs().len(), 4);
    for (func, length) in image.funcs().iter().zip([255, 253, 0, 251]) {
        assert_eq!(rt; func.name.bytes().len(), length);
    }
    Ok(())
}

/// An edit of the section table or of where it is, and how many functions the file has then.
const TABLES: [((usize, u32), usize); 20] = [
    // No section table, or one that can't be read.
    ((8, 0), 0),
    ((8, 249), 0),
    ((8, u32::MAX), 0),
    ((11, 0x00010029), 0),
    ((12, 0), 0),
    ((12, 0x00040000), 0),
    // No symbol table, or one that can't be read.
    ((73, 11), 0),
    ((76, 226), 0),
    ((76, u32::MAX), 0),
    ((77, 272), 5),
    ((77, 273), 0),
    ((77, 144), 5),
    ((81, 12), 0),
    // Another before it.
    ((63, 2), 0),
    // No string table, or one that can't be read.
    ((78, 1), 0),
    ((78, 3), 0),
    ((78, 0x00010002), 0),
    ((83, 1), 0),
    ((87, 128), 4),
    ((87, 129), 0),
];

#[test]
fn tables_that_cannot_be_read_have_no_functions(rt: HostRuntime) -> Result<(), Fail> {
    for (edit, count) in TABLES {
        let image = image(rt.alloc(), &[edit], &[])?;
        assert_eq!(rt; image.funcs().len(), count, "after {edit:?}");
    }
    Ok(())
}
