//! Views of two small files: their routines, worked out by hand, and a mark that leads.
use cfg_view::look;
use eel_base::{BlockNo, WordNo};
use elf32_sparc::{FileFault, ReadFault};
use std::alloc::Global;
use std::process::Abort;
use std::test::Fail;

/// A program of six words without a section table: a call of the fifth word, and a return there.
const CALLER: [u32; 27] = [
    0x7f454c46, 0x01020100, 0, 0, 0x00020002, 1, 0x00010054, 0x34, 0, 0, 0x00340020, 0x00010000, 0,
    1, 0x54, 0x00010054, 0x00010054, 0x18, 0x18, 5, 0x00010000, 0x40000004, 0x01000000, 0x82102001,
    0x91d02010, 0x81c3e008, 0x900be0ff,
];

/// Its section table: nothing, the symbol table, and the string table.
const SECTIONS: [u32; 30] = [
    0, 0, 0, 0, 0, 0, 0, 0, 0, 0, 0, 2, 0, 0, 0xe4, 0x50, 2, 0, 4, 16, 0, 3, 0, 0, 0x134, 16, 0, 0,
    1, 0,
];

/// Symbols: nothing, the function `late` at the sixth word, the functions `main` and `also` at the second,
/// and an object `main` at the third. Then the names, each with a zero byte after it.
const SYMBOLS: [u32; 24] = [
    0, 0, 0, 0, 6, 0x10068, 0, 0x12000001, 1, 0x10058, 0, 0x12000001, 11, 0x10058, 0, 0x12000001,
    1, 0x1005c, 0, 0x11000001, 0x006d6169, 0x6e006c61, 0x74650061, 0x6c736f00,
];

/// The bytes of the words, where the file has `sections` sections behind its text.
fn file(alloc: Global, sections: u32, more: &[&[u32]]) -> Result<Vec<u8>, Fail> {
    let mut words = Vec::from_slice(alloc, &CALLER)?;
    if sections > 0 {
        words[8] = 0x6c;
        words[11] = 0x00010028;
        words[12] = sections << 16;
    }
    for part in more {
        words.extend_from_slice(part)?;
    }
    let mut bytes = Vec::new(alloc);
    for word in &words {
        bytes.extend_from_slice(&word.to_be_bytes())?;
    }
    Ok(bytes)
}

/// The file has routines at these words, by these names.
fn expect<R: Abort>(
    rt: &R,
    alloc: Global,
    bytes: &[u8],
    wants: &[(u32, &str)],
) -> Result<(), Fail> {
    let view = look(alloc, bytes, &[]).map_err(|_| Fail::from("a view"))?;
    assert_eq!(rt; view.routines.list().len(), wants.len());
    for (routine, (start, name)) in view.routines.list().iter().zip(wants) {
        assert_eq!(rt; routine.start.0, *start);
        assert_eq!(rt; routine.name.bytes(), name.as_bytes(), "at {start}");
    }
    Ok(())
}

#[test]
fn the_entry_and_what_it_calls(rt: HostRuntime) -> Result<(), Fail> {
    let bytes = file(rt.alloc(), 0, &[])?;
    expect(&rt, rt.alloc(), &bytes, &[(0, ""), (4, "")])
}

#[test]
fn function_symbols_name_routines(rt: HostRuntime) -> Result<(), Fail> {
    let bytes = file(rt.alloc(), 3, &[&SECTIONS, &SYMBOLS])?;
    let wants = [(0, ""), (1, "main"), (4, ""), (5, "late")];
    expect(&rt, rt.alloc(), &bytes, &wants)
}

#[test]
fn marks_in_the_text_lead(rt: HostRuntime) -> Result<(), Fail> {
    let bytes = file(rt.alloc(), 0, &[])?;
    let view = look(rt.alloc(), &bytes, &[WordNo(6), WordNo(3)]);
    let view = view.map_err(|_| Fail::from("a view"))?;
    assert_eq!(rt; view.graph.count(), 6);
    assert_eq!(rt; view.graph.first(BlockNo(3)), WordNo(3));
    Ok(())
}

#[test]
fn an_empty_file_is_refused(rt: HostRuntime) -> Result<(), Fail> {
    let view = look(rt.alloc(), &[], &[]);
    assert_eq!(rt; view.err(), Some(ReadFault::File(FileFault::Short)));
    Ok(())
}
