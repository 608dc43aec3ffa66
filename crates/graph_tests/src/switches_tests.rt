//! The switch of a small file, and of the same file with one word replaced, as `show` prints it.
use cfg_view::look;
use show_text::show;
use std::alloc::Global;
use std::process::Abort;
use std::test::Fail;

/// switch_of_four: its third block jumps through the table at its tenth word, of four addresses.
const PROGRAM: [u32; 37] = [
    0x7f454c46, 0x01020100, 0, 0, 0x00020002, 1, 0x00010054, 0x34, 0, 0, 0x00340020, 0x00010000, 0,
    1, 0x54, 0x00010054, 0x00010054, 0x40, 0x40, 5, 0x00010000, 0x90102003, 0x80a22003, 0x1880000c,
    0x912a2002, 0x03000040, 0x82106078, 0xc2004008, 0x81c04000, 0x01000000, 0x0001008c, 0x0001008c,
    0x0001008c, 0x00010088, 0x90102005, 0x82102001, 0x91d02010,
];

/// The lines that show the program with this word in its file, whose text begins at word 21.
fn lines(alloc: Global, at: usize, word: u32) -> Result<Vec<u8>, Fail> {
    let mut bytes = Vec::new(alloc);
    for (number, old) in PROGRAM.iter().enumerate() {
        let word = if number == at { word } else { *old };
        bytes.extend_from_slice(&word.to_be_bytes())?;
    }
    let view = look(alloc, &bytes, &[]).map_err(|_| Fail::from("a view"))?;
    let lines = show(alloc, &view, &view.switches).map_err(|_| Fail::from("memory"))?;
    Ok(lines)
}

/// The first line of a switch is this one.
fn expect<R: Abort>(rt: &R, alloc: Global, at: usize, word: u32, wants: &[u8]) -> Result<(), Fail> {
    let lines = lines(alloc, at, word)?;
    let mut found: &[u8] = b"none";
    for line in lines.split(|byte| *byte == b'\n') {
        if line.starts_with(b"switch") {
            found = line;
        }
    }
    assert_eq!(rt; found, wants);
    Ok(())
}

#[test]
fn one_block_has_a_switch(rt: HostRuntime) -> Result<(), Fail> {
    expect(
        &rt,
        rt.alloc(),
        21,
        0x90102003,
        b"switch 00010070 00010078 4",
    )
}

#[test]
fn broken_programs_have_none(rt: HostRuntime) -> Result<(), Fail> {
    // a second way into the jump's block; a branch that leaves the index above the limit; an odd address
    expect(&rt, rt.alloc(), 36, 0x10bffff5, b"none")?;
    expect(&rt, rt.alloc(), 23, 0x0880000c, b"none")?;
    expect(&rt, rt.alloc(), 33, 0x00010089, b"none")
}
