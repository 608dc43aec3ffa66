//! Written files, byte for byte. What is expected was made by a Python script that was written from the description of
//! the format alone, and shares nothing with this code.
use crate::building::{bytes_of, place};
use crate::can_write;
use eel_base::Addr;
use elf32_sparc::{SegFlags, read_image};
use elf32_write::{NewSegment, write_around};
use std::alloc::{AllocError, Global};
use std::process::Abort;
use std::test::Fail;

/// A file that is written.
struct Case {
    original: &'static [u32],
    /// The segments to add: the address, size in memory and flags of each, and its bytes.
    added: &'static [([u32; 3], &'static [u8])],
    entry: u32,
    notes: &'static [u32],
    /// What is wanted: the headers, the locator, the original at its delta, and at offsets behind it the segments, the
    /// notes and the section table.
    headers: &'static [u32],
    locator: [u32; 4],
    delta: usize,
    behind: &'static [(usize, &'static [u32])],
}

impl Case {
    fn segments(&self, alloc: Global) -> Result<Vec<NewSegment>, AllocError> {
        let mut segments = Vec::new(alloc);
        for segment in self.added {
            let ([vaddr, memsz, flags], bytes) = *segment;
            segments.push(NewSegment {
                vaddr: Addr(vaddr),
                memsz,
                flags: SegFlags(flags),
                bytes: Vec::from_slice(alloc, bytes)?,
            })?;
        }
        Ok(segments)
    }

    fn written(&self, alloc: Global) -> Result<Vec<u8>, Fail> {
        let bytes = bytes_of(alloc, self.original)?;
        let notes = bytes_of(alloc, self.notes)?;
        let added = self.segments(alloc)?;
        let image = read_image(alloc, &bytes)?;
        if !can_write(&bytes, &image, &added, &notes) {
            return Err(Fail::from("segments to add"));
        }
        Ok(write_around(alloc, &bytes, &image, &added, Addr(self.entry), &notes)?)
    }

    fn wanted(&self, alloc: Global) -> Result<Vec<u8>, AllocError> {
        let mut wanted = bytes_of(alloc, self.headers)?;
        place(&mut wanted, 4032, &self.locator)?;
        place(&mut wanted, self.delta, self.original)?;
        for part in self.behind {
            let (at, words) = *part;
            place(&mut wanted, at, words)?;
        }
        Ok(wanted)
    }
}

fn expect<R: Abort>(rt: &R, alloc: Global, case: &Case) -> Result<(), Fail> {
    let written = case.written(alloc)?;
    let wanted = case.wanted(alloc)?;
    assert_eq!(rt; written.as_slice(), wanted.as_slice());
    Ok(())
}

/// A table of two sections before the text, an entry for the program headers, and an empty one to load.
const BEFORE: Case = Case {
    original: &[
        0x7f454c46, 0x01020100, 0, 0, 0x20002, 1, 0x10054, 0x34, 0x94, 7, 0x00340020, 0x30028,
        0x20001, 6, 0x34, 0x10034, 0x10034, 0x60, 0x60, 4, 4, 1, 0xe4, 0x10054, 0, 0xc, 0xe, 5, 4,
        1, 0, 0, 0, 0, 0, 6, 0, 0, 0, 0, 0, 0, 0, 0, 0, 0, 0, 1, 1, 6, 0x10054, 0xe4, 0xc, 0, 0, 4,
        0, 0x82102001, 0x90102003, 0x91d02010,
    ],
    added: &[
        ([0x20000, 12, 5], b"code"),
        ([0x21000, 0x3000, 6], b""),
        ([0xfffff000, 0x1000, 6], b"bytes"),
    ],
    entry: 0x20004,
    notes: &[0x1000, 0xf0],
    headers: &[
        0x7f454c46, 0x01020100, 0, 0, 0x20002, 1, 0x20004, 0x34, 0x3010, 7, 0x00340020, 0x40028,
        0x20001, 1, 0x10e4, 0x10054, 0, 0xc, 0xe, 4, 4, 1, 0x2000, 0x20000, 0x20000, 4, 0xc, 5,
        0x1000, 1, 0x3000, 0x21000, 0x21000, 0, 0x3000, 6, 0x1000, 1, 0x3000, 0xfffff000,
        0xfffff000, 5, 0x1000, 6, 0x1000,
    ],
    locator: [0x45454c4e, 2, 0x3008, 8],
    delta: 4096,
    behind: &[
        (8192, &[0x636f6465]),
        (12288, &[0x62797465, 0x73000000]),
        (
            12296,
            &[
                0x1000, 0xf0, 0, 0, 0, 0, 0, 0, 0, 0, 0, 0, 1, 1, 6, 0x10054, 0x10e4, 0xc, 0, 0, 4,
                0,
            ],
        ),
    ],
};

#[test]
fn sections_before_the_text(rt: HostRuntime) -> Result<(), Fail> {
    expect(&rt, rt.alloc(), &BEFORE)
}

/// A table of two sections behind the text, at whose alignment the original stands.
const BEHIND: Case = Case {
    original: &[
        0x7f454c46, 0x01020100, 0, 0, 0x20002, 1, 0x10054, 0x34, 0x60, 7, 0x00340020, 0x10028,
        0x20001, 1, 0x54, 0x10054, 0x10054, 0xc, 0xc, 5, 0x10000, 0x82102001, 0x90102003,
        0x91d02010, 9, 0, 0, 0, 0x21, 0, 0, 0, 0, 0, 1, 8, 3, 0x20000, 0xffffffff, 4, 0, 0, 1, 0,
    ],
    added: &[([0x20000, 0x1000, 5], b"code")],
    entry: 0x20000,
    notes: &[0x10000, 0xb0, 3],
    headers: &[
        0x7f454c46, 0x01020100, 0, 0, 0x20002, 1, 0x20000, 0x34, 0x11010, 7, 0x00340020, 0x20028,
        0x20001, 1, 0x10054, 0x10054, 0x10054, 0xc, 0xc, 4, 0x10000, 1, 0x11000, 0x20000, 0x20000,
        4, 0x1000, 5, 0x1000,
    ],
    locator: [0x45454c4e, 2, 0x11004, 0xc],
    delta: 65536,
    behind: &[
        (69632, &[0x636f6465]),
        (
            69636,
            &[
                0x10000, 0xb0, 3, 9, 0, 0, 0, 0x21, 0, 0, 0, 0, 0, 1, 8, 3, 0x20000, 0xffff, 4, 0,
                0, 1, 0,
            ],
        ),
    ],
};

#[test]
fn sections_behind_the_text(rt: HostRuntime) -> Result<(), Fail> {
    expect(&rt, rt.alloc(), &BEHIND)
}

/// The second section would lie across the end of the file.
const ACROSS: Case = Case {
    original: &[
        0x7f454c46, 0x01020100, 0, 0, 0x20002, 1, 0x10054, 0x34, 0x60, 7, 0x00340020, 0x10028,
        0x20001, 1, 0x54, 0x10054, 0x10054, 0xc, 0xc, 5, 4, 0x82102001, 0x90102003, 0x91d02010, 1,
        2, 3, 4, 5, 6, 7, 8, 9, 0xa, 0xb, 0xc, 0xd, 0xe, 0xf, 0x10, 0x11, 0x12, 0x13,
    ],
    added: &[],
    entry: 0x10058,
    notes: &[],
    headers: &[
        0x7f454c46, 0x01020100, 0, 0, 0x20002, 1, 0x10058, 0x34, 0, 7, 0x00340020, 0x10028, 0, 1,
        0x1054, 0x10054, 0x10054, 0xc, 0xc, 4, 4,
    ],
    locator: [0x45454c4e, 2, 0x10ac, 0],
    delta: 4096,
    behind: &[],
};

#[test]
fn sections_across_the_end(rt: HostRuntime) -> Result<(), Fail> {
    expect(&rt, rt.alloc(), &ACROSS)
}

/// No section, but a number of them, and eight segments, some of which have no bytes.
const EIGHT: Case = Case {
    original: &[
        0x7f454c46, 0x01020100, 0, 0, 0x20002, 1, 0x10054, 0x34, 0, 7, 0x00340020, 0x10028,
        0x30002, 1, 0x54, 0x10054, 0x10054, 0xc, 0xc, 5, 4, 0x82102001, 0x90102003, 0x91d02010,
    ],
    added: &[
        ([0x20000, 0x1000, 4], b""),
        ([0x21000, 0x1000, 5], b"1111"),
        ([0x22000, 0x1000, 6], b"22222222"),
        ([0x23000, 0x1000, 4], b""),
        ([0x24000, 0x1000, 5], b"4444"),
        ([0x25000, 0x1000, 6], b"55555555"),
        ([0x26000, 0x1000, 4], b""),
        ([0x27000, 0x1000, 5], b"7777"),
    ],
    entry: 0x10054,
    notes: &[1],
    headers: &[
        0x7f454c46, 0x01020100, 0, 0, 0x20002, 1, 0x10054, 0x34, 0, 7, 0x00340020, 0x90028, 0, 1,
        0x1054, 0x10054, 0x10054, 0xc, 0xc, 4, 4, 1, 0x2000, 0x20000, 0x20000, 0, 0x1000, 4,
        0x1000, 1, 0x2000, 0x21000, 0x21000, 4, 0x1000, 5, 0x1000, 1, 0x3000, 0x22000, 0x22000, 8,
        0x1000, 6, 0x1000, 1, 0x4000, 0x23000, 0x23000, 0, 0x1000, 4, 0x1000, 1, 0x4000, 0x24000,
        0x24000, 4, 0x1000, 5, 0x1000, 1, 0x5000, 0x25000, 0x25000, 8, 0x1000, 6, 0x1000, 1,
        0x6000, 0x26000, 0x26000, 0, 0x1000, 4, 0x1000, 1, 0x6000, 0x27000, 0x27000, 4, 0x1000, 5,
        0x1000,
    ],
    locator: [0x45454c4e, 2, 0x6004, 4],
    delta: 4096,
    behind: &[
        (8192, &[0x31313131]),
        (12288, &[0x32323232, 0x32323232]),
        (16384, &[0x34343434]),
        (20480, &[0x35353535, 0x35353535]),
        (24576, &[0x37373737]),
        (24580, &[1]),
    ],
};

#[test]
fn eight_segments(rt: HostRuntime) -> Result<(), Fail> {
    expect(&rt, rt.alloc(), &EIGHT)
}
