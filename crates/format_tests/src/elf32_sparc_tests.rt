//! What no clause says: verdicts from outside, the displayed text, and that an image can be read.
use crate::building::{THREE_WORDS, bytes_of, edited};
use eel_base::{Addr, WordNo};
use elf32_sparc::{FileFault, ReadFault, SegFlags, load_verdict, read_image, verdict};
use std::alloc::{AllocError, Global};
use std::test::Fail;

/// The program with some of its words replaced, and more words after them.
fn file(alloc: Global, edits: &[(usize, u32)], more: &[u32]) -> Result<Vec<u8>, AllocError> {
    bytes_of(alloc, &edited(alloc, &[&THREE_WORDS, more], edits)?)
}

/// The number of a verdict, or 0.
fn number(verdict: Option<FileFault>) -> u8 {
    verdict.map_or(0, |fault| fault.code())
}

fn code(bytes: &[u8]) -> u8 {
    number(verdict(bytes))
}

fn load_code(bytes: &[u8]) -> u8 {
    number(load_verdict(bytes))
}

/// Edits, and the number of the verdict.
const ONE_SEGMENT: [(&[(usize, u32)], u8); 40] = [
    (&[], 0),
    (&[(0, 0)], 2),
    (&[(0, 0), (1, 0)], 2),
    (&[(1, 0x02020100)], 3),
    (&[(1, 0x01010100)], 4),
    (&[(1, 0x01020000)], 5),
    (&[(5, 2)], 5),
    (&[(5, 0), (1, 0x01010100)], 4),
    (&[(4, 0x00030002)], 6),
    (&[(4, 0x0002002b)], 7),
    (&[(10, 0x00330020)], 8),
    (&[(10, 0x00340028)], 8),
    (&[(11, 0)], 9),
    (&[(11, 0x00410000)], 9),
    (&[(7, 65)], 9),
    (&[(7, u32::MAX)], 9),
    (&[(13, 2)], 10),
    (&[(13, 3), (14, 0x55)], 10),
    (&[(18, 11)], 11),
    (&[(14, 0x55)], 11),
    (&[(14, u32::MAX)], 11),
    (&[(15, 0xffc)], 12),
    (&[(15, 0x7ffffff8)], 12),
    (&[(15, 0xfffff000), (18, 4096)], 12),
    (&[(15, 0xfffffffc), (20, 3)], 12),
    (&[(20, 3)], 14),
    (&[(20, 0x200000)], 14),
    (&[(15, 0x10058), (6, 0x10058)], 14),
    (&[(19, 7)], 15),
    (&[(19, 4), (6, 0)], 15),
    (&[(13, 0)], 15),
    (&[(15, 0x10056), (20, 1)], 17),
    (&[(17, 3), (18, 3)], 17),
    (&[(18, 0x400004)], 18),
    (&[(18, 0x400003)], 0),
    (&[(6, 0x10060)], 19),
    (&[(6, 0x10056)], 19),
    (&[(6, 0x10050)], 19),
    (&[(6, 0x1005c), (20, 0)], 0),
    (&[(19, 0xfffffffd)], 0),
];

#[test]
fn one_segment_has_its_verdict(rt: HostRuntime) -> Result<(), Fail> {
    for (edits, want) in ONE_SEGMENT {
        let bytes = file(rt.alloc(), edits, &[])?;
        assert_eq!(rt; code(&bytes), want, "after {edits:?}");
    }
    Ok(())
}

/// The type, offset, address, size in the file, size in memory, flags and alignment of a second entry,
/// and the number of the verdict.
const TWO_SEGMENTS: [([u32; 7], u8); 14] = [
    ([1, 0, 0x20000, 0, 16, 7, 0], 0),
    ([1, 0, 0x7fff0000, 0, 16, 6, 0], 0),
    ([1, 0, 0xfffff000, 0, 4096, 6, 0], 12),
    ([1, 0, 0x1005c, 0, 16, 6, 0], 13),
    ([1, 0, 0x10060, 0, 16, 6, 0], 0),
    ([1, 0, 0x10000, 0, 16, 6, 0], 13),
    ([1, 0, 0x20000, 0, 16, 5, 0], 16),
    ([1, 0, 0x20000, 0, 0x8000000 - 12, 6, 0], 0),
    ([1, 0, 0x20000, 0, 0x8000000 - 11, 6, 0], 20),
    // An entry that takes no memory is judged by its bytes in the file alone.
    ([1, 0, 0, 0, 0, 5, 3], 0),
    ([1, 0, 0, 1, 0, 5, 3], 11),
    // Another entry isn't judged.
    ([4, 0x55, 0, 16, 1, 5, 3], 0),
    // The earlier of two faults.
    ([3, 0, 0x1005c, 0, 16, 5, 3], 10),
    ([1, 0, 0x1005c, 0, 16, 5, 3], 13),
];

/// The program with such a second entry.
fn with_segment(alloc: Global, entry: [u32; 7]) -> Result<Vec<u8>, AllocError> {
    let [p_type, offset, vaddr, filesz, memsz, flags, align] = entry;
    let table = [
        1, 0x54, 0x10054, 0, 12, 12, 5, 0x10000, p_type, offset, vaddr, 0, filesz, memsz, flags,
        align,
    ];
    file(alloc, &[(7, 96), (11, 0x20000)], &table)
}

#[test]
fn a_second_segment_has_its_verdict(rt: HostRuntime) -> Result<(), Fail> {
    for (entry, want) in TWO_SEGMENTS {
        let bytes = with_segment(rt.alloc(), entry)?;
        assert_eq!(rt; code(&bytes), want, "with {entry:?}");
    }
    Ok(())
}

/// As above, of a file that is to be run.
const LOADED: [([u32; 7], u8); 13] = [
    ([1, 0, 0xfffff000, 0, 4096, 6, 4096], 0),
    ([1, 0, 0xfffff000, 0, 4095, 6, 0], 12),
    ([1, 0, 0xfffff000, 0, 4097, 6, 0], 12),
    ([1, 0, 0xffffe000, 0, 4096, 6, 0], 12),
    ([1, 4, 0xfffff000, 4, 4096, 6, 4096], 14),
    ([1, 0, 0x7ffff000, 0, 8192, 6, 0], 12),
    ([1, 0, 0x1005c, 0, 16, 6, 0], 13),
    ([1, 0x61, 0x20000, 64, 64, 6, 0], 11),
    ([1, 0, 0x20000, 0, 0x50000000 - 12, 6, 0], 0),
    ([1, 0, 0x20000, 0, 0x50000000 - 11, 6, 0], 20),
    // A second text, and an entry that is dynamic.
    ([1, 0, 0x20000, 0, 16, 5, 0], 0),
    ([2, 0, 0x20000, 0, 16, 5, 3], 0),
    // The earlier of two faults.
    ([1, 0, 0x1005c, 0, 0x7fffffff, 6, 0], 12),
];

#[test]
fn a_loaded_segment_has_its_verdict(rt: HostRuntime) -> Result<(), Fail> {
    for (entry, want) in LOADED {
        let bytes = with_segment(rt.alloc(), entry)?;
        assert_eq!(rt; load_code(&bytes), want, "with {entry:?}");
    }
    Ok(())
}

/// Edits, and the number of the verdict on a run.
const LOADED_WITHOUT_TEXT: [(&[(usize, u32)], u8); 6] = [
    (&[], 0),
    (&[(19, 6)], 0),
    (&[(6, 0)], 0),
    (&[(13, 0)], 0),
    (&[(9, 0), (4, 0x00030002)], 6),
    (&[(11, 0)], 9),
];

#[test]
fn a_file_without_a_text_loads(rt: HostRuntime) -> Result<(), Fail> {
    for (edits, want) in LOADED_WITHOUT_TEXT {
        let bytes = file(rt.alloc(), edits, &[])?;
        assert_eq!(rt; load_code(&bytes), want, "after {edits:?}");
    }
    Ok(())
}

#[test]
fn a_loaded_file_has_at_most_80_headers(rt: HostRuntime) -> Result<(), Fail> {
    let table = [0; 8 * 81];
    let most = file(rt.alloc(), &[(7, 96), (11, 0x500000)], &table)?;
    assert_eq!(rt; load_code(&most), 0);
    let more = file(rt.alloc(), &[(7, 96), (11, 0x510000)], &table)?;
    assert_eq!(rt; load_code(&more), 9);
    Ok(())
}

#[test]
fn a_cut_file_has_its_verdict(rt: HostRuntime) -> Result<(), Fail> {
    let bytes = file(rt.alloc(), &[], &[])?;
    let mut cut = Vec::new(rt.alloc());
    for byte in &bytes {
        let want = match cut.len() {
            0..52 => 1,
            52..84 => 9,
            _ => 11,
        };
        assert_eq!(rt; code(&cut), want, "at {}", cut.len());
        cut.push(*byte)?;
    }
    assert_eq!(rt; code(&cut), 0);
    assert_eq!(rt; code(&[0; 51]), 1);
    assert_eq!(rt; code(&[0; 52]), 2);
    let start = [0x7f, 0x45, 0x4c, 0x46, 2];
    let mut class = [0; 52];
    class[..5].copy_from_slice(&start);
    assert_eq!(rt; code(&class), 3);
    // As many headers as may be, and one more.
    let table = [0; 8 * 65];
    let most = file(rt.alloc(), &[(7, 96), (11, 0x400000)], &table)?;
    assert_eq!(rt; code(&most), 15);
    let more = file(rt.alloc(), &[(7, 96), (11, 0x410000)], &table)?;
    assert_eq!(rt; code(&more), 9);
    Ok(())
}

/// The faults with their numbers.
const FAULTS: [(FileFault, u8); 20] = [
    (FileFault::Short, 1),
    (FileFault::Magic, 2),
    (FileFault::Class, 3),
    (FileFault::Order, 4),
    (FileFault::Version, 5),
    (FileFault::Kind, 6),
    (FileFault::Machine, 7),
    (FileFault::HeaderSize, 8),
    (FileFault::Headers, 9),
    (FileFault::Dynamic, 10),
    (FileFault::SegmentFile, 11),
    (FileFault::SegmentRoom, 12),
    (FileFault::SegmentOrder, 13),
    (FileFault::Align, 14),
    (FileFault::NoText, 15),
    (FileFault::ManyTexts, 16),
    (FileFault::TextShape, 17),
    (FileFault::TextLarge, 18),
    (FileFault::Entry, 19),
    (FileFault::MemoryLarge, 20),
];

#[test]
fn faults_are_shown_by_name(rt: HostRuntime) -> Result<(), Fail> {
    for (fault, number) in FAULTS {
        assert_eq!(rt; fault.code(), number);
        let shown = format!(in rt.alloc(); "{fault}")?;
        let name = format!(in rt.alloc(); "{fault:?}")?;
        assert_eq!(rt; shown, name);
    }
    assert_eq!(rt;
        format!(in rt.alloc(); "{}", FileFault::Short)?.as_str(),
        "Short"
    );
    Ok(())
}

/// Ten bytes of the text are in the file, and 19 in memory. The other segment has none in the file.
const PADDED: [u32; 16] = [
    1, 0x54, 0x10054, 0, 10, 19, 0x80000005, 0x10000, 1, 0xffffffff, 0x7ffe0000, 0, 0, 0x10001, 6,
    0,
];

#[test]
fn a_padded_image_is_read(rt: HostRuntime) -> Result<(), Fail> {
    let bytes = file(rt.alloc(), &[(7, 96), (11, 0x20000)], &PADDED)?;
    let image = read_image(rt.alloc(), &bytes)?;
    assert_eq!(rt; image.segments().len(), 2);
    assert_eq!(rt; image.segments()[0].flags, SegFlags(0x80000005));
    assert_eq!(rt; image.segments()[1].memsz, 0x10001);
    let text = image.text();
    assert_eq!(rt; text.start(), Addr(0x10054));
    assert_eq!(rt; text.len(), 4);
    assert_eq!(rt; text.word(WordNo(1)), 0x90102003);
    assert_eq!(rt; text.word(WordNo(2)), 0x91d00000);
    assert_eq!(rt; text.word(WordNo(3)), 0);
    assert_eq!(rt; image.base(), Addr(0x80000000));
    assert_eq!(rt; image.room(), 0);
    Ok(())
}

#[test]
fn an_image_is_read(rt: HostRuntime) -> Result<(), Fail> {
    let bytes = file(rt.alloc(), &[(6, 0x10058)], &[])?;
    let image = read_image(rt.alloc(), &bytes)?;
    assert_eq!(rt; image.entry(), WordNo(1));
    assert_eq!(rt; image.base(), Addr(0x20000));
    assert_eq!(rt; image.room(), 1 << 30);

    let cut = bytes.get(..95).ok_or("cut")?;
    let fault = read_image(rt.alloc(), cut).err();
    assert_eq!(rt; fault, Some(ReadFault::File(FileFault::SegmentFile)));
    Ok(())
}
