//! The image of a file that can be edited.
ghost use Rattle.std.specs.Prelude.{◌≡◌, ◌+◌, ◌%◌, ◌^◌, ◌<◌, ◌≤◌, length, map, take, drop, slice_index, IfOk};
ghost use Rattle.std.specs.List.{All};
ghost use Rattle.byteorder.specs.Endian.{big_number};
ghost use Rattle.eel_base.specs.Code.{IsText};
ghost use Rattle.elf32_sparc.specs.Header.{e_entry, program_headers, loadable};
ghost use Rattle.elf32_sparc.specs.FileFault.{fault};
ghost use Rattle.elf32_sparc.specs.Mapping.{file_bytes};
ghost use Rattle.elf32_sparc.specs.Image.{segment_of, segment_end, highest_end, rounded_up, words_of, text_from, image_of};
ghost use Rattle.elf32_sparc.specs.Code.{refusal};

use crate::fault::ReadFault;
use crate::flags::SegFlags;
use crate::header::{
    E_ENTRY, E_PHNUM, E_PHOFF, PROGRAM_HEADER_SIZE, ProgramHeader, half_at, word_at,
};
use crate::sections::{Func, read_funcs};
use crate::survey::Survey;
use crate::verdicts::verdict;
use byteorder::{BigEndian, ByteOrder};
use eel_base::{Addr, NoMemory, Text, WordNo};
use std::alloc::Global;
use std::marker::Model;

/// A loadable entry of the table of program headers.
#[derive(Clone, Copy)]
pub struct Segment {
    pub offset: u32,
    pub vaddr: Addr,
    pub filesz: u32,
    pub memsz: u32,
    pub flags: SegFlags,
    pub align: u32,
}

impl Segment {
    fn of(header: &ProgramHeader) -> Segment
        ensures { result ≡ segment_of header.now }
    {
        Segment {
            offset: header.p_offset,
            vaddr: Addr(header.p_vaddr),
            filesz: header.p_filesz,
            memsz: header.p_memsz,
            flags: SegFlags(header.p_flags),
            align: header.p_align,
        }
    }

    /// The bytes of its file that its memory begins with.
    pub fn file_bytes<'a>(&self, bytes: &'a [u8]) -> &'a [u8]
        ensures { result.now ≡ take self.now.filesz (drop self.now.offset bytes.now) }
    {
        part(bytes, self.offset, self.filesz)
    }

    /// Where its memory ends.
    fn end(&self) -> u64
        ensures { result ≡ segment_end self.now }
    {
        u64::from(self.vaddr.0) + u64::from(self.memsz)
    }
}

/// A program as its file has it: its segments in the file's order, its text and function symbols, and where
/// there is room for more.
#[derive(Drop)]
pub struct Image {
    segments: Vec<Segment>,
    text: Text,
    funcs: Vec<Func>,
    entry: WordNo,
    base: Addr,
}

impl Model for Image {
    ghost use Rattle.elf32_sparc.specs.Image.{Program, room_from};
    ghost use Rattle.elf32_sparc.specs.Code.{IsProgram};

    ghost Value = { Program };

    ghost view = { λ i. record { segments = i.segments.items; text = i.text; funcs = i.funcs.items; entry = i.entry.0; base = i.base.0; room = room_from i.base.0 } };

    ghost invariant = { λ i. IsProgram (record { segments = i.segments.items; text = i.text; funcs = i.funcs.items; entry = i.entry.0; base = i.base.0; room = room_from i.base.0 }) };
}

/// The end of the addresses of a program, and the most room that is used.
const MEMORY_END: u32 = 0x8000_0000;

const MOST_ROOM: u32 = 1 << 30;

impl Image {
    /// The entries that take memory, in the file's order.
    #[inline]
    pub fn segments(&self) -> &[Segment]
        ensures { result.now ≡ self.now.segments }
    {
        &self.segments
    }

    /// The words of the segment that can be executed and not written.
    #[inline]
    pub fn text(&self) -> &Text
        ensures { result.now ≡ self.now.text }
    {
        &self.text
    }

    /// The function symbols at words of the text, in the order of the file's symbol table.
    #[inline]
    pub fn funcs(&self) -> &[Func]
        ensures funcs { result.now ≡ self.now.funcs }
        ensures inside { All (λ func. func.start.0 < length self.now.text.words) self.now.funcs }
    {
        &self.funcs
    }

    /// Where the program starts.
    #[inline]
    pub fn entry(&self) -> WordNo
        ensures word { result.0 ≡ self.now.entry }
        ensures inside { self.now.entry < length self.now.text.words }
    {
        self.entry
    }

    /// The first address above the segments that is a multiple of 64 KiB.
    #[inline]
    pub fn base(&self) -> Addr
        ensures address { result.0 ≡ self.now.base }
        ensures aligned { self.now.base % 0x10000 ≡ 0 }
        ensures below { self.now.base ≤ 0x80000000 }
    {
        self.base
    }

    /// How many bytes from the base on may be used.
    #[inline]
    pub fn room(&self) -> u32
        ensures { result ≡ self.now.room }
    {
        MOST_ROOM.min(MEMORY_END - self.base.0)
    }
}

/// The image of the file, or its first fault.
pub fn read_image(alloc: Global, bytes: &[u8]) -> Result<Image, ReadFault>
    ensures fault { refusal result ≡ fault bytes.now }
    ensures image { IfOk result (λ image. image ≡ image_of bytes.now) }
{
    if let Some(fault) = verdict(bytes) {
        return Err(ReadFault::File(fault));
    }
    let Some(header) = Survey::of(bytes).text else {
        unreachable!();
    };
    let text = read_text(alloc, bytes, &header)?;
    let segments = read_segments(alloc, bytes)?;
    let funcs = read_funcs(alloc, bytes, &text)?;
    let entry = WordNo((word_at(bytes, E_ENTRY) - header.p_vaddr) / 4);
    let base = base_above(&segments);
    Ok(Image {
        segments,
        text,
        funcs,
        entry,
        base,
    })
}

/// The segments of all loadable entries, in the file's order.
pub fn read_segments(alloc: Global, bytes: &[u8]) -> Result<Vec<Segment>, NoMemory>
    ensures { IfOk result (λ segments. segments.items ≡ map segment_of (loadable (program_headers bytes.now))) }
{
    let table = word_at(bytes, E_PHOFF) as usize;
    let mut segments = Vec::new(alloc);
    for number in 0..half_at(bytes, E_PHNUM) as usize {
        let header = ProgramHeader::read(bytes, table + PROGRAM_HEADER_SIZE * number);
        if header.is_loadable() {
            segments.push(Segment::of(&header))?;
        }
    }
    Ok(segments)
}

/// Where the program starts, as its file has it.
pub fn read_entry(bytes: &[u8]) -> Addr
    ensures { result.0 ≡ e_entry bytes.now }
{
    Addr(word_at(bytes, E_ENTRY))
}

/// The first address above the segments that is a multiple of 64 KiB.
fn base_above(segments: &[Segment]) -> Addr
    requires { highest_end segments.now ≤ 0x80000000 }
    ensures { result.0 ≡ rounded_up (highest_end segments.now) }
{
    let end = segments
        .iter()
        .fold(0, |end, segment| segment.end().max(end));
    Addr(((end + 0xffff) / 0x10000 * 0x10000) as u32)
}

/// The text of an entry's memory.
fn read_text(alloc: Global, bytes: &[u8], header: &ProgramHeader) -> Result<Text, NoMemory>
    requires { IsText (text_from bytes.now header.now) }
    ensures { IfOk result (λ text. text ≡ text_from bytes.now header.now) }
{
    let words = read_words(alloc, file_bytes(bytes, header), header.word_count())?;
    match Text::new(Addr(header.p_vaddr), words) {
        Some(text) => Ok(text),
        None => unreachable!(),
    }
}

/// The bytes of the file that an entry's memory begins with.
fn file_bytes<'a>(bytes: &'a [u8], header: &ProgramHeader) -> &'a [u8]
    ensures { result.now ≡ file_bytes bytes.now header.now }
{
    part(bytes, header.p_offset, header.p_filesz)
}

/// The bytes from `offset` on, and at most `count` of them.
pub(crate) fn part(bytes: &[u8], offset: u32, count: u32) -> &[u8]
    ensures { result.now ≡ take count (drop offset bytes.now) }
{
    match bytes.get(offset as usize..) {
        Some(rest) => &rest[..rest.len().min(count as usize)],
        None => &[],
    }
}

/// The first `count` words of the bytes, with zeros after the last byte.
fn read_words(alloc: Global, bytes: &[u8], count: u32) -> Result<Vec<u32>, NoMemory>
    ensures { IfOk result (λ words. words.items ≡ words_of count bytes.now) }
{
    let mut words = Vec::with_capacity(alloc, count as usize)?;
    for number in 0..count as usize {
        words.push(padded_word_at(bytes, 4 * number))?;
    }
    Ok(words)
}

/// The word at `at`, with zeros after the last byte.
fn padded_word_at(bytes: &[u8], at: usize) -> u32
    requires { at + 4 < 2 ^ 64 }
    ensures { result ≡ big_number 4 (drop at bytes.now) }
{
    BigEndian::read_u32(&[
        byte_or_zero(bytes, at),
        byte_or_zero(bytes, at + 1),
        byte_or_zero(bytes, at + 2),
        byte_or_zero(bytes, at + 3),
    ])
}

/// The byte at `at`, or 0 after the last.
pub(crate) fn byte_or_zero(bytes: &[u8], at: usize) -> u8
    ensures { result ≡ slice_index bytes.now at }
{
    bytes.get(at).copied().unwrap_or(0)
}
