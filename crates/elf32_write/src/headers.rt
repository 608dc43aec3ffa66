//! The headers of a written file.
ghost use Rattle.std.specs.Prelude.{◌≡◌, ◌++◌, ◌<◌, ◌≤◌, ◌^◌, length, map, filter, OnOk};
ghost use Rattle.std.specs.List.{flat_map};
ghost use Rattle.elf32_sparc.specs.Symbols.{section_count};
ghost use Rattle.elf32_write.specs.Headers.{segment_seen, segments_end, added_header as added_header_of, added_headers, is_carried as is_carried_of, carried_on as carried_on_of, carried_headers, program_header, section_names as section_names_of, file_header};

use crate::bytes::{put_halves, put_words};
use crate::layout::PAGE_SIZE;
use crate::segment::NewSegment;
use eel_base::{Addr, NoMemory, be16_at, be32_at};
use elf32_sparc::{ProgramHeader, has_sections};

// Places of the fields of the original's header that are taken over.
const E_FLAGS: usize = 36;

const E_SHNUM: usize = 48;

const E_SHSTRNDX: usize = 50;

// Types of entries, and a flag.
const PT_LOAD: u32 = 1;

const PT_PHDR: u32 = 6;

const PF_X: u32 = 1;

/// The header of the file, with so many program headers and the section table at `sections`.
#[tactic(auto, using(std::proofs::lemmas::List::append_assoc), unfolding(elf32_sparc::specs::Header::word_at))]
pub(crate) fn put_file_header(
    out: &mut Vec<u8>,
    bytes: &[u8],
    entry: Addr,
    segments: u16,
    sections: u32,
) -> Result<(), NoMemory>
    requires { 52 ≤ length bytes.now }
    ensures { OnOk result (out.new.items ≡ out.old.items ++ file_header bytes.now entry.0 segments sections) }
{
    let flags = be32_at(bytes, E_FLAGS).unwrap_or(0);
    out.extend_from_slice(&bytes[..16])?;
    put_halves(out, &[2, 2])?;
    put_words(out, &[1, entry.0, 52, sections, flags])?;
    put_halves(
        out,
        &[
            52,
            32,
            segments,
            40,
            section_count(bytes),
            section_names(bytes),
        ],
    )?;
    Ok(())
}

/// How many sections the original has, where its table can be read.
#[tactic(auto, unfolding(elf32_sparc::specs::Header::half_at))]
pub(crate) fn section_count(bytes: &[u8]) -> u16
    ensures { result ≡ section_count bytes.now }
{
    if has_sections(bytes) {
        be16_at(bytes, E_SHNUM).unwrap_or(0)
    } else {
        0
    }
}

/// The number of the section with their names.
#[tactic(auto, unfolding(elf32_sparc::specs::Header::half_at))]
fn section_names(bytes: &[u8]) -> u16
    ensures { result ≡ section_names_of bytes.now }
{
    if has_sections(bytes) {
        be16_at(bytes, E_SHSTRNDX).unwrap_or(0)
    } else {
        0
    }
}

/// How many of the headers are carried on.
pub(crate) fn count_carried(headers: &[ProgramHeader]) -> usize
    ensures count { result ≡ length (filter is_carried_of headers.now) }
    ensures few { result ≤ length headers.now }
{
    headers.iter().filter(|header| is_carried(header)).count()
}

/// The headers of the original that are carried on.
pub(crate) fn put_carried_headers(
    out: &mut Vec<u8>,
    headers: &[ProgramHeader],
    delta: u32,
) -> Result<(), NoMemory>
    ensures { OnOk result (out.new.items ≡ out.old.items ++ flat_map program_header (carried_headers delta headers.now)) }
{
    for header in headers {
        if is_carried(header) {
            put_header(out, &carried_on(header, delta))?;
        }
    }
    Ok(())
}

/// The headers of the segments that are added after a file that ends at `end`.
pub(crate) fn put_added_headers(
    out: &mut Vec<u8>,
    end: u32,
    added: &[NewSegment],
) -> Result<(), NoMemory>
    requires { segments_end end (map segment_seen added.now) < 2 ^ 32 }
    ensures { OnOk result (out.new.items ≡ out.old.items ++ flat_map program_header (added_headers end (map segment_seen added.now))) }
{
    let mut file_end = end;
    for segment in added {
        let offset = file_end.next_multiple_of(PAGE_SIZE);
        put_header(out, &added_header(offset, segment))?;
        file_end = offset + segment.bytes.len() as u32;
    }
    Ok(())
}

/// The header of a segment whose bytes stand at an offset.
fn added_header(offset: u32, segment: &NewSegment) -> ProgramHeader
    requires { length segment.now.bytes.items < 2 ^ 32 }
    ensures { result ≡ added_header_of offset (segment_seen segment.now) }
{
    ProgramHeader {
        p_type: PT_LOAD,
        p_offset: offset,
        p_vaddr: segment.vaddr.0,
        p_paddr: segment.vaddr.0,
        p_filesz: segment.bytes.len() as u32,
        p_memsz: segment.memsz,
        p_flags: segment.flags.0,
        p_align: PAGE_SIZE,
    }
}

/// It is neither that of the table itself, nor an empty one to load.
fn is_carried(header: &ProgramHeader) -> bool
    ensures { result ≡ is_carried_of header.now }
{
    let is_table = header.p_type == PT_PHDR;
    let is_empty = header.is_load() && header.p_memsz == 0;
    !is_table && !is_empty
}

/// The header with its bytes `delta` further on, and the text no longer executable.
fn carried_on(header: &ProgramHeader, delta: u32) -> ProgramHeader
    ensures { result ≡ carried_on_of delta header.now }
{
    let flags = header.p_flags;
    ProgramHeader {
        p_offset: header.p_offset.wrapping_add(delta),
        p_flags: if header.is_text() {
            flags & !PF_X
        } else {
            flags
        },
        ..*header
    }
}

#[tactic(auto, unfolding(crate::specs::Headers::program_header))]
fn put_header(out: &mut Vec<u8>, header: &ProgramHeader) -> Result<(), NoMemory>
    ensures { OnOk result (out.new.items ≡ out.old.items ++ program_header header.now) }
{
    put_words(
        out,
        &[
            header.p_type,
            header.p_offset,
            header.p_vaddr,
            header.p_paddr,
            header.p_filesz,
            header.p_memsz,
            header.p_flags,
            header.p_align,
        ],
    )?;
    Ok(())
}
