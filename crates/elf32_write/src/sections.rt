//! The section table of a written file.
ghost use Rattle.std.specs.Prelude.{◌≡◌, ◌+◌, ◌*◌, ◌^◌, ◌<◌, ◌++◌, take, drop, OnOk};
ghost use Rattle.elf32_sparc.specs.Symbols.{e_shoff};
ghost use Rattle.elf32_write.specs.Sections.{section_copy, section_entry as section_entry_of, section_table, moved};

use crate::bytes::put_words;
use crate::headers::section_count;
use eel_base::{NoMemory, be32_at};

const E_SHOFF: usize = 32;

const SECTION_HEADER_SIZE: usize = 40;

// Places of the fields of a section header.
const SH_TYPE: usize = 4;

const SH_OFFSET: usize = 16;

const SHT_NULL: u32 = 0;

/// How many bytes the copied table has.
pub(crate) fn table_size(bytes: &[u8]) -> usize
    ensures { result < 2 ^ 22 }
{
    SECTION_HEADER_SIZE * usize::from(section_count(bytes))
}

/// The original's section table, whose sections stand `delta` further on; no bytes where it can't be read.
#[tactic(auto, unfolding(crate::specs::Sections::section_table))]
pub(crate) fn put_sections(out: &mut Vec<u8>, bytes: &[u8], delta: u32) -> Result<(), NoMemory>
    ensures { OnOk result (out.new.items ≡ out.old.items ++ section_table delta bytes.now) }
{
    for number in 0..section_count(bytes) {
        put_section(out, section_entry(bytes, number), delta)?;
    }
    Ok(())
}

/// The entry of that number in the original's table.
fn section_entry(bytes: &[u8], number: u16) -> &[u8]
    ensures { result.now ≡ section_entry_of bytes.now number }
{
    part(bytes, entry_offset(bytes, number), SECTION_HEADER_SIZE)
}

#[tactic(auto, unfolding(elf32_sparc::specs::Header::word_at))]
fn entry_offset(bytes: &[u8], number: u16) -> usize
    ensures { result ≡ e_shoff bytes.now + 40 * number }
{
    let table = be32_at(bytes, E_SHOFF).unwrap_or(0) as usize;
    table + SECTION_HEADER_SIZE * usize::from(number)
}

/// The bytes from `at` on, and at most `count` of them.
fn part(bytes: &[u8], at: usize, count: usize) -> &[u8]
    ensures { result.now ≡ take count (drop at bytes.now) }
{
    match bytes.get(at..) {
        Some(rest) => &rest[..rest.len().min(count)],
        None => &[],
    }
}

/// An entry, with its sh_offset further on where it has a type.
#[tactic(auto, unfolding(crate::specs::Sections::section_copy, elf32_sparc::specs::Header::word_at))]
fn put_section(out: &mut Vec<u8>, entry: &[u8], delta: u32) -> Result<(), NoMemory>
    ensures { OnOk result (out.new.items ≡ out.old.items ++ section_copy delta entry.now) }
{
    let sh_type = be32_at(entry, SH_TYPE).unwrap_or(0);
    if sh_type == SHT_NULL {
        out.extend_from_slice(entry)?;
    } else {
        put_moved(out, entry, delta)?;
    }
    Ok(())
}

/// An entry with its sh_offset further on.
fn put_moved(out: &mut Vec<u8>, entry: &[u8], delta: u32) -> Result<(), NoMemory>
    ensures { OnOk result (out.new.items ≡ out.old.items ++ moved delta entry.now) }
{
    let sh_offset = be32_at(entry, SH_OFFSET).unwrap_or(0);
    let (before, after) = around_offset(entry);
    out.extend_from_slice(before)?;
    put_words(out, &[sh_offset.wrapping_add(delta)])?;
    out.extend_from_slice(after)?;
    Ok(())
}

/// What stands before the sh_offset of an entry, and after it.
fn around_offset(entry: &[u8]) -> (&[u8], &[u8])
    ensures before { result.0.now ≡ take 16 entry.now }
    ensures after { result.1.now ≡ drop 20 entry.now }
{
    let before = &entry[..entry.len().min(SH_OFFSET)];
    let after = entry.get(SH_OFFSET + 4..).unwrap_or(&[]);
    (before, after)
}
