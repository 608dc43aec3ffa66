//! The written file.
ghost use Rattle.std.specs.Prelude.{◌≡◌, [], ◌∷◌, ◌++◌, length, map, IfOk, OnOk};
ghost use Rattle.elf32_sparc.specs.Image.{image_of};
ghost use Rattle.elf32_write.specs.Kept.{words_bytes};
ghost use Rattle.elf32_write.specs.Bytes.{padded_to, next_page};
ghost use Rattle.elf32_write.specs.Headers.{segment_seen};
ghost use Rattle.elf32_write.specs.Written.{locator_at, with_segments, written};
ghost use Rattle.elf32_write.specs.Conditions.{CanWrite};

use crate::bytes::{pad_to, put_words};
use crate::headers::{count_carried, put_added_headers, put_carried_headers, put_file_header};
use crate::layout::{Layout, PAGE_SIZE};
use crate::sections::{put_sections, table_size};
use crate::segment::NewSegment;
use eel_base::{Addr, NoMemory};
use elf32_sparc::{Image, read_headers};
use std::alloc::Global;

/// Where the locator of the notes stands, and how it begins: `EELN` and the version.
const LOCATOR_AT: usize = 4032;

const LOCATOR: u32 = 0x4545_4c4e;

const NOTES_VERSION: u32 = 2;

/// The file in which the original stands whole, with these segments after its own, entered at `entry`.
pub fn write_around(
    alloc: Global,
    bytes: &[u8],
    image: &Image,
    added: &[NewSegment],
    entry: Addr,
    notes: &[u8],
) -> Result<Vec<u8>, NoMemory>
    requires original { CanWrite bytes.now (map segment_seen added.now) notes.now }
    requires image { image.now ≡ image_of bytes.now }
    ensures { IfOk result (λ file. file.items ≡ written bytes.now (map segment_seen added.now) entry.0 notes.now) }
{
    let layout = Layout::of(bytes, image, added, notes);
    let headers = read_headers(alloc, bytes)?;
    let segments = (count_carried(&headers) + added.len()) as u16;
    let size = layout.notes as usize + notes.len() + table_size(bytes);
    let mut out = Vec::with_capacity(alloc, size)?;
    put_file_header(&mut out, bytes, entry, segments, layout.sections)?;
    put_carried_headers(&mut out, &headers, layout.delta)?;
    put_added_headers(&mut out, layout.original_end, added)?;
    put_locator(&mut out, layout.notes, notes.len() as u32)?;
    pad_to(&mut out, layout.delta as usize)?;
    out.extend_from_slice(bytes)?;
    put_segments(&mut out, added)?;
    pad_to(&mut out, layout.notes as usize)?;
    out.extend_from_slice(notes)?;
    put_sections(&mut out, bytes, layout.delta)?;
    Ok(out)
}

/// The locator of notes that stand at an offset.
fn put_locator(out: &mut Vec<u8>, offset: u32, length: u32) -> Result<(), NoMemory>
    ensures { OnOk result (out.new.items ≡ padded_to locator_at out.old.items ++ words_bytes (0x45454c4e ∷ 2 ∷ offset ∷ length ∷ [])) }
{
    pad_to(out, LOCATOR_AT)?;
    put_words(out, &[LOCATOR, NOTES_VERSION, offset, length])?;
    Ok(())
}

/// The bytes of each segment, at the next page.
fn put_segments(out: &mut Vec<u8>, added: &[NewSegment]) -> Result<(), NoMemory>
    ensures { OnOk result (out.new.items ≡ with_segments out.old.items (map segment_seen added.now)) }
{
    for segment in added {
        put_at_page(out, &segment.bytes)?;
    }
    Ok(())
}

/// The bytes, at the next page.
fn put_at_page(out: &mut Vec<u8>, bytes: &[u8]) -> Result<(), NoMemory>
    ensures { OnOk result (out.new.items ≡ padded_to (next_page (length out.old.items)) out.old.items ++ bytes.now) }
{
    pad_to(out, out.len().next_multiple_of(PAGE_SIZE as usize))?;
    out.extend_from_slice(bytes)?;
    Ok(())
}
