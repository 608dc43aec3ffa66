//! Where the parts of a written file stand.
ghost use Rattle.std.specs.Prelude.{ℕ, List, ◌≡◌, ◌+◌, ◌<◌, ◌^◌, if◌then◌else◌, max, length, map};
ghost use Rattle.std.specs.List.{fold};
ghost use Rattle.elf32_sparc.specs.Image.{image_of};
ghost use Rattle.elf32_sparc.specs.Symbols.{has_sections};
ghost use Rattle.elf32_write.specs.Bytes.{next_word as next_word_of};
ghost use Rattle.elf32_write.specs.Headers.{segment_seen, segments_end};
ghost use Rattle.elf32_write.specs.Written.{delta_in, original_end, notes_at, sections_at};
ghost use Rattle.elf32_write.specs.Conditions.{CanWrite};

use crate::segment::NewSegment;
use elf32_sparc::{Image, Segment, has_sections};

pub(crate) const PAGE_SIZE: u32 = 4096;

const WORD_SIZE: u32 = 4;

/// The offsets of the parts.
#[derive(Clone, Copy)]
pub(crate) struct Layout {
    /// Where the original stands, and where it ends.
    pub(crate) delta: u32,
    pub(crate) original_end: u32,
    pub(crate) notes: u32,
    /// 0 where there is no section table.
    pub(crate) sections: u32,
}

impl Layout {
    pub(crate) fn of(bytes: &[u8], image: &Image, added: &[NewSegment], notes: &[u8]) -> Layout
        requires original { CanWrite bytes.now (map segment_seen added.now) notes.now }
        requires image { image.now ≡ image_of bytes.now }
        ensures delta { result.delta ≡ delta_in bytes.now }
        ensures original_end { result.original_end ≡ original_end bytes.now }
        ensures notes { result.notes ≡ notes_at bytes.now (map segment_seen added.now) }
        ensures sections { result.sections ≡ sections_at bytes.now (map segment_seen added.now) notes.now }
        ensures small { result.notes + length notes.now < 2 ^ 31 }
    {
        let delta = delta(image);
        let original_end = delta + bytes.len() as u32;
        let notes_at = next_word(segments_end(original_end, added));
        let notes_end = notes_at + notes.len() as u32;
        Layout {
            delta,
            original_end,
            notes: notes_at,
            sections: sections_at(bytes, notes_end),
        }
    }
}

/// The offset at which every file that is written around the original holds it. The notes name it.
pub fn delta(image: &Image) -> u32
    ensures { (original : List ℕ) → image.now ≡ image_of original → result ≡ delta_in original }
{
    delta_above(image.segments())
}

/// The first offset from there on at which a word may stand.
fn next_word(offset: u32) -> u32
    requires { next_word_of offset < 2 ^ 32 }
    ensures { result ≡ next_word_of offset }
{
    offset.next_multiple_of(WORD_SIZE)
}

/// Where the section table stands, if there is one.
fn sections_at(bytes: &[u8], notes_end: u32) -> u32
    ensures { result ≡ (if has_sections bytes.now then notes_end else 0) }
{
    if has_sections(bytes) { notes_end } else { 0 }
}

/// The greatest alignment, or that of a page.
fn delta_above(segments: &[Segment]) -> u32
    ensures { result ≡ fold (λ most segment. max most segment.align) 4096 segments.now }
{
    segments
        .iter()
        .fold(PAGE_SIZE, |most, segment| most.max(segment.align))
}

/// Where the bytes of the segments end, after a file that ends at `end`.
fn segments_end(end: u32, added: &[NewSegment]) -> u32
    requires { segments_end end (map segment_seen added.now) < 2 ^ 32 }
    ensures { result ≡ segments_end end (map segment_seen added.now) }
{
    let mut file_end = end;
    for segment in added {
        file_end = file_end.next_multiple_of(PAGE_SIZE) + segment.bytes.len() as u32;
    }
    file_end
}
