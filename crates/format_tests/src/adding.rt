//! Which segments the tests may add: what the writer asks of its caller.
ghost use Rattle.std.specs.Prelude.{◌≡◌, IsTrue, None, map};
ghost use Rattle.elf32_sparc.specs.FileFault.{fault};
ghost use Rattle.elf32_sparc.specs.Image.{highest_end, image_of};
ghost use Rattle.elf32_write.specs.Headers.{segment_seen};
ghost use Rattle.elf32_write.specs.Conditions.{CanWrite};
ghost use Rattle.format_tests.specs.Written.{AreAdded};

use elf32_sparc::{Image, Segment};
use elf32_write::NewSegment;

/// How many bytes of a segment or of notes there are in a test at most.
const MOST: usize = 4096;

/// Where the last of the segments ends.
fn end_of(segments: &[Segment]) -> u64
    ensures { result ≡ highest_end segments.now }
{
    segments.iter().fold(0, |end, segment| {
        end.max(u64::from(segment.vaddr.0) + u64::from(segment.memsz))
    })
}

/// The segments can be added after one that ends at `end`.
fn are_added(end: u64, added: &[NewSegment]) -> bool
    ensures { IsTrue result → AreAdded end (map segment_seen added.now) }
{
    match added.split_first() {
        None => end <= 1 << 32,
        Some((first, rest)) => {
            let size = first.bytes.len();
            let start = u64::from(first.vaddr.0);
            let has_room = size <= MOST && size <= first.memsz as usize && end <= start;
            has_room && are_added(start + u64::from(first.memsz), rest)
        }
    }
}

/// The segments and the notes can be written around the file.
pub fn can_write(bytes: &[u8], image: &Image, added: &[NewSegment], notes: &[u8]) -> bool
    requires fault { fault bytes.now ≡ None }
    requires image { image.now ≡ image_of bytes.now }
    ensures { IsTrue result → CanWrite bytes.now (map segment_seen added.now) notes.now }
{
    bytes.len() <= MOST
        && notes.len() <= MOST
        && added.len() <= 8
        && are_added(end_of(image.segments()), added)
}
