//! The written file: an original, whole, with segments and notes around it.
//!
//! The laws say of every written file what those who read it, map it or run it need to know.
#![tactic(auto)]

ghost use Rattle.elf32_write.specs.Laws.{OriginalIsHeld, NotesAreRead, SegmentsAreMapped, FileLoads, EntryIsGiven, SizeIsBounded, FileIsBytes};

mod bytes;
mod file;
mod headers;
mod layout;
mod sections;
mod segment;

pub use bytes::put_words;
pub use file::write_around;
pub use layout::delta;
pub use segment::NewSegment;

/// The original stands whole in the written file, at its delta.
pub fn original_is_held()
    ensures { OriginalIsHeld }
{}

/// The notes of the written file are those that were given.
pub fn notes_are_read()
    ensures { NotesAreRead }
{}

/// The written file maps what the original maps, its text no longer executable, and then the added segments.
pub fn segments_are_mapped()
    ensures { SegmentsAreMapped }
{}

/// The written file can be run, where the added segments can be loaded.
pub fn file_loads()
    ensures { FileLoads }
{}

/// The written file is entered where it was asked to be.
pub fn entry_is_given()
    ensures { EntryIsGiven }
{}

/// The written file has at most 4 MiB more than all that it holds.
pub fn size_is_bounded()
    ensures { SizeIsBounded }
{}

/// The written file is made of bytes, where its parts are.
pub fn file_is_bytes()
    ensures { FileIsBytes }
{}
