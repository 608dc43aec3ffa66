//! The segments that are added.
use eel_base::Addr;
use elf32_sparc::SegFlags;

/// A segment to add: where it stands in memory, how long it is there, its flags, and the bytes that it begins
/// with; zeros follow.
#[derive(Drop)]
pub struct NewSegment {
    pub vaddr: Addr,
    pub memsz: u32,
    pub flags: SegFlags,
    pub bytes: Vec<u8>,
}
