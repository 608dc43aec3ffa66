//! The fields of a file's headers.
ghost use Rattle.std.specs.Prelude.{◌≡◌, ◌+◌, ◌<◌, ◌^◌, Some};
ghost use Rattle.elf32_sparc.specs.Header.{half_at, word_at, program_header, is_load, is_loadable, end_of, is_text};
ghost use Rattle.elf32_sparc.specs.FileFault.{is_dynamic, leaves_file, leaves_room, is_last_page, is_aligned, is_misshapen, word_count, is_word_address};

use crate::flags::SegFlags;
use bitflags::Flags;
use eel_base::{be16_at, be32_at};

pub(crate) const FILE_HEADER_SIZE: usize = 52;

pub(crate) const PROGRAM_HEADER_SIZE: usize = 32;

// Places of the fields of the file header that are read.
pub(crate) const E_ENTRY: usize = 24;

pub(crate) const E_PHOFF: usize = 28;

pub(crate) const E_PHNUM: usize = 44;

/// The addresses of a program, and the greatest alignment.
const MEMORY_START: u32 = 0x1000;

const MEMORY_END: u64 = 0x8000_0000;

const MOST_ALIGN: u32 = 1 << 20;

/// The page at the top of all addresses.
const LAST_PAGE: u32 = 0xffff_f000;

const PAGE_SIZE: u32 = 4096;

/// The halfword at `at`, or 0 where the bytes end before it does.
#[tactic(auto, unfolding(crate::specs::Header::half_at))]
pub(crate) fn half_at(bytes: &[u8], at: usize) -> u16
    ensures { result ≡ half_at bytes.now at }
{
    be16_at(bytes, at).unwrap_or(0)
}

/// The word at `at`, or 0 where the bytes end before it does.
#[tactic(auto, unfolding(crate::specs::Header::word_at))]
pub(crate) fn word_at(bytes: &[u8], at: usize) -> u32
    ensures { result ≡ word_at bytes.now at }
{
    be32_at(bytes, at).unwrap_or(0)
}

/// An entry of the table of program headers.
#[derive(Clone, Copy)]
pub struct ProgramHeader {
    pub p_type: u32,
    pub p_offset: u32,
    pub p_vaddr: u32,
    pub p_paddr: u32,
    pub p_filesz: u32,
    pub p_memsz: u32,
    pub p_flags: u32,
    pub p_align: u32,
}

impl ProgramHeader {
    /// The entry at `at`.
    #[tactic(auto, unfolding(crate::specs::Header::program_header))]
    pub(crate) fn read(bytes: &[u8], at: usize) -> ProgramHeader
        requires { at + 32 < 2 ^ 64 }
        ensures header { result ≡ program_header bytes.now at }
        ensures memory { result.p_memsz < 2 ^ 32 }
    {
        ProgramHeader {
            p_type: word_at(bytes, at),
            p_offset: word_at(bytes, at + 4),
            p_vaddr: word_at(bytes, at + 8),
            p_paddr: word_at(bytes, at + 12),
            p_filesz: word_at(bytes, at + 16),
            p_memsz: word_at(bytes, at + 20),
            p_flags: word_at(bytes, at + 24),
            p_align: word_at(bytes, at + 28),
        }
    }

    pub fn is_load(&self) -> bool
        ensures { result ≡ is_load self.now }
    {
        self.p_type == 1
    }

    pub fn is_loadable(&self) -> bool
        ensures { result ≡ is_loadable self.now }
    {
        self.is_load() && self.p_memsz > 0
    }

    /// Where its memory ends.
    pub(crate) fn end(&self) -> u64
        ensures { result ≡ end_of self.now }
    {
        u64::from(self.p_vaddr) + u64::from(self.p_memsz)
    }

    /// It says that it is dynamic, or asks for an interpreter.
    pub(crate) fn is_dynamic(&self) -> bool
        ensures { result ≡ is_dynamic self.now }
    {
        self.p_type == 2 || self.p_type == 3
    }

    /// It is loaded from outside a file of this size, or has no room in memory for its bytes.
    pub(crate) fn leaves_file(&self, size: usize) -> bool
        ensures { result ≡ leaves_file size self.now }
    {
        let file_end = u64::from(self.p_offset) + u64::from(self.p_filesz);
        let is_outside = self.p_filesz > 0 && file_end > size as u64;
        self.is_load() && (self.p_filesz > self.p_memsz || is_outside)
    }

    /// Its memory isn't that of a program.
    pub(crate) fn leaves_room(&self) -> bool
        ensures { result ≡ leaves_room self.now }
    {
        self.p_vaddr < MEMORY_START || self.end() > MEMORY_END
    }

    /// Its memory is the page at the top of all addresses.
    pub(crate) fn is_last_page(&self) -> bool
        ensures { result ≡ is_last_page self.now }
    {
        self.p_vaddr == LAST_PAGE && self.p_memsz == PAGE_SIZE
    }

    pub(crate) fn is_aligned(&self) -> bool
        ensures { result ≡ is_aligned self.now }
    {
        let align = self.p_align;
        align == 0
            || (align.is_power_of_two()
                && align <= MOST_ALIGN
                && self.p_vaddr % align == self.p_offset % align)
    }

    pub fn is_text(&self) -> bool
        ensures { result ≡ is_text self.now }
    {
        let flags = SegFlags(self.p_flags);
        self.is_loadable() && flags.contains(SegFlags::PF_X) && !flags.contains(SegFlags::PF_W)
    }

    /// As a text it doesn't begin at a word, or has none.
    pub(crate) fn is_misshapen(&self) -> bool
        ensures { result ≡ is_misshapen self.now }
    {
        self.p_vaddr % 4 != 0 || self.p_memsz < 4
    }

    /// How many whole words it has.
    pub(crate) fn word_count(&self) -> u32
        ensures { result ≡ word_count self.now }
    {
        self.p_memsz / 4
    }

    /// A whole word of it has this address.
    pub(crate) fn has_word_at(&self, address: u32) -> bool
        ensures { result ≡ is_word_address address self.now }
    {
        if address < self.p_vaddr {
            return false;
        }
        let distance = address - self.p_vaddr;
        distance % 4 == 0 && distance / 4 < self.word_count()
    }
}
