//! Which parts of the address space hold text, and so how many blocks a table has.

ghost use Rattle.std.specs.Prelude.{◌≡◌, ◌+◌, ◌^◌, ◌≤◌};
ghost use Rattle.eel_base.specs.Code.{IsText};
ghost use Rattle.addr_translate.specs.Entries.{is_among};
ghost use Rattle.addr_translate.specs.Table.{blocks, first_page, first_part, last_byte as last_byte_of, pages, parts, size_of};

use eel_base::Text;

/// The bytes of a block of the table: 1,024 words.
pub const BLOCK: u32 = 4096;

/// The bytes for which there is one block of the second level.
pub const PART: u32 = 1 << 22;

/// The bytes for which there is one block of the third level.
pub const PAGE: u32 = 1 << 12;

/// Parts of the address space, all of one size, one after the other: the number of the first, and how many.
#[derive(Clone, Copy)]
pub struct Parts {
    pub first: u32,
    pub count: u32,
}

impl Parts {
    /// Whether this is the number of one.
    pub fn contains(self, number: u32) -> bool
        ensures { result ≡ is_among self.first self.count number }
    {
        self.first <= number && number - self.first < self.count
    }
}

/// The address of the text's last byte.
pub fn last_byte(text: &Text) -> u32
    ensures value { result ≡ last_byte_of text.now }
    ensures text { IsText text.now }
{
    text.start().0 + 4 * text.len() - 1
}

/// The parts of 4 MiB that hold text.
pub fn parts_of(text: &Text) -> Parts
    ensures first { result.first ≡ first_part text.now }
    ensures count { result.count ≡ parts text.now }
    ensures few { result.count ≤ 2 }
    ensures below { result.first + result.count ≤ 512 }
    ensures text { IsText text.now }
{
    let first = text.start().0 / PART;
    let last = last_byte(text) / PART;
    Parts {
        first,
        count: last - first + 1,
    }
}

/// The pages of 4 KiB that hold text.
pub fn pages_of(text: &Text) -> Parts
    ensures first { result.first ≡ first_page text.now }
    ensures count { result.count ≡ pages text.now }
    ensures few { result.count ≤ 1025 }
    ensures below { result.first + result.count ≤ 2 ^ 19 }
{
    let first = text.start().0 / PAGE;
    let last = last_byte(text) / PAGE;
    Parts {
        first,
        count: last - first + 1,
    }
}

/// How many blocks the table of a text has.
pub fn block_count(text: &Text) -> u32
    ensures value { result ≡ blocks text.now }
    ensures few { result ≤ 1030 }
    ensures text { IsText text.now }
{
    3 + parts_of(text).count + pages_of(text).count
}

/// How many bytes the table of a text has: 4096 for each block. There is a block for the first level, one of each
/// other level for all that holds no text, and one for each part of 4 MiB and each page of 4 KiB that holds text.
pub fn table_size(text: &Text) -> u32
    ensures { result ≡ size_of text.now }
{
    BLOCK * block_count(text)
}
