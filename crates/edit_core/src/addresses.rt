//! Where what is added to a program lies.
ghost use Rattle.std.specs.Prelude.{◌≡◌, ◌+◌, ◌^◌, ◌<◌, ◌≤◌};
ghost use Rattle.edit_core.specs.Written.{cases_at, cells_size as cells_size_of, table_after, tables_size as tables_size_of};

use crate::segments::PAGE_SIZE;
use addr_translate::{halves_size, table_size};
use eel_base::{Addr, Text};
use elf32_sparc::Image;
use image_code::DataAddresses;

/// Where the cells of an edit lie, the tables right behind them, and the code right behind those.
#[derive(Clone, Copy)]
pub(crate) struct AddressMap {
    /// Where the cells stand.
    pub base: Addr,
    /// How many there are.
    pub cells: u32,
}

impl AddressMap {
    /// The map of so many cells above a program's segments.
    pub(crate) fn above(image: &Image, cells: u32) -> AddressMap
        ensures base { result.base.0 ≡ image.now.base }
        ensures cells { result.cells ≡ cells }
    {
        AddressMap {
            base: image.base(),
            cells,
        }
    }

    /// Where the tables stand.
    pub(crate) fn table(self) -> Addr
        requires few { self.cells ≤ 2 ^ 23 }
        requires fits { table_after self.base.0 self.cells < 2 ^ 32 }
        ensures { result.0 ≡ table_after self.base.0 self.cells }
    {
        Addr(self.base.0 + cells_size(self.cells))
    }

    /// Where new code finds its data.
    pub(crate) fn data_addresses(self, text: &Text) -> DataAddresses
        requires few { self.cells ≤ 2 ^ 23 }
        requires fits { table_after self.base.0 self.cells + tables_size_of text.now < 2 ^ 32 }
        ensures cells { result.cells.0 ≡ self.base.0 }
        ensures table { result.table.0 ≡ table_after self.base.0 self.cells }
        ensures cases { result.cases.0 ≡ cases_at text.now (table_after self.base.0 self.cells) }
    {
        DataAddresses {
            cells: self.base,
            table: self.table(),
            cases: Addr(self.table().0 + tables_size(text)),
        }
    }

    /// Where code stands, behind tables that have so many bytes.
    pub(crate) fn code(self, size: u32) -> Addr
        requires few { self.cells ≤ 2 ^ 23 }
        requires fits { table_after self.base.0 self.cells + size < 2 ^ 32 }
        ensures { result.0 ≡ table_after self.base.0 self.cells + size }
    {
        Addr(self.table().0 + size)
    }
}

/// How much room so many words take: whole pages.
pub(crate) fn cells_size(cells: u32) -> u32
    requires { cells ≤ 2 ^ 23 }
    ensures { result ≡ cells_size_of cells }
{
    (4 * cells + PAGE_SIZE - 1) / PAGE_SIZE * PAGE_SIZE
}

/// How many bytes the two tables of a text have.
pub(crate) fn tables_size(text: &Text) -> u32
    ensures { result ≡ tables_size_of text.now }
{
    table_size(text) + halves_size(text)
}
