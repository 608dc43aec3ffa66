//! From addresses of the original to addresses of new code: tables, and the code that looks an address up.
#![tactic(auto)]

ghost use Rattle.addr_translate.specs.Translator.{RegionsStand};

mod blocks;
mod code;
mod entries;
mod halves;
mod table;

pub use blocks::table_size;
pub use code::translator_code;
pub use halves::{build_halves, halves_size};
pub use table::{Table, build};

/// A table stands where one region of memory has its bytes from its base on.
pub fn regions_stand()
    ensures { RegionsStand }
{}
