//! The routines of a program: its entry, its function symbols, and the words to which its CALLs lead.
#![tactic(auto)]

use eel_base::WordNo;
use elf32_sparc::Name;

mod calls;
mod list;
mod starts;

pub use list::{Routines, find};

/// Where a routine starts, and the name of the first function symbol there; it is empty where there is none.
#[derive(Drop)]
pub struct Routine {
    pub start: WordNo,
    pub name: Name,
}
