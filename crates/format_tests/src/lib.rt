//! Tests of the crates of the outside and of the formats: what no clause says, and each call once where it may
//! want memory. They stand here together, since a crate with tests is proved twice.
#![tactic(auto)]

mod adding;
#[cfg(test)]
mod building;
#[cfg(test)]
mod count_tests;
#[cfg(test)]
mod dump_tests;
#[cfg(test)]
mod eel_base_tests;
#[cfg(test)]
mod elf32_sparc_tests;
#[cfg(test)]
mod elf32_write_tests;
#[cfg(test)]
mod failing_files;
#[cfg(test)]
mod notes_tests;
#[cfg(test)]
mod real_files_tests;
#[cfg(test)]
mod snippet_tests;
#[cfg(test)]
mod symbol_tests;

pub use adding::can_write;
