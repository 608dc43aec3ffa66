//! The start of a program: its file in memory, its arguments on the stack, and the first state of its run.
//!
//! The definitions stand in specs/, with small programs whose runs are computed there.
#![tactic(auto)]

ghost use Rattle.std.specs.Prelude.{ℕ, List};
ghost use Rattle.v8_process.specs.Alike.{StartsAlike};
ghost use Rattle.v8_process.specs.Code.{ArgumentsFit};
ghost use Rattle.v8_process.specs.Fetched.{CodeIsFetched, TextIsFetched};
ghost use Rattle.v8_process.specs.Laws.{StartsAtEntry};
ghost use Rattle.v8_process.specs.Valid.{MappingsHaveRoom, StartsValid};

mod loader;
mod stack;

pub use elf32_sparc::load_verdict;
pub use loader::{LoadFault, load};

/// A program starts at its entry, alive, with a stack pointer that is a multiple of 8.
pub fn starts_at_entry()
    ensures { (file : List ℕ) (args : List (List ℕ)) (input : List ℕ) → StartsAtEntry file args input }
{}

/// A file that maps what another does, except for permissions to be executed, and then some pages, starts with the same
/// memory outside those pages.
pub fn starts_alike()
    ensures { StartsAlike }
{}

/// A file of bytes starts in a valid state, where its mappings have room for its bytes, and the stack has
/// room for the arguments.
pub fn starts_valid()
    ensures { StartsValid }
{}

/// Each mapping of a file has room for its bytes, where no entry has more bytes in the file than in memory,
/// or bytes outside the file.
pub fn mappings_have_room()
    ensures { MappingsHaveRoom }
{}

/// The stack has room for all arguments that a program can be given.
pub fn arguments_fit()
    ensures { ArgumentsFit }
{}

/// Each whole word of the first mapping that may be executed is fetched at its address.
pub fn code_is_fetched()
    ensures { CodeIsFetched }
{}

/// Each word of the text of a file without a fault is fetched at its address.
pub fn text_is_fetched()
    ensures { TextIsFetched }
{}
