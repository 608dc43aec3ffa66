//! A program that is made from a number, of as many routines as are wanted: a file to try the editor on.
//!
//! The definitions stand in specs/, with the law of its run.
#![tactic(auto)]

ghost use Rattle.workload.specs.Laws.{GeneratedHoldsItsCode, GeneratedRunsEnd, HasNoFault};
ghost use Rattle.workload.specs.Room.{GeneratedLeavesRoom};

mod draws;
mod making;
mod words;

pub use making::make;

/// Nothing keeps a file that is made from being edited, or from being run.
pub fn generated_has_no_fault()
    ensures { HasNoFault }
{}

/// The text of a file that is made is the program's words, in order.
pub fn generated_holds_its_code()
    ensures { GeneratedHoldsItsCode }
{}

/// All of the room that there can be for an edit lies free above the text of a file that is made.
pub fn generated_leaves_room()
    ensures { GeneratedLeavesRoom }
{}

/// The run of a file that is made exits, with what its routines add, after so many steps as they have turns. It stays
/// in the text, and judges no byte of memory.
pub fn generated_runs_end()
    ensures { GeneratedRunsEnd }
{}
