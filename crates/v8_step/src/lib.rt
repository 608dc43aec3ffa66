//! The machine that programs run on, one step at a time: its state, what each instruction of SPARC V8 does in
//! user mode, traps, window saving and loading, software traps, and runs of many steps.
//!
//! The definitions stand in specs/. [`step`] carries them out on a [`Machine`]. Each function below has an empty
//! body, and a law about every state as its contract. The sections named are those of The SPARC Architecture
//! Manual, Version 8.
#![tactic(auto)]

ghost use Rattle.v8_step.specs.Laws.{CodeStays, ValidStays, WindowStays};

mod accesses;
mod ahead;
mod calls;
mod machine;
mod steps;
mod transfers;
mod traps;
mod turns;
mod window_moves;

pub use machine::Machine;
pub use steps::{StepOut, step};

/// Whether the instruction at pc is in the delay slot of a transfer, and whether that one was taken.
#[derive(Clone, Copy, Drop)]
pub enum Slot {
    NoSlot,
    Taken,
    Untaken,
}

/// How a run ends.
#[derive(Clone, Copy, PartialEq, Eq, Debug, Drop)]
pub enum Ending {
    /// By the system call exit, with the low byte of its argument.
    Exit(u8),
    /// By a trap of this type (table 7-1) that no handler takes.
    Trap(u8),
    /// By a window whose frame could not be saved or loaded.
    Window,
    /// By a transfer of control in the delay slot of another one.
    Couple,
}

/// No step changes a word that can be executed.
pub fn code_stays()
    ensures { CodeStays }
{}

/// A first state over valid memory is valid, and steps and runs keep a valid state valid.
pub fn valid_stays()
    ensures { ValidStays }
{}

/// An instruction that doesn't read every register leaves the window.
pub fn window_stays()
    ensures { WindowStays }
{}
