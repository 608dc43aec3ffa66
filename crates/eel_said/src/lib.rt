//! The words of a call of EEL, and what comes of it.
#![tactic(auto)]

mod command;
mod outcome;

pub use command::{Command, EditTool, Report, Shown, parse};
pub use outcome::{CountCause, LineCause, Outcome};
