//! EEL, an executable editor for SPARC V8: what comes of the words of a call, over files and streams that are
//! given.
#![tactic(auto)]

mod demo;
mod dumps;
mod edit;
mod instrumentation;
mod last_edges;
mod profiles;
mod program;
mod report;
mod run;
mod top;

pub use eel_said::Outcome;
pub use last_edges::edits_are_traces;
pub use profiles::edits_are_profiles;
pub use program::run_words;
pub use top::eel;
