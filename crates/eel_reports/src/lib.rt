//! Files and dumps that are read, programs that are run, and the lines that are told of them: all of what EEL does that
//! needs no edit.
#![tactic(auto)]

mod alone;
mod counts;
mod every;
mod inputs;
mod profile;
mod restore;
mod run;
mod scripts;
mod show;
mod telling;
mod texts;
mod tools;
mod visits;
mod weights;
mod words;

pub use alone::{End, run_alone, run_to_end, start_alone};
pub use counts::{count_lines, counts_of};
pub use inputs::{dump_in, notes_in, view_in};
pub use profile::heaviest_tree;
pub use restore::restore_original;
pub use run::{Job, begin, outcome_of, run_machine};
pub use scripts::script_in;
pub use show::show_program;
pub use telling::{Size, demo_lines, size_of};
pub use texts::{EDIT_LIMIT, WRITTEN_LIMIT, fetch_file, print, put_file};
pub use tools::{fetch_lines, view_for};
pub use visits::visit_lines;
pub use weights::measured_tree;
pub use words::assemble_words;
