//! The edit of a file, and what ties the written file to its original.
#![tactic(auto)]

ghost use Rattle.edit_core.specs.Code.{CrashesAreUntouched, EditsAreUntouched, EditsCrashAlike, EditsDoTheSame, GrantedRunsAreAlike};
ghost use Rattle.edit_core.specs.Whole.{EditsAnswer, KeepsWhatLives};
ghost use Rattle.edit_core.specs.Written.{EditsRunAlike};

mod addresses;
mod building;
mod editing;
mod noting;
mod requests;
mod segments;

pub use editing::{edit_bytes, edit_view};
pub use requests::EditFault;

/// Where snippets change only what is dead behind them, everything is kept that the original's run still needs or that
/// a later snippet names.
pub fn keeps_what_lives()
    ensures { KeepsWhatLives }
{}

/// Where each image carries out one step of the original, the written file's whole run answers the original's: where
/// it goes on, how it ends, how many steps it takes, what it stores, and where it stands meanwhile.
pub fn edits_answer()
    ensures { EditsAnswer }
{}

/// Whatever is written as an edit of an original runs as that does, with the same arguments and input.
pub fn edits_run_alike()
    ensures { EditsRunAlike }
{}

/// Whoever sees how runs end and what they put out sees a faithful edit do what its original does.
pub fn edits_do_the_same()
    ensures { EditsDoTheSame }
{}

/// Where nothing is refused, the original touches no added page, so that all holds that is said of a faithful edit.
pub fn edits_are_untouched()
    ensures { EditsAreUntouched }
{}

/// So what is said of a faithful edit's runs up to a touch of an added page is so up to the first access that is refused.
pub fn granted_runs_are_alike()
    ensures { GrantedRunsAreAlike }
{}

/// Nor does it where it is refused bytes below 4096 alone, as by a null pointer.
pub fn crashes_are_untouched()
    ensures { CrashesAreUntouched }
{}

/// A faithful edit looks as its original does up to the end of a run that is refused bytes below 4096 alone, as by a null
/// pointer, or up to the first other access that is refused.
pub fn edits_crash_alike()
    ensures { EditsCrashAlike }
{}
