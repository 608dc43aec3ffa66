//! What two runs have to do with each other: states that do the same, the items that a run still needs, which
//! instructions of an original a written file visits, and what it is that one run answers another. There is no code
//! here, but definitions and laws.
#![tactic(auto)]

ghost use Rattle.two_runs.specs.Alike.{StepsAlike};
ghost use Rattle.two_runs.specs.Follows.{RunsFollow};
ghost use Rattle.two_runs.specs.Code.{GrantedIsUntouched, UnmappedIsUntouched};

/// Two states that fetch one word, which is no transfer of control, and share what it reads step alike: they end
/// alike or go on, put out the same bytes, and agree on all that is written, and on all else that they agreed on.
pub fn steps_alike()
    ensures { StepsAlike }
{}

/// Where each step of one run is answered by a few steps of another that end at its next visit, with no visit
/// between, the second run answers the first as a whole, and its steps are bounded.
pub fn runs_follow()
    ensures { RunsFollow }
{}

/// A run touches memory that isn't mapped only by steps that are refused an access.
pub fn unmapped_is_untouched()
    ensures { UnmappedIsUntouched }
{}

/// So a run that is refused nothing doesn't touch it.
pub fn granted_is_untouched()
    ensures { GrantedIsUntouched }
{}
