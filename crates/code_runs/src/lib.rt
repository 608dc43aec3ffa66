//! Runs of code that the editor makes: several steps as one, the words that its code loads and stores, blocks of code
//! without transfers, and what machines do that stand at the same or at another point. There is no code here, but
//! definitions and laws.
#![tactic(auto)]

ghost use Rattle.code_runs.specs.LongJump.{LongJumpsHop, LongJumpsStore};
ghost use Rattle.code_runs.specs.Ours.{OursAreStored, OursStay, WordsStay};
ghost use Rattle.code_runs.specs.Points.{ActsAnywhere};
ghost use Rattle.code_runs.specs.PointsAlike.{PointsActAlike};

/// A jump to any address below 2^32, in four words: all stays as it was but word 0 of the editor's page, in which %g1
/// waits meanwhile.
pub fn long_jumps_hop()
    ensures { LongJumpsHop }
{}

/// A long jump stores in word 0 of the editor's page alone.
pub fn long_jumps_store()
    ensures { LongJumpsStore }
{}

/// An instruction that is no transfer does the same wherever it stands, and puts out the same.
pub fn acts_anywhere()
    ensures { ActsAnywhere }
{}

/// Two machines at one point that agree on what the next word reads do the same, whatever the word.
pub fn points_act_alike()
    ensures { PointsActAlike }
{}

/// An instruction that judges no byte of some pages leaves each word of theirs as it was.
pub fn words_stay()
    ensures { WordsStay }
{}

/// Words that belong to the editor still do after an instruction that judges no byte of its pages.
pub fn ours_stay()
    ensures { OursStay }
{}

/// Words stored where the editor has its own leave all memory outside its pages, and stay the editor's.
pub fn ours_are_stored()
    ensures { OursAreStored }
{}
