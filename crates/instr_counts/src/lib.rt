//! How often each instruction of a program ran, delay slots included, from how often the edges of its flow graph were
//! completed, where each word is marked.
#![tactic(auto)]

ghost use Rattle.instr_counts.specs.Laws.{NoneAreOpen, VisitsAreCounted, WordsAreBlocks};

mod counting;
mod matching;
mod printing;

pub use counting::visits;
pub use matching::matches;
pub use printing::lines;

/// Where each word is marked, each is a block by itself.
pub fn words_are_blocks()
    ensures { WordsAreBlocks }
{}

/// Where each word is marked, no switch is open: its comparison would stand in one block with the branch behind it.
pub fn none_are_open()
    ensures { NoneAreOpen }
{}

/// How often the run of a file without a fault carries out each word of its text is what the counts of edges tell,
/// slots included, with the one where it stands.
pub fn visits_are_counted()
    ensures { VisitsAreCounted }
{}
