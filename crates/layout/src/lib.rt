//! Where pieces of new code are placed: the order in which they are laid, the form of each Jump and Branch, the words,
//! the address of each piece, and the range of each mark.
#![tactic(auto)]

ghost use Rattle.layout.specs.Compact.{LongIsEnough, NeededOnce, ShortIsEnough};
ghost use Rattle.layout.specs.Running.{BranchesHop, JumpsHop, WordsStand};

mod assembler;
mod emitting;
mod entries;
mod forms;
mod items;
mod order;
mod placing;
mod ranges;
mod words;

pub use items::{Item, LayoutFault, Piece, Placed};
pub use placing::place;
pub use words::long_jump_words;

/// All compact layouts of the same pieces need the same number of bytes.
pub fn needed_once()
    ensures { NeededOnce }
{}

/// No layout needs more room than the one with every form long.
pub fn long_is_enough()
    ensures { LongIsEnough }
{}

/// In less than 8 MiB every form is short.
pub fn short_is_enough()
    ensures { ShortIsEnough }
{}

/// A Jump leads to its piece, with all as it was but word 0 of the editor's page.
pub fn jumps_hop()
    ensures { JumpsHop }
{}

/// A Branch leads to its piece where its condition holds, and to the item after it where it doesn't, with all as it was
/// but word 0 of the editor's page.
pub fn branches_hop()
    ensures { BranchesHop }
{}

/// A Word stands where its item does.
pub fn words_stand()
    ensures { WordsStand }
{}
