//! Weights of the edges of a graph from an earlier run: what was printed of its counts is read.
//!
//! An edge weighs the more, the more often it was completed. `specs/Weights.antt` has the lines and their weights.
#![tactic(auto)]

ghost use Rattle.weights_in.specs.Laws.{TextsHaveOneAnswer};

mod line;
mod reading;

pub use reading::{WeightFault, read_weights};

/// Every text has one answer, but for want of memory: its weights, or its first bad line.
pub fn texts_have_one_answer()
    ensures { TextsHaveOneAnswer }
{}
