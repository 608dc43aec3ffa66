//! Switches: from a jump back to the comparison of its index, and so to the table of its targets.
#![tactic(auto)]

mod slices;

pub use cfg_blocks::Switch;
pub use slices::{slice, switches};
