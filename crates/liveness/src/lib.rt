//! Which registers, codes and Y are live at the words of a flow graph and on its edges, exactly.
//!
//! Source: James R. Larus and Eric Schnarr, "EEL: Machine-Independent Executable Editing", PLDI 1995.
#![tactic(auto)]

mod chart;
mod effects;
mod links;
mod live_sets;
mod places;
mod reads;
mod sets;

pub use live_sets::{LiveSets, live};
