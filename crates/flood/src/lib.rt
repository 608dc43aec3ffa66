//! Which parts are live at each place of a graph, where each place reads some parts and each link kills some.
#![tactic(auto)]

use v8_decode::RegSet;

mod chains;
mod search;

pub use search::flood;

/// Control may go from one place to another, and what it kills on the way isn't live before.
#[derive(Clone, Copy, Drop)]
pub struct Link {
    pub from: u32,
    pub to: u32,
    pub kills: RegSet,
}
