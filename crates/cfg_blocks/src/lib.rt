//! The basic blocks of a text.
//!
//! A block runs from a leader to the next one. Leaders are the text's first word, the words that a caller
//! gives, the targets of branches and CALLs, and the two words after each transfer, so that a delay slot is
//! a block of its own.
#![tactic(auto)]

use eel_base::{BlockNo, WordNo};
use v8_decode::Cond;

mod approaches;
mod compares;
mod ends;
mod entries;
mod leaders;
mod list;
mod switches;
mod values;

pub use approaches::{approach, follow_slot};
pub use compares::compare_in;
pub use ends::{ALWAYS, WaysOut};
pub use list::{BlockList, blocks};
pub use switches::{Approach, Compare, Switch, Value};
pub use values::{follow, sum};

/// What an edge of the flow graph stands for: a word that control leaves without a transfer, a branch that
/// is taken or not, a CALL, a jump out of the text's known words, a landing from outside, or a jump through the table
/// of a switch.
#[derive(Clone, Copy, PartialEq, Eq, Debug, Drop)]
pub enum EdgeKind {
    Fall,
    Taken,
    Untaken,
    Call,
    Out,
    Land,
    Case,
}

/// How control leaves the last word of a block. A target is the word to which a transfer leads, where the
/// text has that word; a branch on never has none.
#[derive(Clone, Copy, Debug, Drop)]
pub enum BlockEnd {
    Fall,
    Branch {
        cond: Cond,
        annul: bool,
        target: Option<WordNo>,
    },
    Call {
        target: Option<WordNo>,
    },
    Jump,
}

/// A way out of a block: the kind of its edge, and the word to which it leads, where the text has that.
#[derive(Clone, Copy, Drop)]
pub struct WayOut {
    pub kind: EdgeKind,
    pub to: Option<u32>,
}

/// What leads to a block: nothing, one edge, which leaves that block, or more of them.
#[derive(Clone, Copy, Debug, Drop)]
pub enum Into {
    Nothing,
    One(BlockNo, EdgeKind),
    More,
}
