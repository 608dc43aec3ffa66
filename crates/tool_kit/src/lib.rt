//! Tools: what an edit is to put on the edges of a program, as a callback that was stored with what is known of it.
#![tactic(auto)]

mod choosing;
mod edge_ref;
mod tools;

pub use choosing::Chooser;
pub use edge_ref::{EdgeRef, ToolKind};
pub use tools::{Tool, edge_at, snips};
