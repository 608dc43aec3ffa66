//! What is printed of a program: its routines, blocks, edges and switches, a line each, and how often edges were completed.
#![tactic(auto)]

mod counting;
mod lines;
mod words;

pub use counting::{counts, noted_kind, noted_node_text, sum};
pub use lines::{put_line, show};
pub use words::{NodeBytes, kind_text, node_text};
