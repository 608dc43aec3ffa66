//! Which edges of a flow graph are counted: those off a spanning tree that is grown heaviest first.
//!
//! Source: Thomas Ball and James R. Larus, "Optimally Profiling and Tracing Programs", ACM TOPLAS 16 (4), 1994.
#![tactic(auto)]

mod loops;
mod ranking;
mod spanning;
mod weighing;

pub use spanning::{SpanTree, tree};
pub use weighing::weights;
