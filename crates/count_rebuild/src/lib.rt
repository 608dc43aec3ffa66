//! How often each edge was completed, rebuilt from the cells of a dump by the law of flow.
//!
//! Source: Thomas Ball and James R. Larus, "Optimally Profiling and Tracing Programs", ACM TOPLAS 16 (4), 1994.
#![tactic(auto)]

mod fault;
mod nodes;
mod noted;
mod rebuilding;

pub use fault::CountFault;
pub use noted::node_at;
pub use rebuilding::rebuild;
