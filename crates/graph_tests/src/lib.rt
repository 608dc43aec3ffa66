//! Tests of the crates of the graph, of flows and of edits: what no clause says, and each call once where it may want
//! memory. They stand here together, since a crate with tests is proved twice.
#![tactic(auto)]

#[cfg(test)]
mod blocks_tests;
#[cfg(test)]
mod edges_tests;
#[cfg(test)]
mod edits_tests;
#[cfg(test)]
mod flows_tests;
#[cfg(test)]
mod liveness_tests;
#[cfg(test)]
mod pieces_tests;
#[cfg(test)]
mod profile_tests;
#[cfg(test)]
mod programs;
#[cfg(test)]
mod switches_tests;
#[cfg(test)]
mod texts_tests;
#[cfg(test)]
mod tools_tests;
#[cfg(test)]
mod views_tests;
#[cfg(test)]
mod weights_tests;
