//! Tests of the crates of the machine, from the decoder to the runner: what no clause says, and each call once
//! where it may want memory. They stand here together, since a crate with tests is proved twice.
#![tactic(auto)]

#[cfg(test)]
mod addr_translate_tests;
#[cfg(test)]
mod layout_tests;
#[cfg(test)]
mod machines;
#[cfg(test)]
mod snippet_code_tests;
#[cfg(test)]
mod v8_alu_tests;
#[cfg(test)]
mod v8_decode_tests;
#[cfg(test)]
mod v8_encode_tests;
#[cfg(test)]
mod v8_memory_tests;
#[cfg(test)]
mod v8_process_tests;
#[cfg(test)]
mod v8_runner_tests;
#[cfg(test)]
mod v8_step_tests;
#[cfg(test)]
mod workload_tests;
