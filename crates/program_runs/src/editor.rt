//! Calls of the editor over files in memory.
use eel_base::{MemFiles, MemSink, MemSource};
use std::alloc::Global;

/// What came of a call.
#[derive(Drop)]
pub struct Answer {
    pub status: u8,
    pub out: MemSink,
    pub err: MemSink,
}

/// Calls the editor with these words, input and streams.
pub fn call_editor(
    alloc: Global,
    words: &[&str],
    files: &mut MemFiles,
    mut input: MemSource,
    mut out: MemSink,
    mut err: MemSink,
) -> Answer {
    let status = eel::eel(alloc, words, files, &mut input, &mut out, &mut err);
    Answer { status, out, err }
}
