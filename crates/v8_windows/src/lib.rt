//! Register windows: where the 136 registers stand, which windows are valid, and the frames in which
//! windows are saved.
//!
//! The definitions stand in specs/. Each function below has an empty body, and a law about all registers as
//! its contract. The sections named are those of The SPARC Architecture Manual, Version 8.
#![tactic(auto)]

ghost use Rattle.v8_windows.specs.Laws.{WindowsOverlap, RegistersHold, FramesFit, FramesLoad};

mod windows;

pub use windows::{MustFill, MustSpill, Windows};

/// The ins of a window are the outs of the next one (section 4.1).
pub fn windows_overlap()
    ensures { WindowsOverlap }
{}

/// A register holds what was written to it last, and nothing else changes it.
pub fn registers_hold()
    ensures { RegistersHold }
{}

/// A window's frame has 64 bytes, and loading one keeps the number of registers.
pub fn frames_fit()
    ensures { FramesFit }
{}

/// Loading a frame from its bytes is loading it from the words of these bytes.
pub fn frames_load()
    ensures { FramesLoad }
{}
