//! Profiles that are made.
ghost use Rattle.eel.specs.Code.{EditsAreProfiles};

/// A file that was made with counters is a profile, whose counts are exact, and its notes have version 2.
pub fn edits_are_profiles()
    ensures { EditsAreProfiles }
{}
