//! The notes of a written file: what it says of itself. Its format is defined in specs/.
//!
//! Notes stand in a written file as big-endian words, at the offset that the file's locator names. They say
//! where the original stands, which text it has, the blocks and edges of its graph, the pages that were added,
//! and the places in them: which instruction stands at an address, and for which node.
#![tactic(auto)]

ghost use Rattle.notes.specs.Laws.{WrittenNotesRead, ReadNotesMeetRules};

mod cells;
mod note;
mod reading;
mod rows;
mod tables;
mod writing;

pub use eel_base::Range;
pub use note::{NoteEdge, NoteSegment, Notes, NotesFault};
pub use reading::read_notes;
pub use writing::write_notes;

/// Notes that meet the rules read back from what is written of them.
pub fn written_notes_read()
    ensures { WrittenNotesRead }
{}

/// Notes that were read meet the rules.
pub fn read_notes_meet_rules()
    ensures { ReadNotesMeetRules }
{}
