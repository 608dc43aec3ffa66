//! The reader of ELF32 files for SPARC: what keeps a file from being edited or run, and the image of one
//! that can be edited.
#![tactic(auto)]

mod fault;
mod flags;
mod header;
mod name;
mod program;
mod sections;
mod survey;
mod table;
mod verdicts;

pub use fault::{FileFault, ReadFault};
pub use flags::SegFlags;
pub use header::ProgramHeader;
pub use name::Name;
pub use program::{Image, Segment, read_entry, read_image, read_segments};
pub use sections::{Func, has_sections};
pub use table::read_headers;
pub use verdicts::{load_verdict, verdict};
