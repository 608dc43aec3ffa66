//! What every crate of EEL stands on: the typed numbers, fields of bytes, the text of a program, and
//! the outside world as three traits with their objects in memory and their real ones.
#![tactic(auto)]

mod code_text;
mod fields;
mod in_memory;
mod numbers;
mod outside;
mod range;
mod real;
mod whole;
mod whole_file;

pub use code_text::Text;
pub use fields::{be16_at, be32_at, hex8};
pub use in_memory::{MemFiles, MemSink, MemSource, NullSink};
pub use numbers::{Addr, BlockNo, EdgeNo, NoMemory, PieceNo, WordNo};
pub use outside::{Failed, FetchFault, Files, PutFault, Sink, Source};
pub use range::Range;
pub use real::{RealFiles, StdSink, StdSource};
pub use whole::{put_all, read_all};
