//! Scripts, and why a text is none.
ghost use Rattle.std.specs.Prelude.{◌≡◌};

use crate::snippet::Snippet;
use std::alloc::AllocError;

/// What a script says.
#[derive(Drop)]
pub struct Script {
    /// The snippets of edges 0, 1, 2 and so on, up to the last edge that is named.
    pub snips: Vec<Snippet>,
    /// One more than the greatest cell that is named, or 0.
    pub cells: u32,
}

/// Why a script can't be read. The number is that of the first bad line, counted from 1.
#[derive(Clone, Copy, Debug, PartialEq, Eq)]
pub enum ScriptFault {
    /// It is outside the grammar.
    Line(u32),
    /// There is no such edge.
    Edge(u32),
    /// Its cell isn't below 2^22.
    Cell(u32),
    /// It has a ninth operation for its edge.
    Ops(u32),
    NoMemory,
}

impl From<AllocError> for ScriptFault {
    ghost use Rattle.snippets.specs.declared.script.ScriptFault.TheVariants as faults;

    ghost from_gives = { λ _ fault. fault ≡ faults.NoMemory };

    fn from(_: AllocError) -> ScriptFault {
        ScriptFault::NoMemory
    }
}
