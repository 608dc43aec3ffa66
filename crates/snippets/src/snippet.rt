//! Operations, and a few of them in a row.
ghost use Rattle.std.specs.Prelude.{◌≡◌, ◌++◌, ◌∷◌, [], ◌<◌, ◌≤◌, true, false, length, nat_le, MatchBool};
ghost use Rattle.v8_decode.specs.declared.Part.TheVariants as parts;
ghost use Rattle.v8_decode.specs.Parts.{set_of};
ghost use Rattle.snippets.specs.Private.{HasRing};
ghost use Rattle.snippets.specs.Ops.{cell_of, cells_end, width_of};
ghost use Rattle.snippets.specs.Cells.{named_by};

use std::marker::Model;
use v8_decode::{Part, Reg, RegSet};

/// What is done to a cell, a word of the editor's that begins as 0. A register is read as it is once the edge's delay
/// slot was run.
#[derive(Clone, Copy, PartialEq, Eq, Debug, Drop)]
pub enum Op {
    /// Adds, modulo 2^32.
    Add { cell: u32, amount: u32 },
    /// Sets.
    Put { cell: u32, value: u32 },
    /// Stores the register's value.
    Keep { cell: u32, reg: Reg },
    /// Stores the register's value where it is greater than the cell, as an unsigned number.
    Top { cell: u32, reg: Reg },
    /// Adds 1, modulo 2^64, to the number whose high word is the cell and whose low word is the next one.
    Count { cell: u32 },
    /// Writes into a ring of 2^`bits` cells, from 1 to 16 bits, that stands behind its cell: the value goes to the place that
    /// the cell tells, modulo the ring's size, and then the cell is raised by 1, modulo 2^32.
    Log { cell: u32, bits: u32, value: u32 },
}

impl Op {
    /// The first cell that it works on.
    pub fn cell(&self) -> u32
        ensures { result ≡ cell_of self.now }
    {
        match self {
            Op::Add { cell, .. }
            | Op::Put { cell, .. }
            | Op::Keep { cell, .. }
            | Op::Top { cell, .. }
            | Op::Count { cell }
            | Op::Log { cell, .. } => *cell,
        }
    }

    // The cell behind the last one that it works on.
    pub(crate) fn cells_end(&self) -> u64
        requires { HasRing self.now }
        ensures { result ≡ cells_end self.now }
    {
        u64::from(self.cell()) + self.width()
    }

    // How many cells it works on.
    fn width(&self) -> u64
        requires { HasRing self.now }
        ensures { result ≡ width_of self.now }
    {
        match self {
            Op::Add { .. } | Op::Put { .. } | Op::Keep { .. } | Op::Top { .. } => 1,
            Op::Count { .. } => 2,
            Op::Log { bits, .. } => 1 + (1 << *bits),
        }
    }

    // The register that it reads, if it reads one other than %g0.
    #[tactic(auto, unfolding(v8_decode::specs::Parts::members, v8_decode::specs::Parts::every_part))]
    fn names(self) -> RegSet
        ensures { result ≡ named_by (self ∷ []) }
    {
        match self {
            Op::Add { .. } | Op::Put { .. } | Op::Count { .. } | Op::Log { .. } => RegSet::empty(),
            Op::Keep { reg, .. } => only(reg),
            Op::Top { reg, .. } => only(reg),
        }
    }
}

fn only(reg: Reg) -> RegSet
    ensures { result ≡ set_of (parts.Reg reg ∷ []) }
{
    RegSet::empty().with(Part::Reg(reg))
}

/// How many operations a snippet has at most.
const MOST_OPS: usize = 8;

/// At most eight operations, which are done in order.
#[derive(Clone, Copy, Drop)]
pub struct Snippet {
    // behind the operations stands FILLER
    ops: [Op; MOST_OPS],
    count: usize,
}

const FILLER: Op = Op::Put { cell: 0, value: 0 };

impl Model for Snippet {
    ghost use Rattle.std.specs.Prelude.{List};
    ghost use Rattle.snippets.specs.declared.snippet.Op.{Op};

    ghost Value = { List Op };

    ghost use Rattle.snippets.specs.Code.{ops_in, IsFilled};
    ghost use Rattle.snippets.specs.Private.{inside_of};

    ghost view = { ops_in };

    ghost invariant = { IsFilled };

    ghost inverse = { inside_of };

    ghost use Rattle.snippets.specs.OpLaws.{inside_of-ops};

    ghost inverse_ok = { λ a h. inside_of-ops a h };
}

impl Snippet {
    /// No operation.
    pub fn empty() -> Snippet
        ensures { result ≡ [] }
    {
        Snippet {
            ops: [FILLER; MOST_OPS],
            count: 0,
        }
    }

    /// Whether it has no place for another operation.
    pub fn is_full(&self) -> bool
        ensures { result ≡ nat_le 8 (length self.now) }
    {
        self.count >= MOST_OPS
    }

    /// Adds an operation behind the others. Answers false, and changes nothing, where there are eight.
    pub fn push(&mut self, op: Op) -> bool
        ensures room { MatchBool result (length self.old < 8) (length self.old ≡ 8) }
        ensures ops { MatchBool result (self.new ≡ self.old ++ op ∷ []) (self.new ≡ self.old) }
    {
        if self.count >= MOST_OPS {
            return false;
        }
        self.ops[self.count] = op;
        self.count += 1;
        true
    }

    /// The operations, in order.
    pub fn ops(&self) -> &[Op]
        ensures ops { result.now ≡ self.now }
        ensures few { length self.now ≤ 8 }
    {
        &self.ops[..self.count]
    }

    /// The registers that its operations read, without %g0.
    pub fn names(&self) -> RegSet
        ensures { result ≡ named_by self.now }
    {
        names_of(self.ops())
    }
}

fn names_of(ops: &[Op]) -> RegSet
    ensures { result ≡ named_by ops.now }
{
    let mut names = RegSet::empty();
    for op in ops {
        names = names.union(op.names());
    }
    names
}
