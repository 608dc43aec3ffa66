//! Instruction words of the SPARC V8 integer unit: what each of the 2^32 words says, and what an
//! instruction reads and writes. The sections named here and in specs/ are those of The SPARC
//! Architecture Manual, Version 8.
#![tactic(auto)]

ghost use Rattle.std.specs.Prelude.{◌≡◌, ◌<◌, ◌≤◌, ◌%◌, suc, MatchOption};

use std::marker::Model;

mod effects;
mod sets;
mod tables;

pub use effects::{reads, writes};
pub use sets::RegSet;
pub use tables::decode;

/// An integer register of the current window, 0 to 31: %g0 to %g7, %o0 to %o7, %l0 to %l7,
/// %i0 to %i7 (section 4.1).
#[derive(Clone, Copy, PartialEq, Eq, Debug, Drop)]
pub struct Reg {
    number: u8,
}

impl Model for Reg {
    ghost use Rattle.std.specs.Prelude.{ℕ, ◌<◌};

    ghost Value = { ℕ };

    ghost view = { λ r. r.number };

    ghost invariant = { λ r. r.number < 32 };

    ghost inverse = { λ n. record { number = n } };
}

impl Reg {
    /// The register with this number.
    pub fn new(n: u8) -> Option<Reg>
        ensures { MatchOption result (32 ≤ n) (λ r. (r ≡ n) × (n < 32)) }
    {
        if n < 32 {
            Some(Reg { number: n })
        } else {
            None
        }
    }

    /// The register's number.
    #[inline]
    pub fn number(&self) -> u8
        ensures value { result ≡ self.now }
        ensures range { self.now < 32 }
    {
        self.number
    }

    // The other register of the pair that this one begins.
    #[inline]
    fn next(self) -> Reg
        requires even { self % 2 ≡ 0 }
        ensures { result ≡ suc self }
    {
        Reg {
            number: self.number + 1,
        }
    }
}

/// The condition of a Branch or a Ticc, 0 to 15, as its field `cond` has it (table F-7).
#[derive(Clone, Copy, PartialEq, Eq, Debug, Drop)]
pub struct Cond {
    number: u8,
}

impl Model for Cond {
    ghost use Rattle.std.specs.Prelude.{ℕ, ◌<◌};

    ghost Value = { ℕ };

    ghost view = { λ c. c.number };

    ghost invariant = { λ c. c.number < 16 };

    ghost inverse = { λ n. record { number = n } };
}

impl Cond {
    /// The condition with this number.
    pub fn new(n: u8) -> Option<Cond>
        ensures { MatchOption result (16 ≤ n) (λ c. (c ≡ n) × (n < 16)) }
    {
        if n < 16 {
            Some(Cond { number: n })
        } else {
            None
        }
    }

    /// The condition's number.
    #[inline]
    pub fn number(&self) -> u8
        ensures value { result ≡ self.now }
        ensures range { self.now < 16 }
    {
        self.number
    }
}

/// The arithmetic, logical and shift operations (sections B.11 to B.19).
#[derive(Clone, Copy, PartialEq, Eq, Debug, Drop)]
pub enum AluOp {
    ADD,
    AND,
    OR,
    XOR,
    SUB,
    ANDN,
    ORN,
    XNOR,
    ADDX,
    UMUL,
    SMUL,
    SUBX,
    UDIV,
    SDIV,
    TADDcc,
    TSUBcc,
    TADDccTV,
    TSUBccTV,
    MULScc,
    SLL,
    SRL,
    SRA,
}

/// The loads of integer registers (section B.1).
#[derive(Clone, Copy, PartialEq, Eq, Debug, Drop)]
pub enum LoadKind {
    LD,
    LDUB,
    LDUH,
    LDD,
    LDSB,
    LDSH,
}

/// The stores of integer registers (section B.4).
#[derive(Clone, Copy, PartialEq, Eq, Debug, Drop)]
pub enum StoreKind {
    ST,
    STB,
    STH,
    STD,
}

/// The second operand of format 3: the register `rs2`, or the immediate `simm13` with its sign.
#[derive(Clone, Copy, PartialEq, Eq, Debug, Drop)]
pub enum Op2 {
    Reg(Reg),
    Imm(i32),
}

/// What a word says. A field holds what the word's field holds; displacements are counted in words.
///
/// A word is `Illegal` where it traps as an illegal instruction or as one that isn't implemented,
/// `Privileged` where user mode may not run it, `FpOff` and `CpOff` where it belongs to the
/// floating-point unit or the coprocessor, which are absent.
#[derive(Clone, Copy, PartialEq, Eq, Debug, Drop)]
pub enum Instr {
    Sethi {
        rd: Reg,
        imm22: u32,
    },
    Branch {
        cond: Cond,
        annul: bool,
        disp22: i32,
    },
    Call {
        disp30: i32,
    },
    Alu {
        op: AluOp,
        cc: bool,
        rd: Reg,
        rs1: Reg,
        op2: Op2,
    },
    ReadY {
        rd: Reg,
    },
    WriteY {
        rs1: Reg,
        op2: Op2,
    },
    Jmpl {
        rd: Reg,
        rs1: Reg,
        op2: Op2,
    },
    Ticc {
        cond: Cond,
        rs1: Reg,
        op2: Op2,
    },
    Flush {
        rs1: Reg,
        op2: Op2,
    },
    Stbar,
    Save {
        rd: Reg,
        rs1: Reg,
        op2: Op2,
    },
    Restore {
        rd: Reg,
        rs1: Reg,
        op2: Op2,
    },
    Load {
        kind: LoadKind,
        rd: Reg,
        rs1: Reg,
        op2: Op2,
    },
    Store {
        kind: StoreKind,
        rd: Reg,
        rs1: Reg,
        op2: Op2,
    },
    Ldstub {
        rd: Reg,
        rs1: Reg,
        op2: Op2,
    },
    Swap {
        rd: Reg,
        rs1: Reg,
        op2: Op2,
    },
    Illegal,
    Privileged,
    FpOff,
    CpOff,
}

/// What an instruction can read or write besides memory: a register of the current window, the
/// integer condition codes as one, or Y.
#[derive(Clone, Copy, Drop)]
pub enum Part {
    Reg(Reg),
    Icc,
    Y,
}
