//! Single instructions.

ghost use Rattle.std.specs.Prelude.{◌≡◌, ◌%◌, ◌<◌, false, pos};
ghost use Rattle.v8_decode.specs.declared.AluOp.TheVariants as ops;
ghost use Rattle.v8_decode.specs.declared.Instr.TheVariants as i;
ghost use Rattle.v8_decode.specs.declared.Op2.TheVariants as o;
ghost use Rattle.code_runs.specs.Code.{of_page};

use v8_decode::{AluOp, Instr, Op2, Reg};
use v8_encode::{of_page_word, operation, register};

/// A register and word n of the editor's page are exchanged.
pub fn exchange(rd: Reg, n: u8) -> Instr
    requires few { n < 8 }
    ensures { result ≡ i.Swap rd 0 (of_page n) }
{
    Instr::Swap {
        rd,
        rs1: register(0),
        op2: of_page_word(n),
    }
}

/// A sum.
pub fn add(rd: Reg, rs1: Reg, op2: &Op2) -> Instr
    ensures { result ≡ i.Alu ops.ADD false rd rs1 op2.now }
{
    operation(AluOp::ADD, rd, rs1, *op2)
}

/// The low part of an address is added.
pub fn add_low(rd: Reg, address: u32) -> Instr
    ensures { result ≡ i.Alu ops.ADD false rd rd (o.Imm (pos (address % 1024))) }
{
    operation(AluOp::ADD, rd, rd, Op2::Imm((address % 1024) as i32))
}
