//! Single instructions, and the words that spill a register.

ghost use Rattle.std.specs.Prelude.{◌≡◌, ◌<◌, true};
ghost use Rattle.v8_decode.specs.declared.Instr.TheVariants as i;
ghost use Rattle.v8_encode.specs.Encoding.{word_of};
ghost use Rattle.snippet_code.specs.Words as words;

use v8_decode::{AluOp, Instr, Op2, Reg};
use v8_encode::{branch, condition, keep, load, operation, register, store, take, word};

/// Loads the word at an address whose upper bits a register has.
pub fn load_low(address: u32, base: Reg, rd: Reg) -> Instr
    ensures { result ≡ words.load_low address base rd }
{
    load(rd, base, Op2::Imm((address % 1024) as i32))
}

/// Stores a register there.
pub fn store_low(address: u32, base: Reg, rd: Reg) -> Instr
    ensures { result ≡ words.store_low address base rd }
{
    store(rd, base, Op2::Imm((address % 1024) as i32))
}

/// Loads the word behind it.
pub fn load_next(address: u32, base: Reg, rd: Reg) -> Instr
    ensures { result ≡ words.load_next address base rd }
{
    load(rd, base, Op2::Imm((address % 1024) as i32 + 4))
}

/// Stores a register there.
pub fn store_next(address: u32, base: Reg, rd: Reg) -> Instr
    ensures { result ≡ words.store_next address base rd }
{
    store(rd, base, Op2::Imm((address % 1024) as i32 + 4))
}

/// An operation on two registers.
pub fn of_two(op: AluOp, rs1: Reg, rs2: Reg, rd: Reg) -> Instr
    ensures { result ≡ words.of_two op rs1 rs2 rd }
{
    operation(op, rd, rs1, Op2::Reg(rs2))
}

/// An operation on a register and a number.
pub fn with_number(op: AluOp, rs1: Reg, number: i32, rd: Reg) -> Instr
    ensures { result ≡ words.with_number op rs1 number rd }
{
    operation(op, rd, rs1, Op2::Imm(number))
}

/// Adds the low bits of a number.
pub fn add_low(number: u32, rd: Reg) -> Instr
    ensures { result ≡ words.add_low number rd }
{
    with_number(AluOp::ADD, rd, (number % 1024) as i32, rd)
}

// An operation that sets the codes.
fn with_codes(op: AluOp, rd: Reg, rs1: Reg, op2: Op2) -> Instr
    ensures { result ≡ i.Alu op true rd rs1 op2 }
{
    Instr::Alu {
        op,
        cc: true,
        rd,
        rs1,
        op2,
    }
}

/// Adds 1, and sets the codes.
pub fn add_one(rd: Reg) -> Instr
    ensures { result ≡ words.add_one rd }
{
    with_codes(AluOp::ADD, rd, rd, Op2::Imm(1))
}

/// Adds the carry that the codes have.
pub fn add_carry(rd: Reg) -> Instr
    ensures { result ≡ words.add_carry rd }
{
    with_number(AluOp::ADDX, rd, 0, rd)
}

/// Compares two registers.
pub fn compare(rs1: Reg, rs2: Reg) -> Instr
    ensures { result ≡ words.compare rs1 rs2 }
{
    with_codes(AluOp::SUB, register(0), rs1, Op2::Reg(rs2))
}

/// Does the next word where it was greater, without signs, and goes on behind it.
pub fn next_if_greater() -> Instr
    ensures { result ≡ words.next_if_greater }
{
    branch(condition(12), true, 2)
}

/// A register goes into the editor's page.
pub fn save(n: usize, reg: Reg) -> u32
    requires few { n < 5 }
    ensures { result ≡ word_of (words.save n reg) }
{
    word(keep(reg, n as u8 + 2))
}

/// A register comes out of the editor's page.
pub fn restore(n: usize, reg: Reg) -> u32
    requires few { n < 5 }
    ensures { result ≡ word_of (words.restore n reg) }
{
    word(take(reg, n as u8 + 2))
}
