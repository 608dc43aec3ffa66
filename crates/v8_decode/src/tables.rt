// Words taken apart: the fields of the three formats, and a match for each table of opcodes.

ghost use Rattle.std.specs.Prelude.{◌≡◌, ◌<◌, ◌^◌, ◌%◌, ◌==◌, IsTrue};
ghost use Rattle.v8_decode.specs.Ranges.{has_even_pair, is_in_range};
ghost use Rattle.v8_decode.specs.Words.{alu, arithmetic, branch_or_sethi, call, cond_of, decode_of, field, load, memory, op2_of, rd_of, read_state, rs1_of, signed, store, write_state};

use crate::{AluOp, Cond, Instr, LoadKind, Op2, Reg, StoreKind};

// The `width` bits of a word from bit `low` on.
#[inline]
fn bits(word: u32, low: u32, width: u32) -> u32
    requires low { low < 32 }
    requires width { width < 32 }
    ensures value { result ≡ field word low width }
    ensures range { result < 2 ^ width }
{
    (word >> low) & ((1 << width) - 1)
}

#[inline]
fn rd(word: u32) -> Reg
    ensures { result ≡ rd_of word }
{
    Reg {
        number: bits(word, 25, 5) as u8,
    }
}

#[inline]
fn rs1(word: u32) -> Reg
    ensures { result ≡ rs1_of word }
{
    Reg {
        number: bits(word, 14, 5) as u8,
    }
}

#[inline]
fn cond(word: u32) -> Cond
    ensures { result ≡ cond_of word }
{
    Cond {
        number: bits(word, 25, 4) as u8,
    }
}

// A field of `width` bits as a number in two's complement.
#[inline]
fn extended(width: u32, n: u32) -> i32
    requires positive { 0 < width }
    requires width { width < 32 }
    requires range { n < 2 ^ width }
    ensures { result ≡ signed width n }
{
    if n < 1 << (width - 1) {
        n as i32
    } else {
        (n as i64 - (1i64 << width)) as i32
    }
}

#[inline]
fn op2(word: u32) -> Op2
    ensures { result ≡ op2_of word }
{
    if bits(word, 13, 1) == 0 {
        Op2::Reg(Reg {
            number: bits(word, 0, 5) as u8,
        })
    } else {
        Op2::Imm(extended(13, bits(word, 0, 13)))
    }
}

#[inline]
fn alu_word(op: AluOp, cc: bool, word: u32) -> Instr
    ensures { result ≡ alu op cc word }
{
    Instr::Alu {
        op,
        cc,
        rd: rd(word),
        rs1: rs1(word),
        op2: op2(word),
    }
}

#[inline]
fn load_word(kind: LoadKind, word: u32) -> Instr
    ensures { result ≡ load kind word }
{
    Instr::Load {
        kind,
        rd: rd(word),
        rs1: rs1(word),
        op2: op2(word),
    }
}

#[inline]
fn store_word(kind: StoreKind, word: u32) -> Instr
    ensures { result ≡ store kind word }
{
    Instr::Store {
        kind,
        rd: rd(word),
        rs1: rs1(word),
        op2: op2(word),
    }
}

#[inline]
fn has_even_rd(word: u32) -> bool
    ensures { result ≡ (rd_of word % 2 == 0) }
{
    bits(word, 25, 5) % 2 == 0
}

#[inline]
fn read_state_word(word: u32) -> Instr
    ensures { result ≡ read_state word }
{
    match bits(word, 14, 5) {
        0 => Instr::ReadY { rd: rd(word) },
        15 if bits(word, 25, 5) == 0 => Instr::Stbar,
        _ => Instr::Illegal,
    }
}

#[inline]
fn write_state_word(word: u32) -> Instr
    ensures { result ≡ write_state word }
{
    if bits(word, 25, 5) == 0 {
        Instr::WriteY {
            rs1: rs1(word),
            op2: op2(word),
        }
    } else {
        Instr::Illegal
    }
}

#[inline]
#[tactic(auto, unfolding(crate::specs::Words::branch_or_sethi))]
fn branch_or_sethi_word(word: u32) -> Instr
    ensures { result ≡ branch_or_sethi word }
{
    match bits(word, 22, 3) {
        2 => Instr::Branch {
            cond: cond(word),
            annul: bits(word, 29, 1) == 1,
            disp22: extended(22, bits(word, 0, 22)),
        },
        4 => Instr::Sethi {
            rd: rd(word),
            imm22: bits(word, 0, 22),
        },
        6 => Instr::FpOff,
        7 => Instr::CpOff,
        _ => Instr::Illegal,
    }
}

#[inline]
#[tactic(auto, unfolding(crate::specs::Words::arithmetic))]
fn arithmetic_word(word: u32) -> Instr
    ensures { result ≡ arithmetic word }
{
    match bits(word, 19, 6) {
        0x00 => alu_word(AluOp::ADD, false, word),
        0x01 => alu_word(AluOp::AND, false, word),
        0x02 => alu_word(AluOp::OR, false, word),
        0x03 => alu_word(AluOp::XOR, false, word),
        0x04 => alu_word(AluOp::SUB, false, word),
        0x05 => alu_word(AluOp::ANDN, false, word),
        0x06 => alu_word(AluOp::ORN, false, word),
        0x07 => alu_word(AluOp::XNOR, false, word),
        0x08 => alu_word(AluOp::ADDX, false, word),
        0x0a => alu_word(AluOp::UMUL, false, word),
        0x0b => alu_word(AluOp::SMUL, false, word),
        0x0c => alu_word(AluOp::SUBX, false, word),
        0x0e => alu_word(AluOp::UDIV, false, word),
        0x0f => alu_word(AluOp::SDIV, false, word),
        0x10 => alu_word(AluOp::ADD, true, word),
        0x11 => alu_word(AluOp::AND, true, word),
        0x12 => alu_word(AluOp::OR, true, word),
        0x13 => alu_word(AluOp::XOR, true, word),
        0x14 => alu_word(AluOp::SUB, true, word),
        0x15 => alu_word(AluOp::ANDN, true, word),
        0x16 => alu_word(AluOp::ORN, true, word),
        0x17 => alu_word(AluOp::XNOR, true, word),
        0x18 => alu_word(AluOp::ADDX, true, word),
        0x1a => alu_word(AluOp::UMUL, true, word),
        0x1b => alu_word(AluOp::SMUL, true, word),
        0x1c => alu_word(AluOp::SUBX, true, word),
        0x1e => alu_word(AluOp::UDIV, true, word),
        0x1f => alu_word(AluOp::SDIV, true, word),
        0x20 => alu_word(AluOp::TADDcc, true, word),
        0x21 => alu_word(AluOp::TSUBcc, true, word),
        0x22 => alu_word(AluOp::TADDccTV, true, word),
        0x23 => alu_word(AluOp::TSUBccTV, true, word),
        0x24 => alu_word(AluOp::MULScc, true, word),
        0x25 => alu_word(AluOp::SLL, false, word),
        0x26 => alu_word(AluOp::SRL, false, word),
        0x27 => alu_word(AluOp::SRA, false, word),
        0x28 => read_state_word(word),
        0x30 => write_state_word(word),
        0x29 => Instr::Privileged,
        0x2a => Instr::Privileged,
        0x2b => Instr::Privileged,
        0x31 => Instr::Privileged,
        0x32 => Instr::Privileged,
        0x33 => Instr::Privileged,
        0x39 => Instr::Privileged,
        0x34 => Instr::FpOff,
        0x35 => Instr::FpOff,
        0x36 => Instr::CpOff,
        0x37 => Instr::CpOff,
        0x38 => Instr::Jmpl {
            rd: rd(word),
            rs1: rs1(word),
            op2: op2(word),
        },
        0x3a => Instr::Ticc {
            cond: cond(word),
            rs1: rs1(word),
            op2: op2(word),
        },
        0x3b => Instr::Flush {
            rs1: rs1(word),
            op2: op2(word),
        },
        0x3c => Instr::Save {
            rd: rd(word),
            rs1: rs1(word),
            op2: op2(word),
        },
        0x3d => Instr::Restore {
            rd: rd(word),
            rs1: rs1(word),
            op2: op2(word),
        },
        _ => Instr::Illegal,
    }
}

#[inline]
#[tactic(auto, unfolding(crate::specs::Words::memory))]
fn memory_word(word: u32) -> Instr
    ensures { result ≡ memory word }
{
    match bits(word, 19, 6) {
        0x00 => load_word(LoadKind::LD, word),
        0x01 => load_word(LoadKind::LDUB, word),
        0x02 => load_word(LoadKind::LDUH, word),
        0x03 => if has_even_rd(word) {
            load_word(LoadKind::LDD, word)
        } else {
            Instr::Illegal
        },
        0x04 => store_word(StoreKind::ST, word),
        0x05 => store_word(StoreKind::STB, word),
        0x06 => store_word(StoreKind::STH, word),
        0x07 => if has_even_rd(word) {
            store_word(StoreKind::STD, word)
        } else {
            Instr::Illegal
        },
        0x09 => load_word(LoadKind::LDSB, word),
        0x0a => load_word(LoadKind::LDSH, word),
        0x0d => Instr::Ldstub {
            rd: rd(word),
            rs1: rs1(word),
            op2: op2(word),
        },
        0x0f => Instr::Swap {
            rd: rd(word),
            rs1: rs1(word),
            op2: op2(word),
        },
        0x10 => Instr::Privileged,
        0x11 => Instr::Privileged,
        0x12 => Instr::Privileged,
        0x13 => Instr::Privileged,
        0x14 => Instr::Privileged,
        0x15 => Instr::Privileged,
        0x16 => Instr::Privileged,
        0x17 => Instr::Privileged,
        0x19 => Instr::Privileged,
        0x1a => Instr::Privileged,
        0x1d => Instr::Privileged,
        0x1f => Instr::Privileged,
        0x26 => Instr::Privileged,
        0x36 => Instr::Privileged,
        0x20 => Instr::FpOff,
        0x21 => Instr::FpOff,
        0x23 => Instr::FpOff,
        0x24 => Instr::FpOff,
        0x25 => Instr::FpOff,
        0x27 => Instr::FpOff,
        0x30 => Instr::CpOff,
        0x31 => Instr::CpOff,
        0x33 => Instr::CpOff,
        0x34 => Instr::CpOff,
        0x35 => Instr::CpOff,
        0x37 => Instr::CpOff,
        _ => Instr::Illegal,
    }
}

#[inline]
fn call_word(word: u32) -> Instr
    ensures { result ≡ call word }
{
    Instr::Call {
        disp30: extended(30, bits(word, 0, 30)),
    }
}

// The two bits of op are tested one by one, so that the jump by op3 or op2 is the only one through a
// table.
#[inline]
fn format_word(word: u32) -> Instr
    ensures { result ≡ decode_of word }
{
    let high = bits(word, 31, 1);
    let low = bits(word, 30, 1);
    if high == 1 {
        if low == 0 {
            arithmetic_word(word)
        } else {
            memory_word(word)
        }
    } else if low == 0 {
        branch_or_sethi_word(word)
    } else {
        call_word(word)
    }
}

/// What a word says. Bits that its form does not use are not looked at.
#[inline]
pub fn decode(word: u32) -> Instr
    ensures value { result ≡ decode_of word }

    // Registers and conditions are in range, and a doubleword's rd is even.
    ensures range { IsTrue (is_in_range result) }
    ensures pair { IsTrue (has_even_pair result) }
{
    format_word(word)
}
