//! Answers that were computed apart from this repository, from the text of the manual: V by the range of signed
//! numbers, C by comparing, quotients by exact division.
ghost use Rattle.std.specs.Prelude.{◌≡◌};
ghost use Rattle.v8_decode.specs.Forms.{has_form};

use std::process::Abort;
use v8_alu::AluTrap::{DivZero, TagOverflow};
use v8_alu::{AluOut, AluTrap, Codes, alu, holds};
use v8_decode::AluOp::{
    ADD, ADDX, AND, ANDN, MULScc, OR, ORN, SDIV, SLL, SMUL, SRA, SRL, SUB, SUBX, TADDcc, TADDccTV,
    TSUBcc, TSUBccTV, UDIV, UMUL, XNOR, XOR,
};
use v8_decode::{AluOp, Cond};

// What Y holds before an operation that doesn't read it.
const OLD_Y: u32 = 0x1234_5678;

// The codes and Y before an operation that reads neither.
const BEFORE: (u8, u32) = (0b1111, OLD_Y);

const MAX: u32 = u32::MAX;

// The lowest signed number, and 2^31.
const HIGH: u32 = 0x8000_0000;

// Two operands; the value and the codes, which are N, Z, V, C from the left.
const PLAIN: [(AluOp, u32, u32, u32, u8); 91] = [
    // B.13
    (ADD, 0x0000_0000, 0x0000_0000, 0x0000_0000, 0b0100),
    (ADD, 0x0000_0001, 0xffff_ffff, 0x0000_0000, 0b0101),
    (ADD, 0x7fff_ffff, 0x0000_0001, 0x8000_0000, 0b1010),
    (ADD, 0x7fff_ffff, 0x7fff_ffff, 0xffff_fffe, 0b1010),
    (ADD, 0x8000_0000, 0x8000_0000, 0x0000_0000, 0b0111),
    (ADD, 0x8000_0000, 0xffff_ffff, 0x7fff_ffff, 0b0011),
    (ADD, 0xffff_ffff, 0xffff_ffff, 0xffff_fffe, 0b1001),
    (ADD, 0x0000_0000, 0x0000_0001, 0x0000_0001, 0b0000),
    (ADD, 0x0000_0000, 0x8000_0000, 0x8000_0000, 0b1000),
    (ADD, 0x7fff_ffff, 0xffff_ffff, 0x7fff_fffe, 0b0001),
    (ADD, 0x0000_0001, 0x8000_0000, 0x8000_0001, 0b1000),
    (ADD, 0x8000_0000, 0x0000_0001, 0x8000_0001, 0b1000),
    (ADD, 0xffff_ffff, 0x8000_0000, 0x7fff_ffff, 0b0011),
    // B.15
    (SUB, 0x0000_0000, 0x0000_0000, 0x0000_0000, 0b0100),
    (SUB, 0x0000_0001, 0xffff_ffff, 0x0000_0002, 0b0001),
    (SUB, 0x7fff_ffff, 0x0000_0001, 0x7fff_fffe, 0b0000),
    (SUB, 0x7fff_ffff, 0x7fff_ffff, 0x0000_0000, 0b0100),
    (SUB, 0x8000_0000, 0x8000_0000, 0x0000_0000, 0b0100),
    (SUB, 0x8000_0000, 0xffff_ffff, 0x8000_0001, 0b1001),
    (SUB, 0xffff_ffff, 0xffff_ffff, 0x0000_0000, 0b0100),
    (SUB, 0x0000_0000, 0x0000_0001, 0xffff_ffff, 0b1001),
    (SUB, 0x0000_0000, 0x8000_0000, 0x8000_0000, 0b1011),
    (SUB, 0x7fff_ffff, 0xffff_ffff, 0x8000_0000, 0b1011),
    (SUB, 0x0000_0001, 0x8000_0000, 0x8000_0001, 0b1011),
    (SUB, 0x8000_0000, 0x0000_0001, 0x7fff_ffff, 0b0010),
    (SUB, 0xffff_ffff, 0x8000_0000, 0x7fff_ffff, 0b0000),
    // B.11
    (AND, 0x0ff0_0ff0, 0x00ff_ff00, 0x00f0_0f00, 0b0000),
    (AND, 0xffff_0000, 0x0000_ffff, 0x0000_0000, 0b0100),
    (AND, 0x8000_0000, 0xffff_ffff, 0x8000_0000, 0b1000),
    (AND, 0x0000_0000, 0x0000_0000, 0x0000_0000, 0b0100),
    (AND, 0xffff_ffff, 0xffff_ffff, 0xffff_ffff, 0b1000),
    (OR, 0x0ff0_0ff0, 0x00ff_ff00, 0x0fff_fff0, 0b0000),
    (OR, 0xffff_0000, 0x0000_ffff, 0xffff_ffff, 0b1000),
    (OR, 0x8000_0000, 0xffff_ffff, 0xffff_ffff, 0b1000),
    (OR, 0x0000_0000, 0x0000_0000, 0x0000_0000, 0b0100),
    (OR, 0xffff_ffff, 0xffff_ffff, 0xffff_ffff, 0b1000),
    (XOR, 0x0ff0_0ff0, 0x00ff_ff00, 0x0f0f_f0f0, 0b0000),
    (XOR, 0xffff_0000, 0x0000_ffff, 0xffff_ffff, 0b1000),
    (XOR, 0x8000_0000, 0xffff_ffff, 0x7fff_ffff, 0b0000),
    (XOR, 0x0000_0000, 0x0000_0000, 0x0000_0000, 0b0100),
    (XOR, 0xffff_ffff, 0xffff_ffff, 0x0000_0000, 0b0100),
    (ANDN, 0x0ff0_0ff0, 0x00ff_ff00, 0x0f00_00f0, 0b0000),
    (ANDN, 0xffff_0000, 0x0000_ffff, 0xffff_0000, 0b1000),
    (ANDN, 0x8000_0000, 0xffff_ffff, 0x0000_0000, 0b0100),
    (ANDN, 0x0000_0000, 0x0000_0000, 0x0000_0000, 0b0100),
    (ANDN, 0xffff_ffff, 0xffff_ffff, 0x0000_0000, 0b0100),
    (ORN, 0x0ff0_0ff0, 0x00ff_ff00, 0xfff0_0fff, 0b1000),
    (ORN, 0xffff_0000, 0x0000_ffff, 0xffff_0000, 0b1000),
    (ORN, 0x8000_0000, 0xffff_ffff, 0x8000_0000, 0b1000),
    (ORN, 0x0000_0000, 0x0000_0000, 0xffff_ffff, 0b1000),
    (ORN, 0xffff_ffff, 0xffff_ffff, 0xffff_ffff, 0b1000),
    (XNOR, 0x0ff0_0ff0, 0x00ff_ff00, 0xf0f0_0f0f, 0b1000),
    (XNOR, 0xffff_0000, 0x0000_ffff, 0x0000_0000, 0b0100),
    (XNOR, 0x8000_0000, 0xffff_ffff, 0x8000_0000, 0b1000),
    (XNOR, 0x0000_0000, 0x0000_0000, 0xffff_ffff, 0b1000),
    (XNOR, 0xffff_ffff, 0xffff_ffff, 0xffff_ffff, 0b1000),
    // B.14
    (TADDcc, 0x0000_0008, 0x0000_0004, 0x0000_000c, 0b0000),
    (TADDcc, 0x0000_0001, 0x0000_0004, 0x0000_0005, 0b0010),
    (TADDcc, 0x0000_0004, 0x0000_0002, 0x0000_0006, 0b0010),
    (TADDcc, 0x0000_0003, 0x0000_0003, 0x0000_0006, 0b0010),
    (TADDcc, 0x0000_0004, 0x0000_0008, 0x0000_000c, 0b0000),
    (TADDcc, 0x7fff_fffc, 0x0000_0004, 0x8000_0000, 0b1010),
    (TADDcc, 0x8000_0000, 0x0000_0004, 0x8000_0004, 0b1000),
    (TADDcc, 0x8000_0000, 0x8000_0000, 0x0000_0000, 0b0111),
    (TADDcc, 0xffff_fffc, 0x0000_0004, 0x0000_0000, 0b0101),
    (TADDcc, 0x0000_0004, 0xffff_fffc, 0x0000_0000, 0b0101),
    (TADDcc, 0x0000_0000, 0x0000_0000, 0x0000_0000, 0b0100),
    // B.16
    (TSUBcc, 0x0000_0008, 0x0000_0004, 0x0000_0004, 0b0000),
    (TSUBcc, 0x0000_0001, 0x0000_0004, 0xffff_fffd, 0b1011),
    (TSUBcc, 0x0000_0004, 0x0000_0002, 0x0000_0002, 0b0010),
    (TSUBcc, 0x0000_0003, 0x0000_0003, 0x0000_0000, 0b0110),
    (TSUBcc, 0x0000_0004, 0x0000_0008, 0xffff_fffc, 0b1001),
    (TSUBcc, 0x7fff_fffc, 0x0000_0004, 0x7fff_fff8, 0b0000),
    (TSUBcc, 0x8000_0000, 0x0000_0004, 0x7fff_fffc, 0b0010),
    (TSUBcc, 0x8000_0000, 0x8000_0000, 0x0000_0000, 0b0100),
    (TSUBcc, 0xffff_fffc, 0x0000_0004, 0xffff_fff8, 0b1000),
    (TSUBcc, 0x0000_0004, 0xffff_fffc, 0x0000_0008, 0b0001),
    (TSUBcc, 0x0000_0000, 0x0000_0000, 0x0000_0000, 0b0100),
    // B.14
    (TADDccTV, 0x0000_0008, 0x0000_0004, 0x0000_000c, 0b0000),
    (TADDccTV, 0x0000_0004, 0x0000_0008, 0x0000_000c, 0b0000),
    (TADDccTV, 0x8000_0000, 0x0000_0004, 0x8000_0004, 0b1000),
    (TADDccTV, 0xffff_fffc, 0x0000_0004, 0x0000_0000, 0b0101),
    (TADDccTV, 0x0000_0004, 0xffff_fffc, 0x0000_0000, 0b0101),
    (TADDccTV, 0x0000_0000, 0x0000_0000, 0x0000_0000, 0b0100),
    // B.16
    (TSUBccTV, 0x0000_0008, 0x0000_0004, 0x0000_0004, 0b0000),
    (TSUBccTV, 0x0000_0004, 0x0000_0008, 0xffff_fffc, 0b1001),
    (TSUBccTV, 0x7fff_fffc, 0x0000_0004, 0x7fff_fff8, 0b0000),
    (TSUBccTV, 0x8000_0000, 0x8000_0000, 0x0000_0000, 0b0100),
    (TSUBccTV, 0xffff_fffc, 0x0000_0004, 0xffff_fff8, 0b1000),
    (TSUBccTV, 0x0000_0004, 0xffff_fffc, 0x0000_0008, 0b0001),
    (TSUBccTV, 0x0000_0000, 0x0000_0000, 0x0000_0000, 0b0100),
];

// Two operands and C (B.13, B.15); the value and the codes.
const CARRIED: [(AluOp, u32, u32, u8, u32, u8); 24] = [
    (ADDX, 0x0000_0000, 0x0000_0000, 0, 0x0000_0000, 0b0100),
    (ADDX, 0x0000_0000, 0x0000_0000, 1, 0x0000_0001, 0b0000),
    (ADDX, 0xffff_ffff, 0x0000_0000, 1, 0x0000_0000, 0b0101),
    (ADDX, 0x7fff_ffff, 0x0000_0000, 1, 0x8000_0000, 0b1010),
    (ADDX, 0x0000_0000, 0xffff_ffff, 1, 0x0000_0000, 0b0101),
    (ADDX, 0x8000_0000, 0xffff_ffff, 1, 0x8000_0000, 0b1001),
    (ADDX, 0x8000_0000, 0x0000_0000, 1, 0x8000_0001, 0b1000),
    (ADDX, 0x0000_0000, 0x7fff_ffff, 1, 0x8000_0000, 0b1010),
    (ADDX, 0x0000_0000, 0x8000_0000, 1, 0x8000_0001, 0b1000),
    (ADDX, 0xffff_ffff, 0xffff_ffff, 0, 0xffff_fffe, 0b1001),
    (ADDX, 0xffff_ffff, 0xffff_ffff, 1, 0xffff_ffff, 0b1001),
    (ADDX, 0x0000_0001, 0x0000_0000, 1, 0x0000_0002, 0b0000),
    (SUBX, 0x0000_0000, 0x0000_0000, 0, 0x0000_0000, 0b0100),
    (SUBX, 0x0000_0000, 0x0000_0000, 1, 0xffff_ffff, 0b1001),
    (SUBX, 0xffff_ffff, 0x0000_0000, 1, 0xffff_fffe, 0b1000),
    (SUBX, 0x7fff_ffff, 0x0000_0000, 1, 0x7fff_fffe, 0b0000),
    (SUBX, 0x0000_0000, 0xffff_ffff, 1, 0x0000_0000, 0b0101),
    (SUBX, 0x8000_0000, 0xffff_ffff, 1, 0x8000_0000, 0b1001),
    (SUBX, 0x8000_0000, 0x0000_0000, 1, 0x7fff_ffff, 0b0010),
    (SUBX, 0x0000_0000, 0x7fff_ffff, 1, 0x8000_0000, 0b1001),
    (SUBX, 0x0000_0000, 0x8000_0000, 1, 0x7fff_ffff, 0b0001),
    (SUBX, 0xffff_ffff, 0xffff_ffff, 0, 0x0000_0000, 0b0100),
    (SUBX, 0xffff_ffff, 0xffff_ffff, 1, 0xffff_ffff, 0b1001),
    (SUBX, 0x0000_0001, 0x0000_0000, 1, 0x0000_0000, 0b0100),
];

// Two operands (B.18); the value and the codes, and Y after UMUL and after SMUL.
const PRODUCTS: [(u32, u32, u32, u8, u32, u32); 10] = [
    (0, MAX, 0, 0b0100, 0, 0),
    (1, MAX, MAX, 0b1000, 0, MAX),
    (MAX, MAX, 1, 0b0000, MAX - 1, 0),
    (HIGH, HIGH, 0, 0b0100, HIGH / 2, HIGH / 2),
    (HIGH - 1, HIGH - 1, 1, 0b0000, 0x3fff_ffff, 0x3fff_ffff),
    (HIGH, HIGH - 1, HIGH, 0b1000, 0x3fff_ffff, 0xc000_0000),
    (HIGH, MAX, HIGH, 0b1000, HIGH - 1, 0),
    (0x1_0000, 0x1_0000, 0, 0b0100, 1, 1),
    (0x1_0000, 0x8000, HIGH, 0b1000, 0, 0),
    (7, MAX - 2, MAX - 20, 0b1000, 6, MAX),
];

// Y and two operands (B.19); the value and the codes of UDIV, and those of SDIV.
const QUOTIENTS: [(u32, u32, u32, u32, u8, u32, u8); 22] = [
    (HIGH, 0, MAX, HIGH, 0b1000, HIGH - 1, 0b0010),
    (1, 0, 1, MAX, 0b1010, HIGH - 1, 0b0010),
    (0, MAX, 1, MAX, 0b1000, HIGH - 1, 0b0010),
    (0, 7, 2, 3, 0b0000, 3, 0b0000),
    (MAX, MAX - 6, 2, MAX, 0b1010, MAX - 2, 0b1000),
    (0, 7, MAX - 1, 0, 0b0100, MAX - 2, 0b1000),
    (MAX, MAX - 6, MAX - 1, MAX, 0b1010, 3, 0b0000),
    (MAX, HIGH, 1, MAX, 0b1010, HIGH, 0b1000),
    (MAX, HIGH, MAX, MAX, 0b1010, HIGH - 1, 0b0010),
    (0, HIGH, MAX, 0, 0b0100, HIGH, 0b1000),
    (0, HIGH - 1, 1, HIGH - 1, 0b0000, HIGH - 1, 0b0000),
    (0, HIGH, 1, HIGH, 0b1000, HIGH - 1, 0b0010),
    (MAX, HIGH - 1, 1, MAX, 0b1010, HIGH, 0b1010),
    (1, 0, HIGH, 2, 0b0000, MAX - 1, 0b1000),
    (HIGH / 2, 0, HIGH, HIGH, 0b1000, HIGH, 0b1000),
    (0x3fff_ffff, 0, HIGH, HIGH - 2, 0b0000, HIGH + 2, 0b1000),
    (HIGH - 1, 0, HIGH - 1, MAX, 0b1010, HIGH - 1, 0b0010),
    (MAX, MAX, MAX, MAX, 0b1010, 1, 0b0000),
    (MAX - 1, MAX, MAX, MAX, 0b1000, HIGH - 1, 0b0010),
    (HIGH, 0, 1, MAX, 0b1010, HIGH, 0b1010),
    (HIGH - 1, MAX, MAX, HIGH, 0b1000, HIGH, 0b1010),
    (15, 0, 16, 0xf000_0000, 0b1000, HIGH - 1, 0b0010),
];

// Two operands, codes and Y (B.17); the value, the codes and Y.
const STEPS: [(u32, u32, (u8, u32), u32, u8, u32); 13] = [
    (3, 5, (0b0000, 1), 6, 0b0000, HIGH),
    (3, 5, (0b0000, 2), 1, 0b0000, HIGH + 1),
    (3, 5, (0b1000, 1), HIGH + 6, 0b1000, HIGH),
    (3, 5, (0b0010, 1), HIGH + 6, 0b1000, HIGH),
    (3, 5, (0b1010, 1), 6, 0b0000, HIGH),
    (3, 5, (0b0101, 1), 6, 0b0000, HIGH),
    (MAX, MAX, (0b1000, MAX), MAX - 1, 0b1001, MAX),
    (MAX, MAX, (0b0000, MAX), HIGH - 2, 0b0001, MAX),
    (HIGH, HIGH, (0b1000, HIGH + 1), HIGH / 2, 0b0011, HIGH / 2),
    (0, 0, (0b0000, 0), 0, 0b0100, 0),
    (HIGH - 1, HIGH / 2, (0b0010, 3), MAX, 0b1000, HIGH + 1),
    (2, HIGH - 1, (0b0000, 1), HIGH, 0b1010, 0),
    (2, MAX, (0b0000, 1), 0, 0b0101, 0),
];

// Y and two operands; the trap.
const TRAPS: [(AluOp, u32, u32, u32, AluTrap); 13] = [
    (TADDccTV, OLD_Y, 0x0000_0001, 0x0000_0004, TagOverflow),
    (TADDccTV, OLD_Y, 0x0000_0004, 0x0000_0002, TagOverflow),
    (TADDccTV, OLD_Y, 0x0000_0003, 0x0000_0003, TagOverflow),
    (TADDccTV, OLD_Y, 0x7fff_fffc, 0x0000_0004, TagOverflow),
    (TADDccTV, OLD_Y, 0x8000_0000, 0x8000_0000, TagOverflow),
    (TSUBccTV, OLD_Y, 0x0000_0001, 0x0000_0004, TagOverflow),
    (TSUBccTV, OLD_Y, 0x0000_0004, 0x0000_0002, TagOverflow),
    (TSUBccTV, OLD_Y, 0x0000_0003, 0x0000_0003, TagOverflow),
    (TSUBccTV, OLD_Y, 0x8000_0000, 0x0000_0004, TagOverflow),
    (UDIV, 0x0000_0000, 0x0000_0000, 0x0000_0000, DivZero),
    (UDIV, 0x8000_0000, 0x0000_0000, 0x0000_0000, DivZero),
    (SDIV, 0x0000_0000, 0x0000_0000, 0x0000_0000, DivZero),
    (SDIV, 0x8000_0000, 0x0000_0000, 0x0000_0000, DivZero),
];

// Two operands (B.12); the values of SLL, SRL and SRA.
const SHIFTS: [(u32, u32, u32, u32, u32); 13] = [
    (0x8765_4321, 0, 0x8765_4321, 0x8765_4321, 0x8765_4321),
    (0x8765_4321, 1, 0x0eca_8642, 0x43b2_a190, 0xc3b2_a190),
    (0x8765_4321, 31, HIGH, 1, MAX),
    (0x8765_4321, 32, 0x8765_4321, 0x8765_4321, 0x8765_4321),
    (0x8765_4321, 33, 0x0eca_8642, 0x43b2_a190, 0xc3b2_a190),
    (0x8765_4321, 63, HIGH, 1, MAX),
    (0x8765_4321, MAX, HIGH, 1, MAX),
    (0x8765_4321, HIGH, 0x8765_4321, 0x8765_4321, 0x8765_4321),
    (HIGH - 1, 31, HIGH, 0, 0),
    (HIGH - 1, 4, MAX - 15, 0x07ff_ffff, 0x07ff_ffff),
    (HIGH, 4, 0, 0x0800_0000, 0xf800_0000),
    (MAX, 16, 0xffff_0000, 0xffff, MAX),
    (0, 31, 0, 0, 0),
];

// A condition (B.21), and the codes at which it holds: bit n for the codes that are n in binary.
const CONDITIONS: [(u8, u32); 16] = [
    (0, 0x0000), // bn
    (1, 0xf0f0), // be
    (2, 0xf3fc), // ble
    (3, 0x33cc), // bl
    (4, 0xfafa), // bleu
    (5, 0xaaaa), // bcs
    (6, 0xff00), // bneg
    (7, 0xcccc), // bvs
    (8, 0xffff), // ba
    (9, 0x0f0f), // bne
    (10, 0x0c03), // bg
    (11, 0xcc33), // bge
    (12, 0x0505), // bgu
    (13, 0x5555), // bcc
    (14, 0x00ff), // bpos
    (15, 0x3333), // bvc
];

// The codes of four bits, N, Z, V, C from the left.
fn codes_from(bits: u8) -> Codes {
    Codes {
        n: bits & 8 != 0,
        z: bits & 4 != 0,
        v: bits & 2 != 0,
        c: bits & 1 != 0,
    }
}

fn out(value: u32, codes: u8, y: u32) -> Result<AluOut, AluTrap> {
    Ok(AluOut {
        value,
        codes: codes_from(codes),
        y,
    })
}

// Whether an instruction word can have the operation with this cc.
fn is_form(op: AluOp, cc: bool) -> bool
    ensures { result ≡ has_form op cc }
{
    match op {
        SLL | SRL | SRA => !cc,
        TADDcc | TSUBcc | TADDccTV | TSUBccTV | MULScc => cc,
        ADD | AND | OR | XOR | SUB | ANDN | ORN | XNOR | ADDX | UMUL | SMUL | SUBX | UDIV | SDIV =>
            true,
    }
}

// One call, at the codes and Y before it.
fn expect(
    rt: &impl Abort,
    (op, cc, a, b): (AluOp, bool, u32, u32),
    (before, y): (u8, u32),
    wanted: Result<AluOut, AluTrap>,
) {
    assert!(rt; is_form(op, cc), "{op:?} {cc}");
    let found = alu(op, cc, a, b, codes_from(before), y);
    assert_eq!(rt;
        found,
        wanted,
        "{op:?} {cc} of {a:08x} and {b:08x} at {before:04b} and {y:08x}"
    );
}

#[test]
fn values_and_codes(rt: HostRuntime) {
    for (op, a, b, value, after) in PLAIN {
        expect(&rt, (op, true, a, b), BEFORE, out(value, after, OLD_Y));
    }
    for (op, a, b, c, value, after) in CARRIED {
        expect(&rt, (op, true, a, b), (c, OLD_Y), out(value, after, OLD_Y));
    }
}

#[test]
fn kept_codes(rt: HostRuntime) {
    for (op, a, b, value, _) in PLAIN {
        if is_form(op, false) {
            expect(&rt, (op, false, a, b), BEFORE, out(value, 0b1111, OLD_Y));
        }
    }
    let before = (0b1010, OLD_Y);
    for (a, b, left, right, signed) in SHIFTS {
        expect(&rt, (SLL, false, a, b), before, out(left, 0b1010, OLD_Y));
        expect(&rt, (SRL, false, a, b), before, out(right, 0b1010, OLD_Y));
        expect(&rt, (SRA, false, a, b), before, out(signed, 0b1010, OLD_Y));
    }
}

#[test]
fn products_and_steps(rt: HostRuntime) {
    for (a, b, value, after, unsigned, signed) in PRODUCTS {
        expect(&rt, (UMUL, true, a, b), BEFORE, out(value, after, unsigned));
        expect(&rt, (SMUL, true, a, b), BEFORE, out(value, after, signed));
    }
    for (a, b, before, value, after, y) in STEPS {
        expect(&rt, (MULScc, true, a, b), before, out(value, after, y));
    }
}

#[test]
fn quotients(rt: HostRuntime) {
    for (y, a, b, unsigned, after, signed, after_signed) in QUOTIENTS {
        let before = (0b1111, y);
        expect(&rt, (UDIV, true, a, b), before, out(unsigned, after, y));
        expect(
            &rt,
            (SDIV, true, a, b),
            before,
            out(signed, after_signed, y),
        );
    }
}

#[test]
fn traps(rt: HostRuntime) {
    for (op, y, a, b, trap) in TRAPS {
        expect(&rt, (op, true, a, b), (0, y), Err(trap));
    }
}

#[test]
fn sixteen_conditions(rt: HostRuntime) {
    for (number, at) in CONDITIONS {
        let cond = Cond::new(number).expect(&rt, "a condition");
        for bits in 0..16u8 {
            assert_eq!(rt;
                holds(cond, codes_from(bits)),
                at >> bits & 1 == 1,
                "{number} at {bits:04b}"
            );
        }
    }
}
