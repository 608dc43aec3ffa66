//! The word of an instruction of the SPARC V8 integer unit. The sections named here and in specs/ are
//! those of The SPARC Architecture Manual, Version 8.
#![tactic(auto)]

ghost use Rattle.std.specs.Prelude.{◌≡◌, ◌+◌, ◌*◌, ◌^◌, ◌<◌, ◌≤◌, Some, None, if◌then◌else◌, pos, ◌≤ℤ◌, ◌&&◌, ◌↔◌, true, IsTrue, IsSome, IfSome};
ghost use Rattle.v8_decode.specs.Forms.{has_form};
ghost use Rattle.v8_decode.specs.Ranges.{has_even_pair, is_in_range, op2_in_range, operands_in_range};
ghost use Rattle.v8_decode.specs.Words.{decode_of};
ghost use Rattle.v8_encode.specs.Encoding.{alu_op3, annul_bit, format2, format3, load_op3, op2_field, signed_field, store_op3, with_cc};
ghost use Rattle.v8_encode.specs.Code.{cleared, EncodesAgain, encode_of, fits_signed, has_word, ignored_of, op2_fits};

use v8_decode::{AluOp, Cond, Instr, LoadKind, Op2, Reg, StoreKind};

mod instrs;

pub use instrs::{
    branch, condition, jump, keep, load, nop, of_page_word, operation, register, sethi, store,
    take, word, words,
};

// A word's bits so far, and after them a field of `width` bits.
#[inline]
fn followed(high: u32, width: u32, field: u32) -> u32
    requires width { width < 32 }
    requires room { (high + 1) * 2 ^ width ≤ 2 ^ 32 }
    requires range { field < 2 ^ width }
    ensures { result ≡ high * 2 ^ width + field }
{
    high << width | field
}

// A number as a field of `width` bits in two's complement.
fn field_of(width: u32, value: i32) -> Option<u32>
    requires positive { 0 < width }
    requires width { width < 32 }
    ensures value { result ≡ (if fits_signed width value then Some (signed_field width value) else None) }
    ensures range { IfSome result (λ field. field < 2 ^ width) }
{
    let limit = 1 << (width - 1);
    if value < 0 {
        let size = value.unsigned_abs();
        if size <= limit {
            Some((1 << width) - size)
        } else {
            None
        }
    } else {
        let size = value as u32;
        if size < limit { Some(size) } else { None }
    }
}

// A register's number as a field of five bits.
#[inline]
fn register_field(r: Reg) -> u32
    ensures value { result ≡ r }
    ensures range { r < 32 }
{
    r.number() as u32
}

// Bits 13 to 0 of format 3.
fn op2_bits(op2: Op2) -> Option<u32>
    ensures value { result ≡ (if op2_fits op2 then Some (op2_field op2) else None) }
    ensures range { IfSome result (λ field. field < 2 ^ 14) }
    ensures register { op2_in_range op2 ≡ true }
{
    match op2 {
        Op2::Reg(rs2) => Some(register_field(rs2)),
        Op2::Imm(simm13) => Some(followed(1, 13, field_of(13, simm13)?)),
    }
}

// A word of format 3, of its fields.
fn format3_bits(op: u32, rd: u32, op3: u32, rs1: u32, low: u32) -> u32
    requires op { op < 4 }
    requires rd { rd < 32 }
    requires op3 { op3 < 64 }
    requires rs1 { rs1 < 32 }
    requires low { low < 2 ^ 14 }
    ensures { result ≡ op * 2 ^ 30 + rd * 2 ^ 25 + op3 * 2 ^ 19 + rs1 * 2 ^ 14 + low }
{
    followed(
        followed(followed(followed(op, 5, rd), 6, op3), 5, rs1),
        14,
        low,
    )
}

// A word of format 3, where `rd` is bits 29 to 25.
fn format3_word(op: u32, rd: u32, op3: u32, rs1: Reg, op2: Op2) -> Option<u32>
    requires op { op < 4 }
    requires rd { rd < 32 }
    requires op3 { op3 < 64 }
    ensures value { result ≡ (if op2_fits op2 then Some (format3 op rd op3 rs1 op2) else None) }
    ensures operands { operands_in_range rs1 op2 ≡ true }
{
    let rs1 = register_field(rs1);
    Some(format3_bits(op, rd, op3, rs1, op2_bits(op2)?))
}

// A word of format 2, where `high` is bits 29 to 25.
fn format2_word(high: u32, op2: u32, low: u32) -> u32
    requires high { high < 32 }
    requires op2 { op2 < 8 }
    requires low { low < 2 ^ 22 }
    ensures { result ≡ format2 high op2 low }
{
    followed(followed(high, 3, op2), 22, low)
}

// The op3 of an operation that leaves the codes, or of its form that sets them.
#[inline]
fn with_cc(op3: u32, cc: bool) -> u32
    requires { op3 < 0x10 }
    ensures { result ≡ with_cc op3 cc }
{
    if cc { op3 + 0x10 } else { op3 }
}

// The op3 of an operation, where it has such a form.
fn alu_number(op: AluOp, cc: bool) -> Option<u32>
    ensures value { result ≡ (if has_form op cc then Some (alu_op3 op cc) else None) }
    ensures range { IfSome result (λ op3. op3 < 64) }
{
    match op {
        AluOp::ADD => Some(with_cc(0x00, cc)),
        AluOp::AND => Some(with_cc(0x01, cc)),
        AluOp::OR => Some(with_cc(0x02, cc)),
        AluOp::XOR => Some(with_cc(0x03, cc)),
        AluOp::SUB => Some(with_cc(0x04, cc)),
        AluOp::ANDN => Some(with_cc(0x05, cc)),
        AluOp::ORN => Some(with_cc(0x06, cc)),
        AluOp::XNOR => Some(with_cc(0x07, cc)),
        AluOp::ADDX => Some(with_cc(0x08, cc)),
        AluOp::UMUL => Some(with_cc(0x0a, cc)),
        AluOp::SMUL => Some(with_cc(0x0b, cc)),
        AluOp::SUBX => Some(with_cc(0x0c, cc)),
        AluOp::UDIV => Some(with_cc(0x0e, cc)),
        AluOp::SDIV => Some(with_cc(0x0f, cc)),
        AluOp::TADDcc => if cc { Some(0x20) } else { None },
        AluOp::TSUBcc => if cc { Some(0x21) } else { None },
        AluOp::TADDccTV => if cc { Some(0x22) } else { None },
        AluOp::TSUBccTV => if cc { Some(0x23) } else { None },
        AluOp::MULScc => if cc { Some(0x24) } else { None },
        AluOp::SLL => if cc { None } else { Some(0x25) },
        AluOp::SRL => if cc { None } else { Some(0x26) },
        AluOp::SRA => if cc { None } else { Some(0x27) },
    }
}

fn branch_word(cond: Cond, annul: bool, disp22: i32) -> Option<u32>
    ensures value { let high = annul_bit annul * 2 ^ 4 + cond in
        result ≡ (if fits_signed 22 disp22 then Some (format2 high 2 (signed_field 22 disp22)) else None) }
    ensures cond { cond < 16 }
{
    let cond = cond.number() as u32;
    let high = if annul { followed(1, 4, cond) } else { cond };
    Some(format2_word(high, 2, field_of(22, disp22)?))
}

fn call_word(disp30: i32) -> Option<u32>
    ensures { result ≡ (if fits_signed 30 disp30 then Some (2 ^ 30 + signed_field 30 disp30) else None) }
{
    Some(followed(1, 30, field_of(30, disp30)?))
}

fn alu_word(op: AluOp, cc: bool, rd: u32, rs1: Reg, op2: Op2) -> Option<u32>
    requires rd { rd < 32 }
    ensures value { let word = format3 2 rd (alu_op3 op cc) rs1 op2 in
        result ≡ (if has_form op cc && op2_fits op2 then Some word else None) }
    ensures operands { IfSome result (λ _. operands_in_range rs1 op2 ≡ true) }
{
    format3_word(2, rd, alu_number(op, cc)?, rs1, op2)
}

fn load_word(kind: LoadKind, rd: u32, rs1: Reg, op2: Op2) -> Option<u32>
    requires rd { rd < 32 }
    ensures value { let even = has_even_pair (Instr.Load kind rd rs1 op2) in
        result ≡ (if even && op2_fits op2 then Some (format3 3 rd (load_op3 kind) rs1 op2) else None) }
    ensures operands { IfSome result (λ _. operands_in_range rs1 op2 ≡ true) }
{
    match kind {
        LoadKind::LDD => if rd % 2 == 0 {
            format3_word(3, rd, 0x03, rs1, op2)
        } else {
            None
        },
        LoadKind::LD => format3_word(3, rd, 0x00, rs1, op2),
        LoadKind::LDUB => format3_word(3, rd, 0x01, rs1, op2),
        LoadKind::LDUH => format3_word(3, rd, 0x02, rs1, op2),
        LoadKind::LDSB => format3_word(3, rd, 0x09, rs1, op2),
        LoadKind::LDSH => format3_word(3, rd, 0x0a, rs1, op2),
    }
}

fn store_word(kind: StoreKind, rd: u32, rs1: Reg, op2: Op2) -> Option<u32>
    requires rd { rd < 32 }
    ensures value { let even = has_even_pair (Instr.Store kind rd rs1 op2) in
        result ≡ (if even && op2_fits op2 then Some (format3 3 rd (store_op3 kind) rs1 op2) else None) }
    ensures operands { IfSome result (λ _. operands_in_range rs1 op2 ≡ true) }
{
    match kind {
        StoreKind::STD => if rd % 2 == 0 {
            format3_word(3, rd, 0x07, rs1, op2)
        } else {
            None
        },
        StoreKind::ST => format3_word(3, rd, 0x04, rs1, op2),
        StoreKind::STB => format3_word(3, rd, 0x05, rs1, op2),
        StoreKind::STH => format3_word(3, rd, 0x06, rs1, op2),
    }
}

// The word, and that the instruction's registers and condition have such numbers.
#[tactic(auto, unfolding(crate::specs::Code::encode_of))]
fn word_for(i: Instr) -> Option<u32>
    ensures value { result ≡ encode_of i }
    ensures range { IfSome result (λ _. is_in_range i ≡ true) }
{
    match i {
        Instr::Sethi { rd, imm22 } => if imm22 < 1 << 22 {
            Some(format2_word(register_field(rd), 4, imm22))
        } else {
            None
        },
        Instr::Branch {
            cond,
            annul,
            disp22,
        } => branch_word(cond, annul, disp22),
        Instr::Call { disp30 } => call_word(disp30),
        Instr::Alu {
            op,
            cc,
            rd,
            rs1,
            op2,
        } => alu_word(op, cc, register_field(rd), rs1, op2),
        Instr::ReadY { rd } => Some(format3_bits(2, register_field(rd), 0x28, 0, 0)),
        Instr::WriteY { rs1, op2 } => format3_word(2, 0, 0x30, rs1, op2),
        Instr::Jmpl { rd, rs1, op2 } => format3_word(2, register_field(rd), 0x38, rs1, op2),
        Instr::Ticc { cond, rs1, op2 } => format3_word(2, cond.number() as u32, 0x3a, rs1, op2),
        Instr::Flush { rs1, op2 } => format3_word(2, 0, 0x3b, rs1, op2),
        Instr::Stbar => Some(format3_bits(2, 0, 0x28, 15, 0)),
        Instr::Save { rd, rs1, op2 } => format3_word(2, register_field(rd), 0x3c, rs1, op2),
        Instr::Restore { rd, rs1, op2 } => format3_word(2, register_field(rd), 0x3d, rs1, op2),
        Instr::Load { kind, rd, rs1, op2 } => load_word(kind, register_field(rd), rs1, op2),
        Instr::Store { kind, rd, rs1, op2 } => store_word(kind, register_field(rd), rs1, op2),
        Instr::Ldstub { rd, rs1, op2 } => format3_word(3, register_field(rd), 0x0d, rs1, op2),
        Instr::Swap { rd, rs1, op2 } => format3_word(3, register_field(rd), 0x0f, rs1, op2),
        Instr::Illegal => None,
        Instr::Privileged => None,
        Instr::FpOff => None,
        Instr::CpOff => None,
    }
}

/// The word of an instruction: none where an immediate does not fit its field, where the operation has
/// no form that sets codes, or none that leaves them, as `cc` asks, where a doubleword's rd is odd, and
/// for the four variants that are no instruction.
pub fn encode(i: Instr) -> Option<u32>
    ensures word { result ≡ encode_of i }
    ensures found { IsSome result ↔ IsTrue (has_word i) }

    // The word decodes to the instruction, and the bits that its form ignores are 0.
    ensures decodes { IfSome result (λ w. decode_of w ≡ i) }
    ensures ignored { IfSome result (λ w. cleared (ignored_of i) w ≡ w) }

    // Each word that is an instruction is encoded again, but for the bits that its form ignores.
    ensures again { EncodesAgain i result }
{
    word_for(i)
}
