//! Common instructions as records that are quick to carry out.
ghost use Rattle.std.specs.Prelude.{◌≡◌, ◌⊎◌, ◌<◌, ◌==◌, ◌*◌, ◌%◌, IsTrue};
ghost use Rattle.v8_decode.specs.Ranges.{has_even_pair};
ghost use Rattle.v8_decode.specs.declared.Instr.TheVariants as instrs;
ghost use Rattle.v8_memory.specs.Ops.{IsSum, Stands, alu_in, instr_by, instr_of, operand_in, plain_operand};

use v8_decode::{AluOp, Cond, Instr, LoadKind, Op2, Reg, StoreKind};

/// The instructions that have records: some with and without their codes. All else is `Other`.
#[derive(Clone, Copy, PartialEq, Eq, Drop)]
pub enum OpCode {
    Sethi,
    B0,
    B1,
    B2,
    B3,
    B4,
    B5,
    B6,
    B7,
    B8,
    B9,
    B10,
    B11,
    B12,
    B13,
    B14,
    B15,
    Call,
    Add,
    AddCc,
    Sub,
    SubCc,
    And,
    AndCc,
    Or,
    OrCc,
    Xor,
    XorCc,
    Andn,
    AndnCc,
    Orn,
    Xnor,
    XnorCc,
    Addx,
    AddxCc,
    Subx,
    SubxCc,
    Umul,
    Smul,
    Udiv,
    Sdiv,
    MulsCc,
    Sll,
    Srl,
    Sra,
    ReadY,
    WriteY,
    Ld,
    Ldub,
    Lduh,
    Ldsb,
    Ldsh,
    Ldd,
    St,
    Stb,
    Sth,
    Std,
    Swap,
    Jmpl,
    Save,
    Restore,
    Other,
}

/// An instruction whose second operand is the sum of `rs2` and `imm`, one of which is %g0 or 0. A branch has a
/// code for each condition, and its annul bit in the place of `rd`; a doubleword has half of its rd there.
#[derive(Clone, Copy, Drop)]
pub struct Predecoded {
    pub code: OpCode,
    pub rd: Reg,
    pub rs1: Reg,
    pub rs2: Reg,
    pub imm: i32,
}

/// The record of an instruction; `Other` where there is none.
#[inline]
#[tactic(auto, unfolding(crate::specs::Ops::instr_of))]
pub fn op_of(instr: Instr) -> Predecoded
    requires { IsTrue (has_even_pair instr) }
    ensures sum { IsSum result.rs2 result.imm }
    ensures stands { (result.code ≡ OpCode.Other) ⊎ Stands result instr }
{
    match instr {
        Instr::Sethi { rd, imm22 } => immediate(OpCode::Sethi, rd, imm22.cast_signed()),
        Instr::Branch {
            cond,
            annul,
            disp22,
        } => immediate(branch_code(cond), annul_place(annul), disp22),
        Instr::Call { disp30 } => immediate(OpCode::Call, register(15), disp30),
        Instr::Alu {
            op,
            cc,
            rd,
            rs1,
            op2,
        } => with_operand(alu_code(op, cc), rd, rs1, op2),
        Instr::Jmpl { rd, rs1, op2 } => with_operand(OpCode::Jmpl, rd, rs1, op2),
        Instr::Save { rd, rs1, op2 } => with_operand(OpCode::Save, rd, rs1, op2),
        Instr::Restore { rd, rs1, op2 } => with_operand(OpCode::Restore, rd, rs1, op2),
        Instr::ReadY { rd } => immediate(OpCode::ReadY, rd, 0),
        Instr::WriteY { rs1, op2 } => with_operand(OpCode::WriteY, register(0), rs1, op2),
        Instr::Load { kind, rd, rs1, op2 } => load_op(kind, rd, rs1, op2),
        Instr::Store { kind, rd, rs1, op2 } => store_op(kind, rd, rs1, op2),
        Instr::Swap { rd, rs1, op2 } => with_operand(OpCode::Swap, rd, rs1, op2),
        _ => no_op(),
    }
}

/// The half of an even register's number.
fn half(rd: Reg) -> Reg
    requires { rd % 2 ≡ 0 }
    ensures { 2 * (result % 16) ≡ rd }
{
    register(rd.number() / 2)
}

/// The record that says nothing.
pub fn no_op() -> Predecoded
    ensures code { result.code ≡ OpCode.Other }
    ensures sum { IsSum result.rs2 result.imm }
{
    immediate(OpCode::Other, register(0), 0)
}

/// A record with an immediate, and %g0 beside it.
fn immediate(code: OpCode, rd: Reg, imm: i32) -> Predecoded
    ensures { result ≡ record { code = code; rd = rd; rs1 = 0; rs2 = 0; imm = imm } }
{
    Predecoded {
        code,
        rd,
        rs1: register(0),
        rs2: register(0),
        imm,
    }
}

/// A record with a second operand.
#[tactic(auto, using(crate::proofs::Kept::register_operand))]
fn with_operand(code: OpCode, rd: Reg, rs1: Reg, op2: Op2) -> Predecoded
    ensures code { result.code ≡ code }
    ensures rd { result.rd ≡ rd }
    ensures rs1 { result.rs1 ≡ rs1 }
    ensures operand { operand_in result.rs2 result.imm ≡ plain_operand op2 }
    ensures sum { IsSum result.rs2 result.imm }
{
    match op2 {
        Op2::Reg(rs2) => Predecoded {
            code,
            rd,
            rs1,
            rs2,
            imm: 0,
        },
        Op2::Imm(imm) => Predecoded {
            code,
            rd,
            rs1,
            rs2: register(0),
            imm,
        },
    }
}

/// The code of a branch on this condition.
fn branch_code(cond: Cond) -> OpCode
    ensures { (result ≡ OpCode.Other) ⊎ ((x : Predecoded) → instr_by result x ≡ instrs.Branch cond (x.rd == 1) x.imm) }
{
    match cond.number() {
        0 => OpCode::B0,
        1 => OpCode::B1,
        2 => OpCode::B2,
        3 => OpCode::B3,
        4 => OpCode::B4,
        5 => OpCode::B5,
        6 => OpCode::B6,
        7 => OpCode::B7,
        8 => OpCode::B8,
        9 => OpCode::B9,
        10 => OpCode::B10,
        11 => OpCode::B11,
        12 => OpCode::B12,
        13 => OpCode::B13,
        14 => OpCode::B14,
        15 => OpCode::B15,
        _ => OpCode::Other,
    }
}

/// The annul bit of a branch, in the place of a register.
fn annul_place(annul: bool) -> Reg
    ensures { (result == 1) ≡ annul }
{
    if annul { register(1) } else { register(0) }
}

fn alu_code(op: AluOp, cc: bool) -> OpCode
    ensures { (result ≡ OpCode.Other) ⊎ ((x : Predecoded) → instr_by result x ≡ alu_in op cc x) }
{
    match (op, cc) {
        (AluOp::ADD, false) => OpCode::Add,
        (AluOp::ADD, true) => OpCode::AddCc,
        (AluOp::SUB, false) => OpCode::Sub,
        (AluOp::SUB, true) => OpCode::SubCc,
        (AluOp::AND, false) => OpCode::And,
        (AluOp::AND, true) => OpCode::AndCc,
        (AluOp::OR, false) => OpCode::Or,
        (AluOp::OR, true) => OpCode::OrCc,
        (AluOp::XOR, false) => OpCode::Xor,
        (AluOp::XOR, true) => OpCode::XorCc,
        (AluOp::ANDN, false) => OpCode::Andn,
        (AluOp::ANDN, true) => OpCode::AndnCc,
        (AluOp::ORN, false) => OpCode::Orn,
        (AluOp::XNOR, false) => OpCode::Xnor,
        (AluOp::XNOR, true) => OpCode::XnorCc,
        (AluOp::ADDX, false) => OpCode::Addx,
        (AluOp::ADDX, true) => OpCode::AddxCc,
        (AluOp::SUBX, false) => OpCode::Subx,
        (AluOp::SUBX, true) => OpCode::SubxCc,
        (AluOp::UMUL, false) => OpCode::Umul,
        (AluOp::SMUL, false) => OpCode::Smul,
        (AluOp::UDIV, false) => OpCode::Udiv,
        (AluOp::SDIV, false) => OpCode::Sdiv,
        (AluOp::MULScc, true) => OpCode::MulsCc,
        (AluOp::SLL, false) => OpCode::Sll,
        (AluOp::SRL, false) => OpCode::Srl,
        (AluOp::SRA, false) => OpCode::Sra,
        _ => OpCode::Other,
    }
}

#[tactic(auto, unfolding(crate::specs::Ops::instr_of))]
fn load_op(kind: LoadKind, rd: Reg, rs1: Reg, op2: Op2) -> Predecoded
    requires { kind ≡ LoadKind.LDD → rd % 2 ≡ 0 }
    ensures sum { IsSum result.rs2 result.imm }
    ensures same { instr_of result ≡ instrs.Load kind rd rs1 (plain_operand op2) }
{
    match kind {
        LoadKind::LD => with_operand(OpCode::Ld, rd, rs1, op2),
        LoadKind::LDUB => with_operand(OpCode::Ldub, rd, rs1, op2),
        LoadKind::LDUH => with_operand(OpCode::Lduh, rd, rs1, op2),
        LoadKind::LDD => with_operand(OpCode::Ldd, half(rd), rs1, op2),
        LoadKind::LDSB => with_operand(OpCode::Ldsb, rd, rs1, op2),
        LoadKind::LDSH => with_operand(OpCode::Ldsh, rd, rs1, op2),
    }
}

#[tactic(auto, unfolding(crate::specs::Ops::instr_of))]
fn store_op(kind: StoreKind, rd: Reg, rs1: Reg, op2: Op2) -> Predecoded
    requires { kind ≡ StoreKind.STD → rd % 2 ≡ 0 }
    ensures sum { IsSum result.rs2 result.imm }
    ensures same { instr_of result ≡ instrs.Store kind rd rs1 (plain_operand op2) }
{
    match kind {
        StoreKind::ST => with_operand(OpCode::St, rd, rs1, op2),
        StoreKind::STB => with_operand(OpCode::Stb, rd, rs1, op2),
        StoreKind::STH => with_operand(OpCode::Sth, rd, rs1, op2),
        StoreKind::STD => with_operand(OpCode::Std, half(rd), rs1, op2),
    }
}

/// The register with this number.
fn register(number: u8) -> Reg
    requires { number < 32 }
    ensures { result ≡ number }
{
    Reg::new(number).unwrap()
}
