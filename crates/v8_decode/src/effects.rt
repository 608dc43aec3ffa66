// What an instruction reads and writes besides memory.

ghost use Rattle.std.specs.Prelude.{◌≡◌, suc, ◌%◌, [], ◌∷◌, ◌++◌, IsTrue};
ghost use Rattle.v8_decode.specs.Effects.{alu_inputs, is_conditional, loaded_parts, op2_parts, pair, read_set, reg, stored_parts, when, write_set, writes_y};
ghost use Rattle.v8_decode.specs.Parts.{set_of};
ghost use Rattle.v8_decode.specs.Ranges.{has_even_pair};

use crate::{AluOp, Cond, Instr, LoadKind, Op2, Part, Reg, RegSet, StoreKind};

#[inline]
fn register(r: Reg) -> RegSet
    ensures { result ≡ set_of (reg r) }
{
    RegSet::empty().with(Part::Reg(r))
}

#[inline]
fn registers(rs1: Reg, op2: Op2) -> RegSet
    ensures { result ≡ set_of (reg rs1 ++ op2_parts op2) }
{
    match op2 {
        Op2::Reg(rs2) => register(rs1).union(register(rs2)),
        Op2::Imm(_) => register(rs1),
    }
}

#[inline]
fn pair_from(rd: Reg) -> RegSet
    requires even { rd % 2 ≡ 0 }
    ensures { result ≡ set_of (pair rd) }
{
    register(rd).union(register(rd.next()))
}

#[inline]
fn part_if(test: bool, p: Part) -> RegSet
    ensures { result ≡ set_of (when test (p ∷ [])) }
{
    if test {
        RegSet::empty().with(p)
    } else {
        RegSet::empty()
    }
}

#[inline]
fn inputs(op: AluOp) -> RegSet
    ensures { result ≡ set_of (alu_inputs op) }
{
    match op {
        AluOp::ADDX => RegSet::empty().with(Part::Icc),
        AluOp::SUBX => RegSet::empty().with(Part::Icc),
        AluOp::MULScc => RegSet::empty().with(Part::Y).with(Part::Icc),
        AluOp::UDIV => RegSet::empty().with(Part::Y),
        AluOp::SDIV => RegSet::empty().with(Part::Y),
        _ => RegSet::empty(),
    }
}

#[inline]
fn takes_y(op: AluOp) -> bool
    ensures { result ≡ writes_y op }
{
    match op {
        AluOp::UMUL => true,
        AluOp::SMUL => true,
        AluOp::MULScc => true,
        _ => false,
    }
}

#[inline]
fn tests_codes(cond: Cond) -> bool
    ensures { result ≡ is_conditional cond }
{
    cond.number() != 0 && cond.number() != 8
}

#[inline]
fn stored(kind: StoreKind, rd: Reg) -> RegSet
    requires even { kind ≡ StoreKind.STD → rd % 2 ≡ 0 }
    ensures { result ≡ set_of (stored_parts kind rd) }
{
    match kind {
        StoreKind::STD => pair_from(rd),
        StoreKind::ST => register(rd),
        StoreKind::STB => register(rd),
        StoreKind::STH => register(rd),
    }
}

#[inline]
fn loaded(kind: LoadKind, rd: Reg) -> RegSet
    requires even { kind ≡ LoadKind.LDD → rd % 2 ≡ 0 }
    ensures { result ≡ set_of (loaded_parts kind rd) }
{
    match kind {
        LoadKind::LDD => pair_from(rd),
        LoadKind::LD => register(rd),
        LoadKind::LDUB => register(rd),
        LoadKind::LDUH => register(rd),
        LoadKind::LDSB => register(rd),
        LoadKind::LDSH => register(rd),
    }
}

/// What an instruction reads. SAVE, RESTORE and Ticc count as reading everything.
pub fn reads(i: Instr) -> RegSet
    requires even { IsTrue (has_even_pair i) }
    ensures { result ≡ read_set i }
{
    match i {
        Instr::Branch { cond, .. } => part_if(tests_codes(cond), Part::Icc),
        Instr::Alu { op, rs1, op2, .. } => registers(rs1, op2).union(inputs(op)),
        Instr::ReadY { .. } => RegSet::empty().with(Part::Y),
        Instr::WriteY { rs1, op2 } => registers(rs1, op2),
        Instr::Jmpl { rs1, op2, .. } => registers(rs1, op2),
        Instr::Flush { rs1, op2 } => registers(rs1, op2),
        Instr::Load { rs1, op2, .. } => registers(rs1, op2),
        Instr::Store { kind, rd, rs1, op2 } => registers(rs1, op2).union(stored(kind, rd)),
        Instr::Ldstub { rs1, op2, .. } => registers(rs1, op2),
        Instr::Swap { rd, rs1, op2 } => registers(rs1, op2).union(register(rd)),
        Instr::Ticc { .. } => RegSet::all(),
        Instr::Save { .. } => RegSet::all(),
        Instr::Restore { .. } => RegSet::all(),
        Instr::Sethi { .. } => RegSet::empty(),
        Instr::Call { .. } => RegSet::empty(),
        Instr::Stbar => RegSet::empty(),
        Instr::Illegal => RegSet::empty(),
        Instr::Privileged => RegSet::empty(),
        Instr::FpOff => RegSet::empty(),
        Instr::CpOff => RegSet::empty(),
    }
}

/// What an instruction writes. SAVE, RESTORE and Ticc count as writing nothing.
pub fn writes(i: Instr) -> RegSet
    requires even { IsTrue (has_even_pair i) }
    ensures { result ≡ write_set i }
{
    match i {
        Instr::Sethi { rd, .. } => register(rd),
        Instr::Call { .. } => register(Reg { number: 15 }),
        Instr::Alu { op, cc, rd, .. } => register(rd)
            .union(part_if(cc, Part::Icc))
            .union(part_if(takes_y(op), Part::Y)),
        Instr::ReadY { rd } => register(rd),
        Instr::WriteY { .. } => RegSet::empty().with(Part::Y),
        Instr::Jmpl { rd, .. } => register(rd),
        Instr::Load { kind, rd, .. } => loaded(kind, rd),
        Instr::Ldstub { rd, .. } => register(rd),
        Instr::Swap { rd, .. } => register(rd),
        Instr::Branch { .. } => RegSet::empty(),
        Instr::Ticc { .. } => RegSet::empty(),
        Instr::Flush { .. } => RegSet::empty(),
        Instr::Stbar => RegSet::empty(),
        Instr::Save { .. } => RegSet::empty(),
        Instr::Restore { .. } => RegSet::empty(),
        Instr::Store { .. } => RegSet::empty(),
        Instr::Illegal => RegSet::empty(),
        Instr::Privileged => RegSet::empty(),
        Instr::FpOff => RegSet::empty(),
        Instr::CpOff => RegSet::empty(),
    }
}
