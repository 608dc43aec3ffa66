//! The values that words give registers.
ghost use Rattle.std.specs.Prelude.{◌≡◌, ◌+◌, ◌<◌, ◌≤◌, ◌^◌, ◌%◌, suc, length, slice_index, IsTrue};
ghost use Rattle.v8_decode.specs.Ranges.{has_even_pair};
ghost use Rattle.cfg_blocks.specs.Values.{after, after_load, all_unknown, computed, either, either_const, followed, if_zero, loaded_at, operand_in, plus, plus_const, put, shifted, sum_in, value_in};

use crate::Value;
use eel_base::{Text, WordNo};
use v8_decode::{AluOp, Instr, LoadKind, Op2, Reg, decode};

// The value of a register.
fn value(values: &[Value], r: Reg) -> Value
    requires count { length values.now ≡ 32 }
    ensures { result ≡ value_in values.now r }
{
    if r.number() == 0 {
        Value::Const(0)
    } else {
        values[r.number() as usize]
    }
}

// Gives a register a value.
fn put(values: &mut [Value], r: Reg, v: Value)
    requires count { length values.old ≡ 32 }
    ensures value { values.new ≡ put values.old r v }
    ensures count { length values.new ≡ 32 }
{
    if r.number() != 0 {
        values[r.number() as usize] = v;
    }
}

// Nothing is known of a register.
fn forget(values: &mut [Value], r: Reg)
    requires count { length values.old ≡ 32 }
    ensures value { values.new ≡ put values.old r Value.Unknown }
    ensures count { length values.new ≡ 32 }
{
    put(values, r, Value::Unknown);
}

fn operand(values: &[Value], op2: Op2) -> Value
    requires count { length values.now ≡ 32 }
    ensures { result ≡ operand_in values.now op2 }
{
    match op2 {
        Op2::Reg(r) => value(values, r),
        Op2::Imm(n) => Value::Const(n.cast_unsigned()),
    }
}

fn if_zero(a: u32, v: Value) -> Value
    ensures { result ≡ if_zero a v }
{
    if a == 0 { v } else { Value::Unknown }
}

fn plus_const(a: u32, v: Value) -> Value
    ensures { result ≡ plus_const a v }
{
    match v {
        Value::Const(b) => Value::Const(a.wrapping_add(b)),
        Value::Place(c) => Value::Place(a.wrapping_add(c)),
        _ => if_zero(a, v),
    }
}

fn plus(u: Value, v: Value) -> Value
    ensures { result ≡ plus u v }
{
    match (u, v) {
        (Value::Const(a), _) => plus_const(a, v),
        (_, Value::Const(b)) => plus_const(b, u),
        _ => Value::Unknown,
    }
}

fn either_const(a: u32, v: Value) -> Value
    ensures { result ≡ either_const a v }
{
    match v {
        Value::Const(b) => Value::Const(a | b),
        _ => if_zero(a, v),
    }
}

fn either(u: Value, v: Value) -> Value
    ensures { result ≡ either u v }
{
    match (u, v) {
        (Value::Const(a), _) => either_const(a, v),
        (_, Value::Const(b)) => if_zero(b, u),
        _ => Value::Unknown,
    }
}

fn shifted(u: Value, v: Value) -> Value
    ensures { result ≡ shifted u v }
{
    match (u, v) {
        (Value::Index, Value::Const(2)) => Value::Place(0),
        _ => Value::Unknown,
    }
}

fn loaded_at(v: Value) -> Value
    ensures { result ≡ loaded_at v }
{
    match v {
        Value::Place(c) => Value::Entry(c),
        _ => Value::Unknown,
    }
}

/// The value of rs1 plus the second operand.
pub fn sum(values: &[Value], rs1: Reg, op2: Op2) -> Value
    requires count { length values.now ≡ 32 }
    ensures { result ≡ sum_in values.now rs1 op2 }
{
    plus(value(values, rs1), operand(values, op2))
}

// Gives rd the value that the instruction gives it.
#[tactic(auto, unfolding(crate::specs::Values::after))]
fn follow_word(values: &mut [Value], instr: Instr)
    requires count { length values.old ≡ 32 }
    requires pair { IsTrue (has_even_pair instr) }
    ensures value { values.new ≡ after values.old instr }
    ensures count { length values.new ≡ 32 }
{
    match instr {
        Instr::Sethi { rd, imm22 } => put(values, rd, Value::Const(1024u32.wrapping_mul(imm22))),
        Instr::Alu {
            op,
            cc,
            rd,
            rs1,
            op2,
        } => {
            let result = computed(values, op, cc, rs1, op2);
            put(values, rd, result);
        }
        Instr::Load { kind, rd, rs1, op2 } => follow_load(values, kind, rd, rs1, op2),
        Instr::ReadY { rd } => forget(values, rd),
        Instr::Ldstub { rd, .. } => forget(values, rd),
        Instr::Swap { rd, .. } => forget(values, rd),
        Instr::Call { .. } => {
            if let Some(link) = Reg::new(15) {
                forget(values, link);
            }
        }
        Instr::Jmpl { rd, .. } => forget(values, rd),
        Instr::Save { .. } | Instr::Restore { .. } | Instr::Ticc { .. } => forget_all(values),
        _ => {}
    }
}

// What an operation gives.
fn computed(values: &[Value], op: AluOp, cc: bool, rs1: Reg, op2: Op2) -> Value
    requires count { length values.now ≡ 32 }
    ensures { result ≡ computed values.now op cc rs1 op2 }
{
    match (op, cc) {
        (AluOp::ADD, false) => sum(values, rs1, op2),
        (AluOp::OR, false) => either(value(values, rs1), operand(values, op2)),
        (AluOp::SLL, false) => shifted(value(values, rs1), operand(values, op2)),
        _ => Value::Unknown,
    }
}

// What a load gives.
fn follow_load(values: &mut [Value], kind: LoadKind, rd: Reg, rs1: Reg, op2: Op2)
    requires count { length values.old ≡ 32 }
    requires pair { IsTrue (has_even_pair (Instr.Load kind rd rs1 op2)) }
    ensures value { values.new ≡ after_load values.old kind rd rs1 op2 }
    ensures count { length values.new ≡ 32 }
{
    match kind {
        LoadKind::LD => {
            let result = loaded_at(sum(values, rs1, op2));
            put(values, rd, result);
        }
        LoadKind::LDD => {
            forget(values, rd);
            if let Some(next) = Reg::new(rd.number() + 1) {
                forget(values, next);
            }
        }
        _ => forget(values, rd),
    }
}

// Nothing is known any more.
fn forget_all(values: &mut [Value])
    requires { length values.old ≡ 32 }
    ensures { values.new ≡ all_unknown }
{
    values.fill(Value::Unknown);
}

/// Follows the values over `count` words.
pub fn follow(text: &Text, values: &mut [Value], from: u32, count: u32)
    requires count { length values.old ≡ 32 }
    requires within { from + count ≤ length text.now.words }
    ensures value { values.new ≡ followed text.now values.old from count }
    ensures count { length values.new ≡ 32 }
{
    let _words = text.len();
    for n in 0..count {
        follow_word(values, decode(text.word(WordNo(from + n))));
    }
}
