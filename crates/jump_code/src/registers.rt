//! Registers.

ghost use Rattle.std.specs.Prelude.{◌≡◌, ◌<◌, ◌≢◌};
ghost use Rattle.jump_code.specs.FreeRegister.{IsApart, first_free as first_free_of, free_register as free_register_of, is_one_of as is_one_of_these, is_one_of_four as is_one_of_four_of, next_free as next_free_of, other_register as other_register_of, second_register as second_register_of};

use v8_decode::{Op2, Reg};
use v8_encode::register;

// The register that the second operand names; %g0 where it names none.
fn second_register(op2: &Op2) -> u8
    ensures value { result ≡ second_register_of op2.now }
    ensures range { result < 32 }
{
    match op2 {
        Op2::Reg(rs2) => rs2.number(),
        Op2::Imm(_) => 0,
    }
}

fn is_one_of(number: u8, a: u8, b: u8, c: u8) -> bool
    ensures { result ≡ is_one_of_these number a b c }
{
    a == number || b == number || c == number
}

// The first of 1 to 4 that is none of these.
fn first_free(a: u8, b: u8, c: u8) -> u8
    ensures value { result ≡ first_free_of a b c }
    ensures some { 0 < result }
    ensures few { result < 5 }
    ensures first { a ≢ result }
    ensures second { b ≢ result }
    ensures third { c ≢ result }
{
    if !is_one_of(1, a, b, c) {
        1
    } else if !is_one_of(2, a, b, c) {
        2
    } else if !is_one_of(3, a, b, c) {
        3
    } else {
        4
    }
}

/// The first of %g1 to %g4 that a JMPL with these operands doesn't name.
pub fn free_register(rd: Reg, rs1: Reg, op2: &Op2) -> Reg
    ensures value { result ≡ free_register_of rd rs1 op2.now }
    ensures apart { IsApart result rd rs1 op2.now }
{
    register(first_free(rd.number(), rs1.number(), second_register(op2)))
}

fn is_one_of_four(number: u8, a: u8, b: u8, c: u8, d: u8) -> bool
    ensures { result ≡ is_one_of_four_of number a b c d }
{
    is_one_of(number, a, b, c) || d == number
}

// The first of 1 to 5 that is none of these.
fn next_free(a: u8, b: u8, c: u8, d: u8) -> u8
    ensures value { result ≡ next_free_of a b c d }
    ensures some { 0 < result }
    ensures few { result < 6 }
    ensures first { a ≢ result }
    ensures second { b ≢ result }
    ensures third { c ≢ result }
    ensures fourth { d ≢ result }
{
    if !is_one_of_four(1, a, b, c, d) {
        1
    } else if !is_one_of_four(2, a, b, c, d) {
        2
    } else if !is_one_of_four(3, a, b, c, d) {
        3
    } else if !is_one_of_four(4, a, b, c, d) {
        4
    } else {
        5
    }
}

/// The first of %g1 to %g5 that a JMPL with these operands doesn't name, and that isn't its free register.
pub fn other_register(rd: Reg, rs1: Reg, op2: &Op2) -> Reg
    ensures value { result ≡ other_register_of rd rs1 op2.now }
    ensures apart { IsApart result rd rs1 op2.now }
    ensures differ { free_register_of rd rs1 op2.now ≢ result }
{
    let first = free_register(rd, rs1, op2);
    register(next_free(
        rd.number(),
        rs1.number(),
        second_register(op2),
        first.number(),
    ))
}
