//! The condition codes of a machine. Those of a comparison are worked out where they are read.
ghost use Rattle.std.specs.Prelude.{◌≡◌, ◌+◌, ◌-◌, ◌^◌, ℕ, nat_lt, false, true, Ok, MatchOption};
ghost use Rattle.v8_alu.specs.declared.Codes.{Codes as CodesValue};
ghost use Rattle.v8_alu.specs.Alu.{alu_of, codes_of};
ghost use Rattle.v8_alu.specs.Code.{compared_codes};
ghost use Rattle.v8_alu.specs.Conditions.{holds_of};
ghost use Rattle.v8_alu.specs.Numbers.{differ, wrapped};

use crate::{Codes, codes_after, holds, negative};
use std::marker::Model;
use v8_decode::{AluOp, Cond};

/// The codes of a comparison of `first` with `second`, or others.
#[derive(Drop)]
pub struct Flags {
    are_compared: bool,
    first: u32,
    second: u32,
    others: Codes,
}

impl Model for Flags {
    ghost use Rattle.std.specs.Prelude.{if◌then◌else◌};
    ghost use Rattle.v8_alu.specs.declared.Codes.{Codes as CodesValue};
    ghost use Rattle.v8_alu.specs.Code.{compared_codes};

    ghost Value = { CodesValue };

    ghost view = { λ f. if f.are_compared then compared_codes f.first f.second else f.others };
}

impl Flags {
    #[inline(always)]
    pub fn new(codes: Codes) -> Flags
        ensures { result ≡ codes }
    {
        Flags {
            are_compared: false,
            first: 0,
            second: 0,
            others: codes,
        }
    }

    #[inline(always)]
    pub fn set(&mut self, codes: Codes)
        ensures { self.new ≡ codes }
    {
        self.are_compared = false;
        self.others = codes;
    }

    /// Sets the codes of the difference of two numbers.
    #[inline(always)]
    pub fn compare(&mut self, first: u32, second: u32)
        ensures { self.new ≡ compared_codes first second }
    {
        self.are_compared = true;
        self.first = first;
        self.second = second;
    }

    /// Sets the codes of a logical operation's value: those of its comparison with 0.
    #[inline(always)]
    #[tactic(auto, using(crate::proofs::Compared::with_zero))]
    pub fn judge(&mut self, value: u32)
        ensures { self.new ≡ codes_of value false false }
    {
        self.compare(value, 0);
    }

    #[inline(always)]
    pub fn codes(&self) -> Codes
        ensures { result ≡ self.now }
    {
        if self.are_compared {
            compared(self.first, self.second)
        } else {
            self.others
        }
    }

    /// Whether the condition holds of the codes.
    #[inline(always)]
    pub fn holds(&self, cond: Cond) -> bool
        ensures { result ≡ holds_of cond self.now }
    {
        if self.are_compared {
            compared_holds(cond, self.first, self.second)
        } else {
            holds(cond, self.others)
        }
    }
}

/// The codes of a comparison.
#[inline(always)]
fn compared(a: u32, b: u32) -> Codes
    ensures { result ≡ compared_codes a b }
{
    let value = a.wrapping_sub(b);
    let v = negative(a) != negative(b) && negative(a) != negative(value);
    codes_after(value, v, a < b)
}

/// Whether the condition holds of the codes of a comparison. Where it is inlined, `cond` is a constant.
#[inline(always)]
#[tactic(auto, using(crate::proofs::Compared::equal, crate::proofs::Compared::less, crate::proofs::Compared::at_most, crate::proofs::Compared::at_most_unsigned), unfolding(crate::specs::Conditions::holds_of))]
fn compared_holds(cond: Cond, a: u32, b: u32) -> bool
    ensures { result ≡ holds_of cond (compared_codes a b) }
{
    match cond.number() {
        0 => false,
        1 => a == b,
        2 => !is_less(b, a),
        3 => is_less(a, b),
        4 => a <= b,
        5 => a < b,
        8 => true,
        9 => a != b,
        10 => is_less(b, a),
        11 => !is_less(a, b),
        12 => a > b,
        13 => a >= b,
        _ => holds(cond, compared(a, b)),
    }
}

/// Whether the first is less, as signed numbers.
#[inline(always)]
fn is_less(a: u32, b: u32) -> bool
    ensures { result ≡ nat_lt (wrapped (a + 2 ^ 31)) (wrapped (b + 2 ^ 31)) }
{
    a.wrapping_add(0x8000_0000) < b.wrapping_add(0x8000_0000)
}

/// The value of a logical operation.
#[inline(always)]
#[tactic(auto, unfolding(crate::specs::Alu::alu_of))]
pub fn logic_value(op: AluOp, a: u32, b: u32) -> Option<u32>
    ensures { MatchOption result (Unit {0}) (λ value. (codes : CodesValue) (y : ℕ) → alu_of op true a b codes y ≡ Ok (record { value = value; codes = codes_of value false false; y = y })) }
{
    match op {
        AluOp::AND => Some(a & b),
        AluOp::OR => Some(a | b),
        AluOp::XOR => Some(a ^ b),
        AluOp::ANDN => Some(a & !b),
        AluOp::XNOR => Some(!(a ^ b)),
        _ => None,
    }
}

/// The difference of two numbers.
#[inline(always)]
pub fn difference_of(a: u32, b: u32) -> u32
    ensures { result ≡ wrapped (2 ^ 33 + a - (b + 0)) }
{
    a.wrapping_sub(b)
}
