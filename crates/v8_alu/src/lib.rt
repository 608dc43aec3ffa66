//! The arithmetic of the SPARC V8 integer unit: what each operation makes of its operands, the codes
//! that it sets, and the conditions on codes. The sections named here and in specs/ are those of The
//! SPARC Architecture Manual, Version 8.
#![tactic(auto)]

ghost use Rattle.std.specs.Prelude.{◌≡◌, ℕ, Bool, ◌≤◌, ◌<◌, ◌^◌, ◌+◌, ◌*◌, IsTrue};
ghost use Rattle.v8_decode.specs.Words.{decode_of};
ghost use Rattle.v8_decode.specs.Forms.{has_form};
ghost use Rattle.v8_alu.specs.Code.{IsOutInRange, alu_has_form};
ghost use Rattle.v8_alu.specs.Alu.{alu_of, codes_of, count_of, difference_out, dividend_magnitude, dividend_of, divided, is_tagged, logic_out, multiply_step, product_out, quotient_out, result_of, shifted_right, signed_end, signed_product, signed_quotient, sum_out, trap_on_v, unsigned_end, unsigned_quotient, with_tags};
ghost use Rattle.v8_alu.specs.Alike.{DependsOnInputs};
ghost use Rattle.v8_alu.specs.Conditions.{holds_of};
ghost use Rattle.v8_alu.specs.Numbers.{is_negative, magnitude, wrapped};

mod flags;

pub use flags::{Flags, difference_of, logic_value};
use v8_decode::{AluOp, Cond};

/// The integer condition codes: negative, zero, overflow, carry (section 4.2).
#[derive(Clone, Copy, PartialEq, Eq, Debug, Drop)]
pub struct Codes {
    pub n: bool,
    pub z: bool,
    pub v: bool,
    pub c: bool,
}

/// What an operation leaves: the value for rd, the codes and Y.
#[derive(Clone, Copy, PartialEq, Eq, Debug, Drop)]
pub struct AluOut {
    pub value: u32,
    pub codes: Codes,
    pub y: u32,
}

/// Why an operation traps: a division by zero, or a tag overflow (section 7.2).
#[derive(Clone, Copy, PartialEq, Eq, Debug, Drop)]
pub enum AluTrap {
    DivZero,
    TagOverflow,
}

// Bit 31.
#[inline]
fn negative(n: u32) -> bool
    ensures { result ≡ is_negative n }
{
    n >= 0x8000_0000
}

#[inline]
fn codes_after(value: u32, v: bool, c: bool) -> Codes
    ensures { result ≡ codes_of value v c }
{
    Codes {
        n: negative(value),
        z: value == 0,
        v,
        c,
    }
}

#[inline]
fn sum(a: u32, b: u32, carry: u32, y: u32) -> Result<AluOut, AluTrap>
    requires { carry < 2 }
    ensures { result ≡ sum_out a b carry y }
{
    let total = a as u64 + b as u64 + carry as u64;
    let value = (total % 0x1_0000_0000) as u32;
    let v = negative(a) == negative(b) && negative(a) != negative(value);
    Ok(AluOut {
        value,
        codes: codes_after(value, v, total >= 0x1_0000_0000),
        y,
    })
}

#[inline]
fn difference(a: u32, b: u32, borrow: u32, y: u32) -> Result<AluOut, AluTrap>
    requires { borrow < 2 }
    ensures { result ≡ difference_out a b borrow y }
{
    let taken = b as u64 + borrow as u64;
    let value = ((0x2_0000_0000 + a as u64 - taken) % 0x1_0000_0000) as u32;
    let v = negative(a) != negative(b) && negative(a) != negative(value);
    Ok(AluOut {
        value,
        codes: codes_after(value, v, (a as u64) < taken),
        y,
    })
}

#[inline]
fn logic(value: u32, y: u32) -> Result<AluOut, AluTrap>
    ensures { result ≡ logic_out value y }
{
    Ok(AluOut {
        value,
        codes: codes_after(value, false, false),
        y,
    })
}

// How far a shift goes.
#[inline]
fn count(b: u32) -> u32
    ensures value { result ≡ count_of b }
    ensures range { result < 32 }
{
    b % 32
}

#[inline]
fn shift_left(a: u32, count: u32) -> u32
    requires { count < 32 }
    ensures { result ≡ wrapped (a * 2 ^ count) }
{
    a << count
}

#[inline]
fn shift_right_signed(a: u32, count: u32) -> u32
    requires { count < 32 }
    ensures { result ≡ shifted_right a count }
{
    if negative(a) {
        !(!a >> count)
    } else {
        a >> count
    }
}

#[inline]
fn tagged(a: u32, b: u32) -> bool
    ensures { result ≡ is_tagged a b }
{
    a % 4 != 0 || b % 4 != 0
}

// Sets V where an operand is tagged.
#[inline]
fn tag_checked(a: u32, b: u32, untagged: Result<AluOut, AluTrap>) -> Result<AluOut, AluTrap>
    ensures { result ≡ with_tags a b untagged }
{
    match untagged {
        Ok(o) => Ok(AluOut {
            value: o.value,
            codes: Codes {
                n: o.codes.n,
                z: o.codes.z,
                v: o.codes.v || tagged(a, b),
                c: o.codes.c,
            },
            y: o.y,
        }),
        Err(trap) => Err(trap),
    }
}

// A trap in place of V.
#[inline]
fn trapping(flagged: Result<AluOut, AluTrap>) -> Result<AluOut, AluTrap>
    ensures { result ≡ trap_on_v flagged }
{
    match flagged {
        Ok(o) => if o.codes.v {
            Err(AluTrap::TagOverflow)
        } else {
            Ok(o)
        },
        Err(trap) => Err(trap),
    }
}

#[inline]
fn step_of_multiply(a: u32, b: u32, codes: Codes, y: u32) -> Result<AluOut, AluTrap>
    ensures { result ≡ multiply_step a b codes y }
{
    let high = if codes.n != codes.v { 0x8000_0000 } else { 0 };
    let addend = if y % 2 == 0 { 0 } else { b };
    sum(high + a / 2, addend, 0, a % 2 * 0x8000_0000 + y / 2)
}

#[inline]
fn product(bits: u64) -> Result<AluOut, AluTrap>
    ensures { result ≡ product_out bits }
{
    logic((bits % 0x1_0000_0000) as u32, (bits >> 32) as u32)
}

#[inline]
fn absolute(n: u32) -> u64
    ensures value { result ≡ magnitude n }
    ensures range { result ≤ 2 ^ 31 }
{
    if negative(n) {
        0x1_0000_0000 - n as u64
    } else {
        n as u64
    }
}

#[inline]
fn signed_bits(a: u32, b: u32) -> u64
    ensures { result ≡ signed_product a b }
{
    let size = absolute(a) * absolute(b);
    if negative(a) != negative(b) {
        size.wrapping_neg()
    } else {
        size
    }
}

#[inline]
fn dividend(a: u32, y: u32) -> u64
    ensures { result ≡ dividend_of a y }
{
    y as u64 * 0x1_0000_0000 + a as u64
}

#[inline]
fn absolute_dividend(a: u32, y: u32) -> u64
    ensures { result ≡ dividend_magnitude a y }
{
    if negative(y) {
        dividend(a, y).wrapping_neg()
    } else {
        dividend(a, y)
    }
}

#[inline]
fn quotient(value: u32, v: bool, y: u32) -> Result<AluOut, AluTrap>
    ensures { result ≡ quotient_out value v y }
{
    Ok(AluOut {
        value,
        codes: codes_after(value, v, false),
        y,
    })
}

#[inline]
fn fitted_unsigned(size: u64, y: u32) -> Result<AluOut, AluTrap>
    ensures { result ≡ unsigned_end size y }
{
    if size < 0x1_0000_0000 {
        quotient(size as u32, false, y)
    } else {
        quotient(u32::MAX, true, y)
    }
}

#[inline]
fn fitted_signed(negative: bool, size: u64, y: u32) -> Result<AluOut, AluTrap>
    ensures { result ≡ signed_end negative size y }
{
    if negative {
        if size <= 0x8000_0000 {
            quotient(((0x1_0000_0000 - size) % 0x1_0000_0000) as u32, false, y)
        } else {
            quotient(0x8000_0000, true, y)
        }
    } else if size < 0x8000_0000 {
        quotient(size as u32, false, y)
    } else {
        quotient(0x7fff_ffff, true, y)
    }
}

#[inline]
fn divide_unsigned(a: u32, b: u32, y: u32) -> Result<AluOut, AluTrap>
    ensures { result ≡ divided b (unsigned_quotient a b y) }
{
    if b == 0 {
        Err(AluTrap::DivZero)
    } else {
        fitted_unsigned(dividend(a, y) / b as u64, y)
    }
}

#[inline]
fn divide_signed(a: u32, b: u32, y: u32) -> Result<AluOut, AluTrap>
    ensures { result ≡ divided b (signed_quotient a b y) }
{
    if b == 0 {
        Err(AluTrap::DivZero)
    } else {
        fitted_signed(
            negative(y) != negative(b),
            absolute_dividend(a, y) / absolute(b),
            y,
        )
    }
}

// The outcome with the codes that the operation sets where it sets them.
#[inline]
fn outcome(op: AluOp, a: u32, b: u32, codes: Codes, y: u32) -> Result<AluOut, AluTrap>
    ensures { result ≡ result_of op a b codes y }
{
    match op {
        AluOp::ADD => sum(a, b, 0, y),
        AluOp::AND => logic(a & b, y),
        AluOp::OR => logic(a | b, y),
        AluOp::XOR => logic(a ^ b, y),
        AluOp::SUB => difference(a, b, 0, y),
        AluOp::ANDN => logic(a & !b, y),
        AluOp::ORN => logic(a | !b, y),
        AluOp::XNOR => logic(!(a ^ b), y),
        AluOp::ADDX => sum(a, b, codes.c as u32, y),
        AluOp::UMUL => product(a as u64 * b as u64),
        AluOp::SMUL => product(signed_bits(a, b)),
        AluOp::SUBX => difference(a, b, codes.c as u32, y),
        AluOp::UDIV => divide_unsigned(a, b, y),
        AluOp::SDIV => divide_signed(a, b, y),
        AluOp::TADDcc => tag_checked(a, b, sum(a, b, 0, y)),
        AluOp::TSUBcc => tag_checked(a, b, difference(a, b, 0, y)),
        AluOp::TADDccTV => trapping(tag_checked(a, b, sum(a, b, 0, y))),
        AluOp::TSUBccTV => trapping(tag_checked(a, b, difference(a, b, 0, y))),
        AluOp::MULScc => step_of_multiply(a, b, codes, y),
        AluOp::SLL => logic(shift_left(a, count(b)), y),
        AluOp::SRL => logic(a >> count(b), y),
        AluOp::SRA => logic(shift_right_signed(a, count(b)), y),
    }
}

/// Each word that is an operation has a form that [`alu`] takes.
#[inline]
pub fn decoded_forms()
    ensures { (word : ℕ) → IsTrue (alu_has_form (decode_of word)) }
{}

/// What an operation makes of its operands: `a` is the first, `b` the second, `codes` and `y` what the
/// codes and Y held before.
#[inline]
#[tactic(auto, unfolding(crate::specs::Alu::alu_of))]
pub fn alu(op: AluOp, cc: bool, a: u32, b: u32, codes: Codes, y: u32) -> Result<AluOut, AluTrap>
    requires form { IsTrue (has_form op cc) }
    ensures { result ≡ alu_of op cc a b codes y }
{
    match outcome(op, a, b, codes, y) {
        Ok(o) => if cc {
            Ok(o)
        } else {
            Ok(AluOut {
                value: o.value,
                codes,
                y: o.y,
            })
        },
        Err(trap) => Err(trap),
    }
}

/// What [`alu`] gives, by its definition, is the same at codes and Y that agree in what the operation
/// reads; codes and Y that it does not write agree afterwards if they did before.
#[inline]
pub fn outcomes_alike()
    ensures { (op : AluOp) → (sets : Bool) → DependsOnInputs op sets }
{}

/// What [`alu`] gives has 32 bits, by its definition, if the operands and Y had.
#[inline]
pub fn outcomes_in_range()
    ensures { (op : AluOp) → (sets : Bool) → (a b : ℕ) → (codes : Codes) → (y : ℕ) → a < 2 ^ 32 → b < 2 ^ 32 → y < 2 ^ 32 → IsOutInRange (alu_of op sets a b codes y) }
{}

/// Whether the condition holds of the codes.
#[inline]
#[tactic(auto, unfolding(crate::specs::Conditions::holds_of))]
pub fn holds(cond: Cond, codes: Codes) -> bool
    ensures { result ≡ holds_of cond codes }
{
    match cond.number() {
        0 => false,
        1 => codes.z,
        2 => codes.z || codes.n != codes.v,
        3 => codes.n != codes.v,
        4 => codes.c || codes.z,
        5 => codes.c,
        6 => codes.n,
        7 => codes.v,
        8 => true,
        9 => !codes.z,
        10 => !(codes.z || codes.n != codes.v),
        11 => codes.n == codes.v,
        12 => !(codes.c || codes.z),
        13 => !codes.c,
        14 => !codes.n,
        15 => !codes.v,
        _ => false,
    }
}
