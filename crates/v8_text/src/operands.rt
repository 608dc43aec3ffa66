//! Reading operands.
ghost use Rattle.std.specs.Prelude.{◌≡◌, ◌<◌, ◌≤◌, ◌^◌, IfSome, pos};
ghost use Rattle.std.specs.Option.{option_and_then, option_map};
ghost use Rattle.line_words.specs.Words.{number_of};
ghost use Rattle.v8_decode.specs.Words.{signed};
ghost use Rattle.v8_text.specs.Parts.{behind, below_zero, displacement_of, integer_of, loaded_of, number_in, op2_of, operands_of, read_y_of, sethi_of, small, sources_of, stored_of, words_between, write_y_of};

use eel_base::Addr;
use line_words::{is_word, read_address, read_number, read_register, split_at};
use v8_decode::{Instr, Op2, Reg};

/// What stands behind a byte that comes first.
#[tactic(auto, unfolding(crate::specs::Parts::behind))]
fn behind(word: &[u8], mark: u8) -> Option<&[u8]>
    ensures { option_map (λ rest. rest.now) result ≡ behind mark word.now }
{
    match word.split_first() {
        Some((first, rest)) if *first == mark => Some(rest),
        _ => None,
    }
}

/// A number that may fit an immediate operand.
fn read_small(word: &[u8]) -> Option<u32>
    ensures value { result ≡ option_and_then small (number_of word.now) }
    ensures range { IfSome result (λ n. n ≤ 4096) }
{
    let n = read_number(word)?;
    if n <= 4096 { Some(n) } else { None }
}

/// A decimal number, with `-` in front where it is negative.
#[tactic(auto, unfolding(crate::specs::Parts::integer_of))]
fn read_integer(word: &[u8]) -> Option<i32>
    ensures { result ≡ integer_of word.now }
{
    match behind(word, b'-') {
        Some(digits) => negative(digits),
        None => positive(word),
    }
}

fn negative(digits: &[u8]) -> Option<i32>
    ensures { result ≡ option_and_then below_zero (option_and_then small (number_of digits.now)) }
{
    let size = read_small(digits)?;
    minus(size)
}

/// The number below zero of this size.
fn minus(size: u32) -> Option<i32>
    requires { size ≤ 4096 }
    ensures { result ≡ below_zero size }
{
    if size == 0 {
        None
    } else {
        Some(-(size as i32))
    }
}

fn positive(word: &[u8]) -> Option<i32>
    ensures { result ≡ option_map pos (option_and_then small (number_of word.now)) }
{
    let size = read_small(word)?;
    Some(size as i32)
}

/// A register or an immediate operand.
#[tactic(auto, unfolding(crate::specs::Parts::op2_of))]
fn read_op2(word: &[u8]) -> Option<Op2>
    ensures { result ≡ op2_of word.now }
{
    match read_register(word) {
        Some(reg) => Some(Op2::Reg(reg)),
        None => read_integer(word).map(|number| Op2::Imm(number)),
    }
}

/// `rs1,op2`.
#[tactic(auto, unfolding(crate::specs::Parts::sources_of))]
pub(crate) fn read_sources(word: &[u8]) -> Option<(Reg, Op2)>
    ensures { result ≡ sources_of word.now }
{
    let (rs1, op2) = split_at(word, b',')?;
    let rs1 = read_register(rs1)?;
    let op2 = read_op2(op2)?;
    Some((rs1, op2))
}

/// `rs1,op2,rd`, as rd, rs1 and op2.
#[tactic(auto, unfolding(crate::specs::Parts::operands_of))]
pub(crate) fn read_operands(word: &[u8]) -> Option<(Reg, Reg, Op2)>
    ensures { result ≡ operands_of word.now }
{
    let (rs1, rest) = split_at(word, b',')?;
    let rs1 = read_register(rs1)?;
    let (op2, rd) = split_at(rest, b',')?;
    let op2 = read_op2(op2)?;
    let rd = read_register(rd)?;
    Some((rd, rs1, op2))
}

/// `[rs1,op2],rd`, as rd, rs1 and op2.
#[tactic(auto, unfolding(crate::specs::Parts::loaded_of))]
pub(crate) fn read_loaded(word: &[u8]) -> Option<(Reg, Reg, Op2)>
    ensures { result ≡ loaded_of word.now }
{
    let (address, rest) = split_at(word, b']')?;
    let address = behind(address, b'[')?;
    let (rs1, op2) = read_sources(address)?;
    let rd = behind(rest, b',')?;
    let rd = read_register(rd)?;
    Some((rd, rs1, op2))
}

/// `rd,[rs1,op2]`, as rd, rs1 and op2.
#[tactic(auto, unfolding(crate::specs::Parts::stored_of))]
pub(crate) fn read_stored(word: &[u8]) -> Option<(Reg, Reg, Op2)>
    ensures { result ≡ stored_of word.now }
{
    let (rd, rest) = split_at(word, b',')?;
    let rd = read_register(rd)?;
    let rest = behind(rest, b'[')?;
    let (address, end) = split_at(rest, b']')?;
    let (rs1, op2) = read_sources(address)?;
    if end.is_empty() {
        Some((rd, rs1, op2))
    } else {
        None
    }
}

/// `imm22,rd`.
#[tactic(auto, unfolding(crate::specs::Parts::sethi_of))]
pub(crate) fn read_sethi(word: &[u8]) -> Option<Instr>
    ensures { result ≡ sethi_of word.now }
{
    let (imm22, rd) = split_at(word, b',')?;
    let imm22 = read_number(imm22)?;
    let rd = read_register(rd)?;
    Some(Instr::Sethi { rd, imm22 })
}

/// `%y,rd`.
#[tactic(auto, unfolding(crate::specs::Parts::read_y_of))]
pub(crate) fn read_read_y(word: &[u8]) -> Option<Instr>
    ensures { result ≡ read_y_of word.now }
{
    let (y, rd) = split_at(word, b',')?;
    let rd = read_register(rd)?;
    if is_word(y, "%y") {
        Some(Instr::ReadY { rd })
    } else {
        None
    }
}

/// `rs1,op2,%y`.
#[tactic(auto, unfolding(crate::specs::Parts::write_y_of))]
pub(crate) fn read_write_y(word: &[u8]) -> Option<Instr>
    ensures { result ≡ write_y_of word.now }
{
    let (rs1, rest) = split_at(word, b',')?;
    let rs1 = read_register(rs1)?;
    let (op2, y) = split_at(rest, b',')?;
    let op2 = read_op2(op2)?;
    if is_word(y, "%y") {
        Some(Instr::WriteY { rs1, op2 })
    } else {
        None
    }
}

/// `0x` and eight digits.
#[tactic(auto, unfolding(crate::specs::Parts::number_in))]
pub(crate) fn read_hex(word: &[u8]) -> Option<u32>
    ensures { result ≡ number_in word.now }
{
    let rest = behind(word, b'0')?;
    let digits = behind(rest, b'x')?;
    read_address(digits)
}

/// How many words a transfer at an address leads on.
#[tactic(auto, unfolding(crate::specs::Parts::displacement_of))]
pub(crate) fn read_displacement(at: Addr, word: &[u8]) -> Option<i32>
    ensures { result ≡ displacement_of at.0 word.now }
{
    let target = read_hex(word)?;
    words_between(at.0, target)
}

fn words_between(at: u32, target: u32) -> Option<i32>
    ensures { result ≡ words_between at target }
{
    let distance = target.wrapping_sub(at);
    if distance % 4 != 0 {
        return None;
    }
    Some(extended(distance / 4))
}

/// A field of 30 bits as a number in two's complement.
fn extended(words: u32) -> i32
    requires { words < 2 ^ 30 }
    ensures { result ≡ signed 30 words }
{
    if words < 1 << 29 {
        words as i32
    } else {
        words as i32 - (1 << 30)
    }
}
