//! Reading words, and the names that are written.
ghost use Rattle.std.specs.Prelude.{◌≡◌, ◌<◌, ◌==◌, ◌^◌, false, IfSome, MatchOption, length};
ghost use Rattle.std.specs.List.{list_all, position};
ghost use Rattle.std.specs.Option.{option_map};
ghost use Rattle.std.specs.Str.{bytes_eq};
ghost use Rattle.line_words.specs.Words.{count_of, is_decimal, is_digit, number_of, register_of, split_at, sum_of};
ghost use Rattle.line_words.specs.Registers.{digit_of, hex_number_of, hex_value, register_text};
ghost use Rattle.line_words.specs.Private.{IsDecimalText};

use eel_base::hex8;
use std::str;
use v8_decode::Reg;

/// The bytes before the first `mark`, and those after it.
#[tactic(auto, unfolding(crate::specs::Words::split_at))]
pub fn split_at(bytes: &[u8], mark: u8) -> Option<(&[u8], &[u8])>
    ensures { option_map (λ parts. (parts.0.now, parts.1.now)) result ≡ split_at mark bytes.now }
{
    let end = first_mark(bytes, mark)?;
    let (word, _) = bytes.split_at(end);
    let (_, rest) = bytes.split_at(end + 1);
    Some((word, rest))
}

fn first_mark(bytes: &[u8], mark: u8) -> Option<usize>
    ensures place { result ≡ position (λ byte. byte == mark) bytes.now }
    ensures within { IfSome result (λ end. end < length bytes.now) }
{
    bytes.iter().position(|byte| *byte == mark)
}

/// Whether the word is this text.
pub fn is_word(word: &[u8], text: &str) -> bool
    ensures { result ≡ bytes_eq word.now text.now }
{
    word == text.as_bytes()
}

// ---- numbers

/// A decimal number below 2^32, without a needless zero in front.
#[tactic(auto, unfolding(crate::specs::Words::number_of))]
pub fn read_number(word: &[u8]) -> Option<u32>
    ensures { result ≡ number_of word.now }
{
    let digits = decimal_text(word)?;
    digits.parse().ok()
}

/// A decimal number below 2^64, without a needless zero in front.
#[tactic(auto, unfolding(crate::specs::Words::count_of))]
pub fn read_count(word: &[u8]) -> Option<u64>
    ensures { result ≡ count_of word.now }
{
    let digits = decimal_text(word)?;
    digits.parse().ok()
}

/// A decimal number below 2^128, without a needless zero in front.
#[tactic(auto, unfolding(crate::specs::Words::sum_of))]
pub fn read_sum(word: &[u8]) -> Option<u128>
    ensures { result ≡ sum_of word.now }
{
    let digits = decimal_text(word)?;
    digits.parse().ok()
}

/// The word, where it is decimal.
fn decimal_text(word: &[u8]) -> Option<&str>
    ensures { MatchOption result (is_decimal word.now ≡ false) (λ text. IsDecimalText word.now text.now) }
{
    if !is_decimal(word) {
        return None;
    }
    match str::from_utf8(word) {
        Ok(text) => Some(text),
        Err(_) => None,
    }
}

fn is_decimal(word: &[u8]) -> bool
    ensures { result ≡ is_decimal word.now }
{
    are_digits(word) && !word.is_empty() && (word[0] != b'0' || word.len() == 1)
}

fn are_digits(word: &[u8]) -> bool
    ensures { result ≡ list_all is_digit word.now }
{
    word.iter().all(|byte| byte.is_ascii_digit())
}

/// The number that eight hexadecimal digits in small letters are.
#[tactic(auto, unfolding(crate::specs::Registers::hex_number_of))]
pub fn read_address(word: &[u8]) -> Option<u32>
    ensures { result ≡ hex_number_of word.now }
{
    let value = value_of(word);
    if word == hex8(value).as_slice() {
        Some(value)
    } else {
        None
    }
}

/// What these bytes are worth as hexadecimal digits.
fn value_of(word: &[u8]) -> u32
    ensures { result ≡ hex_value 0 word.now }
{
    let mut value: u32 = 0;
    for byte in word {
        value = value.wrapping_mul(16).wrapping_add(digit(*byte));
    }
    value
}

fn digit(byte: u8) -> u32
    ensures { result ≡ digit_of byte }
{
    if byte < b'a' {
        u32::from(byte.saturating_sub(b'0'))
    } else {
        u32::from(byte - 87)
    }
}

// ---- registers

/// The register with this name.
pub fn read_register(word: &[u8]) -> Option<Reg>
    ensures { result ≡ register_of word.now }
{
    let number = register_number(word)?;
    Reg::new(number)
}

#[tactic(auto, unfolding(crate::specs::Words::register_of))]
fn register_number(word: &[u8]) -> Option<u8>
    ensures value { result ≡ register_of word.now }
    ensures range { IfSome result (λ number. number < 32) }
{
    (0..32).find(|number| names(word, *number))
}

/// The word is the name of the register with this number.
fn names(word: &[u8], number: u8) -> bool
    requires { number < 32 }
    ensures { result ≡ bytes_eq word.now (register_text number) }
{
    word == register_text(number).as_slice()
}

/// The name of a register.
pub fn register_name(reg: Reg) -> [u8; 3]
    ensures { result ≡ register_text reg }
{
    register_text(reg.number())
}

/// The name of the register with this number: its bank, and its number in the bank.
fn register_text(number: u8) -> [u8; 3]
    requires { number < 32 }
    ensures { result ≡ register_text number }
{
    let banks = b"goli";
    [b'%', banks[usize::from(number / 8)], b'0' + number % 8]
}
