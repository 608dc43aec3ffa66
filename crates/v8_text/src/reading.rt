//! Reading a text.
ghost use Rattle.std.specs.Prelude.{◌≡◌, IfSome, Some};
ghost use Rattle.std.specs.Option.{option_and_then, option_map};
ghost use Rattle.v8_decode.specs.declared.Instr.{Instr as Instruction};
ghost use Rattle.v8_decode.specs.declared.Instr.TheVariants as i;
ghost use Rattle.v8_decode.specs.Words.{decode_of};
ghost use Rattle.v8_encode.specs.Code.{encode_of};
ghost use Rattle.v8_text.specs.Laws.{IsWordOf};
ghost use Rattle.v8_text.specs.Parts.{instr_in, instr_of, raw_of};

use crate::names::{Name, read_name};
use crate::operands::{
    read_displacement, read_hex, read_loaded, read_operands, read_read_y, read_sethi, read_sources,
    read_stored, read_write_y,
};
use crate::writing::is_spelled;
use eel_base::Addr;
use line_words::{is_word, split_at};
use v8_decode::{Cond, Instr, decode};
use v8_encode::encode;

/// The word of a text at an address, which is a multiple of 4.
#[tactic(auto, unfolding(crate::specs::Parts::word_in))]
pub fn word_of(at: Addr, text: &[u8]) -> Option<u32>
    ensures { IsWordOf at.0 text.now result }
{
    match encoded(at, text) {
        Some(word) => Some(word),
        None => match raw(text) {
            Some(word) => Some(word),
            None => None,
        },
    }
}

/// The word of an instruction that a text is.
fn encoded(at: Addr, text: &[u8]) -> Option<u32>
    ensures value { result ≡ option_and_then encode_of (instr_of at.0 text.now) }
    ensures again { IfSome result (λ w. (instr : Instruction) × (instr_of at.0 text.now ≡ Some instr)
        × (encode_of instr ≡ Some w) × (decode_of w ≡ instr)) }
{
    match instr_at(at, text) {
        Some(instr) => encode(instr),
        None => None,
    }
}

/// The instruction that a text is.
#[tactic(auto, unfolding(crate::specs::Parts::instr_of))]
fn instr_at(at: Addr, text: &[u8]) -> Option<Instr>
    ensures { result ≡ instr_of at.0 text.now }
{
    if is_word(text, "stbar") {
        return Some(Instr::Stbar);
    }
    let (name, operands) = split_at(text, b' ')?;
    let name = read_name(name)?;
    instr_with(at, name, operands)
}

/// The instruction of a name with its operands.
#[tactic(auto, unfolding(crate::specs::Parts::instr_in))]
fn instr_with(at: Addr, name: Name, operands: &[u8]) -> Option<Instr>
    ensures { result ≡ instr_in at.0 name operands.now }
{
    match name {
        Name::Sethi => read_sethi(operands),
        Name::Branch { cond, annul } => branch(cond, annul, read_displacement(at, operands)),
        Name::Call => read_displacement(at, operands).map(|disp30| Instr::Call { disp30 }),
        Name::Alu { op, cc } => {
            let (rd, rs1, op2) = read_operands(operands)?;
            Some(Instr::Alu {
                op,
                cc,
                rd,
                rs1,
                op2,
            })
        }
        Name::ReadY => read_read_y(operands),
        Name::WriteY => read_write_y(operands),
        Name::Jmpl => read_operands(operands).map(|(rd, rs1, op2)| Instr::Jmpl { rd, rs1, op2 }),
        Name::Ticc { cond } => {
            let (rs1, op2) = read_sources(operands)?;
            Some(Instr::Ticc { cond, rs1, op2 })
        }
        Name::Flush => read_sources(operands).map(|(rs1, op2)| Instr::Flush { rs1, op2 }),
        Name::Save => read_operands(operands).map(|(rd, rs1, op2)| Instr::Save { rd, rs1, op2 }),
        Name::Restore => read_operands(operands).map(|(rd, rs1, op2)| Instr::Restore {
            rd,
            rs1,
            op2,
        }),
        Name::Load { kind } => {
            let (rd, rs1, op2) = read_loaded(operands)?;
            Some(Instr::Load { kind, rd, rs1, op2 })
        }
        Name::Store { kind } => {
            let (rd, rs1, op2) = read_stored(operands)?;
            Some(Instr::Store { kind, rd, rs1, op2 })
        }
        Name::Ldstub => read_loaded(operands).map(|(rd, rs1, op2)| Instr::Ldstub { rd, rs1, op2 }),
        Name::Swap => read_loaded(operands).map(|(rd, rs1, op2)| Instr::Swap { rd, rs1, op2 }),
    }
}

fn branch(cond: Cond, annul: bool, displacement: Option<i32>) -> Option<Instr>
    ensures { result ≡ option_map (i.Branch cond annul) displacement }
{
    displacement.map(|disp22| Instr::Branch {
        cond,
        annul,
        disp22,
    })
}

/// A word that is told as a number, and has no other text.
#[tactic(auto, unfolding(crate::specs::Parts::raw_of))]
fn raw(text: &[u8]) -> Option<u32>
    ensures { result ≡ raw_of text.now }
{
    let (name, digits) = split_at(text, b' ')?;
    if !is_word(name, ".word") {
        return None;
    }
    let word = read_hex(digits)?;
    if is_spelled(word) { None } else { Some(word) }
}
