//! Writing a text.
ghost use Rattle.std.specs.Prelude.{◌≡◌, ◌<◌, ◌++◌, ◌∷◌, [], IfOk, OnOk, decimal};
ghost use Rattle.v8_decode.specs.declared.Instr.TheVariants as i;
ghost use Rattle.line_words.specs.Registers.{register_text};
ghost use Rattle.v8_text.specs.Texts.{comma, instr_text, integer_text, is_spelled, loaded, named, number_text, op2_text, operands, sources, stored, target_of, word_text};

use crate::names::{alu_name, branch_name, load_name, store_name, trap_name};
use eel_base::{Addr, NoMemory, hex8};
use itoa::Buffer;
use line_words::register_name;
use std::alloc::Global;
use v8_decode::{Instr, Op2, Reg, decode};
use v8_encode::encode;

/// The text of a word at an address, which is a multiple of 4.
pub fn text_of(alloc: Global, at: Addr, word: u32) -> Result<Vec<u8>, NoMemory>
    ensures { IfOk result (λ text. text.items ≡ word_text at.0 word) }
{
    let mut text = Vec::new(alloc);
    put_word(&mut text, at, word)?;
    Ok(text)
}

/// Adds the text of a word.
#[tactic(auto, unfolding(crate::specs::Texts::word_text))]
pub(crate) fn put_word(text: &mut Vec<u8>, at: Addr, word: u32) -> Result<(), NoMemory>
    ensures { OnOk result (text.new.items ≡ text.old.items ++ word_text at.0 word) }
{
    if is_spelled(word) {
        put_instr(text, at, decode(word))
    } else {
        put_numbered(text, b".word", word)
    }
}

/// Whether the word is what its instruction is encoded as.
pub(crate) fn is_spelled(word: u32) -> bool
    ensures { result ≡ is_spelled word }
{
    encode(decode(word)) == Some(word)
}

/// Adds an instruction.
fn put_instr(text: &mut Vec<u8>, at: Addr, instr: Instr) -> Result<(), NoMemory>
    ensures { OnOk result (text.new.items ≡ text.old.items ++ instr_text at.0 instr) }
{
    match instr {
        Instr::Sethi { rd, imm22 } => put_sethi(text, rd, imm22),
        Instr::Branch {
            cond,
            annul,
            disp22,
        } => { put_jump(text, branch_name(cond.number(), annul), at, disp22) }
        Instr::Call { disp30 } => put_jump(text, b"call", at, disp30),
        Instr::Alu {
            op,
            cc,
            rd,
            rs1,
            op2,
        } => put_operands(text, alu_name(op, cc), rd, rs1, op2),
        Instr::ReadY { rd } => put_read_y(text, rd),
        Instr::WriteY { rs1, op2 } => put_write_y(text, rs1, op2),
        Instr::Jmpl { rd, rs1, op2 } => put_operands(text, b"jmpl", rd, rs1, op2),
        Instr::Ticc { cond, rs1, op2 } => put_trap(text, trap_name(cond.number()), rs1, op2),
        Instr::Flush { rs1, op2 } => put_trap(text, b"flush", rs1, op2),
        Instr::Stbar => put(text, b"stbar"),
        Instr::Save { rd, rs1, op2 } => put_operands(text, b"save", rd, rs1, op2),
        Instr::Restore { rd, rs1, op2 } => put_operands(text, b"restore", rd, rs1, op2),
        Instr::Load { kind, rd, rs1, op2 } => put_loaded(text, load_name(kind), rd, rs1, op2),
        Instr::Store { kind, rd, rs1, op2 } => put_stored(text, store_name(kind), rd, rs1, op2),
        Instr::Ldstub { rd, rs1, op2 } => put_loaded(text, b"ldstub", rd, rs1, op2),
        Instr::Swap { rd, rs1, op2 } => put_loaded(text, b"swap", rd, rs1, op2),
        Instr::Illegal | Instr::Privileged | Instr::FpOff | Instr::CpOff => Ok(()),
    }
}

// ---- instructions with their operands

fn put_sethi(text: &mut Vec<u8>, rd: Reg, imm22: u32) -> Result<(), NoMemory>
    ensures { OnOk result (text.new.items ≡ text.old.items ++ instr_text 0 (i.Sethi rd imm22)) }
{
    put_name(text, b"sethi")?;
    put_decimal(text, imm22)?;
    put(text, b",")?;
    put(text, &register_name(rd))
}

fn put_jump(text: &mut Vec<u8>, name: &[u8], at: Addr, displacement: i32) -> Result<(), NoMemory>
    ensures { OnOk result (text.new.items
        ≡ text.old.items ++ named name.now (number_text (target_of at.0 displacement))) }
{
    let target = target(at, displacement);
    put_numbered(text, name, target)?;
    Ok(())
}

/// Adds a name that stands before a number.
fn put_numbered(text: &mut Vec<u8>, name: &[u8], number: u32) -> Result<(), NoMemory>
    ensures { OnOk result (text.new.items ≡ text.old.items ++ named name.now (number_text number)) }
{
    put_name(text, name)?;
    put_number(text, number)?;
    Ok(())
}

/// Where a transfer at an address leads.
fn target(at: Addr, displacement: i32) -> u32
    ensures { result ≡ target_of at.0 displacement }
{
    let distance = displacement.cast_unsigned().wrapping_mul(4);
    at.0.wrapping_add(distance)
}

fn put_operands(
    text: &mut Vec<u8>,
    name: &[u8],
    rd: Reg,
    rs1: Reg,
    op2: Op2,
) -> Result<(), NoMemory>
    ensures { OnOk result (text.new.items ≡ text.old.items ++ named name.now (operands rd rs1 op2)) }
{
    put_trap(text, name, rs1, op2)?;
    put(text, b",")?;
    put(text, &register_name(rd))
}

fn put_trap(text: &mut Vec<u8>, name: &[u8], rs1: Reg, op2: Op2) -> Result<(), NoMemory>
    ensures { OnOk result (text.new.items ≡ text.old.items ++ named name.now (sources rs1 op2)) }
{
    put_name(text, name)?;
    put_sources(text, rs1, op2)
}

fn put_loaded(text: &mut Vec<u8>, name: &[u8], rd: Reg, rs1: Reg, op2: Op2) -> Result<(), NoMemory>
    ensures { OnOk result (text.new.items ≡ text.old.items ++ named name.now (loaded rd rs1 op2)) }
{
    put_name(text, name)?;
    put(text, b"[")?;
    put_sources(text, rs1, op2)?;
    put(text, b"],")?;
    put(text, &register_name(rd))
}

fn put_stored(text: &mut Vec<u8>, name: &[u8], rd: Reg, rs1: Reg, op2: Op2) -> Result<(), NoMemory>
    ensures { OnOk result (text.new.items ≡ text.old.items ++ named name.now (stored rd rs1 op2)) }
{
    put_name(text, name)?;
    put(text, &register_name(rd))?;
    put(text, b",[")?;
    put_sources(text, rs1, op2)?;
    put(text, b"]")
}

fn put_read_y(text: &mut Vec<u8>, rd: Reg) -> Result<(), NoMemory>
    ensures { OnOk result (text.new.items ≡ text.old.items ++ instr_text 0 (i.ReadY rd)) }
{
    put(text, b"rd %y,")?;
    put(text, &register_name(rd))
}

fn put_write_y(text: &mut Vec<u8>, rs1: Reg, op2: Op2) -> Result<(), NoMemory>
    ensures { OnOk result (text.new.items ≡ text.old.items ++ instr_text 0 (i.WriteY rs1 op2)) }
{
    put_trap(text, b"wr", rs1, op2)?;
    put(text, b",%y")
}

// ---- parts

fn put(text: &mut Vec<u8>, part: &[u8]) -> Result<(), NoMemory>
    ensures { OnOk result (text.new.items ≡ text.old.items ++ part.now) }
{
    text.extend_from_slice(part)?;
    Ok(())
}

/// Adds a name, and a space.
fn put_name(text: &mut Vec<u8>, name: &[u8]) -> Result<(), NoMemory>
    ensures { OnOk result (text.new.items ≡ text.old.items ++ (name.now ++ 32 ∷ [])) }
{
    put(text, name)?;
    put(text, b" ")
}

fn put_sources(text: &mut Vec<u8>, rs1: Reg, op2: Op2) -> Result<(), NoMemory>
    ensures { OnOk result (text.new.items ≡ text.old.items ++ sources rs1 op2) }
{
    put(text, &register_name(rs1))?;
    put(text, b",")?;
    put_op2(text, op2)
}

fn put_op2(text: &mut Vec<u8>, op2: Op2) -> Result<(), NoMemory>
    ensures { OnOk result (text.new.items ≡ text.old.items ++ op2_text op2) }
{
    match op2 {
        Op2::Reg(reg) => put(text, &register_name(reg)),
        Op2::Imm(number) => put_integer(text, number),
    }
}

fn put_integer(text: &mut Vec<u8>, number: i32) -> Result<(), NoMemory>
    ensures { OnOk result (text.new.items ≡ text.old.items ++ integer_text number) }
{
    if number < 0 {
        put(text, b"-")?;
    }
    put_decimal(text, number.unsigned_abs())
}

fn put_decimal(text: &mut Vec<u8>, number: u32) -> Result<(), NoMemory>
    ensures { OnOk result (text.new.items ≡ text.old.items ++ decimal number) }
{
    let mut digits = Buffer::new();
    put(text, digits.format(number).as_bytes())
}

/// Adds a number as `0x` and eight digits.
fn put_number(text: &mut Vec<u8>, number: u32) -> Result<(), NoMemory>
    ensures { OnOk result (text.new.items ≡ text.old.items ++ number_text number) }
{
    put(text, b"0x")?;
    put(text, &hex8(number))
}
