//! Code that is made: its registers and conditions, instructions that it is often made of, and its words.

ghost use Rattle.std.specs.Prelude.{◌≡◌, ◌*◌, ◌-ℤ◌, ◌/◌, ◌<◌, IsTrue, false, map, pos};
ghost use Rattle.std.specs.List.{list_all};
ghost use Rattle.v8_decode.specs.declared.Instr.TheVariants as i;
ghost use Rattle.v8_decode.specs.declared.LoadKind.TheVariants as loads;
ghost use Rattle.v8_decode.specs.declared.Op2.TheVariants as o;
ghost use Rattle.v8_decode.specs.declared.StoreKind.TheVariants as stores;
ghost use Rattle.v8_decode.specs.Words.{decode_of};
ghost use Rattle.v8_encode.specs.Code.{has_word, words_of};
ghost use Rattle.v8_encode.specs.Encoding.{word_of};

use crate::encode;
use v8_decode::{AluOp, Cond, Instr, LoadKind, Op2, Reg, StoreKind};

/// The register with this number.
pub fn register(number: u8) -> Reg
    requires range { number < 32 }
    ensures { result ≡ number }
{
    match Reg::new(number) {
        Some(reg) => reg,
        None => unreachable!(),
    }
}

/// The condition with this number.
pub fn condition(number: u8) -> Cond
    requires range { number < 16 }
    ensures { result ≡ number }
{
    match Cond::new(number) {
        Some(cond) => cond,
        None => unreachable!(),
    }
}

/// The upper 22 bits of a number.
pub fn sethi(rd: Reg, number: u32) -> Instr
    ensures { result ≡ i.Sethi rd (number / 1024) }
{
    Instr::Sethi {
        rd,
        imm22: number / 1024,
    }
}

/// The instruction that does nothing.
pub fn nop() -> Instr
    ensures { result ≡ i.Sethi 0 0 }
{
    sethi(register(0), 0)
}

/// A branch, by a displacement in words.
pub fn branch(cond: Cond, annul: bool, disp22: i32) -> Instr
    ensures { result ≡ i.Branch cond annul disp22 }
{
    Instr::Branch {
        cond,
        annul,
        disp22,
    }
}

/// An operation that leaves the codes.
pub fn operation(op: AluOp, rd: Reg, rs1: Reg, op2: Op2) -> Instr
    ensures { result ≡ i.Alu op false rd rs1 op2 }
{
    Instr::Alu {
        op,
        cc: false,
        rd,
        rs1,
        op2,
    }
}

/// The load of a word.
pub fn load(rd: Reg, rs1: Reg, op2: Op2) -> Instr
    ensures { result ≡ i.Load loads.LD rd rs1 op2 }
{
    Instr::Load {
        kind: LoadKind::LD,
        rd,
        rs1,
        op2,
    }
}

/// The store of a word.
pub fn store(rd: Reg, rs1: Reg, op2: Op2) -> Instr
    ensures { result ≡ i.Store stores.ST rd rs1 op2 }
{
    Instr::Store {
        kind: StoreKind::ST,
        rd,
        rs1,
        op2,
    }
}

/// Word n of the editor's page, from %g0.
pub fn of_page_word(n: u8) -> Op2
    requires few { n < 8 }
    ensures { result ≡ o.Imm (pos (4 * n) -ℤ pos 4096) }
{
    Op2::Imm(4 * n as i32 - 4096)
}

/// A register goes into word n of the editor's page.
pub fn keep(rd: Reg, n: u8) -> Instr
    requires few { n < 8 }
    ensures { result ≡ i.Store stores.ST rd 0 (o.Imm (pos (4 * n) -ℤ pos 4096)) }
{
    store(rd, register(0), of_page_word(n))
}

/// A register comes out of word n of the editor's page.
pub fn take(rd: Reg, n: u8) -> Instr
    requires few { n < 8 }
    ensures { result ≡ i.Load loads.LD rd 0 (o.Imm (pos (4 * n) -ℤ pos 4096)) }
{
    load(rd, register(0), of_page_word(n))
}

/// A jump without a link.
pub fn jump(rs1: Reg, op2: Op2) -> Instr
    ensures { result ≡ i.Jmpl 0 rs1 op2 }
{
    Instr::Jmpl {
        rd: register(0),
        rs1,
        op2,
    }
}

/// The word of an instruction that has one.
#[tactic(auto, unfolding(crate::specs::Code::encode_of))]
pub fn word(instr: Instr) -> u32
    requires { IsTrue (has_word instr) }
    ensures word { result ≡ word_of instr }
    ensures decodes { decode_of result ≡ instr }
{
    match encode(instr) {
        Some(word) => word,
        None => unreachable!(),
    }
}

/// The words of instructions that have words.
pub fn words<const N: usize>(instrs: &[Instr; N]) -> [u32; N]
    requires { IsTrue (list_all has_word instrs.now) }
    ensures words { result ≡ words_of instrs.now }
    ensures decodes { map decode_of result ≡ instrs.now }
{
    let mut words = [0; N];
    'instrs: for n in 0..N {
        words[n] = word(instrs[n]);
    }
    words
}
