//! The code that translates an address.

ghost use Rattle.std.specs.Prelude.{◌≡◌, ◌≢◌, ◌%◌, map};
ghost use Rattle.v8_encode.specs.Encoding.{word_of as word_in};
ghost use Rattle.addr_translate.specs.Translator.{Translates, translator};

use eel_base::Addr;
use v8_decode::{AluOp, Op2, Reg};
use v8_encode::{keep, load, operation, sethi, take, words};

/// Twelve words that put what the table at `base` has for the address in `a` into `a`. They work in `b` too, and keep
/// the address in word 1 of the editor's page, where it still is afterwards.
pub fn translator_code(base: Addr, a: Reg, b: Reg) -> [u32; 12]
    requires aligned { base.0 % 4096 ≡ 0 }
    requires first { a ≢ 0 }
    requires second { b ≢ 0 }
    requires differ { a ≢ b }
    ensures words { result ≡ map word_in (translator base.0 a b) }
    ensures translates { Translates result base.0 a b }
{
    words(&[
        keep(a, 1),
        operation(AluOp::SRL, a, a, Op2::Imm(20)),
        operation(AluOp::AND, a, a, Op2::Imm(0xffc)),
        sethi(b, base.0),
        load(b, b, Op2::Reg(a)),
        take(a, 1),
        operation(AluOp::SRL, a, a, Op2::Imm(10)),
        operation(AluOp::AND, a, a, Op2::Imm(0xffc)),
        load(b, b, Op2::Reg(a)),
        take(a, 1),
        operation(AluOp::AND, a, a, Op2::Imm(0xffc)),
        load(a, b, Op2::Reg(a)),
    ])
}
