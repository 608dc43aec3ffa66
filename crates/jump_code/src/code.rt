//! The words of calls and jumps.

ghost use Rattle.std.specs.Prelude.{◌≡◌, ◌≢◌, IsTrue, map};
ghost use Rattle.v8_decode.specs.Words.{decode_of};
ghost use Rattle.v8_encode.specs.Code.{op2_fits};
ghost use Rattle.code_runs.specs.LongJump.{long_jump};
ghost use Rattle.layout.specs.Emitting.{words_of};
ghost use Rattle.jump_code.specs.Finding.{find_words, jump_translated};
ghost use Rattle.jump_code.specs.Leaving.{foreign};
ghost use Rattle.jump_code.specs.Links.{link};

use crate::single::{add, add_low, exchange};
use eel_base::Addr;
use layout::long_jump_words;
use v8_decode::{AluOp, Op2, Reg};
use v8_encode::{jump, keep, load, operation, register, sethi, take, words};

/// The first words of a JMPL: they look its target up in the table of two levels at `table`, through two registers that
/// it doesn't name.
pub fn translate_target_code(x: Reg, y: Reg, rs1: Reg, op2: Op2, table: Addr) -> [u32; 12]
    requires fits { IsTrue (op2_fits op2) }
    ensures words { result ≡ words_of (find_words x y rs1 op2 table.0) }
    ensures decodes { map decode_of result ≡ find_words x y rs1 op2 table.0 }
{
    words(&[
        keep(x, 7),
        keep(y, 2),
        add(x, rs1, &op2),
        keep(x, 1),
        operation(AluOp::SRL, y, x, Op2::Imm(16)),
        operation(AluOp::SLL, y, y, Op2::Imm(2)),
        sethi(x, table.0),
        load(y, x, Op2::Reg(y)),
        add(x, rs1, &op2),
        load(x, y, Op2::Reg(x)),
        exchange(x, 7),
        take(y, 2),
    ])
}

/// The jump behind the copy of a slot's word to what was found.
pub fn jump_translated_code(x: Reg) -> [u32; 3]
    ensures words { result ≡ words_of (jump_translated x) }
    ensures decodes { map decode_of result ≡ jump_translated x }
{
    words(&[exchange(x, 7), jump(x, Op2::Imm(0)), take(x, 7)])
}

/// The link of a CALL or a JMPL that stands at an address. A JMPL whose rd is %g0 has none.
pub fn link_code(rd: Reg, address: Addr) -> [u32; 2]
    requires some { rd ≢ 0 }
    ensures words { result ≡ words_of (link rd address.0) }
    ensures decodes { map decode_of result ≡ link rd address.0 }
{
    words(&[sethi(rd, address.0), add_low(rd, address.0)])
}

/// The link of a CALL.
pub fn call_code(address: Addr) -> [u32; 2]
    ensures words { result ≡ words_of (link 15 address.0) }
    ensures decodes { map decode_of result ≡ link 15 address.0 }
{
    link_code(register(15), address)
}

/// The foreign piece.
pub fn foreign_code() -> [u32; 4]
    ensures words { result ≡ words_of foreign }
    ensures decodes { map decode_of result ≡ foreign }
{
    let first = register(1);
    words(&[
        keep(first, 2),
        take(first, 1),
        jump(first, Op2::Imm(0)),
        take(first, 2),
    ])
}

/// A long jump to an address that is known.
pub fn long_jump_code(to: Addr) -> [u32; 4]
    ensures words { result ≡ words_of (long_jump to.0) }
    ensures decodes { map decode_of result ≡ long_jump to.0 }
{
    long_jump_words(to.0)
}
