//! The words of switches.

ghost use Rattle.std.specs.Prelude.{◌≡◌, IsTrue, map};
ghost use Rattle.v8_decode.specs.Words.{decode_of};
ghost use Rattle.v8_encode.specs.Code.{op2_fits};
ghost use Rattle.layout.specs.Emitting.{words_of};
ghost use Rattle.jump_code.specs.Choosing.{jump_by_case};
ghost use Rattle.jump_code.specs.Keeping.{save_load_address};

use crate::single::{add, add_low, exchange};
use v8_decode::{Op2, Reg};
use v8_encode::{jump, keep, load, register, sethi, take, words};

/// The words before a load with these operands, whose address they keep.
pub fn save_load_address_code(rs1: Reg, op2: Op2) -> [u32; 3]
    requires fits { IsTrue (op2_fits op2) }
    ensures words { result ≡ words_of (save_load_address rs1 op2) }
    ensures decodes { map decode_of result ≡ save_load_address rs1 op2 }
{
    let g1 = register(1);
    words(&[keep(g1, 0), add(g1, rs1, &op2), exchange(g1, 0)])
}

/// The words of a switch's JMPL, behind its link. From the address that was kept it is so far, modulo 2^32, to the word
/// that says where they go on.
pub fn jump_by_case_code(distance: u32) -> [u32; 9]
    ensures words { result ≡ words_of (jump_by_case distance) }
    ensures decodes { map decode_of result ≡ jump_by_case distance }
{
    let g1 = register(1);
    let g2 = register(2);
    words(&[
        keep(g1, 2),
        keep(g2, 7),
        take(g1, 0),
        sethi(g2, distance),
        add_low(g2, distance),
        load(g1, g1, Op2::Reg(g2)),
        take(g2, 7),
        jump(g1, Op2::Imm(0)),
        take(g1, 2),
    ])
}
