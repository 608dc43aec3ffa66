//! The comparison with whose codes control leaves a block.
ghost use Rattle.std.specs.Prelude.{◌≡◌, ◌+◌, ◌<◌, ◌≤◌, IfSome, length};
ghost use Rattle.cfg_blocks.specs.Switches.{compare_by, compare_of, compared, last_setting, sets_codes};
ghost use Rattle.cfg_blocks.specs.Values.{instr_at};
ghost use Rattle.cfg_blocks.specs.Known.{IsKnown};

use crate::{BlockList, Compare};
use eel_base::{BlockNo, Text, WordNo};
use v8_decode::{AluOp, Instr, Op2, Reg, decode};

fn sets_codes(instr: Instr) -> bool
    ensures { result ≡ sets_codes instr }
{
    matches!(instr, Instr::Alu { cc: true, .. })
}

// Going back from the end of these words, the first that sets the codes.
fn last_setting(text: &Text, from: u32, count: u32) -> Option<u32>
    requires { from + count ≤ length text.now.words }
    ensures word { result ≡ last_setting text.now from count }
    ensures within { IfSome result (λ word. word < from + count) }
{
    let _words = text.len();
    let mut left = count;
    while left > 0 {
        left -= 1;
        if sets_codes(decode(text.word(WordNo(from + left)))) {
            return Some(from + left);
        }
    }
    None
}

// The comparison that a word is.
fn compare_by(word: u32, instr: Instr) -> Option<Compare>
    ensures compare { result ≡ compare_by word instr }
    ensures known { IfSome result (IsKnown word) }
{
    match instr {
        Instr::Alu {
            op,
            cc,
            rd,
            rs1,
            op2,
        } => match (op, cc, op2) {
            (AluOp::SUB, true, Op2::Imm(m)) => compared(word, rd, rs1, m),
            _ => None,
        },
        _ => None,
    }
}

// A comparison of a register with a number.
fn compared(word: u32, rd: Reg, r: Reg, m: i32) -> Option<Compare>
    ensures compare { result ≡ compared word rd r m }
    ensures known { IfSome result (IsKnown word) }
{
    if m >= 0 && m < 1024 && r.number() != 0 && rd.number() != r.number() {
        Some(Compare {
            word,
            register: r.number(),
            limit: m as u32,
        })
    } else {
        None
    }
}

/// The comparison that sets the codes with which control leaves a block.
pub fn compare_in(blocks: &BlockList, text: &Text, block: BlockNo) -> Option<Compare>
    requires words { blocks.now.blocks.words ≡ length text.now.words }
    requires block { block.0 < length blocks.now.blocks.firsts }
    ensures compare { result ≡ compare_of text.now blocks.now.blocks block.0 }
    ensures known { IfSome result (λ c. (c.word < length text.now.words) × IsKnown c.word c) }
{
    match last_setting(text, blocks.first(block).0, blocks.words(block)) {
        Some(word) => compare_by(word, decode(text.word(WordNo(word)))),
        None => None,
    }
}
