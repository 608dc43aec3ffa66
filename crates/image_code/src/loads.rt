//! The load of an open switch: which LD of the jump's block has its address kept.

ghost use Rattle.std.specs.Prelude.{◌≡◌, ◌<◌, ◌≤◌, length, slice_index};
ghost use Rattle.v8_decode.specs.Words.{decode_of};
ghost use Rattle.cfg_blocks.specs.Blocks.{last_word};
ghost use Rattle.image_code.specs.Loads.{is_place as is_place_of, load_of as load_in};
ghost use Rattle.image_code.specs.Lookups.{StandsInText, is_load as is_load_of, load_after, loads_entry as loads_entry_of};

use cfg_blocks::{Approach, Value, follow, follow_slot, sum};
use cfg_normal::{FlowGraph, OpenSwitch};
use eel_base::{Text, WordNo};
use v8_decode::{Instr, LoadKind, Op2, Reg, decode};

fn is_place(table: u32, value: Value) -> bool
    ensures { result ≡ is_place_of table value }
{
    match value {
        Value::Place(place) => place == table,
        _ => false,
    }
}

// Whether a load of a kind loads from the table at four times the index, where registers have these values.
fn loads_entry(table: u32, values: &[Value], kind: LoadKind, rs1: Reg, op2: Op2) -> bool
    requires { length values.now ≡ 32 }
    ensures { result ≡ loads_entry_of table values.now kind rs1 op2 }
{
    match kind {
        LoadKind::LD => is_place(table, sum(values, rs1, op2)),
        _ => false,
    }
}

// Whether a word does.
fn is_load(table: u32, values: &[Value], word: u32) -> bool
    requires { length values.now ≡ 32 }
    ensures { result ≡ is_load_of table values.now (decode_of word) }
{
    match decode(word) {
        Instr::Load { kind, rs1, op2, .. } => loads_entry(table, values, kind, rs1, op2),
        _ => false,
    }
}

// The first load of the jump's block, from the values at its first word on; that word where there is none.
fn load_from(text: &Text, values: &mut [Value], approach: Approach, table: u32) -> u32
    requires values { length values.old ≡ 32 }
    requires block { (approach.first ≤ approach.jump) × (approach.jump < length text.now.words) }
    ensures load { result ≡ load_after text.now values.old approach table }
    ensures above { approach.first ≤ result }
    ensures below { result ≤ approach.jump }
{
    for word in approach.first..approach.jump {
        if is_load(table, values, text.word(WordNo(word))) {
            return word;
        }
        follow(text, values, word, 1);
    }
    approach.first
}

/// The load of an open switch.
#[tactic(auto, unfolding(crate::specs::Loads::load_of))]
pub(crate) fn load_of(text: &Text, blocks: &FlowGraph, found: &OpenSwitch) -> u32
    requires stands { StandsInText text.now blocks.now.blocks found.now }
    ensures load { result ≡ load_in text.now found.now }
    ensures above { slice_index blocks.now.blocks.firsts found.now.block ≤ result }
    ensures below { result ≤ last_word blocks.now.blocks.firsts blocks.now.blocks.words found.now.block }
{
    let approach = found.approach();
    let mut values = [Value::Unknown; 32];
    values[approach.compare.register as usize] = Value::Index;
    follow_slot(text, &mut values, approach);
    load_from(text, &mut values, approach, found.switch().table.0)
}
