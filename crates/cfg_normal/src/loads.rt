//! Whether the entry of a switch is loaded in the block of its jump.
ghost use Rattle.std.specs.Prelude.{◌≡◌, ◌+◌, ◌<◌, ◌≤◌, length, map};
ghost use Rattle.cfg_normal.specs.Opens.{is_entry, loads_here, unloaded};

use cfg_blocks::{Approach, Value, follow, follow_slot, sum};
use eel_base::{Text, WordNo};
use v8_decode::{Instr, decode};

fn unloaded(value: Value) -> Value
    ensures { result ≡ unloaded value }
{
    match value {
        Value::Entry(_) => Value::Unknown,
        _ => value,
    }
}

// Forgets the entries that were loaded so far.
fn unload(values: &mut [Value])
    ensures value { values.new ≡ map unloaded values.old }
    ensures count { length values.new ≡ length values.old }
{
    for value in values.iter_mut() {
        *value = unloaded(*value);
    }
}

fn is_entry(value: Value) -> bool
    ensures { result ≡ is_entry value }
{
    matches!(value, Value::Entry(_))
}

/// Whether the jump goes to an entry that was loaded in its block: entries are forgotten at the block's first word.
#[tactic(auto, unfolding(crate::specs::Opens::loads_here))]
pub(crate) fn loads_here(text: &Text, approach: Approach) -> bool
    requires register { (0 < approach.compare.register) × (approach.compare.register < 32) }
    requires branch { (approach.compare.word < length text.now.words)
        × (approach.last + approach.slot < length text.now.words) }
    requires block { (approach.first ≤ approach.jump) × (approach.jump < length text.now.words) }
    ensures { result ≡ loads_here text.now approach }
{
    match decode(text.word(WordNo(approach.jump))) {
        Instr::Jmpl { rs1, op2, .. } => {
            let mut values = [Value::Unknown; 32];
            values[approach.compare.register as usize] = Value::Index;
            follow_slot(text, &mut values, approach);
            unload(&mut values);
            follow(
                text,
                &mut values,
                approach.first,
                approach.jump - approach.first,
            );
            is_entry(sum(&values, rs1, op2))
        }
        _ => false,
    }
}
