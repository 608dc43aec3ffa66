//! The words from a comparison to a jump, and the values on the way.
ghost use Rattle.std.specs.Prelude.{◌≡◌, ◌+◌, ◌<◌, ◌≤◌, length};
ghost use Rattle.cfg_blocks.specs.Switches.{after_slot, approach_of, first_values, slot_words};

use crate::values::follow;
use crate::{Approach, BlockList, Compare, EdgeKind, Value};
use eel_base::{BlockNo, Text};

// How many words of the slot are run.
fn slot_words(text: &Text, last: u32, annul: bool, way: EdgeKind) -> u32
    requires { last < length text.now.words }
    ensures words { result ≡ slot_words text.now last annul way }
    ensures within { last + result < length text.now.words }
{
    let words = text.len();
    u32::from((!annul || way == EdgeKind::Taken) && last + 1 < words)
}

/// The words from a comparison in the block `from`, out of which a branch leads this way, to the end of the block
/// `jump`.
pub fn approach(
    text: &Text,
    blocks: &BlockList,
    jump: BlockNo,
    from: BlockNo,
    annul: bool,
    way: EdgeKind,
    compare: Compare,
) -> Approach
    requires words { blocks.now.blocks.words ≡ length text.now.words }
    requires jump { jump.0 < length blocks.now.blocks.firsts }
    requires from { from.0 < length blocks.now.blocks.firsts }
    ensures approach { result ≡ approach_of text.now blocks.now.blocks jump.0 from.0 annul way compare }
    ensures branch { result.last + result.slot < length text.now.words }
    ensures block { (result.first ≤ result.jump) × (result.jump < length text.now.words) }
{
    let last = blocks.last(from).0;
    Approach {
        compare,
        last,
        slot: slot_words(text, last, annul, way),
        first: blocks.first(jump).0,
        jump: blocks.last(jump).0,
    }
}

/// The values from the comparison to the slot that is run.
pub fn follow_slot(text: &Text, values: &mut [Value], approach: Approach)
    requires values { values.old ≡ first_values approach.compare }
    requires count { length values.old ≡ 32 }
    requires branch { (approach.compare.word < length text.now.words)
        × (approach.last + approach.slot < length text.now.words) }
    ensures value { values.new ≡ after_slot text.now approach }
    ensures count { length values.new ≡ 32 }
{
    let _words = text.len();
    let behind = approach.compare.word + 1;
    follow(text, values, behind, approach.last.saturating_sub(behind));
    follow(text, values, approach.last + 1, approach.slot);
}
