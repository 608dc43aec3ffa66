//! Open switches: whose jump's block gets an edge for each target.
ghost use Rattle.std.specs.Prelude.{◌≡◌, ◌+◌, ◌<◌, ◌≤◌, length, map, slice_index_or, IfOk, IfSome};
ghost use Rattle.std.specs.Option.{option_to_list};
ghost use Rattle.cfg_blocks.specs.Blocks.{end_of, holding_of};
ghost use Rattle.cfg_normal.specs.Opens.{candidate, candidate_behind, candidate_into, is_candidate, open_by};
ghost use Rattle.cfg_normal.specs.Code.{IsTableIn};

use crate::loads::loads_here;
use crate::tables::targets;
use cfg_blocks::{Approach, BlockEnd, BlockList, EdgeKind, Into, Switch, approach, compare_in};
use eel_base::{BlockNo, NoMemory, Text, WordNo};
use std::alloc::Global;
use std::marker::Model;

/// An open switch: the block of its jump, the way from the comparison's block to that, the words from the
/// comparison to the jump, and the words to which the entries of its table lead.
#[derive(Drop)]
pub struct OpenSwitch {
    switch: Switch,
    block: BlockNo,
    way: EdgeKind,
    approach: Approach,
    targets: Vec<WordNo>,
}

impl Model for OpenSwitch {
    ghost use Rattle.std.specs.Prelude.{map};
    ghost use Rattle.cfg_normal.specs.Opens.{Open};

    ghost Value = { Open };

    ghost view = { λ o. record {
      switch = o.switch;
      block = o.block.0;
      way = o.way;
      approach = o.approach;
      targets = map (λ w. w.0) o.targets.items;
    } };
}

impl OpenSwitch {
    #[inline]
    pub fn switch(&self) -> Switch
        ensures { result ≡ self.now.switch }
    {
        self.switch
    }

    /// The block of the jump.
    #[inline]
    pub fn block(&self) -> BlockNo
        ensures { result.0 ≡ self.now.block }
    {
        self.block
    }

    /// The way from the comparison's block to the jump's.
    #[inline]
    pub fn way(&self) -> EdgeKind
        ensures { result ≡ self.now.way }
    {
        self.way
    }

    /// The words from the comparison to the jump.
    #[inline]
    pub fn approach(&self) -> Approach
        ensures { result ≡ self.now.approach }
    {
        self.approach
    }

    /// The words to which the entries of the table lead, in their order.
    #[inline]
    pub fn targets(&self) -> &[WordNo]
        ensures { map (λ w. w.0) result.now ≡ self.now.targets }
    {
        &self.targets
    }
}

// Whether a slot follows the jump and one the branch, and the entry is loaded in the jump's block.
fn is_candidate(text: &Text, approach: Approach) -> bool
    requires register { (0 < approach.compare.register) × (approach.compare.register < 32) }
    requires branch { (approach.compare.word < length text.now.words)
        × (approach.last + approach.slot < length text.now.words) }
    requires block { (approach.first ≤ approach.jump) × (approach.jump < length text.now.words) }
    ensures { result ≡ is_candidate text.now approach }
{
    let words = text.len();
    loads_here(text, approach) && approach.jump + 1 < words && approach.last + 1 < words
}

// The words from the comparison in the block `from`, which a branch leaves this way, to the end of `block`, if the
// switch can be open.
fn approach_behind(
    text: &Text,
    blocks: &BlockList,
    block: BlockNo,
    from: BlockNo,
    way: EdgeKind,
) -> Option<Approach>
    requires made { blocks.now.blocks.words ≡ length text.now.words }
    requires block { block.0 < length blocks.now.blocks.firsts }
    requires from { from.0 < length blocks.now.blocks.firsts }
    ensures { (switch : _)
        → candidate_behind text.now blocks.now.blocks switch block.0 from.0 way (end_of blocks.now.blocks from.0)
        ≡ map (open_by text.now switch block.0 way) (option_to_list result) }
{
    match blocks.end(from) {
        BlockEnd::Branch { annul, .. } => {
            let compare = compare_in(blocks, text, from)?;
            let approach = approach(text, blocks, block, from, annul, way, compare);
            if is_candidate(text, approach) {
                Some(approach)
            } else {
                None
            }
        }
        _ => None,
    }
}

// The words from the comparison to the jump, and the way from its block, if the switch can be open.
fn approach_into(
    text: &Text,
    blocks: &BlockList,
    block: BlockNo,
    switch: Switch,
) -> Option<(EdgeKind, Approach)>
    requires made { blocks.now.blocks.words ≡ length text.now.words }
    requires block { block.0 < length blocks.now.blocks.firsts }
    ensures candidates { candidate_into text.now blocks.now.blocks switch block.0 (slice_index_or blocks.now.intos block.0 Into.Nothing)
        ≡ map (λ p. open_by text.now switch block.0 p.0 p.1) (option_to_list result) }
    ensures compare { IfSome result (λ p. switch.compare.0 < length blocks.now.blocks.firsts) }
{
    match blocks.into(block) {
        Into::One(from, way) => {
            if from.0 >= blocks.count() || switch.compare.0 != from.0 {
                return None;
            }
            let approach = approach_behind(text, blocks, block, from, way)?;
            Some((way, approach))
        }
        _ => None,
    }
}

/// The switch as an open one, whose jump ends the block, but for its table's place.
pub(crate) fn candidate(
    alloc: Global,
    text: &Text,
    blocks: &BlockList,
    block: BlockNo,
    switch: Switch,
) -> Result<Option<OpenSwitch>, NoMemory>
    requires made { blocks.now.blocks.words ≡ length text.now.words }
    requires block { block.0 < length blocks.now.blocks.firsts }
    requires holding { block.0 ≡ holding_of blocks.now.blocks switch.jump.0 }
    requires table { IsTableIn text.now switch }
    ensures open { IfOk result (λ o. candidate text.now blocks.now switch ≡ option_to_list o) }
    ensures block { IfOk result (λ o. IfSome o (λ found. found.block ≡ block.0)) }
    ensures table { IfOk result (λ o. IfSome o (λ found. IsTableIn text.now found.switch)) }
    ensures compare { IfOk result (λ o. IfSome o (λ found. found.switch.compare.0 < length blocks.now.blocks.firsts)) }
{
    match approach_into(text, blocks, block, switch) {
        Some((way, approach)) => {
            let targets = targets(alloc, text, switch)?;
            Ok(Some(OpenSwitch {
                switch,
                block,
                way,
                approach,
                targets,
            }))
        }
        None => Ok(None),
    }
}
