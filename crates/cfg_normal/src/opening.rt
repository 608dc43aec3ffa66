//! Which switches of a text are open: in address order, each whose table meets no earlier one's.
ghost use Rattle.std.specs.Prelude.{◌≡◌, ℕ, ◌+◌, ◌<◌, ◌≤◌, ◌^◌, ◌++◌, [], ◌∷◌, List, length, slice_index_or, Some, IfOk, OnOk};
ghost use Rattle.std.specs.List.{All};
ghost use Rattle.eel_base.specs.CodeText.{word_at};
ghost use Rattle.cfg_blocks.specs.Blocks.{holding_of};
ghost use Rattle.cfg_normal.specs.Landings.{AreLandings};
ghost use Rattle.cfg_normal.specs.Private.{AreTabled};
ghost use Rattle.cfg_normal.specs.Opens.{is_closed, opens_of, with_switch, Open};
ghost use Rattle.cfg_normal.specs.Code.{IsTableIn};

use crate::OpenSwitch;
use crate::landings::{LandingRule, is_jump_block, landing_of, note_landings};
use crate::opens::candidate;
use crate::tables::{any_marked, mark_table, table_start};
use cfg_blocks::{BlockList, Switch};
use eel_base::{BlockNo, NoMemory, Text};
use std::alloc::Global;

// Whether the block has an open switch, or a word of the table stands in that of one.
fn is_closed(
    text: &Text,
    blocks: &BlockList,
    landings: &[LandingRule],
    tabled: &[bool],
    block: BlockNo,
    switch: Switch,
) -> bool
    requires block { block.0 < length blocks.now.blocks.firsts }
    requires holding { block.0 ≡ holding_of blocks.now.blocks switch.jump.0 }
    requires table { IsTableIn text.now switch }
    requires landings { length landings.now ≡ length blocks.now.blocks.firsts }
    requires tabled { length tabled.now ≡ length text.now.words }
    ensures { (opens : List Open) → AreLandings (length blocks.now.blocks.firsts) opens landings.now →
        AreTabled text.now opens tabled.now → result ≡ is_closed text.now blocks.now opens switch }
{
    is_jump_block(landing_of(landings, block))
        || any_marked(tabled, table_start(text, switch), switch.count)
}

// Notes the words of the table of an open switch.
fn note_table(text: &Text, tabled: &mut [bool], found: &OpenSwitch)
    requires table { IsTableIn text.now found.now.switch }
    requires tabled { length tabled.old ≡ length text.now.words }
    ensures { (opens : List Open) → AreTabled text.now opens tabled.old
        → AreTabled text.now (opens ++ found.now ∷ []) tabled.new }
{
    let switch = found.switch();
    mark_table(tabled, table_start(text, switch), switch.count);
}

// Adds the switch, if it is open.
fn add_switch(
    text: &Text,
    blocks: &BlockList,
    opens: &mut Vec<OpenSwitch>,
    landings: &mut [LandingRule],
    tabled: &mut [bool],
    switch: Switch,
) -> Result<(), NoMemory>
    requires made { blocks.now.blocks.words ≡ length text.now.words }
    requires table { IsTableIn text.now switch }
    requires landings { AreLandings (length blocks.now.blocks.firsts) opens.old.items landings.old }
    requires tabled { AreTabled text.now opens.old.items tabled.old }
    ensures opens { OnOk result (opens.new.items ≡ with_switch text.now blocks.now opens.old.items switch) }
    ensures landings { OnOk result (AreLandings (length blocks.now.blocks.firsts) opens.new.items landings.new) }
    ensures tabled { OnOk result (AreTabled text.now opens.new.items tabled.new) }
{
    let block = blocks.holding(switch.jump);
    if is_closed(text, blocks, landings, tabled, block, switch) {
        return Ok(());
    }
    let alloc = *opens.allocator();
    if let Some(found) = candidate(alloc, text, blocks, block, switch)? {
        note_landings(landings, opens.len(), &found);
        note_table(text, tabled, &found);
        opens.push(found)?;
    }
    Ok(())
}

/// The open switches of a text, and where control lands in each block.
#[tactic(auto, unfolding(crate::specs::Opens::opens_of))]
pub(crate) fn open_switches(
    alloc: Global,
    text: &Text,
    blocks: &BlockList,
    switches: &[Switch],
) -> Result<(Vec<OpenSwitch>, Vec<LandingRule>), NoMemory>
    requires made { blocks.now.blocks.words ≡ length text.now.words }
    requires tables { All (IsTableIn text.now) switches.now }
    ensures opens { IfOk result (λ r. r.0.items ≡ opens_of text.now blocks.now switches.now) }
    ensures landings { IfOk result (λ r. AreLandings (length blocks.now.blocks.firsts) r.0.items r.1.items) }
{
    let mut opens = Vec::new(alloc);
    let mut landings = vec![in alloc; LandingRule::Home; blocks.count() as usize]?;
    let mut tabled = vec![in alloc; false; text.len() as usize]?;
    for switch in switches {
        add_switch(
            text,
            blocks,
            &mut opens,
            &mut landings,
            &mut tabled,
            *switch,
        )?;
    }
    Ok((opens, landings))
}
