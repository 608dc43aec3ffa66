//! Where runs go at a switch: from its comparison to its jump, and on to an entry of its table. There is no code here,
//! but definitions and laws.
#![tactic(auto)]

ghost use Rattle.switch_runs.specs.Cases.{JumpsAreCases, NumbersAreCompared, OpensAreOne, SwitchesAreCompared, SwitchWalksMatch};
ghost use Rattle.switch_runs.specs.Held.{TextIsHeld};
ghost use Rattle.switch_runs.specs.Joined.{CaseBlocks, JumpsGoByTable};
ghost use Rattle.switch_runs.specs.Runs.{SwitchesHold};

/// On each run that comes from the comparison of a switch along the edge into the jump's block, the jump goes to an
/// entry of the table.
pub fn switches_hold()
    ensures { SwitchesHold }
{}

/// A file without a fault starts with its text in memory, where no program can write it.
pub fn text_is_held()
    ensures { TextIsHeld }
{}

/// Where the walk stands at the block itself of an open switch's jump, and not at its landed copy, the comparison was
/// made just so many steps before, and its branch went the way to the jump.
pub fn switches_are_compared()
    ensures { SwitchesAreCompared }
{}

/// Where the walk stands at the block itself of an open switch's jump, the jump leads along one of the block's Case
/// edges.
pub fn jumps_are_cases()
    ensures { JumpsAreCases }
{}

/// Over the graph with its open switches, the walk matches each run of a program from its entry.
pub fn switch_walks_match()
    ensures { SwitchWalksMatch }
{}

/// The number that was compared is that of the entry that is used: the LD of the entry has the address table + 4 *
/// number, and the jump goes to the address that this entry holds.
pub fn numbers_are_compared()
    ensures { NumbersAreCompared }
{}

/// A block has one open switch.
pub fn opens_are_one()
    ensures { OpensAreOne }
{}

/// From the load of an entry to its jump a run stands in the jump's block itself, and goes where that entry leads.
pub fn jumps_go_by_table()
    ensures { JumpsGoByTable }
{}

/// The block of an open switch ends in its jump, with no transfer before, has an LD that loads an entry, and is no
/// other's.
pub fn case_blocks()
    ensures { CaseBlocks }
{}
