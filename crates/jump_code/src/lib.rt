//! What becomes of calls and jumps in new code: their words, and what machines do there.
#![tactic(auto)]

ghost use Rattle.jump_code.specs.Choosing.{ChoicesHop, ChoicesSimulate};
ghost use Rattle.jump_code.specs.Finding.{LooksUp, LookUpSimulates, ResumeHops};
ghost use Rattle.jump_code.specs.Jumped.{CallsSimulate};
ghost use Rattle.jump_code.specs.Keeping.{AddressesAreSaved};
ghost use Rattle.jump_code.specs.Leaving.{FarGoes, ForeignLeaves};
ghost use Rattle.jump_code.specs.Links.{CallsAct};

mod code;
mod registers;
mod single;
mod switches;

pub use code::{
    call_code, foreign_code, jump_translated_code, link_code, long_jump_code, translate_target_code,
};
pub use registers::{free_register, other_register};
pub use switches::{jump_by_case_code, save_load_address_code};

/// The words of a JMPL write its link, and keep its target and what the table has for the target. Where the target
/// isn't aligned, they end the run as the JMPL does.
pub fn looks_up()
    ensures { LooksUp }
{}

/// The words of a JMPL do what its step does at the original's address.
pub fn look_up_simulates()
    ensures { LookUpSimulates }
{}

/// Behind the copy of the delay slot, the machine goes on at what was looked up.
pub fn resume_hops()
    ensures { ResumeHops }
{}

/// The words of a CALL write the original's link.
pub fn calls_act()
    ensures { CallsAct }
{}

/// The words of a CALL do what its step does, except for where they go on.
pub fn calls_simulate()
    ensures { CallsSimulate }
{}

/// The words before an open switch's load keep the load's address in the editor's page, and change nothing else.
pub fn addresses_are_saved()
    ensures { AddressesAreSaved }
{}

/// The words of an open switch's JMPL go on at the address in the word that lies `distance` bytes above the kept
/// address.
pub fn choices_hop()
    ensures { ChoicesHop }
{}

/// The link and these words do what the step of an open switch's JMPL does, except for where they go on.
pub fn choices_simulate()
    ensures { ChoicesSimulate }
{}

/// The foreign piece goes on at the address that waits in the editor's page.
pub fn foreign_leaves()
    ensures { ForeignLeaves }
{}

/// A long jump goes on at any address that is known when it is made.
pub fn far_goes()
    ensures { FarGoes }
{}
