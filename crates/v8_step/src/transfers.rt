//! Branches, CALL and JMPL, with their delay slots.
ghost use Rattle.std.specs.Prelude.{◌≡◌};
ghost use Rattle.v8_step.specs.Private.{in_slot};
ghost use Rattle.v8_step.specs.Transfers.{target_of, delayed, branched, unless_couple, branch_step, call_step, jump_step};

use crate::machine::{Machine, register};
use crate::traps::MEM_ADDRESS_NOT_ALIGNED;
use crate::{Ending, Slot};
use v8_decode::{Cond, Reg};

/// The condition of `ba`.
const ALWAYS: u8 = 8;

/// The number of %o7, where CALL links.
const LINK: u8 = 15;

impl Machine {
    #[inline(always)]
    #[tactic(auto, unfolding(crate::specs::Transfers::branch_step))]
    pub(crate) fn branch(&mut self, cond: Cond, annul: bool, disp22: i32)
        ensures { self.new ≡ unless_couple self.old.slot self.old (branch_step self.old cond annul disp22) }
    {
        if self.is_in_slot() {
            self.end(Ending::Couple);
        } else {
            let target = self.target(disp22);
            let taken = self.flags.holds(cond);
            self.branch_to(taken, cond.number() == ALWAYS, annul, target);
        }
    }

    #[inline]
    #[tactic(auto, unfolding(crate::specs::Transfers::call_step))]
    pub(crate) fn call(&mut self, disp30: i32)
        ensures { self.new ≡ unless_couple self.old.slot self.old (call_step self.old disp30) }
    {
        if self.is_in_slot() {
            self.end(Ending::Couple);
        } else {
            let target = self.target(disp30);
            let pc = self.pc;
            self.set(register(LINK), pc);
            self.delay(target);
        }
    }

    /// JMPL: the target is judged before rd is written.
    #[inline]
    #[tactic(auto, unfolding(crate::specs::Transfers::jump_step))]
    pub(crate) fn jump(&mut self, rd: Reg, target: u32)
        ensures { self.new ≡ unless_couple self.old.slot self.old (jump_step self.old rd target) }
    {
        if self.is_in_slot() {
            self.end(Ending::Couple);
        } else if target % 4 == 0 {
            let pc = self.pc;
            self.set(rd, pc);
            self.delay(target);
        } else {
            self.trap(MEM_ADDRESS_NOT_ALIGNED);
        }
    }

    #[inline]
    fn is_in_slot(&self) -> bool
        ensures { result ≡ in_slot self.now.slot }
    {
        match self.slot {
            Slot::NoSlot => false,
            Slot::Taken => true,
            Slot::Untaken => true,
        }
    }

    /// The target of a displacement, which counts words.
    #[inline]
    fn target(&self, displacement: i32) -> u32
        ensures { result ≡ target_of self.now displacement }
    {
        self.pc
            .wrapping_add(displacement.cast_unsigned().wrapping_mul(4))
    }

    /// Runs the delay slot, and goes on at the target.
    #[inline]
    fn delay(&mut self, target: u32)
        ensures { self.new ≡ delayed self.old target }
    {
        self.pc = self.npc;
        self.npc = target;
        self.slot = Slot::Taken;
    }

    #[inline(always)]
    fn branch_to(&mut self, taken: bool, always: bool, annul: bool, target: u32)
        ensures { self.new ≡ branched taken always annul self.old target }
    {
        if taken {
            if always && annul {
                self.pc = target;
                self.npc = target.wrapping_add(4);
            } else {
                self.delay(target);
            }
        } else if annul {
            let pc = self.pc;
            self.pc = pc.wrapping_add(8);
            self.npc = pc.wrapping_add(12);
        } else {
            self.pc = self.npc;
            self.npc = self.npc.wrapping_add(4);
            self.slot = Slot::Untaken;
        }
    }
}
