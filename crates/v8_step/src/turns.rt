//! Many steps at once, of instructions that have records.
ghost use Rattle.std.specs.Prelude.{◌≡◌, ◌<◌, ◌≤◌, ◌*◌, ◌%◌, None};
ghost use Rattle.v8_memory.specs.Ops.{IsSum, operand_in};
ghost use Rattle.v8_step.specs.State.{operand_of, sum_of};
ghost use Rattle.v8_step.specs.Turns.{IsQuietRun};

use crate::ahead::run_predecoded;
use crate::machine::{Machine, register};
use eel_base::Addr;
use v8_decode::{Cond, Reg};
use v8_memory::Predecoded;

/// How many steps are made at once at most, so that sums of steps and places fit.
const MOST_AT_ONCE: u64 = 1 << 62;

impl Machine {
    /// Makes steps, at most `limit`, as long as the instructions have records and the run hasn't ended, and tells how many they
    /// are: none where `limit` is below the number of records. They put nothing out. The word before which it stops gets its
    /// record, too: by `step` control may leave its block.
    pub fn go(&mut self, limit: u64) -> u64
        requires going { self.old.ending ≡ None }
        ensures run { IsQuietRun self.old result self.new }
        ensures few { result ≤ limit }
    {
        self.memory.predecode_around(Addr(self.pc));
        let records = self.memory.take_records();
        let most = limit.min(MOST_AT_ONCE);
        let steps = run_predecoded(&records.ops, records.first, self, most);
        self.memory.put_records(records);
        self.memory.predecode_around(Addr(self.pc));
        steps
    }

    /// The sum of rs1 and the second operand.
    #[inline(always)]
    pub(crate) fn op_sum(&self, op: &Predecoded) -> u32
        requires sum { IsSum op.now.rs2 op.now.imm }
        ensures { result ≡ sum_of self.now op.now.rs1 (operand_in op.now.rs2 op.now.imm) }
    {
        self.reg(op.rs1).wrapping_add(self.op_operand(op))
    }

    /// The second operand: one of the two is 0.
    #[inline(always)]
    #[tactic(auto, using(crate::proofs::Ops::operand_sum))]
    pub(crate) fn op_operand(&self, op: &Predecoded) -> u32
        requires sum { IsSum op.now.rs2 op.now.imm }
        ensures { result ≡ operand_of self.now (operand_in op.now.rs2 op.now.imm) }
    {
        self.reg(op.rs2).wrapping_add(op.imm.cast_unsigned())
    }
}

/// The first register of a pair, whose number is half of its own.
#[inline(always)]
pub(crate) fn pair(half: Reg) -> Reg
    ensures double { result ≡ 2 * (half % 16) }
    ensures even { result % 2 ≡ 0 }
{
    register(half.number() % 16 * 2)
}

/// The condition with this number.
#[inline(always)]
pub(crate) fn condition(number: u8) -> Cond
    requires { number < 16 }
    ensures { result ≡ number }
{
    Cond::new(number).unwrap()
}
