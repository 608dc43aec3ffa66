//! One step of the machine.
ghost use Rattle.std.specs.Prelude.{[], ◌≡◌, ◌⊎◌, ◌≤◌, IsTrue, Some, None, OnOk, OnErr};
ghost use Rattle.v8_step.specs.declared.Ending.{Ending};
ghost use Rattle.v8_decode.specs.Ranges.{has_even_pair};
ghost use Rattle.v8_alu.specs.Code.{alu_has_form};
ghost use Rattle.v8_step.specs.Machine.{FailsAt, Steps, Takes};
ghost use Rattle.v8_step.specs.Private.{Puts, quiet_act};
ghost use Rattle.v8_step.specs.Step.{act, alu_step, puts_by, puts_of, step_of};

use crate::Ending;
use crate::machine::Machine;
use crate::traps::{
    CP_DISABLED, DIVISION_BY_ZERO, FP_DISABLED, ILLEGAL_INSTRUCTION, INSTRUCTION_ACCESS_EXCEPTION,
    PRIVILEGED_INSTRUCTION, TAG_OVERFLOW,
};
use eel_base::{Addr, Failed, Sink};
use v8_alu::{AluOut, AluTrap, alu, decoded_forms};
use v8_decode::{Cond, Instr, Op2, Reg, decode};

/// What came of a step.
#[derive(Clone, Copy, Drop)]
pub enum StepOut {
    /// The run goes on.
    Went,
    /// The run has ended, by this step or before it.
    Ended(Ending),
    /// A sink failed, and no step was made.
    SinkFault,
}

/// Makes one step. What the program writes to descriptors 1 and 2 goes to `out` and `err`. A run that has ended
/// stays as it is. Where a sink fails the machine is as before, and the sink took a first part of the bytes.
#[inline]
#[tactic(auto, using(crate::proofs::Quiet::appended_nothing), unfolding(crate::specs::Step::step_of, crate::specs::Step::puts_of))]
pub fn step<O: Sink, E: Sink>(m: &mut Machine, out: &mut O, err: &mut E) -> StepOut
    ensures state { Steps m.old m.new result }
    // A sink can fail only in a step that doesn't end the run.
    ensures ends { (ending : Ending) → (step_of m.old).ending ≡ Some ending → result ≡ StepOut.Ended ending }
    ensures out { Takes (O.taken out.old) (O.taken out.new) (puts_of m.old 1) result }
    ensures err { Takes (E.taken err.old) (E.taken err.new) (puts_of m.old 2) result }
    ensures cause { result ≡ StepOut.SinkFault → FailsAt (puts_of m.old 1) (O.faults out.old) (O.faults out.new)
        ⊎ FailsAt (puts_of m.old 2) (E.faults err.old) (E.faults err.new) }
    ensures out_faults { O.faults out.old ≤ O.faults out.new }
    ensures err_faults { E.faults err.old ≤ E.faults err.new }
    // A step that puts nothing to a sink leaves it as it was.
    ensures quiet_out { puts_of m.old 1 ≡ [] → out.new ≡ out.old }
    ensures quiet_err { puts_of m.old 2 ≡ [] → err.new ≡ err.old }
{
    if let Some(ending) = m.ending {
        return StepOut::Ended(ending);
    }
    if m.carry_out(out, err).is_err() {
        return StepOut::SinkFault;
    }
    match m.ending {
        None => StepOut::Went,
        Some(ending) => StepOut::Ended(ending),
    }
}

impl Machine {
    /// Fetches, decodes and carries out the instruction at pc. After a failure the machine is as before.
    #[inline(never)]
    #[tactic(auto, using(crate::proofs::Quiet::appended_nothing), unfolding(crate::specs::Step::step_of, crate::specs::Step::puts_of))]
    fn carry_out<O: Sink, E: Sink>(&mut self, out: &mut O, err: &mut E) -> Result<(), Failed>
        requires { self.old.ending ≡ None }
        ensures state { OnOk result (self.new ≡ step_of self.old) }
        ensures same { OnErr result (self.new ≡ self.old) }
        ensures going { OnErr result ((step_of self.old).ending ≡ None) }
        ensures out { Puts (O.taken out.old) (O.taken out.new) (puts_of self.old 1) result }
        ensures err { Puts (E.taken err.old) (E.taken err.new) (puts_of self.old 2) result }
        ensures cause { OnErr result (FailsAt (puts_of self.old 1) (O.faults out.old) (O.faults out.new)
            ⊎ FailsAt (puts_of self.old 2) (E.faults err.old) (E.faults err.new)) }
        ensures out_faults { O.faults out.old ≤ O.faults out.new }
        ensures err_faults { E.faults err.old ≤ E.faults err.new }
        ensures quiet_out { puts_of self.old 1 ≡ [] → out.new ≡ out.old }
        ensures quiet_err { puts_of self.old 2 ≡ [] → err.new ≡ err.old }
    {
        let Some(word) = self.memory.fetch(Addr(self.pc)) else {
            self.trap(INSTRUCTION_ACCESS_EXCEPTION);
            return Ok(());
        };
        decoded_forms();
        self.act(decode(word), out, err)
    }

    /// Carries out an instruction. After a failure the machine is as before.
    #[inline]
    fn act<O: Sink, E: Sink>(
        &mut self,
        instr: Instr,
        out: &mut O,
        err: &mut E,
    ) -> Result<(), Failed>
        requires form { IsTrue (alu_has_form instr) }
        requires pair { IsTrue (has_even_pair instr) }
        ensures state { OnOk result (self.new ≡ act self.old instr) }
        ensures same { OnErr result (self.new ≡ self.old) }
        ensures going { OnErr result ((act self.old instr).ending ≡ self.old.ending) }
        ensures out { Puts (O.taken out.old) (O.taken out.new) (puts_by self.old instr 1) result }
        ensures err { Puts (E.taken err.old) (E.taken err.new) (puts_by self.old instr 2) result }
        ensures cause { OnErr result (FailsAt (puts_by self.old instr 1) (O.faults out.old) (O.faults out.new)
            ⊎ FailsAt (puts_by self.old instr 2) (E.faults err.old) (E.faults err.new)) }
        ensures out_faults { O.faults out.old ≤ O.faults out.new }
        ensures err_faults { E.faults err.old ≤ E.faults err.new }
        ensures quiet_out { puts_by self.old instr 1 ≡ [] → out.new ≡ out.old }
        ensures quiet_err { puts_by self.old instr 2 ≡ [] → err.new ≡ err.old }
    {
        match instr {
            Instr::Ticc { cond, rs1, op2 } => self.trap_if(cond, rs1, op2, out, err),
            instr => {
                self.act_quietly(instr);
                Ok(())
            }
        }
    }

    /// Ticc: the software trap, where the condition holds. After a failure the machine is as before.
    #[inline]
    #[tactic(auto, using(crate::proofs::Quiet::appended_nothing), unfolding(crate::specs::Step::act, crate::specs::Step::puts_by))]
    fn trap_if<O: Sink, E: Sink>(
        &mut self,
        cond: Cond,
        rs1: Reg,
        op2: Op2,
        out: &mut O,
        err: &mut E,
    ) -> Result<(), Failed>
        ensures state { OnOk result (self.new ≡ act self.old (Instr.Ticc cond rs1 op2)) }
        ensures same { OnErr result (self.new ≡ self.old) }
        ensures going { OnErr result ((act self.old (Instr.Ticc cond rs1 op2)).ending ≡ self.old.ending) }
        ensures out { Puts (O.taken out.old) (O.taken out.new) (puts_by self.old (Instr.Ticc cond rs1 op2) 1) result }
        ensures err { Puts (E.taken err.old) (E.taken err.new) (puts_by self.old (Instr.Ticc cond rs1 op2) 2) result }
        ensures cause { OnErr result (
            FailsAt (puts_by self.old (Instr.Ticc cond rs1 op2) 1) (O.faults out.old) (O.faults out.new)
            ⊎ FailsAt (puts_by self.old (Instr.Ticc cond rs1 op2) 2) (E.faults err.old) (E.faults err.new)) }
        ensures out_faults { O.faults out.old ≤ O.faults out.new }
        ensures err_faults { E.faults err.old ≤ E.faults err.new }
        ensures quiet_out { puts_by self.old (Instr.Ticc cond rs1 op2) 1 ≡ [] → out.new ≡ out.old }
        ensures quiet_err { puts_by self.old (Instr.Ticc cond rs1 op2) 2 ≡ [] → err.new ≡ err.old }
    {
        if self.flags.holds(cond) {
            let number = (self.sum(rs1, op2) % 128) as u8;
            self.software_trap(number, out, err)
        } else {
            self.go_on();
            Ok(())
        }
    }

    /// Carries out an instruction that puts nothing out: a Ticc only goes on.
    #[inline]
    #[tactic(auto, unfolding(crate::specs::Step::act))]
    fn act_quietly(&mut self, instr: Instr)
        requires form { IsTrue (alu_has_form instr) }
        requires pair { IsTrue (has_even_pair instr) }
        ensures { self.new ≡ quiet_act self.old instr }
    {
        match instr {
            Instr::Sethi { rd, imm22 } => {
                self.set(rd, imm22.wrapping_mul(1024));
                self.go_on();
            }
            Instr::Branch {
                cond,
                annul,
                disp22,
            } => self.branch(cond, annul, disp22),
            Instr::Call { disp30 } => self.call(disp30),
            Instr::Alu {
                op,
                cc,
                rd,
                rs1,
                op2,
            } => {
                let outcome = alu(
                    op,
                    cc,
                    self.reg(rs1),
                    self.operand(op2),
                    self.flags.codes(),
                    self.y,
                );
                self.finish_alu(rd, outcome);
            }
            Instr::ReadY { rd } => {
                self.set(rd, self.y);
                self.go_on();
            }
            Instr::WriteY { rs1, op2 } => {
                self.y = self.reg(rs1) ^ self.operand(op2);
                self.go_on();
            }
            Instr::Jmpl { rd, rs1, op2 } => self.jump(rd, self.sum(rs1, op2)),
            Instr::Save { rd, rs1, op2 } => self.save(rd, self.sum(rs1, op2)),
            Instr::Restore { rd, rs1, op2 } => self.restore(rd, self.sum(rs1, op2)),
            Instr::Load { kind, rd, rs1, op2 } => self.load(kind, rd, self.sum(rs1, op2)),
            Instr::Store { kind, rd, rs1, op2 } => self.store(kind, rd, self.sum(rs1, op2)),
            Instr::Ldstub { rd, rs1, op2 } => self.load_store_byte(rd, self.sum(rs1, op2)),
            Instr::Swap { rd, rs1, op2 } => self.swap(rd, self.sum(rs1, op2)),
            Instr::Ticc { .. } | Instr::Flush { .. } | Instr::Stbar => self.go_on(),
            Instr::Illegal => self.trap(ILLEGAL_INSTRUCTION),
            Instr::Privileged => self.trap(PRIVILEGED_INSTRUCTION),
            Instr::FpOff => self.trap(FP_DISABLED),
            Instr::CpOff => self.trap(CP_DISABLED),
        }
    }

    /// The outcome of an operation goes to rd, the codes and Y, or traps.
    #[inline(always)]
    #[tactic(auto, unfolding(crate::specs::Step::alu_step))]
    fn finish_alu(&mut self, rd: Reg, outcome: Result<AluOut, AluTrap>)
        ensures { self.new ≡ alu_step self.old rd outcome }
    {
        match outcome {
            Ok(outcome) => {
                self.flags.set(outcome.codes);
                self.y = outcome.y;
                self.set(rd, outcome.value);
                self.go_on();
            }
            Err(AluTrap::DivZero) => self.trap(DIVISION_BY_ZERO),
            Err(AluTrap::TagOverflow) => self.trap(TAG_OVERFLOW),
        }
    }
}
