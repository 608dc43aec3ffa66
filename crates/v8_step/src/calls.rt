//! Software traps and system calls.
ghost use Rattle.std.specs.Prelude.{[], ◌≡◌, ◌⊎◌, ◌≤◌, ◌<◌, OnOk, OnErr};
ghost use Rattle.v8_step.specs.Calls.{answered, succeeds, refuses, read_call, write_call, heap_call, system_step, trap_step};
ghost use Rattle.v8_step.specs.Machine.{FailsAt};
ghost use Rattle.v8_step.specs.Private.{Puts, call_puts, trap_puts};
ghost use Rattle.v8_step.specs.Step.{written_out};

use crate::Ending;
use crate::machine::{Machine, register};
use crate::traps::{
    BRK, CALL_SYSTEM, EBADF, EFAULT, ENOMEM, ENOSYS, EXIT, FLUSH_WINDOWS, READ, TRAP_INSTRUCTION,
    WRITE,
};
use eel_base::{Addr, Failed, Sink, put_all};
use v8_alu::Codes;

/// The number of %g1, which has the number of a call.
const CALL_NUMBER: u8 = 1;

/// The numbers of %o0 to %o2, which have its arguments; %o0 gets the answer.
const FIRST_ARGUMENT: u8 = 8;

const SECOND_ARGUMENT: u8 = 9;

const THIRD_ARGUMENT: u8 = 10;

impl Machine {
    /// The software trap of this number. After a failure the machine is as before.
    #[tactic(auto, unfolding(crate::specs::Calls::trap_step))]
    pub(crate) fn software_trap<O: Sink, E: Sink>(
        &mut self,
        number: u8,
        out: &mut O,
        err: &mut E,
    ) -> Result<(), Failed>
        requires { number < 128 }
        ensures state { OnOk result (self.new ≡ trap_step self.old number) }
        ensures same { OnErr result (self.new ≡ self.old) }
        ensures going { OnErr result ((trap_step self.old number).ending ≡ self.old.ending) }
        ensures out { Puts (O.taken out.old) (O.taken out.new) (trap_puts self.old number 1) result }
        ensures err { Puts (E.taken err.old) (E.taken err.new) (trap_puts self.old number 2) result }
        ensures cause { OnErr result (FailsAt (trap_puts self.old number 1) (O.faults out.old) (O.faults out.new)
            ⊎ FailsAt (trap_puts self.old number 2) (E.faults err.old) (E.faults err.new)) }
        ensures out_faults { O.faults out.old ≤ O.faults out.new }
        ensures err_faults { E.faults err.old ≤ E.faults err.new }
        ensures quiet_out { trap_puts self.old number 1 ≡ [] → out.new ≡ out.old }
        ensures quiet_err { trap_puts self.old number 2 ≡ [] → err.new ≡ err.old }
    {
        match number {
            FLUSH_WINDOWS => self.flush(),
            CALL_SYSTEM => self.call_system(out, err)?,
            _ => self.trap(TRAP_INSTRUCTION + number),
        }
        Ok(())
    }

    #[tactic(auto, unfolding(crate::specs::Calls::system_call))]
    fn call_system<O: Sink, E: Sink>(&mut self, out: &mut O, err: &mut E) -> Result<(), Failed>
        ensures state { OnOk result (self.new ≡ system_step self.old) }
        ensures same { OnErr result (self.new ≡ self.old) }
        ensures going { OnErr result ((system_step self.old).ending ≡ self.old.ending) }
        ensures out { Puts (O.taken out.old) (O.taken out.new) (written_out self.old 1) result }
        ensures err { Puts (E.taken err.old) (E.taken err.new) (written_out self.old 2) result }
        ensures cause { OnErr result (FailsAt (written_out self.old 1) (O.faults out.old) (O.faults out.new)
            ⊎ FailsAt (written_out self.old 2) (E.faults err.old) (E.faults err.new)) }
        ensures out_faults { O.faults out.old ≤ O.faults out.new }
        ensures err_faults { E.faults err.old ≤ E.faults err.new }
        ensures quiet_out { written_out self.old 1 ≡ [] → out.new ≡ out.old }
        ensures quiet_err { written_out self.old 2 ≡ [] → err.new ≡ err.old }
    {
        let first = self.reg(register(FIRST_ARGUMENT));
        let second = self.reg(register(SECOND_ARGUMENT));
        let third = self.reg(register(THIRD_ARGUMENT));
        match self.reg(register(CALL_NUMBER)) {
            EXIT => self.end(Ending::Exit((first % 256) as u8)),
            READ => self.read_input(first, second, third),
            WRITE => self.write_output(first, second, third, out, err)?,
            BRK => self.move_heap_end(first),
            _ => self.refuse(ENOSYS),
        }
        Ok(())
    }

    /// Reads from descriptor 0 into memory, as much as the input has.
    fn read_input(&mut self, descriptor: u32, address: u32, count: u32)
        ensures { self.new ≡ read_call self.old descriptor address count }
    {
        if descriptor != 0 {
            self.refuse(EBADF);
            return;
        }
        let left = &self.input[self.read..];
        let count = left.len().min(count as usize);
        if self.memory.fill(Addr(address), &left[..count]) {
            self.read += count;
            self.succeed(count as u32);
        } else {
            self.refuse(EFAULT);
        }
    }

    /// Writes to descriptor 1 or 2. After a failure the machine is as before, and the sink took a first part.
    #[tactic(auto, using(crate::proofs::Quiet::appended_nothing))]
    fn write_output<O: Sink, E: Sink>(
        &mut self,
        descriptor: u32,
        address: u32,
        count: u32,
        out: &mut O,
        err: &mut E,
    ) -> Result<(), Failed>
        ensures state { OnOk result (self.new ≡ write_call self.old descriptor address count) }
        ensures same { OnErr result (self.new ≡ self.old) }
        ensures going { OnErr result ((write_call self.old descriptor address count).ending ≡ self.old.ending) }
        ensures out { Puts (O.taken out.old) (O.taken out.new) (call_puts self.old.memory descriptor address count 1) result }
        ensures err { Puts (E.taken err.old) (E.taken err.new) (call_puts self.old.memory descriptor address count 2) result }
        ensures cause { OnErr result (
            FailsAt (call_puts self.old.memory descriptor address count 1) (O.faults out.old) (O.faults out.new)
            ⊎ FailsAt (call_puts self.old.memory descriptor address count 2) (E.faults err.old) (E.faults err.new)) }
        ensures out_faults { O.faults out.old ≤ O.faults out.new }
        ensures err_faults { E.faults err.old ≤ E.faults err.new }
        ensures quiet_out { call_puts self.old.memory descriptor address count 1 ≡ [] → out.new ≡ out.old }
        ensures quiet_err { call_puts self.old.memory descriptor address count 2 ≡ [] → err.new ≡ err.old }
    {
        if descriptor != 1 && descriptor != 2 {
            self.refuse(EBADF);
            return Ok(());
        }
        let Some(bytes) = self.memory.part(Addr(address), count) else {
            self.refuse(EFAULT);
            return Ok(());
        };
        if descriptor == 1 {
            put_out(out, bytes)?;
        } else {
            put_out(err, bytes)?;
        }
        self.succeed(count);
        Ok(())
    }

    /// Sets the end of the heap.
    fn move_heap_end(&mut self, end: u32)
        ensures { self.new ≡ heap_call self.old end }
    {
        if self.memory.set_heap_end(Addr(end)) {
            self.succeed(0);
        } else {
            self.refuse(ENOMEM);
        }
    }

    /// The call has succeeded with this answer.
    fn succeed(&mut self, value: u32)
        ensures { self.new ≡ succeeds value self.old }
    {
        self.answer_call(value, false);
    }

    fn refuse(&mut self, error: u32)
        ensures { self.new ≡ refuses error self.old }
    {
        self.answer_call(error, true);
    }

    fn answer_call(&mut self, value: u32, carry: bool)
        ensures { self.new ≡ answered carry value self.old }
    {
        self.set(register(FIRST_ARGUMENT), value);
        let codes = self.flags.codes();
        self.flags.set(Codes {
            n: codes.n,
            z: codes.z,
            v: codes.v,
            c: carry,
        });
        self.go_on();
    }
}

/// Puts the bytes out, and asks the sink for nothing where there are none. After a failure it took a first part.
fn put_out<S: Sink>(sink: &mut S, bytes: &[u8]) -> Result<(), Failed>
    ensures taken { Puts (S.taken sink.old) (S.taken sink.new) bytes.now result }
    ensures cause { OnErr result (FailsAt bytes.now (S.faults sink.old) (S.faults sink.new)) }
    ensures faults { S.faults sink.old ≤ S.faults sink.new }
    ensures quiet { bytes.now ≡ [] → sink.new ≡ sink.old }
{
    if bytes.is_empty() {
        return Ok(());
    }
    put_all(sink, bytes)
}
