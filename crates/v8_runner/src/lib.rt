//! Runs of the machine: many steps, up to a limit.
#![tactic(auto)]

ghost use Rattle.std.specs.Prelude.{◌≡◌, ◌⊎◌, ◌≤◌, None};
ghost use Rattle.v8_step.specs.Machine.{FailsAt};
ghost use Rattle.v8_step.specs.Run.{run as run_of, run_puts};
ghost use Rattle.v8_step.specs.Step.{puts_of};
ghost use Rattle.v8_runner.specs.Private.{IsAhead};
ghost use Rattle.v8_runner.specs.Runs.{IsStop, RunTakes};
ghost use Rattle.v8_runner.specs.Made.{AreMade};
ghost use Rattle.v8_step.specs.State.{State};

use eel_base::{Addr, Sink};
use v8_step::{Ending, Machine, StepOut, step};

/// Why a run stopped.
#[derive(Clone, Copy, PartialEq, Eq, Debug, Drop)]
pub enum Stop {
    /// The limit of steps is reached, and the machine hasn't ended.
    Limit,
    Ended(Ending),
    /// A sink failed in the next step, which isn't made.
    SinkFault,
}

/// What came of a run: why it stopped, how many steps were made, and where the machine is.
#[derive(Clone, Copy, PartialEq, Eq, Debug, Drop)]
pub struct RunEnd {
    pub stop: Stop,
    /// The step that ends the program is one of them; a step in which a sink failed is not.
    pub steps: u64,
    pub pc: Addr,
}

/// Makes steps until the machine has ended, `limit` steps were made, or a sink failed. A machine that had ended
/// makes none.
pub fn run<O: Sink, E: Sink>(m: &mut Machine, limit: u64, out: &mut O, err: &mut E) -> RunEnd
    ensures state { m.new ≡ run_of m.old result.steps }
    ensures stop { IsStop m.new.ending limit result.steps result.stop }
    ensures made { AreMade m.old result.steps }
    ensures pc { result.pc.0 ≡ m.new.pc }
    ensures out { RunTakes (O.taken out.old) (O.taken out.new) (run_puts m.old result.steps 1) (puts_of m.new 1) result.stop }
    ensures err { RunTakes (E.taken err.old) (E.taken err.new) (run_puts m.old result.steps 2) (puts_of m.new 2) result.stop }
    ensures cause { result.stop ≡ Stop.SinkFault → FailsAt (puts_of m.new 1) (O.faults out.old) (O.faults out.new)
        ⊎ FailsAt (puts_of m.new 2) (E.faults err.old) (E.faults err.new) }
    ensures out_faults { O.faults out.old ≤ O.faults out.new }
    ensures err_faults { E.faults err.old ≤ E.faults err.new }
{
    let (stop, steps) = make_steps(m, limit, out, err);
    RunEnd {
        stop,
        steps,
        pc: m.pc(),
    }
}

/// Makes the steps of [`run`], and tells why they stopped and how many they are.
fn make_steps<O: Sink, E: Sink>(
    m: &mut Machine,
    limit: u64,
    out: &mut O,
    err: &mut E,
) -> (Stop, u64)
    ensures state { m.new ≡ run_of m.old result.1 }
    ensures stop { IsStop m.new.ending limit result.1 result.0 }
    ensures made { AreMade m.old result.1 }
    ensures out { RunTakes (O.taken out.old) (O.taken out.new) (run_puts m.old result.1 1) (puts_of m.new 1) result.0 }
    ensures err { RunTakes (E.taken err.old) (E.taken err.new) (run_puts m.old result.1 2) (puts_of m.new 2) result.0 }
    ensures cause { result.0 ≡ Stop.SinkFault → FailsAt (puts_of m.new 1) (O.faults out.old) (O.faults out.new)
        ⊎ FailsAt (puts_of m.new 2) (E.faults err.old) (E.faults err.new) }
    ensures out_faults { O.faults out.old ≤ O.faults out.new }
    ensures err_faults { E.faults err.old ≤ E.faults err.new }
{
    if let Some(ending) = m.ending() {
        return (Stop::Ended(ending), 0);
    }
    let mut steps = 0;
    while steps < limit {
        steps = go_ahead(m, steps, limit);
        if let Some(ending) = m.ending() {
            return (Stop::Ended(ending), steps);
        }
        if steps == limit {
            return (Stop::Limit, limit);
        }
        match step(m, out, err) {
            StepOut::Went => steps += 1,
            StepOut::Ended(ending) => return (Stop::Ended(ending), steps + 1),
            StepOut::SinkFault => return (Stop::SinkFault, steps),
        }
    }
    (Stop::Limit, steps)
}

/// Makes steps that put nothing out, after so many, and tells how many they are with these.
fn go_ahead(m: &mut Machine, steps: u64, limit: u64) -> u64
    requires going { m.old.ending ≡ None }
    requires below { steps ≤ limit }
    ensures run { (s0 : State) → m.old ≡ run_of s0 steps → AreMade s0 steps → IsAhead s0 steps result m.new }
    ensures low { steps ≤ result }
    ensures high { result ≤ limit }
{
    steps + m.go(limit - steps)
}
