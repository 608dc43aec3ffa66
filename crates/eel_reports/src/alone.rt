//! Runs of files without arguments and input.
ghost use Rattle.std.specs.Prelude.{◌≡◌, ◌<◌, ◌^◌, [], IfOk, None, Some};
ghost use Rattle.elf32_sparc.specs.FileFault.{load_fault};
ghost use Rattle.v8_step.specs.Run.{run as run_of};
ghost use Rattle.v8_runner.specs.Made.{AreMade};
ghost use Rattle.eel_reports.specs.Answers.Demo.{EndsAlone, alone};
ghost use Rattle.eel_reports.specs.Tame.{EndsWithin, IsTame};

use eel_base::{NoMemory, NullSink};
use std::alloc::Global;
use v8_process::{LoadFault, load};
use v8_runner::{Stop, run};
use v8_step::{Ending, Machine};

/// How many steps a run makes at most.
const STEP_LIMIT: u64 = 1 << 40;

/// How a run ended, and after how many steps.
#[derive(Clone, Copy)]
pub struct End {
    pub ending: Ending,
    pub steps: u64,
}

/// How the run of a file ends.
pub fn run_alone(alloc: Global, original: &[u8]) -> Result<End, NoMemory>
    requires { IsTame original.now }
    ensures { IfOk result (λ end. EndsAlone original.now end.ending end.steps) }
{
    let mut machine = start_alone(alloc, original)?;
    Ok(run_to_end(&mut machine))
}

/// The machine that is about to run a file, without arguments and input.
pub fn start_alone(alloc: Global, file: &[u8]) -> Result<Machine, NoMemory>
    requires { load_fault file.now ≡ None }
    ensures { IfOk result (λ machine. machine ≡ alone file.now) }
{
    match load(alloc, file, &[], Vec::new(alloc)) {
        Ok(machine) => Ok(machine),
        Err(LoadFault::NoMemory) => Err(NoMemory),
        Err(LoadFault::File(_)) => unreachable!(),
    }
}

/// Runs a machine that ends soon enough. What it puts out goes nowhere.
pub fn run_to_end(machine: &mut Machine) -> End
    requires { EndsWithin machine.now (2 ^ 32) }
    ensures state { machine.new ≡ run_of machine.old result.steps }
    ensures made { AreMade machine.old result.steps }
    ensures ends { machine.new.ending ≡ Some result.ending }
{
    let end = run(
        machine,
        STEP_LIMIT,
        &mut NullSink::new(),
        &mut NullSink::new(),
    );
    match end.stop {
        Stop::Ended(ending) => End {
            ending,
            steps: end.steps,
        },
        _ => unreachable!(),
    }
}
