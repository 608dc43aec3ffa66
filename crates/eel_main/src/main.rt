//! EEL, an executable editor for SPARC V8, with the files and streams of the system.
#![tactic(auto)]

ghost use Rattle.std.specs.Prelude.{◌≡◌};
ghost use Rattle.eel_said.specs.Code.{outcome_seen};
ghost use Rattle.eel_main.specs.Refusal.{refusal_of};

use eel::{Outcome, run_words};
use eel_base::{RealFiles, StdSink, StdSource};
use std::process::ExitCode;
use std::{env, io};

/// Runs the program's words with the files and streams of the system.
fn run_command(rt: &HostRuntime) -> io::Result<u8> {
    let all: Vec<String> = env::args(rt)?.collect(rt.alloc())?;
    let mut files = RealFiles::new(rt);
    let mut input = StdSource::new(rt.stdin());
    let mut out = StdSink::new(rt.stdout());
    let mut err = StdSink::new(rt.stderr());
    let status = run_words(rt.alloc(), &all, &mut files, &mut input, &mut out, &mut err)?;
    Ok(status)
}

/// What came of a call whose words could not be had. A word that is no text is outside the grammar.
fn refusal(kind: io::ErrorKind) -> Outcome<'static>
    ensures { outcome_seen result ≡ refusal_of kind }
{
    match kind {
        io::ErrorKind::OutOfMemory => Outcome::OutOfMemory,
        _ => Outcome::BadWords,
    }
}

fn main(rt: HostRuntime) -> ExitCode {
    let status = match run_command(&rt) {
        Ok(status) => status,
        Err(fault) => refusal(fault.kind()).show(&mut StdSink::new(rt.stderr())),
    };
    ExitCode::from(status)
}
