//! Runs the programs whose files are named by its arguments, each on an input of its own, and prints what
//! comes of each: how it ends, after how many steps, and what it puts out. Those that are named after the word
//! `show` it lists instead, and those after the word `session` are scripts of calls of the editor. The word
//! `faults` has it print the faults of a file.
#![tactic(auto)]

mod editor;
mod faults;
mod job;
mod report;
mod session;
mod stops;
mod walk;

use eel_base::{Files, RealFiles};
use faults::print_faults;
use job::{Job, Refusal};
use report::Report;
use session::{play, read_script};
use std::alloc::Global;
use std::io::Write;
use std::{env, io};
use stops::print_stops;

/// How many steps a program may make.
const STEP_LIMIT: u64 = 200_000_000;

/// Runs the program, and then again with one step less.
fn report_on(alloc: Global, files: &mut impl Files, name: &str) -> Result<Report, Refusal> {
    let job = Job::read(alloc, files, name)?;
    let whole = job.run(alloc, STEP_LIMIT)?;
    let shorter = job.run(alloc, whole.end.steps.saturating_sub(1))?;
    Ok(Report { whole, shorter })
}

fn print_run(rt: &HostRuntime, files: &mut impl Files, name: &str) -> io::Result<()> {
    print!(rt; "{name}: ")?;
    match report_on(rt.alloc(), files, name) {
        Ok(report) => report.print(rt),
        Err(refusal) => println!(rt; "{refusal}"),
    }
}

fn print_listing(rt: &HostRuntime, files: &mut impl Files, name: &str) -> io::Result<()> {
    println!(rt; "{name}:")?;
    match Job::read(rt.alloc(), files, name).and_then(|job| job.listing(rt.alloc())) {
        Ok(lines) => io::writer(rt).write_all(&lines),
        Err(refusal) => println!(rt; "{refusal}"),
    }
}

/// Prints each line of the script that is a call, and what comes of it.
fn print_session(rt: &HostRuntime, folder: &mut impl Files, name: &str) -> io::Result<()> {
    println!(rt; "{name}:")?;
    match read_script(rt.alloc(), folder, name) {
        Ok(script) => play(rt, folder, &script),
        Err(refusal) => println!(rt; "{refusal}"),
    }
}

/// What is done with the files that are named.
#[derive(Clone, Copy)]
enum Mode {
    Run,
    Show,
    Session,
    Stops,
}

fn print_file(rt: &HostRuntime, files: &mut impl Files, mode: Mode, name: &str) -> io::Result<()> {
    match mode {
        Mode::Run => print_run(rt, files, name),
        Mode::Show => print_listing(rt, files, name),
        Mode::Session => print_session(rt, files, name),
        Mode::Stops => print_stops(rt, files, name),
    }
}

fn main(rt: HostRuntime) -> io::Result<()> {
    let mut files = RealFiles::new(&rt);
    let mut mode = Mode::Run;
    for word in env::args(&rt)?.skip(1) {
        match word.as_str() {
            "show" => mode = Mode::Show,
            "session" => mode = Mode::Session,
            "faults" => print_faults(&rt)?,
            "stops" => mode = Mode::Stops,
            name => print_file(&rt, &mut files, mode, name)?,
        }
    }
    Ok(())
}
