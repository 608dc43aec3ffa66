//! A run of a small program, which writes "hello" to descriptor 1 and exits with 3, to a sink that fails and then
//! to one that doesn't.
use crate::machines::{G1, HELLO, O0, O2, POINT, SYSTEM, machine};
use eel_base::{Addr, MemSink};
use std::alloc::Global;
use std::test::Fail;
use v8_runner::{RunEnd, Stop, run};
use v8_step::{Ending, Machine};

/// write(1, 0x20000, 5) and exit(3)
const PROGRAM: [u32; 8] = [
    G1 + 4,
    O0 + 1,
    POINT,
    O2 + 5,
    SYSTEM,
    G1 + 1,
    O0 + 3,
    SYSTEM,
];

/// Runs the machine with so much room for its output, and gives that too.
fn run_into(alloc: Global, m: &mut Machine, room: usize) -> Result<(RunEnd, MemSink), Fail> {
    let mut out = MemSink::new(alloc, room, Vec::new(alloc))?;
    let mut err = MemSink::new(alloc, 0, Vec::new(alloc))?;
    let end = run(m, 100, &mut out, &mut err);
    Ok((end, out))
}

/// A run that stopped so.
fn stopped(stop: Stop, steps: u64, pc: u32) -> RunEnd {
    RunEnd {
        stop,
        steps,
        pc: Addr(pc),
    }
}

#[test]
fn a_run_stops_before_the_step_of_a_failed_sink(rt: HostRuntime) -> Result<(), Fail> {
    let alloc = rt.alloc();
    let mut m = machine(alloc, &PROGRAM, &HELLO, b"")?;
    let (end, out) = run_into(alloc, &mut m, 3)?;
    assert_eq!(rt; end, stopped(Stop::SinkFault, 4, 0x10010));
    assert_eq!(rt; out.bytes(), b"hel".as_slice());
    let (end, out) = run_into(alloc, &mut m, 16)?;
    assert_eq!(rt; end, stopped(Stop::Ended(Ending::Exit(3)), 4, 0x1001c));
    assert_eq!(rt; out.bytes(), b"hello".as_slice());
    Ok(())
}
