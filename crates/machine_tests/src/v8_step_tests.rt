//! The machine, one step at a time: values worked out by hand.
use crate::machines::{
    CODE, DATA, G1, HELLO, O0, O2, POINT, STACK, SYSTEM, machine, register, word_at,
};
use eel_base::{Addr, MemSink, NoMemory};
use std::alloc::Global;
use std::test::Fail;
use v8_alu::Codes;
use v8_step::{Ending, Machine, StepOut, step};

/// A sink for so many bytes.
fn sink(alloc: Global, room: usize) -> Result<MemSink, NoMemory> {
    MemSink::new(alloc, room, Vec::new(alloc))
}

/// What there is to see of a run: its machine, whether a sink failed in the last step, and what each took.
#[derive(Clone, Copy, PartialEq)]
struct Seen<'a> {
    has_failed: bool,
    pc: Addr,
    npc: Addr,
    sp: u32,
    o0: u32,
    o1: u32,
    codes: Codes,
    y: u32,
    /// The word at `DATA`.
    word: u32,
    ending: Option<Ending>,
    out: &'a [u8],
    err: &'a [u8],
}

const CLEAR: Codes = Codes {
    n: false,
    z: false,
    v: false,
    c: false,
};

/// What is seen before the first step.
const FIRST: Seen = Seen {
    has_failed: false,
    pc: CODE,
    npc: Addr(0x10004),
    sp: STACK,
    o0: 0,
    o1: 0,
    codes: CLEAR,
    y: 0,
    word: 0x6865_6c6c,
    ending: None,
    out: b"",
    err: b"",
};

/// A machine that makes steps, with its sinks.
#[derive(Drop)]
struct Run {
    machine: Machine,
    out: MemSink,
    err: MemSink,
    last: StepOut,
}

impl Run {
    /// No steps of these words yet, with so much room in each sink.
    fn new(alloc: Global, words: &[u32], input: &[u8], room: usize) -> Result<Run, Fail> {
        Ok(Run {
            machine: machine(alloc, words, &HELLO, input)?,
            out: sink(alloc, room)?,
            err: sink(alloc, room)?,
            last: StepOut::Went,
        })
    }

    fn steps(&mut self, count: u32) {
        for _ in 0..count {
            self.last = step(&mut self.machine, &mut self.out, &mut self.err);
        }
    }

    /// What a register of the current window holds.
    fn reg(&self, number: u8) -> Result<u32, Fail> {
        Ok(self.machine.reg(register(number)?))
    }

    fn is(&self, wanted: Seen) -> Result<bool, Fail> {
        let m = &self.machine;
        let seen = Seen {
            has_failed: matches!(self.last, StepOut::SinkFault),
            pc: m.pc(),
            npc: m.npc(),
            sp: self.reg(14)?,
            o0: self.reg(8)?,
            o1: self.reg(9)?,
            codes: m.codes(),
            y: m.y(),
            word: word_at(m, DATA)?,
            ending: m.ending(),
            out: self.out.bytes(),
            err: self.err.bytes(),
        };
        Ok(seen == wanted)
    }
}

/// Reads up to two bytes, again, and then from descriptor 1.
const READS: [u32; 8] = [G1 + 3, O0, POINT, O2 + 2, SYSTEM, O0, SYSTEM, SYSTEM];

/// Writes "hello" to descriptor 1.
const WRITE: [u32; 5] = [G1 + 4, POINT, O2 + 5, O0 + 1, SYSTEM];

/// What is seen of READS after the first read.
const READ_TWO: Seen = Seen {
    pc: Addr(0x10014),
    npc: Addr(0x10018),
    o0: 2,
    o1: 0x20000,
    word: 0x6162_6c6c,
    ..FIRST
};

/// What is seen of READS after the second read.
const READ_ONE: Seen = Seen {
    pc: Addr(0x1001c),
    npc: Addr(0x10020),
    o0: 1,
    word: 0x6362_6c6c,
    ..READ_TWO
};

/// What is seen of READS at the end. The read of descriptor 1 fails.
const READ_NONE: Seen = Seen {
    pc: Addr(0x10020),
    npc: Addr(0x10024),
    o0: 9,
    codes: Codes { c: true, ..CLEAR },
    ..READ_ONE
};

#[test]
fn reads_take_the_input(rt: HostRuntime) -> Result<(), Fail> {
    let mut run = Run::new(rt.alloc(), &READS, b"abc", 0)?;
    run.steps(5);
    assert!(rt; run.is(READ_TWO)?);
    run.steps(2);
    assert!(rt; run.is(READ_ONE)?);
    run.steps(1);
    assert!(rt; run.is(READ_NONE)?);
    Ok(())
}

/// What is seen of WRITE where the sink has room for three bytes.
const FAULT: Seen = Seen {
    has_failed: true,
    pc: Addr(0x10010),
    npc: Addr(0x10014),
    o0: 1,
    o1: 0x20000,
    out: b"hel",
    ..FIRST
};

/// What is seen of WRITE after its write.
const WROTE: Seen = Seen {
    pc: Addr(0x10014),
    npc: Addr(0x10018),
    o0: 5,
    o1: 0x20000,
    out: b"hello",
    ..FIRST
};

#[test]
fn a_step_whose_sink_fails_is_not_made(rt: HostRuntime) -> Result<(), Fail> {
    let mut run = Run::new(rt.alloc(), &WRITE, b"", 3)?;
    run.steps(5);
    assert!(rt; run.is(FAULT)?);
    run.out = sink(rt.alloc(), 16)?;
    run.steps(1);
    assert!(rt; run.is(WROTE)?);
    Ok(())
}
