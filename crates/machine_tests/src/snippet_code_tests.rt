//! The code of snippets, run on a machine, and the registers that are picked for it.
ghost use Rattle.snippet_code.specs.Laws.{EndsLow};

use crate::machines::{DATA, machine, register, word_at};
use eel_base::{Addr, NullSink};
use scavenge::pick;
use snippet_code::expand;
use snippets::{Op, Snippet};
use std::alloc::Global;
use std::test::Fail;
use v8_decode::{Part, RegSet};
use v8_runner::run;

/// %g1 and %g2.
fn two_registers() -> Result<RegSet, Fail> {
    let first = RegSet::empty().with(Part::Reg(register(1)?));
    Ok(first.with(Part::Reg(register(2)?)))
}

/// The words of one operation.
fn words_of(alloc: Global, op: Op, dead: RegSet) -> Result<Vec<u32>, Fail>
    requires { EndsLow 0x20000 op }
{
    let mut snippet = Snippet::empty();
    if !snippet.push(op) {
        return Err(Fail::from("room"));
    }
    let names = snippet.names();
    Ok(expand(alloc, &snippet, DATA, dead, names)?)
}

/// How many words an operation has, and what a run of them makes of the first five cells, where the first ones are
/// these.
fn outcome(alloc: Global, op: Op, dead: RegSet, cells: &[u32]) -> Result<(usize, [u32; 5]), Fail>
    requires { EndsLow 0x20000 op }
{
    let words = words_of(alloc, op, dead)?;
    let mut machine = machine(alloc, &words, cells, b"")?;
    run(
        &mut machine,
        words.len() as u64,
        &mut NullSink,
        &mut NullSink,
    );
    let mut after = [0; 5];
    for i in 0..5 {
        after[i] = word_at(&machine, Addr(DATA.0 + 4 * i as u32))?;
    }
    Ok((words.len(), after))
}

#[test]
fn seven_becomes_eight(rt: HostRuntime) -> Result<(), Fail> {
    let op = Op::Add { cell: 0, amount: 1 };
    let spilled = outcome(rt.alloc(), op, RegSet::empty(), &[7])?;
    assert_eq!(rt; spilled, (8, [8, 0, 0, 0, 0]));
    let short = outcome(rt.alloc(), op, two_registers()?, &[7])?;
    assert_eq!(rt; short, (4, [8, 0, 0, 0, 0]));
    Ok(())
}

#[test]
fn a_counter_carries(rt: HostRuntime) -> Result<(), Fail> {
    let op = Op::Count { cell: 0 };
    let cells = [0, 4294967295];
    let spilled = outcome(rt.alloc(), op, RegSet::empty(), &cells)?;
    assert_eq!(rt; spilled, (15, [1, 0, 0, 0, 0]));
    let dead = two_registers()?.with(Part::Icc);
    let short = outcome(rt.alloc(), op, dead, &cells)?;
    assert_eq!(rt; short, (7, [1, 0, 0, 0, 0]));
    Ok(())
}

#[test]
fn the_last_place_of_a_ring_is_next(rt: HostRuntime) -> Result<(), Fail> {
    let op = Op::Log {
        cell: 0,
        bits: 2,
        value: 9,
    };
    let logged = outcome(rt.alloc(), op, RegSet::empty(), &[7, 1, 2, 3, 4])?;
    assert_eq!(rt; logged, (16, [8, 1, 2, 3, 9]));
    Ok(())
}

#[test]
fn the_greater_takes_21_words(rt: HostRuntime) -> Result<(), Fail> {
    let reg = register(2)?;
    let op = Op::Top { cell: 1, reg };
    assert_eq!(rt; words_of(rt.alloc(), op, RegSet::empty())?.len(), 21);
    Ok(())
}

#[test]
fn dead_registers_come_first(rt: HostRuntime) -> Result<(), Fail> {
    let dead = RegSet::empty().with(Part::Reg(register(3)?));
    let picked = pick(dead, RegSet::empty(), 2);
    assert_eq!(rt; picked.regs[0].number(), 3);
    assert_eq!(rt; picked.regs[1].number(), 1);
    assert_eq!(rt; picked.spills, 1);
    Ok(())
}
