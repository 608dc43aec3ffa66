//! Registers to work in: dead ones first, and as few others as can be, which must be spilled.
#![tactic(auto)]

ghost use Rattle.std.specs.Prelude.{◌≡◌, ◌≤◌, ◌<◌, ◌&&◌, not, filter, length, take};
ghost use Rattle.v8_decode.specs.declared.Part.{Part};
ghost use Rattle.scavenge.specs.Code.{ArePicked, is_free_live, picked, register_count};
ghost use Rattle.scavenge.specs.Picks.{free_dead, is_free_dead, spills};

use v8_decode::{Part, Reg, RegSet};

/// Registers to work in: the first `count` of `regs`. The last `spills` of these must be spilled, the others are dead.
#[derive(Clone, Copy, Drop)]
pub struct Picked {
    pub regs: [Reg; 5],
    pub count: u8,
    pub spills: u8,
}

/// Picks so many registers, none of them %g0 or one to avoid, and none that isn't dead as long as there are dead ones.
pub fn pick(dead: RegSet, avoid: RegSet, want: u8) -> Picked
    requires want { want ≤ 5 }
    requires avoid { register_count avoid ≤ 8 }
    ensures count { result.count ≡ want }
    ensures regs { take result.count result.regs ≡ picked dead avoid want }
    ensures spills { result.spills ≡ spills dead avoid want }
    ensures picked { ArePicked dead avoid want (take result.count result.regs) result.spills }
{
    Picked {
        regs: regs_of(dead, avoid, want),
        count: want,
        spills: want.saturating_sub(count_dead(dead, avoid)),
    }
}

// The register with this number.
fn register(number: u8) -> Reg
    requires { number < 32 }
    ensures { result ≡ number }
{
    match Reg::new(number) {
        Some(reg) => reg,
        None => unreachable!(),
    }
}

// Whether it is dead, and not to be avoided.
fn is_free_dead(dead: RegSet, avoid: RegSet, number: u8) -> bool
    requires { number < 32 }
    ensures { result ≡ is_free_dead dead avoid number }
{
    let reg = register(number);
    dead.has(Part::Reg(reg)) && !avoid.has(Part::Reg(reg))
}

// Whether it is neither dead nor to be avoided.
fn is_free_live(dead: RegSet, avoid: RegSet, number: u8) -> bool
    requires { number < 32 }
    ensures { result ≡ is_free_live dead avoid number }
{
    let reg = register(number);
    !dead.has(Part::Reg(reg)) && !avoid.has(Part::Reg(reg))
}

#[tactic(auto, unfolding(crate::specs::Picks::registers))]
fn count_dead(dead: RegSet, avoid: RegSet) -> u8
    ensures { result ≡ length (free_dead dead avoid) }
{
    (1..32)
        .filter(|number| is_free_dead(dead, avoid, *number))
        .count() as u8
}

// The picked registers, before others that stand for none.
#[tactic(auto, unfolding(crate::specs::Picks::registers))]
fn regs_of(dead: RegSet, avoid: RegSet, want: u8) -> [Reg; 5]
    requires want { want ≤ 5 }
    requires avoid { register_count avoid ≤ 8 }
    ensures { take want result ≡ picked dead avoid want }
{
    let mut regs = [register(0); 5];
    let mut found = 0;
    let dead_ones = (1..32).filter(|number| is_free_dead(dead, avoid, *number));
    let live_ones = (1..32).filter(|number| is_free_live(dead, avoid, *number));
    for number in dead_ones.chain(live_ones).take(usize::from(want)) {
        regs[found] = register(number);
        found += 1;
    }
    regs
}
