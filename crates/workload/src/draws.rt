//! The numbers by which the routines differ.
ghost use Rattle.std.specs.Prelude.{◌≡◌, ◌+◌, ◌^◌, ◌<◌, ◌≤◌};
ghost use Rattle.workload.specs.Generated.{stirred, drawn, routine_from};

/// A generator of numbers: a linear congruence modulo 2^32, whose upper halves are drawn.
#[derive(Drop)]
pub(crate) struct Draws {
    pub(crate) state: u32,
}

/// What differs between routines: how often the loop turns, and what each turn adds.
#[derive(Clone, Copy, Drop)]
pub(crate) struct Routine {
    pub(crate) turns: u32,
    pub(crate) amount: u32,
}

impl Draws {
    /// The next number.
    fn draw(&mut self) -> u32
        ensures number { result ≡ drawn self.old.state }
        ensures state { self.new.state ≡ stirred self.old.state }
    {
        self.state = self.state.wrapping_mul(1_103_515_245).wrapping_add(12_345);
        self.state >> 16
    }

    /// The next routine.
    pub(crate) fn routine(&mut self) -> Routine
        ensures routine { result ≡ routine_from self.old.state }
        ensures turns { result.turns ≤ 16 }
        ensures amount { result.amount < 64 }
        ensures state { self.new.state ≡ stirred (stirred self.old.state) }
    {
        let turns = 1 + self.draw() % 16;
        let amount = self.draw() % 64;
        Routine { turns, amount }
    }
}
