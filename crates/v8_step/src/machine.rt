//! The machine, and what all its instructions are made of.
ghost use Rattle.std.specs.Prelude.{◌≡◌, ◌<◌};
ghost use Rattle.v8_step.specs.Run.{first_state};
ghost use Rattle.v8_step.specs.State.{register_of, with_register, operand_of, sum_of};
ghost use Rattle.v8_step.specs.Transfers.{next, ended, trapped};

use crate::{Ending, Slot};
use eel_base::Addr;
use std::marker::Model;
use v8_alu::{Codes, Flags};
use v8_decode::{Op2, Reg};
use v8_memory::Memory;
use v8_windows::Windows;

/// A program that runs: its registers, its memory, and the input that it has still to read.
#[derive(Drop)]
pub struct Machine {
    pub(crate) pc: u32,
    pub(crate) npc: u32,
    pub(crate) slot: Slot,
    pub(crate) windows: Windows,
    pub(crate) flags: Flags,
    pub(crate) y: u32,
    pub(crate) memory: Memory,
    pub(crate) input: Vec<u8>,
    /// How many bytes of the input were read.
    pub(crate) read: usize,
    pub(crate) ending: Option<Ending>,
}

impl Model for Machine {
    ghost use Rattle.std.specs.Prelude.{ℕ, ◌≤◌, drop, length};
    ghost use Rattle.v8_step.specs.State.{State};

    ghost Value = { State };

    ghost view = { λ m. record {
      pc = m.pc;
      npc = m.npc;
      slot = m.slot;
      registers = m.windows.registers;
      window = m.windows.window;
      valid = m.windows.valid;
      codes = m.flags;
      y = m.y;
      memory = m.memory;
      input = drop m.read m.input.items;
      ending = m.ending;
    } };

    ghost invariant = { λ m. m.read ≤ length m.input.items };
}

impl Machine {
    /// A machine in which nothing has run: one window, zeros in all registers but %sp, and the whole input left.
    pub fn new(memory: Memory, entry: Addr, sp: u32, input: Vec<u8>) -> Machine
        ensures { result ≡ first_state memory entry.0 sp input.items }
    {
        let mut windows = Windows::new();
        windows.set(register(14), sp);
        Machine {
            pc: entry.0,
            npc: entry.0.wrapping_add(4),
            slot: Slot::NoSlot,
            windows,
            flags: Flags::new(Codes {
                n: false,
                z: false,
                v: false,
                c: false,
            }),
            y: 0,
            memory,
            input,
            read: 0,
            ending: None,
        }
    }

    /// The address of the instruction that is next.
    #[inline]
    pub fn pc(&self) -> Addr
        ensures { result.0 ≡ self.now.pc }
    {
        Addr(self.pc)
    }

    /// The address of the instruction after that one.
    #[inline]
    pub fn npc(&self) -> Addr
        ensures { result.0 ≡ self.now.npc }
    {
        Addr(self.npc)
    }

    /// What a register of the current window holds.
    #[inline]
    pub fn reg(&self, r: Reg) -> u32
        ensures { result ≡ register_of self.now r }
    {
        self.windows.get(r)
    }

    /// The integer condition codes.
    #[inline]
    pub fn codes(&self) -> Codes
        ensures { result ≡ self.now.codes }
    {
        self.flags.codes()
    }

    #[inline]
    pub fn y(&self) -> u32
        ensures { result ≡ self.now.y }
    {
        self.y
    }

    #[inline]
    pub fn memory(&self) -> &Memory
        ensures { result.now ≡ self.now.memory }
    {
        &self.memory
    }

    /// How the run has ended, where it has.
    #[inline]
    pub fn ending(&self) -> Option<Ending>
        ensures { result ≡ self.now.ending }
    {
        self.ending
    }

    #[inline]
    pub(crate) fn set(&mut self, r: Reg, value: u32)
        ensures { self.new ≡ with_register self.old r value }
    {
        self.windows.set(r, value);
    }

    #[inline]
    pub(crate) fn operand(&self, op2: Op2) -> u32
        ensures { result ≡ operand_of self.now op2 }
    {
        match op2 {
            Op2::Reg(r) => self.reg(r),
            Op2::Imm(n) => n.cast_unsigned(),
        }
    }

    /// The sum of rs1 and the second operand.
    #[inline]
    pub(crate) fn sum(&self, rs1: Reg, op2: Op2) -> u32
        ensures { result ≡ sum_of self.now rs1 op2 }
    {
        self.reg(rs1).wrapping_add(self.operand(op2))
    }

    /// Goes on to the next instruction in order.
    #[inline]
    pub(crate) fn go_on(&mut self)
        ensures { self.new ≡ next self.old }
    {
        self.pc = self.npc;
        self.npc = self.npc.wrapping_add(4);
        self.slot = Slot::NoSlot;
    }

    #[inline(never)]
    pub(crate) fn end(&mut self, ending: Ending)
        ensures { self.new ≡ ended self.old ending }
    {
        self.ending = Some(ending);
    }

    /// Ends with the trap of this type.
    #[inline(never)]
    pub(crate) fn trap(&mut self, number: u8)
        ensures { self.new ≡ trapped self.old number }
    {
        self.end(Ending::Trap(number));
    }
}

/// The register with this number.
#[inline]
pub(crate) fn register(number: u8) -> Reg
    requires { number < 32 }
    ensures { result ≡ number }
{
    Reg::new(number).unwrap()
}
