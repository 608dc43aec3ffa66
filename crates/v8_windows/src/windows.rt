//! The register windows of a running program.
ghost use Rattle.std.specs.Prelude.{◌≡◌, ◌+◌, ◌-◌, ◌*◌, ◌<◌, ◌≤◌, ◌==◌, length, slice_index};
ghost use Rattle.v8_windows.specs.Private.{IsCopied};
ghost use Rattle.v8_windows.specs.Calls.{Moves, entered, filled_by, left, no_windows, oldest_address, oldest_words, registers_of_words, registers_seen};
ghost use Rattle.v8_windows.specs.Frames.{frame_of, frame_registers};
ghost use Rattle.v8_windows.specs.Registers.{place_of, register_in, register_set, window_after, window_before};

use eel_base::Addr;
use std::marker::Model;
use v8_decode::Reg;

/// No window is left to enter: the oldest must be saved first.
#[derive(Clone, Copy)]
pub struct MustSpill;

/// The window to go back to is in memory: it must be loaded first.
#[derive(Clone, Copy)]
pub struct MustFill;

/// The integer registers: the globals and eight windows, of which one is current. It and those after it
/// are valid, one to seven in all; the others' registers are in memory (section 4.1).
#[derive(Drop)]
pub struct Windows {
    /// The registers of the current window, as instructions name them.
    current: [u32; 32],
    /// All registers. Those of the current window are stale here.
    others: [u32; 136],
    window: u8,
    valid: u8,
}

impl Model for Windows {
    ghost use Rattle.std.specs.Prelude.{◌≡◌, ◌<◌, ◌≤◌, slice_index};
    ghost use Rattle.v8_windows.specs.Calls.{WindowState, registers_seen};

    ghost Value = { WindowState };

    ghost view = { λ w. record { registers = registers_seen w.current w.others w.window; window = w.window; valid = w.valid } };

    ghost invariant = { λ w. (w.window < 8) × (1 ≤ w.valid) × (w.valid ≤ 7) × (slice_index w.current 0 ≡ 0) };
}

impl Windows {
    /// All registers zero, and one window valid.
    #[tactic(auto, using(crate::proofs::Seen::zeros_seen))]
    pub fn new() -> Windows
        ensures { result ≡ no_windows }
    {
        Windows {
            current: [0; 32],
            others: [0; 136],
            window: 0,
            valid: 1,
        }
    }

    /// What a register of the current window holds; %g0 reads as 0.
    #[inline(always)]
    #[tactic(auto, using(crate::proofs::Seen::register_seen))]
    pub fn get(&self, r: Reg) -> u32
        ensures { result ≡ register_in self.now.registers self.now.window r }
    {
        self.current[r.number() as usize]
    }

    /// Writes a register of the current window; a write to %g0 is dropped.
    #[inline(always)]
    #[tactic(auto, using(crate::proofs::Seen::set_seen))]
    pub fn set(&mut self, r: Reg, v: u32)
        ensures { self.new ≡ record self.old { registers = register_set self.old.registers self.old.window r v } }
    {
        if r.number() != 0 {
            self.current[r.number() as usize] = v;
        }
    }

    /// Goes to the window before (SAVE, section B.20).
    #[inline]
    pub fn enter(&mut self) -> Result<(), MustSpill>
        ensures { Moves (self.old.valid == 7) self.old (entered self.old) self.new result }
    {
        if self.valid == 7 {
            return Err(MustSpill);
        }
        go_before(&mut self.current, &mut self.others, self.window);
        self.window = (self.window + 7) % 8;
        self.valid += 1;
        Ok(())
    }

    /// Goes back to the window after (RESTORE, section B.20).
    #[inline]
    pub fn leave(&mut self) -> Result<(), MustFill>
        ensures { Moves (self.old.valid == 1) self.old (left self.old) self.new result }
    {
        if self.valid == 1 {
            return Err(MustFill);
        }
        go_after(&mut self.current, &mut self.others, self.window);
        self.window = (self.window + 1) % 8;
        self.valid -= 1;
        Ok(())
    }

    /// How many windows are valid.
    #[inline]
    pub fn valid(&self) -> u8
        ensures count { result ≡ self.now.valid }
        ensures some { 1 ≤ self.now.valid }
        ensures few { self.now.valid ≤ 7 }
    {
        self.valid
    }

    /// The address at which the oldest valid window is to be saved, its own %sp, and the words of its frame.
    pub fn oldest(&self) -> (Addr, [u32; 16])
        ensures address { result.0.0 ≡ oldest_address self.now }
        ensures words { result.1 ≡ oldest_words self.now }
    {
        let mut registers = self.others;
        put_away(&self.current, &mut registers, self.window);
        let window = (self.window + self.valid - 1) % 8;
        let stack_pointer = registers[place(window, 14)];
        (Addr(stack_pointer), frame(&registers, window))
    }

    /// Says that the oldest window was saved, so that it is not valid any more.
    pub fn spilled(&mut self)
        requires { 1 < self.old.valid }
        ensures { self.new ≡ record self.old { valid = self.old.valid - 1 } }
    {
        self.valid -= 1;
    }

    /// Loads the window after the current one from the words of its frame.
    pub fn filled(&mut self, words: [u32; 16])
        requires { self.old.valid ≡ 1 }
        ensures { self.new ≡ filled_by self.old words }
    {
        put_away(&self.current, &mut self.others, self.window);
        load_frame(&mut self.others, (self.window + 1) % 8, &words);
        bring(&mut self.current, &self.others, self.window);
        self.valid = 2;
    }
}

// Goes to the window before. The outs become its ins, and the globals stay.
#[inline(always)]
fn go_before(current: &mut [u32; 32], others: &mut [u32; 136], window: u8)
    requires { window < 8 }
    ensures all { registers_seen current.new others.new (window_before window) ≡ registers_seen current.old others.old window }
    ensures zero { slice_index current.new 0 ≡ slice_index current.old 0 }
{
    copy(others, outs_at(window) + 8, current, 16, 8);
    copy(others, outs_at((window + 1) % 8), current, 24, 8);
    shift(current, 24, 8);
    copy(current, 8, others, outs_at((window + 7) % 8), 16);
}

// Goes to the window after. The ins become its outs, and the globals stay.
#[inline(always)]
fn go_after(current: &mut [u32; 32], others: &mut [u32; 136], window: u8)
    requires { window < 8 }
    ensures all { registers_seen current.new others.new (window_after window) ≡ registers_seen current.old others.old window }
    ensures zero { slice_index current.new 0 ≡ slice_index current.old 0 }
{
    copy(others, outs_at(window), current, 8, 16);
    shift(current, 8, 24);
    copy(current, 16, others, outs_at((window + 1) % 8) + 8, 8);
    copy(current, 24, others, outs_at((window + 2) % 8), 8);
}

// Writes the registers of a window where all registers stand.
#[inline(always)]
fn put_away(current: &[u32; 32], registers: &mut [u32; 136], window: u8)
    requires { window < 8 }
    ensures all { registers.new ≡ registers_seen current.now registers.old window }
    ensures zero { slice_index registers.new 0 ≡ slice_index current.now 0 }
{
    copy(registers, 0, current, 0, 8);
    copy(registers, outs_at(window), current, 8, 16);
    copy(registers, outs_at((window + 1) % 8), current, 24, 8);
}

// Reads the registers of a window.
#[inline(always)]
fn bring(current: &mut [u32; 32], registers: &[u32; 136], window: u8)
    requires { window < 8 }
    ensures all { registers_seen current.new registers.now window ≡ registers.now }
    ensures zero { slice_index current.new 0 ≡ slice_index registers.now 0 }
{
    copy(current, 0, registers, 0, 8);
    copy(current, 8, registers, outs_at(window), 16);
    copy(current, 24, registers, outs_at((window + 1) % 8), 8);
}

// Where the outs of a window stand, and its locals after them.
#[inline(always)]
fn outs_at(window: u8) -> usize
    requires { window < 8 }
    ensures { result ≡ 8 + 16 * window }
{
    8 + 16 * window as usize
}

// Copies so many words.
#[inline(always)]
fn copy(to: &mut [u32], at: usize, words: &[u32], start: usize, count: usize)
    requires to { at + count ≤ length to.old }
    requires words { start + count ≤ length words.now }
    ensures copied { IsCopied at start count words.now to.old to.new }
    ensures len { length to.new ≡ length to.old }
{
    to[at..at + count].copy_from_slice(&words[start..start + count]);
}

// Copies eight words to another place among the registers of a window.
#[inline(always)]
#[tactic(auto, using(crate::proofs::Seen::copied_through))]
fn shift(current: &mut [u32; 32], at: usize, start: usize)
    requires to { at + 8 ≤ 32 }
    requires words { start + 8 ≤ 32 }
    ensures { IsCopied at start 8 current.old current.old current.new }
{
    let mut words = [0; 8];
    copy(&mut words, 0, current, start, 8);
    copy(current, at, &words, 0, 8);
}

// Where the list has a register of a window.
#[inline]
fn place(window: u8, r: u8) -> usize
    requires window { window < 8 }
    requires register { r < 32 }
    ensures place { result ≡ place_of window r }
    ensures range { result < 136 }
{
    if r < 8 {
        r as usize
    } else {
        8 + (16 * window as usize + (r as usize - 8)) % 128
    }
}

// The locals and ins of a window.
fn frame(registers: &[u32; 136], window: u8) -> [u32; 16]
    requires { window < 8 }
    ensures { result ≡ frame_of registers.now window }
{
    let mut words = [0; 16];
    for i in 0..16 {
        words[i as usize] = registers[place(window, 16 + i)];
    }
    words
}

// Writes the locals and ins of a window.
fn load_frame(registers: &mut [u32; 136], window: u8, words: &[u32; 16])
    requires { window < 8 }
    ensures frame { registers.new ≡ registers_of_words registers.old window frame_registers words.now }
    ensures zero { slice_index registers.new 0 ≡ slice_index registers.old 0 }
{
    for i in 0..16 {
        registers[place(window, 16 + i)] = words[i as usize];
    }
}
