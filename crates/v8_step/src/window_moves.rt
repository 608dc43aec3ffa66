//! SAVE and RESTORE, and the windows that they save and load.
ghost use Rattle.v8_alu.specs.Numbers.{wrapped};
ghost use Rattle.v8_step.specs.Ahead.{placed};
ghost use Rattle.std.specs.Prelude.{ℕ, true, false, ◌≡◌, ◌+◌, ◌-◌, ◌<◌, ◌≤◌, length, take, drop};
ghost use Rattle.std.specs.Int.{w32, to_be_bytes, from_be_bytes};
ghost use Rattle.std.specs.List.{flat_map};
ghost use Rattle.std.specs.Option.{option_map};
ghost use Rattle.v8_memory.specs.Calls.{Fills as Written};
ghost use Rattle.v8_windows.specs.Calls.{frame_words as words_of_frame};
ghost use Rattle.v8_windows.specs.Frames.{frame_pointer};
ghost use Rattle.v8_step.specs.declared.Slot.TheVariants.{NoSlot};
ghost use Rattle.v8_step.specs.declared.Slot.{Slot};
ghost use Rattle.v8_step.specs.State.{register_of};
ghost use Rattle.v8_step.specs.WindowMoves.{frame_read, frame_written, saved_memory, enter, leave, spill_many, save_step, restore_step};
ghost use Rattle.v8_step.specs.Private.{Fills, Spills};

use crate::Ending;
use crate::machine::{Machine, register};
use eel_base::Addr;
use v8_decode::Reg;
use v8_memory::Memory;

/// How many windows can be valid.
const MOST_VALID: u8 = 7;

/// The number of %fp.
const FRAME_POINTER: u8 = 30;

/// How many bytes a frame has, and to what it is aligned.
const FRAME_SIZE: u32 = 64;

const FRAME_ALIGN: u32 = 8;

impl Machine {
    /// SAVE: `value` goes to rd of the window before.
    #[inline(never)]
    #[tactic(auto, unfolding(crate::specs::WindowMoves::save_step))]
    pub(crate) fn save(&mut self, rd: Reg, value: u32)
        ensures { self.new ≡ save_step self.old rd value }
    {
        if self.windows.valid() < MOST_VALID || self.spill() {
            self.enter(rd, value);
        } else {
            self.end(Ending::Window);
        }
    }

    /// RESTORE: `value` goes to rd of the window after.
    #[inline(never)]
    #[tactic(auto, unfolding(crate::specs::WindowMoves::restore_step))]
    pub(crate) fn restore(&mut self, rd: Reg, value: u32)
        ensures { self.new ≡ restore_step self.old rd value }
    {
        if self.windows.valid() > 1 || self.fill() {
            self.leave(rd, value);
        } else {
            self.end(Ending::Window);
        }
    }

    /// Goes to the window before, and writes rd there.
    #[inline]
    fn enter(&mut self, rd: Reg, value: u32)
        requires { self.old.valid < 7 }
        ensures { self.new ≡ enter rd value self.old }
    {
        let _ = self.windows.enter();
        self.set(rd, value);
        self.go_on();
    }

    /// Goes to the window after, and writes rd there.
    #[inline]
    fn leave(&mut self, rd: Reg, value: u32)
        requires { 1 < self.old.valid }
        ensures { self.new ≡ leave rd value self.old }
    {
        let _ = self.windows.leave();
        self.set(rd, value);
        self.go_on();
    }

    /// SAVE, but for pc and npc. It tells whether it is made; else nothing changes.
    #[inline(never)]
    #[tactic(auto, unfolding(crate::specs::WindowMoves::save_step))]
    pub(crate) fn save_in_order(&mut self, rd: Reg, value: u32) -> bool
        ensures goes { result ≡ true → (pc npc : ℕ) (slot : Slot) → save_step (placed self.old pc npc slot) rd value ≡ placed self.new npc (wrapped (npc + 4)) NoSlot }
        ensures stays { result ≡ false → self.new ≡ self.old }
        ensures going { self.new.ending ≡ self.old.ending }
    {
        if self.windows.valid() >= MOST_VALID {
            return self.save_behind_spill(rd, value);
        }
        let _ = self.windows.enter();
        self.set(rd, value);
        true
    }

    /// SAVE where the oldest window must be saved first; what pc, npc and the slot become doesn't matter.
    fn save_behind_spill(&mut self, rd: Reg, value: u32) -> bool
        requires { self.old.valid ≡ 7 }
        ensures goes { result ≡ true → (pc npc : ℕ) (slot : Slot) → save_step (placed self.old pc npc slot) rd value ≡ placed self.new npc (wrapped (npc + 4)) NoSlot }
        ensures stays { result ≡ false → self.new ≡ self.old }
        ensures going { self.new.ending ≡ self.old.ending }
    {
        if self.spill() {
            self.enter(rd, value);
            true
        } else {
            false
        }
    }

    /// RESTORE, but for pc and npc. It tells whether it is made; else nothing changes.
    #[inline(never)]
    #[tactic(auto, unfolding(crate::specs::WindowMoves::restore_step))]
    pub(crate) fn restore_in_order(&mut self, rd: Reg, value: u32) -> bool
        ensures goes { result ≡ true → (pc npc : ℕ) (slot : Slot) → restore_step (placed self.old pc npc slot) rd value ≡ placed self.new npc (wrapped (npc + 4)) NoSlot }
        ensures stays { result ≡ false → self.new ≡ self.old }
        ensures going { self.new.ending ≡ self.old.ending }
    {
        if self.windows.valid() <= 1 {
            return self.restore_behind_fill(rd, value);
        }
        let _ = self.windows.leave();
        self.set(rd, value);
        true
    }

    /// RESTORE where the window after must be loaded first; what pc, npc and the slot become doesn't matter.
    fn restore_behind_fill(&mut self, rd: Reg, value: u32) -> bool
        requires { self.old.valid ≡ 1 }
        ensures goes { result ≡ true → (pc npc : ℕ) (slot : Slot) → restore_step (placed self.old pc npc slot) rd value ≡ placed self.new npc (wrapped (npc + 4)) NoSlot }
        ensures stays { result ≡ false → self.new ≡ self.old }
        ensures going { self.new.ending ≡ self.old.ending }
    {
        if self.fill() {
            self.leave(rd, value);
            true
        } else {
            false
        }
    }

    /// Saves all windows but the current one, the oldest first.
    pub(crate) fn flush(&mut self)
        ensures { self.new ≡ spill_many (self.old.valid - 1) self.old }
    {
        while self.windows.valid() > 1 {
            if !self.spill() {
                self.end(Ending::Window);
                return;
            }
        }
        self.go_on();
    }

    /// Saves the oldest window to its own stack, and tells whether that could be done.
    fn spill(&mut self) -> bool
        requires { 1 < self.old.valid }
        ensures { Spills (saved_memory self.old) self.old self.new result }
    {
        let (address, words) = self.windows.oldest();
        let saved = write_frame(&mut self.memory, address, &words);
        if saved {
            self.windows.spilled();
        }
        saved
    }

    /// Loads the window after the current one from %fp, and tells whether that could be done.
    fn fill(&mut self) -> bool
        requires { self.old.valid ≡ 1 }
        ensures { Fills (frame_read self.old.memory (register_of self.old frame_pointer)) self.old self.new result }
    {
        let address = self.reg(register(FRAME_POINTER));
        match read_frame(&self.memory, Addr(address)) {
            Some(words) => {
                self.windows.filled(words);
                true
            }
            None => false,
        }
    }
}

/// Writes a frame, and tells whether that could be done.
fn write_frame(memory: &mut Memory, address: Addr, words: &[u32; 16]) -> bool
    ensures { Written (frame_written memory.old address.0 (flat_map (to_be_bytes w32) words.now)) memory.old memory.new result }
{
    address.0 % FRAME_ALIGN == 0 && memory.fill(address, &frame_bytes(words))
}

/// The words of the frame at an address, where it can be read.
fn read_frame(memory: &Memory, address: Addr) -> Option<[u32; 16]>
    ensures { result ≡ option_map (words_of_frame 16) (frame_read memory.now address.0) }
{
    if address.0 % FRAME_ALIGN != 0 {
        return None;
    }
    let bytes = memory.part(address, FRAME_SIZE)?;
    Some(frame_words(bytes))
}

/// The bytes of a frame's words, the highest byte of each first.
fn frame_bytes(words: &[u32; 16]) -> [u8; 64]
    ensures { result ≡ flat_map (to_be_bytes w32) words.now }
{
    let mut bytes = [0; 64];
    for (i, word) in words.iter().enumerate() {
        bytes[4 * i..4 * i + 4].copy_from_slice(&word.to_be_bytes());
    }
    bytes
}

/// The words of a frame's bytes.
fn frame_words(bytes: &[u8]) -> [u32; 16]
    requires { length bytes.now ≡ 64 }
    ensures { result ≡ words_of_frame 16 bytes.now }
{
    let mut words = [0; 16];
    for (i, word) in words.iter_mut().enumerate() {
        *word = word_at(bytes, 4 * i);
    }
    words
}

/// The word whose first byte is at an index.
#[inline]
fn word_at(bytes: &[u8], at: usize) -> u32
    requires { at + 4 ≤ length bytes.now }
    ensures { result ≡ from_be_bytes w32 (take 4 (drop at bytes.now)) }
{
    u32::from_be_bytes([bytes[at], bytes[at + 1], bytes[at + 2], bytes[at + 3]])
}
