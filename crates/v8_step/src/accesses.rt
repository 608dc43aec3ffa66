//! Loads, stores, LDSTUB and SWAP.
ghost use Rattle.std.specs.Prelude.{◌≡◌, ◌+◌, ◌%◌, ℕ, suc, [], ◌∷◌, true, false};
ghost use Rattle.std.specs.Int.{w8, w32, to_be_bytes};
ghost use Rattle.v8_memory.specs.Regions.{with_bytes};
ghost use Rattle.v8_memory.specs.Calls.{Loads, allowed, if_aligned, load_of, store_of};
ghost use Rattle.v8_step.specs.Accesses.{load_size, store_size, stored, extended, load_step, store_step, ldstub_step, swap_step};
ghost use Rattle.v8_step.specs.Private.{Exchanges, Stores, trap_of, value_of};
ghost use Rattle.v8_step.specs.Transfers.{trapped};

use crate::machine::{Machine, register};
use crate::traps::{DATA_ACCESS_EXCEPTION, MEM_ADDRESS_NOT_ALIGNED};
use eel_base::Addr;
use v8_decode::{LoadKind, Reg, StoreKind};
use v8_memory::MemFault;

impl Machine {
    #[inline(always)]
    #[tactic(auto, unfolding(crate::specs::Accesses::load_step))]
    pub(crate) fn load(&mut self, kind: LoadKind, rd: Reg, address: u32)
        requires pair { kind ≡ LoadKind.LDD → rd % 2 ≡ 0 }
        ensures { self.new ≡ load_step self.old kind rd address }
    {
        if kind == LoadKind::LDD {
            self.load_pair(rd, address);
        } else {
            self.load_one(kind, rd, address);
        }
    }

    /// A load into one register.
    #[inline(always)]
    #[tactic(auto, unfolding(crate::specs::Accesses::load_step))]
    fn load_one(&mut self, kind: LoadKind, rd: Reg, address: u32)
        requires single { kind ≡ LoadKind.LDD → ⊥ }
        ensures { self.new ≡ load_step self.old kind rd address }
    {
        match self.loaded(kind, Addr(address)) {
            Ok(value) => {
                self.set(rd, value);
                self.go_on();
            }
            Err(fault) => self.refuse_access(fault),
        }
    }

    /// What a load into one register gives it.
    #[inline(always)]
    pub(crate) fn loaded(&self, kind: LoadKind, address: Addr) -> Result<u32, MemFault>
        requires single { kind ≡ LoadKind.LDD → ⊥ }
        ensures { Loads (value_of kind) (load_of self.now.memory (load_size kind) address.0) result }
    {
        let memory = &self.memory;
        match kind {
            LoadKind::LD | LoadKind::LDD => memory.load32(address),
            LoadKind::LDUB => Ok(u32::from(memory.load8(address)?)),
            LoadKind::LDUH => Ok(u32::from(memory.load16(address)?)),
            LoadKind::LDSB => Ok(extended_byte(memory.load8(address)?)),
            LoadKind::LDSH => Ok(extended_halfword(memory.load16(address)?)),
        }
    }

    /// LDD: the word of rd comes first.
    #[inline]
    #[tactic(auto, unfolding(crate::specs::Accesses::load_step))]
    fn load_pair(&mut self, rd: Reg, address: u32)
        requires pair { rd % 2 ≡ 0 }
        ensures { self.new ≡ load_step self.old LoadKind.LDD rd address }
    {
        match self.memory.load64(Addr(address)) {
            Ok((first, second)) => {
                self.set(rd, first);
                self.set(next_register(rd), second);
                self.go_on();
            }
            Err(fault) => self.refuse_access(fault),
        }
    }

    #[inline(always)]
    #[tactic(auto, unfolding(crate::specs::Accesses::store_step))]
    pub(crate) fn store(&mut self, kind: StoreKind, rd: Reg, address: u32)
        requires pair { kind ≡ StoreKind.STD → rd % 2 ≡ 0 }
        ensures { self.new ≡ store_step self.old kind rd address }
    {
        match self.put(kind, rd, Addr(address)) {
            Ok(()) => self.go_on(),
            Err(fault) => self.refuse_access(fault),
        }
    }

    /// Stores a register, or a pair of them; where that is refused nothing changes.
    #[inline(always)]
    pub(crate) fn put(&mut self, kind: StoreKind, rd: Reg, at: Addr) -> Result<(), MemFault>
        requires pair { kind ≡ StoreKind.STD → rd % 2 ≡ 0 }
        ensures { Stores (if_aligned (store_size kind) at.0 (allowed (with_bytes self.old.memory at.0 (stored self.old kind rd)))) self.old self.new result }
    {
        let value = self.reg(rd);
        match kind {
            StoreKind::ST => self.memory.store32(at, value),
            StoreKind::STB => self.memory.store8(at, (value % 0x100) as u8),
            StoreKind::STH => self.memory.store16(at, (value % 0x1_0000) as u16),
            StoreKind::STD => {
                let second = self.reg(next_register(rd));
                self.memory.store64(at, (value, second))
            }
        }
    }

    /// LDSTUB: loads a byte, and sets all its bits.
    #[inline]
    #[tactic(auto, unfolding(crate::specs::Accesses::ldstub_step))]
    pub(crate) fn load_store_byte(&mut self, rd: Reg, address: u32)
        ensures { self.new ≡ ldstub_step self.old rd address }
    {
        match self.exchange_byte(Addr(address)) {
            Ok(old) => {
                self.set(rd, u32::from(old));
                self.go_on();
            }
            Err(fault) => self.refuse_access(fault),
        }
    }

    /// SWAP: a register and a word change places.
    #[inline]
    #[tactic(auto, unfolding(crate::specs::Accesses::swap_step))]
    pub(crate) fn swap(&mut self, rd: Reg, address: u32)
        ensures { self.new ≡ swap_step self.old rd address }
    {
        let value = self.reg(rd);
        match self.exchange_word(Addr(address), value) {
            Ok(old) => {
                self.set(rd, old);
                self.go_on();
            }
            Err(fault) => self.refuse_access(fault),
        }
    }

    /// Ends with the trap of a refused access.
    #[inline(never)]
    fn refuse_access(&mut self, fault: MemFault)
        ensures { self.new ≡ trapped self.old (trap_of fault) }
    {
        match fault {
            MemFault::Misaligned => self.trap(MEM_ADDRESS_NOT_ALIGNED),
            MemFault::NoAccess => self.trap(DATA_ACCESS_EXCEPTION),
        }
    }

    /// The byte at an address, where ff is now; or nothing changes.
    #[inline]
    fn exchange_byte(&mut self, address: Addr) -> Result<u8, MemFault>
        ensures { Exchanges w8 (load_of self.old.memory 1 address.0) (store_of self.old.memory address.0 (0xff ∷ [])) self.old self.new result }
    {
        let old = self.memory.load8(address)?;
        self.memory.store8(address, 0xff)?;
        Ok(old)
    }

    /// The word at an address, where `value` is now; or nothing changes.
    #[inline]
    #[tactic(auto, using(crate::proofs::Exchanged::exchanged))]
    pub(crate) fn exchange_word(&mut self, address: Addr, value: u32) -> Result<u32, MemFault>
        ensures { Exchanges w32 (load_of self.old.memory 4 address.0) (store_of self.old.memory address.0 (to_be_bytes w32 value)) self.old self.new result }
    {
        self.memory.exchange32(address, value)
    }
}

/// A byte with its sign extended to 32 bits.
#[inline]
fn extended_byte(byte: u8) -> u32
    ensures { result ≡ extended 8 byte }
{
    if byte < 0x80 {
        u32::from(byte)
    } else {
        0xffff_ff00 + u32::from(byte)
    }
}

/// A halfword with its sign extended to 32 bits.
#[inline]
fn extended_halfword(halfword: u16) -> u32
    ensures { result ≡ extended 16 halfword }
{
    if halfword < 0x8000 {
        u32::from(halfword)
    } else {
        0xffff_0000 + u32::from(halfword)
    }
}

/// The second register of a pair.
#[inline]
pub(crate) fn next_register(rd: Reg) -> Reg
    requires even { rd % 2 ≡ 0 }
    ensures { result ≡ suc rd }
{
    register(rd.number() + 1)
}
