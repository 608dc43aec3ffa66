//! Bytes that are mapped together, and what a program may do with them.
ghost use Rattle.std.specs.Prelude.{◌≡◌, ◌+◌, ◌<◌, ◌≤◌, ◌^◌, ◌&&◌, IsTrue, IfOk, length, false, true, if◌then◌else◌};
ghost use Rattle.v8_memory.specs.Regions.{covers, part_of, written, is_code};
ghost use Rattle.v8_memory.specs.Segments.{region_of, empty_heap};
ghost use Rattle.v8_memory.specs.Calls.{IsPlan, mapping_of_plan};

use crate::memory::RegionPlan;
use bitflags::Flags;
use eel_base::NoMemory;
use elf32_sparc::SegFlags;
use std::alloc::Global;
use std::marker::Model;

/// Where the heap starts, and how many bytes it may take.
pub const HEAP_START: u32 = 0x8000_0000;

pub const HEAP_ROOM: u32 = 1 << 24;

/// The first `size` of `bytes` are mapped, from `start` on. So many may be read, and so many may be written: all of them or
/// none.
#[derive(Drop)]
pub struct Region {
    start: u32,
    size: u32,
    readable: bool,
    writable: bool,
    executable: bool,
    to_read: u64,
    to_write: u64,
    bytes: Vec<u8>,
}

impl Model for Region {
    ghost use Rattle.std.specs.Prelude.{◌≡◌, ◌+◌, ◌≤◌, ◌^◌, vec_len, if◌then◌else◌};
    ghost use Rattle.v8_memory.specs.Regions.{Region as RegionValue};

    ghost Value = { RegionValue };

    ghost view = { λ r. record { start = r.start; size = r.size; readable = r.readable; writable = r.writable; executable = r.executable; bytes = r.bytes.items } };

    ghost invariant = { λ r. (r.size ≤ vec_len r.bytes) × (r.start + r.size ≤ 2 ^ 32) × (r.to_read ≡ (if r.readable then r.size else 0)) × (r.to_write ≡ (if r.writable then r.size else 0)) };
}

impl Region {
    /// The heap, of which nothing is mapped yet. All bytes that it may take are taken here.
    pub fn heap(alloc: Global) -> Result<Region, NoMemory>
        ensures { IfOk result (λ region. region ≡ empty_heap) }
    {
        let bytes = vec![in alloc; 0; HEAP_ROOM as usize]?;
        Ok(Region {
            start: HEAP_START,
            size: 0,
            readable: true,
            writable: true,
            executable: false,
            to_read: 0,
            to_write: 0,
            bytes,
        })
    }

    /// The region of a plan: its first bytes, and zeros after them.
    pub fn planned(alloc: Global, plan: &RegionPlan) -> Result<Region, NoMemory>
        requires { IsPlan (mapping_of_plan plan.now) }
        ensures { IfOk result (λ region. region ≡ region_of (mapping_of_plan plan.now)) }
    {
        let mut bytes = Vec::with_capacity(alloc, plan.len as usize)?;
        bytes.extend_from_slice(plan.first)?;
        bytes.resize(plan.len as usize, 0)?;
        let readable = plan.flags.contains(SegFlags::PF_R);
        let writable = plan.flags.contains(SegFlags::PF_W);
        Ok(Region {
            start: plan.start.0,
            size: plan.len,
            readable,
            writable,
            executable: plan.flags.contains(SegFlags::PF_X),
            to_read: if_allowed(readable, plan.len),
            to_write: if_allowed(writable, plan.len),
            bytes,
        })
    }

    #[inline]
    pub fn start(&self) -> u32
        ensures { result ≡ self.now.start }
    {
        self.start
    }

    /// How many of its bytes are mapped.
    #[inline]
    pub fn size(&self) -> u32
        ensures { result ≡ self.now.size }
    {
        self.size
    }

    /// Whether all `count` bytes from `address` on are mapped here.
    #[inline(always)]
    pub fn covers(&self, address: u32, count: u64) -> bool
        requires { 0 < count }
        ensures { result ≡ covers address count self.now }
    {
        let offset = address.wrapping_sub(self.start);
        offset < self.size && u64::from(self.size - offset) >= count
    }

    /// Whether all `count` bytes from `address` on are mapped here and may be read.
    #[inline(always)]
    pub fn may_read(&self, address: u32, count: u64) -> bool
        requires { 0 < count }
        ensures whole { result ≡ true → IsTrue (covers address count self.now) }
        ensures may { result ≡ true → self.now.readable ≡ true }
        ensures denied { result ≡ false → (covers address count self.now && self.now.readable) ≡ false }
    {
        u64::from(address.wrapping_sub(self.start)).saturating_add(count) <= self.to_read
    }

    /// Whether all `count` bytes from `address` on are mapped here and may be written.
    #[inline(always)]
    pub fn may_write(&self, address: u32, count: u64) -> bool
        requires { 0 < count }
        ensures whole { result ≡ true → IsTrue (covers address count self.now) }
        ensures may { result ≡ true → self.now.writable ≡ true }
        ensures denied { result ≡ false → (covers address count self.now && self.now.writable) ≡ false }
    {
        u64::from(address.wrapping_sub(self.start)).saturating_add(count) <= self.to_write
    }

    #[inline]
    pub fn is_readable(&self) -> bool
        ensures { result ≡ self.now.readable }
    {
        self.readable
    }

    #[inline]
    pub fn is_writable(&self) -> bool
        ensures { result ≡ self.now.writable }
    {
        self.writable
    }

    /// Whether its words may be executed.
    #[inline]
    pub fn is_code(&self) -> bool
        ensures { result ≡ is_code self.now }
    {
        self.executable && !self.writable
    }

    /// `count` of its bytes, from `address` on.
    #[inline]
    pub fn part(&self, address: u32, count: u32) -> &[u8]
        requires { IsTrue (covers address count self.now) }
        ensures bytes { result.now ≡ part_of self.now address count }
        ensures len { length result.now ≡ count }
    {
        let from = (address - self.start) as usize;
        &self.bytes[from..from + count as usize]
    }

    /// Puts the bytes where they belong.
    #[inline(always)]
    pub fn put(&mut self, address: u32, bytes: &[u8])
        requires whole { IsTrue (covers address (length bytes.now) self.old) }
        requires may { self.old.writable ≡ true }
        ensures after { self.new ≡ written address bytes.now self.old }
        ensures start { self.new.start ≡ self.old.start }
        ensures size { self.new.size ≡ self.old.size }
        ensures len { length self.new.bytes ≡ length self.old.bytes }
    {
        let from = (address - self.start) as usize;
        self.bytes[from..from + bytes.len()].copy_from_slice(bytes);
    }

    /// Puts the bytes where they belong, if it may be written, and tells whether it may.
    #[inline(always)]
    pub fn write(&mut self, address: u32, bytes: &[u8]) -> bool
        requires { IsTrue (covers address (length bytes.now) self.old) }
        ensures may { result ≡ self.old.writable }
        ensures after { self.new ≡ written address bytes.now self.old }
        ensures start { self.new.start ≡ self.old.start }
        ensures size { self.new.size ≡ self.old.size }
        ensures len { length self.new.bytes ≡ length self.old.bytes }
    {
        if self.writable {
            self.put(address, bytes);
        }
        self.writable
    }

    /// Where its mapped bytes end.
    #[inline]
    pub fn end(&self) -> u64
        ensures { result ≡ self.now.start + self.now.size }
    {
        u64::from(self.start) + u64::from(self.size)
    }

    /// Maps the first `size` of its bytes.
    pub fn set_size(&mut self, size: u32)
        requires bytes { size ≤ length self.old.bytes }
        requires end { self.old.start + size ≤ 2 ^ 32 }
        ensures { self.new ≡ record self.old { size = size } }
    {
        self.size = size;
        self.to_read = if_allowed(self.readable, size);
        self.to_write = if_allowed(self.writable, size);
    }
}

/// So many bytes where that is allowed, else none.
#[inline]
fn if_allowed(may: bool, size: u32) -> u64
    ensures { result ≡ (if may then size else 0) }
{
    if may { u64::from(size) } else { 0 }
}
