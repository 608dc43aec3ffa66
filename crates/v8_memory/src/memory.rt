//! The memory of a running program.
ghost use Rattle.std.specs.Prelude.{ℕ, List, ◌≡◌, ◌<◌, ◌+◌, ◌*◌, ◌/◌, ◌%◌, get_or, min, ◌^◌, ◌&&◌, take, drop, length, map, ◌++◌, MatchOption, MatchResult, IfOk, IsTrue, true, vec_len};
ghost use Rattle.std.specs.Int.{w8, w16, w32, from_be_bytes, to_be_bytes};
ghost use Rattle.std.specs.List.{All, filter, find};
ghost use Rattle.std.specs.Option.{option_map};
ghost use Rattle.v8_memory.specs.Regions.{covers, region_at, bytes_at, with_bytes, written, fetch_of, heap_end_of, buffer_read, buffer_written, fetch_from, is_code, code_of, Region};
ghost use Rattle.v8_memory.specs.Code.{are_apart, mappings_apart, span_of};
ghost use Rattle.v8_memory.specs.Kept.{AreKept, IsKept};
ghost use Rattle.v8_memory.specs.Segments.{region_of};
ghost use Rattle.v8_memory.specs.Calls.{IsPlan, mapping_of_plan, memory_of, allowed, load_of, store_of, Exchanges, Loads, Stores, Fills, moved_heap_end};

use crate::fault::MemFault;
use crate::ops::{Predecoded, no_op, op_of};
use crate::region::{HEAP_ROOM, HEAP_START, Region};
use eel_base::{Addr, NoMemory};
use elf32_sparc::SegFlags;
use std::alloc::Global;
use std::marker::Model;
use std::mem;
use v8_decode::decode;

/// How many words have records at most: more than a text of 2^20 words and the code of its profile take.
const MOST_KEPT: u32 = 1 << 25;

/// How many words have their records made at once, when the first of them is run.
const BLOCK: u32 = 32;

/// A region that is to be made: `len` bytes from `start` on, of which the first are given and the others
/// are zeros.
#[derive(Clone, Copy)]
pub struct RegionPlan<'a> {
    pub start: Addr,
    pub len: u32,
    pub flags: SegFlags,
    pub first: &'a [u8],
}

/// The records of words, from the one at `first` on. The last of them says nothing.
#[derive(Drop)]
pub struct Records {
    pub first: u32,
    pub ops: Vec<Predecoded>,
}

impl Records {
    /// Makes the records of a block of words. Only the last place of all isn't that of a word.
    #[tactic(auto, using(crate::proofs::Kept::kept_set))]
    fn make(&mut self, regions: &[Region], block: u32)
        ensures first { self.new.first ≡ self.old.first }
        ensures kept { AreKept (filter is_code regions.now) self.old.first self.old.ops.items → AreKept (filter is_code regions.now) self.new.first self.new.ops.items }
    {
        for n in 0..BLOCK {
            let place = block.wrapping_mul(BLOCK).wrapping_add(n);
            if (place as usize) + 1 < self.ops.len() {
                let address = self.first.wrapping_add(place.wrapping_mul(4));
                self.ops[place as usize] = kept_word(regions, address);
            }
        }
    }
}

/// For the high half of each address which region is asked first.
#[derive(Drop)]
struct Hints {
    places: Vec<u8>,
}

impl Model for Hints {
    ghost use Rattle.std.specs.Prelude.{◌≡◌, ◌^◌, ℕ, List, vec_len};

    ghost Value = { List ℕ };

    ghost view = { λ h. h.places.items };

    ghost invariant = { λ h. vec_len h.places ≡ 2 ^ 16 };
}

impl Hints {
    #[inline(always)]
    fn at(&self, address: u32) -> usize {
        usize::from(self.places[(address >> 16) as usize])
    }
}

/// Regions, and the heap with its end that moves.
#[derive(Drop)]
pub struct Memory {
    heap: Region,
    regions: Vec<Region>,
    /// For the high half of each address which region is asked first.
    hints: Hints,
    /// So that words needn't be decoded each time they are run.
    records: Records,
    /// For each block of words whether its records were made.
    made: Vec<bool>,
}

impl Model for Memory {
    ghost use Rattle.std.specs.Prelude.{◌≡◌, ◌≤◌, length, IsTrue};
    ghost use Rattle.std.specs.List.{filter};
    ghost use Rattle.v8_memory.specs.Kept.{AreKept};
    ghost use Rattle.v8_memory.specs.Regions.{Memory as MemoryValue, is_code};
    ghost use Rattle.v8_memory.specs.Segments.{heap_start, heap_room};
    ghost use Rattle.v8_memory.specs.Code.{regions_apart};

    ghost Value = { MemoryValue };

    ghost view = { λ m. record { heap = m.heap; regions = m.regions.items } };

    ghost invariant = { λ m. (m.heap.start ≡ heap_start) × (length m.heap.bytes ≡ heap_room) × (m.heap.size ≤ heap_room) × (IsTrue (regions_apart m.regions.items)) × AreKept (filter is_code m.regions.items) m.records.first m.records.ops.items };
}

impl Memory {
    /// Memory with these regions, and a heap of which nothing is mapped yet. All bytes that the heap may
    /// take are taken here. No two regions have a common byte, and none has one that the heap may take.
    pub fn new(alloc: Global, plans: &[RegionPlan]) -> Result<Memory, NoMemory>
        requires plans { All (λ plan. IsPlan (mapping_of_plan plan)) plans.now }
        requires apart { IsTrue (mappings_apart (map mapping_of_plan plans.now)) }
        ensures { IfOk result (λ memory. memory ≡ memory_of (map mapping_of_plan plans.now)) }
    {
        let heap = Region::heap(alloc)?;
        let regions = planned(alloc, plans)?;
        let hints = hints_of(alloc, &regions)?;
        let (first, count) = first_code(&regions);
        let ops = unmade(alloc, count)?;
        let made = unmade_blocks(alloc, count)?;
        Ok(Memory {
            heap,
            regions,
            hints,
            records: Records { first, ops },
            made,
        })
    }

    #[inline]
    pub fn load8(&self, address: Addr) -> Result<u8, MemFault>
        ensures { Loads (from_be_bytes w8) (load_of self.now 1 address.0) result }
    {
        let bytes = self.load(address, 1)?;
        Ok(bytes[0])
    }

    #[inline]
    pub fn load16(&self, address: Addr) -> Result<u16, MemFault>
        ensures { Loads (from_be_bytes w16) (load_of self.now 2 address.0) result }
    {
        let bytes = self.load(address, 2)?;
        Ok(u16::from_be_bytes([bytes[0], bytes[1]]))
    }

    #[inline]
    pub fn load32(&self, address: Addr) -> Result<u32, MemFault>
        ensures { Loads (from_be_bytes w32) (load_of self.now 4 address.0) result }
    {
        let bytes = self.load(address, 4)?;
        Ok(word_of(bytes))
    }

    /// The word at the address, and the word after it.
    #[inline]
    pub fn load64(&self, address: Addr) -> Result<(u32, u32), MemFault>
        ensures { Loads (λ bytes. (from_be_bytes w32 (take 4 bytes), from_be_bytes w32 (drop 4 bytes))) (load_of self.now 8 address.0) result }
    {
        let bytes = self.load(address, 8)?;
        Ok((word_of(&bytes[..4]), word_of(&bytes[4..])))
    }

    #[inline]
    pub fn store8(&mut self, address: Addr, value: u8) -> Result<(), MemFault>
        ensures { Stores (store_of self.old address.0 (to_be_bytes w8 value)) self.old self.new result }
    {
        self.store(address, &value.to_be_bytes())
    }

    #[inline]
    pub fn store16(&mut self, address: Addr, value: u16) -> Result<(), MemFault>
        ensures { Stores (store_of self.old address.0 (to_be_bytes w16 value)) self.old self.new result }
    {
        self.store(address, &value.to_be_bytes())
    }

    #[inline]
    pub fn store32(&mut self, address: Addr, value: u32) -> Result<(), MemFault>
        ensures { Stores (store_of self.old address.0 (to_be_bytes w32 value)) self.old self.new result }
    {
        self.store(address, &value.to_be_bytes())
    }

    /// Stores two words, the first at the address.
    #[inline]
    pub fn store64(&mut self, address: Addr, value: (u32, u32)) -> Result<(), MemFault>
        ensures { Stores (store_of self.old address.0 (to_be_bytes w32 value.0 ++ to_be_bytes w32 value.1)) self.old self.new result }
    {
        let first = value.0.to_be_bytes();
        let second = value.1.to_be_bytes();
        let bytes = [
            first[0], first[1], first[2], first[3], second[0], second[1], second[2], second[3],
        ];
        self.store(address, &bytes)
    }

    /// The word at an address, in the place of which another one is put. Where either access is refused nothing changes.
    #[inline]
    pub fn exchange32(&mut self, address: Addr, value: u32) -> Result<u32, MemFault>
        ensures { Exchanges w32 (load_of self.old 4 address.0) (store_of self.old address.0 (to_be_bytes w32 value)) self.old self.new result }
    {
        if address.0 % 4 != 0 {
            return Err(MemFault::Misaligned);
        }
        match self.writable_at(address.0, 4) {
            Some(index) => self.exchange_in(index, address.0, value),
            None => self.exchange_searched(address, value),
        }
    }

    /// The word at an address, where it may be executed.
    #[inline]
    #[tactic(auto, unfolding(crate::specs::Regions::fetch_of))]
    pub fn fetch(&self, address: Addr) -> Option<u32>
        ensures { result ≡ fetch_of self.now address.0 }
    {
        fetch_in(&self.regions, address.0)
    }

    /// Makes the records of the words around an address that is to be run, where there are none yet.
    #[inline]
    pub fn predecode_around(&mut self, address: Addr)
        ensures { self.new ≡ self.old }
    {
        let block = address.0.wrapping_sub(self.records.first) / 4 / BLOCK;
        if self.made.get(block as usize) == Some(&false) {
            self.made[block as usize] = true;
            self.records.make(&self.regions, block);
        }
    }

    /// Takes the records out, so that they stand apart from what a run changes. They are to be put back.
    pub fn take_records(&mut self) -> Records
        ensures same { self.new ≡ self.old }
        ensures kept { AreKept (code_of self.old) result.first result.ops.items }
    {
        let none = Records {
            first: 0,
            ops: Vec::new(*self.records.ops.allocator()),
        };
        mem::replace(&mut self.records, none)
    }

    /// Puts records of the words that may be executed in the place of those that there are.
    pub fn put_records(&mut self, records: Records)
        requires { AreKept (code_of self.old) records.first records.ops.items }
        ensures { self.new ≡ self.old }
    {
        self.records = records;
    }

    /// The bytes from an address on, where they may be read.
    pub fn part(&self, address: Addr, len: u32) -> Option<&[u8]>
        ensures bytes { MatchOption result (buffer_read self.now address.0 len ≡ None) (λ bytes. buffer_read self.now address.0 len ≡ Some bytes.now) }
        ensures len { MatchOption result (0 < len) (λ bytes. length bytes.now ≡ len) }
    {
        if len == 0 {
            return Some(&[]);
        }
        self.read(address.0, len)
    }

    /// Writes the bytes from an address on, where that may be written; else nothing changes. No bytes may be
    /// written anywhere.
    pub fn fill(&mut self, address: Addr, bytes: &[u8]) -> bool
        ensures { Fills (buffer_written self.old address.0 bytes.now) self.old self.new result }
    {
        bytes.is_empty() || self.write(address.0, bytes)
    }

    /// The first address after the heap.
    pub fn heap_end(&self) -> Addr
        ensures { result.0 ≡ heap_end_of self.now }
    {
        Addr(self.heap.end() as u32)
    }

    /// Moves the heap's end, where it may have this one. Every byte keeps its value, those above the end
    /// too.
    pub fn set_heap_end(&mut self, address: Addr) -> bool
        ensures { Fills (moved_heap_end self.old address.0) self.old self.new result }
    {
        let allowed = HEAP_START <= address.0 && address.0 <= HEAP_START + HEAP_ROOM;
        if allowed {
            self.heap.set_size(address.0 - HEAP_START);
        }
        allowed
    }

    /// The bytes of an access of this size.
    #[inline]
    fn load(&self, address: Addr, size: u32) -> Result<&[u8], MemFault>
        requires { 0 < size }
        ensures bytes { MatchResult result (λ bytes. load_of self.now size address.0 ≡ Ok bytes.now) (λ fault. load_of self.now size address.0 ≡ Err fault) }
        ensures len { IfOk result (λ bytes. length bytes.now ≡ size) }
    {
        if address.0 % size != 0 {
            return Err(MemFault::Misaligned);
        }
        match self.read(address.0, size) {
            Some(bytes) => Ok(bytes),
            None => Err(MemFault::NoAccess),
        }
    }

    /// Stores all of the bytes as one access. Where it is inlined, their number is a constant.
    #[inline(always)]
    fn store(&mut self, address: Addr, bytes: &[u8]) -> Result<(), MemFault>
        requires { 0 < length bytes.now }
        ensures { Stores (store_of self.old address.0 bytes.now) self.old self.new result }
    {
        if address.0 as usize % bytes.len() != 0 {
            return Err(MemFault::Misaligned);
        }
        if self.write(address.0, bytes) {
            Ok(())
        } else {
            Err(MemFault::NoAccess)
        }
    }

    /// The place of the region that is asked first for an address, if all these bytes may be read there.
    #[inline(always)]
    fn readable_at(&self, address: u32, count: u64) -> Option<usize>
        requires some { 0 < count }
        ensures { MatchOption result (Unit {0}) (λ index. (index < length self.now.regions) × ((d : Region) → IsTrue (covers address count (get_or self.now.regions index d))) × ((d : Region) → (get_or self.now.regions index d).readable ≡ true)) }
    {
        let index = self.hints.at(address);
        let region = self.regions.get(index)?;
        if region.may_read(address, count) {
            Some(index)
        } else {
            None
        }
    }

    /// The place of the region that is asked first for an address, if all these bytes may be written there.
    #[inline(always)]
    fn writable_at(&self, address: u32, count: u64) -> Option<usize>
        requires some { 0 < count }
        ensures { MatchOption result (Unit {0}) (λ index. (index < length self.now.regions) × ((d : Region) → IsTrue (covers address count (get_or self.now.regions index d))) × ((d : Region) → (get_or self.now.regions index d).writable ≡ true)) }
    {
        let index = self.hints.at(address);
        let region = self.regions.get(index)?;
        if region.may_write(address, count) {
            Some(index)
        } else {
            None
        }
    }

    /// The region at this place, which has all these bytes.
    #[inline(always)]
    fn region_in(&self, index: usize, address: u32, count: u64) -> &Region
        requires some { 0 < count }
        requires within { index < length self.now.regions }
        requires whole { (d : Region) → IsTrue (covers address count (get_or self.now.regions index d)) }
        ensures found { region_at self.now address count ≡ Some result.now }
        ensures whole { IsTrue (covers address count result.now) }
        ensures readable { ((d : Region) → (get_or self.now.regions index d).readable ≡ true) → result.now.readable ≡ true }
    {
        &self.regions[index]
    }

    /// The region that has all these bytes. The heap is asked last.
    #[inline]
    fn searched(&self, address: u32, count: u64) -> Option<&Region>
        requires { 0 < count }
        ensures { MatchOption result (region_at self.now address count ≡ None) (λ region. (region_at self.now address count ≡ Some region.now) × IsTrue (covers address count region.now)) }
    {
        match find(&self.regions, address, count) {
            Some(region) => Some(region),
            None if self.heap.covers(address, count) => Some(&self.heap),
            None => None,
        }
    }

    /// The bytes from an address on, where one region has them all and may be read.
    #[inline(always)]
    fn read(&self, address: u32, count: u32) -> Option<&[u8]>
        requires { 0 < count }
        ensures { MatchOption result (bytes_at self.now address count ≡ None) (λ bytes. (bytes_at self.now address count ≡ Some bytes.now) × (length bytes.now ≡ count)) }
    {
        match self.readable_at(address, u64::from(count)) {
            Some(index) => Some(self.read_in(index, address, count)),
            None => self.read_elsewhere(address, count),
        }
    }

    /// The bytes from an address on, where the region at this place has them all and may be read.
    #[inline(always)]
    #[tactic(auto, unfolding(crate::specs::Regions::bytes_at))]
    fn read_in(&self, index: usize, address: u32, count: u32) -> &[u8]
        requires some { 0 < count }
        requires within { index < length self.now.regions }
        requires whole { (d : Region) → IsTrue (covers address count (get_or self.now.regions index d)) }
        requires may { (d : Region) → (get_or self.now.regions index d).readable ≡ true }
        ensures bytes { bytes_at self.now address count ≡ Some result.now }
        ensures len { length result.now ≡ count }
    {
        self.region_in(index, address, u64::from(count))
            .part(address, count)
    }

    /// The bytes from an address on, where the hinted region doesn't have them all or may not be read.
    #[inline(always)]
    #[tactic(auto, unfolding(crate::specs::Regions::bytes_at))]
    fn read_elsewhere(&self, address: u32, count: u32) -> Option<&[u8]>
        requires { 0 < count }
        ensures { MatchOption result (bytes_at self.now address count ≡ None) (λ bytes. (bytes_at self.now address count ≡ Some bytes.now) × (length bytes.now ≡ count)) }
    {
        if self.heap.may_read(address, u64::from(count)) {
            Some(self.heap.part(address, count))
        } else {
            self.read_searched(address, count)
        }
    }

    /// The bytes from an address on: all regions are asked, and the heap last.
    #[inline(never)]
    #[tactic(auto, unfolding(crate::specs::Regions::bytes_at))]
    fn read_searched(&self, address: u32, count: u32) -> Option<&[u8]>
        requires { 0 < count }
        ensures { MatchOption result (bytes_at self.now address count ≡ None) (λ bytes. (bytes_at self.now address count ≡ Some bytes.now) × (length bytes.now ≡ count)) }
    {
        match self.searched(address, u64::from(count)) {
            Some(region) if region.is_readable() => Some(region.part(address, count)),
            _ => None,
        }
    }

    /// Writes the bytes, where one region has them all and may be written.
    #[inline(always)]
    fn write(&mut self, address: u32, bytes: &[u8]) -> bool
        requires { 0 < length bytes.now }
        ensures { Fills (with_bytes self.old address bytes.now) self.old self.new result }
    {
        match self.writable_at(address, bytes.len() as u64) {
            Some(index) => {
                self.write_in(index, address, bytes);
                true
            }
            None => {
                if self.heap.may_write(address, bytes.len() as u64) {
                    self.heap.put(address, bytes);
                    true
                } else {
                    self.write_searched(address, bytes)
                }
            }
        }
    }

    /// Writes the bytes into the region at this place, which has them all and may be written.
    #[inline(always)]
    fn write_in(&mut self, index: usize, address: u32, bytes: &[u8])
        requires some { 0 < length bytes.now }
        requires within { index < length self.old.regions }
        requires whole { (d : Region) → IsTrue (covers address (length bytes.now) (get_or self.old.regions index d)) }
        requires may { (d : Region) → (get_or self.old.regions index d).writable ≡ true }
        ensures { Fills (with_bytes self.old address bytes.now) self.old self.new true }
    {
        self.regions[index].put(address, bytes);
    }

    /// Writes the bytes, if some region has them all and may be written: all are asked, and the heap last.
    #[inline(never)]
    fn write_searched(&mut self, address: u32, bytes: &[u8]) -> bool
        requires { 0 < length bytes.now }
        ensures { Fills (with_bytes self.old address bytes.now) self.old self.new result }
    {
        match write_one(&mut self.regions, address, bytes) {
            Some(done) => done,
            None => write_heap(&mut self.heap, address, bytes),
        }
    }

    /// Puts a word in the place of another one, in the region at this place.
    #[inline(always)]
    #[tactic(auto, unfolding(crate::specs::Regions::bytes_at))]
    fn exchange_in(&mut self, index: usize, address: u32, value: u32) -> Result<u32, MemFault>
        requires within { index < length self.old.regions }
        requires whole { (d : Region) → IsTrue (covers address 4 (get_or self.old.regions index d)) }
        requires may { (d : Region) → (get_or self.old.regions index d).writable ≡ true }
        ensures { Exchanges w32 (allowed (bytes_at self.old address 4)) (allowed (with_bytes self.old address (to_be_bytes w32 value))) self.old self.new result }
    {
        let region = self.region_in(index, address, 4);
        if !region.is_readable() {
            return Err(MemFault::NoAccess);
        }
        let old = word_of(region.part(address, 4));
        self.write_in(index, address, &value.to_be_bytes());
        Ok(old)
    }

    /// Puts a word in the place of another one, where the hinted region doesn't have it or may not be written.
    #[inline(never)]
    fn exchange_searched(&mut self, address: Addr, value: u32) -> Result<u32, MemFault>
        ensures { Exchanges w32 (load_of self.old 4 address.0) (store_of self.old address.0 (to_be_bytes w32 value)) self.old self.new result }
    {
        let old = self.load32(address)?;
        self.store32(address, value)?;
        Ok(old)
    }
}

/// The record at a place among those that begin with that of the word at `first`.
#[inline(always)]
#[tactic(auto, using(crate::proofs::Kept::kept_at))]
pub fn op_in(ops: &[Predecoded], first: u32, place: usize) -> &Predecoded
    requires within { place < length ops.now }
    ensures kept { (code : List Region) → AreKept code first ops.now → IsKept code ((first + 4 * place) % 2 ^ 32) result.now }
    ensures item { (other : Predecoded) → result.now ≡ get_or ops.now place other }
{
    &ops[place]
}

/// The regions of some plans.
fn planned(alloc: Global, plans: &[RegionPlan]) -> Result<Vec<Region>, NoMemory>
    requires { All (λ plan. IsPlan (mapping_of_plan plan)) plans.now }
    ensures { IfOk result (λ regions. regions.items ≡ map region_of (map mapping_of_plan plans.now)) }
{
    let mut regions = Vec::with_capacity(alloc, plans.len())?;
    for plan in plans {
        regions.push(Region::planned(alloc, plan)?)?;
    }
    Ok(regions)
}

/// For the high half of each address a region that has some of its bytes, one that may be written before others.
fn hints_of(alloc: Global, regions: &[Region]) -> Result<Hints, NoMemory> {
    let mut places = no_hints(alloc, 1 << 16)?;
    hint_all(&mut places, regions);
    Ok(Hints { places })
}

fn hint_all(hints: &mut [u8], regions: &[Region]) {
    for writable in [false, true] {
        for (region, index) in regions.iter().zip(0..=u8::MAX) {
            if region.is_writable() == writable {
                hint_at(hints, region, index);
            }
        }
    }
}

/// Hints to no region, so that the heap is asked at once.
fn no_hints(alloc: Global, count: usize) -> Result<Vec<u8>, NoMemory>
    ensures { IfOk result (λ hints. vec_len hints ≡ count) }
{
    let hints = vec![in alloc; u8::MAX; count]?;
    Ok(hints)
}

/// Hints to this region at all of its addresses.
fn hint_at(hints: &mut [u8], region: &Region, index: u8) {
    let from = u64::from(region.start() >> 16);
    let to = region.end() >> 16;
    for high in from..=to {
        if let Some(hint) = hints.get_mut(high as usize) {
            *hint = index;
        }
    }
}

/// Where the first region begins whose words may be executed, and how many of them are to have records.
fn first_code(regions: &[Region]) -> (u32, u32)
    ensures { MatchOption (find is_code regions.now) (result ≡ (0, 0)) (λ region. result ≡ (region.start, min (region.size / 4) (2 ^ 25))) }
{
    match code_region(regions) {
        Some(region) => (region.start(), (region.size() / 4).min(MOST_KEPT)),
        None => (0, 0),
    }
}

/// The first region whose words may be executed.
fn code_region(regions: &[Region]) -> Option<&Region>
    ensures { MatchOption result (find is_code regions.now ≡ None) (λ region. find is_code regions.now ≡ Some region.now) }
{
    for region in regions {
        if region.is_code() {
            return Some(region);
        }
    }
    None
}

/// Records of so many words that say nothing yet, and one more, so that no run goes on in order beyond them.
#[tactic(auto, using(crate::proofs::Kept::kept_nothing))]
fn unmade(alloc: Global, count: u32) -> Result<Vec<Predecoded>, NoMemory>
    ensures { IfOk result (λ ops. (code : List Region) (first : ℕ) → AreKept code first ops.items) }
{
    let ops = vec![in alloc; no_op(); count as usize + 1]?;
    Ok(ops)
}

/// That the records of no block were made, of so many words.
fn unmade_blocks(alloc: Global, count: u32) -> Result<Vec<bool>, NoMemory> {
    let blocks = count / BLOCK + 1;
    let made = vec![in alloc; false; blocks as usize]?;
    Ok(made)
}

/// The record of the word at an address.
fn kept_word(regions: &[Region], address: u32) -> Predecoded
    ensures { IsKept (filter is_code regions.now) address result }
{
    match fetch_in(regions, address) {
        Some(word) => op_of(decode(word)),
        None => no_op(),
    }
}

/// The word at an address, where it may be executed.
#[inline]
fn fetch_in(regions: &[Region], address: u32) -> Option<u32>
    ensures { result ≡ fetch_from (filter is_code regions.now) address }
{
    if address % 4 != 0 {
        return None;
    }
    match find_code(regions, address) {
        Some(region) => Some(word_of(region.part(address, 4))),
        None => None,
    }
}

/// The first region that has all these bytes.
#[inline]
fn find<'a>(regions: &'a [Region], address: u32, count: u64) -> Option<&'a Region>
    requires { 0 < count }
    ensures { MatchOption result (find (covers address count) regions.now ≡ None) (λ region. (find (covers address count) regions.now ≡ Some region.now) × IsTrue (covers address count region.now)) }
{
    for region in regions {
        if region.covers(address, count) {
            return Some(region);
        }
    }
    None
}

/// The first region that has the word at an address, of those whose words may be executed.
#[inline]
fn find_code<'a>(regions: &'a [Region], address: u32) -> Option<&'a Region>
    ensures { MatchOption result (find (covers address 4) (filter is_code regions.now) ≡ None) (λ region. (find (covers address 4) (filter is_code regions.now) ≡ Some region.now) × IsTrue (covers address 4 region.now)) }
{
    for region in regions {
        if region.is_code() && region.covers(address, 4) {
            return Some(region);
        }
    }
    None
}

/// Writes the bytes into the region that has them all, if it may be written, and tells whether it may; None where no
/// region has them.
#[inline(always)]
fn write_one(regions: &mut [Region], address: u32, bytes: &[u8]) -> Option<bool>
    requires some { 0 < length bytes.now }
    requires apart { IsTrue (are_apart (map span_of regions.old)) }
    ensures after { regions.new ≡ map (written address bytes.now) regions.old }
    ensures may { result ≡ option_map (λ (r : Region). r.writable) (find (covers address (length bytes.now)) regions.old) }
{
    for region in regions.iter_mut() {
        if region.covers(address, bytes.len() as u64) {
            return Some(region.write(address, bytes));
        }
    }
    None
}

/// Writes the bytes into the heap, if it has them all and may be written.
fn write_heap(heap: &mut Region, address: u32, bytes: &[u8]) -> bool
    requires { 0 < length bytes.now }
    ensures may { result ≡ (covers address (length bytes.now) heap.old && heap.old.writable) }
    ensures after { heap.new ≡ written address bytes.now heap.old }
    ensures start { heap.new.start ≡ heap.old.start }
    ensures size { heap.new.size ≡ heap.old.size }
    ensures len { length heap.new.bytes ≡ length heap.old.bytes }
{
    heap.covers(address, bytes.len() as u64) && heap.write(address, bytes)
}

/// The word in four bytes, the highest first.
#[inline]
fn word_of(bytes: &[u8]) -> u32
    requires { length bytes.now ≡ 4 }
    ensures { result ≡ from_be_bytes w32 bytes.now }
{
    u32::from_be_bytes([bytes[0], bytes[1], bytes[2], bytes[3]])
}
