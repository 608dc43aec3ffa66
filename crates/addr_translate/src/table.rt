//! The table, and looking up an address.

ghost use Rattle.std.specs.Prelude.{◌≡◌, ℕ, ◌+◌, ◌*◌, ◌%◌, ◌<◌, ◌≤◌, ◌^◌, ◌++◌, OnOk, IfOk, length};
ghost use Rattle.std.specs.Int.{w32, to_be_bytes, from_be_bytes};
ghost use Rattle.eel_base.specs.Code.{IsText};
ghost use Rattle.addr_translate.specs.Entries.{entry as entry_of, table_bytes};
ghost use Rattle.addr_translate.specs.Lookup.{IsBlock, IsTable, looked_up, second_block as second_block_of, table_word, third_block as third_block_of};
ghost use Rattle.addr_translate.specs.Table.{IsTableOf, blocks, size_of};

use crate::blocks::{BLOCK, PAGE, PART, block_count};
use crate::entries::entry;
use eel_base::{Addr, NoMemory, Text};
use std::alloc::{AllocError, Global};
use std::marker::Model;

/// A table of addresses, as it stands in memory from its base on.
#[derive(Drop)]
pub struct Table {
    base: Addr,
    bytes: Vec<u8>,
}

impl Model for Table {
    ghost use Rattle.addr_translate.specs.Lookup.{TableAt, IsTable};

    ghost Value = { TableAt };

    ghost view = { λ t. record { base = t.base.0; bytes = t.bytes.items } };

    ghost invariant = { λ t. IsTable (record { base = t.base.0; bytes = t.bytes.items }) };
}

/// Appends a word, its highest byte first.
pub fn put_word(out: &mut Vec<u8>, word: u32) -> Result<(), AllocError>
    ensures { OnOk result (out.new.items ≡ out.old.items ++ to_be_bytes w32 word) }
{
    out.extend_from_slice(&word.to_be_bytes())?;
    Ok(())
}

fn bytes_of(
    alloc: Global,
    text: &Text,
    targets: &[Addr],
    foreign: Addr,
    base: Addr,
) -> Result<Vec<u8>, AllocError>
    requires targets { length targets.now ≡ length text.now.words }
    requires room { base.0 + size_of text.now ≤ 2 ^ 31 }
    ensures bytes { IfOk result (λ v. v.items ≡ table_bytes text.now targets.now foreign base.0) }

    // Each entry has 32 bits.
    ensures fits { OnOk result ((n : ℕ) → n < 1024 * blocks text.now
        → entry_of text.now targets.now foreign base.0 n < 2 ^ 32) }
    ensures text { IsText text.now }
{
    let count = block_count(text);
    let mut out = Vec::with_capacity(alloc, (BLOCK * count) as usize)?;
    for n in 0..1024 * count {
        put_word(&mut out, entry(text, targets, foreign, base, n))?;
    }
    Ok(out)
}

/// The table that leads each address of a text word, its low two bits ignored, to that word's target, and every other
/// address to `foreign`. It is to stand at `base`, since its entries are addresses of its own blocks.
pub fn build(
    alloc: Global,
    text: &Text,
    targets: &[Addr],
    foreign: Addr,
    base: Addr,
) -> Result<Table, NoMemory>
    requires targets { length targets.now ≡ length text.now.words }
    requires aligned { base.0 % 4096 ≡ 0 }
    requires room { base.0 + size_of text.now ≤ 2 ^ 31 }
    ensures base { IfOk result (λ t. t.base ≡ base.0) }
    ensures table { IfOk result (IsTableOf text.now targets.now foreign) }
{
    let bytes = bytes_of(alloc, text, targets, foreign, base)?;
    Ok(Table { base, bytes })
}

// The word in four bytes, the highest first.
fn word_of(bytes: &[u8]) -> u32
    requires { length bytes.now ≡ 4 }
    ensures { result ≡ from_be_bytes w32 bytes.now }
{
    u32::from_be_bytes([bytes[0], bytes[1], bytes[2], bytes[3]])
}

impl Table {
    /// What the table has for an address.
    pub fn lookup(&self, t: Addr) -> Addr
        ensures { result.0 ≡ looked_up self.now t.0 }
    {
        Addr(self.word(self.third_block(t) + 4 * (t.0 / 4 % 1024)))
    }

    // The block of the third level for an address.
    fn third_block(&self, t: Addr) -> u32
        ensures value { result ≡ third_block_of self.now t.0 }
        ensures block { IsBlock self.now result }
        ensures below { self.now.base + length self.now.bytes ≤ 2 ^ 31 }
    {
        self.word(self.second_block(t) + 4 * (t.0 / PAGE % 1024))
    }

    // The block of the second level for an address.
    fn second_block(&self, t: Addr) -> u32
        ensures value { result ≡ second_block_of self.now t.0 }
        ensures block { IsBlock self.now result }
        ensures below { self.now.base + length self.now.bytes ≤ 2 ^ 31 }
    {
        self.word(self.base.0 + 4 * (t.0 / PART))
    }

    // The word of the table at an address.
    #[tactic(auto, unfolding(crate::specs::Lookup::table_word))]
    fn word(&self, address: u32) -> u32
        requires from { self.now.base ≤ address }
        requires to { address + 4 ≤ self.now.base + length self.now.bytes }
        ensures value { result ≡ table_word self.now address }
        ensures table { IsTable self.now }
    {
        let at = (address - self.base.0) as usize;
        word_of(&self.bytes[at..at + 4])
    }

    /// Its bytes, as they stand in memory.
    pub fn bytes(&self) -> &[u8]
        ensures value { result.now ≡ self.now.bytes }
        ensures table { IsTable self.now }
    {
        &self.bytes
    }
}
