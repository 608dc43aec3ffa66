//! The entries of a table.

ghost use Rattle.std.specs.Prelude.{◌≡◌, ◌+◌, ◌*◌, ◌^◌, ◌<◌, ◌≤◌, length};
ghost use Rattle.eel_base.specs.CodeText.{word_at};
ghost use Rattle.addr_translate.specs.Entries.{entry as entry_of, second_for, third_for};
ghost use Rattle.addr_translate.specs.Table.{blocks, size_of, target_of};

use crate::blocks::{BLOCK, pages_of, parts_of};
use eel_base::{Addr, Text};

// The block of the second level for a part of 4 MiB.
fn second_number(text: &Text, part: u32) -> u32
    ensures value { result ≡ second_for text.now part }
    ensures within { result < blocks text.now }
{
    let parts = parts_of(text);
    if parts.contains(part) {
        3 + (part - parts.first)
    } else {
        1
    }
}

// The block of the third level for a page of 4 KiB.
fn third_number(text: &Text, page: u32) -> u32
    ensures value { result ≡ third_for text.now page }
    ensures within { result < blocks text.now }
{
    let pages = pages_of(text);
    if pages.contains(page) {
        3 + parts_of(text).count + (page - pages.first)
    } else {
        2
    }
}

/// Where the word at an address leads.
pub fn target(text: &Text, targets: &[Addr], foreign: Addr, address: Addr) -> u32
    requires { length targets.now ≡ length text.now.words }
    ensures { result ≡ target_of targets.now foreign (word_at text.now address.0) }
{
    match text.find(address) {
        Some(word) => targets[word.0 as usize].0,
        None => foreign.0,
    }
}

/// The word of a table with this number.
#[tactic(auto, unfolding(crate::specs::Entries::entry))]
pub fn entry(text: &Text, targets: &[Addr], foreign: Addr, base: Addr, n: u32) -> u32
    requires targets { length targets.now ≡ length text.now.words }
    requires room { base.0 + size_of text.now ≤ 2 ^ 31 }
    requires within { n < 1024 * blocks text.now }
    ensures { result ≡ entry_of text.now targets.now foreign base.0 n }
{
    let parts = parts_of(text);
    let pages = pages_of(text);
    let block = n / 1024;
    let place = n % 1024;
    if block == 0 {
        base.0 + BLOCK * second_number(text, place)
    } else if block == 1 {
        base.0 + BLOCK * 2
    } else if block == 2 {
        foreign.0
    } else if block < 3 + parts.count {
        base.0 + BLOCK * third_number(text, 1024 * (parts.first + (block - 3)) + place)
    } else {
        let page = pages.first + (block - 3 - parts.count);
        target(text, targets, foreign, Addr(BLOCK * page + 4 * place))
    }
}
