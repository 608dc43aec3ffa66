//! Listings of texts.
ghost use Rattle.std.specs.Prelude.{◌≡◌, ◌++◌, ◌∷◌, [], Some, None, IfErr, IfOk, OnErr, OnOk};
ghost use Rattle.v8_text.specs.Private.{is_next, IsLineOf, IsNextLine};
ghost use Rattle.v8_text.specs.Listings.{IsListing};
ghost use Rattle.v8_text.specs.Code.{IsUnlisted};
ghost use Rattle.v8_text.specs.declared.listings.ListFault.TheVariants as faults;
ghost use Rattle.v8_text.specs.Texts.{line_text, listing_text};

use crate::reading::word_of;
use crate::writing::put_word;
use eel_base::{Addr, NoMemory, Text, WordNo, hex8};
use line_words::{read_address, split_at};
use std::alloc::{AllocError, Global};

/// Why some bytes are no listing.
#[derive(Clone, Copy)]
pub enum ListFault {
    /// The number of the first line that isn't the next word's, counted from 1.
    Line(u32),
    NoMemory,
}

impl From<AllocError> for ListFault {
    ghost use Rattle.v8_text.specs.declared.listings.ListFault.TheVariants as faults;

    ghost from_gives = { λ _ fault. fault ≡ faults.NoMemory };

    fn from(_: AllocError) -> ListFault {
        ListFault::NoMemory
    }
}

// ---- writing

/// A line for each word of a text: its address, one space and its text.
pub fn listing(alloc: Global, text: &Text) -> Result<Vec<u8>, NoMemory>
    ensures { IfOk result (λ lines. lines.items ≡ listing_text text.now) }
{
    let mut lines = Vec::new(alloc);
    for word in 0..text.len() {
        put_line(
            &mut lines,
            text.address(WordNo(word)),
            text.word(WordNo(word)),
        )?;
    }
    Ok(lines)
}

/// Adds the line of a word.
fn put_line(lines: &mut Vec<u8>, at: Addr, word: u32) -> Result<(), NoMemory>
    ensures { OnOk result (lines.new.items ≡ lines.old.items ++ line_text at.0 word) }
{
    lines.extend_from_slice(&hex8(at.0))?;
    lines.push(b' ')?;
    put_word(lines, at, word)?;
    lines.push(b'\n')?;
    Ok(())
}

// ---- reading

/// The words of a listing: the address of the first line is a multiple of 4, and each line's is four above that of the
/// line before. No bytes are no words. It goes over the bytes once.
pub fn read_listing(alloc: Global, bytes: &[u8]) -> Result<Vec<u32>, ListFault>
    ensures words { IfOk result (λ words. IsListing bytes.now words.items) }
    ensures refused { IfErr result (IsUnlisted bytes.now) }
{
    let mut words = Vec::new(alloc);
    let mut next = None;
    let mut rest = bytes;
    while !rest.is_empty() {
        let line = wanted_line(rest, next, words.len() as u32 + 1)?;
        push(&mut words, line.word)?;
        next = Some(u64::from(line.at) + 4);
        rest = line.rest;
    }
    Ok(words)
}

fn push(words: &mut Vec<u32>, word: u32) -> Result<(), AllocError>
    ensures { OnOk result (words.new.items ≡ words.old.items ++ word ∷ []) }
{
    words.push(word)?;
    Ok(())
}

/// A word's line, and what follows it.
#[derive(Clone, Copy, Drop)]
struct Line<'a> {
    at: u32,
    word: u32,
    rest: &'a [u8],
}

/// The line at the front, which has this number and is to be that of a word at the next address.
fn wanted_line<'a>(bytes: &'a [u8], next: Option<u64>, number: u32) -> Result<Line<'a>, ListFault>
    ensures line { IfOk result (λ line. IsNextLine bytes.now next (Some line)) }
    ensures bad { OnErr result (IsNextLine bytes.now next None) }
    ensures fault { IfErr result (λ fault. fault ≡ faults.Line number) }
{
    match next_line(bytes, next) {
        Some(line) => Ok(line),
        None => Err(ListFault::Line(number)),
    }
}

/// The line at the front, where it is that of a word at the next address.
fn next_line<'a>(bytes: &'a [u8], next: Option<u64>) -> Option<Line<'a>>
    ensures { IsNextLine bytes.now next result }
{
    let (line, rest) = split_at(bytes, b'\n')?;
    let (at, word) = read_line(line)?;
    if is_next(next, at) {
        Some(Line { at, word, rest })
    } else {
        None
    }
}

/// The address and the word of a line without its newline.
fn read_line(line: &[u8]) -> Option<(u32, u32)>
    ensures { IsLineOf line.now result }
{
    let (digits, text) = split_at(line, b' ')?;
    let at = read_address(digits)?;
    let word = word_of(Addr(at), text)?;
    Some((at, word))
}

/// Whether a line may have the address; the first may have any multiple of 4.
fn is_next(next: Option<u64>, at: u32) -> bool
    ensures { result ≡ is_next next at }
{
    match next {
        None => at % 4 == 0,
        Some(next) => u64::from(at) == next,
    }
}
