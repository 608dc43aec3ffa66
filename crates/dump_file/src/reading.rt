//! Reading dumps.
ghost use Rattle.std.specs.Prelude.{◌≡◌, ◌≤◌, ◌<◌, ◌+◌, ◌*◌, ◌^◌, MatchResult, IfOk, IfErr, length, true, false, vec_len};
ghost use Rattle.eel_base.specs.Fields.{be_field};
ghost use Rattle.dump_file.specs.Code.{dump_seen, Answers};
ghost use Rattle.dump_file.specs.Private.{Reads};
ghost use Rattle.notes.specs.Format.{is_version};
ghost use Rattle.dump_file.specs.Reading.{read_dump, count_at, count_place, field_at, ending_at, ending_of, length_at, number_limit, fits, version_at, words_of};
ghost use Rattle.dump_file.specs.declared.dump.DumpFault.TheVariants as faults;

use crate::dump::{Dump, DumpFault};
use crate::writing::{MARK, NARROW, WIDE};
use byteorder::{BigEndian, ByteOrder};
use eel_base::{Addr, be32_at};
use std::alloc::Global;
use v8_step::Ending;

/// The dump that these bytes are.
///
/// They are read in one pass. Beside the cells it takes no memory.
#[tactic(auto, unfolding(crate::specs::Reading::read_dump))]
pub fn read_dump(alloc: Global, bytes: &[u8]) -> Result<Dump, DumpFault>
    ensures read { Answers dump_seen result (read_dump bytes.now) }
    ensures few { IfOk result (λ dump. vec_len dump.cells < 2 ^ 32) }
{
    let version = version_at(bytes)?;
    let ending = ending_at(bytes)?;
    let pc = Addr(word_at(bytes, 16)?);
    let steps = long_at(bytes, 20)?;
    let length = length_at(bytes, version)?;
    let count = count_at(bytes, version)?;
    let (_, cells) = bytes.split_at(count_place(version) as usize + 4);
    let cells = read_words(alloc, cells, count as usize)?;
    Ok(Dump {
        version,
        ending,
        pc,
        steps,
        length,
        cells,
    })
}

/// The version, behind the mark.
#[tactic(auto, unfolding(crate::specs::Reading::version_at))]
fn version_at(bytes: &[u8]) -> Result<u32, DumpFault>
    ensures { Reads result (version_at bytes.now) }
{
    let mark = word_at(bytes, 0)?;
    keep(mark == MARK, 0)?;
    let version = word_at(bytes, 4)?;
    keep(is_version(version), 4)?;
    Ok(version)
}

/// The number of cells, which are all that follows it.
#[tactic(auto, unfolding(crate::specs::Reading::count_at))]
fn count_at(bytes: &[u8], version: u32) -> Result<u32, DumpFault>
    ensures count { Reads result (count_at version bytes.now) }
    ensures all { IfOk result (λ count. length bytes.now ≡ count_place version + 4 + 4 * count) }
{
    let place = count_place(version);
    let count = word_at(bytes, place)?;
    keep(fits(place + 4, bytes, count), place)?;
    Ok(count)
}

fn is_version(version: u32) -> bool
    ensures { result ≡ is_version version }
{
    version == NARROW || version == WIDE
}

/// Where the number of cells stands.
fn count_place(version: u32) -> u32
    ensures result { result ≡ count_place version }
    ensures low { result ≤ 32 }
{
    if version == NARROW { 28 } else { 32 }
}

/// The size of the original, in the version that has it.
fn length_at(bytes: &[u8], version: u32) -> Result<u32, DumpFault>
    ensures { Reads result (length_at version bytes.now) }
{
    if version == NARROW {
        return Ok(0);
    }
    word_at(bytes, 28)
}

/// How the run ended, by its kind and its number.
#[tactic(auto, unfolding(crate::specs::Reading::ending_at))]
fn ending_at(bytes: &[u8]) -> Result<Option<Ending>, DumpFault>
    ensures { Reads result (ending_at bytes.now) }
{
    let kind = word_at(bytes, 8)?;
    keep(kind <= 4, 8)?;
    let number = word_at(bytes, 12)?;
    keep(number <= number_limit(kind), 12)?;
    Ok(ending_of(kind, number))
}

/// The greatest number that an ending of this kind has.
fn number_limit(kind: u32) -> u32
    ensures { result ≡ number_limit kind }
{
    if kind == 1 || kind == 2 { 255 } else { 0 }
}

/// The ending of this kind with this number.
fn ending_of(kind: u32, number: u32) -> Option<Ending>
    requires { number ≤ 255 }
    ensures { result ≡ ending_of kind number }
{
    match kind {
        1 => Some(Ending::Exit(number as u8)),
        2 => Some(Ending::Trap(number as u8)),
        3 => Some(Ending::Window),
        4 => Some(Ending::Couple),
        _ => None,
    }
}

/// So many cells are all that follows the first bytes.
fn fits(first: u32, bytes: &[u8], count: u32) -> bool
    requires { first ≤ 36 }
    ensures { result ≡ fits first bytes.now count }
{
    bytes.len() == first as usize + 4 * count as usize
}

/// The word at an offset.
fn word_at(bytes: &[u8], at: u32) -> Result<u32, DumpFault>
    ensures { Reads result (field_at 4 bytes.now at) }
{
    match be32_at(bytes, at as usize) {
        Some(word) => Ok(word),
        None => Err(DumpFault::Bad(at)),
    }
}

/// The number of eight bytes at an offset.
fn long_at(bytes: &[u8], at: u32) -> Result<u64, DumpFault>
    ensures { Reads result (field_at 8 bytes.now at) }
{
    match be64_at(bytes, at as usize) {
        Some(number) => Ok(number),
        None => Err(DumpFault::Bad(at)),
    }
}

fn be64_at(bytes: &[u8], at: usize) -> Option<u64>
    ensures { result ≡ be_field 8 bytes.now at }
{
    let field = bytes.get(at..)?.get(..8)?;
    Some(BigEndian::read_u64(field))
}

/// Refuses what breaks the rule of the number at an offset.
fn keep(rule: bool, at: u32) -> Result<(), DumpFault>
    ensures { MatchResult result (λ _. rule ≡ true) (λ fault. (rule ≡ false) × (fault ≡ faults.Bad at)) }
{
    if !rule {
        return Err(DumpFault::Bad(at));
    }
    Ok(())
}

/// So many words.
fn read_words(alloc: Global, bytes: &[u8], count: usize) -> Result<Vec<u32>, DumpFault>
    requires { length bytes.now ≡ 4 * count }
    ensures words { IfOk result (λ words. words.items ≡ words_of bytes.now count) }
    ensures size { IfOk result (λ words. vec_len words ≡ count) }
    ensures fault { IfErr result (λ fault. fault ≡ faults.NoMemory) }
{
    let mut words = vec![in alloc; 0; count]?;
    BigEndian::read_u32_into(bytes, &mut words);
    Ok(words)
}
