//! The command `words`.
ghost use Rattle.std.specs.Prelude.{◌≡◌, ◌≤◌, IfOk, IfErr};
ghost use Rattle.elf32_write.specs.Kept.{words_bytes};
ghost use Rattle.v8_text.specs.Listings.{IsListing};
ghost use Rattle.eel_said.specs.Code.{outcome_seen};
ghost use Rattle.eel_said.specs.Seen.{files_seen};
ghost use Rattle.eel_reports.specs.Answers.Steps.{Makes};
ghost use Rattle.eel_reports.specs.Answers.Words.{IsAssembled, IsNotListing, listing_limit};
ghost use Rattle.eel_reports.specs.Refusals.{unlisted_of};

use crate::texts::{fetch_file, put_file};
use eel_base::{Files, NoMemory};
use eel_said::{LineCause, Outcome};
use elf32_write::put_words;
use std::alloc::Global;
use v8_text::{ListFault, read_listing};

/// How many bytes a listing may have.
const LISTING_LIMIT: u64 = 64 << 20;

/// Reads `listing`, and writes its words as `output`.
pub fn assemble_words<'a, F: Files>(
    alloc: Global,
    files: &mut F,
    listing: &'a str,
    output: &str,
) -> Outcome<'a>
    ensures assembles { Makes listing_limit (IsNotListing listing.now) IsAssembled listing.now output.now
        (files_seen F.Files files.old) (files_seen F.Files files.new) (outcome_seen result) }
    ensures later { F.faults files.old ≤ F.faults files.new }
{
    let bytes = match fetch_file(alloc, files, listing, LISTING_LIMIT) {
        Ok(bytes) => bytes,
        Err(outcome) => return outcome,
    };
    match assembled(alloc, listing, &bytes) {
        Ok(words) => put_file(files, output, &words),
        Err(outcome) => outcome,
    }
}

/// The words of the listing that the file `name` is, as bytes.
fn assembled<'a>(alloc: Global, name: &'a str, bytes: &[u8]) -> Result<Vec<u8>, Outcome<'a>>
    ensures words { IfOk result (λ file. IsAssembled bytes.now file.items) }
    ensures refused { IfErr result (λ outcome. IsNotListing name.now bytes.now (outcome_seen outcome)) }
{
    let words = words_in(alloc, name, bytes)?;
    Ok(big_endian(alloc, &words)?)
}

/// The words of the listing that the file `name` is.
fn words_in<'a>(alloc: Global, name: &'a str, bytes: &[u8]) -> Result<Vec<u32>, Outcome<'a>>
    ensures words { IfOk result (λ words. IsListing bytes.now words.items) }
    ensures refused { IfErr result (λ outcome. IsNotListing name.now bytes.now (outcome_seen outcome)) }
{
    match read_listing(alloc, bytes) {
        Ok(words) => Ok(words),
        Err(fault) => Err(unlisted(name, fault)),
    }
}

/// What a fault of the listing that the file `name` is to be comes to.
fn unlisted<'a>(name: &'a str, fault: ListFault) -> Outcome<'a>
    ensures { outcome_seen result ≡ unlisted_of name.now fault }
{
    match fault {
        ListFault::Line(number) => Outcome::BadLine {
            name,
            number,
            cause: LineCause::Grammar,
        },
        ListFault::NoMemory => Outcome::OutOfMemory,
    }
}

/// Words as bytes, the highest byte of each first.
fn big_endian(alloc: Global, words: &[u32]) -> Result<Vec<u8>, NoMemory>
    ensures { IfOk result (λ bytes. bytes.items ≡ words_bytes words.now) }
{
    let mut bytes = Vec::new(alloc);
    put_words(&mut bytes, words)?;
    Ok(bytes)
}
