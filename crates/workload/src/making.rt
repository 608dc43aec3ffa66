//! The file.
ghost use Rattle.std.specs.Prelude.{◌≡◌, ◌+◌, ◌*◌, ◌^◌, ◌<◌, ◌≤◌, ◌++◌, length, map, IfOk, OnOk};
ghost use Rattle.std.specs.Int.{w32, to_be_bytes};
ghost use Rattle.std.specs.List.{flat_map};
ghost use Rattle.v8_encode.specs.Encoding.{word_of};
ghost use Rattle.workload.specs.Generated.{bytes_of, caller_code, routine_code, routines_from, header_words, generated};

use crate::draws::Draws;
use crate::words::{call_words, exit_words, routine_words};
use eel_base::NoMemory;
use std::alloc::Global;

/// Bytes of the headers, and of a word.
const HEADERS_SIZE: u32 = 84;

const WORD_SIZE: u32 = 4;

/// Where the segment stands in memory, and its first word, at which the program is entered.
const ENTRY: u32 = 0x0001_0054;

/// The type, the flags and the alignment of the segment.
const PT_LOAD: u32 = 1;

const READ_EXECUTE: u32 = 5;

const ALIGNMENT: u32 = 0x0001_0000;

/// The header of an executable for SPARC with one program header and no sections.
const FILE_HEADER: [u32; 13] = [
    0x7f45_4c46,
    0x0102_0100,
    0,
    0,
    0x0002_0002,
    1,
    ENTRY,
    52,
    0,
    0,
    0x0034_0020,
    0x0001_0000,
    0,
];

/// The file of a program of so many routines, which are made from the number.
pub fn make(alloc: Global, number: u32, routines: u32) -> Result<Vec<u8>, NoMemory>
    requires some { 1 ≤ routines }
    requires few { routines ≤ 100000 }
    ensures file { IfOk result (λ file. file.items ≡ generated number routines) }
    ensures size { IfOk result (λ file. length file.items ≡ 84 + 4 * (9 * routines + 2)) }
{
    let words = 9 * routines + 2;
    let size = HEADERS_SIZE + WORD_SIZE * words;
    let mut file = Vec::with_capacity(alloc, size as usize)?;
    put_headers(&mut file, WORD_SIZE * words)?;
    put_caller(&mut file, routines)?;
    put_routines(&mut file, number, routines)?;
    Ok(file)
}

/// Adds the header of the file, and that of its one segment, which holds a text of so many bytes.
#[tactic(auto, using(std::proofs::lemmas::List::append_assoc))]
fn put_headers(out: &mut Vec<u8>, size: u32) -> Result<(), NoMemory>
    ensures { OnOk result (out.new.items ≡ out.old.items ++ bytes_of (header_words size)) }
{
    put_words(out, &FILE_HEADER)?;
    put_words(
        out,
        &[
            PT_LOAD,
            HEADERS_SIZE,
            ENTRY,
            ENTRY,
            size,
            size,
            READ_EXECUTE,
            ALIGNMENT,
        ],
    )?;
    Ok(())
}

/// Adds the calls of so many routines, and the exit.
fn put_caller(out: &mut Vec<u8>, count: u32) -> Result<(), NoMemory>
    requires { count ≤ 100000 }
    ensures { OnOk result (out.new.items ≡ out.old.items ++ bytes_of (map word_of (caller_code count))) }
{
    for routine in 0..count {
        put_words(out, &call_words(count, routine))?;
    }
    put_words(out, &exit_words())?;
    Ok(())
}

/// Adds so many routines, which are made from the number.
fn put_routines(out: &mut Vec<u8>, number: u32, count: u32) -> Result<(), NoMemory>
    ensures { let code = flat_map routine_code (routines_from count number) in
        OnOk result (out.new.items ≡ out.old.items ++ bytes_of (map word_of code)) }
{
    let mut draws = Draws { state: number };
    for _ in 0..count {
        put_words(out, &routine_words(draws.routine()))?;
    }
    Ok(())
}

/// Adds big-endian words.
fn put_words(out: &mut Vec<u8>, words: &[u32]) -> Result<(), NoMemory>
    ensures { OnOk result (out.new.items ≡ out.old.items ++ bytes_of words.now) }
{
    for word in words {
        put_word(out, *word)?;
    }
    Ok(())
}

/// Adds a big-endian word.
fn put_word(out: &mut Vec<u8>, word: u32) -> Result<(), NoMemory>
    ensures { OnOk result (out.new.items ≡ out.old.items ++ to_be_bytes w32 word) }
{
    out.extend_from_slice(&word.to_be_bytes())?;
    Ok(())
}
