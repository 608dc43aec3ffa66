//! The stack on which a program starts.
ghost use Rattle.std.specs.Prelude.{◌≡◌, ◌+◌, ◌≤◌, ◌<◌, ◌^◌, ◌∷◌, ◌++◌, length, replicate, vec_len, IfOk, OnOk};
ghost use Rattle.std.specs.Int.{w32, to_be_bytes};
ghost use Rattle.std.specs.List.{flat_map};
ghost use Rattle.v8_process.specs.Arguments.{texts};
ghost use Rattle.v8_process.specs.Start.{program_name, strings, pointers, stack_start, stack_end, strings_address, argument_words, argument_size, first_sp, words_address, stack_region};
ghost use Rattle.v8_process.specs.Valid.{FitsStack};

use eel_base::NoMemory;
use std::alloc::Global;

/// The addresses of the stack.
pub(crate) const STACK_START: u32 = 0xeff0_0000;

pub(crate) const STACK_END: u32 = 0xf000_0000;

/// The first string: the name of the program, and its zero byte.
const PROGRAM_NAME: [u8; 8] = *b"program\0";

/// The room below the argument words, in which the first window can be saved.
const WINDOW_SIZE: u32 = 64;

/// The zeros that end the pointers, the environment and the auxiliary vector.
const ENDS_SIZE: u32 = 16;

/// Where the argument words and the strings stand. All else is zeros.
#[derive(Clone, Copy)]
struct Layout {
    words: u32,
    words_end: u32,
    strings: u32,
    strings_end: u32,
}

/// The bytes of the whole stack.
pub(crate) fn stack_bytes(alloc: Global, args: &[&str]) -> Result<Vec<u8>, NoMemory>
    requires { FitsStack (program_name ∷ texts args.now) }
    ensures bytes { IfOk result (λ bytes. bytes.items ≡ (stack_region (program_name ∷ texts args.now)).bytes) }
    ensures whole { IfOk result (λ bytes. vec_len bytes ≡ 2 ^ 20) }
{
    let layout = layout_of(args);
    let mut out = Vec::with_capacity(alloc, (STACK_END - STACK_START) as usize)?;
    put_zeros(&mut out, layout.words - STACK_START)?;
    put_argument_words(&mut out, layout.strings, args)?;
    put_zeros(&mut out, layout.strings - layout.words_end)?;
    put_strings(&mut out, args)?;
    put_zeros(&mut out, STACK_END - layout.strings_end)?;
    Ok(out)
}

/// %sp at the start.
pub(crate) fn stack_pointer(args: &[&str]) -> u32
    requires { FitsStack (program_name ∷ texts args.now) }
    ensures { result ≡ first_sp (program_name ∷ texts args.now) }
{
    layout_of(args).words - WINDOW_SIZE
}

fn layout_of(args: &[&str]) -> Layout
    requires { FitsStack (program_name ∷ texts args.now) }
    ensures words { result.words ≡ words_address (program_name ∷ texts args.now) }
    ensures words_end { let all = program_name ∷ texts args.now in
        result.words_end ≡ words_address all + argument_size all }
    ensures strings { result.strings ≡ strings_address (program_name ∷ texts args.now) }
    ensures strings_end { let all = program_name ∷ texts args.now in
        result.strings_end ≡ strings_address all + length (strings all) }
    ensures first { stack_start ≤ result.words }
    ensures second { result.words_end ≤ result.strings }
    ensures last { result.strings_end ≤ stack_end }
{
    let size = strings_size(args);
    let words_size = 4 * (args.len() as u32 + 6);
    let strings = STACK_END - size.next_multiple_of(8);
    let words = (strings - WINDOW_SIZE - words_size) / 8 * 8 + WINDOW_SIZE;
    Layout {
        words,
        words_end: words + words_size,
        strings,
        strings_end: strings + size,
    }
}

/// How many bytes the name of the program and the arguments have, with their zero bytes.
fn strings_size(args: &[&str]) -> u32
    requires { length (strings (program_name ∷ texts args.now)) < 2 ^ 32 }
    ensures { result ≡ length (strings (program_name ∷ texts args.now)) }
{
    let mut size = PROGRAM_NAME.len() as u32;
    for arg in args {
        size += arg.len() as u32 + 1;
    }
    size
}

/// Adds argc, the pointers and the zeros after them, with the strings at this address.
fn put_argument_words(out: &mut Vec<u8>, strings: u32, args: &[&str]) -> Result<(), NoMemory>
    requires fits { FitsStack (program_name ∷ texts args.now) }
    requires address { strings ≡ strings_address (program_name ∷ texts args.now) }
    ensures { let words = argument_words (program_name ∷ texts args.now) in
        OnOk result (out.new.items ≡ out.old.items ++ flat_map (to_be_bytes w32) words) }
{
    put_word(out, args.len() as u32 + 1)?;
    put_word(out, strings)?;
    put_pointers(out, strings + PROGRAM_NAME.len() as u32, args)?;
    put_zeros(out, ENDS_SIZE)?;
    Ok(())
}

/// Adds where each argument stands, the first at this address.
fn put_pointers(out: &mut Vec<u8>, first: u32, args: &[&str]) -> Result<(), NoMemory>
    requires { first + length (strings (texts args.now)) < 2 ^ 32 }
    ensures { let words = pointers first (texts args.now) in
        OnOk result (out.new.items ≡ out.old.items ++ flat_map (to_be_bytes w32) words) }
{
    let mut address = first;
    for arg in args {
        put_word(out, address)?;
        address += arg.len() as u32 + 1;
    }
    Ok(())
}

/// Adds the name of the program and the arguments, with a zero byte after each.
fn put_strings(out: &mut Vec<u8>, args: &[&str]) -> Result<(), NoMemory>
    ensures { OnOk result (out.new.items ≡ out.old.items ++ strings (program_name ∷ texts args.now)) }
{
    out.extend_from_slice(&PROGRAM_NAME)?;
    for arg in args {
        out.extend_from_slice(arg.as_bytes())?;
        out.push(0)?;
    }
    Ok(())
}

/// Adds a big-endian word.
fn put_word(out: &mut Vec<u8>, word: u32) -> Result<(), NoMemory>
    ensures { OnOk result (out.new.items ≡ out.old.items ++ to_be_bytes w32 word) }
{
    out.extend_from_slice(&word.to_be_bytes())?;
    Ok(())
}

/// Adds zeros.
fn put_zeros(out: &mut Vec<u8>, count: u32) -> Result<(), NoMemory>
    ensures { OnOk result (out.new.items ≡ out.old.items ++ replicate count 0) }
{
    out.resize(out.len() + count as usize, 0)?;
    Ok(())
}
