//! The section table of a file, and the function symbols to which it leads.
ghost use Rattle.std.specs.Prelude.{◌≡◌, ◌+◌, ◌*◌, ◌<◌, ◌^◌, drop, find, slice_get, take, IfOk, IfSome};
ghost use Rattle.elf32_sparc.specs.Symbols.{e_shoff, func_at, funcs_in, funcs_of, funcs_with, has_sections, is_function, is_readable, is_string_table, is_symbol_table, lie_in, name_in, section_bytes, section_count, section_header, section_in, sections, string_table, symbol_table};

use crate::header::{half_at, word_at};
use crate::name::Name;
use crate::program::{byte_or_zero, part};
use eel_base::{Addr, NoMemory, Text, WordNo};
use std::alloc::Global;

/// A function symbol that begins at a word of the text.
#[derive(Drop)]
pub struct Func {
    pub start: WordNo,
    pub name: Name,
}

// Places of the fields of the file header that are read, and the size of an entry of each table.
const E_SHOFF: usize = 32;

const E_SHENTSIZE: usize = 46;

const E_SHNUM: usize = 48;

const SECTION_HEADER_SIZE: u32 = 40;

const SYMBOL_SIZE: u32 = 16;

// Types of sections and symbols.
const SHT_SYMTAB: u32 = 2;

const SHT_STRTAB: u32 = 3;

const STT_FUNC: u8 = 2;

/// An entry of the section table: the fields that are read.
#[derive(Clone, Copy)]
pub(crate) struct SectionHeader {
    sh_type: u32,
    sh_offset: u32,
    sh_size: u32,
    sh_link: u32,
    sh_entsize: u32,
}

impl SectionHeader {
    /// The entry at `at`.
    #[tactic(auto, unfolding(crate::specs::Symbols::section_header))]
    fn read(bytes: &[u8], at: usize) -> SectionHeader
        requires { at + 40 < 2 ^ 64 }
        ensures { result ≡ section_header bytes.now at }
    {
        SectionHeader {
            sh_type: word_at(bytes, at + 4),
            sh_offset: word_at(bytes, at + 16),
            sh_size: word_at(bytes, at + 20),
            sh_link: word_at(bytes, at + 24),
            sh_entsize: word_at(bytes, at + 36),
        }
    }

    fn is_symbol_table(&self) -> bool
        ensures { result ≡ is_symbol_table self.now }
    {
        self.sh_type == SHT_SYMTAB
    }

    /// All of its bytes lie in the file.
    fn is_in(&self, bytes: &[u8]) -> bool
        ensures { result ≡ section_in bytes.now self.now }
    {
        lie_in(bytes, self.sh_offset, self.sh_size)
    }

    /// As a symbol table it can be read.
    fn is_readable(&self, bytes: &[u8]) -> bool
        ensures { result ≡ is_readable bytes.now self.now }
    {
        self.is_in(bytes) && self.sh_entsize == SYMBOL_SIZE
    }

    fn is_string_table(&self, bytes: &[u8]) -> bool
        ensures { result ≡ is_string_table bytes.now self.now }
    {
        self.sh_type == SHT_STRTAB && self.is_in(bytes)
    }
}

/// So many bytes at an offset lie in the file.
fn lie_in(bytes: &[u8], offset: u32, size: u32) -> bool
    ensures { result ≡ lie_in bytes.now offset size }
{
    offset as usize + size as usize <= bytes.len()
}

/// How many sections the file has, or 0 where its table can't be read.
fn section_count(bytes: &[u8]) -> u16
    ensures { result ≡ section_count bytes.now }
{
    if has_sections(bytes) {
        half_at(bytes, E_SHNUM)
    } else {
        0
    }
}

/// The section table can be read: it has entries of 40 bytes, at least one, and all of them lie in the file.
pub fn has_sections(bytes: &[u8]) -> bool
    ensures { result ≡ has_sections bytes.now }
{
    let table = word_at(bytes, E_SHOFF);
    let count = half_at(bytes, E_SHNUM);
    table != 0
        && u32::from(half_at(bytes, E_SHENTSIZE)) == SECTION_HEADER_SIZE
        && count >= 1
        && lie_in(bytes, table, SECTION_HEADER_SIZE * u32::from(count))
}

/// The section of that number.
fn section(bytes: &[u8], number: u16) -> SectionHeader
    ensures { result ≡ section_header bytes.now (e_shoff bytes.now + 40 * number) }
{
    let table = word_at(bytes, E_SHOFF) as usize;
    SectionHeader::read(
        bytes,
        table + SECTION_HEADER_SIZE as usize * usize::from(number),
    )
}

/// The first symbol table, where it can be read.
fn symbol_table(bytes: &[u8]) -> Option<SectionHeader>
    ensures { result ≡ symbol_table bytes.now }
{
    first_symbol_table(bytes).filter(|first| first.is_readable(bytes))
}

/// The first symbol table, whether or not it can be read.
fn first_symbol_table(bytes: &[u8]) -> Option<SectionHeader>
    ensures { result ≡ find is_symbol_table (sections bytes.now) }
{
    (0..section_count(bytes))
        .map(|number| section(bytes, number))
        .find(|section| section.is_symbol_table())
}

/// The string table of a symbol table, where it can be read.
fn string_table(bytes: &[u8], symbols: &SectionHeader) -> Option<SectionHeader>
    ensures { result ≡ string_table bytes.now symbols.now }
{
    section_at(bytes, symbols.sh_link).filter(|linked| linked.is_string_table(bytes))
}

/// The section of that number, where there is one.
fn section_at(bytes: &[u8], number: u32) -> Option<SectionHeader>
    ensures { result ≡ slice_get (sections bytes.now) number }
{
    if number < u32::from(section_count(bytes)) {
        Some(section(bytes, number as u16))
    } else {
        None
    }
}

/// The function symbols of a file, in the order of its symbol table; none where that can't be read.
pub(crate) fn read_funcs(alloc: Global, bytes: &[u8], text: &Text) -> Result<Vec<Func>, NoMemory>
    ensures { IfOk result (λ funcs. funcs.items ≡ funcs_of bytes.now text.now) }
{
    let Some(symbols) = symbol_table(bytes) else {
        return Ok(Vec::new(alloc));
    };
    match string_table(bytes, &symbols) {
        Some(strings) => read_funcs_in(alloc, bytes, text, &symbols, &strings),
        None => Ok(Vec::new(alloc)),
    }
}

/// The functions of a symbol table, with their names from a string table.
fn read_funcs_in(
    alloc: Global,
    bytes: &[u8],
    text: &Text,
    symbols: &SectionHeader,
    strings: &SectionHeader,
) -> Result<Vec<Func>, NoMemory>
    ensures { IfOk result (λ funcs. funcs.items ≡ funcs_in bytes.now text.now symbols.now strings.now) }
{
    let names = part(bytes, strings.sh_offset, strings.sh_size);
    let mut funcs = Vec::new(alloc);
    for number in 0..symbols.sh_size / SYMBOL_SIZE {
        let at = symbols.sh_offset as usize + SYMBOL_SIZE as usize * number as usize;
        if let Some(func) = read_func(alloc, bytes, text, names, at)? {
            funcs.push(func)?;
        }
    }
    Ok(funcs)
}

/// The function of the symbol at `at`, if it is one of the text.
fn read_func(
    alloc: Global,
    bytes: &[u8],
    text: &Text,
    names: &[u8],
    at: usize,
) -> Result<Option<Func>, NoMemory>
    requires { at + 16 < 2 ^ 64 }
    ensures { IfOk result (λ func. func ≡ func_at bytes.now text.now names.now at) }
{
    if !is_function(bytes, at) {
        return Ok(None);
    }
    let Some(start) = text.find(Addr(word_at(bytes, at + 4))) else {
        return Ok(None);
    };
    let name = read_name(alloc, names, word_at(bytes, at))?;
    Ok(Some(Func { start, name }))
}

/// The symbol at `at` is a function.
fn is_function(bytes: &[u8], at: usize) -> bool
    requires { at + 16 < 2 ^ 64 }
    ensures { result ≡ is_function bytes.now at }
{
    byte_or_zero(bytes, at + 12) % 16 == STT_FUNC
}

/// The name at a place of a string table; it is empty outside.
fn read_name(alloc: Global, strings: &[u8], st_name: u32) -> Result<Name, NoMemory>
    ensures { IfOk result (λ name. name ≡ name_in strings.now st_name) }
{
    let name = Name::read(alloc, strings.get(st_name as usize..).unwrap_or(&[]))?;
    Ok(name)
}
