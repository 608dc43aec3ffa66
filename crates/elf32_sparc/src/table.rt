//! The table of program headers of a file that can be edited.
ghost use Rattle.std.specs.Prelude.{◌≡◌, ◌≤◌, ◌^◌, None, IfOk, OnOk, All, length, vec_len};
ghost use Rattle.elf32_sparc.specs.Header.{program_headers, loadable};
ghost use Rattle.elf32_sparc.specs.FileFault.{fault};

use crate::header::{E_PHNUM, E_PHOFF, PROGRAM_HEADER_SIZE, ProgramHeader, half_at, word_at};
use eel_base::NoMemory;
use std::alloc::Global;

/// All program headers of a file without a fault, in the file's order.
pub fn read_headers(alloc: Global, bytes: &[u8]) -> Result<Vec<ProgramHeader>, NoMemory>
    requires { fault bytes.now ≡ None }
    ensures headers { IfOk result (λ headers. headers.items ≡ program_headers bytes.now) }
    ensures few { IfOk result (λ headers. vec_len headers ≤ 64) }
    ensures whole { OnOk result (52 ≤ length bytes.now) }
    ensures aligned { OnOk result (All (λ header. header.p_align ≤ 2 ^ 20) (loadable (program_headers bytes.now))) }
{
    let table = word_at(bytes, E_PHOFF) as usize;
    let count = half_at(bytes, E_PHNUM) as usize;
    let mut headers = Vec::with_capacity(alloc, count)?;
    for number in 0..count {
        headers.push(ProgramHeader::read(bytes, table + PROGRAM_HEADER_SIZE * number))?;
    }
    Ok(headers)
}
