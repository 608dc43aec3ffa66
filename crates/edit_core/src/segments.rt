//! The segments that are added to a file.
ghost use Rattle.std.specs.Prelude.{◌≡◌, ◌*◌, ◌^◌, ◌<◌, ◌≤◌, length, replicate, All, IfOk, OnOk};
ghost use Rattle.elf32_write.specs.Kept.{words_bytes};
ghost use Rattle.elf32_write.specs.Headers.{segment_seen};
ghost use Rattle.elf32_write.specs.Laws.{AreBytes};
ghost use Rattle.edit_core.specs.Written.{cells_at, code_at, page_segment as page_segment_of, table_at};

use eel_base::{Addr, NoMemory};
use elf32_sparc::SegFlags;
use elf32_write::{NewSegment, put_words};
use std::alloc::Global;

// PF_R alone, with PF_X, and with PF_W.
const TABLE: SegFlags = SegFlags(4);

const CODE: SegFlags = SegFlags(5);

const DATA: SegFlags = SegFlags(6);

/// Where the editor's own page stands, and how many bytes it has.
pub(crate) const EDITOR_PAGE: Addr = Addr(0xffff_f000);

pub(crate) const PAGE_SIZE: u32 = 4096;

/// Cells, which begin as zeros, so that they need no bytes.
pub(crate) fn cells_segment(alloc: Global, base: Addr, cells: u32) -> NewSegment
    requires { cells ≤ 2 ^ 23 }
    ensures { segment_seen result ≡ cells_at base.0 cells }
{
    NewSegment {
        vaddr: base,
        memsz: 4 * cells,
        flags: DATA,
        bytes: Vec::new(alloc),
    }
}

/// Tables of addresses, which can only be read.
pub(crate) fn tables_segment(vaddr: Addr, bytes: Vec<u8>) -> NewSegment
    requires { length bytes.items < 2 ^ 32 }
    ensures segment { segment_seen result ≡ table_at (record { base = vaddr.0; bytes = bytes.items }) }
    ensures bytes { AreBytes bytes.items }
{
    NewSegment {
        vaddr,
        memsz: count_bytes(&bytes),
        flags: TABLE,
        bytes,
    }
}

// How many bytes there are.
fn count_bytes(bytes: &[u8]) -> u32
    requires { length bytes.now < 2 ^ 32 }
    ensures count { result ≡ length bytes.now }
    ensures bytes { AreBytes bytes.now }
{
    bytes.len() as u32
}

/// New code, which can be executed and not written.
pub(crate) fn code_segment(alloc: Global, base: Addr, code: &[u32]) -> Result<NewSegment, NoMemory>
    requires { 4 * length code.now ≤ 2 ^ 31 }
    ensures segment { IfOk result (λ s. segment_seen s ≡ code_at base.0 code.now) }
    ensures words { OnOk result (All (λ word. word < 2 ^ 32) code.now) }
{
    Ok(NewSegment {
        vaddr: base,
        memsz: 4 * code.len() as u32,
        flags: CODE,
        bytes: code_bytes(alloc, code)?,
    })
}

// Words as they stand in memory.
fn code_bytes(alloc: Global, code: &[u32]) -> Result<Vec<u8>, NoMemory>
    requires { 4 * length code.now ≤ 2 ^ 31 }
    ensures { IfOk result (λ bytes. bytes.items ≡ words_bytes code.now) }
{
    let mut bytes = Vec::with_capacity(alloc, 4 * code.len())?;
    put_words(&mut bytes, code)?;
    Ok(bytes)
}

/// The editor's page, which can be written and not executed.
pub(crate) fn page_segment(alloc: Global) -> Result<NewSegment, NoMemory>
    ensures { IfOk result (λ s. segment_seen s ≡ page_segment_of) }
{
    Ok(NewSegment {
        vaddr: EDITOR_PAGE,
        memsz: PAGE_SIZE,
        flags: DATA,
        bytes: zeros(alloc, PAGE_SIZE)?,
    })
}

/// So many zeros.
pub(crate) fn zeros(alloc: Global, count: u32) -> Result<Vec<u8>, NoMemory>
    ensures { IfOk result (λ bytes. bytes.items ≡ replicate count 0) }
{
    let bytes = vec![in alloc; 0; count as usize]?;
    Ok(bytes)
}
