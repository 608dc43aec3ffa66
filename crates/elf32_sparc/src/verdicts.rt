//! The verdicts on a file that is to be edited, and on one that is to be run.
ghost use Rattle.std.specs.Prelude.{◌≡◌};
ghost use Rattle.elf32_sparc.specs.FileFault.{first_that_holds, header_rows, has_bad_table, fault, load_fault};

use crate::fault::FileFault;
use crate::header::{
    E_ENTRY, E_PHNUM, E_PHOFF, FILE_HEADER_SIZE, PROGRAM_HEADER_SIZE, half_at, word_at,
};
use crate::survey::Survey;

/// How many program headers a file has at most: one that is edited, and one that is run.
const MOST_HEADERS: u16 = 64;

const MOST_RUN_HEADERS: u16 = 80;

/// What keeps a file from being edited: the first fault that it has.
pub fn verdict(bytes: &[u8]) -> Option<FileFault>
    ensures { result ≡ fault bytes.now }
{
    if let Some(fault) = header_fault(bytes, MOST_HEADERS) {
        return Some(fault);
    }
    Survey::of(bytes).fault(word_at(bytes, E_ENTRY))
}

/// What keeps a file from being run: the first fault that it has. Its text isn't judged.
pub fn load_verdict(bytes: &[u8]) -> Option<FileFault>
    ensures { result ≡ load_fault bytes.now }
{
    if let Some(fault) = header_fault(bytes, MOST_RUN_HEADERS) {
        return Some(fault);
    }
    Survey::of(bytes).run_fault()
}

/// The first fault of the file header and of the place of the table of program headers, of which there
/// may be `most`.
#[tactic(auto, unfolding(crate::specs::FileFault::is_short, crate::specs::FileFault::has_other_magic, crate::specs::FileFault::has_other_class, crate::specs::FileFault::has_other_order, crate::specs::FileFault::has_other_version, crate::specs::FileFault::has_other_type, crate::specs::FileFault::has_other_machine, crate::specs::FileFault::has_other_sizes))]
fn header_fault(bytes: &[u8], most: u16) -> Option<FileFault>
    ensures { result ≡ first_that_holds (header_rows most bytes.now) }
{
    if bytes.len() < FILE_HEADER_SIZE {
        Some(FileFault::Short)
    } else if word_at(bytes, 0) != 0x7f45_4c46 {
        Some(FileFault::Magic)
    } else if bytes[4] != 1 {
        Some(FileFault::Class)
    } else if bytes[5] != 2 {
        Some(FileFault::Order)
    } else if bytes[6] != 1 || word_at(bytes, 20) != 1 {
        Some(FileFault::Version)
    } else if half_at(bytes, 16) != 2 {
        Some(FileFault::Kind)
    } else if half_at(bytes, 18) != 2 {
        Some(FileFault::Machine)
    } else if half_at(bytes, 40) != 52 || half_at(bytes, 42) != 32 {
        Some(FileFault::HeaderSize)
    } else if has_bad_table(bytes, most) {
        Some(FileFault::Headers)
    } else {
        None
    }
}

/// There is no program header, there are more than `most`, or the table isn't in the file.
#[tactic(auto, unfolding(crate::specs::FileFault::has_bad_table))]
fn has_bad_table(bytes: &[u8], most: u16) -> bool
    ensures { result ≡ has_bad_table most bytes.now }
{
    let count = half_at(bytes, E_PHNUM);
    let table_end = word_at(bytes, E_PHOFF) as usize + PROGRAM_HEADER_SIZE * usize::from(count);
    count == 0 || count > most || table_end > bytes.len()
}
