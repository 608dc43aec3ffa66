//! Dumps through both calls: what was read is written again, and what is cut off is named by its offset.
use crate::building::bytes_of;
use dump_file::{DumpFault, read_dump, write_dump};
use std::alloc::Global;
use std::test::Fail;

/// Exit with 3 at 0x20000, after 3 steps, with two cells.
const WORDS: [u32; 10] = [0x45454c44, 1, 1, 3, 0x20000, 0, 3, 2, 12, 0xffffffff];

/// The same exit without cells.
const NO_CELLS: [u32; 8] = [0x45454c44, 1, 1, 3, 0x20000, 0, 3, 0];

/// The first dump, of an original of 0x20058 bytes.
const WIDE_WORDS: [u32; 11] = [
    0x45454c44, 2, 1, 3, 0x20000, 0, 3, 0x20058, 2, 12, 0xffffffff,
];

/// A dump, read and written again.
fn written_again(alloc: Global, bytes: &[u8]) -> Result<Vec<u8>, Fail> {
    let dump = read_dump(alloc, bytes)?;
    if dump.version == 1 && dump.length != 0 || dump.version != 1 && dump.version != 2 {
        return Err(Fail::from("version"));
    }
    if dump.cells.len() >= 1 << 30 {
        return Err(Fail::from("cells"));
    }
    Ok(write_dump(alloc, &dump)?)
}

#[test]
fn dumps_read_and_are_written_again(rt: HostRuntime) -> Result<(), Fail> {
    for words in [WORDS.as_slice(), WIDE_WORDS.as_slice()] {
        let file = bytes_of(rt.alloc(), words)?;
        let again = written_again(rt.alloc(), &file)?;
        assert_eq!(rt; again.as_slice(), file.as_slice());
    }
    Ok(())
}

/// Words, how many bytes of them there are, and the offset that is named. A wide dump has its number of cells behind the
/// length.
const CUT: [(&[u32], usize, u32); 2] = [(&NO_CELLS, 31, 28), (&WIDE_WORDS, 35, 32)];

#[test]
fn what_is_cut_off_is_named(rt: HostRuntime) -> Result<(), Fail> {
    for (words, size, offset) in CUT {
        let mut file = bytes_of(rt.alloc(), words)?;
        file.truncate(size);
        let fault = read_dump(rt.alloc(), &file).err();
        assert_eq!(rt; fault, Some(DumpFault::Bad(offset)), "{size} bytes");
    }
    Ok(())
}
