//! Files that several tests build of words.
use std::alloc::{AllocError, Global};

/// A program of three words at 0x10054: its file header, one program header, and the words.
pub const THREE_WORDS: [u32; 24] = [
    0x7f454c46, 0x01020100, 0, 0, 0x00020002, 1, 0x00010054, 0x34, 0, 0, 0x00340020, 0x00010000, 0,
    1, 0x54, 0x00010054, 0x00010054, 0xc, 0xc, 5, 0x00010000, 0x82102001, 0x90102003, 0x91d02010,
];

/// In notes, in place of the cell of an edge that has none.
pub const NONE: u32 = u32::MAX;

/// Adds zeros up to an offset, and the words.
pub fn place(bytes: &mut Vec<u8>, at: usize, words: &[u32]) -> Result<(), AllocError> {
    if bytes.len() < at {
        bytes.resize(at, 0)?;
    }
    for word in words {
        bytes.extend_from_slice(&word.to_be_bytes())?;
    }
    Ok(())
}

pub fn bytes_of(alloc: Global, words: &[u32]) -> Result<Vec<u8>, AllocError> {
    let mut bytes = Vec::new(alloc);
    place(&mut bytes, 0, words)?;
    Ok(bytes)
}

/// The words of the rows, some of them replaced: a place and a word for each.
pub fn edited(
    alloc: Global,
    rows: &[&[u32]],
    edits: &[(usize, u32)],
) -> Result<Vec<u32>, AllocError> {
    let mut words = Vec::new(alloc);
    for row in rows {
        words.extend_from_slice(row)?;
    }
    for (at, word) in edits {
        if let Some(place) = words.get_mut(*at) {
            *place = *word;
        }
    }
    Ok(words)
}

/// A file with these words as its notes at 4096, of which its locator tells a version and how many bytes they have.
pub fn noted(
    alloc: Global,
    version: u32,
    length: u32,
    words: &[u32],
) -> Result<Vec<u8>, AllocError> {
    let mut file = Vec::new(alloc);
    place(&mut file, 4032, &[0x45454c4e, version, 4096, length])?;
    place(&mut file, 4096, words)?;
    Ok(file)
}
