//! Bytes that are added to a file that grows.
ghost use Rattle.std.specs.Prelude.{◌≡◌, ◌++◌, OnOk};
ghost use Rattle.elf32_write.specs.Kept.{words_bytes};
ghost use Rattle.elf32_write.specs.Bytes.{halves_bytes, padded_to};

use byteorder::{BigEndian, ByteOrder};
use eel_base::NoMemory;

/// Adds zeros up to an offset.
#[tactic(auto, unfolding(crate::specs::Bytes::padded_to))]
pub(crate) fn pad_to(out: &mut Vec<u8>, offset: usize) -> Result<(), NoMemory>
    ensures { OnOk result (out.new.items ≡ padded_to offset out.old.items) }
{
    if out.len() < offset {
        out.resize(offset, 0)?;
    }
    Ok(())
}

/// Adds big-endian words.
#[tactic(auto, unfolding(crate::specs::Kept::words_bytes))]
pub fn put_words(out: &mut Vec<u8>, words: &[u32]) -> Result<(), NoMemory>
    ensures { OnOk result (out.new.items ≡ out.old.items ++ words_bytes words.now) }
{
    for word in words {
        let mut field = [0; 4];
        BigEndian::write_u32(&mut field, *word);
        out.extend_from_slice(&field)?;
    }
    Ok(())
}

/// Adds big-endian halfwords.
#[tactic(auto, unfolding(crate::specs::Bytes::halves_bytes))]
pub(crate) fn put_halves(out: &mut Vec<u8>, halves: &[u16]) -> Result<(), NoMemory>
    ensures { OnOk result (out.new.items ≡ out.old.items ++ halves_bytes halves.now) }
{
    for half in halves {
        let mut field = [0; 2];
        BigEndian::write_u16(&mut field, *half);
        out.extend_from_slice(&field)?;
    }
    Ok(())
}
