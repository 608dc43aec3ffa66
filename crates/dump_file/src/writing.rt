//! Writing dumps.
ghost use Rattle.std.specs.Prelude.{◌≡◌, ◌++◌, ◌<◌, ◌^◌, true, IfOk, OnOk, vec_len};
ghost use Rattle.byteorder.specs.Endian.{big_bytes};
ghost use Rattle.dump_file.specs.Code.{dump_seen};
ghost use Rattle.dump_file.specs.Dump.{kind_of, number_of};
ghost use Rattle.dump_file.specs.Written.{words_bytes, dump_bytes, length_words};
ghost use Rattle.notes.specs.Format.{is_version};

use crate::dump::Dump;
use byteorder::{BigEndian, ByteOrder};
use eel_base::NoMemory;
use std::alloc::Global;
use v8_step::Ending;

/// `EELD`, with which a dump begins.
pub(crate) const MARK: u32 = 0x4545_4c44;

/// The version of dumps of files whose counters have one cell.
pub(crate) const NARROW: u32 = 1;

/// The version of dumps of files whose counters have two cells.
pub(crate) const WIDE: u32 = 2;

/// A dump as bytes.
#[tactic(auto, unfolding(crate::specs::Written::dump_bytes))]
pub fn write_dump(alloc: Global, d: &Dump) -> Result<Vec<u8>, NoMemory>
    requires cells { vec_len d.now.cells < 2 ^ 30 }
    requires version { is_version d.now.version ≡ true }
    requires length { d.now.version ≡ 1 → d.now.length ≡ 0 }
    ensures { IfOk result (λ bytes. bytes.items ≡ dump_bytes (dump_seen d.now)) }
{
    let mut out = Vec::new(alloc);
    put_words(
        &mut out,
        &[
            MARK,
            d.version,
            kind_of(d.ending),
            number_of(d.ending),
            d.pc.0,
        ],
    )?;
    put_long(&mut out, d.steps)?;
    put_length(&mut out, d)?;
    put_words(&mut out, &[d.cells.len() as u32])?;
    put_words(&mut out, &d.cells)?;
    Ok(out)
}

/// Adds the size of the original, in the version that has it.
#[tactic(auto, unfolding(crate::specs::Written::words_bytes))]
fn put_length(out: &mut Vec<u8>, d: &Dump) -> Result<(), NoMemory>
    ensures { OnOk result (out.new.items ≡ out.old.items ++ words_bytes (length_words (dump_seen d.now))) }
{
    if d.version == NARROW {
        return Ok(());
    }
    put_words(out, &[d.length])
}

/// How a run ended, as a number; 0 where it hasn't.
fn kind_of(ending: Option<Ending>) -> u32
    ensures { result ≡ kind_of ending }
{
    match ending {
        None => 0,
        Some(Ending::Exit(_)) => 1,
        Some(Ending::Trap(_)) => 2,
        Some(Ending::Window) => 3,
        Some(Ending::Couple) => 4,
    }
}

/// The number that the ending has, or 0.
fn number_of(ending: Option<Ending>) -> u32
    ensures { result ≡ number_of ending }
{
    match ending {
        Some(Ending::Exit(number) | Ending::Trap(number)) => u32::from(number),
        _ => 0,
    }
}

/// Adds big-endian words.
#[tactic(auto, unfolding(crate::specs::Written::words_bytes))]
fn put_words(out: &mut Vec<u8>, words: &[u32]) -> Result<(), NoMemory>
    ensures { OnOk result (out.new.items ≡ out.old.items ++ words_bytes words.now) }
{
    for word in words {
        let mut field = [0; 4];
        BigEndian::write_u32(&mut field, *word);
        out.extend_from_slice(&field)?;
    }
    Ok(())
}

/// Adds a big-endian number of eight bytes.
fn put_long(out: &mut Vec<u8>, number: u64) -> Result<(), NoMemory>
    ensures { OnOk result (out.new.items ≡ out.old.items ++ big_bytes 8 number) }
{
    let mut field = [0; 8];
    BigEndian::write_u64(&mut field, number);
    out.extend_from_slice(&field)?;
    Ok(())
}
