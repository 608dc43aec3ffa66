//! A whole text from a source, and a whole piece to a sink.
ghost use Rattle.std.specs.Prelude.{◌≡◌, ◌++◌, ◌+◌, ◌≤◌, ◌<◌, IfOk, OnOk, OnErr, IsErrOf, vec_len, length, take};
ghost use Rattle.eel_base.specs.Outside.{Rose, preceded, IsAtEnd, GaveSome, appended, TookPart};

use crate::outside::{Failed, FetchFault, Sink, Source};
use std::alloc::Global;

/// How many bytes are asked of a source at a time.
pub(crate) const CHUNK: usize = 8192;

/// All that `s` has left, if that is at most `limit` bytes. Where it is more, `limit + 1` bytes were
/// taken, and after another fault some of what was left.
pub fn read_all<S: Source>(alloc: Global, s: &mut S, limit: u64) -> Result<Vec<u8>, FetchFault>
    ensures all { IfOk result (λ bytes. S.left s.old ≡ preceded bytes.items (S.left s.new)) }
    ensures end { OnOk result (IsAtEnd (S.left s.new)) }
    ensures within { IfOk result (λ bytes. vec_len bytes ≤ limit) }
    ensures too_long { IsErrOf result FetchFault.TooLong → GaveSome (λ count. count ≡ limit + 1) (S.left s.old) (S.left s.new) }
    ensures some { OnErr result (GaveSome (λ count. count ≤ limit + 1) (S.left s.old) (S.left s.new)) }
    ensures failed { IsErrOf result FetchFault.Failed → Rose (S.faults s.old) (S.faults s.new) }
    ensures wanting { IsErrOf result FetchFault.NoMemory → S.faults s.new ≡ S.faults s.old }
    ensures later { S.faults s.old ≤ S.faults s.new }
    ensures few_reads { S.reads s.new ≤ S.reads s.old + (limit + 2) }
{
    let mut all = Vec::new(alloc);
    let mut chunk = [0; CHUNK];
    while all.len() as u64 <= limit {
        let want = chunk_within(limit - all.len() as u64);
        if read_more(&mut all, s, &mut chunk[..want])? == 0 {
            return Ok(all);
        }
    }
    Err(FetchFault::TooLong)
}

/// Reads once, through `buf`, and adds what came to `all`.
fn read_more<S: Source>(all: &mut Vec<u8>, s: &mut S, buf: &mut [u8]) -> Result<usize, FetchFault>
    ensures added { IfOk result (λ count. all.new.items ≡ all.old.items ++ take count buf.new) }
    ensures read { IfOk result (λ count. S.left s.old ≡ preceded (take count buf.new) (S.left s.new)) }
    ensures within { IfOk result (λ count. count ≤ length buf.old) }
    ensures end { IfOk result (λ count. count ≡ 0 → 0 < length buf.old → IsAtEnd (S.left s.old)) }
    ensures counted { OnOk result (S.reads s.new ≤ S.reads s.old + 1) }
    ensures some { OnErr result (GaveSome (λ count. count ≤ length buf.old) (S.left s.old) (S.left s.new)) }
    ensures memory { IsErrOf result FetchFault.NoMemory → (S.faults s.new ≡ S.faults s.old) × (S.reads s.new ≤ S.reads s.old + 1) }
    ensures failed { IsErrOf result FetchFault.Failed → (Rose (S.faults s.old) (S.faults s.new)) × (S.reads s.new ≤ S.reads s.old) }
    ensures short { IsErrOf result FetchFault.TooLong → ⊥ }
    ensures unfaulted { OnOk result (S.faults s.new ≡ S.faults s.old) }
    ensures later { S.faults s.old ≤ S.faults s.new }
{
    let Ok(count) = s.read(buf) else {
        return Err(FetchFault::Failed);
    };
    if all.extend_from_slice(&buf[..count]).is_err() {
        return Err(FetchFault::NoMemory);
    }
    Ok(count)
}

/// How much to ask for where `room` more bytes are allowed: one more than that, or a chunk.
fn chunk_within(room: u64) -> usize
    ensures some { 0 < result }
    ensures within { result ≤ room + 1 }
    ensures fits { result ≤ CHUNK }
{
    if room < CHUNK as u64 {
        room as usize + 1
    } else {
        CHUNK
    }
}

/// Writes all the bytes. After a failure a first part of them was taken.
pub fn put_all<S: Sink>(s: &mut S, bytes: &[u8]) -> Result<(), Failed>
    ensures all { OnOk result (S.taken s.new ≡ appended (S.taken s.old) bytes.now) }
    ensures part { OnErr result (TookPart (S.taken s.old) (S.taken s.new) bytes.now) }
    ensures failed { OnErr result (Rose (S.faults s.old) (S.faults s.new)) }
    ensures later { S.faults s.old ≤ S.faults s.new }
{
    let mut at = 0;
    while at < bytes.len() {
        at += s.write(&bytes[at..])?;
    }
    Ok(())
}
