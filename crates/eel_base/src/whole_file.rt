//! Files of the system that are read whole, and put whole: what stood under a name stays until all bytes of the new
//! file are written. What the system does is trusted.
ghost use Rattle.std.specs.Prelude.{◌≡◌, ◌≤◌, ◌<◌, [], length, min, vec_len, vec_capacity, Ok, Err, IfOk, IfErr, OnOk, OnErr, IfSome, IsErrOf};
ghost use Rattle.std.specs.Io.KnownBytes.{Appends};
ghost use Rattle.std.specs.IoError.{error_kind};
ghost use Rattle.eel_base.specs.Outside.{raised};
ghost use Rattle.eel_base.specs.Real.{fetch_fault_of, put_fault_of, is_program, mode_of};

use crate::outside::{FetchFault, PutFault};
use std::alloc::{Alloc, Global};
use std::fs::{OpenFile, OpenOptions, Permissions};
use std::io::{Error, ErrorKind, Read, Write};
use std::os::unix::fs::{OpenOptionsExt, PermissionsExt};
use std::path::{Path, PathBuf};
use std::{fs, io, rt};

/// How many links are followed from a name.
const MOST_LINKS: u32 = 40;

/// How many names are tried for a new file.
const MOST_NAMES: u32 = 1000;

/// How a file of the format ELF begins.
const ELF_MAGIC: [u8; 4] = [0x7f, 0x45, 0x4c, 0x46];

/// The bytes of a file that was to be opened, if they are at most `limit`.
pub(crate) fn fetch_opened<F: Read + OpenFile + Drop>(
    opened: io::Result<F>,
    alloc: Global,
    limit: u64,
) -> Result<Vec<u8>, FetchFault>
    ensures all { IfOk opened (λ file. IfOk result (λ bytes. IfSome (F.remaining file) (λ left. bytes.items ≡ left))) }
    ensures within { IfOk result (λ bytes. vec_len bytes ≤ limit) }
    ensures too_long { IsErrOf result FetchFault.TooLong →
        IfOk opened (λ file. IfSome (F.remaining file) (λ left. limit < length left)) }
    ensures unopened { IfErr opened (λ error. result ≡ Err (fetch_fault_of (error_kind error))) }
{
    let file = match opened {
        Ok(file) => file,
        Err(error) => return Err(fetch_fault(error.kind())),
    };
    // Room for the size that the system gives, so that the bytes aren't moved as they come. It may give too little.
    let size = match file.metadata() {
        Ok(metadata) => metadata.len(),
        Err(_) => 0,
    };
    fetch_from(file, room_for(alloc, size, limit)?, limit)
}

/// Room for a file of that size, or for as many bytes as the limit allows, and for a byte that would be too many.
fn room_for(alloc: Global, size: u64, limit: u64) -> Result<Vec<u8>, FetchFault>
    ensures empty { IfOk result (λ room. room.items ≡ []) }
    ensures room { IfOk result (λ room. vec_capacity room ≡ raised (min size limit)) }
    ensures memory { OnErr result (result ≡ Err FetchFault.NoMemory) }
{
    match Vec::with_capacity(alloc, size.min(limit).saturating_add(1) as usize) {
        Ok(room) => Ok(room),
        Err(_) => Err(FetchFault::NoMemory),
    }
}

/// All that the reader has left, into an empty vector, if it is at most `limit` bytes.
fn fetch_from<R: Read + Drop>(
    reader: R,
    mut all: Vec<u8>,
    limit: u64,
) -> Result<Vec<u8>, FetchFault>
    requires { all.items ≡ [] }
    ensures all { IfOk result (λ bytes. IfSome (R.remaining reader) (λ left. bytes.items ≡ left)) }
    ensures within { IfOk result (λ bytes. vec_len bytes ≤ limit) }
    ensures too_long { IsErrOf result FetchFault.TooLong →
        IfSome (R.remaining reader) (λ left. limit < length left) }
{
    let mut first = reader.take(limit.saturating_add(1));
    if let Err(error) = first.read_to_end(&mut all) {
        return Err(fetch_fault(error.kind()));
    }
    if all.len() as u64 > limit {
        return Err(FetchFault::TooLong);
    }
    Ok(all)
}

/// What an error of the system comes to where a file is read.
fn fetch_fault(kind: ErrorKind) -> FetchFault
    ensures { result ≡ fetch_fault_of kind }
{
    match kind {
        ErrorKind::OutOfMemory => FetchFault::NoMemory,
        _ => FetchFault::Failed,
    }
}

/// What came of a put, where this came of the system's calls.
pub(crate) fn put_outcome(put: io::Result<()>) -> Result<(), PutFault>
    ensures done { OnOk put (result ≡ Ok tt) }
    ensures failed { IfErr put (λ error. result ≡ Err (put_fault_of (error_kind error))) }
{
    match put {
        Ok(()) => Ok(()),
        Err(error) => Err(put_fault(error.kind())),
    }
}

/// What an error of the system comes to where a file is put.
fn put_fault(kind: ErrorKind) -> PutFault
    ensures { result ≡ put_fault_of kind }
{
    match kind {
        ErrorKind::OutOfMemory => PutFault::NoMemory,
        _ => PutFault::Failed,
    }
}

/// Puts the bytes under the name. A regular file is replaced by a new one once that is written and synced; a
/// link stays, and the file behind it is replaced. What is no regular file, or has no path, is written in place.
pub(crate) fn put_file<R: rt::Files + Alloc>(rt: &R, name: &str, bytes: &[u8]) -> io::Result<()> {
    let Ok(old) = fs::metadata(rt, name) else {
        let path = behind_links(rt, name)?;
        return replace(rt, path.as_path(), None, bytes);
    };
    if !old.is_file() {
        return fs::write(rt, name, bytes);
    }
    match fs::canonicalize(rt, name) {
        Ok(path) => replace(rt, path.as_path(), Some(old.permissions()), bytes),
        Err(error) if error.kind() == ErrorKind::NotFound => fs::write(rt, name, bytes),
        Err(error) => Err(error),
    }
}

/// Where a name leads, of which no file is known.
fn behind_links<R: rt::Files + Alloc>(rt: &R, name: &str) -> io::Result<PathBuf<R::A>> {
    let mut path = PathBuf::from_str(rt.alloc(), name)?;
    for _ in 0..MOST_LINKS {
        match fs::read_link(rt, path.as_path()) {
            Ok(target) => {
                path.pop();
                path.push(target.as_path())?;
            }
            Err(error) if error.kind() == ErrorKind::OutOfMemory => return Err(error),
            Err(_) => return Ok(path),
        }
    }
    Err(Error::from(ErrorKind::InvalidInput))
}

/// Writes a new file beside the path, and then gives it the path's name. After a failure the new file is removed.
fn replace<R: rt::Files + Alloc>(
    rt: &R,
    path: Path<'_>,
    old: Option<Permissions>,
    bytes: &[u8],
) -> io::Result<()> {
    let had = old.as_ref().map(|permissions| permissions.mode());
    let mode = mode_for(had, is_program(bytes));
    let (fresh, mut file) = create_beside(rt, path, mode)?;
    let done = match write_synced(&mut file, old.is_some().then_some(mode), bytes) {
        Ok(()) => fs::rename(rt, fresh.as_path(), path),
        Err(error) => Err(error),
    };
    if done.is_err() {
        let _ = fs::remove_file(rt, fresh.as_path());
    }
    done
}

/// The mode of the old file, or the usual one; who may read a program may execute it, too.
fn mode_for(old: Option<u32>, is_program: bool) -> u32
    ensures { result ≡ mode_of old is_program }
{
    let mode = match old {
        Some(mode) => mode & 0o777,
        None => 0o666,
    };
    if is_program {
        mode | (mode & 0o444) >> 2
    } else {
        mode
    }
}

/// The bytes begin as a program's.
fn is_program(bytes: &[u8]) -> bool
    ensures { result ≡ is_program bytes.now }
{
    bytes.starts_with(&ELF_MAGIC)
}

/// A new file in the path's directory, under a name that nothing had.
fn create_beside<R: rt::Files + Alloc>(
    rt: &R,
    path: Path<'_>,
    mode: u32,
) -> io::Result<(PathBuf<R::A>, R::File)> {
    for number in 0..MOST_NAMES {
        let name = format!(in rt.alloc(); ".eel-new-{number}")?;
        let fresh = path.with_file_name(rt.alloc(), name.as_str())?;
        let mut options = OpenOptions::new();
        options.write(true).create_new(true).mode(mode);
        match options.open(rt, fresh.as_path()) {
            Ok(file) => return Ok((fresh, file)),
            Err(error) if error.kind() == ErrorKind::AlreadyExists => {}
            Err(error) => return Err(error),
        }
    }
    Err(Error::from(ErrorKind::AlreadyExists))
}

/// Writes all the bytes, sets the mode where one is given, and waits until the device has them.
fn write_synced<F: Write + OpenFile>(
    file: &mut F,
    mode: Option<u32>,
    bytes: &[u8],
) -> io::Result<()>
    ensures { OnOk result (Appends (F.contents file.old) (F.contents file.new) bytes.now) }
{
    file.write_all(bytes)?;
    if let Some(mode) = mode {
        file.set_permissions(Permissions::from_mode(mode))?;
    }
    file.sync_all()
}
