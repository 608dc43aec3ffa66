//! What no clause says of the files of the system, tried in the folder that a test is given.
use crate::failing_files::{Call, FailingFiles};
use eel_base::{FetchFault, Files, PutFault, RealFiles};
use std::alloc::Global;
use std::fs::{OpenOptions, Permissions};
use std::io::Read;
use std::os::fd::AsRawFd;
use std::os::unix::fs::{OpenOptionsExt, PermissionsExt, symlink};
use std::test::Fail;
use std::{fs, io};

/// The permission bits of a file.
fn mode_of(rt: &HostRuntime, name: &str) -> Result<u32, Fail> {
    Ok(fs::metadata(rt, name)?.permissions().mode() & 0o777)
}

/// The mode of a file that had this one when the bytes were put in its place.
fn mode_after(rt: &HostRuntime, name: &str, mode: u32, bytes: &[u8]) -> Result<u32, Fail> {
    fs::write(rt, name, b"what stood there")?;
    fs::set_permissions(rt, name, Permissions::from_mode(mode))?;
    RealFiles::new(rt).put(name, bytes)?;
    mode_of(rt, name)
}

/// Whether the file has these bytes, and is read where no more are allowed.
fn holds(rt: &HostRuntime, name: &str, bytes: &[u8]) -> bool {
    let held = RealFiles::new(rt).fetch(rt.alloc(), name, bytes.len() as u64);
    held.is_ok_and(|held| held.as_slice() == bytes)
}

fn is_there(rt: &HostRuntime, name: &str) -> bool {
    fs::symlink_metadata(rt, name).is_ok()
}

fn many_bytes(alloc: Global, count: u32) -> Result<Vec<u8>, Fail> {
    let mut bytes = Vec::new(alloc);
    for number in 0..count {
        bytes.push((number % 251) as u8)?;
    }
    Ok(bytes)
}

#[test]
fn a_file_keeps_its_mode(rt: HostRuntime) -> Result<(), Fail> {
    fs::create_dir(&rt, "modes")?;
    assert_eq!(rt; mode_after(&rt, "modes/all", 0o666, b"text")?, 0o666);
    assert_eq!(rt; mode_after(&rt, "modes/own", 0o600, b"text")?, 0o600);
    assert_eq!(rt; mode_after(&rt, "modes/all_run", 0o666, b"\x7fELF")?, 0o777);
    assert_eq!(rt; mode_after(&rt, "modes/own_run", 0o600, b"\x7fELF")?, 0o700);
    assert_eq!(rt; mode_after(&rt, "modes/group", 0o070, b"text")?, 0o070);
    assert_eq!(rt; mode_after(&rt, "modes/others", 0o004, b"\x7fELF")?, 0o005);
    Ok(())
}

#[test]
fn a_dangling_link_is_followed_from_its_own_folder(rt: HostRuntime) -> Result<(), Fail> {
    fs::create_dir(&rt, "links")?;
    symlink(&rt, "behind_the_link", "links/link")?;
    RealFiles::new(&rt).put("links/link", b"text")?;
    assert!(rt; holds(&rt, "links/behind_the_link", b"text"));
    assert!(rt; fs::symlink_metadata(&rt, "links/link")?.is_symlink());
    assert!(rt; !is_there(&rt, "behind_the_link"));
    Ok(())
}

#[test]
fn a_new_file_that_is_there_is_left_alone(rt: HostRuntime) -> Result<(), Fail> {
    fs::create_dir(&rt, "taken")?;
    fs::write(&rt, "taken/.eel-new-0", b"another's")?;
    RealFiles::new(FailingFiles::new(&rt, Call::Move)).put("taken/file", b"text")?;
    assert!(rt; holds(&rt, "taken/file", b"text"));
    assert!(rt; holds(&rt, "taken/.eel-new-0", b"another's"));
    assert!(rt; !is_there(&rt, "taken/.eel-new-1"));
    Ok(())
}

#[test]
fn a_file_of_many_bytes_is_whole(rt: HostRuntime) -> Result<(), Fail> {
    let bytes = many_bytes(rt.alloc(), 10_000)?;
    let mut files = RealFiles::new(&rt);
    files.put("many", &bytes)?;
    assert!(rt; holds(&rt, "many", &bytes));
    files.put("many", b"few")?;
    files.put("many", &bytes)?;
    assert!(rt; holds(&rt, "many", &bytes));
    let less = files.fetch(rt.alloc(), "many", 9_999).err();
    assert_eq!(rt; less, Some(FetchFault::TooLong));
    Ok(())
}

#[test]
fn a_file_without_a_size_is_read(rt: HostRuntime) -> Result<(), Fail> {
    let name = "/proc/self/status";
    let mut files = RealFiles::new(&rt);
    let fetched = files.fetch(rt.alloc(), name, 1 << 16);
    assert!(rt; fetched.is_ok_and(|status| status.starts_with(b"Name:")));
    let part = files.fetch(rt.alloc(), name, 4).err();
    assert_eq!(rt; part, Some(FetchFault::TooLong));
    Ok(())
}

#[test]
fn what_cannot_be_put_is_a_fault(rt: HostRuntime) -> Result<(), Fail> {
    let mut files = RealFiles::new(&rt);
    let fetched = files.fetch(rt.alloc(), "missing/file", 1).err();
    assert_eq!(rt; fetched, Some(FetchFault::Failed));
    assert_eq!(rt; files.put("missing/file", b"text"), Err(PutFault::Failed));
    assert_eq!(rt; files.put("/dev/full", b"text"), Err(PutFault::Failed));
    symlink(&rt, "circle", "circle")?;
    assert_eq!(rt; files.put("circle", b"text"), Err(PutFault::Failed));
    Ok(())
}

/// A put through a link that fails: what stood there stays, and no new file is left.
fn is_undone(rt: &HostRuntime, folder: &str, fails: Call) -> Result<bool, Fail> {
    let name = format!(in rt.alloc(); "{folder}/file")?;
    let link = format!(in rt.alloc(); "{folder}/link")?;
    let new = format!(in rt.alloc(); "{folder}/.eel-new-0")?;
    fs::create_dir(rt, folder)?;
    fs::write(rt, &name, b"what stood there")?;
    symlink(rt, "file", &link)?;
    let put = RealFiles::new(FailingFiles::new(rt, fails)).put(&link, b"text");
    let was_tried = put == Err(PutFault::Failed);
    Ok(was_tried && holds(rt, &name, b"what stood there") && !is_there(rt, &new))
}

#[test]
fn a_put_that_fails_is_undone(rt: HostRuntime) -> Result<(), Fail> {
    assert!(rt; is_undone(&rt, "write", Call::Write)?);
    assert!(rt; is_undone(&rt, "mode", Call::Mode)?);
    assert!(rt; is_undone(&rt, "sync", Call::Sync)?);
    assert!(rt; is_undone(&rt, "name", Call::Rename)?);
    assert!(rt; is_undone(&rt, "path", Call::Path)?);
    Ok(())
}

#[test]
fn a_new_file_has_the_usual_mode(rt: HostRuntime) -> Result<(), Fail> {
    let mut files = RealFiles::new(&rt);
    fs::create_dir(&rt, "usual")?;
    fs::write(&rt, "usual/text", b"text")?;
    OpenOptions::new()
        .write(true)
        .create_new(true)
        .mode(0o777)
        .open(&rt, "usual/program")?;
    files.put("usual/new_text", b"text")?;
    files.put("usual/new_program", b"\x7fELF")?;
    let text = mode_of(&rt, "usual/text")?;
    assert_eq!(rt; mode_of(&rt, "usual/new_text")?, text);
    let program = mode_of(&rt, "usual/program")?;
    assert_eq!(rt; mode_of(&rt, "usual/new_program")?, program);
    Ok(())
}

#[test]
fn links_are_followed_to_their_end(rt: HostRuntime) -> Result<(), Fail> {
    let mut files = RealFiles::new(&rt);
    fs::create_dir(&rt, "ways")?;
    fs::create_dir(&rt, "ways/far")?;
    symlink(&rt, "far/second", "ways/first")?;
    symlink(&rt, "../file", "ways/far/second")?;
    for _ in 0..2 {
        files.put("ways/first", b"text")?;
        assert!(rt; holds(&rt, "ways/file", b"text"));
        assert!(rt; fs::symlink_metadata(&rt, "ways/first")?.is_symlink());
        assert!(rt; fs::symlink_metadata(&rt, "ways/far/second")?.is_symlink());
    }
    Ok(())
}

#[test]
fn as_many_links_are_followed(rt: HostRuntime) -> Result<(), Fail> {
    let mut files = RealFiles::new(&rt);
    fs::create_dir(&rt, "chain")?;
    for number in 0..40u32 {
        let next = format!(in rt.alloc(); "{}", number + 1)?;
        let link = format!(in rt.alloc(); "chain/{number}")?;
        symlink(&rt, &next, &link)?;
    }
    assert_eq!(rt; files.put("chain/0", b"text"), Err(PutFault::Failed));
    files.put("chain/1", b"text")?;
    assert!(rt; holds(&rt, "chain/40", b"text"));
    Ok(())
}

#[test]
fn as_many_names_are_tried(rt: HostRuntime) -> Result<(), Fail> {
    let mut files = RealFiles::new(&rt);
    fs::create_dir(&rt, "names")?;
    for number in 0..999u32 {
        let name = format!(in rt.alloc(); "names/.eel-new-{number}")?;
        fs::write(&rt, &name, b"another's")?;
    }
    files.put("names/file", b"text")?;
    fs::write(&rt, "names/.eel-new-999", b"another's")?;
    assert_eq!(rt; files.put("names/file", b"other"), Err(PutFault::Failed));
    assert!(rt; holds(&rt, "names/file", b"text"));
    Ok(())
}

#[test]
fn what_is_no_file_is_written_in_place(rt: HostRuntime) -> Result<(), Fail> {
    let bytes = many_bytes(rt.alloc(), 10_000)?;
    let (mut reader, writer) = io::pipe(&rt)?;
    let name = format!(in rt.alloc(); "/proc/self/fd/{}", writer.as_raw_fd())?;
    // A link in the test's own folder: a wrong `put` would replace a device of the machine.
    symlink(&rt, &name, "pipe")?;
    RealFiles::new(&rt).put("pipe", &bytes)?;
    assert!(rt; fs::symlink_metadata(&rt, "pipe")?.is_symlink());
    let mut passed = Vec::new(rt.alloc());
    drop(writer);
    reader.read_to_end(&mut passed)?;
    assert!(rt; passed.as_slice() == bytes.as_slice());
    Ok(())
}

#[test]
fn a_file_without_a_path_is_written_in_place(rt: HostRuntime) -> Result<(), Fail> {
    let bytes = many_bytes(rt.alloc(), 10_000)?;
    let mut file = OpenOptions::new()
        .read(true)
        .write(true)
        .create_new(true)
        .open(&rt, "gone")?;
    fs::remove_file(&rt, "gone")?;
    let name = format!(in rt.alloc(); "/proc/self/fd/{}", file.as_raw_fd())?;
    RealFiles::new(&rt).put(&name, &bytes)?;
    let mut held = Vec::new(rt.alloc());
    file.read_to_end(&mut held)?;
    assert!(rt; held.as_slice() == bytes.as_slice());
    Ok(())
}

#[test]
fn what_cannot_be_read_is_a_fault(rt: HostRuntime) -> Result<(), Fail> {
    fs::create_dir(&rt, "folder")?;
    let fetched = RealFiles::new(&rt).fetch(rt.alloc(), "folder", 1).err();
    assert_eq!(rt; fetched, Some(FetchFault::Failed));
    fs::write(&rt, "folder/file", b"text")?;
    let mut wanting = RealFiles::new(FailingFiles::new(&rt, Call::Read));
    let fault = wanting.fetch(rt.alloc(), "folder/file", 4).err();
    assert_eq!(rt; fault, Some(FetchFault::NoMemory));
    let mut sizeless = RealFiles::new(FailingFiles::new(&rt, Call::Size));
    let bytes = sizeless.fetch(rt.alloc(), "folder/file", 4)?;
    assert_eq!(rt; bytes.as_slice(), b"text".as_slice());
    Ok(())
}

#[test]
fn a_put_that_wants_memory_changes_nothing(rt: HostRuntime) -> Result<(), Fail> {
    symlink(&rt, "nowhere", "left")?;
    for fails in [Call::Link, Call::New] {
        let put = RealFiles::new(FailingFiles::new(&rt, fails)).put("left", b"text");
        assert_eq!(rt; put, Err(PutFault::NoMemory));
        assert!(rt; fs::symlink_metadata(&rt, "left")?.is_symlink());
        assert!(rt; !is_there(&rt, "nowhere"));
    }
    Ok(())
}
