//! That the objects of the outside are made and used, those in memory and the real ones.
use eel_base::{
    FetchFault, Files, MemFiles, MemSink, MemSource, RealFiles, Sink, StdSink, StdSource, put_all,
    read_all,
};
use std::fs;
use std::os::unix::fs::{PermissionsExt, symlink};
use std::test::Fail;

#[test]
fn objects_in_memory_are_used(rt: HostRuntime) -> Result<(), Fail> {
    let alloc = rt.alloc();
    let mut files = MemFiles::new(alloc, Vec::new(alloc));
    assert_eq!(rt; files.add("a", b"one"), Ok(()));
    assert!(rt; files.put("b", b"four").is_ok());
    let fetched = files.fetch(alloc, "b", 4)?;
    let mut sink = MemSink::new(alloc, 6, Vec::new(alloc))?;
    assert!(rt; put_all(&mut sink, files.get("a").ok_or("held")?).is_ok());
    assert!(rt; put_all(&mut sink, &fetched).is_err());
    assert_eq!(rt; sink.bytes(), b"onefou".as_slice());
    let mut source = MemSource::new(fetched, Vec::new(alloc));
    let read = read_all(alloc, &mut source, 4)?;
    assert_eq!(rt; read.as_slice(), b"four".as_slice());
    Ok(())
}

#[test]
fn real_files_are_put_whole(rt: HostRuntime) -> Result<(), Fail> {
    let (name, link) = ("real_file", "real_link");
    let alloc = rt.alloc();
    let mut files = RealFiles::new(&rt);
    symlink(&rt, name, link)?;
    assert!(rt; files.put(link, b"longer text").is_ok());
    assert!(rt; files.put(link, b"text").is_ok());
    assert!(rt; fs::symlink_metadata(&rt, link)?.is_symlink());
    let fetched = files.fetch(alloc, name, 4)?;
    assert_eq!(rt; fetched.as_slice(), b"text".as_slice());
    assert_eq!(rt; fs::metadata(&rt, name)?.permissions().mode() & 0o111, 0);
    assert!(rt; files.put(name, b"\x7fELF").is_ok());
    assert_eq!(rt;
        fs::metadata(&rt, name)?.permissions().mode() & 0o700,
        0o700
    );
    fs::remove_file(&rt, link)?;
    fs::remove_file(&rt, name)?;
    let missing = files.fetch(alloc, name, 4).err();
    assert_eq!(rt; missing, Some(FetchFault::Failed));
    assert!(rt; files.put("/tmp", b"text").is_err());
    Ok(())
}

#[test]
fn std_streams_are_sources_and_sinks(rt: HostRuntime) -> Result<(), Fail> {
    let name = "std_stream";
    let mut sink = StdSink::new(fs::create(&rt, name)?);
    assert!(rt; put_all(&mut sink, b"a stream").is_ok());
    assert!(rt; sink.write(b"").is_ok());
    let mut source = StdSource::new(fs::open(&rt, name)?);
    fs::remove_file(&rt, name)?;
    let read = read_all(rt.alloc(), &mut source, 8)?;
    assert_eq!(rt; read.as_slice(), b"a stream".as_slice());
    let mut read_only = StdSink::new(fs::open(&rt, "/dev/null")?);
    assert!(rt; put_all(&mut read_only, b"a").is_err());
    Ok(())
}
