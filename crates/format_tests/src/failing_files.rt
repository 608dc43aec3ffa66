//! The files of the system, but for one kind of call that fails.
use std::alloc::{Alloc, Allocator, Global};
use std::fs::{File, Metadata, OpenFile, OpenOptions, Permissions};
use std::io::{Error, ErrorKind, Read, Seek, SeekFrom, Write};
use std::path::{Path, PathBuf};
use std::{io, rt};

/// The call that fails.
#[derive(Clone, Copy, PartialEq, Eq, Drop)]
pub enum Call {
    /// A read, for want of memory.
    Read,
    Write,
    /// The metadata of an open file.
    Size,
    Mode,
    /// The sync of a file that has bytes.
    Sync,
    Rename,
    /// A rename from one folder to another.
    Move,
    /// The path behind all links.
    Path,
    /// The target of a link, for want of memory.
    Link,
    /// The opening of a file that is to be new, for want of memory.
    New,
}

#[derive(Clone, Copy, Drop)]
pub struct FailingFiles<'a> {
    system: &'a HostRuntime,
    fails: Call,
}

#[derive(Drop)]
pub struct FailingFile {
    file: File,
    fails: Call,
}

impl<'a> FailingFiles<'a> {
    pub fn new(system: &'a HostRuntime, fails: Call) -> FailingFiles<'a> {
        FailingFiles { system, fails }
    }
}

impl Call {
    /// Fails where this call is the one that fails.
    fn unless(self, fails: Call) -> io::Result<()> {
        if self != fails {
            return Ok(());
        }
        match self {
            Call::Read | Call::Link | Call::New => Err(Error::from(ErrorKind::OutOfMemory)),
            _ => Err(Error::from(ErrorKind::StorageFull)),
        }
    }
}

impl Alloc for FailingFiles<'_> {
    type A = Global;

    fn alloc(&self) -> Global {
        self.system.alloc()
    }
}

impl rt::Files for FailingFiles<'_> {
    type File = FailingFile;

    type Dir = <HostRuntime as rt::Files>::Dir;

    fn open_file(&self, how: &OpenOptions, path: &str) -> io::Result<FailingFile> {
        if how.asks_create_new() {
            Call::New.unless(self.fails)?;
        }
        let file = self.system.open_file(how, path)?;
        Ok(FailingFile {
            file,
            fails: self.fails,
        })
    }

    fn open_dir(&self, path: &str) -> io::Result<<HostRuntime as rt::Files>::Dir> {
        self.system.open_dir(path)
    }

    fn metadata(&self, path: &str) -> io::Result<Metadata> {
        rt::Files::metadata(self.system, path)
    }

    fn symlink_metadata(&self, path: &str) -> io::Result<Metadata> {
        self.system.symlink_metadata(path)
    }

    fn copy(&self, from: &str, to: &str) -> io::Result<u64> {
        self.system.copy(from, to)
    }

    fn rename(&self, from: &str, to: &str) -> io::Result<()> {
        Call::Rename.unless(self.fails)?;
        if Path::new(from).parent() != Path::new(to).parent() {
            Call::Move.unless(self.fails)?;
        }
        self.system.rename(from, to)
    }

    fn remove_file(&self, path: &str) -> io::Result<()> {
        self.system.remove_file(path)
    }

    fn create_dir(&self, path: &str) -> io::Result<()> {
        self.system.create_dir(path)
    }

    fn remove_dir(&self, path: &str) -> io::Result<()> {
        self.system.remove_dir(path)
    }

    fn remove_dir_all<B: Allocator>(&self, alloc: B, path: &str) -> io::Result<()> {
        self.system.remove_dir_all(alloc, path)
    }

    fn canonicalize<B: Allocator>(&self, alloc: B, path: &str) -> io::Result<PathBuf<B>> {
        Call::Path.unless(self.fails)?;
        self.system.canonicalize(alloc, path)
    }

    fn read_link<B: Allocator>(&self, alloc: B, path: &str) -> io::Result<PathBuf<B>> {
        Call::Link.unless(self.fails)?;
        self.system.read_link(alloc, path)
    }
}

impl Read for FailingFile {
    fn read(&mut self, buf: &mut [u8]) -> io::Result<usize> {
        Call::Read.unless(self.fails)?;
        self.file.read(buf)
    }
}

impl Write for FailingFile {
    fn write(&mut self, buf: &[u8]) -> io::Result<usize> {
        Call::Write.unless(self.fails)?;
        self.file.write(buf)
    }

    fn flush(&mut self) -> io::Result<()> {
        self.file.flush()
    }
}

impl Seek for FailingFile {
    fn seek(&mut self, to: SeekFrom) -> io::Result<u64> {
        self.file.seek(to)
    }
}

impl OpenFile for FailingFile {
    fn metadata(&self) -> io::Result<Metadata> {
        Call::Size.unless(self.fails)?;
        self.file.metadata()
    }

    fn set_len(&self, size: u64) -> io::Result<()> {
        self.file.set_len(size)
    }

    fn sync_all(&self) -> io::Result<()> {
        if self.file.metadata()?.len() > 0 {
            Call::Sync.unless(self.fails)?;
        }
        self.file.sync_all()
    }

    fn sync_data(&self) -> io::Result<()> {
        self.file.sync_data()
    }

    fn set_permissions(&self, permissions: Permissions) -> io::Result<()> {
        Call::Mode.unless(self.fails)?;
        self.file.set_permissions(permissions)
    }
}
