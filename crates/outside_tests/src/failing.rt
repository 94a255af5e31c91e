//! A file system one of whose calls fails.

use std::alloc::Allocator;
use std::cell::Cell;
use std::fs::{File, Files, Metadata, OpenFile, OpenOptions, Permissions};
use std::io;
use std::io::{Error, ErrorKind, PipeReader, PipeWriter, Read, Seek, SeekFrom, Write};
use std::os::fd::BorrowedFd;
use std::os::unix::net::SocketAddr;
use std::path::PathBuf;

/// The system's files, one of whose calls fails: the one that takes `left` to 0. Each call that a write may
/// make counts, of the files and of an open file, and no other call is supported. A write of bytes takes half
/// of them.
#[derive(Drop)]
pub struct Failing<'a> {
    pub real: HostRuntime,
    pub left: &'a Cell<u32>,
}

/// An open file among these.
#[derive(Drop)]
pub struct FailingFile<'a> {
    real: File,
    left: &'a Cell<u32>,
}

// Counts a call, and fails where it is the chosen one.
fn count(left: &Cell<u32>) -> io::Result<()> {
    let now = left.get();
    left.set(now.wrapping_sub(1));
    if now == 1 {
        Err(Error::from(ErrorKind::Other))
    } else {
        Ok(())
    }
}

// The calls that no write makes.
fn unasked<T>() -> io::Result<T> {
    Err(Error::from(ErrorKind::Unsupported))
}

impl Read for FailingFile<'_> {
    fn read(&mut self, _buf: &mut [u8]) -> io::Result<usize> {
        Err(Error::from(ErrorKind::Unsupported))
    }
}

impl Write for FailingFile<'_> {
    fn write(&mut self, buf: &[u8]) -> io::Result<usize> {
        count(self.left)?;
        self.real.write(&buf[..buf.len().div_ceil(2)])
    }

    fn flush(&mut self) -> io::Result<()> {
        self.real.flush()
    }
}

impl Seek for FailingFile<'_> {
    fn seek(&mut self, _to: SeekFrom) -> io::Result<u64> {
        Err(Error::from(ErrorKind::Unsupported))
    }
}

impl OpenFile for FailingFile<'_> {
    fn metadata(&self) -> io::Result<Metadata> {
        count(self.left)?;
        self.real.metadata()
    }

    fn set_len(&self, _size: u64) -> io::Result<()> {
        unasked()
    }

    fn sync_all(&self) -> io::Result<()> {
        count(self.left)?;
        self.real.sync_all()
    }

    fn sync_data(&self) -> io::Result<()> {
        unasked()
    }

    fn set_permissions(&self, perm: Permissions) -> io::Result<()> {
        count(self.left)?;
        self.real.set_permissions(perm)
    }
}

impl<'a> Files for Failing<'a> {
    type File = FailingFile<'a>;

    type Dir = <HostRuntime as Files>::Dir;

    fn open_file(&self, how: &OpenOptions, path: &str) -> io::Result<FailingFile<'a>> {
        count(self.left)?;
        let real = self.real.open_file(how, path)?;
        Ok(FailingFile {
            real,
            left: self.left,
        })
    }

    fn open_dir(&self, _path: &str) -> io::Result<<HostRuntime as Files>::Dir> {
        unasked()
    }

    fn metadata(&self, _path: &str) -> io::Result<Metadata> {
        unasked()
    }

    fn symlink_metadata(&self, path: &str) -> io::Result<Metadata> {
        count(self.left)?;
        self.real.symlink_metadata(path)
    }

    fn copy(&self, _from: &str, _to: &str) -> io::Result<u64> {
        unasked()
    }

    fn rename(&self, from: &str, to: &str) -> io::Result<()> {
        count(self.left)?;
        self.real.rename(from, to)
    }

    fn remove_file(&self, path: &str) -> io::Result<()> {
        count(self.left)?;
        self.real.remove_file(path)
    }

    fn create_dir(&self, _path: &str) -> io::Result<()> {
        unasked()
    }

    fn remove_dir(&self, _path: &str) -> io::Result<()> {
        unasked()
    }

    fn remove_dir_all<B: Allocator>(&self, _alloc: B, _path: &str) -> io::Result<()> {
        unasked()
    }

    fn canonicalize<B: Allocator>(&self, _alloc: B, _path: &str) -> io::Result<PathBuf<B>> {
        unasked()
    }

    fn read_link<B: Allocator>(&self, _alloc: B, _path: &str) -> io::Result<PathBuf<B>> {
        unasked()
    }

    fn hard_link(&self, _original: &str, _link: &str) -> io::Result<()> {
        unasked()
    }

    fn set_permissions(&self, _path: &str, _perm: Permissions) -> io::Result<()> {
        unasked()
    }

    fn symlink(&self, _original: &str, _link: &str) -> io::Result<()> {
        unasked()
    }

    fn pipe(&self) -> io::Result<(PipeReader, PipeWriter)> {
        unasked()
    }

    fn chown(&self, _path: &str, _uid: Option<u32>, _gid: Option<u32>) -> io::Result<()> {
        unasked()
    }

    fn lchown(&self, _path: &str, _uid: Option<u32>, _gid: Option<u32>) -> io::Result<()> {
        unasked()
    }

    fn create_dir_with_mode(&self, _path: &str, _mode: u32) -> io::Result<()> {
        unasked()
    }

    fn bind_unix(&self, _socket: BorrowedFd<'_>, _addr: &SocketAddr) -> io::Result<()> {
        unasked()
    }
}
