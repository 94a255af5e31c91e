//! Replaces a file of the system as a whole.

use std::alloc::{AllocError, Global};
use std::fs::{Metadata, OpenFile, OpenOptions};
use std::io::{Error, ErrorKind, Write};
use std::os::unix::fs::{MetadataExt, OpenOptionsExt};
use std::path::{Path, PathBuf};
use std::{fs, io, rt};

/// How many symbolic links in a row are followed, as on Linux.
const MAX_LINKS: usize = 40;

/// What a file may do that is being written, and any file that is new.
const OWNER_ALONE: u32 = 0o600;

const EVERYBODY: u32 = 0o666;

/// Makes the file of this name hold just these bytes.
///
/// It fails where what is there is no regular file, or one that may not be written, and where any
/// step fails; then all is as it was.
pub(crate) fn replace_file<R: rt::Files>(
    alloc: Global,
    runtime: &R,
    name: &str,
    bytes: &[u8],
) -> io::Result<()> {
    let target = follow_links(alloc, runtime, name)?;
    replace_target(alloc, runtime, target.as_str(), bytes)
}

// Where this name leads to by symbolic links. Nothing need be there.
fn follow_links<R: rt::Files>(alloc: Global, runtime: &R, name: &str) -> io::Result<PathBuf> {
    let mut path = PathBuf::from_str(alloc, name)?;
    for _ in 0..MAX_LINKS {
        let is_link = match find(runtime, path.as_str())? {
            Some(found) => found.is_symlink(),
            None => false,
        };
        if !is_link {
            return Ok(path);
        }
        let link = runtime.read_link(alloc, path.as_str())?;
        path.pop();
        path.push(link.as_path())?;
    }
    Err(Error::from(ErrorKind::FilesystemLoop))
}

// What is there, which may be a symbolic link, or none.
fn find<R: rt::Files>(runtime: &R, path: &str) -> io::Result<Option<Metadata>> {
    match runtime.symlink_metadata(path) {
        Ok(found) => Ok(Some(found)),
        Err(error) if error.kind() == ErrorKind::NotFound => Ok(None),
        Err(error) => Err(error),
    }
}

// Replaces what is at this path, which is no symbolic link.
fn replace_target<R: rt::Files>(
    alloc: Global,
    runtime: &R,
    target: &str,
    bytes: &[u8],
) -> io::Result<()> {
    let old = find_old(runtime, target)?;
    let mode = if old.is_some() {
        OWNER_ALONE
    } else {
        EVERYBODY
    };
    for number in 0..u64::MAX {
        let beside = name_beside(alloc, target, number)?;
        match create_new(runtime, beside.as_str(), mode) {
            Ok(file) => return finish(runtime, file, beside.as_str(), target, &old, bytes),
            Err(error) if error.kind() == ErrorKind::AlreadyExists => {}
            Err(error) => return Err(error),
        }
    }
    Err(Error::from(ErrorKind::AlreadyExists))
}

// The file to be replaced, or none. It is opened only where it is a regular file, since the opening
// of others may wait for somebody.
fn find_old<R: rt::Files>(runtime: &R, path: &str) -> io::Result<Option<Metadata>> {
    let Some(found) = find(runtime, path)? else {
        return Ok(None);
    };
    if !found.is_file() {
        return Err(Error::from(ErrorKind::InvalidInput));
    }
    OpenOptions::new().write(true).open(runtime, path)?;
    Ok(Some(found))
}

// The path of a file in the same folder, under a name of this number.
fn name_beside(alloc: Global, target: &str, number: u64) -> Result<PathBuf, AllocError> {
    let name = format!(in alloc; ".pblk-{number}")?;
    Path::new(target).with_file_name(alloc, name.as_str())
}

// Creates a file that is not there yet.
fn create_new<R: rt::Files>(runtime: &R, path: &str, mode: u32) -> io::Result<R::File> {
    let mut options = OpenOptions::new();
    options.write(true).create_new(true).mode(mode);
    options.open(runtime, path)
}

// Fills the new file and gives it the old one's place, or takes it away where that fails.
fn finish<R: rt::Files>(
    runtime: &R,
    file: R::File,
    beside: &str,
    target: &str,
    old: &Option<Metadata>,
    bytes: &[u8],
) -> io::Result<()> {
    let filled = fill_and_move(runtime, file, beside, target, old, bytes);
    if filled.is_err() {
        let _ = runtime.remove_file(beside);
    } else {
        sync_folder(runtime, target);
    }
    filled
}

// Writes the new file, and gives it the old one's place once the system has stored it.
fn fill_and_move<R: rt::Files>(
    runtime: &R,
    mut file: R::File,
    beside: &str,
    target: &str,
    old: &Option<Metadata>,
    bytes: &[u8],
) -> io::Result<()> {
    file.write_all(bytes)?;
    if let Some(old) = old {
        keep_owner(runtime, &file, beside, old)?;
    }
    file.sync_all()?;
    runtime.rename(beside, target)
}

// Gives the new file the old one's owner and permissions.
fn keep_owner<R: rt::Files>(
    runtime: &R,
    file: &R::File,
    beside: &str,
    old: &Metadata,
) -> io::Result<()> {
    let new = file.metadata()?;
    if new.uid() != old.uid() || new.gid() != old.gid() {
        runtime.chown(beside, Some(old.uid()), Some(old.gid()))?;
    }
    file.set_permissions(old.permissions())
}

// Waits until the folder of this file is stored. The new file is whole and in its place already, so
// an error here is none of the caller's.
fn sync_folder<R: rt::Files>(runtime: &R, file: &str) {
    let folder = match Path::new(file).parent() {
        Some(folder) if !folder.as_str().is_empty() => folder,
        _ => Path::new("."),
    };
    if let Ok(folder) = fs::open(runtime, folder) {
        let _ = folder.sync_all();
    }
}
