//! Folders of the system's files.

use std::fs::Files;
use std::{fs, io};

/// Makes these folders, and then these files, each of a path and a text.
pub fn make(rt: HostRuntime, folders: &[&str], files: &[(&str, &str)]) -> io::Result<()> {
    for folder in folders {
        rt.create_dir(folder)?;
    }
    for (path, text) in files {
        fs::write(&rt, path, *text)?;
    }
    Ok(())
}

/// Takes these files away, and then these folders. Fails where one of them isn't there, and where a
/// folder holds anything else.
pub fn take_away(rt: HostRuntime, files: &[&str], folders: &[&str]) -> io::Result<()> {
    for path in files {
        rt.remove_file(path)?;
    }
    for folder in folders {
        rt.remove_dir(folder)?;
    }
    Ok(())
}
