//! New content for a file of the system, put in its place in one step.

use std::alloc::Global;
use std::fs::{Metadata, OpenFile, OpenOptions};
use std::io::{ErrorKind, Write};
use std::os::unix::fs::{MetadataExt, PermissionsExt};
use std::path::AsPath;
use std::rt::Files as SystemFiles;
use std::{fs, io};

/// How many names are tried for the new file. Each is in use only while a file is written beside it.
const TRIES: u32 = 1000;

/// Makes a name hold exactly these bytes.
///
/// A regular file, and one that isn't there yet, gets its content in one step: the bytes are written to a
/// new file in the same folder, which then takes its place. After an error it is as it was, and the new
/// file is gone. The new file has the old one's permissions, and its owner where the system allows that. A
/// symbolic link stays, and the file that it leads to gets the content. A file that may not be written is
/// refused.
///
/// Whatever else has the name, as a device or a pipe, is written where it is, and so is a new file behind
/// a symbolic link that leads nowhere yet.
pub fn replace<R: SystemFiles>(
    runtime: &R,
    alloc: Global,
    name: &str,
    bytes: &[u8],
) -> io::Result<()> {
    match fs::metadata(runtime, name) {
        Ok(old) if old.is_file() => {
            OpenOptions::new().write(true).open(runtime, name)?;
            if fs::symlink_metadata(runtime, name)?.is_symlink() {
                let target = runtime.canonicalize(alloc, name)?;
                put(runtime, alloc, target.path_text(), Some(&old), bytes)
            } else {
                put(runtime, alloc, name, Some(&old), bytes)
            }
        }
        Err(e) if e.kind() == ErrorKind::NotFound && !is_link(runtime, name) => {
            put(runtime, alloc, name, None, bytes)
        }
        _ => fs::write(runtime, name, bytes),
    }
}

/// Whether a symbolic link has the name.
fn is_link<R: SystemFiles>(runtime: &R, name: &str) -> bool {
    match fs::symlink_metadata(runtime, name) {
        Ok(found) => found.is_symlink(),
        Err(_) => false,
    }
}

/// Puts a new file with these bytes in the place of `target`, which is the old file, or nothing.
fn put<R: SystemFiles>(
    runtime: &R,
    alloc: Global,
    target: &str,
    old: Option<&Metadata>,
    bytes: &[u8],
) -> io::Result<()> {
    let (file, beside) = create_beside(runtime, alloc, target)?;
    let placed = match fill(runtime, file, beside.as_str(), old, bytes) {
        Ok(()) => fs::rename(runtime, beside.as_str(), target),
        Err(e) => Err(e),
    };
    if placed.is_err() {
        // What can't be removed either is left, and the first error is told.
        let _ = fs::remove_file(runtime, beside.as_str());
    }
    placed
}

/// A new file in the folder of `target`, and its name.
fn create_beside<R: SystemFiles>(
    runtime: &R,
    alloc: Global,
    target: &str,
) -> io::Result<(R::File, String)> {
    let folder = match target.rfind('/') {
        Some(slash) => &target[..=slash],
        None => "",
    };
    for number in 0..TRIES {
        let beside = format!(in alloc; "{folder}.objtool-{number}.tmp")?;
        match OpenOptions::new()
            .write(true)
            .create_new(true)
            .open(runtime, beside.as_str())
        {
            Ok(file) => return Ok((file, beside)),
            Err(e) if e.kind() == ErrorKind::AlreadyExists => {}
            Err(e) => return Err(e),
        }
    }
    Err(io::Error::from(ErrorKind::AlreadyExists))
}

/// Gives the new file the old one's owner and permissions, and the bytes.
fn fill<R: SystemFiles>(
    runtime: &R,
    mut file: R::File,
    beside: &str,
    old: Option<&Metadata>,
    bytes: &[u8],
) -> io::Result<()> {
    if let Some(old) = old {
        let new = file.metadata()?;
        if (new.uid(), new.gid()) != (old.uid(), old.gid()) {
            let _ = runtime.chown(beside, Some(old.uid()), Some(old.gid()));
        }
        let mut permissions = old.permissions();
        permissions.set_mode(old.mode() & 0o777);
        file.set_permissions(permissions)?;
    }
    file.write_all(bytes)
}
