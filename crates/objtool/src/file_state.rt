//! How a file stands, by which it is told whether it was written.

use std::fs;
use std::os::unix::fs::MetadataExt;

/// A regular file as it stands, as far as it can be told without opening it.
#[derive(Clone, Copy, PartialEq, Eq)]
pub(crate) struct FileState {
    /// Its device and its number there.
    node: (u64, u64),
    size: u64,
    /// When it was last changed, in seconds and nanoseconds.
    changed: (i64, i64),
}

/// The regular file that has a name, where one has.
pub(crate) fn regular_file(rt: &HostRuntime, name: &str) -> Option<FileState> {
    match fs::metadata(rt, name) {
        Ok(said) if said.is_file() => Some(FileState {
            node: (said.dev(), said.ino()),
            size: said.size(),
            changed: (said.ctime(), said.ctime_nsec()),
        }),
        _ => None,
    }
}
