//! The files of the system: the trusted edge.
ghost use Rattle.std.specs.Prelude.{◌≡◌, ◌≤◌, None};
ghost use Rattle.ot_files.specs.Causes.{raised};

use crate::access::{FileError, Files};
use crate::replacing::replace;
use std::alloc::Global;
use std::fs::OpenFile;
use std::io::{ErrorKind, Read};
use std::marker::Model;
use std::rt::Files as SystemFiles;
use std::{fs, io};

/// How many bytes are read at once.
const PIECE_BYTES: usize = 8192;

/// A call on a file that failed.
#[derive(Drop)]
pub struct FileFault {
    /// The file's name.
    pub name: String,
    /// Why it failed, as the system tells it.
    pub error: io::Error,
}

/// The files of the system that a runtime reaches. They tell no content, count each call that
/// fails, and remember the last; a file that is missing or too long is no failure. A file gets new content in one step
/// (`replace`), so after a refused write it holds what it held.
#[derive(Drop)]
pub struct StdFiles<R> {
    alloc: Global,
    runtime: R,
    faults: u64,
    last_fault: Option<FileFault>,
}

impl<R> Model for StdFiles<R> {
    ghost use Rattle.std.specs.Prelude.{ℕ};

    ghost Value = { ℕ };

    ghost view = { λ s. s.faults };
}

impl<R: SystemFiles> StdFiles<R> {
    /// The files that the runtime reaches, with no fault so far.
    pub fn new(alloc: Global, runtime: R) -> StdFiles<R>
        ensures { result ≡ 0 }
    {
        StdFiles {
            alloc,
            runtime,
            faults: 0,
            last_fault: None,
        }
    }

    /// The last call that failed; nothing where none did, or where there was no memory for the name.
    pub fn last_fault(&self) -> Option<&FileFault> {
        self.last_fault.as_ref()
    }

    /// Counts and remembers a call that failed.
    fn fault(&mut self, name: &str, error: io::Error) -> FileError
        ensures answer { result ≡ FileError.Failed }
        ensures counted { self.new ≡ raised self.old }
        ensures later { self.old ≤ self.new }
    {
        self.faults = self.faults.saturating_add(1);
        self.last_fault = match String::from_str(self.alloc, name) {
            Ok(name) => Some(FileFault { name, error }),
            Err(_) => None,
        };
        FileError::Failed
    }
}

/// Makes room for the bytes that a file says it has, at most `limit`. Where it says nothing, or there is too little memory, room is
/// made as they come.
fn reserve_said<F: OpenFile>(file: &F, limit: u64, into: &mut Vec<u8>)
    ensures { into.new.items ≡ into.old.items }
{
    if let Ok(said) = file.metadata() {
        let _ = into.reserve_exact(said.len().min(limit) as usize);
    }
}

/// Adds what a reader still gives.
fn read_rest<R: Read>(reader: &mut R, into: &mut Vec<u8>) -> io::Result<()> {
    let mut piece = [0; PIECE_BYTES];
    for _ in 0..u64::MAX {
        match reader.read(&mut piece) {
            Ok(0) => return Ok(()),
            Ok(count) => into.extend_from_slice(&piece[..count])?,
            Err(e) if e.kind() == ErrorKind::Interrupted => {}
            Err(e) => return Err(e),
        }
    }
    Err(io::Error::from(ErrorKind::TimedOut))
}

impl<R: SystemFiles> Files for StdFiles<R> {
    ghost content = { λ _. None };

    ghost faults = { λ s. s };

    fn read(&mut self, name: &str, limit: u64, into: &mut Vec<u8>) -> Result<(), FileError> {
        into.clear();
        let file = match fs::open(&self.runtime, name) {
            Ok(file) => file,
            Err(e) if e.kind() == ErrorKind::NotFound => return Err(FileError::Missing),
            Err(e) => return Err(self.fault(name, e)),
        };
        reserve_said(&file, limit, into);
        let mut reader = file.take(limit.saturating_add(1));
        let error = match read_rest(&mut reader, into) {
            Ok(()) if into.len() as u64 <= limit => return Ok(()),
            Ok(()) => FileError::TooLong { limit },
            Err(e) if e.kind() == ErrorKind::OutOfMemory => FileError::NoMemory,
            Err(e) => self.fault(name, e),
        };
        into.clear();
        Err(error)
    }

    fn write(&mut self, name: &str, bytes: &[u8]) -> Result<(), FileError> {
        match replace(&self.runtime, self.alloc, name, bytes) {
            Ok(()) => Ok(()),
            Err(e) if e.kind() == ErrorKind::OutOfMemory => Err(FileError::NoMemory),
            Err(e) => Err(self.fault(name, e)),
        }
    }
}
