//! Files and outputs that want memory and get none.

use super::objects::code_in_f;
use super::running::{run_words, words_of};
use objtool_cli::Status;
use ot_files::{FileError, Files, Sink, SinkError};
use std::alloc::Global;
use std::process::Abort;

/// Files whose every name holds the same bytes. So many calls get memory, and the next none.
#[derive(Drop)]
struct PoorFiles {
    held: Vec<u8>,
    calls: u64,
    written: bool,
}

impl Files for PoorFiles {
    ghost use Rattle.std.specs.Prelude.{None};

    ghost content = { λ _. None };

    ghost faults = { λ _. 0 };

    fn read(&mut self, _name: &str, limit: u64, into: &mut Vec<u8>) -> Result<(), FileError> {
        into.clear();
        if self.held.len() as u64 > limit {
            return Err(FileError::TooLong { limit });
        }
        match self.calls.checked_sub(1) {
            Some(calls) => self.calls = calls,
            None => return Err(FileError::NoMemory),
        }
        into.extend_from_slice(&self.held)?;
        Ok(())
    }

    fn write(&mut self, _name: &str, _bytes: &[u8]) -> Result<(), FileError> {
        if self.calls == 0 {
            return Err(FileError::NoMemory);
        }
        self.written = true;
        Ok(())
    }
}

/// An output that takes a byte a write: so many, and then it gets no memory.
#[derive(Drop)]
struct PoorSink {
    taken: Vec<u8>,
    most: usize,
}

impl Sink for PoorSink {
    ghost use Rattle.std.specs.Prelude.{None};

    ghost written = { λ _. None };

    ghost faults = { λ _. 0 };

    fn write(&mut self, piece: &[u8]) -> Result<usize, SinkError> {
        if piece.is_empty() {
            return Ok(0);
        }
        if self.taken.len() >= self.most {
            return Err(SinkError::NoMemory);
        }
        self.taken.extend_from_slice(&piece[..1])?;
        Ok(1)
    }
}

/// Words, how many calls of the files get memory, how many bytes the output takes, and the status.
type Poor = (&'static str, u64, usize, Status);

/// What comes of a command.
#[derive(Drop)]
struct Ended {
    status: Status,
    /// What it printed.
    taken: Vec<u8>,
    /// Whether it wrote a file.
    written: bool,
}

/// What comes of a command over files that hold the object of this code.
fn end_of(alloc: Global, code: &[u8], poor: Poor) -> Option<Ended> {
    let (line, calls, most, _) = poor;
    let words = words_of(alloc, line).ok()?;
    let held = code_in_f(alloc, code)?;
    let mut files = PoorFiles {
        held,
        calls,
        written: false,
    };
    let mut out = PoorSink {
        taken: Vec::new(alloc),
        most,
    };
    let status = run_words(alloc, &words, &mut files, &mut out);
    Some(Ended {
        status,
        taken: out.taken,
        written: files.written,
    })
}

/// Whether the command ends so. What it prints is a beginning of the text, of as many bytes as the output takes, and OUT is
/// written exactly where it is done.
fn is_right(alloc: Global, code: &[u8], poor: Poor, text: &str) -> Option<bool> {
    let (_, _, most, status) = poor;
    let ended = end_of(alloc, code, poor)?;
    Some(
        ended.status == status
            && text.as_bytes().get(..most) == Some(ended.taken.as_slice())
            && ended.written == (status == Status::Done),
    )
}

/// The names file is the object itself, of which the first line is no word.
const FILE_CALLS: [Poor; 6] = [
    ("check IN OUT", 0, 0, Status::NoMemory),
    ("check IN OUT", 1, 0, Status::NoMemory),
    ("check IN OUT", 2, 0, Status::Done),
    ("check IN OUT --names=OTHER", 1, 0, Status::NoMemory),
    ("dump IN", 0, 0, Status::NoMemory),
    ("unwind IN OTHER", 1, 0, Status::NoMemory),
];

#[test]
fn files_want_memory(rt: HostRuntime) {
    for poor in FILE_CALLS {
        let found = is_right(rt.alloc(), b"\xC3", poor, "");
        assert!(rt; found == Some(true), "{} {}", poor.0, poor.1);
    }
}

/// What `check` prints on push %rbx; ret, and without words.
const WARNING: &str = ".text+0x1: rule 5: return with modified stack: depth 16\n";

const USAGE: &str = "usage: no command at word 0\n";

/// Each beginning of a text is printed where the output takes as much, and all of it at the status of the command.
fn expect_cut(rt: &impl Abort, alloc: Global, line: &'static str, text: &str, whole: Status) {
    for most in 0..=text.len() {
        let status = if most < text.len() {
            Status::NoMemory
        } else {
            whole
        };
        let found = is_right(alloc, b"\x53\xC3", (line, 9, most, status), text);
        assert!(rt; found == Some(true), "{line} {most}");
    }
}

#[test]
fn an_output_wants_memory(rt: HostRuntime) {
    expect_cut(&rt, rt.alloc(), "check IN OUT", WARNING, Status::Warnings);
    expect_cut(&rt, rt.alloc(), "", USAGE, Status::Usage);
}
