//! An output that remembers the last line.

use ot_files::{Sink, SinkError};
use std::alloc::Global;

/// A line, as far as it was written.
#[derive(Drop)]
struct Line {
    /// Its bytes, without the line feed.
    bytes: Vec<u8>,
    /// Its line feed was written.
    has_ended: bool,
    /// There was memory for each of its bytes.
    is_whole: bool,
}

impl Line {
    /// The next byte that is written: of this line, or the first of the one behind it.
    fn write(&mut self, byte: u8) {
        if self.has_ended {
            self.bytes.clear();
            self.is_whole = true;
        }
        self.has_ended = byte == b'\n';
        if !self.has_ended {
            self.is_whole = self.is_whole && self.bytes.push(byte).is_ok();
        }
    }

    /// The next bytes that are written.
    fn write_all(&mut self, piece: &[u8]) {
        for byte in piece {
            self.write(*byte);
        }
    }
}

/// Another output, and the last line that was written to it. It writes and fails as the other one does.
#[derive(Drop)]
pub(crate) struct LastLine<S> {
    sink: S,
    line: Line,
}

impl<S: Sink + Drop> LastLine<S> {
    /// An output to which nothing was written so far.
    pub(crate) fn new(alloc: Global, sink: S) -> LastLine<S> {
        LastLine {
            sink,
            line: Line {
                bytes: Vec::new(alloc),
                has_ended: false,
                is_whole: true,
            },
        }
    }

    /// The last line, without its line feed; nothing where there was no memory for all of it.
    pub(crate) fn line(&self) -> &[u8] {
        if self.line.is_whole {
            &self.line.bytes
        } else {
            &[]
        }
    }
}

impl<S: Sink + Drop> Sink for LastLine<S> {
    ghost written = { λ s. S.written s.sink };

    ghost faults = { λ s. S.faults s.sink };

    fn write(&mut self, piece: &[u8]) -> Result<usize, SinkError> {
        let taken = self.sink.write(piece)?;
        self.line.write_all(&piece[..taken]);
        Ok(taken)
    }
}
