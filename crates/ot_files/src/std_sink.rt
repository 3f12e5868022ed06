//! The standard output: the trusted edge.
ghost use Rattle.std.specs.Prelude.{◌≡◌, None};
ghost use Rattle.ot_files.specs.Causes.{raised};

use crate::output::{Sink, SinkError};
use std::io::Print;
use std::marker::Model;

/// What a runtime prints to. It tells nothing of what was written, keeps no bytes back, and counts
/// each write that fails; one that takes nothing of a piece fails.
#[derive(Drop)]
pub struct StdSink<R> {
    runtime: R,
    faults: u64,
}

impl<R> Model for StdSink<R> {
    ghost use Rattle.std.specs.Prelude.{ℕ};

    ghost Value = { ℕ };

    ghost view = { λ s. s.faults };
}

impl<R: Print> StdSink<R> {
    /// The standard output of the runtime, with no fault so far.
    pub fn new(runtime: R) -> StdSink<R>
        ensures { result ≡ 0 }
    {
        StdSink { runtime, faults: 0 }
    }
}

impl<R: Print> Sink for StdSink<R> {
    ghost written = { λ _. None };

    ghost faults = { λ s. s };

    fn write(&mut self, piece: &[u8]) -> Result<usize, SinkError> {
        if piece.is_empty() {
            return Ok(0);
        }
        match self.runtime.write_some(piece) {
            Ok(taken) if taken > 0 => Ok(taken),
            Ok(_) | Err(_) => {
                self.faults = self.faults.saturating_add(1);
                Err(SinkError::Failed)
            }
        }
    }
}
