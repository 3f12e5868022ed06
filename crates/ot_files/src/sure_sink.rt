//! An output in memory, none of whose calls fails.
ghost use Rattle.std.specs.Prelude.{◌≡◌, ◌<◌, ◌≤◌, [], ◌++◌, length, min, take, Some, Ok, IfOk, OnErr, IsOkUnless};

use crate::output::{Sink, SinkError};
use std::alloc::Global;
use std::marker::Model;

/// An output in memory that tells what was written. Only want of memory is refused, and no fault
/// is counted.
#[derive(Drop)]
pub struct SureSink {
    most: usize,
    written: Vec<u8>,
}

impl Model for SureSink {
    ghost use Rattle.std.specs.Prelude.{◌≤◌};
    ghost use Rattle.ot_files.specs.Memory.{MemoryOutput, memory_output_code};

    ghost Value = { MemoryOutput };

    ghost coded = { memory_output_code };

    ghost view = { λ s. record { most = s.most; written = s.written.items } };

    ghost invariant = { λ s. 1 ≤ s.most };
}

impl SureSink {
    /// An empty output that takes at most `most` bytes a write.
    pub fn new(alloc: Global, most: usize) -> SureSink
        requires { 1 ≤ most }
        ensures { result ≡ record { most = most; written = [] } }
    {
        SureSink {
            most,
            written: Vec::new(alloc),
        }
    }

    /// All that was written.
    pub fn written(&self) -> &[u8]
        ensures { result.now ≡ self.now.written }
    {
        self.written.as_slice()
    }
}

impl Sink for SureSink {
    ghost written = { λ s. Some s.written };

    ghost faults = { λ _. 0 };

    fn write(&mut self, piece: &[u8]) -> Result<usize, SinkError>
        ensures taken { IfOk result (λ taken. taken ≡ min self.old.most (length piece.now)) }
        ensures some { IfOk result (λ taken. 0 < length piece.now → 0 < taken) }
        ensures empty { length piece.now ≡ 0 → result ≡ Ok 0 }
        ensures ok { IfOk result
            (λ taken. self.new ≡ record self.old { written = self.old.written ++ take taken piece.now }) }
        ensures err { OnErr result (self.new ≡ self.old) }
        ensures refusal { IsOkUnless result SinkError.NoMemory }
    {
        if piece.is_empty() {
            return Ok(0);
        }
        let taken = self.most.min(piece.len());
        self.written.extend_from_slice(&piece[..taken])?;
        Ok(taken)
    }
}
