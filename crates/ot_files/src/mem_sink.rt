//! An output in memory, some of whose calls fail.
ghost use Rattle.std.specs.Prelude.{◌≡◌, ◌<◌, ◌≤◌, ◌↔◌, [], ◌++◌, length, min, take, Some, Ok, true, IfOk, OnErr, IsErrOf};
ghost use Rattle.ot_files.specs.Memory.{fails_now, after_call};

use crate::calls::FailingCalls;
use crate::output::{Sink, SinkError};
use crate::sure_sink::SureSink;
use std::alloc::Global;
use std::marker::Model;

/// An output in memory that tells what was written. Its writes are numbered from 0, and those whose
/// numbers were given fail.
#[derive(Drop)]
pub struct MemSink {
    sink: SureSink,
    plan: FailingCalls,
}

impl Model for MemSink {
    ghost use Rattle.ot_files.specs.Memory.{PlannedOutput, planned_output_code};

    ghost Value = { PlannedOutput };

    ghost coded = { planned_output_code };

    ghost view = { λ s. record { output = s.sink; plan = s.plan } };
}

impl MemSink {
    /// An empty output that takes at most `most` bytes a write, and the numbers of the writes that fail.
    pub fn new(alloc: Global, most: usize, failing: Vec<u64>) -> MemSink
        requires { 1 ≤ most }
        ensures output { result.output ≡ record { most = most; written = [] } }
        ensures plan { result.plan ≡ record { failing = failing.items; calls = 0; faults = 0 } }
    {
        MemSink {
            sink: SureSink::new(alloc, most),
            plan: FailingCalls::new(failing),
        }
    }

    /// All that was written.
    pub fn written(&self) -> &[u8]
        ensures { result.now ≡ self.now.output.written }
    {
        self.sink.written()
    }

    /// How many writes have failed.
    pub fn faults(&self) -> u64
        ensures { result ≡ self.now.plan.faults }
    {
        self.plan.faults()
    }
}

impl Sink for MemSink {
    ghost written = { λ s. Some s.output.written };

    ghost faults = { λ s. s.plan.faults };

    fn write(&mut self, piece: &[u8]) -> Result<usize, SinkError>
        ensures fails { 0 < length piece.now → (IsErrOf result SinkError.Failed ↔ (fails_now self.old.plan ≡ true)) }
        ensures plan { 0 < length piece.now → self.new.plan ≡ after_call self.old.plan }
        // An empty piece isn't counted as a call.
        ensures empty { length piece.now ≡ 0 → (result ≡ Ok 0) × (self.new ≡ self.old) }
        ensures later { self.old.plan.faults ≤ self.new.plan.faults }
        ensures taken { IfOk result (λ taken. taken ≡ min self.old.output.most (length piece.now)) }
        ensures some { IfOk result (λ taken. 0 < length piece.now → 0 < taken) }
        ensures ok { IfOk result (λ taken. self.new.output ≡
            record self.old.output { written = self.old.output.written ++ take taken piece.now }) }
        ensures err { OnErr result (self.new.output ≡ self.old.output) }
    {
        if piece.is_empty() {
            return Ok(0);
        }
        if self.plan.next_fails() {
            return Err(SinkError::Failed);
        }
        self.sink.write(piece)
    }
}
