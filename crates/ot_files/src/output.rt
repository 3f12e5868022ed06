//! An output that takes pieces of bytes.
ghost use Rattle.std.specs.Prelude.{◌≡◌, ℕ, ◌<◌, ◌≤◌, List, length, take, Option, Ok, IfOk, OnErr, IsErrOf};
ghost use Rattle.ot_files.specs.Causes.{Rose};
ghost use Rattle.ot_files.specs.Output.{appending};

use std::alloc::AllocError;
use thiserror::Error;

/// Why nothing was written.
#[derive(Clone, Copy, Debug, PartialEq, Eq, Error)]
pub enum SinkError {
    /// The call failed outside, and the count of faults rose.
    #[error("failed")]
    Failed,
    /// Memory ran out.
    #[error("out of memory")]
    NoMemory,
}

impl From<AllocError> for SinkError {
    ghost use Rattle.std.specs.Prelude.{◌≡◌};
    ghost use Rattle.ot_files.specs.declared.output.SinkError.TheVariants.{NoMemory};

    ghost from_gives = { λ _ e. e ≡ NoMemory };

    fn from(_error: AllocError) -> SinkError {
        SinkError::NoMemory
    }
}

/// Takes bytes in pieces, in their order.
pub trait Sink {
    /// All that was written, where the implementation tells it.
    ghost written: { Self → Option (List ℕ) };

    /// How many calls failed outside. It never falls, and stands still at its last value.
    ghost faults: { Self → ℕ };

    /// Takes the first bytes of a piece and answers how many, at least one. Of an empty piece it takes
    /// 0, without a call outside. A refusal takes nothing.
    fn write(&mut self, piece: &[u8]) -> Result<usize, SinkError>
        ensures within { IfOk result (λ taken. taken ≤ length piece.now) }
        ensures some { IfOk result (λ taken. 0 < length piece.now → 0 < taken) }
        ensures empty { length piece.now ≡ 0 → result ≡ Ok 0 }
        ensures ok { IfOk result
            (λ taken. written self.new ≡ appending (written self.old) (take taken piece.now)) }
        ensures err { OnErr result (written self.new ≡ written self.old) }

        ensures later { faults self.old ≤ faults self.new }
        ensures failed { IsErrOf result SinkError.Failed → Rose (faults self.old) (faults self.new) }
        // The count rises at no other answer.
        ensures only_failed { faults self.old < faults self.new → IsErrOf result SinkError.Failed };
}
