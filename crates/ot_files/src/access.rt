//! Files by name.
ghost use Rattle.std.specs.Prelude.{◌≡◌, ℕ, ◌≤◌, ◌⊎◌, [], length, Option, IfSome, OnOk, OnErr, IfErr, IsErrOf};
ghost use Rattle.ot_files.specs.Causes.{Rose};
ghost use Rattle.ot_files.specs.Content.{Content, reading, Answers, writing, ChangesAtMost, IsLimit};

use std::alloc::AllocError;
use thiserror::Error;

/// Why a file was not read or written.
#[derive(Clone, Copy, Debug, PartialEq, Eq, Error)]
pub enum FileError {
    /// The call failed outside, and the count of faults rose.
    #[error("failed")]
    Failed,
    /// No file has the name.
    #[error("missing")]
    Missing,
    /// The file holds more than `limit` bytes.
    #[error("longer than {limit} bytes")]
    TooLong { limit: u64 },
    /// Memory ran out.
    #[error("out of memory")]
    NoMemory,
}

impl From<AllocError> for FileError {
    ghost use Rattle.std.specs.Prelude.{◌≡◌};
    ghost use Rattle.ot_files.specs.declared.access.FileError.TheVariants.{NoMemory};

    ghost from_gives = { λ _ e. e ≡ NoMemory };

    fn from(_error: AllocError) -> FileError {
        FileError::NoMemory
    }
}

/// Reads and writes whole files by name.
pub trait Files {
    /// What each name holds, where the implementation tells it.
    ghost content: { Self → Option Content };

    /// How many calls failed outside. It never falls, and stands still at its last value.
    ghost faults: { Self → ℕ };

    /// Makes `into` hold what the name holds, at most `limit` bytes. After a refusal `into` is empty.
    fn read(&mut self, name: &str, limit: u64, into: &mut Vec<u8>) -> Result<(), FileError>
        ensures told { IfSome (content self.old)
            (λ held. Answers result into.new.items (reading held name.now limit)) }
        ensures kept { content self.new ≡ content self.old }
        ensures within { OnOk result (length into.new.items ≤ limit) }
        ensures limit { IfErr result (IsLimit limit) }
        ensures emptied { OnErr result (into.new.items ≡ []) }

        ensures later { faults self.old ≤ faults self.new }
        ensures failed { IsErrOf result FileError.Failed → Rose (faults self.old) (faults self.new) }
        // A missing file and one that is too long are no faults.
        ensures missing { IsErrOf result FileError.Missing → faults self.new ≡ faults self.old }
        ensures too_long { IsErrOf result (FileError.TooLong limit) → faults self.new ≡ faults self.old };

    /// Makes the name hold exactly `bytes`. After a refusal what the name holds is open.
    fn write(&mut self, name: &str, bytes: &[u8]) -> Result<(), FileError>
        ensures ok { OnOk result (content self.new ≡ writing (content self.old) name.now bytes.now) }
        ensures err { OnErr result (ChangesAtMost name.now (content self.old) (content self.new)) }
        ensures refusal { IfErr result (λ e. (e ≡ FileError.Failed) ⊎ (e ≡ FileError.NoMemory)) }

        ensures later { faults self.old ≤ faults self.new }
        ensures failed { IsErrOf result FileError.Failed → Rose (faults self.old) (faults self.new) };
}
