//! Why an object has no call frame information that is read.

ghost use Rattle.std.specs.Prelude.{◌≡◌};
ghost use Rattle.eh_frame.specs.declared.fault.EhFault.TheVariants.{NoMemory as memory};

use ot_base::NoMemory;
use std::alloc::{AllocError, AllocFailed};

/// Why an object's `.eh_frame` isn't one of this profile: the first fault by its record, and within a record in this order.
/// Offsets are bytes from the beginning of the section.
#[derive(Clone, Copy, Debug, PartialEq, Eq)]
pub enum EhFault {
    /// There is no section `.eh_frame`.
    NoSection,
    /// The record that begins here isn't as the profile has it: its bytes before the instructions, its length, or the size or
    /// the order of the section that it is for.
    BadRecord { off: u64 },
    /// The relocation of the record that begins here isn't as the profile has it, or there is a further one.
    BadReloc { off: u64 },
    /// The instruction here isn't one of the profile, or moves on past the end of the section that its record is for.
    BadOp { off: u64 },
    /// Memory ran out.
    NoMemory,
}

impl From<NoMemory> for EhFault {
    ghost from_gives = { λ _ e. e ≡ memory };

    fn from(_want: NoMemory) -> EhFault {
        EhFault::NoMemory
    }
}

impl From<AllocError> for EhFault {
    ghost from_gives = { λ _ e. e ≡ memory };

    fn from(_e: AllocError) -> EhFault {
        EhFault::NoMemory
    }
}

impl<T: Drop> From<AllocFailed<T>> for EhFault {
    ghost from_gives = { λ _ e. e ≡ memory };

    fn from(_e: AllocFailed<T>) -> EhFault {
        EhFault::NoMemory
    }
}
