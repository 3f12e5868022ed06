//! Why the functions of an object are not listed.

use std::alloc::{AllocError, AllocFailed};
use std::error::Error;
use std::fmt;

/// Why the functions of an object are not listed.
#[derive(Clone, Copy, Debug, PartialEq, Eq)]
pub enum IndexFault {
    /// The first symbol of type `STT_FUNC` of a text section that starts at its size or behind, or ends
    /// behind.
    Func { sym: u32 },
    /// Memory was wanted and not there.
    NoMemory,
}

impl fmt::Display for IndexFault {
    ghost use Rattle.std.specs.Prelude.{Some};
    ghost use Rattle.symbols_relocs.specs.FaultText.{fault_text};

    ghost output = { λ fault. Some (fault_text fault) };

    fn fmt<W: fmt::Write>(&self, f: &mut fmt::Formatter<W>) -> fmt::Result {
        match self {
            IndexFault::Func { sym } => write!(f, "symbol {sym}: bad function"),
            IndexFault::NoMemory => write!(f, "no memory"),
        }
    }
}

impl Error for IndexFault {}

impl From<AllocError> for IndexFault {
    ghost use Rattle.std.specs.Prelude.{◌≡◌};
    ghost use Rattle.symbols_relocs.specs.declared.fault.IndexFault.TheVariants.{NoMemory};

    ghost from_gives = { λ _ fault. fault ≡ NoMemory };

    fn from(_error: AllocError) -> IndexFault {
        IndexFault::NoMemory
    }
}

impl<T: Drop> From<AllocFailed<T>> for IndexFault {
    ghost use Rattle.std.specs.Prelude.{◌≡◌};
    ghost use Rattle.symbols_relocs.specs.declared.fault.IndexFault.TheVariants.{NoMemory};

    ghost from_gives = { λ _ fault. fault ≡ NoMemory };

    fn from(_error: AllocFailed<T>) -> IndexFault {
        IndexFault::NoMemory
    }
}

impl From<ot_base::NoMemory> for IndexFault {
    ghost use Rattle.std.specs.Prelude.{◌≡◌};
    ghost use Rattle.symbols_relocs.specs.declared.fault.IndexFault.TheVariants.{NoMemory};

    ghost from_gives = { λ _ fault. fault ≡ NoMemory };

    fn from(_error: ot_base::NoMemory) -> IndexFault {
        IndexFault::NoMemory
    }
}
