//! Why no section symbol is inserted.

use std::alloc::{AllocError, AllocFailed};

/// Why no section symbol is inserted.
#[derive(Clone, Copy, Debug, PartialEq, Eq)]
pub enum SymFault {
    /// The first of the sections that has a section symbol, and the first such symbol.
    HasOne { sec: u32, sym: u32 },
    /// Memory was wanted and not there.
    NoMemory,
}

impl From<AllocError> for SymFault {
    ghost use Rattle.std.specs.Prelude.{◌≡◌};
    ghost use Rattle.elf_write.specs.declared.fault.SymFault.TheVariants.{NoMemory};

    ghost from_gives = { λ _ fault. fault ≡ NoMemory };

    fn from(_error: AllocError) -> SymFault {
        SymFault::NoMemory
    }
}

impl<T: Drop> From<AllocFailed<T>> for SymFault {
    ghost use Rattle.std.specs.Prelude.{◌≡◌};
    ghost use Rattle.elf_write.specs.declared.fault.SymFault.TheVariants.{NoMemory};

    ghost from_gives = { λ _ fault. fault ≡ NoMemory };

    fn from(_error: AllocFailed<T>) -> SymFault {
        SymFault::NoMemory
    }
}

impl From<ot_base::NoMemory> for SymFault {
    ghost use Rattle.std.specs.Prelude.{◌≡◌};
    ghost use Rattle.elf_write.specs.declared.fault.SymFault.TheVariants.{NoMemory};

    ghost from_gives = { λ _ fault. fault ≡ NoMemory };

    fn from(_error: ot_base::NoMemory) -> SymFault {
        SymFault::NoMemory
    }
}
