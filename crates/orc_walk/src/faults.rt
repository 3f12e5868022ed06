use ot_base::NoMemory;
use std::alloc::{AllocError, AllocFailed};
use std::error::Error;
use std::fmt;

/// Why a section can't be placed.
#[derive(Clone, Copy, Debug, PartialEq, Eq)]
pub enum PlaceWhy {
    /// A row is in the section, and no range is the section's.
    Missing,
    /// The address right behind the range has more than 64 bits.
    Wraps,
    /// The range shares an address with an earlier one.
    Overlaps {
        /// The section of the first earlier range that it shares an address with.
        other: u32,
    },
}

/// Why a table can't be placed.
#[derive(Clone, Copy, Debug, PartialEq, Eq)]
pub enum PlaceFault {
    /// A section can't be placed.
    At {
        /// The section's number in the section header table.
        sec: u32,
        /// Why.
        why: PlaceWhy,
    },
    /// Memory was wanted and not there.
    NoMemory,
}

impl fmt::Display for PlaceWhy {
    ghost use Rattle.std.specs.Prelude.{Some};
    ghost use Rattle.orc_walk.specs.FaultText.{why_text};

    ghost output = { λ why. Some (why_text why) };

    fn fmt<W: fmt::Write>(&self, f: &mut fmt::Formatter<W>) -> fmt::Result {
        match self {
            PlaceWhy::Missing => write!(f, "not placed"),
            PlaceWhy::Wraps => write!(f, "wraps"),
            PlaceWhy::Overlaps { other } => write!(f, "overlaps {other}"),
        }
    }
}

impl fmt::Display for PlaceFault {
    ghost use Rattle.std.specs.Prelude.{Some};
    ghost use Rattle.orc_walk.specs.FaultText.{fault_text};

    ghost output = { λ fault. Some (fault_text fault) };

    fn fmt<W: fmt::Write>(&self, f: &mut fmt::Formatter<W>) -> fmt::Result {
        match self {
            PlaceFault::At { sec, why } => write!(f, "section {sec}: {why}"),
            PlaceFault::NoMemory => write!(f, "no memory"),
        }
    }
}

impl Error for PlaceFault {}

impl From<NoMemory> for PlaceFault {
    ghost use Rattle.std.specs.Prelude.{◌≡◌};
    ghost use Rattle.orc_walk.specs.declared.faults.PlaceFault.TheVariants.{NoMemory as no_memory};

    ghost from_gives = { λ _ fault. fault ≡ no_memory };

    fn from(_error: NoMemory) -> PlaceFault {
        PlaceFault::NoMemory
    }
}

impl From<AllocError> for PlaceFault {
    ghost use Rattle.std.specs.Prelude.{◌≡◌};
    ghost use Rattle.orc_walk.specs.declared.faults.PlaceFault.TheVariants.{NoMemory as no_memory};

    ghost from_gives = { λ _ fault. fault ≡ no_memory };

    fn from(_error: AllocError) -> PlaceFault {
        PlaceFault::NoMemory
    }
}

impl<T: Drop> From<AllocFailed<T>> for PlaceFault {
    ghost use Rattle.std.specs.Prelude.{◌≡◌};
    ghost use Rattle.orc_walk.specs.declared.faults.PlaceFault.TheVariants.{NoMemory as no_memory};

    ghost from_gives = { λ _ fault. fault ≡ no_memory };

    fn from(_error: AllocFailed<T>) -> PlaceFault {
        PlaceFault::NoMemory
    }
}
