//! Why alternatives are refused.

use std::alloc::{AllocError, AllocFailed};
use std::error::Error;
use std::fmt;

/// What is wrong with an entry. Its fault is the first of these that holds.
#[derive(Clone, Copy, Debug, PartialEq, Eq)]
pub enum SiteWhy {
    /// The original doesn't begin and end at boundaries of its section.
    NotBoundary,
    /// The original shares a byte with that of an earlier entry, and isn't the same.
    Overlap,
    /// The replacement doesn't begin and end at boundaries of its section.
    Replacement,
}

/// Why the alternatives of an object are refused.
#[derive(Clone, Copy, Debug, PartialEq, Eq)]
pub enum SiteFault {
    /// The first entry with a fault.
    At { entry: u32, why: SiteWhy },
    /// Memory was wanted and not there.
    NoMemory,
}

impl fmt::Display for SiteWhy {
    ghost use Rattle.std.specs.Prelude.{Some};
    ghost use Rattle.alternatives.specs.FaultText.{why_text};

    ghost output = { λ why. Some (why_text why) };

    fn fmt<W: fmt::Write>(&self, f: &mut fmt::Formatter<W>) -> fmt::Result {
        match self {
            SiteWhy::NotBoundary => write!(f, "NotBoundary"),
            SiteWhy::Overlap => write!(f, "Overlap"),
            SiteWhy::Replacement => write!(f, "Replacement"),
        }
    }
}

impl fmt::Display for SiteFault {
    ghost use Rattle.std.specs.Prelude.{Some};
    ghost use Rattle.alternatives.specs.FaultText.{fault_text};

    ghost output = { λ fault. Some (fault_text fault) };

    fn fmt<W: fmt::Write>(&self, f: &mut fmt::Formatter<W>) -> fmt::Result {
        match self {
            SiteFault::At { entry, why } => write!(f, "alternative {entry}: {why}"),
            SiteFault::NoMemory => write!(f, "no memory"),
        }
    }
}

impl Error for SiteWhy {}

impl Error for SiteFault {}

impl From<AllocError> for SiteFault {
    ghost use Rattle.std.specs.Prelude.{◌≡◌};
    ghost use Rattle.alternatives.specs.declared.fault.SiteFault.TheVariants.{NoMemory};

    ghost from_gives = { λ _ fault. fault ≡ NoMemory };

    fn from(_error: AllocError) -> SiteFault {
        SiteFault::NoMemory
    }
}

impl<T: Drop> From<AllocFailed<T>> for SiteFault {
    ghost use Rattle.std.specs.Prelude.{◌≡◌};
    ghost use Rattle.alternatives.specs.declared.fault.SiteFault.TheVariants.{NoMemory};

    ghost from_gives = { λ _ fault. fault ≡ NoMemory };

    fn from(_error: AllocFailed<T>) -> SiteFault {
        SiteFault::NoMemory
    }
}

impl From<ot_base::NoMemory> for SiteFault {
    ghost use Rattle.std.specs.Prelude.{◌≡◌};
    ghost use Rattle.alternatives.specs.declared.fault.SiteFault.TheVariants.{NoMemory};

    ghost from_gives = { λ _ fault. fault ≡ NoMemory };

    fn from(_error: ot_base::NoMemory) -> SiteFault {
        SiteFault::NoMemory
    }
}
