//! Why the code of an object isn't read.

use alternatives::SiteFault;
use ot_base::NoMemory;
use special_sections::SpecialFault;
use std::alloc::{AllocError, AllocFailed};
use symbols_relocs::IndexFault;
use x86_text::TextFault;

/// Why the code of an object isn't read: what the first of its readers that refuses it says.
#[derive(Clone, Copy, Debug, PartialEq, Eq)]
pub enum LinkFault {
    /// The first text section that isn't code from its first byte to its last, and where and why.
    Text { sec: u32, fault: TextFault },
    /// The first entry of a special section that is refused.
    Special(SpecialFault),
    /// The first function that leaves its section.
    Index(IndexFault),
    /// The first alternative that is refused.
    Site(SiteFault),
    /// Memory was wanted and not there.
    NoMemory,
}

impl From<AllocError> for LinkFault {
    ghost use Rattle.std.specs.Prelude.{◌≡◌};
    ghost use Rattle.object_points.specs.declared.fault.LinkFault.TheVariants.{NoMemory};

    ghost from_gives = { λ _ fault. fault ≡ NoMemory };

    fn from(_error: AllocError) -> LinkFault {
        LinkFault::NoMemory
    }
}

impl<T: Drop> From<AllocFailed<T>> for LinkFault {
    ghost use Rattle.std.specs.Prelude.{◌≡◌};
    ghost use Rattle.object_points.specs.declared.fault.LinkFault.TheVariants.{NoMemory};

    ghost from_gives = { λ _ fault. fault ≡ NoMemory };

    fn from(_error: AllocFailed<T>) -> LinkFault {
        LinkFault::NoMemory
    }
}

impl From<NoMemory> for LinkFault {
    ghost use Rattle.std.specs.Prelude.{◌≡◌};
    ghost use Rattle.object_points.specs.declared.fault.LinkFault.TheVariants as faults;

    ghost from_gives = { λ _ fault. fault ≡ faults.NoMemory };

    fn from(_want: NoMemory) -> LinkFault {
        LinkFault::NoMemory
    }
}

impl From<SpecialFault> for LinkFault {
    ghost use Rattle.std.specs.Prelude.{◌≡◌};
    ghost use Rattle.object_points.specs.Linked.{special_fault};

    ghost from_gives = { λ fault told. told ≡ special_fault fault };

    fn from(fault: SpecialFault) -> LinkFault {
        match fault {
            SpecialFault::NoMemory => LinkFault::NoMemory,
            fault => LinkFault::Special(fault),
        }
    }
}

impl From<IndexFault> for LinkFault {
    ghost use Rattle.std.specs.Prelude.{◌≡◌};
    ghost use Rattle.object_points.specs.Linked.{index_fault};

    ghost from_gives = { λ fault told. told ≡ index_fault fault };

    fn from(fault: IndexFault) -> LinkFault {
        match fault {
            IndexFault::NoMemory => LinkFault::NoMemory,
            fault => LinkFault::Index(fault),
        }
    }
}

impl From<SiteFault> for LinkFault {
    ghost use Rattle.std.specs.Prelude.{◌≡◌};
    ghost use Rattle.object_points.specs.Linked.{site_fault};

    ghost from_gives = { λ fault told. told ≡ site_fault fault };

    fn from(fault: SiteFault) -> LinkFault {
        match fault {
            SiteFault::NoMemory => LinkFault::NoMemory,
            fault => LinkFault::Site(fault),
        }
    }
}
