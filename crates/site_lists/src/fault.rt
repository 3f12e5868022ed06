//! Why an object's site lists hold no places.

ghost use Rattle.std.specs.Prelude.{◌≡◌};
ghost use Rattle.site_lists.specs.declared.fault.SitesFault.TheVariants.{NoMemory};

use orc_bytes::SlotWhy;
use std::alloc::{AllocError, AllocFailed};

/// Why an object's site lists hold no places: the first of these, list by list, and within a list in this order. The lists are
/// `.retpoline_sites` (`which` is 0), `.return_sites` (1) and `.call_sites` (2).
#[derive(Clone, Copy, Debug, PartialEq, Eq)]
pub enum SitesFault {
    /// There is no such section, nor one of another list. Told of list 0.
    NoSection { which: u8 },
    /// Its body has no multiple of four bytes: how many it has.
    BadLength { which: u8, len: u64 },
    /// The place of this slot isn't told as it has to be. Slots are numbered from 0 on. Told of slot 0 also where there are
    /// relocations and no slots.
    BadSlot { which: u8, slot: u32, why: SlotWhy },
    /// Memory ran out.
    NoMemory,
}

impl From<AllocError> for SitesFault {
    ghost from_gives = { λ _ e. e ≡ NoMemory };

    fn from(_e: AllocError) -> SitesFault {
        SitesFault::NoMemory
    }
}

impl<T: Drop> From<AllocFailed<T>> for SitesFault {
    ghost from_gives = { λ _ e. e ≡ NoMemory };

    fn from(_e: AllocFailed<T>) -> SitesFault {
        SitesFault::NoMemory
    }
}
