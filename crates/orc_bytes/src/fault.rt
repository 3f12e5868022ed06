//! Why ORC sections hold no rows.

ghost use Rattle.std.specs.Prelude.{◌≡◌};
ghost use Rattle.orc_bytes.specs.declared.fault.OrcFault.TheVariants.{NoMemory};

use std::alloc::{AllocError, AllocFailed};

/// What is wrong with a row's four bytes of `.orc_unwind_ip`, or with the relocation that fills them in.
/// The order is that in which they are looked for.
#[derive(Clone, Copy, Debug, PartialEq, Eq)]
pub enum SlotWhy {
    /// There is no such relocation; or, told of the last row, there are more relocations than rows.
    NoReloc,
    /// The relocation's type isn't `R_X86_64_PC32`.
    Kind,
    /// The relocation isn't at the row's four bytes.
    Offset,
    /// The relocation's symbol isn't the section symbol of a text section.
    Symbol,
    /// The addend is negative, or above the section's size.
    Range,
    /// The four bytes aren't zero.
    NotZero,
}

/// Why an object's ORC sections hold no rows: the first of these, in this order, and of those that are
/// told of a row the first of the lowest row. Rows are numbered from 0 on.
#[derive(Clone, Copy, Debug, PartialEq, Eq)]
pub enum OrcFault {
    /// There is no section `.orc_unwind` (`which` is 0), or no section `.orc_unwind_ip` (1).
    NoSection { which: u8 },
    /// The body of `.orc_unwind` (0) has no multiple of six bytes, or that of `.orc_unwind_ip` (1) no
    /// multiple of four: how many it has.
    BadLength { which: u8, len: u64 },
    /// The two sections tell different numbers of rows and of places.
    Counts { rows: u64, ips: u64 },
    /// A register or kind of the row that the format doesn't number, or one of bits 12 to 15 is set.
    BadBits { row: u32 },
    /// The row's place isn't told as it has to be. Told of row 0 also where there are relocations and no
    /// rows.
    BadSlot { row: u32, why: SlotWhy },
    /// Memory ran out.
    NoMemory,
}

impl From<AllocError> for OrcFault {
    ghost from_gives = { λ _ e. e ≡ NoMemory };

    fn from(_e: AllocError) -> OrcFault {
        OrcFault::NoMemory
    }
}

impl<T: Drop> From<AllocFailed<T>> for OrcFault {
    ghost from_gives = { λ _ e. e ≡ NoMemory };

    fn from(_e: AllocFailed<T>) -> OrcFault {
        OrcFault::NoMemory
    }
}
