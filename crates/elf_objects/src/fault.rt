//! Why bytes are no object.

ghost use Rattle.std.specs.Prelude.{◌≡◌};
ghost use Rattle.elf_objects.specs.declared.fault.ElfFault.TheVariants.{NoMemory};

use std::alloc::{AllocError, AllocFailed};

/// Whose name is meant.
#[derive(Clone, Copy, Debug, PartialEq, Eq)]
pub enum NameOf {
    Section,
    Symbol,
}

/// What there is too much of.
#[derive(Clone, Copy, Debug, PartialEq, Eq)]
pub enum Counted {
    Sections,
    Symbols,
    TextBytes,
}

/// The first thing that keeps a file from being a well-formed object.
#[derive(Clone, Copy, Debug, PartialEq, Eq)]
pub enum ElfFault {
    /// The file has `have` bytes, and a header or the section header table ends at `need`. An end
    /// beyond 2^64 - 1 is told as 2^64 - 1.
    Short { need: u64, have: u64 },
    /// The field of the file header at this offset is not that of a little-endian 64-bit
    /// relocatable file for x86-64.
    NotElfRel64 { at: u64 },
    /// The section's header contradicts its type, or is no table that this type asks for.
    BadTable { sec: u32 },
    /// The section's body leaves the file, begins in the file header, or is that of relocations and
    /// shares a byte with another.
    BadRange { sec: u32 },
    /// A name does not begin in its string table.
    BadName { what: NameOf, index: u32 },
    /// The section's `sh_link` or `sh_info` names what its type does not allow.
    BadLink { sec: u32 },
    /// The symbol has no home, or is on the wrong side of the boundary of local symbols.
    BadSymbol { sym: u32 },
    /// The relocation with this index in the section of relocations `sec` names no symbol, or its
    /// field leaves the section that it changes.
    BadReloc { sec: u32, index: u32 },
    /// A limit is passed.
    TooMany { what: Counted, count: u64 },
    /// An allocation failed.
    NoMemory,
}

impl From<AllocError> for ElfFault {
    ghost from_gives = { λ _ e. e ≡ NoMemory };

    fn from(_e: AllocError) -> ElfFault {
        ElfFault::NoMemory
    }
}

impl<T: Drop> From<AllocFailed<T>> for ElfFault {
    ghost from_gives = { λ _ e. e ≡ NoMemory };

    fn from(_e: AllocFailed<T>) -> ElfFault {
        ElfFault::NoMemory
    }
}
