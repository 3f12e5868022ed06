//! Why special sections are not read.

ghost use Rattle.std.specs.Prelude.{◌≡◌};
ghost use Rattle.special_sections.specs.FaultText.{why_text};

use std::alloc::{AllocError, AllocFailed};
use std::error::Error;
use std::fmt;

/// What is wrong with an entry, or with its section. An entry's fault is the first of these that holds.
#[derive(Clone, Copy, Debug, PartialEq, Eq)]
pub enum Why {
    /// The section is compressed.
    Compressed,
    /// The length of an entry doesn't divide the section's body.
    Size,
    /// A place has no relocation that puts one there.
    NoReloc,
    /// A place isn't in a text section, or not below its size.
    NotText,
    /// A replacement is longer than its original, or one of them leaves its section.
    Length,
    /// A hint's type isn't from 0 to 7.
    HintType,
    /// The base of a hint isn't rsp.
    HintBase,
    /// The offset of a hint is too low.
    HintOffset,
    /// The signal byte of a hint isn't that of its type.
    HintSignal,
}

/// Why the special sections of an object are not read.
#[derive(Clone, Copy, Debug, PartialEq, Eq)]
pub enum SpecialFault {
    /// The first entry with a fault. A fault of a whole section is told of its entry 0.
    At { sec: u32, entry: u32, why: Why },
    /// Memory was wanted and not there.
    NoMemory,
}

/// The name of the variant.
fn name(why: Why) -> &'static str
    ensures { result.now ≡ why_text why }
{
    match why {
        Why::Compressed => "Compressed",
        Why::Size => "Size",
        Why::NoReloc => "NoReloc",
        Why::NotText => "NotText",
        Why::Length => "Length",
        Why::HintType => "HintType",
        Why::HintBase => "HintBase",
        Why::HintOffset => "HintOffset",
        Why::HintSignal => "HintSignal",
    }
}

impl fmt::Display for Why {
    ghost use Rattle.std.specs.Prelude.{Some};

    ghost output = { λ why. Some (why_text why) };

    fn fmt<W: fmt::Write>(&self, f: &mut fmt::Formatter<W>) -> fmt::Result {
        write!(f, "{}", name(*self))
    }
}

impl fmt::Display for SpecialFault {
    ghost use Rattle.std.specs.Prelude.{Some};
    ghost use Rattle.special_sections.specs.FaultText.{fault_text};

    ghost output = { λ fault. Some (fault_text fault) };

    fn fmt<W: fmt::Write>(&self, f: &mut fmt::Formatter<W>) -> fmt::Result {
        match *self {
            SpecialFault::At { sec, entry, why } => {
                write!(f, "section {sec}: entry {entry}: {}", name(why))
            }
            SpecialFault::NoMemory => write!(f, "no memory"),
        }
    }
}

impl Error for Why {}

impl Error for SpecialFault {}

impl From<AllocError> for SpecialFault {
    ghost use Rattle.special_sections.specs.declared.fault.SpecialFault.TheVariants.{NoMemory};

    ghost from_gives = { λ _ fault. fault ≡ NoMemory };

    fn from(_error: AllocError) -> SpecialFault {
        SpecialFault::NoMemory
    }
}

impl<T: Drop> From<AllocFailed<T>> for SpecialFault {
    ghost use Rattle.special_sections.specs.declared.fault.SpecialFault.TheVariants.{NoMemory};

    ghost from_gives = { λ _ fault. fault ≡ NoMemory };

    fn from(_error: AllocFailed<T>) -> SpecialFault {
        SpecialFault::NoMemory
    }
}

impl From<ot_base::NoMemory> for SpecialFault {
    ghost use Rattle.special_sections.specs.declared.fault.SpecialFault.TheVariants.{NoMemory};

    ghost from_gives = { λ _ fault. fault ≡ NoMemory };

    fn from(_error: ot_base::NoMemory) -> SpecialFault {
        SpecialFault::NoMemory
    }
}
