//! How a fault of ORC sections is told.

ghost use Rattle.std.specs.Prelude.{◌≡◌};
ghost use Rattle.orc_bytes.specs.FaultText.{section_name};

use crate::fault::{OrcFault, SlotWhy};
use std::fmt;

/// The name of the variant.
impl fmt::Display for SlotWhy {
    ghost use Rattle.std.specs.Prelude.{Some};
    ghost use Rattle.orc_bytes.specs.FaultText.{why_text};

    ghost output = { λ why. Some (why_text why) };

    fn fmt<W: fmt::Write>(&self, f: &mut fmt::Formatter<W>) -> fmt::Result {
        match self {
            SlotWhy::NoReloc => write!(f, "NoReloc"),
            SlotWhy::Kind => write!(f, "Kind"),
            SlotWhy::Offset => write!(f, "Offset"),
            SlotWhy::Symbol => write!(f, "Symbol"),
            SlotWhy::Range => write!(f, "Range"),
            SlotWhy::NotZero => write!(f, "NotZero"),
        }
    }
}

/// The name of an ORC section, by its number in a fault.
fn section_name(which: u8) -> &'static str
    ensures { result.now ≡ section_name which }
{
    if which == 0 {
        ".orc_unwind"
    } else {
        ".orc_unwind_ip"
    }
}

/// What is wrong with a row's place.
#[derive(Clone, Copy)]
struct SlotText {
    row: u32,
    why: SlotWhy,
}

impl fmt::Display for SlotText {
    ghost use Rattle.std.specs.Prelude.{Some};
    ghost use Rattle.orc_bytes.specs.FaultText.{slot_text};

    ghost output = { λ s. Some (slot_text s.row s.why) };

    fn fmt<W: fmt::Write>(&self, f: &mut fmt::Formatter<W>) -> fmt::Result {
        write!(f, "row {}: bad slot: {}", self.row, self.why)
    }
}

/// The fault in words, such as `no section .orc_unwind` or `row 3: bad slot: Range`; numbers are decimal.
/// Want of memory has no words.
impl fmt::Display for OrcFault {
    ghost use Rattle.std.specs.Prelude.{Some};
    ghost use Rattle.orc_bytes.specs.FaultText.{fault_text};

    ghost output = { λ fault. Some (fault_text fault) };

    fn fmt<W: fmt::Write>(&self, f: &mut fmt::Formatter<W>) -> fmt::Result {
        match *self {
            OrcFault::NoSection { which } => write!(f, "no section {}", section_name(which)),
            OrcFault::BadLength { which, len } => {
                let name = section_name(which);
                write!(f, "section {name}: bad length {len}")
            }
            OrcFault::Counts { rows, ips } => write!(f, "{rows} rows, {ips} places"),
            OrcFault::BadBits { row } => write!(f, "row {row}: bad bits"),
            OrcFault::BadSlot { row, why } => write!(f, "{}", SlotText { row, why }),
            OrcFault::NoMemory => Ok(()),
        }
    }
}
