//! How a fault of site lists is told.

ghost use Rattle.std.specs.Prelude.{◌≡◌};
ghost use Rattle.site_lists.specs.Sections.{list_name as list_name_of};

use crate::fault::SitesFault;
use orc_bytes::SlotWhy;
use std::fmt;

/// The name of the section of a list, by the list's number in a fault.
pub(crate) fn list_name(which: u8) -> &'static str
    ensures { result.now ≡ list_name_of which }
{
    match which {
        0 => ".retpoline_sites",
        1 => ".return_sites",
        _ => ".call_sites",
    }
}

/// What is wrong with a slot.
#[derive(Clone, Copy)]
struct SlotText {
    name: &'static str,
    slot: u32,
    why: SlotWhy,
}

impl fmt::Display for SlotText {
    ghost use Rattle.std.specs.Prelude.{Some, ◌++◌, codes};
    ghost use Rattle.std.specs.Fmt.{decimal};
    ghost use Rattle.orc_bytes.specs.FaultText.{why_text};

    ghost output = { λ s. Some (codes "section " ++ s.name.now ++ codes ": slot " ++ decimal s.slot ++ codes ": " ++ why_text s.why) };

    fn fmt<W: fmt::Write>(&self, f: &mut fmt::Formatter<W>) -> fmt::Result {
        let SlotText { name, slot, why } = *self;
        write!(f, "section {name}: slot {slot}: {why}")
    }
}

/// The fault in words, such as `no section .call_sites` or `section .call_sites: slot 3: Range`; numbers are decimal. Want of
/// memory has no words.
impl fmt::Display for SitesFault {
    ghost use Rattle.std.specs.Prelude.{Some};
    ghost use Rattle.site_lists.specs.FaultText.{fault_text};

    ghost output = { λ fault. Some (fault_text fault) };

    fn fmt<W: fmt::Write>(&self, f: &mut fmt::Formatter<W>) -> fmt::Result {
        match *self {
            SitesFault::NoSection { which } => write!(f, "no section {}", list_name(which)),
            SitesFault::BadLength { which, len } => {
                let name = list_name(which);
                write!(f, "section {name}: bad length {len}")
            }
            SitesFault::BadSlot { which, slot, why } => {
                let name = list_name(which);
                write!(f, "{}", SlotText { name, slot, why })
            }
            SitesFault::NoMemory => Ok(()),
        }
    }
}
