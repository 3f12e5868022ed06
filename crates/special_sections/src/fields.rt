//! Places as entries have to name them.

ghost use Rattle.std.specs.Prelude.{◌≡◌};
ghost use Rattle.elf_objects.specs.Contents.{section_at};
ghost use Rattle.special_sections.specs.Fields.{is_text_place as is_in_text, leaves_section as leaves, names_text as names_text_in};

use elf_objects::Object;
use ot_base::Place;

/// Up to where in its section a place may stand.
#[derive(Clone, Copy, PartialEq, Eq)]
pub enum Bound {
    /// Below the section's end.
    BelowEnd,
    /// There, or at the end.
    UpToEnd,
}

/// The size of a section in bytes, 0 where there is none with that index.
fn section_size(object: &Object<'_>, sec: u32) -> u64
    ensures { result ≡ (section_at object.now sec).size }
{
    if sec < object.sections() {
        object.section(sec).size
    } else {
        0
    }
}

/// Whether a place is in a text section, up to a bound.
pub(crate) fn is_text_place(object: &Object<'_>, bound: Bound, place: Place) -> bool
    ensures { result ≡ is_in_text object.now bound place }
{
    if place.sec >= object.sections() || !object.is_text(place.sec) {
        return false;
    }
    let size = section_size(object, place.sec);
    match bound {
        Bound::BelowEnd => place.off < size,
        Bound::UpToEnd => place.off <= size,
    }
}

/// The same of a place that may be missing.
pub(crate) fn names_text(object: &Object<'_>, bound: Bound, place: Option<Place>) -> bool
    ensures { result ≡ names_text_in object.now bound place }
{
    match place {
        Some(place) => is_text_place(object, bound, place),
        None => false,
    }
}

/// Whether bytes from a place on leave its section.
pub(crate) fn leaves_section(object: &Object<'_>, place: Place, len: u8) -> bool
    ensures { result ≡ leaves object.now place len }
{
    u128::from(place.off) + u128::from(len) > u128::from(section_size(object, place.sec))
}
