//! Places in an object, and their order.

ghost use Rattle.std.specs.Prelude.{◌≡◌};
ghost use Rattle.ot_base.specs.Places.{is_before as is_lower};

/// A place in an object: a section by its number, and an offset in bytes from its start.
#[derive(Clone, Copy, PartialEq, Eq, PartialOrd, Ord)]
pub struct Place {
    /// The section's number in the section header table.
    pub sec: u32,
    /// Bytes from the section's start.
    pub off: u64,
}

/// Whether a place is before another: in an earlier section, or in the same one at a lower offset. That is `<`, told apart from
/// other orders by its name.
#[inline]
pub fn is_before(place: Place, other: Place) -> bool
    ensures { result ≡ is_lower place other }
{
    place.sec < other.sec || place.sec == other.sec && place.off < other.off
}
