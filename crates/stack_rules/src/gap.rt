//! Places that are known to lie in no site.

ghost use Rattle.std.specs.Prelude.{◌≡◌, false};
ghost use Rattle.ot_base.specs.declared.place.Place.{Place};
ghost use Rattle.stack_rules.specs.Gaps.{is_in_gap};

use ot_base::Place;

/// Places of one section that lie in no site.
#[derive(Clone, Copy)]
pub(crate) struct Gap {
    /// The section, by its number.
    pub(crate) section: u32,
    /// The offset of the first.
    pub(crate) from: u64,
    /// The offset behind the last.
    pub(crate) to: u64,
}

/// No place.
pub(crate) const NO_GAP: Gap = Gap {
    section: 0,
    from: 0,
    to: 0,
};

impl Gap {
    /// Whether a place is among them.
    #[inline(always)]
    pub(crate) fn has(self, place: Place) -> bool
        ensures { result ≡ is_in_gap self place }
    {
        place.sec == self.section && self.from <= place.off && place.off < self.to
    }
}
