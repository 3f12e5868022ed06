//! Kinds of points.

ghost use Rattle.std.specs.Prelude.{◌≡◌};
ghost use Rattle.point_arrivals.specs.Kinds.{is_followed_kind, is_listed_kind, is_straight_kind};

/// Of which kind a point is.
#[derive(Clone, Copy)]
pub(crate) enum Kind {
    /// No list says anything of it, and control goes straight on from it: to the point with the next number, which alone
    /// follows it.
    Straight,
    /// No list says anything of it, and the point with the next number alone follows it; but control may go elsewhere, or a
    /// relocation changes a number of the stack there.
    Followed,
    /// No list says anything of it, and it is none of these.
    Unlisted,
    /// Static branches or exception entries lead from it, or it is a dead end.
    Listed,
}

impl Kind {
    /// Whether control goes straight on from the point.
    #[inline(always)]
    pub(crate) fn is_straight(self) -> bool
        ensures { result ≡ is_straight_kind self }
    {
        matches!(self, Kind::Straight)
    }

    /// Whether no list says anything of the point, and the one with the next number alone follows it.
    #[inline(always)]
    pub(crate) fn is_followed(self) -> bool
        ensures { result ≡ is_followed_kind self }
    {
        matches!(self, Kind::Straight | Kind::Followed)
    }

    /// Whether a list says anything of the point.
    #[inline(always)]
    pub(crate) fn is_listed(self) -> bool
        ensures { result ≡ is_listed_kind self }
    {
        matches!(self, Kind::Listed)
    }
}
