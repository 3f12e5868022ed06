//! The ways in which control comes to a point.

ghost use Rattle.std.specs.Prelude.{◌≡◌, ◌↔◌, true, IsTrue};

/// In which ways control comes to a point: with user access on or off, in a frame whose function is safe or not. A safe
/// function is one that may be called with user access on, and so expects it on.
#[derive(Clone, Copy)]
pub(crate) struct Ways {
    /// With user access on, in a safe function.
    pub(crate) safe_on: bool,
    /// With user access off, in a safe function.
    pub(crate) safe_off: bool,
    /// With user access on, in a function that isn't safe, or in code of no function.
    pub(crate) other_on: bool,
    /// With user access off, in a function that isn't safe, or in code of no function.
    pub(crate) other_off: bool,
}

impl Ways {
    ghost use Rattle.program_check.specs.Ways.{comes, no_ways, with_way, IsOn, IsInSafe};

    /// Control doesn't come there.
    pub(crate) fn none() -> Ways
        ensures { result ≡ no_ways }
    {
        Ways {
            safe_on: false,
            safe_off: false,
            other_on: false,
            other_off: false,
        }
    }

    /// Whether control comes with this user access, in a frame whose function is safe or not (its home).
    pub(crate) fn has(self, access: bool, home: bool) -> bool
        ensures { result ≡ comes self access home }
    {
        match (home, access) {
            (true, true) => self.safe_on,
            (true, false) => self.safe_off,
            (false, true) => self.other_on,
            (false, false) => self.other_off,
        }
    }

    /// These ways, and this one.
    pub(crate) fn with(self, access: bool, home: bool) -> Ways
        ensures { result ≡ with_way self access home }
    {
        let mut ways = self;
        match (home, access) {
            (true, true) => ways.safe_on = true,
            (true, false) => ways.safe_off = true,
            (false, true) => ways.other_on = true,
            (false, false) => ways.other_off = true,
        }
        ways
    }

    /// Whether control comes with user access on.
    pub(crate) fn is_on(self) -> bool
        ensures { IsTrue result ↔ IsOn self }
    {
        self.safe_on || self.other_on
    }

    /// Whether control comes in a safe function.
    pub(crate) fn is_in_safe(self) -> bool
        ensures { IsTrue result ↔ IsInSafe self }
    {
        self.safe_on || self.safe_off
    }
}
