//! Where direct calls and branches go, and how control comes there.

use alternatives::Point;
use machine_defs::EdgeKind;
use ot_base::Place;

/// Whether a branch may cross between a checked function and code of no function.
#[derive(Clone, Copy, PartialEq, Eq)]
pub enum Crossing {
    /// It may.
    MayCross,
    /// It may not.
    MayNotCross,
}

/// Where a direct call or branch goes, by its relocation and its displacement.
#[derive(Clone, Copy, PartialEq, Eq)]
pub enum Destination {
    /// To this place of the object.
    ToPlace {
        place: Place,
        /// The WEAK symbol by which it is named, whose definition may be another object's; none where no such symbol names it.
        weak: Option<u32>,
        /// Whether a branch may cross on its way there.
        crossing: Crossing,
    },
    /// From a replacement, without a relocation, to this point of the same replacement.
    ToOwnPoint(Point),
    /// To code outside the object, by this symbol.
    ToOutside(u32),
    /// To a thunk that goes on to where a register points.
    ToIndirectThunk,
    /// To the thunk that returns.
    ToReturnThunk,
    /// To no code that could be meant.
    ToNowhere,
}

/// How control comes to a place that a branch, a static branch or an exception entry leads to.
#[derive(Clone, Copy, PartialEq, Eq)]
pub enum Way {
    /// It doesn't: the place is none to go to from there.
    Bad,
    /// As to code outside the object: an unchecked function starts there, which has this symbol.
    Outside(u32),
    /// Along an edge of this kind.
    Along(EdgeKind),
}
