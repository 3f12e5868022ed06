//! The steps of ways.

ghost use Rattle.std.specs.Prelude.{◌≡◌};
ghost use Rattle.state_ways.specs.Ways.{along, is_turn as is_turn_kind};

use machine_defs::EdgeKind;

/// How control came to a point.
#[derive(Clone, Copy, PartialEq, Eq)]
pub enum WayKind {
    /// An entry is entered there.
    Entry,
    /// A hint sets the state there.
    Hint,
    /// A hint restores the state there that a SAVE has.
    Restore,
    /// It went on from the instruction before it.
    Next,
    /// A branch was taken.
    Taken,
    /// An instruction faulted whose fixup it is.
    Fixup,
    /// An indirect jump went through a jump table.
    Table,
}

/// A step of a way: how control came to a point.
#[derive(Clone, Copy, PartialEq, Eq)]
pub struct WayStep {
    /// The number of the point.
    pub point: u32,
    /// How control came to it.
    pub kind: WayKind,
}

/// How control comes along an edge of this kind. To another function no state is brought.
pub(crate) fn way_kind(kind: EdgeKind) -> Option<WayKind>
    ensures { result ≡ along kind }
{
    match kind {
        EdgeKind::Next => Some(WayKind::Next),
        EdgeKind::Taken => Some(WayKind::Taken),
        EdgeKind::Fixup => Some(WayKind::Fixup),
        EdgeKind::Table => Some(WayKind::Table),
        EdgeKind::Sibling => None,
    }
}

/// Whether control didn't just go on from the instruction before.
pub(crate) fn is_turn(kind: WayKind) -> bool
    ensures { result ≡ is_turn_kind kind }
{
    match kind {
        WayKind::Next => false,
        WayKind::Entry
        | WayKind::Hint
        | WayKind::Restore
        | WayKind::Taken
        | WayKind::Fixup
        | WayKind::Table => true,
    }
}
