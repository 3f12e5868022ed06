//! Places in their order.

ghost use Rattle.std.specs.Prelude.{◌≡◌, ◌<◌, ◌≤◌, ℕ, true, false, length, slice_index_or, is_some};
ghost use Rattle.ot_base.specs.declared.place.Place.{Place};
ghost use Rattle.std.specs.List.{list_any};
ghost use Rattle.ot_base.specs.Places.{is_before as is_lower, same_place};
ghost use Rattle.jump_tables.specs.Kept.{AreByPlace, IsFirstOf};

use ot_base::{Place, is_before};

/// Whether two places are one.
pub(crate) fn same_place(place: Place, other: Place) -> bool
    ensures { result ≡ same_place place other }
{
    place.sec == other.sec && place.off == other.off
}

/// How many of these are before a place.
fn count_below(places: &[Place], place: Place) -> usize
    requires { AreByPlace places.now }
    ensures within { result ≤ length places.now }
    ensures below { (k : ℕ) (d : Place) → k < result → is_lower (slice_index_or places.now k d) place ≡ true }
    ensures from { (k : ℕ) (d : Place) → result ≤ k → k < length places.now → is_lower (slice_index_or places.now k d) place ≡ false }
{
    places.partition_point(|other| is_before(*other, place))
}

/// The index of the first of these that is a place.
pub(crate) fn find_first(places: &[Place], place: Place) -> Option<usize>
    requires { AreByPlace places.now }
    ensures { IsFirstOf places.now place result }
{
    let at = count_below(places, place);
    if at >= places.len() {
        return None;
    }
    if same_place(places[at], place) {
        Some(at)
    } else {
        None
    }
}

/// Whether there is one.
fn is_found(found: Option<usize>) -> bool
    ensures { result ≡ is_some found }
{
    found.is_some()
}

/// Whether a place is one of these.
pub(crate) fn contains(places: &[Place], place: Place) -> bool
    requires { AreByPlace places.now }
    ensures { result ≡ list_any (same_place place) places.now }
{
    is_found(find_first(places, place))
}
