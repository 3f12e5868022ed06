//! How control comes to the places that branches, static branches and exception entries lead to.

ghost use Rattle.std.specs.Prelude.{◌≡◌};
ghost use Rattle.symbols_relocs.specs.Parts.{owner_at as owner_of_place};
ghost use Rattle.flow_defs.specs.Ways.{branch_way as branch_way_of, checked_way as checked_way_of, is_crossing as is_crossing_of, listed_way as listed_way_of, may_cross as may_cross_of};

use crate::same_owner::is_same_owner;
use alternatives::Point;
use flow_defs::{Crossing, Way};
use machine_defs::EdgeKind;
use object_points::PointPlaces;
use ot_base::Place;

/// Whether control passes between a checked function and code of no function: one of two owners is there, and is
/// checked.
fn is_crossing(places: &PointPlaces<'_, '_, '_>, from: Option<u32>, to: Option<u32>) -> bool
    ensures { result ≡ is_crossing_of places.now.elf from to }
{
    match (from, to) {
        (Some(_), None) => !places.is_unchecked(from),
        (None, Some(_)) => !places.is_unchecked(to),
        _ => false,
    }
}

/// Whether a branch may cross.
fn may_cross(crossing: Crossing) -> bool
    ensures { result ≡ may_cross_of crossing }
{
    match crossing {
        Crossing::MayCross => true,
        Crossing::MayNotCross => false,
    }
}

/// The way to a boundary of this owner at which no unchecked function starts.
fn checked_way(
    places: &PointPlaces<'_, '_, '_>,
    crossing: Crossing,
    kind: EdgeKind,
    from: Option<u32>,
    place: Place,
    owner: Option<u32>,
) -> Way
    requires { owner ≡ owner_of_place places.now.elf place }
    ensures { result ≡ checked_way_of places.now crossing kind from place }
{
    if is_same_owner(from, owner) {
        Way::Along(kind)
    } else if places.is_entry(place) {
        Way::Along(EdgeKind::Sibling)
    } else if may_cross(crossing) && is_crossing(places, from, owner) {
        Way::Along(kind)
    } else {
        Way::Bad
    }
}

/// The same as [`branch_way`], where the plain point at the place is found at once if it is the guessed one.
pub(crate) fn way_by_guess(
    places: &PointPlaces<'_, '_, '_>,
    crossing: Crossing,
    kind: EdgeKind,
    from: Option<u32>,
    place: Place,
    guess: u32,
) -> Way
    ensures { result ≡ branch_way_of places.now crossing kind from place }
{
    let variant = 0;
    let Some(to) = places.number_by_guess(Point { place, variant }, guess) else {
        return Way::Bad;
    };
    match places.unchecked_start(place) {
        Some(function) => Way::Outside(function),
        None => checked_way(places, crossing, kind, from, place, places.owner(to)),
    }
}

/// How a branch from code of an owner comes to a place, which is a boundary: as to code outside where an unchecked
/// function starts there; along an edge of this kind to code of the same owner; and by a tail call to the entry of
/// another. Where it may cross, it also comes along such an edge from a checked function to code of no function, and
/// from there to a checked function. Else the place is none to go to.
pub fn branch_way(
    places: &PointPlaces<'_, '_, '_>,
    crossing: Crossing,
    kind: EdgeKind,
    from: Option<u32>,
    place: Place,
) -> Way
    ensures { result ≡ branch_way_of places.now crossing kind from place }
{
    way_by_guess(places, crossing, kind, from, place, 0)
}

/// How a static branch or an exception entry from code of an owner comes to a place: as a branch that may cross, but not
/// to code outside.
pub fn listed_way(
    places: &PointPlaces<'_, '_, '_>,
    kind: EdgeKind,
    from: Option<u32>,
    place: Place,
) -> Way
    ensures { result ≡ listed_way_of places.now kind from place }
{
    match branch_way(places, Crossing::MayCross, kind, from, place) {
        Way::Along(kind) => Way::Along(kind),
        Way::Bad | Way::Outside(_) => Way::Bad,
    }
}
