//! The entry at which control comes to a point.

ghost use Rattle.std.specs.Prelude.{◌≡◌, ◌<◌, ◌↔◌, ℕ, Some, Contains, IfSome, is_some, length};
ghost use Rattle.ot_base.specs.NameLists.{NameLists};
ghost use Rattle.ot_base.specs.declared.place.Place.{Place};
ghost use Rattle.machine_defs.specs.Kept.{is_at_entry};
ghost use Rattle.flow_defs.specs.Arrival.{arrive};
ghost use Rattle.flow_defs.specs.Code.{points_of_object};
ghost use Rattle.flow_defs.specs.Program.{program_of};
ghost use Rattle.point_edges.specs.Entered.{IsEnteredAt};

use alternatives::Point;
use object_points::PointPlaces;
use ot_base::Place;

/// The place such that control that comes there may stand at the point: of a plain point its own, of the first of a
/// replacement the start of its site.
fn entered_place(places: &PointPlaces<'_, '_, '_>, n: u32) -> Option<Place>
    requires { n < length (points_of_object places.now) }
    ensures { (place : Place) → Contains (arrive places.now place) n ↔ (result ≡ Some place) }
{
    let point = places.point(n);
    if point.variant == 0 {
        return Some(point.place);
    }
    let entry = places.linked().special().alternatives()[point.variant as usize - 1];
    if entry.replacement == point.place {
        Some(entry.original)
    } else {
        None
    }
}

/// The entry at which control may come to stand at a point, by the number of its plain point, if there is one. There is
/// no other.
pub fn entry_of_point(places: &PointPlaces<'_, '_, '_>, n: u32) -> Option<u32>
    requires { n < length (points_of_object places.now) }
    ensures is { (entry : ℕ) → IsEnteredAt places.now entry n ↔ (result ≡ Some entry) }
    ensures known { IfSome result (λ entry. entry < length (points_of_object places.now)) }
    ensures entered { (lists : NameLists) → is_at_entry (program_of places.now lists) n ≡ is_some result }
{
    let place = entered_place(places, n)?;
    if places.is_entry(place) {
        let variant = 0;
        places.number_by_guess(Point { place, variant }, n)
    } else {
        None
    }
}
