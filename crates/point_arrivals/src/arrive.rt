//! Where control that comes to a place may stand.

ghost use Rattle.std.specs.Prelude.{◌≡◌, ◌++◌, [], ◌∷◌, OnOk, IfOk, IfSome};
ghost use Rattle.std.specs.List.{cons_option};
ghost use Rattle.flow_defs.specs.Arrival.{arrive as points_coming_to};
ghost use Rattle.flow_defs.specs.Code.{alternatives_of};
ghost use Rattle.object_points.specs.Places.{HaveSamePlaces};
ghost use Rattle.point_arrivals.specs.Lists.{original_places_of};
ghost use Rattle.point_arrivals.specs.Next.{number_alone};

use alternatives::Point;
use object_points::{PlaceSet, PointPlaces};
use ot_base::{NoMemory, Place};
use smallvec::SmallVec;
use std::alloc::Global;

/// Adds a number, where there is one.
fn add(numbers: &mut SmallVec<u32, 4>, number: Option<u32>) -> Result<(), NoMemory>
    ensures { OnOk result (numbers.new.items ≡ numbers.old.items ++ cons_option number []) }
{
    if let Some(number) = number {
        numbers.push(number)?;
    }
    Ok(())
}

/// The points at which control may stand that comes to a place. The plain point there is found at once where it is the
/// guessed one.
pub(crate) fn arrive(
    alloc: Global,
    places: &PointPlaces<'_, '_, '_>,
    originals: &PlaceSet,
    place: Place,
    guess: u32,
) -> Result<SmallVec<u32, 4>, NoMemory>
    requires { HaveSamePlaces (original_places_of (alternatives_of places.now)) originals.now }
    ensures { IfOk result (λ points. points.items ≡ points_coming_to places.now place) }
{
    let variant = 0;
    let mut points = SmallVec::new(alloc);
    let plain = places.number_by_guess(Point { place, variant }, guess);
    add(&mut points, plain)?;
    if !originals.contains(place) {
        return Ok(points);
    }
    let sites = places.linked().sites();
    for entry in sites.entries_at(place) {
        add(&mut points, sites.number_of_first(*entry))?;
    }
    Ok(points)
}

/// The number of the one point at which control stands that comes to a place where no site starts: of the plain point there. It
/// is found at once where it is the guessed one.
#[inline(always)]
pub(crate) fn arrive_alone(
    places: &PointPlaces<'_, '_, '_>,
    originals: &PlaceSet,
    place: Place,
    guess: u32,
) -> Option<u32>
    requires { HaveSamePlaces (original_places_of (alternatives_of places.now)) originals.now }
    ensures exact { result ≡ number_alone places.now place }
    ensures alone { IfSome result (λ q. points_coming_to places.now place ≡ q ∷ []) }
{
    if originals.contains(place) {
        return None;
    }
    let variant = 0;
    places.number_by_guess(Point { place, variant }, guess)
}
