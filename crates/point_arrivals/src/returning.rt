//! Calls of code that returns for its caller.

ghost use Rattle.std.specs.Prelude.{◌≡◌, ◌<◌, is_some, length};
ghost use Rattle.flow_defs.specs.Code.{point_at, points_of_object};
ghost use Rattle.flow_defs.specs.Targets.{destination_of, returning_target as returning_target_of};
ghost use Rattle.point_arrivals.specs.Lists.{TellReturning};

use crate::destinations::destination;
use flow_defs::{Crossing, Destination};
use object_points::PointPlaces;
use symbols_relocs::ReturningCode;

/// The symbol of the code that returns for its caller, where a destination is its place.
fn returning_target(
    places: &PointPlaces<'_, '_, '_>,
    returning: &ReturningCode,
    destination: Destination,
) -> Option<u32>
    requires { TellReturning places.now returning.now }
    ensures { result ≡ returning_target_of places.now destination }
{
    match destination {
        Destination::ToPlace {
            place,
            crossing: Crossing::MayCross,
            ..
        } => returning.symbol_at(place),
        _ => None,
    }
}

/// Whether the direct call or branch at a point goes to code that returns for its caller.
pub(crate) fn is_returning(
    places: &PointPlaces<'_, '_, '_>,
    returning: &ReturningCode,
    n: u32,
) -> bool
    requires returning { TellReturning places.now returning.now }
    requires point { n < length (points_of_object places.now) }
    ensures { result ≡ is_some (returning_target_of places.now (destination_of places.now (point_at places.now n))) }
{
    let to = destination(places, n, places.decoded_insn(n));
    returning_target(places, returning, to).is_some()
}
