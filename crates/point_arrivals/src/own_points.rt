//! The points of an object, which stand low.

ghost use Rattle.std.specs.Prelude.{◌≡◌, ◌<◌, length};
ghost use Rattle.alternatives.specs.Numbers.{IsKept};
ghost use Rattle.flow_defs.specs.Code.{alternatives_of, point_at, points_of_object};

use alternatives::Point;
use object_points::PointPlaces;

/// The point with a number. Its offset has 32 bits, and so has the one where it runs.
pub fn point(places: &PointPlaces<'_, '_, '_>, n: u32) -> Point
    requires { n < length (points_of_object places.now) }
    ensures value { result ≡ point_at places.now n }
    ensures low { IsKept (alternatives_of places.now) result }
{
    // It stands in one of these, which have at most 16 MiB.
    places.linked().texts();
    places.point(n)
}
