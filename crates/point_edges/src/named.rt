//! By which symbols points name what they call or jump to.

ghost use Rattle.std.specs.Prelude.{◌≡◌, ◌<◌, length};
ghost use Rattle.flow_defs.specs.Code.{point_at, points_of_object};
ghost use Rattle.flow_defs.specs.Targets.{names_of};

use object_points::PointPlaces;
use point_arrivals::point;

/// The symbol by which the call of a point, or its jump by a displacement of 32 bits, names its target, if other objects know it.
pub fn names(places: &PointPlaces<'_, '_, '_>, n: u32) -> Option<u32>
    requires { n < length (points_of_object places.now) }
    ensures { result ≡ names_of places.now (point_at places.now n) }
{
    let index = places.linked().index();
    index.branch_name(point(places, n).place, places.decoded_insn(n))
}
