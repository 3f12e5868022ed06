//! That points stand low.

ghost use Rattle.std.specs.Prelude.{◌<◌};
ghost use Rattle.alternatives.specs.Numbers.{IsKept};
ghost use Rattle.flow_defs.specs.Code.{alternatives_of, point_at};
ghost use Rattle.control_flow.specs.Listed.{count_of};

use object_points::PointPlaces;

/// The law that the offset of a point has 32 bits, and so has that where it runs: both lie in texts, which have at most
/// 16 MiB together.
pub(crate) fn point_is_low(places: &PointPlaces<'_, '_, '_>, n: u32)
    requires { n < count_of places.now }
    ensures { let o = places.now in IsKept (alternatives_of o) (point_at o n) }
{
    places.linked().texts();
}
