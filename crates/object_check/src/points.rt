//! Points by their numbers.

ghost use Rattle.std.specs.Prelude.{◌≡◌, length};
ghost use Rattle.flow_defs.specs.Code.{points_of_object};

use object_points::PointPlaces;

/// How many points there are.
pub(crate) fn count_points(places: &PointPlaces<'_, '_, '_>) -> u32
    ensures { result ≡ length (points_of_object places.now) }
{
    places.linked().sites().point_count()
}
