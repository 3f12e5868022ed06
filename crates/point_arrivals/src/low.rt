//! Where the points of code that is read lie.

ghost use Rattle.point_arrivals.specs.Low.{AreLow};

use object_points::Linked;

/// The law that the points of code that is read, and the ends of their sites, lie in the first 16 MiB of their sections.
pub(crate) fn points_are_low(linked: &Linked<'_, '_>)
    ensures { AreLow linked.now }
{
    linked.texts();
}
