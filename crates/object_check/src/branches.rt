//! Indirect branches and returns that may stay as they are.

ghost use Rattle.std.specs.Prelude.{◌≡◌, ◌<◌, length, IfOk};
ghost use Rattle.flow_defs.specs.Code.{point_at, points_of_object};
ghost use Rattle.object_points.specs.Places.{HaveSamePlaces};
ghost use Rattle.object_check.specs.Allowances.{is_safe_branch as is_safe_branch_at};
ghost use Rattle.object_check.specs.Flags.{AreFlags};
ghost use Rattle.special_sections.specs.Special.{special_of};

use crate::points::count_points;
use object_points::{PlaceSet, PointPlaces};
use ot_base::NoMemory;
use std::alloc::Global;

/// Whether the place of a point is one of those in `.discard.retpoline_safe`.
fn is_safe_branch(places: &PointPlaces<'_, '_, '_>, safe: &PlaceSet, n: u32) -> bool
    requires point { n < length (points_of_object places.now) }
    requires safe { HaveSamePlaces (special_of places.now.elf).safe_branches safe.now }
    ensures { result ≡ is_safe_branch_at places.now (point_at places.now n) }
{
    safe.contains(places.point(n).place)
}

/// For each point, whether an indirect branch or a return may stay there as it is.
pub(crate) fn list_safe_branches(
    alloc: Global,
    places: &PointPlaces<'_, '_, '_>,
) -> Result<Vec<bool>, NoMemory>
    ensures { IfOk result (λ flags. AreFlags (λ q. is_safe_branch_at places.now (point_at places.now q)) (length (points_of_object places.now)) flags.items) }
{
    let safe = PlaceSet::build(alloc, places.linked().special().safe_branches())?;
    let count = count_points(places);
    let mut flags = Vec::with_capacity(alloc, count as usize)?;
    for n in 0..count {
        flags.push(is_safe_branch(places, &safe, n))?;
    }
    Ok(flags)
}
