//! The owners that make room below a frame.

ghost use Rattle.std.specs.Prelude.{◌≡◌, ◌<◌, length, filter_map, IfOk};
ghost use Rattle.std.specs.List.{range_with_len};
ghost use Rattle.flow_defs.specs.Arrival.{makes_room as makes_a_room};
ghost use Rattle.flow_defs.specs.Code.{point_at, points_of_object};
ghost use Rattle.flow_defs.specs.Owners.{owner_of_point};
ghost use Rattle.point_arrivals.specs.Courses.{AreCourses};
ghost use Rattle.point_arrivals.specs.Remade.{AreRooms, room_owner as room_owner_of};

use crate::courses::Courses;
use object_points::{PointPlaces, is_among};
use ot_base::NoMemory;
use std::alloc::Global;

/// The owner of a point that makes room. Others have none here.
fn room_owner(places: &PointPlaces<'_, '_, '_>, courses: Courses<'_>, n: u32) -> Option<u32>
    requires courses { AreCourses places.now courses.kinds.now courses.numbers.now }
    requires point { n < length (points_of_object places.now) }
    ensures { result ≡ room_owner_of places.now n }
{
    if courses.at(n).course.is_room() {
        places.owner(n)
    } else {
        None
    }
}

/// The owners of the points that make room, in the order of these points.
fn room_owners(
    alloc: Global,
    places: &PointPlaces<'_, '_, '_>,
    courses: Courses<'_>,
) -> Result<Vec<u32>, NoMemory>
    requires { AreCourses places.now courses.kinds.now courses.numbers.now }
    ensures { IfOk result (λ owners. owners.items ≡ filter_map (room_owner_of places.now) (range_with_len 0 (length (points_of_object places.now)))) }
{
    let mut owners = Vec::new(alloc);
    for n in 0..places.linked().sites().point_count() {
        if let Some(owner) = room_owner(places, courses, n) {
            owners.push(owner)?;
        }
    }
    Ok(owners)
}

/// The owners that make room at one of their points, ascending.
pub(crate) fn list_rooms(
    alloc: Global,
    places: &PointPlaces<'_, '_, '_>,
    courses: Courses<'_>,
) -> Result<Vec<u32>, NoMemory>
    requires { AreCourses places.now courses.kinds.now courses.numbers.now }
    ensures { IfOk result (λ owners. AreRooms places.now owners.items) }
{
    let mut owners = room_owners(alloc, places, courses)?;
    owners.sort()?;
    Ok(owners)
}

/// Whether what owns a point makes room, where these owners do. Code of no function makes none.
pub(crate) fn makes_room(places: &PointPlaces<'_, '_, '_>, rooms: &[u32], n: u32) -> bool
    requires rooms { AreRooms places.now rooms.now }
    requires point { n < length (points_of_object places.now) }
    ensures { result ≡ makes_a_room places.now (owner_of_point places.now (point_at places.now n)) }
{
    match places.owner(n) {
        Some(owner) => is_among(rooms, owner),
        None => false,
    }
}
