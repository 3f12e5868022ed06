//! The kinds of the points of an object.

ghost use Rattle.std.specs.Prelude.{◌≡◌, ◌+◌, ◌<◌, [], length, vec_capacity, vec_len, IfOk};
ghost use Rattle.flow_defs.specs.Arrival.{decoded_insn};
ghost use Rattle.flow_defs.specs.Code.{point_at, points_of_object};
ghost use Rattle.object_points.specs.Places.{HaveSamePlaces};
ghost use Rattle.point_arrivals.specs.Courses.{course_of_insn, AreCourses};
ghost use Rattle.point_arrivals.specs.Kinds.{kind_of as kind_of_point, AreKinds};
ghost use Rattle.point_arrivals.specs.Lists.{told_places_of};
ghost use Rattle.point_arrivals.specs.Low.{AreLow};
ghost use Rattle.point_arrivals.specs.Seen.{IsSeen};

use crate::course::InsnCourse;
use crate::courses::Courses;
use crate::kind::Kind;
use crate::lists::PointLists;
use crate::low::points_are_low;
use crate::straight::is_straight_insn;
use crate::told::{SeenPoint, see_point, untold_kind};
use object_points::{PlaceSet, PointPlaces};
use ot_base::NoMemory;
use std::alloc::Global;

/// How many points there are.
pub(crate) fn count_points(places: &PointPlaces<'_, '_, '_>) -> u32
    ensures { result ≡ length (points_of_object places.now) }
{
    places.linked().sites().point_count()
}

/// Of which kind a point is, looked up in the lists.
#[inline(never)]
fn look_up_kind(lists: &PointLists<'_, '_, '_>, n: u32) -> Kind
    requires { n < length (points_of_object lists.now) }
    ensures { result ≡ kind_of_point lists.now n }
{
    if lists.is_listed(n) {
        return Kind::Listed;
    }
    if !lists.ends_at_next(n) {
        return Kind::Unlisted;
    }
    if is_straight_insn(lists.places(), n) {
        return Kind::Straight;
    }
    Kind::Followed
}

/// Of which kind a point is. For most points what is seen of them and of the next ones tells it.
#[inline(always)]
fn kind_of(
    lists: &PointLists<'_, '_, '_>,
    n: u32,
    course: InsnCourse,
    point: SeenPoint,
    next: SeenPoint,
) -> Kind
    requires low { AreLow lists.now }
    requires inside { n + 1 < length (points_of_object lists.now) }
    requires course { course ≡ course_of_insn (decoded_insn lists.now (point_at lists.now n)) }
    requires point { IsSeen lists.now n point }
    requires next { IsSeen lists.now (n + 1) next }
    ensures { result ≡ kind_of_point lists.now n }
{
    match untold_kind(lists.places(), n, course, point, next) {
        Some(kind) => kind,
        None => look_up_kind(lists, n),
    }
}

/// The kind of each point but the last.
#[inline(always)]
fn list_before(
    lists: &PointLists<'_, '_, '_>,
    courses: Courses<'_>,
    told: &PlaceSet,
    last: u32,
    kinds: &mut Vec<Kind>,
)
    requires courses { AreCourses lists.now courses.kinds.now courses.numbers.now }
    requires told { HaveSamePlaces (told_places_of lists.now) told.now }
    requires last { last < length (points_of_object lists.now) }
    requires none { kinds.old.items ≡ [] }
    requires len { vec_len kinds.old ≡ 0 }
    requires room { last < vec_capacity kinds.old }
    ensures kinds { AreKinds lists.now kinds.new.items last }
    ensures len { vec_len kinds.new ≡ last }
    ensures room { vec_capacity kinds.new ≡ vec_capacity kinds.old }
{
    let linked = lists.places().linked();
    points_are_low(linked);
    let mut point = see_point(linked, told, 0);
    for n in 0..last {
        let next = see_point(linked, told, n + 1);
        let course = courses.at(n);
        kinds.push_reserved(kind_of(lists, n, course, point, next));
        point = next;
    }
}

/// The kind of each point.
#[inline(never)]
pub(crate) fn list_kinds(
    alloc: Global,
    lists: &PointLists<'_, '_, '_>,
    courses: Courses<'_>,
) -> Result<Vec<Kind>, NoMemory>
    requires { AreCourses lists.now courses.kinds.now courses.numbers.now }
    ensures { IfOk result (λ kinds. AreKinds lists.now kinds.items (length (points_of_object lists.now))) }
{
    let count = count_points(lists.places());
    let told = lists.told_places(alloc)?;
    let mut kinds = Vec::with_capacity(alloc, count as usize)?;
    if count == 0 {
        return Ok(kinds);
    }
    let last = count - 1;
    list_before(lists, courses, &told, last, &mut kinds);
    kinds.push_reserved(look_up_kind(lists, last));
    Ok(kinds)
}
