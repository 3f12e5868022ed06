//! Targets inside alternatives sites.

ghost use Rattle.std.specs.Prelude.{◌≡◌, ◌<◌, [], ◌∷◌, if◌then◌else◌, length};
ghost use Rattle.std.specs.List.{list_any};
ghost use Rattle.alternatives.specs.Texts.{is_boundary as is_boundary_of};
ghost use Rattle.flow_defs.specs.Code.{point_at, points_of_object, texts_of};
ghost use Rattle.flow_defs.specs.Arrival.{insn_of_object};
ghost use Rattle.flow_defs.specs.Marks.{call_places, listed_places, places_by};
ghost use Rattle.flow_defs.specs.Sites.{is_into_site as comes_into_site};
ghost use Rattle.flow_defs.specs.Targets.{destination_of};
ghost use Rattle.flow_defs.specs.Ways.{is_along as is_along_of};
ghost use Rattle.flow_defs.specs.Roles.{table_of_point};
ghost use Rattle.point_edges.specs.Jumps.{direct_way, places_along};

use crate::flow_points::FlowPoints;
use crate::{Branch, listed_way};
use flow_defs::{Destination, Way};
use machine_defs::EdgeKind;
use object_points::{PointPlaces, is_into_site};
use operation_defs::{Insn, Op};
use ot_base::Place;

/// Whether a way leads along an edge.
fn is_along(way: Way) -> bool
    ensures { result ≡ is_along_of way }
{
    matches!(way, Way::Along(_))
}

/// Whether a call from a point of a place comes into a site.
fn place_enters(places: &PointPlaces<'_, '_, '_>, n: u32, place: Place, guess: u32) -> bool
    requires { n < length (points_of_object places.now) }
    ensures { result ≡ list_any (comes_into_site places.now (point_at places.now n)) (if is_boundary_of (texts_of places.now) place then place ∷ [] else []) }
{
    places.is_boundary_by_guess(place, guess) && is_into_site(places, n, place)
}

/// Whether a call from a point comes into a site.
fn call_enters(places: &PointPlaces<'_, '_, '_>, n: u32, branch: Branch) -> bool
    requires { n < length (points_of_object places.now) }
    ensures { result ≡ list_any (comes_into_site places.now (point_at places.now n)) (call_places places.now branch.to) }
{
    match branch.to {
        Destination::ToPlace { place, .. } => place_enters(places, n, place, branch.guess),
        _ => false,
    }
}

/// Whether a jump that goes this way from a point to a place comes into a site.
fn way_enters(places: &PointPlaces<'_, '_, '_>, n: u32, place: Place, way: Way) -> bool
    requires { n < length (points_of_object places.now) }
    ensures { result ≡ list_any (comes_into_site places.now (point_at places.now n)) (if is_along_of way then place ∷ [] else []) }
{
    is_along(way) && is_into_site(places, n, place)
}

/// Whether a jump, or a call within a function, from a point comes into a site, which goes there. One inside its replacement
/// doesn't.
fn jump_enters(places: &PointPlaces<'_, '_, '_>, n: u32, branch: Branch) -> bool
    requires { n < length (points_of_object places.now) }
    ensures { result ≡ list_any (comes_into_site places.now (point_at places.now n)) (places_along branch.way branch.to) }
{
    match branch.to {
        Destination::ToPlace { place, .. } => way_enters(places, n, place, branch.way),
        _ => false,
    }
}

/// Whether one of these places lies in a site, into which control would come from a point.
fn one_enters(places: &PointPlaces<'_, '_, '_>, n: u32, table: &[Place]) -> bool
    requires { n < length (points_of_object places.now) }
    ensures { result ≡ list_any (comes_into_site places.now (point_at places.now n)) table.now }
{
    table.iter().any(|place| is_into_site(places, n, *place))
}

/// Whether the jump table of a point with this instruction, whose direct jump goes `to` there, leads into a site.
pub(crate) fn table_enters(
    points: &FlowPoints<'_, '_, '_>,
    n: u32,
    insn: Insn,
    to: Destination,
) -> bool
    requires point { n < length (points_of_object points.now) }
    requires insn { insn ≡ insn_of_object points.now (point_at points.now n) }
    requires to { to ≡ destination_of points.now (point_at points.now n) }
    ensures { result ≡ list_any (comes_into_site points.now (point_at points.now n)) (table_of_point points.now (point_at points.now n)) }
{
    one_enters(points.places(), n, points.table_by(n, insn.op, to))
}

/// Whether the call or jump with this operation at a point, which goes there, comes into a site.
pub(crate) fn branch_enters(points: &FlowPoints<'_, '_, '_>, n: u32, op: Op, branch: Branch) -> bool
    requires point { n < length (points_of_object points.now) }
    requires to { branch.to ≡ destination_of points.now (point_at points.now n) }
    requires way { branch.way ≡ direct_way points.now (point_at points.now n) op }
    ensures { result ≡ list_any (comes_into_site points.now (point_at points.now n)) (places_by points.now (point_at points.now n) op) }
{
    let places = points.places();
    match op {
        Op::Call { .. } => call_enters(places, n, branch),
        Op::Jmp { .. } | Op::Jcc { .. } | Op::Hop => jump_enters(places, n, branch),
        _ => false,
    }
}

/// Whether one of some static branches or exception entries at a point leads into a site. Most points have none of them.
#[inline(always)]
pub(crate) fn listed_enter(
    places: &PointPlaces<'_, '_, '_>,
    kind: EdgeKind,
    n: u32,
    listed: &[Place],
) -> bool
    requires { n < length (points_of_object places.now) }
    ensures { result ≡ list_any (comes_into_site places.now (point_at places.now n)) (listed_places places.now kind (point_at places.now n) listed.now) }
{
    if listed.is_empty() {
        return false;
    }
    any_enters(places, kind, n, listed)
}

/// The same of some places, by a look at each.
#[inline(never)]
fn any_enters(places: &PointPlaces<'_, '_, '_>, kind: EdgeKind, n: u32, listed: &[Place]) -> bool
    requires { n < length (points_of_object places.now) }
    ensures { result ≡ list_any (comes_into_site places.now (point_at places.now n)) (listed_places places.now kind (point_at places.now n) listed.now) }
{
    let owner = places.owner(n);
    listed
        .iter()
        .filter(|place| is_along(listed_way(places, kind, owner, **place)))
        .any(|place| is_into_site(places, n, *place))
}
