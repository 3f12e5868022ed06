//! Calls and jumps to places that are none to go to.

ghost use Rattle.std.specs.Prelude.{◌≡◌, ◌<◌, length, not, true};
ghost use Rattle.alternatives.specs.Texts.{is_boundary as is_boundary_of};
ghost use Rattle.alternatives.specs.Points.{is_point};
ghost use Rattle.flow_defs.specs.Code.{alternatives_of, point_at, points_of_object, texts_of};
ghost use Rattle.flow_defs.specs.Marks.{is_bad_by as is_bad_of_op, is_bad_call as is_bad_called, is_bad_hop as is_bad_within, is_bad_jump as is_bad_jumped, is_bad_listed as is_bad_among};
ghost use Rattle.flow_defs.specs.Targets.{destination_of};
ghost use Rattle.flow_defs.specs.Ways.{is_bad as is_bad_of};
ghost use Rattle.point_edges.specs.Jumps.{destination_way, direct_way, within_way};

use crate::flow_points::FlowPoints;
use crate::same_owner::is_same_owner;
use crate::{Branch, listed_way};
use alternatives::Point;
use flow_defs::{Destination, Way};
use machine_defs::EdgeKind;
use object_points::PointPlaces;
use operation_defs::Op;
use ot_base::Place;

/// Whether a way leads nowhere.
fn is_bad(way: Way) -> bool
    ensures { result ≡ is_bad_of way }
{
    matches!(way, Way::Bad)
}

/// Whether a place is none to call: no boundary.
fn is_bad_place(places: &PointPlaces<'_, '_, '_>, place: Place, guess: u32) -> bool
    ensures { result ≡ not (is_boundary_of (texts_of places.now) place) }
{
    !places.is_boundary_by_guess(place, guess)
}

/// Whether a call goes to no place of the text, or to the return thunk.
fn is_bad_call(places: &PointPlaces<'_, '_, '_>, branch: Branch) -> bool
    ensures { result ≡ is_bad_called places.now branch.to }
{
    match branch.to {
        Destination::ToPlace { place, .. } => is_bad_place(places, place, branch.guess),
        Destination::ToOwnPoint(_) | Destination::ToOutside(_) | Destination::ToIndirectThunk =>
            false,
        Destination::ToReturnThunk | Destination::ToNowhere => true,
    }
}

/// Whether a jump from a point to another of its replacement leaves their owner.
fn leaves_owner(places: &PointPlaces<'_, '_, '_>, n: u32, other: Point) -> bool
    requires inside { n < length (points_of_object places.now) }
    requires known { is_point (texts_of places.now) (alternatives_of places.now) other ≡ true }
    ensures { result ≡ is_bad_jumped places.now (point_at places.now n) (Destination.ToOwnPoint other) }
{
    match places.number_of(other) {
        Some(to) => !is_same_owner(places.owner(n), places.owner(to)),
        None => false,
    }
}

/// Whether a jump from a point, which goes there, goes to a place that is none to go to.
fn is_bad_jump(places: &PointPlaces<'_, '_, '_>, n: u32, branch: Branch) -> bool
    requires point { n < length (points_of_object places.now) }
    requires to { branch.to ≡ destination_of places.now (point_at places.now n) }
    requires way { branch.way ≡ destination_way places.now (point_at places.now n) branch.to }
    ensures { result ≡ is_bad_jumped places.now (point_at places.now n) (destination_of places.now (point_at places.now n)) }
{
    match branch.to {
        Destination::ToPlace { .. } => is_bad(branch.way),
        Destination::ToOwnPoint(other) => leaves_owner(places, n, other),
        Destination::ToOutside(_) | Destination::ToIndirectThunk | Destination::ToReturnThunk =>
            false,
        Destination::ToNowhere => true,
    }
}

/// Whether a call within a function from a point, which goes there, goes anywhere but to a place of that function.
fn is_bad_hop(places: &PointPlaces<'_, '_, '_>, n: u32, branch: Branch) -> bool
    requires point { n < length (points_of_object places.now) }
    requires to { branch.to ≡ destination_of places.now (point_at places.now n) }
    requires way { branch.way ≡ within_way places.now (point_at places.now n) branch.to }
    ensures { result ≡ is_bad_within places.now (point_at places.now n) (destination_of places.now (point_at places.now n)) }
{
    match branch.to {
        Destination::ToPlace { .. } => is_bad(branch.way),
        Destination::ToOwnPoint(other) => leaves_owner(places, n, other),
        Destination::ToOutside(_)
        | Destination::ToIndirectThunk
        | Destination::ToReturnThunk
        | Destination::ToNowhere => true,
    }
}

/// Whether the direct call or jump with this operation at a point, which goes there, goes to a place that is none to go to.
pub(crate) fn is_bad_branch(points: &FlowPoints<'_, '_, '_>, n: u32, op: Op, branch: Branch) -> bool
    requires point { n < length (points_of_object points.now) }
    requires to { branch.to ≡ destination_of points.now (point_at points.now n) }
    requires way { branch.way ≡ direct_way points.now (point_at points.now n) op }
    ensures { result ≡ is_bad_of_op points.now (point_at points.now n) op }
{
    let places = points.places();
    match op {
        Op::Call { .. } => is_bad_call(places, branch),
        Op::Jmp { .. } | Op::Jcc { .. } => is_bad_jump(places, n, branch),
        Op::Hop => is_bad_hop(places, n, branch),
        _ => false,
    }
}

/// Whether one of some static branches or exception entries at a point leads to a place that is none to go to.
pub(crate) fn is_bad_listed(
    places: &PointPlaces<'_, '_, '_>,
    kind: EdgeKind,
    n: u32,
    listed: &[Place],
) -> bool
    requires { n < length (points_of_object places.now) }
    ensures { result ≡ is_bad_among places.now kind (point_at places.now n) listed.now }
{
    if listed.is_empty() {
        return false;
    }
    let owner = places.owner(n);
    listed
        .iter()
        .any(|place| is_bad(listed_way(places, kind, owner, *place)))
}
