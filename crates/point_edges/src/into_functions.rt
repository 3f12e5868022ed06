//! Calls into functions.

ghost use Rattle.std.specs.Prelude.{◌≡◌, ◌<◌, length, true};
ghost use Rattle.alternatives.specs.Points.{is_point};
ghost use Rattle.flow_defs.specs.Arrival.{insn_of_object};
ghost use Rattle.flow_defs.specs.Code.{alternatives_of, point_at, points_of_object, texts_of};
ghost use Rattle.flow_defs.specs.Marks.{calls_into_function as calls_into_a_function, is_inner_call as is_inner_called, is_inner_call_by, is_inner_call_of};
ghost use Rattle.flow_defs.specs.Targets.{destination_of};

use crate::Branch;
use crate::called::{gate_called, is_called};
use crate::flow_points::FlowPoints;
use alternatives::Point;
use flow_defs::Destination;
use object_points::PointPlaces;
use operation_defs::{Insn, Op};
use ot_base::Place;

/// Whether a place is a boundary that calls of a point don't enter, and at which no unchecked function starts.
fn is_inner_place(places: &PointPlaces<'_, '_, '_>, n: u32, place: Place, guess: u32) -> bool
    requires { n < length (points_of_object places.now) }
    ensures { result ≡ is_inner_call_of places.now (point_at places.now n) place }
{
    places.is_boundary_by_guess(place, guess)
        && places.unchecked_start(place).is_none()
        && !is_called(places, n, place)
        && gate_called(places, n, place).is_none()
}

/// Whether a call of a point of the caller's own replacement goes into a function: of its padding it always does.
fn is_inner_point(places: &PointPlaces<'_, '_, '_>, n: u32, other: Point) -> bool
    requires point { n < length (points_of_object places.now) }
    requires known { is_point (texts_of places.now) (alternatives_of places.now) other ≡ true }
    ensures { result ≡ is_inner_called places.now (point_at places.now n) (Destination.ToOwnPoint other) }
{
    let Some(to) = places.number_of(other) else {
        return false;
    };
    places.is_padding(to) || is_inner_place(places, n, other.place, 0)
}

/// Whether a call at a point, which goes there, goes into a function.
fn is_inner_call(places: &PointPlaces<'_, '_, '_>, n: u32, branch: Branch) -> bool
    requires point { n < length (points_of_object places.now) }
    requires to { branch.to ≡ destination_of places.now (point_at places.now n) }
    ensures { result ≡ is_inner_called places.now (point_at places.now n) (destination_of places.now (point_at places.now n)) }
{
    match branch.to {
        Destination::ToPlace { place, .. } => is_inner_place(places, n, place, branch.guess),
        Destination::ToOwnPoint(point) => is_inner_point(places, n, point),
        _ => false,
    }
}

/// Whether the operation of a point, which goes there, is a call that goes into a function.
fn is_inner_branch(places: &PointPlaces<'_, '_, '_>, n: u32, op: Op, branch: Branch) -> bool
    requires point { n < length (points_of_object places.now) }
    requires to { branch.to ≡ destination_of places.now (point_at places.now n) }
    ensures { result ≡ is_inner_call_by places.now (point_at places.now n) op }
{
    match op {
        Op::Call { .. } => is_inner_call(places, n, branch),
        _ => false,
    }
}

/// Whether a point with this instruction, whose call goes there, calls into a function.
pub(crate) fn calls_into_function(
    points: &FlowPoints<'_, '_, '_>,
    n: u32,
    insn: Insn,
    branch: Branch,
) -> bool
    requires point { n < length (points_of_object points.now) }
    requires insn { insn ≡ insn_of_object points.now (point_at points.now n) }
    requires to { branch.to ≡ destination_of points.now (point_at points.now n) }
    ensures { result ≡ calls_into_a_function points.now (point_at points.now n) }
{
    is_inner_branch(points.places(), n, insn.op, branch)
}
