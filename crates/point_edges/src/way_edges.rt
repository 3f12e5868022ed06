//! The edges to the points at which control may stand that comes to a place.

ghost use Rattle.std.specs.Prelude.{◌≡◌, ◌<◌, ◌++◌, [], ◌∷◌, length, OnOk};
ghost use Rattle.flow_defs.specs.Arrival.{after as points_following, arrive as points_coming_to};
ghost use Rattle.flow_defs.specs.Code.{point_at, points_of_object};
ghost use Rattle.flow_defs.specs.Edges.{edges_to, listed_edges, way_edges};
ghost use Rattle.point_edges.specs.Entries.{entry_edges};

use crate::flow_points::FlowPoints;
use crate::listed_way;
use flow_defs::Way;
use machine_defs::{Edge, EdgeKind};
use object_points::is_into_site;
use ot_base::{NoMemory, Place};
use std::alloc::Global;

/// Pushes an edge of a kind to each of some points.
fn push_to(kind: EdgeKind, numbers: &[u32], into: &mut Vec<Edge>) -> Result<(), NoMemory>
    ensures { OnOk result (into.new.items ≡ into.old.items ++ edges_to kind numbers.now) }
{
    for to in numbers {
        into.push(Edge { to: *to, kind })?;
    }
    Ok(())
}

/// Pushes an edge of a kind to one point.
fn push_one(kind: EdgeKind, to: u32, into: &mut Vec<Edge>) -> Result<(), NoMemory>
    ensures { OnOk result (into.new.items ≡ into.old.items ++ edges_to kind (to ∷ [])) }
{
    into.push(Edge { to, kind })?;
    Ok(())
}

/// Pushes an edge of a kind to each point at which control may stand that comes to a place, with a guess of the plain one.
fn push_arrivals(
    alloc: Global,
    points: &FlowPoints<'_, '_, '_>,
    kind: EdgeKind,
    place: Place,
    guess: u32,
    into: &mut Vec<Edge>,
) -> Result<(), NoMemory>
    ensures { OnOk result (into.new.items ≡ into.old.items ++ edges_to kind (points_coming_to points.now place)) }
{
    let arrivals = points.arrivals();
    if let Some(to) = arrivals.arrive_alone(place, guess) {
        return push_one(kind, to, into);
    }
    let numbers = arrivals.arrive(alloc, place)?;
    push_to(kind, numbers.as_slice(), into)
}

/// Pushes an edge of a kind to each point that follows a point.
pub(crate) fn push_after(
    alloc: Global,
    points: &FlowPoints<'_, '_, '_>,
    kind: EdgeKind,
    n: u32,
    into: &mut Vec<Edge>,
) -> Result<(), NoMemory>
    requires { n < length (points_of_object points.now) }
    ensures { OnOk result (into.new.items ≡ into.old.items ++ edges_to kind (points_following points.now (point_at points.now n))) }
{
    let arrivals = points.arrivals();
    if let Some(to) = arrivals.after_alone(n) {
        return push_one(kind, to, into);
    }
    let numbers = arrivals.after(alloc, n)?;
    push_to(kind, numbers.as_slice(), into)
}

/// Pushes the edges along a way to a place, at which the plain point is found at once if it is the guessed one.
pub(crate) fn push_way(
    alloc: Global,
    points: &FlowPoints<'_, '_, '_>,
    n: u32,
    place: Place,
    way: Way,
    guess: u32,
    into: &mut Vec<Edge>,
) -> Result<(), NoMemory>
    requires { n < length (points_of_object points.now) }
    ensures { OnOk result (into.new.items ≡ into.old.items ++ way_edges points.now (point_at points.now n) place way) }
{
    let Way::Along(kind) = way else {
        return Ok(());
    };
    if is_into_site(points.places(), n, place) {
        return Ok(());
    }
    push_arrivals(alloc, points, kind, place, guess, into)
}

/// Pushes the edges of the static branches at a point, or of its exception entries. Most points have none of them.
#[inline(always)]
pub(crate) fn push_listed(
    alloc: Global,
    points: &FlowPoints<'_, '_, '_>,
    kind: EdgeKind,
    n: u32,
    places: &[Place],
    into: &mut Vec<Edge>,
) -> Result<(), NoMemory>
    requires { n < length (points_of_object points.now) }
    ensures { OnOk result (into.new.items ≡ into.old.items ++ listed_edges points.now kind (point_at points.now n) places.now) }
{
    if places.is_empty() {
        return Ok(());
    }
    push_each(alloc, points, kind, n, places, into)
}

/// The same for each of some places.
#[inline(never)]
fn push_each(
    alloc: Global,
    points: &FlowPoints<'_, '_, '_>,
    kind: EdgeKind,
    n: u32,
    places: &[Place],
    into: &mut Vec<Edge>,
) -> Result<(), NoMemory>
    requires { n < length (points_of_object points.now) }
    ensures { OnOk result (into.new.items ≡ into.old.items ++ listed_edges points.now kind (point_at points.now n) places.now) }
{
    let owner = points.places().owner(n);
    for place in places {
        let way = listed_way(points.places(), kind, owner, *place);
        push_way(alloc, points, n, *place, way, 0, into)?;
    }
    Ok(())
}

/// Pushes the edges of an indirect jump to the entries of its table.
pub(crate) fn push_entries(
    alloc: Global,
    points: &FlowPoints<'_, '_, '_>,
    n: u32,
    places: &[Place],
    into: &mut Vec<Edge>,
) -> Result<(), NoMemory>
    requires { n < length (points_of_object points.now) }
    ensures { OnOk result (into.new.items ≡ into.old.items ++ entry_edges points.now (point_at points.now n) places.now) }
{
    for place in places {
        push_way(
            alloc,
            points,
            n,
            *place,
            Way::Along(EdgeKind::Table),
            0,
            into,
        )?;
    }
    Ok(())
}
