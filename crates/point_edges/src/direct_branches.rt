//! Where the direct call or branch of a point goes, and how a jump gets there.

ghost use Rattle.std.specs.Prelude.{◌≡◌, ◌<◌, ℕ, Option, length};
ghost use Rattle.flow_defs.specs.Code.{point_at, points_of_object};
ghost use Rattle.flow_defs.specs.Decoded.{decoded_insn};
ghost use Rattle.flow_defs.specs.Roles.{returns_through as returns_through_of};
ghost use Rattle.flow_defs.specs.Targets.{destination_of, returning_inside as returning_inside_of, returning_target as returning_target_of};
ghost use Rattle.flow_defs.specs.Ways.{hop_way as hop_way_of, jump_way as jump_way_of, taken_only as taken_only_of};
ghost use Rattle.point_edges.specs.Jumps.{destination_way as destination_way_of, direct_way as direct_way_of, within_way as within_way_of};

use crate::flow_points::FlowPoints;
use crate::place_ways::way_by_guess;
use alternatives::Point;
use flow_defs::{Crossing, Destination, Way};
use machine_defs::EdgeKind;
use object_points::PointPlaces;
use operation_defs::{Insn, Op};
use ot_base::Place;
use point_arrivals::destination;

/// Where the direct call or branch goes that is decoded at a point.
#[derive(Clone, Copy)]
pub struct Branch {
    /// Where it goes.
    pub to: Destination,
    /// How a direct jump, or a call within a function, gets to the place that it goes to; [`Way::Bad`] where it goes to no
    /// place of the text, or inside its replacement, and where it is none of these.
    pub way: Way,
    /// The symbol of the code that returns for its caller, through which the point returns; none where it doesn't.
    pub through: Option<u32>,
    /// A guess of the number of the plain point at the place that it goes to. A wrong one costs time and nothing else.
    pub(crate) guess: u32,
}

/// The way of a jump from a point to a place.
fn jump_way(
    places: &PointPlaces<'_, '_, '_>,
    n: u32,
    crossing: Crossing,
    place: Place,
    guess: u32,
) -> Way
    requires { n < length (points_of_object places.now) }
    ensures { result ≡ jump_way_of places.now (point_at places.now n) crossing place }
{
    let kind = EdgeKind::Taken;
    way_by_guess(places, crossing, kind, places.owner(n), place, guess)
}

/// The way of a jump from a point to where it goes.
fn destination_way(places: &PointPlaces<'_, '_, '_>, n: u32, to: Destination, guess: u32) -> Way
    requires { n < length (points_of_object places.now) }
    ensures { result ≡ destination_way_of places.now (point_at places.now n) to }
{
    match to {
        Destination::ToPlace {
            place,
            crossing,
            ..
        } => jump_way(places, n, crossing, place, guess),
        _ => Way::Bad,
    }
}

/// The same way, where it is along a taken edge.
fn taken_only(way: Way) -> Way
    ensures { result ≡ taken_only_of way }
{
    match way {
        Way::Along(EdgeKind::Taken) => way,
        _ => Way::Bad,
    }
}

/// The way of a call within a function from a point to a place, by a weak symbol or not.
fn hop_way(
    places: &PointPlaces<'_, '_, '_>,
    n: u32,
    weak: Option<u32>,
    crossing: Crossing,
    place: Place,
    guess: u32,
) -> Way
    requires { n < length (points_of_object places.now) }
    ensures { result ≡ hop_way_of places.now (point_at places.now n) weak crossing place }
{
    match weak {
        Some(_) => Way::Bad,
        None => taken_only(jump_way(places, n, crossing, place, guess)),
    }
}

/// The way of a call within a function from a point to where it goes.
fn within_way(places: &PointPlaces<'_, '_, '_>, n: u32, to: Destination, guess: u32) -> Way
    requires { n < length (points_of_object places.now) }
    ensures { result ≡ within_way_of places.now (point_at places.now n) to }
{
    match to {
        Destination::ToPlace {
            place,
            weak,
            crossing,
        } => hop_way(places, n, weak, crossing, place, guess),
        _ => Way::Bad,
    }
}

/// A guess of the number of the plain point at the place that a branch goes to, which is right where one is there.
fn guess_plain(places: &PointPlaces<'_, '_, '_>, to: Destination) -> u32 {
    match to {
        Destination::ToPlace { place, .. } => {
            let variant = 0;
            places.number_of(Point { place, variant }).unwrap_or(0)
        }
        _ => 0,
    }
}

/// The way of the operation of a point, which goes `to` there.
fn direct_way(places: &PointPlaces<'_, '_, '_>, n: u32, op: Op, to: Destination, guess: u32) -> Way
    requires point { n < length (points_of_object places.now) }
    requires to { to ≡ destination_of places.now (point_at places.now n) }
    ensures { result ≡ direct_way_of places.now (point_at places.now n) op }
{
    match op {
        Op::Jmp { .. } | Op::Jcc { .. } => destination_way(places, n, to, guess),
        Op::Hop => within_way(places, n, to, guess),
        _ => Way::Bad,
    }
}

/// The symbol of the code that returns for its caller and begins at a place that a branch goes to. One that may not cross doesn't
/// go there.
#[inline(always)]
fn returning_place(points: &FlowPoints<'_, '_, '_>, place: Place, crossing: Crossing) -> Option<u32>
    ensures { (weak : Option ℕ) → result ≡ returning_target_of points.now (Destination.ToPlace place weak crossing) }
{
    match crossing {
        Crossing::MayCross => points.arrivals().returning_at(place),
        Crossing::MayNotCross => None,
    }
}

/// The same of such code that begins inside another instruction.
#[inline(always)]
fn returning_inside_place(
    points: &FlowPoints<'_, '_, '_>,
    place: Place,
    crossing: Crossing,
    guess: u32,
) -> Option<u32>
    ensures { (weak : Option ℕ) → result ≡ returning_inside_of points.now (Destination.ToPlace place weak crossing) }
{
    let sym = returning_place(points, place, crossing)?;
    if points.places().is_boundary_by_guess(place, guess) {
        None
    } else {
        Some(sym)
    }
}

/// The symbol of the code that returns for its caller to which a call goes.
fn returning_target(points: &FlowPoints<'_, '_, '_>, to: Destination) -> Option<u32>
    ensures { result ≡ returning_target_of points.now to }
{
    match to {
        Destination::ToPlace {
            place,
            crossing,
            ..
        } => returning_place(points, place, crossing),
        _ => None,
    }
}

/// That of such code to which a jump goes, inside another instruction.
fn returning_inside(points: &FlowPoints<'_, '_, '_>, to: Destination, guess: u32) -> Option<u32>
    ensures { result ≡ returning_inside_of points.now to }
{
    match to {
        Destination::ToPlace {
            place,
            crossing,
            ..
        } => returning_inside_place(points, place, crossing, guess),
        _ => None,
    }
}

/// The symbol of the code that returns for its caller, through which a point with this decoded operation returns, which goes
/// `to` there.
fn returns_through(
    points: &FlowPoints<'_, '_, '_>,
    n: u32,
    decoded: Op,
    to: Destination,
    guess: u32,
) -> Option<u32>
    requires point { n < length (points_of_object points.now) }
    requires decoded { decoded ≡ (decoded_insn points.now (point_at points.now n)).op }
    requires to { to ≡ destination_of points.now (point_at points.now n) }
    ensures { result ≡ returns_through_of points.now (point_at points.now n) }
{
    match decoded {
        Op::Call { .. } => returning_target(points, to),
        Op::Jmp { .. } | Op::Jcc { .. } => returning_inside(points, to, guess),
        _ => None,
    }
}

/// Where the direct call or branch that is decoded at a point goes, and how the point's instruction in the program gets
/// there: a jump, or a call within a function; and through which code it returns that returns for its caller.
pub fn branch_at(points: &FlowPoints<'_, '_, '_>, n: u32, insn: Insn) -> Branch
    requires { n < length (points_of_object points.now) }
    ensures to { result.to ≡ destination_of points.now (point_at points.now n) }
    ensures way { result.way ≡ direct_way_of points.now (point_at points.now n) insn.op }
    ensures through { result.through ≡ returns_through_of points.now (point_at points.now n) }
{
    let places = points.places();
    let decoded = places.decoded_insn(n);
    let to = destination(places, n, decoded);
    let guess = guess_plain(places, to);
    Branch {
        to,
        way: direct_way(places, n, insn.op, to, guess),
        through: returns_through(points, n, decoded.op, to, guess),
        guess,
    }
}
