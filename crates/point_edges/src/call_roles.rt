//! What direct calls are.

ghost use Rattle.std.specs.Prelude.{◌≡◌, ◌<◌, length, true};
ghost use Rattle.alternatives.specs.Points.{is_point};
ghost use Rattle.flow_defs.specs.Code.{alternatives_of, point_at, points_of_object, texts_of};
ghost use Rattle.flow_defs.specs.Roles.{call_of_gate as call_of_gate_by, call_role as call_role_of, entry_call as entry_call_of, place_call as place_call_of, plain_number as plain_number_of};
ghost use Rattle.flow_defs.specs.Targets.{destination_of};

use crate::Branch;
use crate::called::{gate_called, is_called};
use alternatives::Point;
use flow_defs::Destination;
use machine_defs::Role;
use object_points::PointPlaces;
use ot_base::Place;

/// The number of the plain point at a place; 0 where none is there.
fn plain_number(places: &PointPlaces<'_, '_, '_>, place: Place, guess: u32) -> u32
    ensures { result ≡ plain_number_of places.now place }
{
    let variant = 0;
    places
        .number_by_guess(Point { place, variant }, guess)
        .unwrap_or(0)
}

/// A call of an entry, by a weak symbol or not.
fn entry_call(entry: u32, weak: Option<u32>) -> Role
    ensures { result ≡ entry_call_of entry weak }
{
    match weak {
        Some(sym) => Role::CallEither { entry, sym },
        None => Role::CallIn { entry },
    }
}

/// A call of no entry: one of code outside where it calls a gate by a symbol.
fn call_of_gate(gate: Option<u32>) -> Role
    ensures { result ≡ call_of_gate_by gate }
{
    match gate {
        Some(sym) => Role::CallOut { sym },
        None => Role::Plain,
    }
}

/// A call of a place from a point, by a weak symbol or not.
fn place_call(
    places: &PointPlaces<'_, '_, '_>,
    n: u32,
    place: Place,
    weak: Option<u32>,
    guess: u32,
) -> Role
    requires { n < length (points_of_object places.now) }
    ensures { result ≡ place_call_of places.now (point_at places.now n) place weak }
{
    if !places.is_boundary_by_guess(place, guess) {
        return Role::Plain;
    }
    if let Some(sym) = places.unchecked_start(place) {
        return Role::CallOut { sym };
    }
    if is_called(places, n, place) {
        entry_call(plain_number(places, place, guess), weak)
    } else {
        call_of_gate(gate_called(places, n, place))
    }
}

/// A call of a point of the caller's own replacement.
fn call_within(places: &PointPlaces<'_, '_, '_>, n: u32, other: Point) -> Role
    requires point { n < length (points_of_object places.now) }
    requires known { is_point (texts_of places.now) (alternatives_of places.now) other ≡ true }
    ensures { result ≡ call_role_of places.now (point_at places.now n) (Destination.ToOwnPoint other) }
{
    let Some(to) = places.number_of(other) else {
        return Role::Plain;
    };
    if places.is_padding(to) {
        Role::Plain
    } else {
        place_call(places, n, other.place, None, 0)
    }
}

/// What the direct call at a point is that goes there.
pub(crate) fn call_role(places: &PointPlaces<'_, '_, '_>, n: u32, branch: Branch) -> Role
    requires point { n < length (points_of_object places.now) }
    requires to { branch.to ≡ destination_of places.now (point_at places.now n) }
    ensures { result ≡ call_role_of places.now (point_at places.now n) branch.to }
{
    match branch.to {
        Destination::ToPlace { place, weak, .. } => {
            place_call(places, n, place, weak, branch.guess)
        }
        Destination::ToOwnPoint(point) => call_within(places, n, point),
        Destination::ToOutside(sym) => Role::CallOut { sym },
        Destination::ToIndirectThunk => Role::CallAny,
        Destination::ToReturnThunk | Destination::ToNowhere => Role::Plain,
    }
}
