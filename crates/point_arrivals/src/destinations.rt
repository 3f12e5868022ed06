//! Where direct calls and branches go.

ghost use Rattle.std.specs.Prelude.{◌≡◌, ◌+◌, ◌<◌, ◌^◌, Some, false, length};
ghost use Rattle.ot_base.specs.Places.{same_place};
ghost use Rattle.alternatives.specs.Texts.{behind as behind_of};
ghost use Rattle.flow_defs.specs.Code.{is_plain, point_at, points_of_object};
ghost use Rattle.flow_defs.specs.Targets.{destination as destination_of, destination_by, named_destination as named_destination_of, own_destination as own_destination_of};
ghost use Rattle.point_arrivals.specs.Displacements.{meant};

use crate::displacement::{Displacement, displacement_of, lacks_reloc, relative_place};
use crate::own_points::point;
use alternatives::Point;
use flow_defs::{Crossing, Destination};
use object_points::PointPlaces;
use operation_defs::Insn;
use ot_base::Place;
use symbols_relocs::Target;

/// The place so many bytes behind another, whose offset has 32 bits.
fn behind(place: Place, len: u8) -> Place
    requires { place.off < 2 ^ 32 }
    ensures { result ≡ behind_of place len }
{
    Place {
        sec: place.sec,
        off: place.off + u64::from(len),
    }
}

/// Whether a place is so many bytes behind another.
fn is_behind(place: Place, start: Place, len: u8) -> bool
    ensures { result ≡ same_place place (behind_of start len) }
{
    place.sec == start.sec && u128::from(place.off) == u128::from(start.off) + u128::from(len)
}

/// Where a direct call or branch goes by the target that its relocation and its displacement have.
fn named_destination(target: Target) -> Destination
    ensures { result ≡ named_destination_of target }
{
    match target {
        Target::Inside(place) => Destination::ToPlace {
            place,
            weak: None,
            crossing: Crossing::MayCross,
        },
        Target::Either(place, sym) => Destination::ToPlace {
            place,
            weak: Some(sym),
            crossing: Crossing::MayCross,
        },
        Target::Outside(sym) => Destination::ToOutside(sym),
        Target::ThunkIndirect => Destination::ToIndirectThunk,
        Target::ThunkReturn => Destination::ToReturnThunk,
        Target::Bad => Destination::ToNowhere,
    }
}

/// Where a point of a replacement goes that leads to a place without a relocation.
fn own_destination(places: &PointPlaces<'_, '_, '_>, n: u32, place: Option<Place>) -> Destination
    requires inside { n < length (points_of_object places.now) }
    requires replaced { is_plain (point_at places.now n) ≡ false }
    ensures { result ≡ own_destination_of places.now (point_at places.now n) place }
{
    let Some(place) = place else {
        return Destination::ToNowhere;
    };
    let from = point(places, n);
    let other = Point { place, ..from };
    if places.number_of(other).is_some() {
        return Destination::ToOwnPoint(other);
    }
    let entry = places.linked().special().alternatives()[from.variant as usize - 1];
    if is_behind(place, entry.replacement, entry.replacement_len) {
        Destination::ToPlace {
            place: behind(entry.original, entry.original_len),
            weak: None,
            crossing: Crossing::MayNotCross,
        }
    } else {
        Destination::ToNowhere
    }
}

/// Where the direct call or branch with this displacement at a point goes.
fn displaced_destination(
    places: &PointPlaces<'_, '_, '_>,
    n: u32,
    insn: Insn,
    displacement: Displacement,
) -> Destination
    requires { n < length (points_of_object places.now) }
    ensures { result ≡ destination_by places.now (point_at places.now n) insn (Some (meant displacement)) }
{
    let from = point(places, n);
    let index = places.linked().index();
    if from.variant != 0 && lacks_reloc(index, from.place, insn.len, displacement) {
        own_destination(
            places,
            n,
            relative_place(from.place, insn.len, displacement),
        )
    } else {
        named_destination(index.branch_target(from.place, insn))
    }
}

/// Where the direct call or branch with this instruction at a point goes: to the target that its relocation and its
/// displacement have. Code of a replacement without a relocation goes to a point of the same replacement, or, where it
/// leads to that replacement's end, behind its site, where it may not cross. Any other instruction goes nowhere.
pub fn destination(places: &PointPlaces<'_, '_, '_>, n: u32, insn: Insn) -> Destination
    requires { n < length (points_of_object places.now) }
    ensures { result ≡ destination_of places.now (point_at places.now n) insn }
{
    match displacement_of(insn.op) {
        Some(displacement) => displaced_destination(places, n, insn, displacement),
        None => Destination::ToNowhere,
    }
}
