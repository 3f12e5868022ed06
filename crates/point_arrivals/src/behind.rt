//! What follows a point.

ghost use Rattle.std.specs.Prelude.{◌≡◌, ◌<◌, length, IfOk};
ghost use Rattle.alternatives.specs.Texts.{behind};
ghost use Rattle.flow_defs.specs.Arrival.{after as points_following, behind_plain, decoded_insn, is_at_end as is_at_an_end, place_behind as place_after};
ghost use Rattle.flow_defs.specs.Code.{alternatives_of, point_at, points_of_object};
ghost use Rattle.flow_defs.specs.Sites.{site_holding as site_that_holds};
ghost use Rattle.object_points.specs.Places.{HaveSamePlaces};
ghost use Rattle.point_arrivals.specs.Lists.{original_places_of};
ghost use Rattle.point_arrivals.specs.Low.{AreLow};
ghost use Rattle.point_arrivals.specs.Next.{number_of_next as number_following};

use crate::arrive::arrive;
use crate::runs::{is_short_nop, run_from};
use object_points::{PlaceSet, PointPlaces, site_holding};
use ot_base::{NoMemory, Place};
use smallvec::SmallVec;
use std::alloc::Global;

/// Where the instruction of a point ends.
#[inline(always)]
pub(crate) fn end_of(places: &PointPlaces<'_, '_, '_>, n: u32) -> Place
    requires low { AreLow places.now }
    requires point { n < length (points_of_object places.now) }
    ensures { result ≡ behind (point_at places.now n).place (decoded_insn places.now (point_at places.now n)).len }
{
    let place = places.point(n).place;
    let len = places.decoded_insn(n).len;
    let off = place.off + u64::from(len);
    Place { off, ..place }
}

/// The number of the point of its replacement that follows a point.
fn number_of_next(places: &PointPlaces<'_, '_, '_>, n: u32) -> Option<u32>
    requires { n < length (points_of_object places.now) }
    ensures { result ≡ number_following places.now (point_at places.now n) }
{
    if places.point(n).variant == 0 {
        return None;
    }
    places.linked().sites().number_behind(n)
}

/// Where control comes behind an instruction of the object's own code: a run of no-ops in a site is one instruction.
fn place_behind_plain(places: &PointPlaces<'_, '_, '_>, n: u32) -> Place
    requires low { AreLow places.now }
    requires point { n < length (points_of_object places.now) }
    ensures { let p = point_at places.now n in result ≡ behind_plain places.now p.place (decoded_insn places.now p) (site_that_holds places.now p.place) }
{
    if !is_short_nop(places.decoded_insn(n)) {
        return end_of(places, n);
    }
    let place = places.point(n).place;
    match site_holding(places, place) {
        Some(site) => {
            let off = place.off + run_from(places, n, site);
            Place { off, ..place }
        }
        None => end_of(places, n),
    }
}

/// Where control comes behind a plain point, and behind the last point of a replacement.
fn place_behind(places: &PointPlaces<'_, '_, '_>, n: u32) -> Place
    requires low { AreLow places.now }
    requires point { n < length (points_of_object places.now) }
    ensures { result ≡ place_after places.now (point_at places.now n) }
{
    let point = places.point(n);
    if point.variant == 0 {
        return place_behind_plain(places, n);
    }
    let entry = places.linked().special().alternatives()[point.variant as usize - 1];
    let off = entry.original.off + u64::from(entry.original_len);
    Place {
        off,
        ..entry.original
    }
}

/// The points that follow a point, whatever it does.
pub(crate) fn after(
    alloc: Global,
    places: &PointPlaces<'_, '_, '_>,
    originals: &PlaceSet,
    n: u32,
) -> Result<SmallVec<u32, 4>, NoMemory>
    requires low { AreLow places.now }
    requires originals { HaveSamePlaces (original_places_of (alternatives_of places.now)) originals.now }
    requires point { n < length (points_of_object places.now) }
    ensures { IfOk result (λ points. points.items ≡ points_following places.now (point_at places.now n)) }
{
    match number_of_next(places, n) {
        Some(next) => Ok(SmallVec::from_slice(alloc, &[next])?),
        None => {
            let place = place_behind(places, n);
            arrive(alloc, places, originals, place, n.wrapping_add(1))
        }
    }
}

/// Whether nothing follows a point.
pub(crate) fn is_at_end(places: &PointPlaces<'_, '_, '_>, n: u32) -> bool
    requires low { AreLow places.now }
    requires point { n < length (points_of_object places.now) }
    ensures { result ≡ is_at_an_end places.now (point_at places.now n) }
{
    number_of_next(places, n).is_none()
        && !places.is_boundary_by_guess(place_behind(places, n), n.wrapping_add(1))
}
