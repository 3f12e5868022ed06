//! Runs of no-ops in alternatives sites, each of which is one instruction.

ghost use Rattle.std.specs.Prelude.{◌≡◌, ◌+◌, ◌<◌, ◌≤◌, is_some, length, IsTrue};
ghost use Rattle.machine_defs.specs.Program.{in_site};
ghost use Rattle.program_graph.specs.Tells.{site_of};
ghost use Rattle.flow_defs.specs.Arrival.{is_nop as is_a_nop, is_short_nop as is_a_short_nop, is_short_nop_at as is_short_nop_from, run_from as run_from_place};
ghost use Rattle.flow_defs.specs.Code.{point_at, points_of_object};
ghost use Rattle.flow_defs.specs.Sites.{site_holding as site_that_holds};
ghost use Rattle.point_arrivals.specs.Low.{AreLow};
ghost use Rattle.point_arrivals.specs.Straight.{may_begin_run as may_begin_a_run};

use alternatives::Point;
use object_points::{PointPlaces, site_holding};
use operation_defs::{Insn, Op};
use ot_base::Place;
use program_graph::GraphSite;

/// Whether an operation is a Nop.
fn is_nop(op: Op) -> bool
    ensures { result ≡ is_a_nop op }
{
    matches!(op, Op::Nop)
}

/// Whether an instruction is the single byte 90.
#[inline(always)]
pub(crate) fn is_short_nop(insn: Insn) -> bool
    ensures { result ≡ is_a_short_nop insn }
{
    insn.len == 1 && is_nop(insn.op)
}

/// Whether an instruction of that byte begins at a place. It is found at once where the plain point there is the guessed one.
fn is_short_nop_at(places: &PointPlaces<'_, '_, '_>, place: Place, guess: u32) -> bool
    requires { AreLow places.now }
    ensures exact { result ≡ is_short_nop_from places.now place.sec place.off }
    ensures low { IsTrue result → place.off ≤ 16777216 }
{
    let variant = 0;
    match places.number_by_guess(Point { place, variant }, guess) {
        Some(n) => is_short_nop(places.decoded_insn(n)),
        None => false,
    }
}

/// How many instructions of that byte follow each other from a point of a site on, in the site: what is left of their run.
pub(crate) fn run_from(places: &PointPlaces<'_, '_, '_>, n: u32, site: GraphSite) -> u64
    requires low { AreLow places.now }
    requires point { n < length (points_of_object places.now) }
    requires inside { IsTrue (in_site (site_of site) (point_at places.now n).place) }
    ensures exact { result ≡ run_from_place places.now (point_at places.now n).place (site_of site) }
    ensures low { (point_at places.now n).place.off + result ≤ 16777217 }
{
    let place = places.point(n).place;
    let rest = site.len - (place.off - site.start.off);
    let mut guess = n;
    for k in 0..rest {
        let off = place.off + k;
        if !is_short_nop_at(places, Place { off, ..place }, guess) {
            return k;
        }
        guess = guess.wrapping_add(1);
    }
    rest
}

/// Whether a run of no-ops may begin at a point: it is one of the single byte 90, in a site.
#[inline(always)]
pub(crate) fn may_begin_run(places: &PointPlaces<'_, '_, '_>, n: u32) -> bool
    requires { n < length (points_of_object places.now) }
    ensures { result ≡ may_begin_a_run places.now (point_at places.now n) }
{
    if !is_short_nop(places.decoded_insn(n)) {
        return false;
    }
    is_in_site(places, places.point(n).place)
}

/// Whether a place is in a site.
fn is_in_site(places: &PointPlaces<'_, '_, '_>, place: Place) -> bool
    ensures { result ≡ is_some (site_that_holds places.now place) }
{
    site_holding(places, place).is_some()
}
