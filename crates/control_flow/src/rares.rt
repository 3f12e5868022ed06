//! What few points have otherwise than most.

ghost use Rattle.std.specs.Prelude.{◌≡◌, ◌+◌, ◌<◌, ◌^◌, ◌↔◌, ◌++◌, ◌∷◌, [], ℕ, List, None, IfOk, IsTrue, length};
ghost use Rattle.alternatives.specs.Points.{address_of_point};
ghost use Rattle.flow_defs.specs.Code.{alternatives_of, point_at};
ghost use Rattle.flow_defs.specs.Program.{previous_of as previous_of_point};
ghost use Rattle.object_law.specs.Flows.{ObjectIsInOrder};
ghost use Rattle.program_graph.specs.Tells.{address_by, previous_by, variant_by};
ghost use Rattle.control_flow.specs.Hinted.{IsUnhinted};
ghost use Rattle.control_flow.specs.Listed.{count_of};
ghost use Rattle.control_flow.specs.Numbers.{IsNumbered};
ghost use Rattle.control_flow.specs.Rares.{AreRares, IsRare};

use crate::hinted::{hinted_of, push_hinted};
use crate::low::point_is_low;
use crate::numbers::number_of;
use crate::preceding::{ends_at, previous};
use object_points::{HintPoints, PointPlaces};
use ot_base::NoMemory;
use point_edges::{FlowPoints, object_is_in_order};
use program_graph::{Hinted, Previous, Rare, Replaced};
use std::alloc::Global;

/// What most points have.
const USUAL: Rare = Rare {
    replaced: None,
    previous: Previous::Below,
    hinted: None,
};

/// What a point has that is one of a replacement.
fn replaced(places: &PointPlaces<'_, '_, '_>, n: u32) -> Option<Replaced>
    requires { n < count_of places.now }
    ensures variant { (point_at places.now n).variant ≡ variant_by result }
    ensures address { let point = point_at places.now n in address_of_point (alternatives_of places.now) point ≡ address_by result point.place }
{
    let variant = places.point(n).variant;
    if variant == 0 {
        return None;
    }
    point_is_low(places, n);
    let address = places.address(n);
    Some(Replaced {
        variant,
        section: address.sec,
        offset: address.off as u32,
    })
}

/// Where the point stands that is right before a point.
fn previous_of(places: &PointPlaces<'_, '_, '_>, n: u32) -> Previous
    requires { n < count_of places.now }
    ensures { previous_of_point places.now (point_at places.now n) ≡ previous_by n result }
{
    match previous(places, n) {
        Some(before) if before < n && n - before == 1 => Previous::Below,
        Some(before) => Previous::Number(before),
        None => Previous::Nowhere,
    }
}

/// What a point has, where it is told where what points with a hint have stands for it.
fn rare_of(places: &PointPlaces<'_, '_, '_>, n: u32, hinted: Option<u32>) -> Rare
    requires { n < count_of places.now }
    ensures { IsRare places.now n hinted result }
{
    Rare {
        replaced: replaced(places, n),
        previous: previous_of(places, n),
        hinted,
    }
}

/// The number of what a point has, which goes behind what others have unless most have it or the last.
fn number_rare(rares: &mut Vec<Rare>, rare: Rare) -> Result<u32, NoMemory>
    requires some { 0 < length rares.old.items }
    requires few { length rares.old.items < 2 ^ 32 }
    ensures { IfOk result (IsNumbered rares.old.items rares.new.items rare) }
{
    let is_first = rares[0] == rare;
    let is_last = !is_first && rares[rares.len() - 1] == rare;
    number_of(rares, rare, is_first, is_last)
}

/// Whether a point is right behind a straight one. But for a hint it has what most have then.
#[inline(always)]
fn is_behind_straight(points: &FlowPoints<'_, '_, '_>, n: u32) -> bool
    requires order { ObjectIsInOrder points.now }
    requires point { n < count_of points.now }
    ensures { IsTrue result → IsRare points.now n None USUAL }
{
    n > 0 && points.arrivals().is_straight(n - 1)
}

/// Whether a point is a plain one right behind the plain one with the number below. But for a hint it has what most have
/// then.
fn is_behind_plain(places: &PointPlaces<'_, '_, '_>, n: u32) -> bool
    requires point { n < count_of places.now }
    ensures { IsTrue result → IsRare places.now n None USUAL }
{
    object_is_in_order(places.linked());
    if n == 0 {
        return false;
    }
    let point = places.point(n);
    let len = places.decoded_insn(n - 1).len;
    point.variant == 0 && ends_at(places.point(n - 1), len, point.place)
}

/// Whether a point has no hint. Of most points that is told without a search.
#[inline(always)]
fn is_unhinted(places: &PointPlaces<'_, '_, '_>, n: u32) -> bool
    requires point { n < count_of places.now }
    ensures { IsTrue result ↔ IsUnhinted places.now n }
{
    !places.may_have_hint(n) || places.hint(n).is_none()
}

/// Whether it is seen at once that a point has what most have.
#[inline(always)]
pub(crate) fn is_usual(points: &FlowPoints<'_, '_, '_>, n: u32) -> bool
    requires order { ObjectIsInOrder points.now }
    requires point { n < count_of points.now }
    ensures rare { IsTrue result → IsRare points.now n None USUAL }
    ensures hint { IsTrue result → IsUnhinted points.now n }
{
    (is_behind_straight(points, n) || is_behind_plain(points.places(), n))
        && is_unhinted(points.places(), n)
}

/// What few points have, of the points so far.
#[derive(Drop)]
pub(crate) struct RareTable {
    /// What few points have, behind what most have.
    pub(crate) rares: Vec<Rare>,
    /// What points have that have a hint.
    pub(crate) hinted: Vec<Hinted>,
}

impl RareTable {
    /// No points yet.
    pub(crate) fn new(alloc: Global) -> Result<RareTable, NoMemory>
        ensures rares { IfOk result (λ table. table.rares.items ≡ USUAL ∷ []) }
        ensures hinted { IfOk result (λ table. table.hinted.items ≡ []) }
    {
        let mut rares = Vec::new(alloc);
        rares.push(USUAL)?;
        Ok(RareTable {
            rares,
            hinted: Vec::new(alloc),
        })
    }

    /// Lists what a point has, unless most have it or the one before, and tells where it stands.
    #[inline(never)]
    fn add_any(
        &mut self,
        points: &FlowPoints<'_, '_, '_>,
        hints: &HintPoints<'_, '_, '_, '_>,
        n: u32,
    ) -> Result<u32, NoMemory>
        requires hints { hints.now.object ≡ points.now }
        requires point { n < count_of points.now }
        requires some { 0 < length self.old.rares.items }
        requires few { length self.old.rares.items < 2 ^ 32 }
        requires few_hinted { length self.old.hinted.items < 2 ^ 32 }
        ensures { IfOk result (λ number. (numbers : List ℕ) → AreRares points.now hints.now.restores self.old.rares.items self.old.hinted.items numbers n → AreRares points.now hints.now.restores self.new.rares.items self.new.hinted.items (numbers ++ number ∷ []) (n + 1)) }
    {
        let places = points.places();
        let known = push_hinted(&mut self.hinted, hinted_of(places, hints, n))?;
        number_rare(&mut self.rares, rare_of(places, n, known))
    }

    /// Lists what a point has where few have it, and tells where it stands. That of most points is the first.
    pub(crate) fn add(
        &mut self,
        points: &FlowPoints<'_, '_, '_>,
        hints: &HintPoints<'_, '_, '_, '_>,
        n: u32,
    ) -> Result<u32, NoMemory>
        requires hints { hints.now.object ≡ points.now }
        requires order { ObjectIsInOrder points.now }
        requires point { n < count_of points.now }
        requires some { 0 < length self.old.rares.items }
        requires few { length self.old.rares.items < 2 ^ 32 }
        requires few_hinted { length self.old.hinted.items < 2 ^ 32 }
        ensures { IfOk result (λ number. (numbers : List ℕ) → AreRares points.now hints.now.restores self.old.rares.items self.old.hinted.items numbers n → AreRares points.now hints.now.restores self.new.rares.items self.new.hinted.items (numbers ++ number ∷ []) (n + 1)) }
    {
        if is_usual(points, n) {
            return Ok(0);
        }
        self.add_any(points, hints, n)
    }
}
