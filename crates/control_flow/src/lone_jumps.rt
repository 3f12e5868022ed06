//! Jumps that go nowhere but through their table: all of them that share a table go alike.

ghost use Rattle.std.specs.Prelude.{◌≡◌, ◌+◌, ◌<◌, ◌++◌, ◌∷◌, [], true, IfOk, IfSome, MatchOption, OnOk};
ghost use Rattle.std.specs.BTreeMap.{get};
ghost use Rattle.ot_base.specs.Places.{place_cmp};
ghost use Rattle.alternatives.specs.declared.point.Point.{Point};
ghost use Rattle.flow_defs.specs.Coded.{Coded};
ghost use Rattle.flow_defs.specs.Arrival.{insn_of_object};
ghost use Rattle.flow_defs.specs.Code.{point_at};
ghost use Rattle.flow_defs.specs.Edges.{is_some_place};
ghost use Rattle.flow_defs.specs.Roles.{table_of_point};
ghost use Rattle.flow_defs.specs.Targets.{destination_of};
ghost use Rattle.point_edges.specs.Tables.{table_start_of};
ghost use Rattle.control_flow.specs.Listed.{count_of};
ghost use Rattle.control_flow.specs.Lone.{AreLoneJumps, GoAlike, HasEdgesOf, is_in_open_code as is_point_in_open_code, is_indirect_jump as is_indirect, is_lone_jump as is_lone, is_unlisted as is_unlisted_point};

use flow_defs::Destination;
use object_points::site_holding;
use operation_defs::{Insn, Op};
use ot_base::{NoMemory, Place};
use point_edges::FlowPoints;
use std::alloc::Global;
use std::collections::BTreeMap;

/// Whether a jump with this operation, whose direct branch goes there, is an indirect one: by itself, or by a thunk.
fn is_indirect_jump(op: Op, to: Destination) -> bool
    ensures { result ≡ is_indirect op to }
{
    match op {
        Op::JmpInd { .. } => true,
        Op::Jmp { .. } => matches!(to, Destination::ToIndirectThunk),
        _ => false,
    }
}

/// Whether no static branch and no exception entry stands at a point.
fn is_unlisted(points: &FlowPoints<'_, '_, '_>, n: u32) -> bool
    requires { n < count_of points.now }
    ensures { result ≡ is_unlisted_point points.now (point_at points.now n) }
{
    let arrivals = points.arrivals();
    arrivals.static_targets(n).is_empty() && arrivals.fixups(n).is_empty()
}

/// Whether a point is one of the object's own code, outside of all sites, and checked.
fn is_in_open_code(points: &FlowPoints<'_, '_, '_>, n: u32) -> bool
    requires { n < count_of points.now }
    ensures { result ≡ is_point_in_open_code points.now (point_at points.now n) }
{
    let places = points.places();
    let point = places.point(n);
    point.variant == 0
        && site_holding(places, point.place).is_none()
        && !places.is_unchecked_point(n)
}

/// Whether a point has a jump table that has entries.
fn has_table(points: &FlowPoints<'_, '_, '_>, n: u32) -> bool
    requires { n < count_of points.now }
    ensures { result ≡ is_some_place (table_of_point points.now (point_at points.now n)) }
{
    !points.table(n).is_empty()
}

/// Whether a point with this instruction, whose direct branch goes there, is a lone jump: an indirect one in open code, through a
/// table that has entries, which goes nowhere else.
#[tactic(auto, unfolding(crate::specs::Lone::is_lone_jump))]
fn is_lone_jump(points: &FlowPoints<'_, '_, '_>, n: u32, insn: Insn, to: Destination) -> bool
    requires point { n < count_of points.now }
    requires insn { insn ≡ insn_of_object points.now (point_at points.now n) }
    requires to { to ≡ destination_of points.now (point_at points.now n) }
    ensures { result ≡ is_lone points.now (point_at points.now n) }
{
    is_indirect_jump(insn.op, to)
        && has_table(points, n)
        && is_unlisted(points, n)
        && is_in_open_code(points, n)
}

/// The law that lone jumps whose tables begin at one place go alike. They have one owner, that of the table's first entry.
fn lone_jumps_go_alike()
    ensures { (o : Coded) (one other : Point) → is_lone o one ≡ true → is_lone o other ≡ true → table_start_of o one ≡ table_start_of o other → GoAlike o one other }
{}

/// Lone jumps.
#[derive(Drop)]
pub(crate) struct LoneJumps {
    /// The first one through each table, by where that begins.
    firsts: BTreeMap<Place, u32>,
    /// The others, ascending.
    pub(crate) alike: Vec<u32>,
}

impl LoneJumps {
    /// No jumps.
    pub(crate) fn new(alloc: Global) -> LoneJumps
        ensures none { (o : Coded) → AreLoneJumps o result 0 }
        ensures alike { result.alike.items ≡ [] }
    {
        LoneJumps {
            firsts: BTreeMap::new(alloc),
            alike: Vec::new(alloc),
        }
    }

    /// The first lone jump through the table that begins at a place.
    fn first(&self, start: Place) -> Option<u32>
        ensures { result ≡ get place_cmp self.now.firsts start }
    {
        Some(*self.firsts.get(&start)?)
    }

    /// Notes a point with this instruction, whose direct branch goes there, if it is a lone jump, and tells the first one
    /// through its table unless it is that.
    pub(crate) fn note(
        &mut self,
        points: &FlowPoints<'_, '_, '_>,
        n: u32,
        insn: Insn,
        to: Destination,
    ) -> Result<Option<u32>, NoMemory>
        requires jumps { AreLoneJumps points.now self.old n }
        requires point { n < count_of points.now }
        requires insn { insn ≡ insn_of_object points.now (point_at points.now n) }
        requires to { to ≡ destination_of points.now (point_at points.now n) }
        ensures jumps { OnOk result (AreLoneJumps points.now self.new (n + 1)) }
        ensures alike { IfOk result (λ found. MatchOption found (self.new.alike.items ≡ self.old.alike.items) (λ first. self.new.alike.items ≡ self.old.alike.items ++ n ∷ [])) }
        ensures first { IfOk result (λ found. IfSome found (HasEdgesOf points.now self.new.alike.items n)) }
    {
        if !is_lone_jump(points, n, insn, to) {
            return Ok(None);
        }
        let Some(start) = points.table_start(n) else {
            return Ok(None);
        };
        lone_jumps_go_alike();
        if let Some(first) = self.first(start) {
            self.alike.push(n)?;
            return Ok(Some(first));
        }
        self.firsts.insert(start, n)?;
        Ok(None)
    }
}
