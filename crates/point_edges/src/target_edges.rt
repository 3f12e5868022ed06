//! All targets of points.

ghost use Rattle.std.specs.Prelude.{◌≡◌, ◌<◌, ◌||◌, length};
ghost use Rattle.std.specs.List.{list_any};
ghost use Rattle.flow_defs.specs.Arrival.{insn_of_object};
ghost use Rattle.flow_defs.specs.Code.{point_at, points_of_object};
ghost use Rattle.flow_defs.specs.Edges.{fixups as fixups_of, static_targets as static_targets_of};
ghost use Rattle.flow_defs.specs.Marks.{branch_places, is_bad_branch as is_bad_branch_of, has_bad_target as has_a_bad_target, has_target_in_site as has_a_target_in_site, is_bad_listed as is_bad_among, listed_places};
ghost use Rattle.flow_defs.specs.Roles.{returns_through, table_of_point};
ghost use Rattle.flow_defs.specs.Sites.{is_into_site as comes_into_site};
ghost use Rattle.flow_defs.specs.Targets.{destination_of};
ghost use Rattle.point_edges.specs.Jumps.{direct_way};

use crate::Branch;
use crate::bad_targets::{is_bad_branch, is_bad_listed};
use crate::flow_points::FlowPoints;
use crate::into_sites::{branch_enters, listed_enter, table_enters};
use flow_defs::Destination;
use machine_defs::EdgeKind;
use operation_defs::Insn;

/// Whether a static branch or an exception entry at a point leads to a place that is none to go to.
fn has_bad_entry(points: &FlowPoints<'_, '_, '_>, n: u32) -> bool
    requires { n < length (points_of_object points.now) }
    ensures { let point = point_at points.now n in result ≡ (is_bad_among points.now EdgeKind.Taken point (static_targets_of points.now point) || is_bad_among points.now EdgeKind.Fixup point (fixups_of points.now point)) }
{
    let places = points.places();
    let arrivals = points.arrivals();
    is_bad_listed(places, EdgeKind::Taken, n, arrivals.static_targets(n))
        || is_bad_listed(places, EdgeKind::Fixup, n, arrivals.fixups(n))
}

/// Whether the direct call or jump of a point with this instruction goes to a place that is none to go to, unless it returns
/// through code that returns for its caller.
fn is_bad_unless_through(
    points: &FlowPoints<'_, '_, '_>,
    n: u32,
    insn: Insn,
    branch: Branch,
) -> bool
    requires point { n < length (points_of_object points.now) }
    requires insn { insn ≡ insn_of_object points.now (point_at points.now n) }
    requires to { branch.to ≡ destination_of points.now (point_at points.now n) }
    requires way { branch.way ≡ direct_way points.now (point_at points.now n) insn.op }
    requires through { branch.through ≡ returns_through points.now (point_at points.now n) }
    ensures { result ≡ is_bad_branch_of points.now (point_at points.now n) }
{
    branch.through.is_none() && is_bad_branch(points, n, insn.op, branch)
}

/// Whether the direct call or jump of a point with this instruction comes into a site, unless it returns through code that
/// returns for its caller.
fn enters_unless_through(
    points: &FlowPoints<'_, '_, '_>,
    n: u32,
    insn: Insn,
    branch: Branch,
) -> bool
    requires point { n < length (points_of_object points.now) }
    requires insn { insn ≡ insn_of_object points.now (point_at points.now n) }
    requires to { branch.to ≡ destination_of points.now (point_at points.now n) }
    requires way { branch.way ≡ direct_way points.now (point_at points.now n) insn.op }
    requires through { branch.through ≡ returns_through points.now (point_at points.now n) }
    ensures { result ≡ list_any (comes_into_site points.now (point_at points.now n)) (branch_places points.now (point_at points.now n)) }
{
    branch.through.is_none() && branch_enters(points, n, insn.op, branch)
}

/// Whether a target of a point with this instruction, whose direct call or branch goes there, is no place to go.
pub(crate) fn has_bad_target(
    points: &FlowPoints<'_, '_, '_>,
    n: u32,
    insn: Insn,
    branch: Branch,
) -> bool
    requires point { n < length (points_of_object points.now) }
    requires insn { insn ≡ insn_of_object points.now (point_at points.now n) }
    requires to { branch.to ≡ destination_of points.now (point_at points.now n) }
    requires way { branch.way ≡ direct_way points.now (point_at points.now n) insn.op }
    requires through { branch.through ≡ returns_through points.now (point_at points.now n) }
    ensures { result ≡ has_a_bad_target points.now (point_at points.now n) }
{
    is_bad_unless_through(points, n, insn, branch) || has_bad_entry(points, n)
}

/// Whether a static branch or an exception entry at a point leads into a site.
fn has_entry_in_site(points: &FlowPoints<'_, '_, '_>, n: u32) -> bool
    requires { n < length (points_of_object points.now) }
    ensures { let point = point_at points.now n in result ≡ (list_any (comes_into_site points.now point) (listed_places points.now EdgeKind.Taken point (static_targets_of points.now point)) || list_any (comes_into_site points.now point) (listed_places points.now EdgeKind.Fixup point (fixups_of points.now point))) }
{
    let places = points.places();
    let arrivals = points.arrivals();
    listed_enter(places, EdgeKind::Taken, n, arrivals.static_targets(n))
        || listed_enter(places, EdgeKind::Fixup, n, arrivals.fixups(n))
}

/// Whether the jump table of a point with this instruction, whose direct jump goes `to` there, a static branch or an exception
/// entry at it leads into a site.
fn leads_into_site(points: &FlowPoints<'_, '_, '_>, n: u32, insn: Insn, to: Destination) -> bool
    requires point { n < length (points_of_object points.now) }
    requires insn { insn ≡ insn_of_object points.now (point_at points.now n) }
    requires to { to ≡ destination_of points.now (point_at points.now n) }
    ensures { let point = point_at points.now n in result ≡ (list_any (comes_into_site points.now point) (table_of_point points.now point) || (list_any (comes_into_site points.now point) (listed_places points.now EdgeKind.Taken point (static_targets_of points.now point)) || list_any (comes_into_site points.now point) (listed_places points.now EdgeKind.Fixup point (fixups_of points.now point)))) }
{
    table_enters(points, n, insn, to) || has_entry_in_site(points, n)
}

/// Whether a target of a point with this instruction, whose direct call or branch goes there, lies in a site, past its start,
/// and the point is none of that site's original code.
pub(crate) fn has_target_in_site(
    points: &FlowPoints<'_, '_, '_>,
    n: u32,
    insn: Insn,
    branch: Branch,
) -> bool
    requires point { n < length (points_of_object points.now) }
    requires insn { insn ≡ insn_of_object points.now (point_at points.now n) }
    requires to { branch.to ≡ destination_of points.now (point_at points.now n) }
    requires way { branch.way ≡ direct_way points.now (point_at points.now n) insn.op }
    requires through { branch.through ≡ returns_through points.now (point_at points.now n) }
    ensures { result ≡ has_a_target_in_site points.now (point_at points.now n) }
{
    enters_unless_through(points, n, insn, branch) || leads_into_site(points, n, insn, branch.to)
}
