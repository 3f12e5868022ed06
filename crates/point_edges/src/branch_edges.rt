//! The edges of direct and indirect jumps.

ghost use Rattle.std.specs.Prelude.{◌≡◌, ◌<◌, ◌++◌, length, OnOk};
ghost use Rattle.flow_defs.specs.Arrival.{insn_of_object};
ghost use Rattle.flow_defs.specs.Code.{point_at, points_of_object};
ghost use Rattle.flow_defs.specs.Edges.{branch_edges, branch_edges_by, jump_edges, table_edges};
ghost use Rattle.flow_defs.specs.Roles.{returns_through};
ghost use Rattle.flow_defs.specs.Targets.{destination_of};
ghost use Rattle.point_edges.specs.Jumps.{direct_way, edges_along};

use crate::Branch;
use crate::flow_points::FlowPoints;
use crate::same_owner::is_same_owner;
use crate::way_edges::{push_entries, push_way};
use alternatives::Point;
use flow_defs::Destination;
use machine_defs::{Edge, EdgeKind};
use operation_defs::{Insn, Op};
use ot_base::NoMemory;
use std::alloc::Global;

/// Pushes the edges of a direct jump to another point of its replacement.
fn push_within(
    points: &FlowPoints<'_, '_, '_>,
    n: u32,
    other: Point,
    into: &mut Vec<Edge>,
) -> Result<(), NoMemory>
    requires { n < length (points_of_object points.now) }
    ensures { OnOk result (into.new.items ≡ into.old.items ++ jump_edges points.now (point_at points.now n) (Destination.ToOwnPoint other)) }
{
    let places = points.places();
    let Some(to) = places.number_of(other) else {
        return Ok(());
    };
    if is_same_owner(places.owner(n), places.owner(to)) {
        let kind = EdgeKind::Taken;
        into.push(Edge { to, kind })?;
    }
    Ok(())
}

/// Pushes the edges of a jump, or of a call within a function, by where it goes.
fn push_along(
    alloc: Global,
    points: &FlowPoints<'_, '_, '_>,
    n: u32,
    branch: Branch,
    into: &mut Vec<Edge>,
) -> Result<(), NoMemory>
    requires { n < length (points_of_object points.now) }
    ensures { OnOk result (into.new.items ≡ into.old.items ++ edges_along points.now (point_at points.now n) branch.way branch.to) }
{
    match branch.to {
        Destination::ToPlace { place, .. } => {
            push_way(alloc, points, n, place, branch.way, branch.guess, into)
        }
        Destination::ToOwnPoint(other) => push_within(points, n, other, into),
        Destination::ToOutside(_)
        | Destination::ToIndirectThunk
        | Destination::ToReturnThunk
        | Destination::ToNowhere => Ok(()),
    }
}

/// Pushes the edges of the direct jump or the call within a function at a point with this operation, which goes there. Any
/// other instruction has none.
fn push_by(
    alloc: Global,
    points: &FlowPoints<'_, '_, '_>,
    n: u32,
    op: Op,
    branch: Branch,
    into: &mut Vec<Edge>,
) -> Result<(), NoMemory>
    requires point { n < length (points_of_object points.now) }
    requires to { branch.to ≡ destination_of points.now (point_at points.now n) }
    requires way { branch.way ≡ direct_way points.now (point_at points.now n) op }
    ensures { OnOk result (into.new.items ≡ into.old.items ++ branch_edges_by points.now (point_at points.now n) op) }
{
    match op {
        Op::Jmp { .. } | Op::Jcc { .. } | Op::Hop => push_along(alloc, points, n, branch, into),
        _ => Ok(()),
    }
}

/// Pushes the edges of the direct jump or the call within a function at a point with this instruction, which goes there. Any
/// other instruction has none, and neither has one that returns through code that returns for its caller.
pub(crate) fn push_branch(
    alloc: Global,
    points: &FlowPoints<'_, '_, '_>,
    n: u32,
    insn: Insn,
    branch: Branch,
    into: &mut Vec<Edge>,
) -> Result<(), NoMemory>
    requires point { n < length (points_of_object points.now) }
    requires insn { insn ≡ insn_of_object points.now (point_at points.now n) }
    requires to { branch.to ≡ destination_of points.now (point_at points.now n) }
    requires way { branch.way ≡ direct_way points.now (point_at points.now n) insn.op }
    requires through { branch.through ≡ returns_through points.now (point_at points.now n) }
    ensures { OnOk result (into.new.items ≡ into.old.items ++ branch_edges points.now (point_at points.now n)) }
{
    if branch.through.is_some() {
        return Ok(());
    }
    push_by(alloc, points, n, insn.op, branch, into)
}

/// Pushes the edges of an indirect jump through its table, which goes `to` there by its direct jump. A point without a table
/// has none.
pub(crate) fn push_table(
    alloc: Global,
    points: &FlowPoints<'_, '_, '_>,
    n: u32,
    insn: Insn,
    to: Destination,
    into: &mut Vec<Edge>,
) -> Result<(), NoMemory>
    requires point { n < length (points_of_object points.now) }
    requires insn { insn ≡ insn_of_object points.now (point_at points.now n) }
    requires to { to ≡ destination_of points.now (point_at points.now n) }
    ensures { OnOk result (into.new.items ≡ into.old.items ++ table_edges points.now (point_at points.now n)) }
{
    push_entries(alloc, points, n, points.table_by(n, insn.op, to), into)
}
