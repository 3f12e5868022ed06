//! All edges of a point.

ghost use Rattle.std.specs.Prelude.{◌≡◌, ◌<◌, ◌++◌, length, All, OnOk};
ghost use Rattle.flow_defs.specs.Arrival.{insn_of_object};
ghost use Rattle.flow_defs.specs.Code.{point_at, points_of_object};
ghost use Rattle.flow_defs.specs.Edges.{goes};
ghost use Rattle.flow_defs.specs.Roles.{returns_through};
ghost use Rattle.flow_defs.specs.Targets.{destination_of};
ghost use Rattle.point_edges.specs.Jumps.{direct_way};

use crate::Branch;
use crate::branch_edges::{push_branch, push_table};
use crate::flow_points::FlowPoints;
use crate::next_edges::push_next;
use crate::way_edges::push_listed;
use machine_defs::{Edge, EdgeKind};
use operation_defs::Insn;
use ot_base::NoMemory;
use std::alloc::Global;

/// Pushes the edges of a point with this instruction, whose direct call or branch goes there: where execution goes on, those
/// to what follows it, and then those of its direct jump or its call within a function, of the static branches at it, of its
/// exception entries, and of its jump table. A point of an unchecked function has none.
///
/// # Errors
///
/// [`NoMemory`] may come at any point. What was pushed then isn't said.
pub fn push_edges(
    alloc: Global,
    points: &FlowPoints<'_, '_, '_>,
    n: u32,
    insn: Insn,
    branch: Branch,
    into: &mut Vec<Edge>,
) -> Result<(), NoMemory>
    requires point { n < length (points_of_object points.now) }
    requires insn { insn ≡ insn_of_object points.now (point_at points.now n) }
    requires to { branch.to ≡ destination_of points.now (point_at points.now n) }
    requires way { branch.way ≡ direct_way points.now (point_at points.now n) insn.op }
    requires through { branch.through ≡ returns_through points.now (point_at points.now n) }
    ensures pushed { OnOk result (into.new.items ≡ into.old.items ++ goes points.now (point_at points.now n)) }

    // Edges lead to points.
    ensures known { OnOk result (All (λ e. e.to < length (points_of_object points.now)) (goes points.now (point_at points.now n))) }
{
    if points.places().is_unchecked_point(n) {
        return Ok(());
    }
    push_next(alloc, points, n, insn, into)?;
    push_branch(alloc, points, n, insn, branch, into)?;
    let arrivals = points.arrivals();
    push_listed(
        alloc,
        points,
        EdgeKind::Taken,
        n,
        arrivals.static_targets(n),
        into,
    )?;
    push_listed(alloc, points, EdgeKind::Fixup, n, arrivals.fixups(n), into)?;
    push_table(alloc, points, n, insn, branch.to, into)
}
