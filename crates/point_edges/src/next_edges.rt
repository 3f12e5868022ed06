//! Whether execution goes on behind a point, and the edges to what follows.

ghost use Rattle.std.specs.Prelude.{◌≡◌, ◌<◌, ◌++◌, length, OnOk};
ghost use Rattle.flow_defs.specs.Arrival.{insn_of_object};
ghost use Rattle.flow_defs.specs.Code.{point_at, points_of_object};
ghost use Rattle.flow_defs.specs.Edges.{ends_flow as ends_flow_by, goes_on as goes_on_of, next_edges};

use crate::flow_points::FlowPoints;
use crate::way_edges::push_after;
use machine_defs::{Edge, EdgeKind};
use operation_defs::{Insn, Op};
use ot_base::NoMemory;
use std::alloc::Global;

/// Whether execution doesn't go on behind an operation: an unconditional or indirect jump, a call within a function, a
/// return, or a way out of the code.
fn ends_flow(op: Op) -> bool
    ensures { result ≡ ends_flow_by op }
{
    matches!(
        op,
        Op::Jmp { .. } | Op::JmpInd { .. } | Op::Hop | Op::Ret | Op::RetImm | Op::Iret | Op::Switch
    )
}

/// Whether execution goes on behind a point with this instruction: always behind the code of a static branch, and else
/// where the operation lets it and the point is no dead end.
pub(crate) fn goes_on(points: &FlowPoints<'_, '_, '_>, n: u32, insn: Insn) -> bool
    requires point { n < length (points_of_object points.now) }
    requires insn { insn ≡ insn_of_object points.now (point_at points.now n) }
    ensures { result ≡ goes_on_of points.now (point_at points.now n) }
{
    let arrivals = points.arrivals();
    if !arrivals.static_targets(n).is_empty() {
        return true;
    }
    !ends_flow(insn.op) && !arrivals.is_dead_end(n)
}

/// Pushes the edges of a point with this instruction to what follows it, where execution goes on.
pub(crate) fn push_next(
    alloc: Global,
    points: &FlowPoints<'_, '_, '_>,
    n: u32,
    insn: Insn,
    into: &mut Vec<Edge>,
) -> Result<(), NoMemory>
    requires point { n < length (points_of_object points.now) }
    requires insn { insn ≡ insn_of_object points.now (point_at points.now n) }
    ensures { OnOk result (into.new.items ≡ into.old.items ++ next_edges points.now (point_at points.now n)) }
{
    if !goes_on(points, n, insn) {
        return Ok(());
    }
    push_after(alloc, points, EdgeKind::Next, n, into)
}
