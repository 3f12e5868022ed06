//! From which points of a program a return may come.

ghost use Rattle.std.specs.Prelude.{◌≡◌, IfOk};
ghost use Rattle.machine_defs.specs.Program.{Program};
ghost use Rattle.machine_defs.specs.IsProgram.{IsProgram};
ghost use Rattle.return_search.specs.Told.{TellsFlow, TellsReturns};
ghost use Rattle.return_search.specs.Shape.{HasShape, HaveShape, points_of};

use crate::kept_edges::drop_edges;
use crate::return_search::Search;
use crate::searched_flow::Flow;
use crate::spreading::spread;
use crate::stored::StoredEntry;
use machine_defs::Edge;
use ot_base::NoMemory;
use std::alloc::Global;

/// From which points of a program a return may come, its edges without the Next of a call that can't come back, and what
/// else its flow told of its points.
#[derive(Drop)]
pub struct Returns {
    /// Whether a return may come from a point on.
    pub may_return: Vec<bool>,
    /// Whether the target of a point's call may return; true of what isn't a call.
    pub comes_back: Vec<bool>,
    /// For each point, and once more behind the last, where in the list of edges its own begin. They end where
    /// those of the next begin.
    pub starts: Vec<u32>,
    /// The edges of all points, in the order of the points, without the Next of a call that can't come back. Where the
    /// flow had one edge in place of those of a point, it stands here too.
    pub edges: Vec<Edge>,
    /// Whether execution never passes a point, as the flow told it.
    pub dead_ends: Vec<bool>,
    /// For each point, the entry at which control may come to stand at it, if there is one, as the flow told it.
    pub entered: Vec<StoredEntry>,
}

/// Finds from which points of a program a return may come, backwards over its edges, and drops the Next of each call that
/// can't come back.
///
/// Where points share the edges of one jump table, a single one needs to have them in the flow. An edge of a table that
/// leads there carries the same returns to each other.
///
/// Each point is looked at once and each edge a few times. The edges that stay take the place of the flow's. Beside the
/// result it takes some 10 bytes a point, and 16 for each call of an entry and each edge that doesn't lead right behind its
/// point, and gives them back.
// Apart, so that its loops and its callers' share no registers.
#[inline(never)]
pub fn find_returns(alloc: Global, flow: Flow) -> Result<Returns, NoMemory>
    requires { HasShape flow }
    ensures shape { IfOk result (HaveShape (points_of flow)) }
    ensures dead_ends { IfOk result (λ returns. returns.dead_ends ≡ flow.dead_ends) }
    ensures entered { IfOk result (λ returns. returns.entered ≡ flow.entered) }
    ensures told { (p : Program) → TellsFlow p flow → IsProgram p → IfOk result (TellsReturns p flow) }
{
    let Search { found, known, .. } = spread(alloc, &flow)?;
    let mut comes_back = vec![in alloc; true; flow.exits.len()]?;
    let mut kept = flow;
    drop_edges(&mut kept, &known, &mut comes_back);
    let Flow {
        starts,
        edges,
        dead_ends,
        entered,
        ..
    } = kept;
    Ok(Returns {
        may_return: found,
        comes_back,
        starts,
        edges,
        dead_ends,
        entered,
    })
}
