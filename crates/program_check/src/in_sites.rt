//! The rows in sites whose original code is kept.

ghost use Rattle.std.specs.Prelude.{◌≡◌, ◌≢◌, ◌<◌, false, All, IfOk, IsTrue, Some, length};
ghost use Rattle.machine_defs.specs.Program.{Program};
ghost use Rattle.program_graph.specs.Tells.{Tells};
ghost use Rattle.program_check.specs.Changes.{AreFirstOf};

use ot_base::{NoMemory, Place};
use program_graph::Graph;
use std::alloc::Global;

/// Whether a point runs elsewhere than the one before it, if there is one.
fn is_first(before: Option<Place>, address: Place) -> bool
    ensures first { IsTrue result → before ≢ Some address }
    ensures other { result ≡ false → before ≡ Some address }
{
    match before {
        Some(last) => last != address,
        None => true,
    }
}

/// Of points by their addresses the first at each address.
pub(crate) fn first_points(
    alloc: Global,
    graph: &Graph,
    points: &[u32],
) -> Result<Vec<u32>, NoMemory>
    requires { All (λ q. q < length graph.now.parts.points.items) points.now }
    ensures within { IfOk result (λ firsts. All (λ q. q < length graph.now.parts.points.items) firsts.items) }
    ensures first { IfOk result (λ firsts. (p : Program) → Tells p graph.now.parts → AreFirstOf p points.now firsts.items) }
{
    let mut firsts = Vec::new(alloc);
    let mut before: Option<Place> = None;
    for i in 0..points.len() {
        let address = graph.address(points[i]);
        if is_first(before, address) {
            firsts.push(points[i])?;
        }
        before = Some(address);
    }
    Ok(firsts)
}
