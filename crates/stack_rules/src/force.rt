//! Which site point is in force at a place.

ghost use Rattle.std.specs.Prelude.{◌≡◌, ◌≤◌, ◌<◌, ℕ, true, false, not, All, AllPairs, Contains, IfSome, IfNone, length, slice_index_or};
ghost use Rattle.ot_base.specs.Places.{is_before as is_lower};
ghost use Rattle.machine_defs.specs.Program.{Program};
ghost use Rattle.program_graph.specs.Tells.{Tells};
ghost use Rattle.stack_rules.specs.Points.{ComesBefore, address_by_number as address_by_number_of};
ghost use Rattle.stack_rules.specs.Disagree.{IsInForceAt, ahead_of};

use crate::address_by_number;
use ot_base::{Place, is_before};
use program_graph::Graph;

/// Whether a place is at most some bytes behind another one.
fn is_up_to(place: Place, address: Place, ahead: u8) -> bool
    ensures { result ≡ not (is_lower (ahead_of address ahead) place) }
{
    place.sec < address.sec
        || place.sec == address.sec && place.off.saturating_sub(address.off) <= u64::from(ahead)
}

/// Whether a point runs at most some bytes behind an address.
fn runs_up_to(graph: &Graph, n: u32, address: Place, ahead: u8) -> bool
    ensures { (p : Program) → Tells p graph.now.parts → result ≡ not (is_lower (ahead_of address ahead) (address_by_number_of p n)) }
{
    is_up_to(address_by_number(graph, n), address, ahead)
}

/// Whether a point runs before an address.
fn runs_before(graph: &Graph, n: u32, address: Place) -> bool
    ensures { (p : Program) → Tells p graph.now.parts → result ≡ is_lower (address_by_number_of p n) address }
{
    is_before(address_by_number(graph, n), address)
}

/// How many of these run up to some bytes behind an address.
fn count_up_to(graph: &Graph, points: &[u32], address: Place, ahead: u8) -> usize
    requires { All (λ q. q < length graph.now.parts.points.items) points.now }
    ensures within { result ≤ length points.now }
    ensures up_to { (p : Program) → Tells p graph.now.parts → AllPairs (ComesBefore p) points.now → (k d : ℕ) → k < result → is_lower (ahead_of address ahead) (p.address (slice_index_or points.now k d)) ≡ false }
    ensures behind { (p : Program) → Tells p graph.now.parts → AllPairs (ComesBefore p) points.now → (k d : ℕ) → result ≤ k → k < length points.now → is_lower (ahead_of address ahead) (p.address (slice_index_or points.now k d)) ≡ true }
{
    points.partition_point(|n| runs_up_to(graph, *n, address, ahead))
}

/// How many of these run before an address.
fn count_before(graph: &Graph, points: &[u32], address: Place) -> usize
    requires { All (λ q. q < length graph.now.parts.points.items) points.now }
    ensures within { result ≤ length points.now }
    ensures before { (p : Program) → Tells p graph.now.parts → AllPairs (ComesBefore p) points.now → (k d : ℕ) → k < result → is_lower (p.address (slice_index_or points.now k d)) address ≡ true }
    ensures from { (p : Program) → Tells p graph.now.parts → AllPairs (ComesBefore p) points.now → (k d : ℕ) → result ≤ k → k < length points.now → is_lower (p.address (slice_index_or points.now k d)) address ≡ false }
{
    points.partition_point(|n| runs_before(graph, *n, address))
}

/// The point that is in force some bytes behind an address: of those at the last address up to there the first.
///
/// Two searches by halving.
pub(crate) fn in_force(graph: &Graph, points: &[u32], address: Place, ahead: u8) -> Option<u32>
    requires { All (λ q. q < length graph.now.parts.points.items) points.now }
    ensures listed { IfSome result (λ y. Contains points.now y) }
    ensures some { (p : Program) → Tells p graph.now.parts → AllPairs (ComesBefore p) points.now → IfSome result (λ y. IsInForceAt p points.now (ahead_of address ahead) y) }
    ensures none { (p : Program) → Tells p graph.now.parts → AllPairs (ComesBefore p) points.now → IfNone result ((y : ℕ) → IsInForceAt p points.now (ahead_of address ahead) y → ⊥) }
{
    let count = count_up_to(graph, points, address, ahead);
    if count == 0 {
        return None;
    }
    let last = graph.address(points[count - 1]);
    let first = count_before(graph, points, last);
    if first < points.len() {
        Some(points[first])
    } else {
        None
    }
}
