//! How ways lead on from a point: whether it may leave whatever its stack is, and whether a hint follows right behind it.

ghost use Rattle.std.specs.Prelude.{◌≡◌, ◌||◌, not, List, Bool};
ghost use Rattle.std.specs.List.{list_any, list_all};
ghost use Rattle.machine_defs.specs.Kept.{is_free};
ghost use Rattle.machine_defs.specs.Ways.{drops_bytes, is_fixup, is_next, is_sibling, leads_out, may_leave};
ghost use Rattle.program_model.specs.Program.{program_of};
ghost use Rattle.program_model.specs.Ways.{is_joined, leads_outside, leaves, leads_to_hint, lead_to_hints};

use crate::{ModelPoint, Program};
use machine_defs::{Edge, EdgeKind, Role};
use operation_defs::Op;
use state_defs::HintState;

/// Whether a role leads out of a function: back to the caller, or to code outside.
fn leads_out(role: Role) -> bool
    ensures { result ≡ leads_out role }
{
    matches!(role, Role::Return | Role::JumpOut { .. } | Role::JumpAny)
}

/// Whether an operation is a return that drops bytes.
fn drops_bytes(op: Op) -> bool
    ensures { result ≡ drops_bytes op }
{
    matches!(op, Op::RetImm)
}

/// Whether one of these edges leads to another function.
fn has_sibling(edges: &[Edge]) -> bool
    ensures { result ≡ list_any (λ e. is_sibling e.kind) edges.now }
{
    edges
        .iter()
        .any(|edge| matches!(edge.kind, EdgeKind::Sibling))
}

/// Whether each of these edges leads to another function, or to the next instruction.
fn lead_away_or_on(edges: &[Edge]) -> bool
    ensures { result ≡ list_all (λ e. is_sibling e.kind || is_next e.kind) edges.now }
{
    edges.iter().all(|edge| matches!(edge.kind, EdgeKind::Sibling | EdgeKind::Next))
}

/// Whether a point returns or jumps outside without dropping bytes, and goes to no function of the program.
fn leads_outside(point: &ModelPoint) -> bool
    ensures { result ≡ leads_outside point.now }
{
    leads_out(point.role) && !drops_bytes(point.insn.op) && !has_sibling(point.goes.as_slice())
}

/// Whether a point is a joined jump: it names a symbol, leads to another function, and nowhere else but to what follows it.
fn is_joined(point: &ModelPoint) -> bool
    ensures { result ≡ is_joined point.now }
{
    point.names.is_some()
        && has_sibling(point.goes.as_slice())
        && lead_away_or_on(point.goes.as_slice())
}

/// Whether code may leave at this point, whatever its stack is: it is of no function, or loose, and leads outside or is a joined
/// jump.
fn leaves(point: &ModelPoint) -> bool
    ensures { result ≡ leaves point.now }
{
    (point.owner.is_none() || point.is_loose) && (leads_outside(point) || is_joined(point))
}

/// Whether code may leave at a point, whatever its stack is.
pub fn may_leave(p: &Program, q: u32) -> bool
    ensures { (set : List Bool) → result ≡ may_leave (program_of p.now set) q }
{
    match p.point(q) {
        Some(point) => leaves(point),
        None => false,
    }
}

/// Whether states come in along edges where this hint stands: neither Set nor RESTORE.
pub fn is_free(hint: Option<HintState>) -> bool
    ensures { result ≡ is_free hint }
{
    matches!(hint, None | Some(HintState::Save))
}

/// Whether an edge leads to a fixup.
fn is_fixup(kind: EdgeKind) -> bool
    ensures { result ≡ is_fixup kind }
{
    matches!(kind, EdgeKind::Fixup)
}

/// Whether one of these edges doesn't lead to a fixup.
fn has_way_on(edges: &[Edge]) -> bool
    ensures { result ≡ list_any (λ e. not (is_fixup e.kind)) edges.now }
{
    edges.iter().any(|edge| !is_fixup(edge.kind))
}

/// Whether an edge leads to a point at which a hint sets or restores the state. One to a fixup passes.
fn leads_to_hint(p: &Program, edge: Edge) -> bool
    ensures { result ≡ leads_to_hint p.now edge }
{
    is_fixup(edge.kind) || !is_free(p.hint(edge.to))
}

/// Whether each of these edges does.
fn each_leads_to_hint(p: &Program, edges: &[Edge]) -> bool
    ensures { result ≡ list_all (leads_to_hint p.now) edges.now }
{
    for edge in edges {
        if !leads_to_hint(p, *edge) {
            return false;
        }
    }
    true
}

/// Whether a hint follows right behind a point with these edges: each way on leads to a point at which a hint sets or
/// restores the state.
pub fn lead_to_hints(p: &Program, edges: &[Edge]) -> bool
    ensures { result ≡ lead_to_hints p.now edges.now }
{
    has_way_on(edges) && each_leads_to_hint(p, edges)
}
