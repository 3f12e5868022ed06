//! Whether user access may be on where control comes to a point.

ghost use Rattle.std.specs.Prelude.{◌≡◌};
ghost use Rattle.machine_defs.specs.Access.{access_after, access_along};

use crate::allowed::Allowed;
use machine_defs::{Edge, EdgeKind};
use operation_defs::Op;
use program_model::{Program, may_return, target_may_return};
use state_defs::{HintState, State};
use std::alloc::{AllocError, Global};

/// A point to which control comes with user access on or off, in a frame whose function expects it on or off.
#[derive(Clone, Copy, PartialEq)]
pub struct Reached {
    pub point: u32,
    pub access: bool,
    pub home: bool,
}

/// User access behind an instruction.
fn access_after(op: Op, access: bool) -> bool
    ensures { result ≡ access_after op access }
{
    match op {
        Op::Stac => true,
        Op::Clac => false,
        _ => access,
    }
}

/// User access at the end of an edge; an instruction that faults has done nothing.
fn access_along(kind: EdgeKind, op: Op, access: bool) -> bool
    ensures { result ≡ access_along kind op access }
{
    match kind {
        EdgeKind::Next | EdgeKind::Taken | EdgeKind::Table => access_after(op, access),
        EdgeKind::Fixup | EdgeKind::Sibling => access,
    }
}

/// The edges of a point, without the Next of a call that can't come back. The set is of the points from which a return
/// may come.
fn edges_of(alloc: Global, p: &Program, set: &[bool], q: u32) -> Result<Vec<Edge>, AllocError> {
    let mut edges = Vec::new(alloc);
    if let Some(point) = p.point(q) {
        let comes_back = target_may_return(p, set, q);
        for edge in &point.goes {
            if comes_back || edge.kind != EdgeKind::Next {
                edges.push(*edge)?;
            }
        }
    }
    Ok(edges)
}

/// Adds one, but where a processor with SMAP has other code.
fn add(reached: &mut Vec<Reached>, allowed: &Allowed<'_>, one: Reached) -> Result<(), AllocError> {
    if !allowed.lacks_smap(one.point) && !reached.contains(&one) {
        reached.push(one)?;
    }
    Ok(())
}

/// Whether a hint stands at the own place of a point of no function.
fn is_free_hint(p: &Program, q: u32) -> bool {
    p.point(q)
        .is_some_and(|point| point.has_own_hint && point.owner.is_none())
}

/// Whether calls may come to a point of no function: a hint that counts there tells a call frame, or ends the stack.
fn is_called(p: &Program, q: u32) -> bool {
    p.point(q).is_some_and(|point| {
        let is_told = matches!(
            point.hint,
            Some(HintState::Set(State::Live { .. } | State::Ended(_)))
        );
        is_told && point.owner.is_none()
    })
}

/// Where control comes from outside: to the entries, with user access as their function expects it, and to the hints in
/// code of no function, with user access off.
fn first(alloc: Global, p: &Program, allowed: &Allowed<'_>) -> Result<Vec<Reached>, AllocError> {
    let mut reached = Vec::new(alloc);
    for point in 0..p.count() {
        for entry in &p.entries {
            if p.enters(*entry, point) {
                let home = allowed.is_safe(p, *entry);
                add(
                    &mut reached,
                    allowed,
                    Reached {
                        point,
                        access: home,
                        home,
                    },
                )?;
            }
        }
        let free = Reached {
            point,
            access: false,
            home: false,
        };
        if is_free_hint(p, point) && !reached.contains(&free) {
            reached.push(free)?;
        }
        if is_called(p, point) {
            add(&mut reached, allowed, free)?;
        }
    }
    Ok(reached)
}

/// What is reached along one edge more.
fn another_round(
    alloc: Global,
    p: &Program,
    allowed: &Allowed<'_>,
    set: &[bool],
    reached: &[Reached],
) -> Result<Vec<Reached>, AllocError> {
    let mut next = reached.to_vec(alloc)?;
    for from in reached {
        for edge in &edges_of(alloc, p, set, from.point)? {
            if edge.kind != EdgeKind::Sibling {
                let op = p.insn(from.point).op;
                let one = Reached {
                    point: edge.to,
                    access: access_along(edge.kind, op, from.access),
                    home: from.home,
                };
                add(&mut next, allowed, one)?;
            }
        }
    }
    Ok(next)
}

/// All that is reached, each once.
pub fn all_reached(
    alloc: Global,
    p: &Program,
    allowed: &Allowed<'_>,
) -> Result<Vec<Reached>, AllocError> {
    let set = may_return(alloc, p)?;
    let mut all = first(alloc, p, allowed)?;
    // Each round but the last adds one, and each point has at most four.
    for _ in 0..4 {
        for _ in 0..p.count() {
            all = another_round(alloc, p, allowed, set.as_slice(), all.as_slice())?;
        }
    }
    Ok(all)
}
