//! From which points on a return may come: the least such set, found by rounds.

ghost use Rattle.std.specs.Prelude.{◌≡◌, List, Bool, IsTrue, true, false, slice_index_or};
ghost use Rattle.machine_defs.specs.Program.{is_call};
ghost use Rattle.machine_defs.specs.MayReturn.{code_may_return, is_listed, is_listed_by, is_listed_symbol, target_may_return};
ghost use Rattle.machine_defs.specs.Step.{may_go_back};
ghost use Rattle.program_model.specs.Program.{program_of};

use crate::{ModelPoint, Program};
use machine_defs::{EdgeKind, Role};
use std::alloc::{AllocError, Global};

/// Whether a role is that of a call.
pub fn is_call(role: Role) -> bool
    ensures { result ≡ is_call role }
{
    match role {
        Role::CallIn { .. } | Role::CallEither { .. } | Role::CallOut { .. } | Role::CallAny => {
            true
        }
        Role::Plain | Role::Return | Role::JumpOut { .. } | Role::JumpAny | Role::Switch => false,
    }
}

/// Whether the number is in a set, which is a flag for each point.
fn is_in(set: &[bool], q: u32) -> bool
    ensures { result ≡ slice_index_or set.now q false }
{
    match set.get(q as usize) {
        Some(flag) => *flag,
        None => false,
    }
}

/// Whether one of the points where control that comes to an entry may stand is in the set.
fn enters_set(p: &Program, set: &[bool], entry: u32) -> bool
    ensures { IsTrue result → code_may_return (program_of p.now set.now) (Role.CallIn entry) ≡ true }
{
    for q in 0..p.count() {
        if is_in(set, q) && p.enters(entry, q) {
            return true;
        }
    }
    false
}

/// Whether the name of a symbol is listed as one that never returns.
fn is_listed_symbol(p: &Program, symbol: Option<u32>) -> bool
    ensures { (set : List Bool) → result ≡ is_listed_symbol (program_of p.now set) symbol }
{
    match symbol {
        Some(symbol) => p.never_returns(symbol),
        None => false,
    }
}

/// Whether a call is told by a listed name: that of its symbol, or of the function whose start is its entry; or, where it
/// calls code of no function, that of the symbol by which it names it. What isn't a call isn't.
fn is_listed_by(p: &Program, named: Option<u32>, role: Role) -> bool
    ensures { (set : List Bool) → result ≡ is_listed_by (program_of p.now set) named role }
{
    match role {
        Role::CallIn { entry } => {
            is_listed_symbol(p, p.function(entry))
                || p.owner(entry).is_none() && is_listed_symbol(p, named)
        }
        Role::CallEither { entry, sym } => {
            p.never_returns(sym) || is_listed_symbol(p, p.function(entry))
        }
        Role::CallOut { sym } => p.never_returns(sym),
        _ => false,
    }
}

/// Whether a call is listed: told by a listed name, and not marked.
pub fn is_listed(p: &Program, q: u32) -> bool
    ensures { (set : List Bool) → result ≡ is_listed (program_of p.now set) q }
{
    !p.is_marked_call(q) && is_listed_by(p, p.names(q), p.role(q))
}

/// Whether a return may come from the code that a call goes to. What isn't a call of an entry passes.
fn code_may_return(p: &Program, set: &[bool], role: Role) -> bool
    ensures { IsTrue result → code_may_return (program_of p.now set.now) role ≡ true }
{
    match role {
        Role::CallIn { entry } => enters_set(p, set, entry),
        _ => true,
    }
}

/// Whether the target of a call may return: the call isn't listed, and it is marked, or a return may come from the code that
/// it goes to. What isn't a call passes.
pub fn target_may_return(p: &Program, set: &[bool], q: u32) -> bool
    ensures { IsTrue result → target_may_return (program_of p.now set.now) q ≡ true }
{
    if is_listed(p, q) {
        return false;
    }
    p.is_marked_call(q) || code_may_return(p, set, p.role(q))
}

/// Whether a point may leave its function: by a return, or by a jump to code outside that returns.
pub fn may_go_back(p: &Program, role: Role) -> bool
    ensures { (set : List Bool) → result ≡ may_go_back (program_of p.now set) role }
{
    match role {
        Role::Return | Role::JumpAny => true,
        Role::JumpOut { sym } => !p.never_returns(sym),
        _ => false,
    }
}

/// Whether a point belongs to the set because of those that are in it.
fn joins(p: &Program, set: &[bool], (q, point): (u32, &ModelPoint)) -> bool {
    if may_go_back(p, point.role) {
        return true;
    }
    let is_call = is_call(point.role);
    let mut comes_back = false;
    for edge in &point.goes {
        if is_in(set, edge.to) {
            if !is_call || edge.kind != EdgeKind::Next {
                return true;
            }
            comes_back = true;
        }
    }
    comes_back && !point.is_dead_end && target_may_return(p, set, q)
}

/// The set after another round.
fn another_round(alloc: Global, p: &Program, set: &[bool]) -> Result<Vec<bool>, AllocError> {
    let mut next = Vec::new(alloc);
    for q in 0..p.count() {
        if let Some(point) = p.point(q) {
            next.push(is_in(set, q) || joins(p, set, (q, point)))?;
        }
    }
    Ok(next)
}

/// For each point whether a return may come from it on.
pub fn may_return(alloc: Global, p: &Program) -> Result<Vec<bool>, AllocError> {
    let mut set = vec![in alloc; false; p.points.len()]?;
    // Each round but the last adds a point.
    for _ in 0..p.points.len() {
        set = another_round(alloc, p, set.as_slice())?;
    }
    Ok(set)
}
