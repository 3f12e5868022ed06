//! The rules of user access.

use crate::allowed::Allowed;
use crate::reached::{Reached, all_reached};
use machine_defs::{EdgeKind, Role};
use operation_defs::Op;
use ot_base::Warning;
use ot_base::rules::{
    ACCESS_OFF_TWICE, ACCESS_ON_TWICE, POPF_WITH_ACCESS_TRACKED, RETURN_WITH_ACCESS,
    RETURN_WITHOUT_ACCESS, SAFE_FUNCTION_ACCESS_OFF,
};
use program_model::{ModelPoint, Program};
use std::alloc::{AllocError, Global};

/// The number by which a warning tells an indirect target, or code of no function.
const NO_FUNCTION: i64 = -1;

/// A symbol by its number, where its name isn't listed.
fn push_unsafe_name(
    callees: &mut Vec<i64>,
    allowed: &Allowed<'_>,
    sym: u32,
) -> Result<(), AllocError> {
    if !allowed.is_safe_name(sym) {
        callees.push(i64::from(sym))?;
    }
    Ok(())
}

/// The function of a point by its number, where the point isn't in a safe one, or none where it is of none.
fn push_unsafe_function(
    callees: &mut Vec<i64>,
    p: &Program,
    allowed: &Allowed<'_>,
    q: u32,
) -> Result<(), AllocError> {
    if !allowed.is_safe(p, q) {
        callees.push(p.function(q).map_or(NO_FUNCTION, i64::from))?;
    }
    Ok(())
}

/// What a point calls, or jumps to in another function, that isn't safe.
fn unsafe_callees(
    alloc: Global,
    p: &Program,
    allowed: &Allowed<'_>,
    point: &ModelPoint,
) -> Result<Vec<i64>, AllocError> {
    let mut callees = Vec::new(alloc);
    match point.role {
        Role::CallIn { entry } => push_unsafe_function(&mut callees, p, allowed, entry)?,
        Role::CallEither { entry, sym } => {
            push_unsafe_function(&mut callees, p, allowed, entry)?;
            push_unsafe_name(&mut callees, allowed, sym)?;
        }
        Role::CallOut { sym } | Role::JumpOut { sym } => {
            push_unsafe_name(&mut callees, allowed, sym)?;
        }
        Role::CallAny | Role::JumpAny => callees.push(NO_FUNCTION)?,
        Role::Plain | Role::Return | Role::Switch => {}
    }
    for edge in &point.goes {
        if edge.kind == EdgeKind::Sibling {
            push_unsafe_function(&mut callees, p, allowed, edge.to)?;
        }
    }
    Ok(callees)
}

/// Whether a point leaves its function: by a return, by a jump to another one, or by one outside.
fn leaves_function(point: &ModelPoint) -> bool {
    match point.role {
        Role::Return | Role::JumpOut { .. } | Role::JumpAny => true,
        _ => point.goes.iter().any(|edge| edge.kind == EdgeKind::Sibling),
    }
}

/// The rule that a point breaks by leaving its function.
fn broken_by_leaving(point: &ModelPoint, access: bool, home: bool) -> Option<u8> {
    match (leaves_function(point), access, home) {
        (true, true, false) => Some(RETURN_WITH_ACCESS),
        (true, false, true) => Some(RETURN_WITHOUT_ACCESS),
        _ => None,
    }
}

/// The rule that an instruction breaks which turns user access on or off, or may. Code of no function may turn it off where it
/// is off, and a popf leaves it off.
fn broken_by_turning(point: &ModelPoint, access: bool, home: bool) -> Option<u8> {
    match point.insn.op {
        Op::Stac if access => Some(ACCESS_ON_TWICE),
        Op::Clac if home => Some(SAFE_FUNCTION_ACCESS_OFF),
        Op::Clac if !access && point.owner.is_some() => Some(ACCESS_OFF_TWICE),
        Op::Popf if access => Some(POPF_WITH_ACCESS_TRACKED),
        _ => None,
    }
}

/// The warnings at what is reached.
fn warnings_at(
    warnings: &mut Vec<Warning>,
    alloc: Global,
    p: &Program,
    allowed: &Allowed<'_>,
    one: Reached,
) -> Result<(), AllocError> {
    let Some(point) = p.point(one.point) else {
        return Ok(());
    };
    let place = point.place;
    if one.access {
        for callee in &unsafe_callees(alloc, p, allowed, point)? {
            warnings.push(Warning::call_with_access(place, *callee))?;
        }
    }
    let broken = [
        broken_by_leaving(point, one.access, one.home),
        broken_by_turning(point, one.access, one.home),
    ];
    for rule in broken {
        if let Some(rule) = rule {
            warnings.push(Warning::bare(place, rule))?;
        }
    }
    Ok(())
}

/// The warnings of the rules 41 to 47. One may stand there more than once.
pub fn access_warnings(
    warnings: &mut Vec<Warning>,
    alloc: Global,
    p: &Program,
    allowed: &Allowed<'_>,
) -> Result<(), AllocError> {
    for one in &all_reached(alloc, p, allowed)? {
        warnings_at(warnings, alloc, p, allowed, *one)?;
    }
    Ok(())
}
