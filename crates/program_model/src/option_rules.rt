//! The rules that options ask for.

use crate::kept::Kept;
use crate::site_rules::is_call_op;
use crate::state_rules::call_rule;
use crate::{ModelPoint, Program};
use machine_defs::EdgeKind;
use operation_defs::Op;
use ot_base::rules::UNREACHABLE_INSTRUCTION;
use ot_base::{Options, Warning};
use std::alloc::AllocError;

/// The warnings of rule 21: a call without a frame.
fn frame_warnings(warnings: &mut Vec<Warning>, p: &Program, kept: &Kept) -> Result<(), AllocError> {
    for q in 0..p.count() {
        if let (Some(point), Some(state)) = (p.point(q), kept.state(q)) {
            let is_call = is_call_op(point.insn.op) && !point.calls_fentry;
            if let (true, Some(rule)) = (is_call, call_rule(state)) {
                warnings.push(Warning::bare(point.place, rule))?;
            }
        }
    }
    Ok(())
}

/// Whether a point is code that no symbol covers, where the object is joined from several, or the options say that it is linked.
fn is_hole(p: &Program, options: &Options, point: &ModelPoint) -> bool {
    point.is_uncovered && (p.is_linked || options.link)
}

/// Whether a jump of a hole leads to the part of a function that a point is in.
fn is_in_part_of_hole(p: &Program, options: &Options, point: &ModelPoint) -> bool {
    p.points.iter().any(|hole| {
        hole.variant == 0
            && is_hole(p, options, hole)
            && hole.goes.iter().any(|edge| {
                edge.kind == EdgeKind::Taken
                    && p.function(edge.to) != p.owner(edge.to)
                    && p.function(edge.to) == point.function
            })
    })
}

/// Whether a point is an instruction that isn't reached: of a checked function, or of no function where patching alone
/// doesn't lead; in no hole, nor in a part to which one leads.
fn is_unreached(p: &Program, kept: &Kept, options: &Options, q: u32) -> bool {
    let is_padding = |op| matches!(op, Op::Nop | Op::Int3 | Op::Ud2);
    p.point(q).is_some_and(|point| {
        point.variant == 0
            && !point.is_unchecked
            && (point.owner.is_some() || !point.is_in_patches)
            && !is_hole(p, options, point)
            && !is_in_part_of_hole(p, options, point)
            && !is_padding(point.insn.op)
            && kept.state(q).is_none()
    })
}

/// Whether it is the first of some unreached ones: the instruction before it is of another function, or of one where it is
/// of none, or is reached.
fn is_first_unreached(p: &Program, kept: &Kept, options: &Options, q: u32) -> bool {
    let Some(point) = p.point(q) else {
        return false;
    };
    let follows_one = point.previous.is_some_and(|before| {
        p.point(before)
            .is_some_and(|other| other.function == point.function)
            && is_unreached(p, kept, options, before)
    });
    is_unreached(p, kept, options, q) && !follows_one
}

/// The warnings of rule 14: the first of some unreached instructions.
fn unreached_warnings(
    warnings: &mut Vec<Warning>,
    p: &Program,
    kept: &Kept,
    options: &Options,
) -> Result<(), AllocError> {
    for q in 0..p.count() {
        if let (Some(point), true) = (p.point(q), is_first_unreached(p, kept, options, q)) {
            warnings.push(Warning::bare(point.place, UNREACHABLE_INSTRUCTION))?;
        }
    }
    Ok(())
}

/// The warnings that options ask for: 14, where nothing else warns yet, and 21.
pub fn option_warnings(
    warnings: &mut Vec<Warning>,
    p: &Program,
    kept: &Kept,
    options: &Options,
) -> Result<(), AllocError> {
    if options.unreachable && warnings.is_empty() {
        unreached_warnings(warnings, p, kept, options)?;
    }
    if options.fp {
        frame_warnings(warnings, p, kept)?;
    }
    Ok(())
}
