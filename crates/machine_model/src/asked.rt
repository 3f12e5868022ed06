//! All that a check warns of under its options.

ghost use Rattle.std.specs.Prelude.{◌≡◌};
ghost use Rattle.machine_defs.specs.Asked.{is_indirect_branch, is_return};

use crate::access_rules::access_warnings;
use crate::allowed::Allowed;
use operation_defs::Op;
use ot_base::rules::{INDIRECT_BRANCH, NAKED_RETURN};
use ot_base::{Options, Warning};
use program_model::Program;
use std::alloc::{AllocError, Global};

/// Whether an instruction is an indirect call or jump.
pub fn is_indirect_branch(op: Op) -> bool
    ensures { result ≡ is_indirect_branch op }
{
    matches!(op, Op::CallInd | Op::JmpInd { .. })
}

/// Whether it is a return.
pub fn is_return(op: Op) -> bool
    ensures { result ≡ is_return op }
{
    matches!(op, Op::Ret | Op::RetImm)
}

/// The warnings of the rules 31 and 32, as far as they are asked for, at a point, reached or not.
fn branch_warnings(
    warnings: &mut Vec<Warning>,
    p: &Program,
    allowed: &Allowed<'_>,
    options: &Options,
    q: u32,
) -> Result<(), AllocError> {
    let op = p.insn(q).op;
    let broken = if options.retpoline && is_indirect_branch(op) {
        Some(INDIRECT_BRANCH)
    } else if options.rethunk && is_return(op) {
        Some(NAKED_RETURN)
    } else {
        None
    };
    let is_allowed = allowed.is_safe_branch(q) || allowed.is_before_user_space(q);
    if let (Some(rule), false) = (broken, is_allowed) {
        warnings.push(Warning::bare(p.place(q), rule))?;
    }
    Ok(())
}

/// All that a check warns of under its options. One may stand there more than once.
pub fn warnings(
    alloc: Global,
    p: &Program,
    allowed: &Allowed<'_>,
    options: &Options,
) -> Result<Vec<Warning>, AllocError> {
    let mut warnings = program_model::warnings(alloc, p, options)?;
    for q in 0..p.count() {
        branch_warnings(&mut warnings, p, allowed, options, q)?;
    }
    if options.uaccess {
        access_warnings(&mut warnings, alloc, p, allowed)?;
    }
    Ok(warnings)
}
