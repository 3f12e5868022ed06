//! The operation of a point as the machine executes it.

ghost use Rattle.std.specs.Prelude.{◌≡◌, false, List, Bool};
ghost use Rattle.machine_defs.specs.Program.{is_call};
ghost use Rattle.machine_defs.specs.Ways.{is_before_hint};
ghost use Rattle.machine_defs.specs.Step.{as_any_write, op_at};
ghost use Rattle.program_model.specs.Program.{of_point, program_of};
ghost use Rattle.machine_model.specs.Standing.{standing_of};

use crate::standing::Standing;
use machine_defs::Role;
use operation_defs::Op;
use program_model::{Program, lead_to_hints};

/// What makes room, as any write of rsp.
fn as_any_write(op: Op) -> Op
    ensures { result ≡ as_any_write op }
{
    match op {
        Op::SubSp | Op::SpReg => Op::SpOther,
        _ => op,
    }
}

/// Whether a hint follows right behind a point that isn't a call: all of its edges are ways on.
fn is_before_hint(p: &Program, q: u32) -> bool
    ensures { (set : List Bool) → is_call (of_point p.now Role.Plain (λ x. x.role) q) ≡ false → result ≡ is_before_hint (program_of p.now set) q }
{
    match p.point(q) {
        Some(point) => lead_to_hints(p, point.goes.as_slice()),
        None => false,
    }
}

/// The operation of a point that isn't a call, as the machine executes it. Where the stack has ended, or a hint follows
/// right behind, what makes room is any write of rsp.
pub fn op_at(p: &Program, s: &Standing) -> Op
    ensures { (set : List Bool) → is_call (of_point p.now Role.Plain (λ x. x.role) s.now.point) ≡ false → result ≡ op_at (program_of p.now set) (standing_of s.now) }
{
    let op = p.insn(s.point).op;
    if s.ended.is_some() || is_before_hint(p, s.point) {
        as_any_write(op)
    } else {
        op
    }
}
