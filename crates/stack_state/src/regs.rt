//! The moves of a state over saved registers.

ghost use Rattle.std.specs.Prelude.{◌≡◌};
ghost use Rattle.state_defs.specs.Move.{raise_regs, pop_bp_regs, lose_bp_regs, move_regs};

use crate::numbers::{minus, plus, to_regs};
use operation_defs::Op;
use ot_base::rules::{
    BP_NOT_SAVED, EXIT_NOT_ALLOWED, SAVED_SLOT_DROPPED, STACK_POINTER_LOST, UNSUPPORTED_SP_WRITE,
};
use state_defs::State;

/// The lowest depth of a whole pt_regs: its bp, at 32, is the last that may be popped.
const FULL_FLOOR: i64 = -32;

/// Where bp is popped from a whole pt_regs, the saved ip is this many bytes above.
const IP_ABOVE_BP: i64 = 88;

/// rsp rises by `by` bytes, or falls, where that is negative.
fn raise(by: i64, full: bool, depth: i64) -> Result<State, u8>
    ensures { result ≡ raise_regs by full depth }
{
    let floor = if full { FULL_FLOOR } else { 0 };
    let left = minus(depth, by);
    if left < i128::from(floor) {
        return Err(SAVED_SLOT_DROPPED);
    }
    to_regs(full, left)
}

/// rbp is popped.
fn pop_bp(full: bool, depth: i64) -> Result<State, u8>
    ensures { result ≡ pop_bp_regs full depth }
{
    if !full {
        return Err(BP_NOT_SAVED);
    }
    if depth == FULL_FLOOR {
        return Ok(State::Regs {
            full: false,
            depth: IP_ABOVE_BP,
        });
    }
    raise(8, full, depth)
}

/// rbp is written.
fn lose_bp(full: bool, depth: i64) -> Result<State, u8>
    ensures { result ≡ lose_bp_regs full depth }
{
    if !full {
        return Err(BP_NOT_SAVED);
    }
    to_regs(full, i128::from(depth))
}

/// The state over saved registers after an operation.
pub fn step_regs(full: bool, depth: i64, op: Op) -> Result<State, u8>
    ensures { result ≡ move_regs full depth op }
{
    match op {
        Op::Push | Op::PushBp | Op::Hop => to_regs(full, plus(depth, 8)),
        Op::Pop | Op::Popf => raise(8, full, depth),
        Op::AddSp { by } => raise(by, full, depth),
        Op::PopBp => pop_bp(full, depth),
        Op::LeaBpSp { .. } | Op::LeaBpRoom { .. } | Op::LoadBp { .. } | Op::BpOther => {
            lose_bp(full, depth)
        }
        Op::AndSp { .. } | Op::LeaSpBp { .. } | Op::Leave => Err(STACK_POINTER_LOST),
        Op::SpOther | Op::SubSp | Op::SpReg => Err(UNSUPPORTED_SP_WRITE),
        Op::IretNext => Err(EXIT_NOT_ALLOWED),
        _ => to_regs(full, i128::from(depth)),
    }
}
