//! The row of a state.

ghost use Rattle.std.specs.Prelude.{◌≡◌, ◌<◌, ◌≤ℤ◌, None, length, pos, negsuc};
ghost use Rattle.ot_base.specs.Rows.{zero_row};
ghost use Rattle.state_defs.specs.declared.state.State.TheVariants.{Live, Ended, Regs};
ghost use Rattle.state_defs.specs.Row.{bp_offset_of, bp_reg_of, end_number, row_of as row_of_state, sp_offset_of, sp_reg_of, unfit_offset};
ghost use Rattle.machine_defs.specs.Rows.{row_of_point};
ghost use Rattle.kept_states.specs.LevelStates.{at};
ghost use Rattle.program_check.specs.Fit.{Fit};

use kept_states::Kept;
use ot_base::Row;
use ot_base::codes::{
    KIND_CALL, KIND_END_OF_STACK, KIND_REGS, KIND_REGS_PARTIAL, KIND_UNDEFINED, REG_BP,
    REG_PREV_SP, REG_SP, REG_UNDEFINED,
};
use state_defs::{BpHome, Depth, EndKind, State};

/// The row where nothing is known of the stack.
pub(crate) const ZERO_ROW: Row = Row {
    sp_offset: 0,
    bp_offset: 0,
    sp_reg: 0,
    bp_reg: 0,
    kind: 0,
    signal: false,
};

/// What a live state's frame top is counted from, and how many bytes it lies above that.
fn sp_base(depth: Depth, fp: Option<i64>) -> (u8, i64)
    ensures reg { result.0 ≡ sp_reg_of fp }
    ensures offset { result.1 ≡ sp_offset_of depth fp }
{
    match (fp, depth) {
        (Some(n), _) => (REG_BP, n),
        (None, Depth::Known(n) | Depth::AtLeast(n)) => (REG_SP, n),
    }
}

/// What the caller's saved rbp is counted from, and how many bytes it lies above that.
fn bp_base(bp: BpHome) -> (u8, i128)
    ensures reg { result.0 ≡ bp_reg_of bp }
    ensures offset { result.1 ≡ bp_offset_of bp }
{
    match bp {
        BpHome::Same => (REG_UNDEFINED, 0),
        BpHome::Saved(o) => (REG_PREV_SP, -i128::from(o)),
    }
}

/// The kind of the row of a stack that a hint ended.
fn end_kind(kind: EndKind) -> u8
    ensures { result ≡ end_number kind }
{
    match kind {
        EndKind::Undefined => KIND_UNDEFINED,
        EndKind::EndOfStack => KIND_END_OF_STACK,
    }
}

/// The row of a live state.
#[inline(always)]
fn live_row(depth: Depth, fp: Option<i64>, bp: BpHome) -> Row
    requires { unfit_offset (Live depth fp bp) ≡ None }
    ensures { result ≡ row_of_state (Live depth fp bp) }
{
    let (sp_reg, sp_offset) = sp_base(depth, fp);
    let (bp_reg, bp_offset) = bp_base(bp);
    Row {
        sp_offset: sp_offset as i16,
        bp_offset: bp_offset as i16,
        sp_reg,
        bp_reg,
        kind: KIND_CALL,
        signal: false,
    }
}

/// The row of a stack that a hint ended.
fn ended_row(kind: EndKind) -> Row
    ensures { result ≡ row_of_state (Ended kind) }
{
    Row {
        kind: end_kind(kind),
        ..ZERO_ROW
    }
}

/// The row of a stack on which registers were saved.
fn regs_row(full: bool, depth: i64) -> Row
    requires { unfit_offset (Regs full depth) ≡ None }
    ensures { result ≡ row_of_state (Regs full depth) }
{
    Row {
        sp_offset: depth as i16,
        bp_offset: 0,
        sp_reg: REG_SP,
        bp_reg: REG_UNDEFINED,
        kind: if full { KIND_REGS } else { KIND_REGS_PARTIAL },
        signal: true,
    }
}

/// The row of a state in an ORC table (Linux 6.6, `orc_types.h`). Its offsets have to fit the 16 bits of the format.
pub fn row_of(state: State) -> Row
    requires { unfit_offset state ≡ None }
    ensures { result ≡ row_of_state state }
{
    match state {
        State::Live { depth, fp, bp } => live_row(depth, fp, bp),
        State::Ended(kind) => ended_row(kind),
        State::Regs { full, depth } => regs_row(full, depth),
    }
}

/// The row of a point: of the state that it keeps or, where it keeps none, the one that says that nothing is known. The state isn't
/// made.
#[inline(always)]
pub(crate) fn row_at(kept: &Kept, n: u32) -> Row
    requires point { n < length kept.now }
    requires fit { Fit (at kept.now) }
    ensures { result ≡ row_of_point (at kept.now) n }
{
    match kept.state(n) {
        Some(State::Live { depth, fp, bp }) => live_row(depth, fp, bp),
        Some(State::Ended(kind)) => ended_row(kind),
        Some(State::Regs { full, depth }) => regs_row(full, depth),
        None => ZERO_ROW,
    }
}
