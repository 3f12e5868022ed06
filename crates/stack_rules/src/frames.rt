//! Frames of calls, and what states have in common.

ghost use Rattle.std.specs.Prelude.{◌≡◌, ◌↔◌, ◌-◌, ◌^◌, ◌≤ℤ◌, pos, IsTrue};
ghost use Rattle.state_defs.specs.Rules.{has_frame as has_frame_at, call_rule as call_rule_of, depth_number as depth_number_of};
ghost use Rattle.state_defs.specs.Row.{row_of};
ghost use Rattle.state_defs.specs.State.{depth_of};
ghost use Rattle.stack_rules.specs.Base.{HaveSameBase};

use ot_base::rules::CALL_WITHOUT_FRAME;
use state_defs::{BpHome, Depth, State};

/// Whether the caller's rbp is saved right below the return address, and rbp points there.
fn has_frame(fp: Option<i64>, bp: BpHome) -> bool
    ensures { result ≡ has_frame_at fp bp }
{
    match (fp, bp) {
        (Some(m), BpHome::Saved(o)) => m == 16 && o == 16,
        (Some(_) | None, BpHome::Same | BpHome::Saved(_)) => false,
    }
}

/// The rule that a call breaks in a state where frame pointers are asked for: [`CALL_WITHOUT_FRAME`] in a call
/// frame without one.
pub fn call_rule(state: State) -> Option<u8>
    ensures { result ≡ call_rule_of state }
{
    match state {
        State::Live { fp, bp, .. } if !has_frame(fp, bp) => Some(CALL_WITHOUT_FRAME),
        State::Live { .. } | State::Ended(_) | State::Regs { .. } => None,
    }
}

/// The number that a warning tells of a state: how many bytes rsp is below the frame's top, or minus the
/// number that it is at least below; how many it is below the saved registers; or 0 where a hint ended the
/// stack. The number has to be above the least of 64 bits.
pub fn depth_number(state: State) -> i64
    requires { depth_number_of state ≤ℤ pos (2 ^ 63 - 1) }
    ensures { result ≡ depth_number_of state }
{
    match state {
        State::Live {
            depth: Depth::Known(n),
            ..
        } => n,
        State::Live {
            depth: Depth::AtLeast(n),
            ..
        } => -n,
        State::Ended(_) => 0,
        State::Regs { depth, .. } => depth,
    }
}

/// How many bytes rsp is below the frame's top, exactly or at least.
fn number(depth: Depth) -> i64
    ensures { result ≡ depth_of depth }
{
    let (Depth::Known(n) | Depth::AtLeast(n)) = depth;
    n
}

/// Whether the rows of two live states find the frame's top alike: both from rbp or both from rsp, and as many
/// bytes above it.
fn same_base(depth: Depth, fp: Option<i64>, other_depth: Depth, other_fp: Option<i64>) -> bool
    ensures { IsTrue result ↔ HaveSameBase depth fp other_depth other_fp }
{
    match (fp, other_fp) {
        (Some(m), Some(other_m)) => m == other_m,
        (None, None) => number(depth) == number(other_depth),
        (Some(_) | None, _) => false,
    }
}

/// Whether two states have the same row of an ORC table (Linux 6.6, `orc_types.h`), with offsets as whole
/// numbers.
pub fn same_row(one: State, other: State) -> bool
    ensures { IsTrue result ↔ (row_of one ≡ row_of other) }
{
    match (one, other) {
        (
            State::Live { depth, fp, bp },
            State::Live {
                depth: other_depth,
                fp: other_fp,
                bp: other_bp,
            },
        ) => same_base(depth, fp, other_depth, other_fp) && bp == other_bp,
        (State::Ended(kind), State::Ended(other_kind)) => kind == other_kind,
        (
            State::Regs { full, depth },
            State::Regs {
                full: other_full,
                depth: other_depth,
            },
        ) => full == other_full && depth == other_depth,
        (State::Live { .. } | State::Ended(_) | State::Regs { .. }, _) => false,
    }
}
