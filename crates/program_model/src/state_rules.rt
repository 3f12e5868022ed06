//! The rules that a state alone decides.

ghost use Rattle.std.specs.Prelude.{◌≡◌};
ghost use Rattle.state_defs.specs.Rules.{is_initial, return_rule, sibling_rule, switch_rule, iret_rule, has_frame, call_rule};

use ot_base::rules::{
    CALL_WITHOUT_FRAME, EXIT_NOT_ALLOWED, MODIFIED_RETURN, MODIFIED_SIBLING_CALL,
};
use state_defs::{BpHome, Depth, State};

/// Whether the stack is as at the function's entry.
fn is_initial(state: State) -> bool
    ensures { result ≡ is_initial state }
{
    match state {
        State::Live {
            depth: Depth::Known(n),
            fp: None,
            bp: BpHome::Same,
        } => n == 8,
        _ => false,
    }
}

/// The rule that a return breaks in a state.
pub fn return_rule(state: State) -> Option<u8>
    ensures { result ≡ return_rule state }
{
    match state {
        State::Live { .. } if is_initial(state) => None,
        State::Live { .. } => Some(MODIFIED_RETURN),
        State::Ended(_) | State::Regs { .. } => Some(EXIT_NOT_ALLOWED),
    }
}

/// The rule that a jump to another function breaks.
pub fn sibling_rule(state: State) -> Option<u8>
    ensures { result ≡ sibling_rule state }
{
    match state {
        State::Live { .. } if is_initial(state) => None,
        State::Live { .. } => Some(MODIFIED_SIBLING_CALL),
        State::Ended(_) | State::Regs { .. } => Some(EXIT_NOT_ALLOWED),
    }
}

/// The rule that a far branch or a system call breaks.
pub fn switch_rule(state: State) -> Option<u8>
    ensures { result ≡ switch_rule state }
{
    match state {
        State::Live { .. } | State::Regs { .. } => Some(EXIT_NOT_ALLOWED),
        State::Ended(_) => None,
    }
}

/// The rule that a return from an interrupt breaks.
pub fn iret_rule(state: State) -> Option<u8>
    ensures { result ≡ iret_rule state }
{
    match state {
        State::Ended(_)
        | State::Regs {
            full: false,
            depth: 0,
        } => None,
        State::Live { .. } | State::Regs { .. } => Some(EXIT_NOT_ALLOWED),
    }
}

/// Whether rbp is saved right below the return address, and points there.
fn has_frame(fp: Option<i64>, bp: BpHome) -> bool
    ensures { result ≡ has_frame fp bp }
{
    match (fp, bp) {
        (Some(m), BpHome::Saved(o)) => m == 16 && o == 16,
        _ => false,
    }
}

/// The rule that a call breaks, where frame pointers are asked for.
pub fn call_rule(state: State) -> Option<u8>
    ensures { result ≡ call_rule state }
{
    match state {
        State::Live { fp, bp, .. } if !has_frame(fp, bp) => Some(CALL_WITHOUT_FRAME),
        State::Live { .. } | State::Ended(_) | State::Regs { .. } => None,
    }
}
