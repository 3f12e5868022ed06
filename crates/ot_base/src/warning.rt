//! Warnings: rules that are broken at a place, and what each rule tells.

ghost use Rattle.std.specs.Prelude.{◌≡◌, pos};
ghost use Rattle.ot_base.specs.Warnings.{bare_warning, numbered_warning};
ghost use Rattle.ot_base.specs.declared.rules.TheConstants.{ALTERNATIVES_DISAGREE, CALL_LEAVES_NOINSTR, CALL_WITH_ACCESS, OFFSET_OUT_OF_RANGE, STATE_MISMATCH};

use crate::place::Place;
use crate::rules;

/// A rule that is broken at a place.
#[derive(Clone, Copy, PartialEq, Eq)]
pub struct Warning {
    /// Where it is broken.
    pub place: Place,
    /// The rule's number, one of `rules`.
    pub rule: u8,
    /// What the rule tells first, 0 where it tells nothing: a number, or a symbol's number, where -1
    /// stands for an indirect target.
    pub a: i64,
    /// What the rule tells next, 0 where it tells nothing.
    pub b: i64,
}

impl Warning {
    /// A warning of a rule that tells nothing.
    pub fn bare(place: Place, rule: u8) -> Warning
        ensures { result ≡ bare_warning place rule }
    {
        Warning {
            place,
            rule,
            a: 0,
            b: 0,
        }
    }

    /// A warning of a rule that tells the depth of a state, in bytes: a return or a sibling call with a modified stack.
    pub fn modified_stack(place: Place, rule: u8, depth: i64) -> Warning
        ensures { result ≡ numbered_warning place rule depth (pos 0) }
    {
        Warning {
            place,
            rule,
            a: depth,
            b: 0,
        }
    }

    /// Paths bring different states to a place: the depth of the state that is kept there, and of another that is found.
    pub fn state_mismatch(place: Place, kept: i64, found: i64) -> Warning
        ensures { result ≡ numbered_warning place STATE_MISMATCH kept found }
    {
        Warning {
            place,
            rule: rules::STATE_MISMATCH,
            a: kept,
            b: found,
        }
    }

    /// An offset of a state's row, in bytes, doesn't fit the format.
    pub fn offset_out_of_range(place: Place, offset: i64) -> Warning
        ensures { result ≡ numbered_warning place OFFSET_OUT_OF_RANGE offset (pos 0) }
    {
        Warning {
            place,
            rule: rules::OFFSET_OUT_OF_RANGE,
            a: offset,
            b: 0,
        }
    }

    /// Variants of the alternatives site that starts at a place disagree so many bytes from there.
    pub fn alternatives_disagree(start: Place, offset: i64) -> Warning
        ensures { result ≡ numbered_warning start ALTERNATIVES_DISAGREE offset (pos 0) }
    {
        Warning {
            place: start,
            rule: rules::ALTERNATIVES_DISAGREE,
            a: offset,
            b: 0,
        }
    }

    /// A function is called with user access on: its symbol's number, or -1 for an indirect target.
    pub fn call_with_access(place: Place, callee: i64) -> Warning
        ensures { result ≡ numbered_warning place CALL_WITH_ACCESS callee (pos 0) }
    {
        Warning {
            place,
            rule: rules::CALL_WITH_ACCESS,
            a: callee,
            b: 0,
        }
    }
    /// Code that may not be instrumented calls, or jumps to, code that may be: its symbol's number, or -1 for an
    /// indirect target.
    pub fn leaves_noinstr(place: Place, callee: i64) -> Warning
        ensures { result ≡ numbered_warning place CALL_LEAVES_NOINSTR callee (pos 0) }
    {
        Warning {
            place,
            rule: rules::CALL_LEAVES_NOINSTR,
            a: callee,
            b: 0,
        }
    }
}
