//! Which of two states is the lesser: a state by its parts, in the order in which they are declared, and of each
//! part the place of its variant and its number.

ghost use Rattle.std.specs.Prelude.{◌≡◌, ◌∷◌, [], false, true, if◌then◌else◌, List, ℤ, int_lt};
ghost use Rattle.state_defs.specs.Order.{comes_before, depth_key, fp_key, home_key, key_before, lesser as lesser_state};
ghost use Rattle.kept_states.specs.Packed.{state_of};

use crate::packed::PackedState;
use state_defs::{BpHome, Depth, EndKind, State};

/// A part of a state: the place of its variant, and its number.
#[derive(Clone, Copy)]
struct Part {
    variant: i64,
    number: i64,
}

fn depth_part(depth: Depth) -> Part
    ensures { depth_key depth ≡ result.variant ∷ result.number ∷ [] }
{
    match depth {
        Depth::Known(number) => Part { variant: 0, number },
        Depth::AtLeast(number) => Part { variant: 1, number },
    }
}

fn fp_part(fp: Option<i64>) -> Part
    ensures { fp_key fp ≡ result.variant ∷ result.number ∷ [] }
{
    match fp {
        None => Part {
            variant: 0,
            number: 0,
        },
        Some(number) => Part { variant: 1, number },
    }
}

fn home_part(home: BpHome) -> Part
    ensures { home_key home ≡ result.variant ∷ result.number ∷ [] }
{
    match home {
        BpHome::Same => Part {
            variant: 0,
            number: 0,
        },
        BpHome::Saved(number) => Part { variant: 1, number },
    }
}

/// Whether a number is less, or equal where what comes behind it is less.
fn number_before(one: i64, other: i64, behind: bool) -> bool
    ensures { result ≡ (if int_lt one other then true else (if int_lt other one then false else behind)) }
{
    one < other || one == other && behind
}

/// Whether a part is less, or equal where what comes behind it is less.
fn part_before(one: Part, other: Part, behind: bool) -> bool
    ensures { (rest other_rest : List ℤ) → behind ≡ key_before rest other_rest → result ≡ key_before (one.variant ∷ one.number ∷ rest) (other.variant ∷ other.number ∷ other_rest) }
{
    let number = number_before(one.number, other.number, behind);
    number_before(one.variant, other.variant, number)
}

/// Whether a live state comes before another.
fn live_before(one: (Depth, Option<i64>, BpHome), other: (Depth, Option<i64>, BpHome)) -> bool
    ensures { result ≡ comes_before (State.Live one.0 one.1 one.2) (State.Live other.0 other.1 other.2) }
{
    let home = part_before(home_part(one.2), home_part(other.2), false);
    let fp = part_before(fp_part(one.1), fp_part(other.1), home);
    part_before(depth_part(one.0), depth_part(other.0), fp)
}

/// Whether a state comes before another.
pub(crate) fn is_before(one: State, other: State) -> bool
    ensures { result ≡ comes_before one other }
{
    match (one, other) {
        (
            State::Live { depth, fp, bp },
            State::Live {
                depth: other_depth,
                fp: other_fp,
                bp: other_bp,
            },
        ) => live_before((depth, fp, bp), (other_depth, other_fp, other_bp)),
        (State::Live { .. }, State::Ended(_) | State::Regs { .. }) => true,
        (State::Ended(_), State::Live { .. }) => false,
        (State::Ended(EndKind::Undefined), State::Ended(EndKind::EndOfStack)) => true,
        (State::Ended(_), State::Ended(_)) => false,
        (State::Ended(_), State::Regs { .. }) => true,
        (State::Regs { .. }, State::Live { .. } | State::Ended(_)) => false,
        (
            State::Regs { full, depth },
            State::Regs {
                full: other_full,
                depth: other_depth,
            },
        ) => {
            if full == other_full {
                depth < other_depth
            } else {
                other_full
            }
        }
    }
}

/// The lesser of two states.
#[inline(never)]
pub(crate) fn lesser(one: PackedState, other: PackedState) -> PackedState
    ensures { state_of result ≡ lesser_state (state_of one) (state_of other) }
{
    if is_before(other.state(), one.state()) {
        other
    } else {
        one
    }
}
