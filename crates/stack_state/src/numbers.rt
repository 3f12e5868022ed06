//! The numbers in states: bytes, in 64 bits, with their sums in 128 bits.

ghost use Rattle.std.specs.Prelude.{◌≡◌, ◌+ℤ◌, ◌-ℤ◌, true, false, MatchResult};
ghost use Rattle.ot_base.specs.declared.rules.TheConstants.{OFFSET_OUT_OF_RANGE};
ghost use Rattle.state_defs.specs.Move.{int_same, is_near, has_near_numbers, to};
ghost use Rattle.state_defs.specs.State.{depth_of, with_depth};

use ot_base::rules::OFFSET_OUT_OF_RANGE;
use state_defs::{BpHome, Depth, State};

/// The greatest number of bytes, up or down, that a state may hold: a gigabyte.
const LIMIT: i64 = 1 << 30;

/// The sum of two numbers, in bytes.
pub fn plus(n: i64, k: i64) -> i128
    ensures { result ≡ n +ℤ k }
{
    i128::from(n) + i128::from(k)
}

/// The difference of two numbers, in bytes.
pub fn minus(n: i64, k: i64) -> i128
    ensures { result ≡ n -ℤ k }
{
    i128::from(n) - i128::from(k)
}

/// Whether two numbers are equal.
pub fn is_same(n: i128, k: i64) -> bool
    ensures { result ≡ int_same n k }
{
    n == i128::from(k)
}

/// The number in a depth, in bytes.
pub fn number_of(depth: Depth) -> i64
    ensures { result ≡ depth_of depth }
{
    match depth {
        Depth::Known(n) | Depth::AtLeast(n) => n,
    }
}

/// Whether a number is within a gigabyte of 0.
fn is_near(n: i64) -> bool
    ensures { result ≡ is_near n }
{
    -LIMIT <= n && n <= LIMIT
}

/// Whether each number of a state is within a gigabyte of 0.
fn has_near_numbers(state: State) -> bool
    ensures { result ≡ has_near_numbers state }
{
    match state {
        State::Live { depth, fp, bp } => {
            let fp_near = match fp {
                None => true,
                Some(m) => is_near(m),
            };
            let bp_near = match bp {
                BpHome::Same => true,
                BpHome::Saved(o) => is_near(o),
            };
            is_near(number_of(depth)) && fp_near && bp_near
        }
        State::Ended(_) => true,
        State::Regs { depth, .. } => is_near(depth),
    }
}

/// The number, refused where it is out of range.
pub fn in_range(n: i128) -> Result<i64, u8>
    ensures { MatchResult result (λ m. (is_near n ≡ true) × (m ≡ n)) (λ rule. (is_near n ≡ false) × (rule ≡ OFFSET_OUT_OF_RANGE)) }
{
    if n < -i128::from(LIMIT) || i128::from(LIMIT) < n {
        return Err(OFFSET_OUT_OF_RANGE);
    }
    Ok(n as i64)
}

/// The state, refused where one of its numbers is out of range.
pub fn to(state: State) -> Result<State, u8>
    ensures { result ≡ to state }
{
    if has_near_numbers(state) {
        Ok(state)
    } else {
        Err(OFFSET_OUT_OF_RANGE)
    }
}

/// The live state of a depth of this kind with this number, refused where a number is out of range.
pub fn to_live(depth: Depth, number: i128, fp: Option<i64>, bp: BpHome) -> Result<State, u8>
    ensures { result ≡ to (State.Live (with_depth depth number) fp bp) }
{
    let number = in_range(number)?;
    match depth {
        Depth::Known(_) => to(State::Live {
            depth: Depth::Known(number),
            fp,
            bp,
        }),
        Depth::AtLeast(_) => to(State::Live {
            depth: Depth::AtLeast(number),
            fp,
            bp,
        }),
    }
}

/// The state over saved registers at this depth, refused where it is out of range.
pub fn to_regs(full: bool, depth: i128) -> Result<State, u8>
    ensures { result ≡ to (State.Regs full depth) }
{
    let depth = in_range(depth)?;
    Ok(State::Regs { full, depth })
}
