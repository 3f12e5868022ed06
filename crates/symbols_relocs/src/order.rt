//! Functions in the order of their starts.

ghost use Rattle.std.specs.Prelude.{◌≡◌, ◌<◌, ◌≤◌, ◌-◌, ℕ, true, false, length, IfSome, IsTrue, MatchOption};
ghost use Rattle.ot_base.specs.Places.{is_before as is_lower, same_place};
ghost use Rattle.symbols_relocs.specs.Lists.{function, AreRising};
ghost use Rattle.symbols_relocs.specs.Counts.{is_behind as is_one_behind, is_upto as is_one_upto};

use crate::function::Function;
use crate::near::near_count;
use ot_base::{Place, is_before};

/// How many of these start at a place or before it.
pub(crate) fn count_to(functions: &[Function], place: Place) -> usize
    requires { AreRising functions.now }
    ensures within { result ≤ length functions.now }
    ensures to { (k : ℕ) → k < result → is_lower place (function functions.now k).start ≡ false }
    ensures behind { (k : ℕ) → result ≤ k → k < length functions.now → is_lower place (function functions.now k).start ≡ true }
{
    functions.partition_point(|function| !is_before(place, function.start))
}

/// Whether the one with an index starts behind a place, or there is none.
fn is_behind(functions: &[Function], index: usize, place: Place) -> bool
    ensures { result ≡ is_one_behind functions.now index place }
{
    index >= functions.len() || is_before(place, functions[index].start)
}

/// Whether the last of so many starts at a place or before it, or there is none.
fn is_upto(functions: &[Function], count: usize, place: Place) -> bool
    requires { count ≤ length functions.now }
    ensures { result ≡ is_one_upto functions.now count place }
{
    count == 0 || !is_before(place, functions[count - 1].start)
}

/// How many of the first so many there are without those at the end that start behind a place, where those are fewer
/// than 16.
fn without_behind(functions: &[Function], count: usize, place: Place) -> Option<usize>
    ensures { IfSome result (λ n. (n ≤ length functions.now) × (is_one_upto functions.now n place ≡ true)) }
{
    let mut left = count.min(functions.len());
    for _ in 0..16 {
        if is_upto(functions, left, place) {
            return Some(left);
        }
        left = left.saturating_sub(1);
    }
    None
}

/// Whether the last of so many starts in the section of a place, there or before it.
#[inline(always)]
fn is_last_upto(functions: &[Function], count: usize, place: Place) -> bool
    requires { count ≤ length functions.now }
    ensures upto { IsTrue result → is_one_upto functions.now count place ≡ true }
    ensures some { IsTrue result → 0 < count }
    ensures same { IsTrue result → (function functions.now (count - 1)).start.sec ≡ place.sec }
{
    count > 0
        && functions[count - 1].start.sec == place.sec
        && functions[count - 1].start.off <= place.off
}

/// Whether the one with an index starts behind a place, in whose section the one before it starts, or there is none.
#[inline(always)]
fn is_next_behind(functions: &[Function], index: usize, place: Place) -> bool
    requires rising { AreRising functions.now }
    requires some { 0 < index }
    requires same { (function functions.now (index - 1)).start.sec ≡ place.sec }
    ensures { IsTrue result → is_one_behind functions.now index place ≡ true }
{
    index >= functions.len()
        || functions[index].start.sec != place.sec
        || place.off < functions[index].start.off
}

/// Whether so many start at a place or before it, where the last of them starts in its section.
#[inline(always)]
fn are_counted(functions: &[Function], count: usize, place: Place) -> bool
    requires { AreRising functions.now }
    ensures within { IsTrue result → count ≤ length functions.now }
    ensures upto { IsTrue result → is_one_upto functions.now count place ≡ true }
    ensures behind { IsTrue result → is_one_behind functions.now count place ≡ true }
{
    count <= functions.len()
        && is_last_upto(functions, count, place)
        && is_next_behind(functions, count, place)
}

/// How many of these start at a place or before it, where so many may.
#[inline(never)]
fn count_from(functions: &[Function], near: usize, place: Place) -> usize
    requires { AreRising functions.now }
    ensures within { result ≤ length functions.now }
    ensures to { (k : ℕ) → k < result → is_lower place (function functions.now k).start ≡ false }
    ensures behind { (k : ℕ) → result ≤ k → k < length functions.now → is_lower place (function functions.now k).start ≡ true }
{
    match without_behind(functions, near, place) {
        Some(count) if is_behind(functions, count, place) => count,
        _ => count_to(functions, place),
    }
}

/// How many of these start at a place or before it, where `near` has what to try first.
pub(crate) fn count_near(functions: &[Function], near: &[u32], place: Place) -> usize
    requires { AreRising functions.now }
    ensures within { result ≤ length functions.now }
    ensures to { (k : ℕ) → k < result → is_lower place (function functions.now k).start ≡ false }
    ensures behind { (k : ℕ) → result ≤ k → k < length functions.now → is_lower place (function functions.now k).start ≡ true }
{
    let count = near_count(near, place);
    if are_counted(functions, count, place) {
        count
    } else {
        count_from(functions, count, place)
    }
}

/// The index of the one that starts at a place.
pub(crate) fn find_start(functions: &[Function], near: &[u32], place: Place) -> Option<usize>
    requires { AreRising functions.now }
    ensures { MatchOption result ((k : ℕ) → k < length functions.now → same_place (function functions.now k).start place ≡ false) (λ i. (i < length functions.now) × ((function functions.now i).start ≡ place)) }
{
    let count = count_near(functions, near, place);
    if count > 0 && functions[count - 1].start == place {
        Some(count - 1)
    } else {
        None
    }
}
