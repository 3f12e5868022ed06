//! The function of a place, among functions that may overlap.

ghost use Rattle.std.specs.Prelude.{◌≡◌, ◌<◌, ◌≤◌, ◌+◌, ◌-◌, ℕ, true, false, length, IfOk, MatchOption};
ghost use Rattle.ot_base.specs.Places.{is_before as is_lower};
ghost use Rattle.symbols_relocs.specs.Lists.{function, AreOuter, AreRising, ends_beyond as ends_after, in_function, IsLastBeyond};

use crate::function::Function;
use crate::order::count_near;
use ot_base::{NoMemory, Place};
use std::alloc::Global;

/// Where a function ends, in bytes from the start of its section.
fn end_of(function: &Function) -> u128
    ensures { result ≡ function.now.start.off + function.now.size }
{
    u128::from(function.start.off) + u128::from(function.size)
}

/// Whether a function ends in a later section, or in this one behind an offset.
fn ends_beyond(function: &Function, sec: u32, off: u128) -> bool
    ensures { result ≡ ends_after function.now sec off }
{
    function.start.sec > sec || function.start.sec == sec && end_of(function) > off
}

/// Of the first `count` functions, how many there are up to the last that ends beyond an offset.
///
/// `outer` says of a function up to where those before it end no later than it does, so that one step
/// passes them by.
fn count_beyond(functions: &[Function], outer: &[usize], count: usize, sec: u32, off: u128) -> usize
    requires links { AreOuter functions.now outer.now }
    requires known { length outer.now ≤ length functions.now }
    requires within { count ≤ length outer.now }
    ensures { IsLastBeyond functions.now sec off count result }
{
    let mut left = count;
    while left > 0 {
        if ends_beyond(&functions[left - 1], sec, off) {
            return left;
        }
        left = outer[left - 1];
    }
    0
}

/// For each function, how many there are up to the last one before it that ends behind its end.
pub(crate) fn link_outer(alloc: Global, functions: &[Function]) -> Result<Vec<usize>, NoMemory>
    ensures len { IfOk result (λ outer. length outer.items ≡ length functions.now) }
    ensures links { IfOk result (λ outer. AreOuter functions.now outer.items) }
{
    let mut outer = Vec::with_capacity(alloc, functions.len())?;
    for (i, function) in functions.iter().enumerate() {
        let count = count_beyond(functions, &outer, i, function.start.sec, end_of(function));
        outer.push(count)?;
    }
    Ok(outer)
}

/// The index of the last function that holds a place, at which or before which so many start.
#[inline(always)]
pub(crate) fn last_holder(
    functions: &[Function],
    outer: &[usize],
    count: usize,
    place: Place,
) -> Option<usize>
    requires links { AreOuter functions.now outer.now }
    requires len { length outer.now ≡ length functions.now }
    requires within { count ≤ length functions.now }
    requires to { (k : ℕ) → k < count → is_lower place (function functions.now k).start ≡ false }
    requires behind { (k : ℕ) → count ≤ k → k < length functions.now → is_lower place (function functions.now k).start ≡ true }
    ensures { MatchOption result ((k : ℕ) → k < length functions.now → in_function (function functions.now k) place ≡ false) (λ i. (i < length functions.now) × (in_function (function functions.now i) place ≡ true) × ((k : ℕ) → i < k → k < length functions.now → in_function (function functions.now k) place ≡ false)) }
{
    let left = count_beyond(functions, outer, count, place.sec, u128::from(place.off));
    if left > 0 { Some(left - 1) } else { None }
}

/// The index of the last function that holds a place.
pub(crate) fn find_holder(
    functions: &[Function],
    outer: &[usize],
    near: &[u32],
    place: Place,
) -> Option<usize>
    requires rising { AreRising functions.now }
    requires links { AreOuter functions.now outer.now }
    requires len { length outer.now ≡ length functions.now }
    ensures { MatchOption result ((k : ℕ) → k < length functions.now → in_function (function functions.now k) place ≡ false) (λ i. (i < length functions.now) × (in_function (function functions.now i) place ≡ true) × ((k : ℕ) → i < k → k < length functions.now → in_function (function functions.now k) place ≡ false)) }
{
    last_holder(functions, outer, count_near(functions, near, place), place)
}
