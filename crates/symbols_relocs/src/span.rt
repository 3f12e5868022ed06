//! Places in a row that have one function.

ghost use Rattle.std.specs.Prelude.{◌≡◌, ◌<◌, ◌≤◌, ℕ, true, length};
ghost use Rattle.symbols_relocs.specs.Counts.{is_behind as is_one_behind};
ghost use Rattle.symbols_relocs.specs.Lists.{in_function as holds_place, AreOuter, AreRising};
ghost use Rattle.symbols_relocs.specs.Spans.{place_at, IsHolderOf};

use crate::function::Function;
use crate::order::count_near;
use crate::outer::last_holder;
use ot_base::Place;

/// The function of a place and of those behind it in its section.
#[derive(Clone, Copy)]
pub struct Span {
    /// The function by its place among the functions, None where it is none.
    pub function: Option<u32>,
    /// The last offset of a place of which it is told.
    pub last: u64,
}

/// The last offset in the section of a place before the function with an index, which starts behind it.
fn last_before(functions: &[Function], index: usize, place: Place) -> u64
    requires { is_one_behind functions.now index place ≡ true }
    ensures from { place.off ≤ result }
    ensures to { (off : ℕ) → place.off ≤ off → off ≤ result → is_one_behind functions.now index (place_at place.sec off) ≡ true }
{
    if index < functions.len() && functions[index].start.sec == place.sec {
        functions[index].start.off.saturating_sub(1)
    } else {
        u64::MAX
    }
}

/// The last offset of a function that holds a place.
fn last_inside(function: &Function, place: Place) -> u64
    requires { holds_place function.now place ≡ true }
    ensures from { place.off ≤ result }
    ensures to { (off : ℕ) → place.off ≤ off → off ≤ result → holds_place function.now (place_at place.sec off) ≡ true }
{
    function
        .start
        .off
        .saturating_add(function.size.saturating_sub(1))
}

/// The function of a place, and up to which offset it is that of all places behind.
pub(crate) fn find_span(functions: &[Function], outer: &[usize], near: &[u32], place: Place) -> Span
    requires rising { AreRising functions.now }
    requires links { AreOuter functions.now outer.now }
    requires len { length outer.now ≡ length functions.now }
    requires few { length functions.now ≤ 4194304 }
    ensures from { place.off ≤ result.last }
    ensures holder { (off : ℕ) → place.off ≤ off → off ≤ result.last → IsHolderOf functions.now (place_at place.sec off) result.function }
{
    let count = count_near(functions, near, place);
    let last = last_before(functions, count, place);
    match last_holder(functions, outer, count, place) {
        None => Span {
            function: None,
            last,
        },
        Some(index) => Span {
            function: Some(index as u32),
            last: last.min(last_inside(&functions[index], place)),
        },
    }
}
