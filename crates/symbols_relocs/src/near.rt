//! How many functions may start at a place or before it, told without a search. What is told here is tried, and isn't
//! relied on.

ghost use Rattle.std.specs.Prelude.{◌≡◌, ◌<◌, ◌≤◌, length, IfOk};

use crate::function::Function;
use ot_base::{NoMemory, Place};
use std::alloc::Global;

/// How many slots there are for each function at least, and at most in all.
const SLOTS: usize = 16;

const MOST_SLOTS: usize = 1048576;

/// The slot of a block of 16 bytes of a section, by its number, of so many: a power of 2.
fn slot_of(sec: u32, block: u64, count: usize) -> usize
    requires { 0 < count }
    ensures { result < count }
{
    (block.wrapping_add(8191 * u64::from(sec)) & (count as u64 - 1)) as usize
}

/// Where the function with an index ends, or the one before it that ends last in its section, which ends at `end`.
fn last_end(functions: &[Function], index: usize, end: u64) -> u64
    requires { index < length functions.now }
{
    let function = &functions[index];
    let own = function.start.off.saturating_add(function.size);
    if index > 0 && functions[index - 1].start.sec == function.start.sec {
        own.max(end)
    } else {
        own
    }
}

/// The block behind those whose places are told by the function with an index: that in which the next one starts, and
/// where it is the last of its section the one in which that section's functions `end`.
fn end_block(functions: &[Function], index: usize, end: u64) -> u64
    requires { index < length functions.now }
{
    let next = index + 1;
    if next < functions.len() && functions[next].start.sec == functions[index].start.sec {
        functions[next].start.off / 16
    } else {
        end / 16
    }
}

/// So many slots without a function.
fn empty_slots(alloc: Global, count: usize) -> Result<Vec<u32>, NoMemory>
    ensures { IfOk result (λ near. length near.items ≡ count) }
{
    Ok(vec![in alloc; 0; count]?)
}

/// How many functions start at the places of the blocks in each slot, or before.
pub(crate) fn list_counts(alloc: Global, functions: &[Function]) -> Result<Vec<u32>, NoMemory>
    requires { length functions.now ≤ 4194304 }
{
    let count = MOST_SLOTS.min((SLOTS * functions.len()).next_power_of_two());
    let mut near = empty_slots(alloc, count)?;
    let mut end = 0;
    for index in 0..functions.len() {
        let start = functions[index].start;
        end = last_end(functions, index, end);
        for block in start.off / 16..end_block(functions, index, end) {
            near[slot_of(start.sec, block, count)] = index as u32 + 1;
        }
    }
    Ok(near)
}

/// How many functions may start at a place or before it.
pub(crate) fn near_count(near: &[u32], place: Place) -> usize {
    if near.is_empty() {
        return 0;
    }
    near[slot_of(place.sec, place.off / 16, near.len())] as usize
}
