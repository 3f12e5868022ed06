//! How many different states are kept.

ghost use Rattle.std.specs.Prelude.{◌≡◌, ◌+◌, ◌<◌, ◌≤◌, IfOk, length};
ghost use Rattle.state_pool.specs.Counted.{AreNumbered, IsStateCount};

use crate::pool::Pool;
use kept_states::Kept;
use ot_base::NoMemory;
use std::alloc::Global;

/// Gives the state that a point keeps a number, if it keeps one.
fn number_state(kept: &Kept, pool: &mut Pool, n: u32)
    requires point { n < length kept.now }
    requires room { 0 < pool.old.spare }
    requires numbered { AreNumbered kept.now n pool.old.states }
    ensures numbered { AreNumbered kept.now (n + 1) pool.new.states }
    ensures room { pool.old.spare ≤ pool.new.spare + 1 }
{
    if let Some(state) = kept.state(n) {
        pool.number(state);
    }
}

/// How many different states a checker keeps for the points of a program, which are so many.
///
/// # Errors
///
/// [`NoMemory`] may come at any program: the states are numbered in a pool, which is let go again.
pub fn count_states(alloc: Global, kept: &Kept, points: u32) -> Result<u32, NoMemory>
    requires points { length kept.now ≡ points }
    ensures { IfOk result (IsStateCount kept.now) }
{
    let mut pool = Pool::reserve(alloc, points)?;
    for n in 0..points {
        number_state(kept, &mut pool, n);
    }
    Ok(pool.len())
}
