//! The pool and its calls.

ghost use Rattle.std.specs.Prelude.{◌≡◌, ◌+◌, ◌^◌, ◌<◌, ◌≤◌, ◌⊎◌, ℕ, [], ◌∷◌, ◌++◌, Some, IfOk, MatchOption, Contains, length, slice_get};
ghost use Rattle.indexmap.specs.IndexSet.{spare as room_of};
ghost use Rattle.state_defs.specs.declared.state.State.{State};
ghost use Rattle.state_pool.specs.Keys.{states_of};
ghost use Rattle.state_pool.specs.States.{AreDifferent, States, with_new};

use crate::key::Key;
use indexmap::IndexSet;
use ot_base::NoMemory;
use state_defs::State;
use std::alloc::Global;
use std::marker::Model;

/// The number of a state in a pool.
#[derive(Clone, Copy, PartialEq, Eq)]
pub struct StateNo(pub u32);

/// Different states with numbers from 0 on, in a region that is reserved once. Contracts see it as the list of its
/// states, and how many more it has room for (`States`).
///
/// A state is found by its hash, in a time that doesn't grow with the number of states, unless they are chosen so
/// that many of them hash alike. For each state that it has room for, the region has 96 bytes, which are first
/// touched when that number is given, and the table of hashes at most 20.
#[derive(Drop)]
pub struct Pool {
    states: IndexSet<Key>,
    spare: u32,
}

impl Model for Pool {
    ghost use Rattle.std.specs.Prelude.{◌+◌, ◌<◌, ◌≤◌, ◌^◌, length};
    ghost use Rattle.indexmap.specs.IndexSet.{spare as room_of};
    ghost use Rattle.state_pool.specs.States.{States, AreDifferent};

    ghost Value = { States };

    ghost use Rattle.state_pool.specs.Keys.{states_of};

    ghost view = { λ p. record { states = states_of p.states.keys; spare = p.spare } };

    ghost invariant = { λ p. (p.spare ≤ room_of p.states) × (length p.states.keys + p.spare < 2 ^ 32) × AreDifferent (states_of p.states.keys) };
}

impl Pool {
    /// A pool of no states, with room for n. No later call takes memory.
    pub fn reserve(alloc: Global, n: u32) -> Result<Pool, NoMemory>
        ensures { IfOk result (λ pool. pool ≡ record { states = []; spare = n }) }
    {
        let states = IndexSet::with_capacity(alloc, n as usize)?;
        Ok(Pool { states, spare: n })
    }

    /// How many more states it has room for.
    pub fn spare(&self) -> u32
        ensures { result ≡ self.now.spare }
    {
        self.spare
    }

    /// How many states have numbers.
    pub fn len(&self) -> u32
        ensures len { result ≡ length self.now.states }
        ensures different { AreDifferent self.now.states }
    {
        self.states.len() as u32
    }

    /// The number of a state, which has one or gets the next. So two states have one number exactly where they are
    /// equal.
    pub fn number(&mut self, state: State) -> StateNo
        requires { Contains self.old.states state ⊎ (0 < self.old.spare) }
        ensures number { slice_get self.new.states result.0 ≡ Some state }
        ensures known { Contains self.old.states state → self.new ≡ self.old }
        ensures fresh { (Contains self.old.states state → ⊥) → self.new ≡ with_new self.old state }
        ensures kept { (k : ℕ) (s : State) → slice_get self.old.states k ≡ Some s → slice_get self.new.states k ≡ Some s }
        ensures room { self.old.spare ≤ self.new.spare + 1 }
        ensures different { AreDifferent self.new.states }
    {
        match find(&self.states, state) {
            Some(at) => StateNo(at),
            None => {
                let at = self.states.len() as u32;
                push(&mut self.states, state);
                self.spare -= 1;
                StateNo(at)
            }
        }
    }

    /// The state that has a number.
    pub fn state(&self, no: StateNo) -> State
        requires { no.0 < length self.now.states }
        ensures { slice_get self.now.states no.0 ≡ Some result }
    {
        match self.states.get_index(no.0 as usize) {
            Some(key) => key.0,
            None => unreachable!(),
        }
    }
}

/// The place of a state among the keys, where it is one.
fn find(keys: &IndexSet<Key>, state: State) -> Option<u32>
    requires { length keys.now.keys < 2 ^ 32 }
    ensures { MatchOption result (Contains (states_of keys.now.keys) state → ⊥) (λ at. slice_get (states_of keys.now.keys) at ≡ Some state) }
{
    match keys.get_index_of(&Key(state)) {
        Some(at) => Some(at as u32),
        None => None,
    }
}

/// Puts a state behind the keys, where there is room and it isn't one yet.
fn push(keys: &mut IndexSet<Key>, state: State)
    requires room { 0 < room_of keys.old }
    requires new { Contains (states_of keys.old.keys) state → ⊥ }
    ensures states { states_of keys.new.keys ≡ states_of keys.old.keys ++ state ∷ [] }
    ensures room { room_of keys.old ≤ room_of keys.new + 1 }
{
    match keys.insert(Key(state)) {
        Ok(_) => {}
        Err(_) => unreachable!(),
    }
}
