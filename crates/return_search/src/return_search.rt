//! What a search has found.

ghost use Rattle.std.specs.Prelude.{◌≡◌, ◌+◌, ◌<◌, ◌≤◌, [], false, true, IfOk, MatchOption, length, replicate, slice_index, slice_set, vec_capacity};
ghost use Rattle.return_search.specs.Shape.{HasShape, points_of};

use crate::searched_flow::{Exit, Flow};
use machine_defs::EdgeKind;
use ot_base::NoMemory;
use std::alloc::Global;

/// What a search for the points from which a return may come has found.
#[derive(Drop)]
pub(crate) struct Search {
    /// Whether a point is found.
    pub(crate) found: Vec<bool>,
    /// The points that are found and not passed on yet.
    pub(crate) waiting: Vec<u32>,
    /// Whether what a call names by this number is known to return.
    pub(crate) known: Vec<bool>,
}

impl Search {
    ghost use Rattle.return_search.specs.Search.{AreListed, Extends, IsSearch, IsTaken, is_set};

    /// Nothing is found. No later call takes memory.
    pub(crate) fn new(alloc: Global, flow: &Flow) -> Result<Search, NoMemory>
        requires { HasShape flow.now }
        ensures listed { IfOk result (AreListed flow.now) }
        ensures found { IfOk result (λ search. search.found.items ≡ replicate (points_of flow.now) false) }
        ensures waiting { IfOk result (λ search. search.waiting.items ≡ []) }
        ensures known { IfOk result (λ search. search.known.items ≡ replicate (points_of flow.now) false) }
    {
        let points = flow.exits.len();
        Ok(Search {
            found: vec![in alloc; false; points]?,
            waiting: Vec::with_capacity(alloc, points)?,
            known: vec![in alloc; false; points]?,
        })
    }

    /// A point is found.
    pub(crate) fn find(&mut self, flow: &Flow, q: u32)
        requires listed { AreListed flow.now self.old }
        requires point { q < points_of flow.now }
        ensures listed { AreListed flow.now self.new }
        ensures extends { Extends self.old self.new }
        ensures found { self.new.found.items ≡ slice_set self.old.found.items q true }
        ensures known { self.new.known.items ≡ self.old.known.items }
    {
        if !self.found[q as usize] {
            self.found[q as usize] = true;
            self.waiting.push_reserved(q);
        }
    }

    /// A point is found, and is not to wait.
    pub(crate) fn mark(&mut self, q: usize)
        requires { q < length self.old.found.items }
        ensures found { self.new.found.items ≡ slice_set self.old.found.items q true }
        ensures known { self.new.known.items ≡ self.old.known.items }
        ensures waiting { self.new.waiting.items ≡ self.old.waiting.items }
        ensures room { vec_capacity self.new.waiting ≡ vec_capacity self.old.waiting }
    {
        self.found[q] = true;
    }

    /// Takes a point that is found and not passed on yet, if there is one: the last that was found.
    pub(crate) fn take(&mut self, flow: &Flow) -> Option<u32>
        requires { IsSearch flow.now self.old }
        ensures found { self.new.found.items ≡ self.old.found.items }
        ensures known { self.new.known.items ≡ self.old.known.items }
        ensures taken { MatchOption result (IsSearch flow.now self.new × (length self.new.waiting.items ≡ 0)) (λ x. IsTaken flow.now self.new x × (length self.new.waiting.items + 1 ≡ length self.old.waiting.items)) }
    {
        self.waiting.pop()
    }
}
