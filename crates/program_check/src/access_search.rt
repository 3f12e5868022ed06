//! A search for the ways in which control comes to points.

ghost use Rattle.std.specs.Prelude.{◌≡◌, ◌<◌, ◌∷◌, ◌++◌, List, [], IfOk, IsTrue, MatchOption, OnOk, length, replicate};
ghost use Rattle.machine_defs.specs.Program.{Program};
ghost use Rattle.machine_defs.specs.Allowances.{Allowances};

use crate::access_ways::Ways;
use ot_base::NoMemory;
use std::alloc::Global;

/// Control at a point.
#[derive(Clone, Copy)]
pub(crate) struct Visit {
    /// The point.
    pub(crate) point: u32,
    /// Whether user access is on.
    pub(crate) access: bool,
    /// Whether the frame is of a function that expects it on.
    pub(crate) home: bool,
}

/// What a search for the ways in which control comes to points has found.
#[derive(Drop)]
pub(crate) struct Search {
    /// The ways that are found, by point.
    pub(crate) ways: Vec<Ways>,
    /// Control that is found, and is still to be followed.
    pub(crate) pending: Vec<Visit>,
}

impl Search {
    ghost use Rattle.program_check.specs.Ways.{no_ways};
    ghost use Rattle.program_check.specs.Search.{Finds, GoesOn, HasShape, IsFound, IsReached, IsSearch};
    ghost use Rattle.program_check.specs.declared.access_search.Visit.{Visit as VisitValue};

    /// Nothing is found.
    pub(crate) fn new(alloc: Global, points: u32) -> Result<Search, NoMemory>
        ensures ways { IfOk result (λ search. search.ways.items ≡ replicate points no_ways) }
        ensures pending { IfOk result (λ search. search.pending.items ≡ []) }
    {
        Ok(Search {
            ways: vec![in alloc; Ways::none(); points as usize]?,
            pending: Vec::new(alloc),
        })
    }

    /// Control is found at a point.
    pub(crate) fn find(&mut self, visit: Visit) -> Result<(), NoMemory>
        requires { visit.point < length self.old.ways.items }
        ensures { OnOk result (Finds self.old self.new visit) }
    {
        let ways = self.ways[visit.point as usize];
        if !ways.has(visit.access, visit.home) {
            self.pending.push(visit)?;
            self.ways[visit.point as usize] = ways.with(visit.access, visit.home);
        }
        Ok(())
    }

    /// Control is found at a point, where it comes there.
    pub(crate) fn find_if(&mut self, comes: bool, visit: Visit) -> Result<(), NoMemory>
        requires shape { HasShape (length self.old.ways.items) self.old }
        requires point { visit.point < length self.old.ways.items }
        ensures goes_on { OnOk result (GoesOn (length self.old.ways.items) self.old self.new) }
        ensures found { OnOk result (IsTrue comes → IsFound self.new.ways.items visit) }
        ensures search { OnOk result ((p : Program) (allowed : Allowances) (front : List VisitValue) → (IsTrue comes → IsReached p allowed visit) → IsSearch p allowed self.old.ways.items (front ++ self.old.pending.items) → IsSearch p allowed self.new.ways.items (front ++ self.new.pending.items)) }
    {
        if comes {
            self.find(visit)?;
        }
        Ok(())
    }

    /// Takes what is still to be followed, if anything is.
    pub(crate) fn take_pending(&mut self) -> Option<Visit>
        ensures pending { MatchOption result (self.old.pending.items ≡ []) (λ visit. self.old.pending.items ≡ self.new.pending.items ++ visit ∷ []) }
        ensures ways { self.new.ways.items ≡ self.old.ways.items }
    {
        self.pending.pop()
    }
}
