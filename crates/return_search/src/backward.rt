//! What leads to the points of a flow: edges by where they lead, and calls by entry.

ghost use Rattle.std.specs.Prelude.{◌≡◌, ◌+◌, ◌<◌, ◌++◌, ◌∷◌, [], ℕ, List, Option, Some, IfOk, OnOk, length};
ghost use Rattle.return_search.specs.Chained.{AreChains, IsOpen, OpensNone};
ghost use Rattle.return_search.specs.declared.searched_flow.Exit.TheVariants.{Leaves};
ghost use Rattle.return_search.specs.Shape.{HasShape, points_of};
ghost use Rattle.return_search.specs.Told.{exit_at, start_of};
ghost use Rattle.return_search.specs.Backward.{IsBackward, IsBackwardTo, IsEdgeOf, StepsOn};
ghost use Rattle.return_search.specs.Search.{IsSearchTo};

use crate::carrying::{end_of_plain, steps_on};
use crate::chains::Chains;
use crate::return_search::Search;
use crate::searched_flow::{Exit, Flow};
use ot_base::NoMemory;
use std::alloc::Global;

/// What leads to a point from another.
#[derive(Clone, Copy)]
pub(crate) enum Lead {
    /// An edge, by the point that it is of and its number.
    Edge { from: u32, number: u32 },
    /// A call of the point as an entry, by the point that calls.
    Call { from: u32 },
}

/// What leads to the points of a flow. An edge to the point right behind its own isn't listed, and most edges are such.
#[derive(Drop)]
pub(crate) struct Backward {
    /// All that leads somewhere.
    pub(crate) leads: Vec<Lead>,
    /// The numbers of what leads to a point. A point stays open if nothing is listed that leads there, and the point right
    /// before it, if there is one, steps on to it.
    pub(crate) chains: Chains,
}

/// Finds a point from which a return comes.
fn find_leaving(flow: &Flow, search: &mut Search, q: u32)
    requires shape { HasShape flow.now }
    requires point { q < points_of flow.now }
    requires leaves { exit_at flow.now q ≡ Leaves }
    requires so_far { IsSearchTo flow.now search.old q }
    ensures { IsSearchTo flow.now search.new (q + 1) }
{
    search.find(flow, q);
}

impl Backward {
    /// Nothing leads anywhere.
    fn empty(alloc: Global, flow: &Flow) -> Result<Backward, NoMemory>
        requires { HasShape flow.now }
        ensures { IfOk result (λ backward. IsBackwardTo flow.now backward 0 0) }
    {
        Ok(Backward {
            leads: Vec::new(alloc),
            chains: Chains::new(alloc, flow.exits.len() as u32)?,
        })
    }

    /// Lists one more, which leads to this point.
    fn add(&mut self, lead: Lead, to: u32) -> Result<(), NoMemory>
        requires to { to < length self.old.chains.heads.items }
        ensures leads { OnOk result (self.new.leads.items ≡ self.old.leads.items ++ lead ∷ []) }
        ensures chains { OnOk result ((keys : List (Option ℕ)) → AreChains self.old.chains.heads.items self.old.chains.links.items keys → AreChains self.new.chains.heads.items self.new.chains.links.items (keys ++ Some to ∷ [])) }
        ensures opens { OpensNone self.old.chains.heads.items self.new.chains.heads.items }
        ensures heads { length self.new.chains.heads.items ≡ length self.old.chains.heads.items }
    {
        self.chains.add(to)?;
        self.leads.push(lead)?;
        Ok(())
    }

    /// Closes the point right behind a point, unless that steps on to it.
    fn close_behind(&mut self, flow: &Flow, q: u32)
        requires shape { HasShape flow.now }
        requires point { q < points_of flow.now }
        requires so_far { IsBackwardTo flow.now self.old q (start_of flow.now q) }
        ensures so_far { IsBackwardTo flow.now self.new q (start_of flow.now q) }
        ensures steps { IsOpen self.new.chains.heads.items (q + 1) → StepsOn flow.now q }
    {
        if steps_on(flow, q) {
            return;
        }
        let behind = q + 1;
        if (behind as usize) < flow.exits.len() {
            self.chains.close(behind);
        }
    }

    /// Lists a point, if it calls an entry, or finds it, if a return comes from it.
    fn add_exit(&mut self, flow: &Flow, search: &mut Search, q: u32) -> Result<(), NoMemory>
        requires shape { HasShape flow.now }
        requires point { q < points_of flow.now }
        requires so_far { IsBackwardTo flow.now self.old q (start_of flow.now q) }
        requires steps { IsOpen self.old.chains.heads.items (q + 1) → StepsOn flow.now q }
        requires search { IsSearchTo flow.now search.old q }
        ensures one_more { OnOk result (IsBackwardTo flow.now self.new (q + 1) (start_of flow.now q)) }
        ensures search { OnOk result (IsSearchTo flow.now search.new (q + 1)) }
    {
        match flow.exits[q as usize].exit() {
            Exit::Calls { entry } => self.add(Lead::Call { from: q }, entry)?,
            Exit::Leaves => find_leaving(flow, search, q),
            Exit::CallsOut | Exit::CallsNever | Exit::Passes => {}
        }
        Ok(())
    }

    /// Lists an edge of a point, unless it leads right behind that.
    fn add_edge(&mut self, flow: &Flow, q: u32, number: u32) -> Result<(), NoMemory>
        requires shape { HasShape flow.now }
        requires edge { IsEdgeOf flow.now q number }
        requires so_far { IsBackwardTo flow.now self.old (q + 1) number }
        ensures { OnOk result (IsBackwardTo flow.now self.new (q + 1) (number + 1)) }
    {
        let to = flow.edges[number as usize].to;
        let behind = q + 1;
        if to == behind {
            return Ok(());
        }
        self.add(Lead::Edge { from: q, number }, to)?;
        Ok(())
    }

    /// Lists all of a point that isn't plain.
    fn add_point(&mut self, flow: &Flow, search: &mut Search, q: u32) -> Result<(), NoMemory>
        requires shape { HasShape flow.now }
        requires point { q < points_of flow.now }
        requires so_far { IsBackwardTo flow.now self.old q (start_of flow.now q) }
        requires search { IsSearchTo flow.now search.old q }
        ensures one_more { OnOk result (IsBackwardTo flow.now self.new (q + 1) (start_of flow.now (q + 1))) }
        ensures search { OnOk result (IsSearchTo flow.now search.new (q + 1)) }
    {
        self.close_behind(flow, q);
        self.add_exit(flow, search, q)?;
        'edges: for number in flow.starts[q as usize]..flow.starts[q as usize + 1] {
            self.add_edge(flow, q, number)?;
        }
        Ok(())
    }

    /// What leads to the points of a flow. On the way those are found from which a return comes.
    pub(crate) fn new(alloc: Global, flow: &Flow, search: &mut Search) -> Result<Backward, NoMemory>
        requires shape { HasShape flow.now }
        requires search { IsSearchTo flow.now search.old 0 }
        ensures backward { IfOk result (IsBackward flow.now) }
        ensures search { OnOk result (IsSearchTo flow.now search.new (points_of flow.now)) }
    {
        let mut backward = Backward::empty(alloc, flow)?;
        let mut at = end_of_plain(flow, 0);
        'points: while (at as usize) < flow.exits.len() {
            backward.add_point(flow, search, at)?;
            at = end_of_plain(flow, at + 1);
        }
        Ok(backward)
    }
}
