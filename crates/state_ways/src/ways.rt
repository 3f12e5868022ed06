//! The ways to points, by their turns.

ghost use Rattle.std.specs.Prelude.{◌≡◌, ◌≢◌, ◌+◌, ◌<◌, ◌↔◌, ◌++◌, ◌∷◌, [], ℕ, IfOk, IsTrue, OnErr, OnOk, length, replicate, reverse, slice_set, take, true};
ghost use Rattle.state_ways.specs.Turns.{AreInOrder, chain_at, chains_of};
ghost use Rattle.state_ways.specs.Ways.{is_turn as is_turn_kind, step, turns as turns_of_way, turns_at};

use crate::steps::{WayKind, WayStep, is_turn};
use ot_base::NoMemory;
use std::alloc::Global;
use std::marker::Model;

/// In place of the number of a turn, where there is none.
const NOWHERE: u32 = u32::MAX;

/// A place at which control didn't just go on, on the way to some points.
#[derive(Clone, Copy)]
struct Turn {
    /// How control came there.
    step: WayStep,
    /// The number of the turn before it, where it isn't the first of the way.
    before: Option<u32>,
}

/// For each point of a program that is kept, a way by which its state spread to it: its turns, which are the places at which
/// control didn't just go on from one instruction to the next. Contracts see it as the list of these by point, with no turns
/// where a point isn't kept.
///
/// A point takes 4 bytes. Turns are shared by all the points to which control just goes on from them, and by all turns behind
/// them.
#[derive(Drop)]
pub struct Ways {
    /// By point, the number of the last turn on the way to it.
    last: Vec<u32>,
    /// The turns, each behind the one before it on its way.
    turns: Vec<Turn>,
}

impl Model for Ways {
    ghost use Rattle.std.specs.Prelude.{List, map};
    ghost use Rattle.state_ways.specs.declared.steps.WayStep.{WayStep};
    ghost use Rattle.state_ways.specs.Turns.{AreTurns, chain_at, chains_of};

    ghost Value = { List (List WayStep) };

    ghost view = { λ w. map (chain_at (chains_of w.turns.items)) w.last.items };

    ghost invariant = { λ w. AreTurns w.last.items w.turns.items };
}

/// A list in which no point names a turn.
fn none_named(alloc: Global, points: u32) -> Result<Vec<u32>, NoMemory>
    ensures { IfOk result (λ last. last.items ≡ replicate points NOWHERE) }
{
    Ok(vec![in alloc; NOWHERE; points as usize]?)
}

/// Pushes the turns up to one of them, the last one first. Where memory is wanting it has pushed some.
fn push_chain(turns: &[Turn], last: u32, into: &mut Vec<WayStep>) -> Result<(), NoMemory>
    requires last { last < length turns.now }
    requires before { AreInOrder turns.now }
    ensures ok { OnOk result (into.new.items ≡ into.old.items ++ reverse (chain_at (chains_of turns.now) last)) }
    ensures start { take (length into.old.items) into.new.items ≡ into.old.items }
{
    let mut next = Some(last);
    while let Some(number) = next {
        let turn = turns[number as usize];
        into.push(turn.step)?;
        next = turn.before;
    }
    Ok(())
}

impl Ways {
    /// No way is noted yet.
    pub(crate) fn none(alloc: Global, points: u32) -> Result<Ways, NoMemory>
        ensures { IfOk result (λ ways. ways ≡ replicate points []) }
    {
        Ok(Ways {
            last: none_named(alloc, points)?,
            turns: Vec::new(alloc),
        })
    }

    /// Whether a way to a point is noted, which is so where it is kept.
    pub fn is_shown(&self, point: u32) -> bool
        requires { point < length self.now }
        ensures { IsTrue result ↔ (turns_at self.now point ≢ []) }
    {
        self.last[point as usize] != NOWHERE
    }

    /// Notes that a way begins at a point.
    pub(crate) fn begin(&mut self, point: u32, kind: WayKind) -> Result<(), NoMemory>
        requires point { point < length self.old }
        requires fresh { turns_at self.old point ≡ [] }
        requires turn { is_turn_kind kind ≡ true }
        ensures { OnOk result (self.new ≡ slice_set self.old point (step point kind ∷ [])) }
    {
        let number = self.turns.len() as u32;
        let step = WayStep { point, kind };
        self.turns.push(Turn { step, before: None })?;
        self.last[point as usize] = number;
        Ok(())
    }

    /// Notes that control just goes on to a point from another one.
    fn pass(&mut self, point: u32, from: u32)
        requires point { point < length self.old }
        requires from { from < length self.old }
        requires fresh { turns_at self.old point ≡ [] }
        ensures { self.new ≡ slice_set self.old point (turns_at self.old from) }
    {
        let last = self.last[from as usize];
        self.last[point as usize] = last;
    }

    /// Notes a turn from one point, to which a way is noted, to another.
    fn turn(&mut self, point: u32, from: u32, kind: WayKind) -> Result<(), NoMemory>
        requires point { point < length self.old }
        requires from { from < length self.old }
        requires fresh { turns_at self.old point ≡ [] }
        requires shown { turns_at self.old from ≢ [] }
        ensures { OnOk result (self.new ≡ slice_set self.old point (turns_at self.old from ++ step point kind ∷ [])) }
    {
        let number = self.turns.len() as u32;
        let step = WayStep { point, kind };
        let before = Some(self.last[from as usize]);
        self.turns.push(Turn { step, before })?;
        self.last[point as usize] = number;
        Ok(())
    }

    /// Notes that a way leads on to a point from another one, to which it is noted.
    pub(crate) fn go_on(&mut self, point: u32, from: u32, kind: WayKind) -> Result<(), NoMemory>
        requires point { point < length self.old }
        requires from { from < length self.old }
        requires fresh { turns_at self.old point ≡ [] }
        requires shown { turns_at self.old from ≢ [] }
        ensures { OnOk result (self.new ≡ slice_set self.old point (turns_at self.old from ++ turns_of_way (step point kind ∷ []))) }
    {
        if is_turn(kind) {
            self.turn(point, from, kind)
        } else {
            self.pass(point, from);
            Ok(())
        }
    }

    /// Pushes the turns of the way to a point, the last one first. Where memory is wanting it has pushed some.
    fn push_backwards(&self, point: u32, into: &mut Vec<WayStep>) -> Result<(), NoMemory>
        requires { point < length self.now }
        ensures ok { OnOk result (into.new.items ≡ into.old.items ++ reverse (turns_at self.now point)) }
        ensures start { take (length into.old.items) into.new.items ≡ into.old.items }
    {
        let last = self.last[point as usize];
        if last == NOWHERE {
            return Ok(());
        }
        push_chain(&self.turns, last, into)
    }

    /// Pushes the turns of a way to a point, in order: the place where it begins, and then each to which control didn't just
    /// go on from the instruction before it. None are pushed where the point isn't kept, or where memory is wanting.
    pub fn turns_of(&self, point: u32, into: &mut Vec<WayStep>) -> Result<(), NoMemory>
        requires { point < length self.now }
        ensures ok { OnOk result (into.new.items ≡ into.old.items ++ turns_at self.now point) }
        ensures err { OnErr result (into.new.items ≡ into.old.items) }
    {
        let from = into.len();
        if self.push_backwards(point, into).is_err() {
            into.truncate(from);
            return Err(NoMemory);
        }
        into[from..].reverse();
        Ok(())
    }
}
