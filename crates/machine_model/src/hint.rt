//! Unwind hints: when they are true, and what they do.

ghost use Rattle.std.specs.Prelude.{◌≡◌, IfOk, IfSome, IsTrue, List, Bool};
ghost use Rattle.machine_defs.specs.Hint.{IsInInterrupt, SetsState, Restores, Hinted, Lands, hinted_slot};
ghost use Rattle.machine_model.specs.Slot.{slot_of};
ghost use Rattle.machine_model.specs.Frame.{frames_of};
ghost use Rattle.machine_model.specs.Standing.{standing_of};
ghost use Rattle.machine_model.specs.Hint.{IsToldAt, IsKeptAt, IsAtMark, with_regs};
ghost use Rattle.program_model.specs.Program.{program_of};

use crate::frame::{Frame, Mark};
use crate::means::means_top;
use crate::shadow::{set_top_slot, top_slot};
use crate::slot::Slot;
use crate::standing::Standing;
use program_model::{Program, shifted};
use state_defs::{HintState, State};
use std::alloc::{AllocError, Global};

/// Whether the top frame is an interrupt's.
fn is_in_interrupt(frames: &[Frame]) -> bool
    ensures { IsTrue result → IsInInterrupt (frames_of frames.now) }
{
    match frames {
        [] => false,
        [top, ..] => !top.slot.is_of_call(),
    }
}

/// The standing, where the frames that a walk is to find keep their protected slots.
fn keeping(alloc: Global, s: Standing) -> Result<Option<Standing>, AllocError>
    ensures { IfOk result (λ kept. IfSome kept (IsKeptAt s)) }
{
    if s.keeps_slots(alloc)? {
        Ok(Some(s))
    } else {
        Ok(None)
    }
}

/// The standing, where the state is true there.
fn told(alloc: Global, state: State, s: Standing) -> Result<Option<Standing>, AllocError>
    ensures { IfOk result (λ told. IfSome told (IsToldAt state s)) }
{
    if means_top(state, s.core.rsp, s.core.rbp, s.core.shadow.as_slice()) {
        keeping(alloc, s)
    } else {
        Ok(None)
    }
}

/// The slot where a hint says that saved registers stand.
fn hinted_slot(full: bool, address: u64) -> Slot
    ensures { slot_of result ≡ hinted_slot full address }
{
    if full {
        Slot::FullAt(address)
    } else {
        Slot::PartialAt(address)
    }
}

/// The standing with the top frame's slot set where a hint says that saved registers stand, on a stack that
/// hasn't ended.
fn with_regs(s: Standing, full: bool, depth: i64) -> Standing
    ensures { standing_of result ≡ with_regs full depth (standing_of s) }
{
    let mut s = s;
    let slot = hinted_slot(full, shifted(s.core.rsp, depth));
    set_top_slot(s.core.shadow.as_mut_slice(), slot);
    s.ended = None;
    s
}

/// A hint sets a state over saved registers, where it is true.
fn sets_regs(
    alloc: Global,
    full: bool,
    depth: i64,
    s: Standing,
) -> Result<Option<Standing>, AllocError>
    ensures { IfOk result (λ set. IfSome set (λ t. SetsState (State.Regs full depth) (standing_of s) (standing_of t))) }
{
    if is_in_interrupt(s.core.shadow.as_slice()) {
        told(
            alloc,
            State::Regs { full, depth },
            with_regs(s, full, depth),
        )
    } else {
        Ok(None)
    }
}

/// A hint sets a state, where it is true: of saved registers with the top frame's slot set where the
/// hint says.
fn sets_state(alloc: Global, state: State, s: Standing) -> Result<Option<Standing>, AllocError>
    ensures { IfOk result (λ set. IfSome set (λ t. SetsState state (standing_of s) (standing_of t))) }
{
    let mut s = s;
    match state {
        State::Live { .. } => {
            s.ended = None;
            told(alloc, state, s)
        }
        State::Ended(kind) => {
            s.ended = Some(kind);
            Ok(Some(s))
        }
        State::Regs { full, depth } => sets_regs(alloc, full, depth, s),
    }
}

/// Whether two slots, where there are frames, are one.
fn is_same_slot(one: Option<Slot>, other: Option<Slot>) -> bool
    ensures { IsTrue result → one ≡ other }
{
    match (one, other) {
        (None, None) => true,
        (Some(one), Some(other)) => one == other,
        _ => false,
    }
}

/// Whether rsp, rbp and the top frame's slot are what they were at a mark.
fn is_at_mark(s: &Standing, mark: Mark) -> bool
    ensures { IsTrue result → IsAtMark s.now mark }
{
    if s.core.rsp != mark.rsp || s.core.rbp != mark.rbp {
        return false;
    }
    is_same_slot(top_slot(s.core.shadow.as_slice()), mark.slot)
}

/// A RESTORE is true where the last SAVE is the one that it means, and rsp, rbp and the top frame's
/// slot are what they were there.
fn restores(alloc: Global, save: Option<u32>, s: Standing) -> Result<Option<Standing>, AllocError>
    ensures { IfOk result (λ restored. IfSome restored (λ t. Restores save (standing_of s) (standing_of t))) }
{
    let (Some(mark), Some(meant)) = (s.mark, save) else {
        return Ok(None);
    };
    if meant != mark.point || !is_at_mark(&s, mark) {
        return Ok(None);
    }
    let mut s = s;
    s.ended = mark.ended;
    keeping(alloc, s)
}

/// What the hint that stands at a point makes of the standing there.
fn hinted(
    alloc: Global,
    hint: Option<HintState>,
    save: Option<u32>,
    s: Standing,
) -> Result<Option<Standing>, AllocError>
    ensures { IfOk result (λ hinted. IfSome hinted (λ t. Hinted hint save (standing_of s) (standing_of t))) }
{
    match hint {
        None => Ok(Some(s)),
        Some(HintState::Set(state)) => sets_state(alloc, state, s),
        Some(HintState::Save) => {
            let mark = s.mark_here();
            let mut s = s;
            s.mark = Some(mark);
            Ok(Some(s))
        }
        Some(HintState::Restore) => restores(alloc, save, s),
    }
}

/// The machine has come to a point, and the hint there, if there is one, does its work; none where it
/// isn't true.
#[tactic(auto, using(crate::proofs::Hints::lands_at))]
pub fn lands(alloc: Global, p: &Program, s: Standing) -> Result<Option<Standing>, AllocError>
    ensures { (set : List Bool) → IfOk result (λ landed. IfSome landed (λ t. Lands (program_of p.now set) (standing_of s) (standing_of t))) }
{
    let (hint, save) = match p.point(s.point) {
        Some(point) => (point.hint, point.save_of),
        None => return Ok(None),
    };
    hinted(alloc, hint, save, s)
}
