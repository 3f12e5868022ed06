//! What a state says of rsp, rbp and the frames.

ghost use Rattle.std.specs.Prelude.{IsTrue};
ghost use Rattle.state_defs.specs.State.{MeansDepth, MeansHome, Means, MeansTop};
ghost use Rattle.machine_model.specs.Slot.{slot_of};
ghost use Rattle.machine_model.specs.Frame.{frame_of, frames_of};

use crate::frame::Frame;
use crate::slot::Slot;
use program_model::shifted_back;
use state_defs::{BpHome, Depth, State};

/// Bytes of a whole pt_regs, and of the five words of an interrupt.
const FULL_SIZE: u64 = 168;

const PARTIAL_SIZE: u64 = 40;

fn means_depth(depth: Depth, rsp: u64, cfa: u64) -> bool
    ensures { IsTrue result → MeansDepth depth rsp cfa }
{
    match depth {
        Depth::Known(n) => rsp == shifted_back(cfa, n),
        Depth::AtLeast(n) => i128::from(rsp) + i128::from(n) <= i128::from(cfa),
    }
}

fn means_home(bp: BpHome, rbp: u64, frame: &Frame) -> bool
    ensures { IsTrue result → MeansHome bp rbp frame.now.cfa frame.now.bp (slot_of frame.now.slot) }
{
    match (bp, frame.slot) {
        (BpHome::Same, Slot::Unsaved) => rbp == frame.bp,
        (BpHome::Saved(o), Slot::SavedAt(a)) => a == shifted_back(frame.cfa, o),
        _ => false,
    }
}

fn means_regs(full: bool, depth: i64, rsp: u64, rbp: u64, frame: &Frame) -> bool
    ensures { IsTrue result → Means (State.Regs full depth) rsp rbp (frame_of frame.now) }
{
    match frame.slot {
        Slot::FullAt(at) if full => {
            rsp == shifted_back(at, depth)
                && -32 <= depth
                && u128::from(at) + u128::from(FULL_SIZE) <= u128::from(frame.cfa)
        }
        Slot::PartialAt(at) if !full => {
            rsp == shifted_back(at, depth)
                && 0 <= depth
                && rbp == frame.bp
                && u128::from(at) + u128::from(PARTIAL_SIZE) <= u128::from(frame.cfa)
        }
        _ => false,
    }
}

/// Whether a state is true of rsp, rbp and a frame; an ended one says nothing.
pub fn means(state: State, rsp: u64, rbp: u64, frame: &Frame) -> bool
    ensures { IsTrue result → Means state rsp rbp (frame_of frame.now) }
{
    match state {
        State::Live { depth, fp, bp } => {
            means_depth(depth, rsp, frame.cfa)
                && fp.is_none_or(|m| rbp == shifted_back(frame.cfa, m))
                && means_home(bp, rbp, frame)
        }
        State::Ended(_) => true,
        State::Regs { full, depth } => means_regs(full, depth, rsp, rbp, frame),
    }
}

/// Whether a state is true of a stack of frames: a live one, or one over saved registers, has a top
/// frame.
pub fn means_top(state: State, rsp: u64, rbp: u64, frames: &[Frame]) -> bool
    ensures { IsTrue result → MeansTop state rsp rbp (frames_of frames.now) }
{
    match (state, frames) {
        (State::Ended(_), _) => true,
        (_, [top, ..]) => means(state, rsp, rbp, top),
        (_, []) => false,
    }
}
