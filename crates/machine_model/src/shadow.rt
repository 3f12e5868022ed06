//! The shadow call stack, the top frame first.

ghost use Rattle.std.specs.Prelude.{◌≡◌, ◌≤◌, length, take, IfOk, IsTrue, option_map, flat_map, map};
ghost use Rattle.state_defs.specs.Frame.{top_slot, protected, protected_addresses, listed, end_of, AreKept, with_top_slot, after_save, loaded_slot, popped_slot};
ghost use Rattle.machine_model.specs.Slot.{slot_of};
ghost use Rattle.program_model.specs.Region.{region_of};
ghost use Rattle.machine_model.specs.Frame.{frames_of, words_of, IsWordKept};

use crate::frame::{Frame, Protected};
use crate::slot::Slot;
use program_model::Region;
use state_defs::EndKind;
use std::alloc::{AllocError, Global};

/// The slot of the top frame, where there is a frame.
pub fn top_slot(frames: &[Frame]) -> Option<Slot>
    ensures { option_map slot_of result ≡ top_slot (frames_of frames.now) }
{
    match frames {
        [] => None,
        [top, ..] => Some(top.slot),
    }
}

/// The protected slots of these frames.
pub fn protected(alloc: Global, frames: &[Frame]) -> Result<Vec<Protected>, AllocError>
    ensures { IfOk result (λ words. words_of words.items ≡ flat_map protected (frames_of frames.now)) }
{
    let mut slots = Vec::new(alloc);
    for frame in frames {
        let words = frame.protected(alloc)?;
        slots.extend_from_slice(words.as_slice())?;
    }
    Ok(slots)
}

/// The addresses of some words.
fn addresses_of(alloc: Global, words: &[Protected]) -> Result<Vec<u64>, AllocError>
    ensures { IfOk result (λ addresses. addresses.items ≡ map (λ w. w.at) words.now) }
{
    words.iter().map(|word| word.at).collect(alloc)
}

/// The addresses of the protected slots of these frames.
#[tactic(auto, using(crate::proofs::Frames::addresses_are))]
pub fn protected_addresses(alloc: Global, frames: &[Frame]) -> Result<Vec<u64>, AllocError>
    ensures { IfOk result (λ addresses. addresses.items ≡ protected_addresses (frames_of frames.now)) }
{
    let words = protected(alloc, frames)?;
    addresses_of(alloc, words.as_slice())
}

/// How many frames a walk is to find.
fn listed_count(ended: Option<EndKind>, frames: &[Frame]) -> usize
    ensures within { result ≤ length frames.now }
    ensures listed { frames_of (take result frames.now) ≡ listed ended (frames_of frames.now) }
{
    match (ended, frames) {
        (Some(_), _) | (None, []) => 0,
        (None, [top, below @ ..]) => listed_count(top.ended_caller, below) + 1,
    }
}

/// The frames that a walk is to find: from the top, down to the first whose caller's stack had ended,
/// that one included, or to the last; none where the stack has ended at the top.
pub fn listed(ended: Option<EndKind>, frames: &[Frame]) -> &[Frame]
    ensures { frames_of result.now ≡ listed ended (frames_of frames.now) }
{
    &frames[..listed_count(ended, frames)]
}

/// The kind of hint that emptied or cut the list, if one did.
pub fn end_of(ended: Option<EndKind>, frames: &[Frame]) -> Option<EndKind>
    ensures { result ≡ end_of ended (frames_of frames.now) }
{
    match (ended, frames) {
        (Some(kind), _) => Some(kind),
        (None, []) => None,
        (None, [top, below @ ..]) => end_of(top.ended_caller, below),
    }
}

/// Whether a word lies at or above rsp and holds its value.
fn is_word_kept(rsp: u64, region: &Region, word: Protected) -> bool
    ensures { IsTrue result → IsWordKept rsp region.now word }
{
    match region.word_at(word.at) {
        Some(held) => rsp <= word.at && held == word.value,
        None => false,
    }
}

/// Whether each protected slot of these frames lies at or above rsp and holds its value.
#[tactic(auto, using(crate::proofs::Frames::words_kept))]
pub fn are_kept(
    alloc: Global,
    rsp: u64,
    region: &Region,
    frames: &[Frame],
) -> Result<bool, AllocError>
    ensures { IfOk result (λ kept. IsTrue kept → AreKept rsp (region_of region.now) (frames_of frames.now)) }
{
    let words = protected(alloc, frames)?;
    for word in &words {
        if !is_word_kept(rsp, region, *word) {
            return Ok(false);
        }
    }
    Ok(true)
}

/// Sets the slot of the top frame, where there is a frame.
pub fn set_top_slot(frames: &mut [Frame], slot: Slot)
    ensures { frames_of frames.new ≡ with_top_slot (λ _. slot_of slot) (frames_of frames.old) }
{
    if let [top, ..] = frames {
        top.slot = slot;
    }
}

/// rbp was written to an address: the top frame's slot is that from then on, where rbp is still the
/// caller's and isn't saved yet.
pub fn save_bp(frames: &mut [Frame], rbp: u64, address: u64)
    ensures { frames_of frames.new ≡ after_save rbp address (frames_of frames.old) }
{
    if let [top, ..] = frames {
        top.slot = top.slot.saved(rbp == top.bp, address);
    }
}

/// rbp was read from an address.
pub fn load_bp(frames: &mut [Frame], address: u64)
    ensures { frames_of frames.new ≡ with_top_slot (loaded_slot address) (frames_of frames.old) }
{
    if let [top, ..] = frames {
        top.slot = top.slot.loaded(address);
    }
}

/// rbp was popped from an address.
pub fn pop_bp(frames: &mut [Frame], address: u64)
    ensures { frames_of frames.new ≡ with_top_slot (popped_slot address) (frames_of frames.old) }
{
    if let [top, ..] = frames {
        top.slot = top.slot.popped(address);
    }
}
