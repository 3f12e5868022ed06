//! What an operation does to registers, memory and slots.

ghost use Rattle.std.specs.Prelude.{◌≡◌, ◌≤◌, ◌^◌, ◌&&◌, ◌+ℤ◌, pos, int_le, IfOk, IfSome, IsTrue, true};
ghost use Rattle.state_defs.specs.Region.{hi_of, WritesWord};
ghost use Rattle.state_defs.specs.Frame.{after_save};
ghost use Rattle.state_defs.specs.Effect.{Effect, MakesRoom, StoresOrdinarily, store_saves};
ghost use Rattle.state_defs.specs.Address.{shifted};
ghost use Rattle.program_model.specs.Region.{region_of};
ghost use Rattle.machine_model.specs.Frame.{frames_of};
ghost use Rattle.machine_model.specs.Standing.{core_of, StoresOnly, SavesAt, StoresAt};

use crate::choice::Anything;
use crate::frame::Frame;
use crate::shadow::{load_bp, pop_bp, save_bp};
use crate::slot::Slot;
use crate::standing::Core;
use operation_defs::Op;
use program_model::{Store, down, shifted, up};
use std::alloc::{AllocError, Global};

/// Ordinary stores: to any bytes outside protected slots.
pub fn store_ordinarily(
    alloc: Global,
    core: Core,
    stores: &[Store],
) -> Result<Option<Core>, AllocError>
    ensures { IfOk result (λ stored. IfSome stored (λ after. StoresOnly (core_of core) (core_of after))) }
{
    let mut core = core;
    let spared = core.spared(alloc)?;
    match core.region.stored(stores, spared.as_slice())? {
        None => Ok(None),
        Some(region) => {
            core.region = region;
            Ok(Some(core))
        }
    }
}

/// A word other than rbp is pushed.
fn push(core: Core, word: u64) -> Core
    ensures { Effect Op.Push (core_of core) (core_of result) }
{
    let mut core = core;
    let rsp = down(core.rsp, 8);
    core.rsp = rsp;
    core.region.write_word(rsp, word);
    core
}

/// rbp is stored at an address, into its slot.
fn save_at(core: Core, address: u64) -> Core
    ensures { SavesAt address (core_of core) (core_of result) }
{
    let mut core = core;
    let rbp = core.rbp;
    core.region.write_word(address, rbp);
    save_bp(core.shadow.as_mut_slice(), rbp, address);
    core
}

/// rbp is pushed, which saves it for the top frame where it is still the caller's.
fn push_bp(core: Core) -> Core
    ensures { hi_of (region_of core.region) ≤ 2 ^ 64 → Effect Op.PushBp (core_of core) (core_of result) }
{
    let mut core = core;
    let rsp = down(core.rsp, 8);
    core.rsp = rsp;
    save_at(core, rsp)
}

/// Whether a word at rsp + at lies at or above rsp and below the return address. The sum is plain.
fn is_in_frame(rsp: u64, at: i64, cfa: u64) -> bool
    ensures { result ≡ (int_le (pos 0) at && int_le (pos rsp +ℤ (at +ℤ pos 16)) (pos cfa)) }
{
    0 <= at && i128::from(rsp) + (i128::from(at) + 16) <= i128::from(cfa)
}

/// Whether a store of rbp at rsp + at saves it for the top frame: rbp is still the caller's and isn't
/// saved yet, and the slot lies at or above rsp and below the return address.
fn store_saves(rsp: u64, rbp: u64, at: i64, frames: &[Frame]) -> bool
    ensures { result ≡ store_saves rsp rbp at (frames_of frames.now) }
{
    match frames {
        [] => false,
        [top, ..] => match top.slot {
            Slot::Unsaved => rbp == top.bp && is_in_frame(rsp, at, top.cfa),
            _ => false,
        },
    }
}

/// rbp is stored at an address, as an ordinary store.
fn store_at(alloc: Global, core: Core, address: u64) -> Result<Option<Core>, AllocError>
    ensures { IfOk result (λ stored. IfSome stored (λ after. StoresAt address (core_of core) (core_of after))) }
{
    let mut core = core;
    let spared = core.spared(alloc)?;
    match core.region.with_word(address, core.rbp, spared.as_slice())? {
        None => Ok(None),
        Some(region) => {
            core.region = region;
            Ok(Some(core))
        }
    }
}

/// rbp is stored at rsp + at: into its slot, or as an ordinary store.
fn store_bp(alloc: Global, core: Core, at: i64) -> Result<Option<Core>, AllocError>
    ensures { IfOk result (λ stored. IfSome stored (λ after. hi_of (region_of core.region) ≤ 2 ^ 64 → Effect (Op.StoreBp at) (core_of core) (core_of after))) }
{
    let address = shifted(core.rsp, at);
    if store_saves(core.rsp, core.rbp, at, core.shadow.as_slice()) {
        Ok(Some(save_at(core, address)))
    } else {
        store_at(alloc, core, address)
    }
}

/// rsp rises past a popped word, which goes elsewhere.
fn pop(alloc: Global, core: Core, stores: &[Store]) -> Result<Option<Core>, AllocError>
    ensures { IfOk result (λ popped. IfSome popped (λ after. Effect Op.Pop (core_of core) (core_of after))) }
{
    match store_ordinarily(alloc, core, stores)? {
        None => Ok(None),
        Some(stored) => {
            let mut after = stored;
            after.rsp = up(after.rsp, 8);
            Ok(Some(after))
        }
    }
}

/// rsp, rbp and memory are written in another way.
fn write_sp(alloc: Global, core: Core, any: &Anything<'_>) -> Result<Option<Core>, AllocError>
    ensures { IfOk result (λ written. IfSome written (λ after. Effect Op.SpOther (core_of core) (core_of after))) }
{
    match store_ordinarily(alloc, core, any.stores)? {
        None => Ok(None),
        Some(stored) => {
            let mut after = stored;
            after.rsp = any.rsp;
            after.rbp = any.rbp;
            Ok(Some(after))
        }
    }
}

/// rbp and memory are written in another way.
fn write_bp(alloc: Global, core: Core, any: &Anything<'_>) -> Result<Option<Core>, AllocError>
    ensures { IfOk result (λ written. IfSome written (λ after. Effect Op.BpOther (core_of core) (core_of after))) }
{
    match store_ordinarily(alloc, core, any.stores)? {
        None => Ok(None),
        Some(stored) => {
            let mut after = stored;
            after.rbp = any.rbp;
            Ok(Some(after))
        }
    }
}

/// rbp is popped from rsp.
fn pop_into_bp(core: Core, any: u64) -> Core
    ensures { Effect Op.PopBp (core_of core) (core_of result) }
{
    let mut core = core;
    let address = core.rsp;
    core.rbp = core.region.read(address, any);
    core.rsp = up(address, 8);
    pop_bp(core.shadow.as_mut_slice(), address);
    core
}

/// rbp is loaded from rsp + at.
fn load_into_bp(core: Core, at: i64, any: u64) -> Core
    ensures { Effect (Op.LoadBp at) (core_of core) (core_of result) }
{
    let mut core = core;
    let address = shifted(core.rsp, at);
    core.rbp = core.region.read(address, any);
    load_bp(core.shadow.as_mut_slice(), address);
    core
}

/// rsp is set to rbp, then rbp is popped.
fn leave(core: Core, any: u64) -> Core
    ensures { Effect Op.Leave (core_of core) (core_of result) }
{
    let mut core = core;
    let address = core.rbp;
    core.rbp = core.region.read(address, any);
    core.rsp = up(address, 8);
    load_bp(core.shadow.as_mut_slice(), address);
    core
}

/// The flags are popped, with any access flag where user access is on; where it is off it stays off.
fn pop_flags(core: Core, ac: bool) -> Core
    ensures { Effect Op.Popf (core_of core) (core_of result) }
{
    let mut core = core;
    core.rsp = up(core.rsp, 8);
    core.ac = core.ac && ac;
    core
}

/// rsp is set to this.
fn with_sp(core: Core, rsp: u64) -> Core
    ensures { core_of result ≡ record (core_of core) { rsp = rsp } }
{
    let mut core = core;
    core.rsp = rsp;
    core
}

/// rsp falls to this, or stays where it is; it doesn't rise.
fn make_room(core: Core, rsp: u64) -> Option<Core>
    ensures { IfSome result (λ after. MakesRoom (core_of core) (core_of after)) }
{
    if rsp > core.rsp {
        return None;
    }
    Some(with_sp(core, rsp))
}

/// rbp is set to this.
fn with_bp(core: Core, rbp: u64) -> Core
    ensures { core_of result ≡ record (core_of core) { rbp = rbp } }
{
    let mut core = core;
    core.rbp = rbp;
    core
}

/// User access is set to this.
fn with_access(core: Core, ac: bool) -> Core
    ensures { core_of result ≡ record (core_of core) { ac = ac } }
{
    let mut core = core;
    core.ac = ac;
    core
}

/// The effect of an operation; none where it has none, as a call, or where the stores that were chosen
/// aren't ordinary, or the rsp that was chosen makes no room.
pub fn effect(
    alloc: Global,
    op: Op,
    core: Core,
    any: &Anything<'_>,
) -> Result<Option<Core>, AllocError>
    ensures { IfOk result (λ effect. IfSome effect (λ after. hi_of (region_of core.region) ≤ 2 ^ 64 → Effect op (core_of core) (core_of after))) }
{
    let (rsp, rbp) = (core.rsp, core.rbp);
    Ok(match op {
        Op::Call { .. } | Op::CallInd | Op::Ret | Op::RetImm | Op::Iret | Op::Switch => None,
        Op::Nop
        | Op::Endbr
        | Op::Jmp { .. }
        | Op::Jcc { .. }
        | Op::JmpInd { .. }
        | Op::Ud2
        | Op::Int3 => Some(core),
        Op::Plain => return store_ordinarily(alloc, core, any.stores),
        Op::Pop => return pop(alloc, core, any.stores),
        Op::SpOther => return write_sp(alloc, core, any),
        Op::BpOther => return write_bp(alloc, core, any),
        Op::StoreBp { at } => return store_bp(alloc, core, at),
        Op::Push | Op::Hop => Some(push(core, any.word)),
        Op::SubSp | Op::SpReg => make_room(core, any.rsp),
        Op::PushBp => Some(push_bp(core)),
        Op::PopBp => Some(pop_into_bp(core, any.word)),
        Op::Popf => Some(pop_flags(core, any.ac)),
        Op::LoadBp { at } => Some(load_into_bp(core, at, any.word)),
        Op::Leave => Some(leave(core, any.word)),
        Op::AddSp { by } => Some(with_sp(core, shifted(rsp, by))),
        Op::IretNext => Some(with_sp(core, up(rsp, 40))),
        Op::AndSp { mask } => Some(with_sp(core, rsp & mask.cast_unsigned())),
        Op::LeaSpBp { by } => Some(with_sp(core, shifted(rbp, by))),
        Op::LeaBpSp { by } => Some(with_bp(core, shifted(rsp, by))),
        Op::LeaBpRoom { by } => Some(with_bp(core, shifted(rsp, by))),
        Op::Stac => Some(with_access(core, true)),
        Op::Clac => Some(with_access(core, false)),
    })
}
