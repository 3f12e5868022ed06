ghost use Rattle.std.specs.Prelude.{IsTrue};
ghost use Rattle.program_model.specs.Region.{region_of};
ghost use Rattle.machine_model.specs.Standing.{IsInRegion};

use crate::frame::{Frame, Mark};
use crate::shadow::{are_kept, end_of, listed, protected_addresses, top_slot};
use program_model::Region;
use state_defs::EndKind;
use std::alloc::{AllocError, Global};

/// Whether a region ends a gigabyte below the last address, and rsp is in it or right behind it.
fn is_in_region(rsp: u64, rbp: u64, region: &Region) -> bool
    ensures { IsTrue result → IsInRegion rsp rbp (region_of region.now) }
{
    if !region.is_placed() || rsp < region.lo {
        return false;
    }
    u128::from(rsp) <= region.end()
}

/// What an operation acts on: the registers that matter to the stack, the stack in memory, and the
/// shadow call stack.
#[derive(Clone, Drop)]
pub struct Core {
    pub rsp: u64,
    pub rbp: u64,
    /// The stack in memory.
    pub region: Region,
    /// Whether user access is on.
    pub ac: bool,
    /// The shadow call stack, the top frame first.
    pub shadow: Vec<Frame>,
}

impl Core {
    ghost use Rattle.std.specs.Prelude.{◌≡◌, IfOk};
    ghost use Rattle.state_defs.specs.Frame.{protected_addresses};
    ghost use Rattle.state_defs.specs.Effect.{IsInStack};
    ghost use Rattle.machine_model.specs.Standing.{core_of};
    ghost use Rattle.machine_model.specs.Frame.{frames_of};

    /// The addresses of the words that ordinary stores spare.
    pub fn spared(&self, alloc: Global) -> Result<Vec<u64>, AllocError>
        ensures { IfOk result (λ spared. spared.items ≡ protected_addresses (frames_of self.now.shadow.items)) }
    {
        protected_addresses(alloc, self.shadow.as_slice())
    }

    /// Whether the region stays clear of the end of the addresses by a gigabyte, and rsp is in it or
    /// right behind it.
    pub fn is_in_stack(&self) -> bool
        ensures { IsTrue result → IsInStack (core_of self.now) }
    {
        is_in_region(self.rsp, self.rbp, &self.region)
    }
}

/// A state in which the machine stands at a point, its instruction not yet executed.
#[derive(Clone, Drop)]
pub struct Standing {
    /// The point.
    pub point: u32,
    /// Registers, memory and frames.
    pub core: Core,
    /// The kind of hint that ended the stack, if one did.
    pub ended: Option<EndKind>,
    /// The last SAVE hint passed on this level.
    pub mark: Option<Mark>,
}

impl Standing {
    ghost use Rattle.std.specs.Prelude.{◌≡◌, IfOk};
    ghost use Rattle.state_defs.specs.Frame.{listed};
    ghost use Rattle.machine_defs.specs.Machine.{frames_end};
    ghost use Rattle.machine_defs.specs.Hint.{KeepsSlots, mark_at};
    ghost use Rattle.machine_model.specs.Frame.{frames_of, mark_of};
    ghost use Rattle.machine_model.specs.Standing.{standing_of};

    /// The frames that a walk is to find.
    pub fn frames(&self) -> &[Frame]
        ensures { frames_of result.now ≡ listed self.now.ended (frames_of self.now.core.shadow.items) }
    {
        listed(self.ended, self.core.shadow.as_slice())
    }

    /// The kind of hint that emptied or cut them, if one did.
    pub fn frames_end(&self) -> Option<EndKind>
        ensures { result ≡ frames_end (standing_of self.now) }
    {
        end_of(self.ended, self.core.shadow.as_slice())
    }

    /// Whether the frames that a walk is to find keep their protected slots.
    pub fn keeps_slots(&self, alloc: Global) -> Result<bool, AllocError>
        ensures { IfOk result (λ keeps. IsTrue keeps → KeepsSlots (standing_of self.now)) }
    {
        are_kept(alloc, self.core.rsp, &self.core.region, self.frames())
    }

    /// What rsp, rbp, the top frame's slot and the end of the stack are here.
    pub fn mark_here(&self) -> Mark
        ensures { mark_of result ≡ mark_at (standing_of self.now) }
    {
        Mark {
            point: self.point,
            rsp: self.core.rsp,
            rbp: self.core.rbp,
            slot: top_slot(self.core.shadow.as_slice()),
            ended: self.ended,
        }
    }
}

/// A state of the machine.
#[derive(Drop)]
pub enum Machine {
    /// Its stack was wrecked.
    Wrecked,
    /// It stands somewhere.
    At(Standing),
}
