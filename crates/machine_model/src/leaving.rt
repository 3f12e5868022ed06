//! Where code may leave, and a run ends.

ghost use Rattle.std.specs.Prelude.{◌≡◌, List, Bool};
ghost use Rattle.machine_defs.specs.Step.{is_in_interrupt, ends_run};
ghost use Rattle.program_model.specs.Program.{program_of};
ghost use Rattle.machine_model.specs.Frame.{frames_of};
ghost use Rattle.machine_model.specs.Standing.{standing_of};

use crate::frame::Frame;
use crate::standing::Standing;
use program_model::{Program, may_leave};

/// Whether the top frame is an interrupt's.
fn is_in_interrupt(frames: &[Frame]) -> bool
    ensures { result ≡ is_in_interrupt (frames_of frames.now) }
{
    match frames {
        [] => false,
        [top, ..] => !top.slot.is_of_call(),
    }
}

/// Whether a run ends here: code that may leave does so where the stack has ended, or in an interrupt's frame.
pub fn ends_run(p: &Program, s: &Standing) -> bool
    ensures { (set : List Bool) → result ≡ ends_run (program_of p.now set) (standing_of s.now) }
{
    may_leave(p, s.point) && (s.ended.is_some() || is_in_interrupt(s.core.shadow.as_slice()))
}
