//! The law on which the theorem rests: in an accepted program the stack can be told at every point of every run.
#![tactic(auto)]

ghost use Rattle.machine_defs.specs.Law.{UnwindingLaw};
ghost use Rattle.unwinding_law.specs.Worked.{UnwindsWorked, WrecksUnbalanced};

use stack_state::laws::{move_is_consistent, move_is_sound};

/// In every accepted program, wherever it is placed, every state of every run is in order: its point
/// is kept with a state that tells the truth of registers, memory and frames, each frame goes back to
/// where its own state tells the frame below it, and no stack is wrecked.
pub fn unwinding_law()
    ensures { UnwindingLaw }
{
    move_is_sound();
    move_is_consistent();
}

/// A program with a hint, a gate, a call, a tail call, a fixup, a jump table and an alternatives site meets
/// every premise of the law, and each state of its runs is in order: here the one after a push.
pub fn unwinds_worked()
    ensures { UnwindsWorked }
{
    unwinding_law();
}

/// A function that returns without undoing its push is warned of, and a run of it is wrecked.
pub fn wrecks_unbalanced()
    ensures { WrecksUnbalanced }
{}
