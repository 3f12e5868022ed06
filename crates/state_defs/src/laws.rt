//! What holds of the definitions of this crate.

ghost use Rattle.state_defs.specs.Worked.{HasWorkedMoves, HasWorkedRows};
ghost use Rattle.state_defs.specs.WorkedEffects.{HasEffects};

/// The moves of a function with a frame pointer, and of code over saved registers.
pub fn worked_moves()
    ensures { HasWorkedMoves }
{}

/// The rows of some states, the rules that they meet, and which of two is the least.
pub fn worked_rows()
    ensures { HasWorkedRows }
{}

/// What each operation does to registers, memory and slots.
pub fn worked_effects()
    ensures { HasEffects }
{}
