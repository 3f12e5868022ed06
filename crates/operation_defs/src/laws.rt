//! What holds of the definitions of this crate.

ghost use Rattle.operation_defs.specs.Worked.{HasWorkedMade};

/// What a program makes of some decoded operations.
pub fn worked_made()
    ensures { HasWorkedMade }
{}
