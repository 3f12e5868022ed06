//! What holds of the definitions of this crate.

ghost use Rattle.machine_defs.specs.Kept.{KeptIsOne, KeptStays};
ghost use Rattle.machine_defs.specs.WorkedAccess.{WarnsWhereAsked};
ghost use Rattle.machine_defs.specs.WorkedHoles.{LeavesHoles};
ghost use Rattle.machine_defs.specs.WorkedWarnings.{WarnsOfEach};

/// A point keeps the state that it was first given.
pub fn kept_stays()
    ensures { KeptStays }
{}

/// A point has at most one kept state.
pub fn kept_is_one()
    ensures { KeptIsOne }
{}

/// A warning for each reason.
pub fn worked_warnings()
    ensures { WarnsOfEach }
{}

/// A warning for each reason that an option asks for.
pub fn worked_access()
    ensures { WarnsWhereAsked }
{}

/// What is told of code that no symbol covers.
pub fn worked_holes()
    ensures { LeavesHoles }
{}
