//! The promises, as laws.

ghost use Rattle.option_law.specs.Access.{AccessLaw};
ghost use Rattle.option_law.specs.Branches.{BranchLaw};
ghost use Rattle.option_law.specs.Frames.{FrameLaw};
ghost use Rattle.option_law.specs.Worked.{PromisesWorked};

use unwinding_law::unwinding_law;

/// Where each call is asked to be made with a frame pointer set up (`fp`), it is, in every run.
pub fn calls_have_frames()
    ensures { FrameLaw }
{
    unwinding_law();
}

/// Where indirect branches are forbidden (`retpoline`), or returns (`rethunk`), no run comes to one that isn't listed as
/// safe.
pub fn branches_are_safe()
    ensures { BranchLaw }
{
    unwinding_law();
}

/// Where user access is tracked (`uaccess`), no run calls a function with user access on that isn't listed as safe, and each
/// function leaves user access as it found it.
pub fn access_is_kept()
    ensures { AccessLaw }
{
    unwinding_law();
}

/// A program with a frame pointer, a replacement that turns user access on, a call of a safe function and listed returns meets
/// every premise of the three, and has a run of which each promises something.
pub fn promises_worked()
    ensures { PromisesWorked }
{
    calls_have_frames();
    branches_are_safe();
    access_is_kept();
}
