//! The rules 44 to 47: operations on user access.

ghost use Rattle.std.specs.Prelude.{◌≡◌, ◌↔◌, true, IsSome, IsTrue, OnOk};
ghost use Rattle.stack_rules.specs.Gains.{Gains};
ghost use Rattle.program_check.specs.Ways.{IsInSafe, IsOn};
ghost use Rattle.program_check.specs.PointWarns.{OperationWarns};

use crate::access_listing::push_if;
use crate::access_ways::Ways;
use operation_defs::Op;
use ot_base::rules::{
    ACCESS_OFF_TWICE, ACCESS_ON_TWICE, POPF_WITH_ACCESS_TRACKED, SAFE_FUNCTION_ACCESS_OFF,
};
use ot_base::{NoMemory, Place, Warning};

/// Whether user access is turned on where it is on.
fn turns_on_twice(op: Op, ways: Ways) -> bool
    ensures { IsTrue result ↔ (op ≡ Op.Stac × IsOn ways) }
{
    matches!(op, Op::Stac) && ways.is_on()
}

/// Whether user access is turned off where it is off, in a function that isn't safe. Code of no function may do so.
fn turns_off_twice(op: Op, owner: Option<u32>, ways: Ways) -> bool
    ensures { IsTrue result ↔ (op ≡ Op.Clac × ways.other_off ≡ true × IsSome owner) }
{
    matches!(op, Op::Clac) && ways.other_off && owner.is_some()
}

/// Whether a safe function turns user access off.
fn safe_turns_off(op: Op, ways: Ways) -> bool
    ensures { IsTrue result ↔ (op ≡ Op.Clac × IsInSafe ways) }
{
    matches!(op, Op::Clac) && ways.is_in_safe()
}

/// Whether an operation may turn user access off unseen.
fn pops_flags(op: Op, ways: Ways) -> bool
    ensures { IsTrue result ↔ (op ≡ Op.Popf × IsOn ways) }
{
    matches!(op, Op::Popf) && ways.is_on()
}

/// The rules 44 to 47 at a point of this function.
pub(crate) fn push_operation(
    into: &mut Vec<Warning>,
    place: Place,
    op: Op,
    owner: Option<u32>,
    ways: Ways,
) -> Result<(), NoMemory>
    ensures { OnOk result (Gains into.old.items into.new.items (OperationWarns place op owner ways)) }
{
    push_if(into, turns_on_twice(op, ways), place, ACCESS_ON_TWICE)?;
    push_if(
        into,
        turns_off_twice(op, owner, ways),
        place,
        ACCESS_OFF_TWICE,
    )?;
    push_if(
        into,
        safe_turns_off(op, ways),
        place,
        SAFE_FUNCTION_ACCESS_OFF,
    )?;
    push_if(into, pops_flags(op, ways), place, POPF_WITH_ACCESS_TRACKED)
}
