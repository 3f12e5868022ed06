//! A list of warnings, and what goes into it.

ghost use Rattle.std.specs.Prelude.{◌≡◌, IsTrue, OnOk, pos};
ghost use Rattle.ot_base.specs.Warnings.{bare_warning, numbered_warning};
ghost use Rattle.stack_rules.specs.Gains.{Gains};
ghost use Rattle.ot_base.specs.declared.rules.TheConstants.{CALL_LEAVES_NOINSTR as call_leaves_noinstr};

use ot_base::{NoMemory, Place, Warning};

/// Adds a warning that a call or jump leaves code that isn't instrumented, with the number that tells the callee.
pub(crate) fn push_callee(
    into: &mut Vec<Warning>,
    place: Place,
    callee: i64,
) -> Result<(), NoMemory>
    ensures { OnOk result (Gains into.old.items into.new.items (λ w. w ≡ numbered_warning place call_leaves_noinstr callee (pos 0))) }
{
    into.push(Warning::leaves_noinstr(place, callee))?;
    Ok(())
}

/// Adds a warning that tells no number, where its rule is broken.
pub(crate) fn push_if(
    into: &mut Vec<Warning>,
    is_broken: bool,
    place: Place,
    rule: u8,
) -> Result<(), NoMemory>
    ensures { OnOk result (Gains into.old.items into.new.items (λ w. IsTrue is_broken × w ≡ bare_warning place rule)) }
{
    if is_broken {
        into.push(Warning::bare(place, rule))?;
    }
    Ok(())
}
