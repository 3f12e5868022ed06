//! A list of warnings, and what goes into it.

ghost use Rattle.std.specs.Prelude.{◌≡◌, IsTrue, OnOk};
ghost use Rattle.ot_base.specs.Warnings.{bare_warning};
ghost use Rattle.stack_rules.specs.Gains.{Gains};

use ot_base::{NoMemory, Place, Warning};

/// Adds a warning.
pub(crate) fn push(into: &mut Vec<Warning>, warning: Warning) -> Result<(), NoMemory>
    ensures { OnOk result (Gains into.old.items into.new.items (λ w. w ≡ warning)) }
{
    into.push(warning)?;
    Ok(())
}

/// Adds a warning that tells no number, where its rule is broken.
pub(crate) fn push_if(
    into: &mut Vec<Warning>,
    is_broken: bool,
    place: Place,
    rule: u8,
) -> Result<(), NoMemory>
    ensures { OnOk result (Gains into.old.items into.new.items (λ w. IsTrue is_broken × w ≡ bare_warning place rule)) }
{
    if is_broken {
        into.push(Warning::bare(place, rule))?;
    }
    Ok(())
}
