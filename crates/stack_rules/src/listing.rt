//! A list of warnings, and what goes into it.

ghost use Rattle.std.specs.Prelude.{◌≡◌, ◌↔◌, IsTrue, OnOk, Some};
ghost use Rattle.ot_base.specs.Warnings.{bare_warning as bare};
ghost use Rattle.stack_rules.specs.Gains.{Gains};

use ot_base::{NoMemory, Place, Warning};
use state_defs::HintState;

/// A warning that tells no number.
pub(crate) fn bare_warning(place: Place, rule: u8) -> Warning
    ensures { result ≡ bare place rule }
{
    Warning::bare(place, rule)
}

/// Whether a rule is broken, and is the one with this number.
pub(crate) fn is_rule(broken: Option<u8>, rule: u8) -> bool
    ensures { IsTrue result ↔ (broken ≡ Some rule) }
{
    match broken {
        Some(number) => number == rule,
        None => false,
    }
}

/// Whether a hint is a RESTORE.
pub(crate) fn is_restore(hint: Option<HintState>) -> bool
    ensures { IsTrue result ↔ (hint ≡ Some HintState.Restore) }
{
    matches!(hint, Some(HintState::Restore))
}

/// Adds a warning.
pub(crate) fn push(into: &mut Vec<Warning>, warning: Warning) -> Result<(), NoMemory>
    ensures { OnOk result (Gains into.old.items into.new.items (λ w. w ≡ warning)) }
{
    into.push(warning)?;
    Ok(())
}

/// Adds a warning where its rule is broken.
pub(crate) fn push_if(
    into: &mut Vec<Warning>,
    is_broken: bool,
    warning: Warning,
) -> Result<(), NoMemory>
    ensures { OnOk result (Gains into.old.items into.new.items (λ w. IsTrue is_broken × w ≡ warning)) }
{
    if is_broken {
        into.push(warning)?;
    }
    Ok(())
}
