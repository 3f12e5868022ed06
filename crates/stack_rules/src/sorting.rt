//! The order in which warnings are told.

ghost use Rattle.std.specs.Prelude.{◌↔◌, AllPairs, Contains};
ghost use Rattle.ot_base.specs.declared.warning.Warning.{Warning as WarningValue};
ghost use Rattle.stack_rules.specs.Before.{ComesBefore};

use ot_base::Warning;

/// Puts warnings into the order in which they are told, by section, offset, rule and what they tell, each once. Takes
/// no memory.
pub fn sort_warnings(warnings: &mut Vec<Warning>)
    ensures members { (w : WarningValue) → Contains warnings.new.items w ↔ Contains warnings.old.items w }
    ensures ascending { AllPairs ComesBefore warnings.new.items }
{
    warnings.sort_unstable_by_key(|warning| (warning.place, warning.rule, warning.a, warning.b));
    warnings.dedup();
}
