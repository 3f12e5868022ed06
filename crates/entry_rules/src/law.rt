//! What the rules promise, as a law.

ghost use Rattle.entry_rules.specs.Law.{EntryLaw};

/// A program that breaks none of the rules that are asked for keeps what they promise, in every run.
pub fn rules_are_kept()
    ensures { EntryLaw }
{}
