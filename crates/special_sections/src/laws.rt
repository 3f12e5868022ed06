//! Laws on the special sections of every object.

ghost use Rattle.special_sections.specs.Laws.{AlternativesAreFew, AlternativesAreNested};

/// Of the alternatives of an object each has two relocations of its own, of 24 bytes each.
pub fn alternatives_are_few()
    ensures { AlternativesAreFew }
{}

/// An alternative is as it is written, but that its original may be longer.
pub fn alternatives_are_nested()
    ensures { AlternativesAreNested }
{}
