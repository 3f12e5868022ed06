//! Laws on where the program of every object runs.

ghost use Rattle.object_law.specs.SymbolLaws.{KeptIsNamed, RowsAreNamed};

/// Each point of an object in order that a checker keeps runs in a section in which a symbol of the object is defined:
/// code becomes known only by functions, hints and alternatives, which symbols name, and control that leaves a section
/// follows a symbol.
pub fn kept_is_named()
    ensures { KeptIsNamed }
{}

/// So each row of the kept states lies in such a section: a section that has rows has a kept point.
pub fn rows_are_named()
    ensures { RowsAreNamed }
{}
