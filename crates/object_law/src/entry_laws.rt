//! Laws over the program of every object.

ghost use Rattle.object_law.specs.EntryLaws.{ProgramHasFunctions};

/// In the program of every object, in order or not, entries are points at the starts of functions, and control that comes to an entry
/// stands in its function: at the plain point there, or at the first point of a replacement of a site that starts there.
pub fn program_has_functions()
    ensures { ProgramHasFunctions }
{}
