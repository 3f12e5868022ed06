//! An object that meets the premises of the laws.

ghost use Rattle.ot_base.specs.NameLists.{NameLists, built_in};
ghost use Rattle.object_law.specs.WorkedObject.{NamesNeither, UnwindsWorked};

use crate::object_laws::object_unwinds;

/// A file of 528 bytes, in which a function pushes rbx, calls a symbol outside, pops rbx and returns, is an object in order whose
/// program breaks no rule. There is a run of the program that stands after the push, and from there the walk over the rows gives the
/// one frame of the call from outside, and stops outside. This holds for the lists that are built in, and for all that name neither
/// the function as loose code nor the symbol as one that never returns.
pub fn worked_object()
    ensures unwinds { (lists : NameLists) → NamesNeither lists → UnwindsWorked lists }
    ensures built_in { NamesNeither built_in }
{
    object_unwinds();
}
