//! The starts of functions.

ghost use Rattle.std.specs.Prelude.{◌≡◌, find, option_map, slice_get};
ghost use Rattle.ot_base.specs.NameLists.{NameLists};
ghost use Rattle.elf_objects.specs.Object.{IsObject};
ghost use Rattle.flow_defs.specs.Faults.{is_no_start as is_no_start_of, start_faults};
ghost use Rattle.flow_defs.specs.declared.fault.FlowFault.TheVariants.{FuncStart};
ghost use Rattle.object_points.specs.Linked.{IsLinked};

use crate::places::is_no_start;
use object_points::PointPlaces;
use symbols_relocs::Function;

/// The first of some functions that can't start where it does.
fn find_misplaced(places: &PointPlaces<'_, '_, '_>, functions: &[Function]) -> Option<Function>
    ensures { result ≡ find (λ f. is_no_start_of places.now f.start) functions.now }
{
    functions
        .iter()
        .copied()
        .find(|function| is_no_start(places, function.start))
}

/// The first function that can't start where it does, by its symbol. An object without text sections has no
/// functions.
pub(crate) fn find_bad_start(places: &PointPlaces<'_, '_, '_>) -> Option<u32>
    requires { IsObject places.now.elf.bytes places.now.elf }
    ensures first { option_map FuncStart result ≡ slice_get (start_faults places.now) 0 }
    ensures linked { (lists : NameLists) × IsLinked places.now lists }
{
    let linked = places.linked();
    if linked.texts().is_empty() {
        return None;
    }
    let function = find_misplaced(places, linked.index().functions())?;
    Some(function.sym)
}
