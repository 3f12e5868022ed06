//! Where functions start.

ghost use Rattle.std.specs.Prelude.{◌≡◌, map, IfOk};
ghost use Rattle.symbols_relocs.specs.declared.function.Function.{Function};
ghost use Rattle.object_points.specs.Starts.{AreStarts};

use crate::PlaceSet;
use ot_base::{NoMemory, Place};
use std::alloc::Global;
use symbols_relocs::{Function, Index};

/// Where each of these functions starts.
fn starts_of(alloc: Global, functions: &[Function]) -> Result<Vec<Place>, NoMemory>
    ensures { IfOk result (λ starts. starts.items ≡ map (λ (f : Function). f.start) functions.now) }
{
    let starts = functions
        .iter()
        .map(|function| function.start)
        .collect(alloc)?;
    Ok(starts)
}

/// Where the functions of an object start.
pub(crate) fn list_starts(alloc: Global, index: &Index<'_, '_>) -> Result<PlaceSet, NoMemory>
    ensures { IfOk result (AreStarts index.now.elf) }
{
    let starts = starts_of(alloc, index.functions())?;
    Ok(PlaceSet::build(alloc, starts.as_slice())?)
}
