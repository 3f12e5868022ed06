//! Functions that hold places.

ghost use Rattle.std.specs.Prelude.{◌≡◌};
ghost use Rattle.command_base.specs.Backtrace.{holder_of};

use elf_objects::Object;
use ot_base::Place;
use symbols_relocs::{Function, Index};

/// A place in a function.
#[derive(Clone, Copy, PartialEq, Eq)]
pub struct Holder {
    /// The function, by the lowest number of its symbols.
    pub sym: u32,
    /// Bytes from its start.
    pub off: u64,
}

/// The function that holds a place, if one does.
pub(crate) fn holder_of(index: &Index<'_, '_>, place: Place) -> Option<Holder>
    ensures { result ≡ holder_of index.now.elf place }
{
    let number = index.function_at(place)?;
    let function = &index.functions()[number as usize];
    Some(Holder {
        sym: function.sym,
        off: place.off.saturating_sub(function.start.off),
    })
}
