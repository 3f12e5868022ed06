//! Names behind the last section and the last symbol, for which no command asks.

use super::leaf::leaf;
use super::readings::object_of;
use elf_objects::Object;
use ot_base::Names;
use std::alloc::Global;

/// Whether there are none.
fn has_none(object: &Object<'_>) -> bool {
    object.section_name(object.sections()).is_empty()
        && object.symbol_name(object.symbols()).is_empty()
}

/// Whether the leaf has none.
fn leaf_has_none(alloc: Global) -> Option<bool> {
    let object = object_of(alloc, leaf())?;
    Some(has_none(&object))
}

#[test]
fn no_names_behind_the_last(rt: HostRuntime) {
    assert!(rt; leaf_has_none(rt.alloc()) == Some(true));
}
