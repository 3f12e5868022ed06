//! A section symbol that is there already.

ghost use Rattle.std.specs.Prelude.{◌<◌, ◌≤◌, IsTrue, length};
ghost use Rattle.elf_objects.specs.Object.{IsObject};

use super::leaf::leaf;
use super::readings::object_of;
use elf_objects::Object;
use elf_write::{SymFault, with_section_symbols};
use std::alloc::Global;

/// The object with a section symbol for a section.
fn one(alloc: Global, object: &Object<'_>, sec: u32) -> Result<Vec<u8>, SymFault>
    requires object { IsObject object.now.bytes object.now }
    requires low { 1 ≤ sec }
    requires known { sec < length object.now.sections }
    requires sections { length object.now.sections ≤ 100 }
    requires some { 1 ≤ length object.now.symbols }
    requires few { length object.now.symbols ≤ 1000 }
    requires short { length object.now.bytes ≤ 4096 }
{
    with_section_symbols(alloc, object, &[sec])
}

/// Whether an object is small, and has symbols.
fn is_small(object: &Object<'_>) -> bool
    ensures object { IsTrue result → IsObject object.now.bytes object.now }
    ensures sections { IsTrue result → length object.now.sections ≤ 100 }
    ensures some { IsTrue result → 1 ≤ length object.now.symbols }
    ensures few { IsTrue result → length object.now.symbols ≤ 1000 }
    ensures short { IsTrue result → length object.now.bytes ≤ 4096 }
{
    object.sections() <= 100
        && object.symbols() >= 1
        && object.symbols() <= 1000
        && object.bytes().len() <= 4096
}

/// Why a small object gets no section symbol for a section.
fn fault_of_one(alloc: Global, object: &Object<'_>, sec: u32) -> Option<SymFault> {
    if sec >= 1 && sec < object.sections() && is_small(object) {
        one(alloc, object, sec).err()
    } else {
        None
    }
}

/// Why the leaf gets none for its code.
fn fault_of_leaf(alloc: Global) -> Option<SymFault> {
    let object = object_of(alloc, leaf())?;
    fault_of_one(alloc, &object, 1)
}

#[test]
fn a_section_symbol_is_there(rt: HostRuntime) {
    assert!(rt; fault_of_leaf(rt.alloc()) == Some(SymFault::HasOne { sec: 1, sym: 1 }));
}
