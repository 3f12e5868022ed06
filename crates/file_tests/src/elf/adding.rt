//! An object to which no section is added.

ghost use Rattle.std.specs.Prelude.{◌≡◌, ◌≤◌, IsTrue, length};
ghost use Rattle.elf_objects.specs.Object.{IsObject};

use super::leaf::leaf;
use super::readings::object_of;
use elf_objects::Object;
use elf_write::append;
use ot_base::NoMemory;
use std::alloc::Global;

/// The object with no section more.
fn with_none(alloc: Global, object: &Object<'_>) -> Result<Vec<u8>, NoMemory>
    requires object { IsObject object.now.bytes object.now }
    requires sections { length object.now.sections ≡ 5 }
    requires size { length object.now.bytes ≤ 504 }
{
    append(alloc, object, &[])
}

/// Whether an object is as large as the leaf.
fn is_small(object: &Object<'_>) -> bool
    ensures object { IsTrue result → IsObject object.now.bytes object.now }
    ensures sections { IsTrue result → length object.now.sections ≡ 5 }
    ensures size { IsTrue result → length object.now.bytes ≤ 504 }
{
    object.sections() == 5 && object.bytes().len() <= 504
}

/// The leaf with no section more.
fn leaf_with_none(alloc: Global) -> Option<Vec<u8>> {
    let object = object_of(alloc, leaf())?;
    if is_small(&object) {
        with_none(alloc, &object).ok()
    } else {
        None
    }
}

#[test]
fn no_section_changes_nothing(rt: HostRuntime) {
    let file = leaf_with_none(rt.alloc()).expect(&rt, "a file");
    assert!(rt; file.as_slice() == leaf());
}
