//! Objects that are read. What is answered is told by no contract, so that tests are proved without those of the reader.

use elf_objects::Object;
use std::alloc::Global;

/// The object that some bytes are.
pub(super) fn object_of<'a>(alloc: Global, bytes: &'a [u8]) -> Option<Object<'a>> {
    if bytes.len() >= 1 << 32 {
        return None;
    }
    Object::parse(alloc, bytes).ok()
}
