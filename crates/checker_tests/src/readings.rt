//! Objects and their code, read. What that is is told by no contract, so that tests are proved without those of the readers.

use elf_objects::{MAX_FILE_BYTES, Object};
use object_points::{Linked, Map};
use ot_base::Lists;
use std::alloc::Global;

/// The object that some bytes are.
pub fn object_of<'a>(alloc: Global, bytes: &'a [u8]) -> Option<Object<'a>> {
    if bytes.len() as u64 > MAX_FILE_BYTES {
        return None;
    }
    Object::parse(alloc, bytes).ok()
}

/// The code of an object, under the built-in lists of names.
pub fn code_of<'o, 'a>(alloc: Global, object: &'o Object<'a>) -> Option<Linked<'o, 'a>> {
    let lists = Lists::built_in(alloc).ok()?;
    if object.bytes().len() as u64 > MAX_FILE_BYTES {
        return None;
    }
    Linked::link(alloc, Map::Base, object, &lists).ok()
}
