//! Objects of functions one after the other, byte by byte.

ghost use Rattle.std.specs.Prelude.{◌≤◌};

use super::leaf::leaf;
use demo_objects::demo;
use ot_base::NoMemory;
use std::alloc::{AllocError, Global};
use std::test::Fail;

/// Bytes at an offset. Those that no part has are zero.
type Part = (usize, &'static [u8]);

/// The object without functions: an empty `.text`, `.symtab` at 64, `.strtab` at 112, `.shstrtab` at 113,
/// and the section headers at 152.
const NONE: [Part; 23] = [
    (0, b"\x7FELF\x02\x01\x01"),
    (16, b"\x01\0\x3E\0\x01"),
    (40, b"\x98"),
    (52, b"\x40"),
    (58, b"\x40\0\x05\0\x04"),
    // The section symbol of `.text`.
    (92, b"\x03\0\x01"),
    (114, b".text\0.symtab\0.strtab\0.shstrtab"),
    // The headers: name and type, offset, size, link and info, alignment, size of an entry.
    (216, b"\x01\0\0\0\x01\0\0\0\x06"),
    (240, b"\x40"),
    (264, b"\x01"),
    (280, b"\x07\0\0\0\x02"),
    (304, b"\x40"),
    (312, b"\x30"),
    (320, b"\x03\0\0\0\x02\0\0\0\x08"),
    (336, b"\x18"),
    (344, b"\x0F\0\0\0\x03"),
    (368, b"\x70"),
    (376, b"\x01"),
    (392, b"\x01"),
    (408, b"\x17\0\0\0\x03"),
    (432, b"\x71"),
    (440, b"\x21"),
    (456, b"\x01"),
];

/// The object of three functions: `.text` at 64, `.symtab` at 96, `.strtab` at 216, `.shstrtab` at 226, and
/// the section headers at 264.
const THREE: [Part; 31] = [
    (0, b"\x7FELF\x02\x01\x01"),
    (16, b"\x01\0\x3E\0\x01"),
    (40, b"\x08\x01"),
    (52, b"\x40"),
    (58, b"\x40\0\x05\0\x04"),
    (64, b"\x55\x48\x89\xE5\x5D\xC3"),
    (
        70,
        b"\x53\x48\x83\xEC\x10\xE8\xF0\xFF\xFF\xFF\x48\x83\xC4\x10\x5B\xC3",
    ),
    (86, b"\x85\xFF\x74\x02\x55\x5D\xC3"),
    // The section symbol of `.text`, then `f0`, `f1` and `f2`: name, info and section, value; size.
    (124, b"\x03\0\x01"),
    (144, b"\x01\0\0\0\x12\0\x01\0\0"),
    (160, b"\x06"),
    (168, b"\x04\0\0\0\x12\0\x01\0\x06"),
    (184, b"\x10"),
    (192, b"\x07\0\0\0\x12\0\x01\0\x16"),
    (208, b"\x07"),
    (217, b"f0\0f1\0f2"),
    (227, b".text\0.symtab\0.strtab\0.shstrtab"),
    // The headers.
    (328, b"\x01\0\0\0\x01\0\0\0\x06"),
    (352, b"\x40\0\0\0\0\0\0\0\x1D"),
    (376, b"\x01"),
    (392, b"\x07\0\0\0\x02"),
    (416, b"\x60\0\0\0\0\0\0\0\x78"),
    (432, b"\x03\0\0\0\x02\0\0\0\x08"),
    (448, b"\x18"),
    (456, b"\x0F\0\0\0\x03"),
    (480, b"\xD8\0\0\0\0\0\0\0\x0A"),
    (504, b"\x01"),
    (520, b"\x17\0\0\0\x03"),
    (544, b"\xE2\0\0\0\0\0\0\0\x21"),
    (568, b"\x01"),
    (583, b"\0"),
];

/// Puts other bytes at an offset.
fn put(bytes: &mut Vec<u8>, at: usize, values: &[u8]) {
    for (i, value) in values.iter().enumerate() {
        if let Some(place) = bytes.get_mut(at.wrapping_add(i)) {
            *place = *value;
        }
    }
}

/// So many bytes with these parts.
fn bytes_of(alloc: Global, size: usize, parts: &[Part]) -> Result<Vec<u8>, AllocError> {
    let mut bytes = vec![in alloc; 0; size]?;
    for (at, part) in parts {
        put(&mut bytes, *at, part);
    }
    Ok(bytes)
}

/// The object of so many functions. What it is to say isn't written out for a number here, as it would be
/// for one in a call of `demo`.
fn functions(alloc: Global, n: u32) -> Result<Vec<u8>, NoMemory>
    requires { n ≤ 100000 }
{
    demo(alloc, n)
}

/// Whether the object of so many functions has so many bytes, with these parts.
fn is_of_parts(alloc: Global, n: u32, size: usize, parts: &[Part]) -> Option<bool>
    requires { n ≤ 100000 }
{
    let expected = bytes_of(alloc, size, parts).ok()?;
    let found = functions(alloc, n).ok()?;
    Some(found == expected)
}

#[test]
fn none_byte_by_byte(rt: HostRuntime) {
    assert!(rt; is_of_parts(rt.alloc(), 0, 472, &NONE) == Some(true));
}

#[test]
fn three_byte_by_byte(rt: HostRuntime) {
    assert!(rt; is_of_parts(rt.alloc(), 3, 584, &THREE) == Some(true));
}

#[test]
fn one_is_the_leaf(rt: HostRuntime) -> Result<(), Fail> {
    assert!(rt; functions(rt.alloc(), 1)?.as_slice() == leaf());
    Ok(())
}
