//! The rows that the whole map has beside those of the base map.

ghost use Rattle.std.specs.Prelude.{◌≡◌, ◌<◌, map};
ghost use Rattle.x86_map.specs.Extension.{row_of, extension_rows};
ghost use Rattle.x86_map.specs.OpcodeMap.{forms_in, look_forms};

use crate::evex_rows::{evex_0f, evex_0f_3a, evex_0f_38, evex_5, evex_6};
use crate::form::Form;
use crate::one_byte_extension::extension_one_byte;
use crate::prefixes::Prefixes;
use crate::shape::Look;
use crate::three_byte_extension::{extension_0f_3a, extension_0f_38};
use crate::two_byte_extension::extension_0f;
use crate::vex_rows::{vex_0f, vex_0f_3a, vex_0f_38};

/// The form of the opcodes from `first` to `last`.
#[derive(Clone, Copy)]
pub struct OpcodeRange {
    /// The first opcode.
    pub first: u8,
    /// The last one.
    pub last: u8,
    /// Their form.
    pub form: Form,
}

/// What the first of the rows says that has the opcode and doesn't refuse.
pub(crate) fn look_ranges(
    ranges: &[OpcodeRange],
    opcode: u8,
    p: &Prefixes,
    modrm: Option<u8>,
) -> Look
    ensures { result ≡ look_forms (forms_in (map row_of ranges.now) opcode) p.now modrm }
{
    for range in ranges {
        if range.first <= opcode && opcode <= range.last {
            match range.form.look(p, modrm) {
                Look::Refused => {}
                found => return found,
            }
        }
    }
    Look::Refused
}

/// The extension's rows of a map.
pub(crate) fn extension_rows(number: u8) -> &'static [OpcodeRange]
    ensures { map row_of result.now ≡ extension_rows number }
{
    match number {
        1 => extension_one_byte(),
        2 => extension_0f(),
        3 => extension_0f_38(),
        4 => extension_0f_3a(),
        5 => vex_0f(),
        6 => vex_0f_38(),
        7 => vex_0f_3a(),
        8 => evex_0f(),
        9 => evex_0f_38(),
        10 => evex_0f_3a(),
        11 => evex_5(),
        12 => evex_6(),
        _ => &[],
    }
}
