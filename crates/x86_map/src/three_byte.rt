ghost use Rattle.std.specs.Prelude.{◌≡◌};
ghost use Rattle.x86_map.specs.OpcodeMap.{base_forms};

use crate::form::Form;
use crate::two_byte_groups::{ADD_CARRY, LOAD_SWAPPED, STORE_SWAPPED};
use crate::words::{form, immediate, one, operand, prefixes, written};

/// INVPCID.
const INVPCID: &[Form] = one!(M, no_imm, nothing, with_66);

/// The forms of an opcode behind 0F 38 (SDM, volume 2, table A-4).
pub(crate) fn three_byte(opcode: u8) -> &'static [Form]
    ensures { result.now ≡ base_forms 3 opcode }
{
    match opcode {
        0x82 => INVPCID,
        0xF0 => LOAD_SWAPPED,
        0xF1 => STORE_SWAPPED,
        0xF6 => ADD_CARRY,
        _ => &[],
    }
}
