//! The table of section names, and where in it they begin.

ghost use Rattle.std.specs.Prelude.{◌≡◌, ◌<◌, ◌≤◌, ◌+◌, ◌^◌, drop, length};
ghost use Rattle.elf_objects.specs.Contents.{section_at};
ghost use Rattle.elf_objects.specs.Number.{word};
ghost use Rattle.elf_objects.specs.Strings.{up_to_zero};
ghost use Rattle.taken_places.specs.Marks.{section_names as names_of};

use byteorder::{ByteOrder, LittleEndian};
use elf_objects::Object;

/// The table of section names.
pub(crate) fn section_names<'a>(object: &Object<'a>) -> &'a [u8]
    ensures value { result.now ≡ names_of object.now }
    ensures short { length result.now < 2 ^ 32 }
{
    object.section(object.name_table()).body
}

/// The `Elf64_Word` at an offset.
#[tactic(auto, unfolding(elf_objects::specs::Number::word))]
fn word_at(bytes: &[u8], at: usize) -> u32
    requires { at + 4 ≤ length bytes.now }
    ensures { result ≡ word bytes.now at }
{
    LittleEndian::read_u32(&bytes[at..])
}

/// Where in the table the name of a section begins: `sh_name`.
pub(crate) fn name_start(object: &Object<'_>, sec: u32) -> usize
    requires { sec < length object.now.sections }
    ensures name { up_to_zero (drop result (names_of object.now)) ≡ (section_at object.now sec).name }
    ensures inside { result ≤ length (names_of object.now) }
{
    let bytes = object.bytes();
    let at = object.headers_at() as usize + 64 * sec as usize;
    word_at(bytes, at) as usize
}
