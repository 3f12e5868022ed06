//! The string table of the symbols, and where in it their names begin.

ghost use Rattle.std.specs.Prelude.{◌≡◌, ◌<◌, ◌≤◌, ◌+◌, ◌^◌, drop, length};
ghost use Rattle.elf_objects.specs.Contents.{symbol_at};
ghost use Rattle.elf_objects.specs.Number.{word};
ghost use Rattle.elf_objects.specs.Strings.{up_to_zero};
ghost use Rattle.symbols_relocs.specs.Names.{strings as strings_of, symbols_offset as symbols_offset_of};

use byteorder::{ByteOrder, LittleEndian};
use elf_objects::Object;

/// The string table of the symbols; empty where there are none.
pub(crate) fn strings<'a>(object: &Object<'a>) -> &'a [u8]
    ensures value { result.now ≡ strings_of object.now }
    ensures short { length result.now < 2 ^ 32 }
{
    let Some(table) = object.symbol_table() else {
        return &[];
    };
    if table >= object.sections() {
        return &[];
    }
    let link = object.section(table).link;
    if link >= object.sections() {
        return &[];
    }
    object.section(link).body
}

/// Where in the file the symbols stand.
fn symbols_offset(object: &Object<'_>) -> u64
    ensures { result ≡ symbols_offset_of object.now }
{
    let Some(table) = object.symbol_table() else {
        return 0;
    };
    if table >= object.sections() {
        return 0;
    }
    object.section(table).offset
}

/// The `Elf64_Word` at an offset.
#[tactic(auto, unfolding(elf_objects::specs::Number::word))]
fn word_at(bytes: &[u8], at: usize) -> u32
    requires { at + 4 ≤ length bytes.now }
    ensures { result ≡ word bytes.now at }
{
    LittleEndian::read_u32(&bytes[at..])
}

/// Where in the string table the name of a symbol begins: `st_name`.
pub(crate) fn name_start(object: &Object<'_>, k: u32) -> usize
    requires { k < length object.now.symbols }
    ensures name { up_to_zero (drop result (strings_of object.now)) ≡ (symbol_at object.now k).name }
    ensures inside { result ≤ length (strings_of object.now) }
{
    let bytes = object.bytes();
    let at = symbols_offset(object) as usize + 24 * k as usize;
    word_at(bytes, at) as usize
}
