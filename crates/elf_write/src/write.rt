// The public call.

ghost use Rattle.std.specs.Prelude.{◌≡◌, ◌+◌, ◌*◌, ◌≤◌, IfOk, length, slice_range};
ghost use Rattle.elf_objects.specs.Object.{IsObject};
ghost use Rattle.elf_write.specs.Added.{CanAdd, object_with};
ghost use Rattle.elf_write.specs.Appended.{CanAppend, ReadsMore};
ghost use Rattle.elf_write.specs.New.{entries};
ghost use Rattle.elf_write.specs.Object.{appended_to};

use crate::input::{Input, append_to};
use crate::section::NewSection;
use elf_objects::Object;
use ot_base::NoMemory;
use std::alloc::Global;

/// The file of an object with new sections behind it (ELF-64 gABI: ELF header, section header
/// table, string table).
///
/// What stands in the file stays where it is, but for `e_shoff` and `e_shnum`. Behind it stand,
/// each at the next multiple of 8 and with zeros in the gaps, the name table with the new names,
/// the new bodies, and the section header table. Where there are 0xFF00 sections or more, `e_shnum`
/// is 0 and `sh_size` of header 0 is their number. With no new section the result is the file as it
/// is.
///
/// The result is a well-formed object. Its sections are those of the object, of which the name table
/// is longer, and then the new ones.
///
/// `CanAppend`: a name has no zero byte, and a section of type NULL or NOBITS no body. With the new
/// sections behind the old ones, the types, links, symbols, relocations and text are those of a
/// well-formed object. The sections are then at most 262,144, and the result is shorter than 2^32
/// bytes.
///
/// Where the new sections are neither tables nor text, but for relocations of sections that have none
/// (`CanAdd`), the result says all that the object said, and what the new sections say.
///
/// # Errors
///
/// [`NoMemory`] where memory was wanted and not there.
pub fn append(alloc: Global, object: &Object<'_>, new: &[NewSection]) -> Result<Vec<u8>, NoMemory>
    requires { CanAppend object.now (entries new.now) }
    ensures layout { IfOk result (λ file. file.items ≡ appended_to object.now (entries new.now)) }
    ensures reads { IfOk result (λ file. ReadsMore object.now (entries new.now) file.items) }
    ensures object { CanAdd object.now (entries new.now) → IfOk result (λ file. IsObject file.items (object_with object.now (entries new.now))) }
{
    let bytes = object.bytes();
    let name_table = object.name_table();
    let input = Input {
        bytes,
        headers: headers(
            bytes,
            object.headers_at() as usize,
            object.sections() as usize,
        ),
        name_table: name_table as usize,
        names: object.section(name_table).body,
    };
    append_to(alloc, &input, new)
}

/// So many section headers, from an offset of the file on.
fn headers(bytes: &[u8], at: usize, count: usize) -> &[u8]
    requires { at + 64 * count ≤ length bytes.now }
    ensures { result.now ≡ slice_range bytes.now at (at + 64 * count) }
{
    &bytes[at..at + 64 * count]
}
