//! The public calls.

ghost use Rattle.std.specs.Prelude.{◌≡◌, ◌<◌, ◌^◌, ◌↔◌, IfOk, IfSome, IsSome, IsTrue, length};
ghost use Rattle.elf_objects.specs.Contents.{elf_of};
ghost use Rattle.elf_objects.specs.Object.{IsWellFormed};
ghost use Rattle.demo_objects.specs.CanMake.{CanLayOut, CanMake};
ghost use Rattle.demo_objects.specs.Made.{made};
ghost use Rattle.demo_objects.specs.Object.{IsMadeFrom};
ghost use Rattle.demo_objects.specs.Spec.{spec_of};

use crate::file::file_of;
use crate::parts::{parts_fit, sections_fit};
use crate::sections::all_sections;
use crate::spec::Spec;
use elf_objects::{ElfFault, Object};
use ot_base::NoMemory;
use std::alloc::Global;

/// The file of an object that says what the spec does.
///
/// Section 0 is that of no section. Behind it stand the sections of the spec, a section `.rela` and
/// its name for each that has relocations, `.symtab`, `.symtab_shndx` where a symbol's section has a
/// number from 0xFF00 on, `.strtab` and `.shstrtab`. The bodies stand in this order behind the file
/// header, each at the next multiple of its alignment and with zeros in the gaps; the section
/// headers stand at the next multiple of 8. From 0xFF00 sections on header 0 tells how many there
/// are, and which is the name table (ELF-64 gABI).
///
/// The result is a well-formed object with exactly these sections, the symbols of the spec behind the
/// null symbol, and the relocations of the spec. A section without any has those that a section of the
/// spec holds for it. `CanMake` says of which specs one can be made; [`build`] takes any spec.
///
/// # Errors
///
/// [`NoMemory`] where memory was wanted and not there.
pub fn make(alloc: Global, spec: &Spec) -> Result<Vec<u8>, NoMemory>
    requires { CanMake (spec_of spec.now) }
    ensures layout { IfOk result (λ file. file.items ≡ made (spec_of spec.now)) }
    ensures well_formed { IfOk result (λ file. IsWellFormed file.items) }
    ensures object { IfOk result (λ file. IsMadeFrom (spec_of spec.now) (elf_of file.items)) }
{
    let sections = all_sections(alloc, spec)?;
    file_of(alloc, &sections)
}

/// Whether bytes are those of a well-formed object.
fn is_well_formed(alloc: Global, file: &[u8]) -> Result<bool, NoMemory>
    requires { length file.now < 2 ^ 32 }
    ensures { IfOk result (λ yes. IsTrue yes ↔ IsWellFormed file.now) }
{
    match Object::parse(alloc, file) {
        Ok(_) => Ok(true),
        Err(ElfFault::NoMemory) => Err(NoMemory),
        Err(_) => Ok(false),
    }
}

/// The file of a spec whose parts are right by themselves.
fn lay_out(alloc: Global, spec: &Spec) -> Result<Option<Vec<u8>>, NoMemory>
    ensures exact { IfOk result (λ laid. IsSome laid ↔ CanLayOut (spec_of spec.now)) }
    ensures layout { IfOk result (λ laid. IfSome laid (λ file. file.items ≡ made (spec_of spec.now))) }
{
    if !parts_fit(spec) {
        return Ok(None);
    }
    let sections = all_sections(alloc, spec)?;
    if !sections_fit(&sections, &spec.symbols) {
        return Ok(None);
    }
    Ok(Some(file_of(alloc, &sections)?))
}

/// The file of an object that says what the spec does, as [`make`] makes it; or `None`
/// of a spec of which no well-formed object can be made.
///
/// # Errors
///
/// [`NoMemory`] where memory was wanted and not there.
pub fn build(alloc: Global, spec: &Spec) -> Result<Option<Vec<u8>>, NoMemory>
    ensures exact { IfOk result (λ built. IsSome built ↔ CanMake (spec_of spec.now)) }
    ensures layout { IfOk result (λ built. IfSome built (λ file. file.items ≡ made (spec_of spec.now))) }
    ensures well_formed { IfOk result (λ built. IfSome built (λ file. IsWellFormed file.items)) }
    ensures object { IfOk result (λ built. IfSome built (λ file. IsMadeFrom (spec_of spec.now) (elf_of file.items))) }
{
    let Some(file) = lay_out(alloc, spec)? else {
        return Ok(None);
    };
    if is_well_formed(alloc, &file)? {
        Ok(Some(file))
    } else {
        Ok(None)
    }
}
