//! The sections to which control comes by patching alone.

ghost use Rattle.std.specs.Prelude.{◌≡◌, ◌<◌, false, length, slice_index_or, IfOk};
ghost use Rattle.std.specs.Str.{bytes_eq};
ghost use Rattle.elf_objects.specs.Contents.{section_at};
ghost use Rattle.flow_defs.specs.Program.{is_patch_section as is_a_patch_section};
ghost use Rattle.object_points.specs.Owners.{ArePatchSections};

use elf_objects::Object;
use ot_base::NoMemory;
use std::alloc::Global;

/// Whether a section has this name.
fn is_named(object: &Object<'_>, sec: u32, name: &[u8]) -> bool
    requires { sec < length object.now.sections }
    ensures { result ≡ bytes_eq (section_at object.now sec).name name.now }
{
    object.section_is_named(sec, name)
}

/// Whether the code of a section is reached by patching alone.
fn is_patch_section(object: &Object<'_>, sec: u32) -> bool
    requires { sec < length object.now.sections }
    ensures { result ≡ is_a_patch_section object.now sec }
{
    is_named(object, sec, b".altinstr_replacement") || is_named(object, sec, b".altinstr_aux")
}

/// For each section whether its code is reached by patching alone.
pub(crate) fn mark_patch_sections(alloc: Global, object: &Object<'_>) -> Result<Vec<bool>, NoMemory>
    ensures { IfOk result (λ marks. ArePatchSections object.now marks.items) }
{
    let mut marks = Vec::new(alloc);
    for sec in 0..object.sections() {
        marks.push(is_patch_section(object, sec))?;
    }
    Ok(marks)
}

/// Whether a section is marked.
pub(crate) fn is_marked(marks: &[bool], sec: u32) -> bool
    ensures { result ≡ slice_index_or marks.now sec false }
{
    marks.get(sec as usize).copied().unwrap_or(false)
}
