//! Sections whose code isn't instrumented.

ghost use Rattle.std.specs.Prelude.{◌≡◌, ◌<◌, ◌++◌, ℕ, codes, false, length, slice_index_or, IfOk};
ghost use Rattle.elf_objects.specs.Contents.{section_at};
ghost use Rattle.entry_rules.specs.ObjectFacts.{is_name_or_part as is_name_or_part_of, is_part as is_part_of, is_noinstr_section as is_noinstr_section_of};

use elf_objects::Object;
use ot_base::NoMemory;
use std::alloc::Global;

/// Whether the name of a section begins with a prefix, and is longer.
fn is_part(object: &Object<'_>, sec: u32, prefix: &[u8]) -> bool
    requires { sec < length object.now.sections }
    ensures { result ≡ is_part_of (section_at object.now sec).name prefix.now }
{
    object.section_name_begins(sec, prefix) && !object.section_is_named(sec, prefix)
}

/// Whether the name of a section is this one, or this one with a dot and more, where `prefix` is it with the dot.
fn is_name_or_part(object: &Object<'_>, sec: u32, name: &[u8], prefix: &[u8]) -> bool
    requires known { sec < length object.now.sections }
    requires prefix { prefix.now ≡ name.now ++ codes "." }
    ensures { result ≡ is_name_or_part_of (section_at object.now sec).name name.now }
{
    object.section_is_named(sec, name) || is_part(object, sec, prefix)
}

/// Whether the code of a section isn't instrumented.
fn is_noinstr_section(object: &Object<'_>, sec: u32) -> bool
    requires { sec < length object.now.sections }
    ensures { result ≡ is_noinstr_section_of (section_at object.now sec) }
{
    object.is_text(sec)
        && (is_name_or_part(object, sec, b".noinstr.text", b".noinstr.text.")
            || is_name_or_part(object, sec, b".entry.text", b".entry.text.")
            || is_name_or_part(object, sec, b".cpuidle.text", b".cpuidle.text."))
}

/// For each section, whether its code isn't instrumented.
pub(crate) fn list_noinstr(alloc: Global, object: &Object<'_>) -> Result<Vec<bool>, NoMemory>
    ensures { IfOk result (λ flags. (sec : ℕ) → slice_index_or flags.items sec false ≡ is_noinstr_section_of (section_at object.now sec)) }
{
    let count = object.sections();
    let mut flags = Vec::with_capacity(alloc, count as usize)?;
    for sec in 0..count {
        flags.push(is_noinstr_section(object, sec))?;
    }
    Ok(flags)
}
