//! The entries of the sections of a kind.

ghost use Rattle.std.specs.Prelude.{◌≡◌, ◌<◌, ◌++◌, [], length, bytes_eq, IfOk, IfErr, OnOk};
ghost use Rattle.elf_objects.specs.Contents.{section_at};
ghost use Rattle.special_sections.specs.Kinds.{entries, entry_faults, faults, section_entries, section_faults};
ghost use Rattle.special_sections.specs.Reasons.{TellsFirst};

use crate::fault::SpecialFault;
use crate::format::Format;
use crate::section::EntrySection;
use elf_objects::Object;
use std::alloc::Global;

/// Whether a section has this name.
pub(crate) fn is_named(object: &Object<'_>, sec: u32, name: &[u8]) -> bool
    requires { sec < length object.now.sections }
    ensures { result ≡ bytes_eq (section_at object.now sec).name name.now }
{
    object.section_is_named(sec, name)
}

/// Adds the entries of a section, or tells the first fault of one of them.
fn read_entries<F: Format>(
    format: &F,
    section: &EntrySection<'_, '_>,
    into: &mut Vec<F::Entry>,
) -> Result<(), SpecialFault>
    ensures ok { OnOk result (into.new.items ≡ into.old.items ++ section_entries (F.kind format.now) section.now.object.now section.now.sec) }
    ensures right { OnOk result (entry_faults (F.kind format.now) section.now.object.now section.now.sec ≡ []) }
    ensures err { IfErr result (TellsFirst (entry_faults (F.kind format.now) section.now.object.now section.now.sec)) }
{
    let sec = section.sec;
    for entry in 0..format.count(section) {
        if let Some(why) = format.why(section, entry) {
            return Err(SpecialFault::At { sec, entry, why });
        }
        into.push(format.entry(section, entry))?;
    }
    Ok(())
}

/// Adds the entries of the section with an index, or tells its first fault.
fn read_section<F: Format>(
    alloc: Global,
    object: &Object<'_>,
    format: &F,
    sec: u32,
    into: &mut Vec<F::Entry>,
) -> Result<(), SpecialFault>
    requires { sec < length object.now.sections }
    ensures ok { OnOk result (into.new.items ≡ into.old.items ++ section_entries (F.kind format.now) object.now sec) }
    ensures right { OnOk result (section_faults (F.kind format.now) object.now sec ≡ []) }
    ensures err { IfErr result (TellsFirst (section_faults (F.kind format.now) object.now sec)) }
{
    let section = EntrySection::open(alloc, object, sec)?;
    match format.section_why(&section) {
        Some(why) => Err(SpecialFault::At { sec, entry: 0, why }),
        None => read_entries(format, &section, into),
    }
}

/// The entries of a kind, or the first fault of one of them.
pub(crate) fn read_all<F: Format>(
    alloc: Global,
    object: &Object<'_>,
    format: &F,
) -> Result<Vec<F::Entry>, SpecialFault>
    ensures ok { IfOk result (λ list. list.items ≡ entries (F.kind format.now) object.now) }
    ensures right { OnOk result (faults (F.kind format.now) object.now ≡ []) }
    ensures err { IfErr result (TellsFirst (faults (F.kind format.now) object.now)) }
{
    let mut list = Vec::new(alloc);
    for sec in 0..object.sections() {
        if is_named(object, sec, format.name()) {
            read_section(alloc, object, format, sec, &mut list)?;
        }
    }
    Ok(list)
}
