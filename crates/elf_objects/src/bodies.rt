//! The bodies of the sections lie in the file.

ghost use Rattle.std.specs.Prelude.{◌≡◌, ◌<◌, ◌↔◌, IsTrue, IsFalse, IfErr, OnOk, MatchResult, length};
ghost use Rattle.elf_objects.specs.Steps.{EachSection, FirstSection, file};
ghost use Rattle.elf_objects.specs.File.{section_count, section_header};
ghost use Rattle.elf_objects.specs.declared.TheConstants.{SHT_NULL, SHT_RELA};
ghost use Rattle.elf_objects.specs.Object.{Refuses};
ghost use Rattle.elf_objects.specs.Sections.{HasBody, BodyFault, IsAlone, IsPlaced};
ghost use Rattle.elf_objects.specs.Extents.{TellsShared};

use crate::extents::find_shared;
use crate::fault::ElfFault;
use crate::header::SectionHeader;
use crate::headers::Headers;
use crate::{SHT_NULL, SHT_RELA};
use std::alloc::Global;

/// Whether the body of a section lies in a file of this many bytes, behind the file header.
fn is_placed(h: &SectionHeader, len: usize) -> bool
    ensures { IsTrue result ↔ IsPlaced len h.now }
{
    let end = u128::from(h.offset) + u128::from(h.size);
    !h.has_body() || (end <= len as u128 && (h.size == 0 || h.offset >= 64))
}

/// Whether section 0 is that of no section.
fn is_null_first(h: &SectionHeader, i: u32) -> bool
    ensures { IsTrue result ↔ (i ≡ 0 → h.now.kind ≡ SHT_NULL) }
{
    i != 0 || h.kind == SHT_NULL
}

/// Whether the body of a section is in its place, and shares no byte with another where it may not.
fn has_place(headers: &Headers, shared: &[bool], i: u32) -> bool
    requires known { i < section_count (file headers.now) }
    requires shared { TellsShared (file headers.now) shared.now }
    ensures placed { IsTrue result →
        IsPlaced (length (file headers.now)) (section_header (file headers.now) i) }
    ensures alone { IsTrue result →
        (section_header (file headers.now) i).kind ≡ SHT_RELA → IsAlone (file headers.now) i }
    ensures no { IsFalse result → ¬ HasBody (file headers.now) i }
{
    let h = headers.get(i);
    is_placed(&h, headers.bytes.len()) && (h.kind != SHT_RELA || !shared[i as usize])
}

fn check_body(headers: &Headers, shared: &[bool], i: u32) -> Result<(), ElfFault>
    requires known { i < section_count (file headers.now) }
    requires shared { TellsShared (file headers.now) shared.now }
    ensures { MatchResult result
        (λ _. HasBody (file headers.now) i) (BodyFault (file headers.now) i) }
{
    if !is_null_first(&headers.get(i), i) {
        return Err(ElfFault::BadTable { sec: 0 });
    }
    if !has_place(headers, shared, i) {
        return Err(ElfFault::BadRange { sec: i });
    }
    Ok(())
}

/// The same of each section, in ascending order.
pub(crate) fn check_bodies(alloc: Global, headers: &Headers) -> Result<(), ElfFault>
    ensures ok { OnOk result (EachSection HasBody (file headers.now)) }
    ensures err { IfErr result (Refuses (FirstSection HasBody BodyFault (file headers.now))) }
{
    let shared = find_shared(alloc, headers)?;
    for i in 0..headers.count {
        check_body(headers, &shared, i)?;
    }
    Ok(())
}
