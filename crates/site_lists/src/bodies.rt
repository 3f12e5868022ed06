//! Site lists to the bodies of their sections.

ghost use Rattle.std.specs.Prelude.{◌≡◌, All, IfOk};
ghost use Rattle.elf_objects.specs.Contents.{section_symbol_of};
ghost use Rattle.site_lists.specs.Listed.{listed};
ghost use Rattle.site_lists.specs.Sections.{AreSites, IsSite, rela_section, slot_reloc, slot_section};

use crate::lists::SiteLists;
use crate::relocs::reloc_bytes;
use elf_objects::{Object, R_X86_64_PC32, Reloc};
use ot_base::{NoMemory, Place};
use std::alloc::Global;

/// The bodies of the section of a list, and of the section of its relocations.
#[derive(Drop)]
pub struct SiteSection {
    /// Four bytes a place, zero until they are relocated.
    pub body: Vec<u8>,
    /// A relocation of 24 bytes for each four of them.
    pub rela: Vec<u8>,
}

/// The bodies of the sections of three lists.
#[derive(Drop)]
pub struct SiteSections {
    /// Those of `.retpoline_sites`.
    pub retpoline: SiteSection,
    /// Those of `.return_sites`.
    pub returns: SiteSection,
    /// Those of `.call_sites`.
    pub calls: SiteSection,
}

/// The bodies of the sections of an object's site lists, whose places stay in their order.
///
/// Each place lies in a text section that has a section symbol, at an offset up to the section's size.
pub fn encode(
    alloc: Global,
    object: &Object<'_>,
    lists: &SiteLists,
) -> Result<SiteSections, NoMemory>
    requires { AreSites object.now (listed lists.now) }
    ensures retpoline_body { IfOk result (λ s. s.retpoline.body.items ≡ slot_section lists.now.retpoline.items) }
    ensures retpoline_rela { IfOk result (λ s. s.retpoline.rela.items ≡ rela_section (section_symbol_of object.now) lists.now.retpoline.items) }
    ensures returns_body { IfOk result (λ s. s.returns.body.items ≡ slot_section lists.now.returns.items) }
    ensures returns_rela { IfOk result (λ s. s.returns.rela.items ≡ rela_section (section_symbol_of object.now) lists.now.returns.items) }
    ensures calls_body { IfOk result (λ s. s.calls.body.items ≡ slot_section lists.now.calls.items) }
    ensures calls_rela { IfOk result (λ s. s.calls.rela.items ≡ rela_section (section_symbol_of object.now) lists.now.calls.items) }
{
    let retpoline = encode_list(alloc, object, &lists.retpoline)?;
    let returns = encode_list(alloc, object, &lists.returns)?;
    let calls = encode_list(alloc, object, &lists.calls)?;
    Ok(SiteSections {
        retpoline,
        returns,
        calls,
    })
}

/// The bodies of one list.
fn encode_list(
    alloc: Global,
    object: &Object<'_>,
    places: &[Place],
) -> Result<SiteSection, NoMemory>
    requires { All (IsSite object.now) places.now }
    ensures body { IfOk result (λ section. section.body.items ≡ slot_section places.now) }
    ensures rela { IfOk result (λ section. section.rela.items ≡ rela_section (section_symbol_of object.now) places.now) }
{
    let mut body = Vec::new(alloc);
    let mut rela = Vec::new(alloc);
    for place in places {
        let slot = slot_reloc(object, body.len() as u64, *place);
        rela.extend_from_slice(&reloc_bytes(&slot))?;
        body.extend_from_slice(&[0; 4])?;
    }
    Ok(SiteSection { body, rela })
}

/// The relocation of a place's four bytes, which begin at this offset.
fn slot_reloc(object: &Object<'_>, offset: u64, place: Place) -> Reloc
    requires { IsSite object.now place }
    ensures { result ≡ slot_reloc (section_symbol_of object.now) offset place }
{
    Reloc {
        offset,
        kind: R_X86_64_PC32,
        sym: object.section_symbol(place.sec).unwrap(),
        addend: place.off as i64,
    }
}
