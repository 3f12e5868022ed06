//! Rows to the bodies of the ORC sections.

ghost use Rattle.std.specs.Prelude.{◌≡◌, All, IfOk};
ghost use Rattle.elf_objects.specs.Contents.{section_symbol_of};
ghost use Rattle.orc_bytes.specs.RowBytes.{IsRow};
ghost use Rattle.orc_bytes.specs.Sections.{IsRowOf, row_section, ip_section, rela_section, slot};

use crate::relocs::reloc_bytes;
use crate::rows::row_bytes;
use elf_objects::{Object, R_X86_64_PC32, Reloc};
use ot_base::{NoMemory, PlacedRow};
use std::alloc::Global;

/// The bodies of the three ORC sections.
#[derive(Drop)]
pub struct OrcSections {
    /// The body of `.orc_unwind`: six bytes a row.
    pub orc: Vec<u8>,
    /// The body of `.orc_unwind_ip`: four bytes a row, zero until they are relocated.
    pub ip: Vec<u8>,
    /// The body of `.rela.orc_unwind_ip`: a relocation of 24 bytes for each row's four bytes.
    pub rela: Vec<u8>,
}

/// The bodies of the ORC sections of an object for these rows, in their order.
///
/// Each row lies in a text section that has a section symbol, at an offset up to the section's size.
pub fn encode(
    alloc: Global,
    object: &Object<'_>,
    rows: &[PlacedRow],
) -> Result<OrcSections, NoMemory>
    requires { All (IsRowOf object.now) rows.now }
    ensures orc { IfOk result (λ sections. sections.orc.items ≡ row_section rows.now) }
    ensures ip { IfOk result (λ sections. sections.ip.items ≡ ip_section rows.now) }
    ensures rela { IfOk result
        (λ sections. sections.rela.items ≡ rela_section (section_symbol_of object.now) rows.now) }
{
    Ok(OrcSections {
        orc: row_body(alloc, rows)?,
        ip: vec![in alloc; 0; 4 * rows.len()]?,
        rela: rela_body(alloc, object, rows)?,
    })
}

/// The body of `.orc_unwind`.
fn row_body(alloc: Global, rows: &[PlacedRow]) -> Result<Vec<u8>, NoMemory>
    requires { All (λ placed. IsRow placed.row) rows.now }
    ensures { IfOk result (λ body. body.items ≡ row_section rows.now) }
{
    let mut body = Vec::with_capacity(alloc, 6 * rows.len())?;
    for placed in rows {
        body.extend_from_slice(&row_bytes(&placed.row))?;
    }
    Ok(body)
}

/// The body of `.rela.orc_unwind_ip`.
fn rela_body(alloc: Global, object: &Object<'_>, rows: &[PlacedRow]) -> Result<Vec<u8>, NoMemory>
    requires { All (IsRowOf object.now) rows.now }
    ensures { IfOk result (λ body. body.items ≡ rela_section (section_symbol_of object.now) rows.now) }
{
    let mut body = Vec::with_capacity(alloc, 24 * rows.len())?;
    let mut offset = 0;
    for placed in rows {
        body.extend_from_slice(&reloc_bytes(&slot_of(object, offset, placed)))?;
        offset += 4;
    }
    Ok(body)
}

/// The relocation of a row's four bytes, which begin at this offset of `.orc_unwind_ip`.
fn slot_of(object: &Object<'_>, offset: u64, placed: &PlacedRow) -> Reloc
    requires { IsRowOf object.now placed.now }
    ensures { result ≡ slot (section_symbol_of object.now) offset placed.now }
{
    Reloc {
        offset,
        kind: R_X86_64_PC32,
        sym: object.section_symbol(placed.place.sec).unwrap(),
        addend: placed.place.off as i64,
    }
}
