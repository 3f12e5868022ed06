//! What the relocations of a field name.

ghost use Rattle.std.specs.Prelude.{◌≡◌, ◌==◌, find};
ghost use Rattle.alternatives.specs.Texts.{AscendBySection};
ghost use Rattle.flow_defs.specs.TableFields.{boundary_named as boundary_named_by, checked_behind as place_behind, may_hold_tables as may_hold_the_tables, named_by as named_by_reloc, table_named as table_of_field};
ghost use Rattle.flow_defs.specs.Tables.{field_table as field_table_of};

use crate::texts::is_boundary;
use alternatives::SectionText;
use elf_objects::{R_X86_64_32S, R_X86_64_64, Reloc};
use operation_defs::Op;
use ot_base::Place;
use symbols_relocs::{Index, named_place};

/// What the names of sections begin with that may hold tables: of read-only data, and of data that are made read-only
/// once they are relocated.
const RODATA: &[u8] = b".rodata";

const DATA_REL_RO: &[u8] = b".data.rel.ro";

/// The first of these that has a type.
fn find_kind(relocs: &[Reloc], kind: u32) -> Option<Reloc>
    ensures { result ≡ find (λ r. r.kind == kind) relocs.now }
{
    for reloc in relocs {
        if reloc.kind == kind {
            return Some(*reloc);
        }
    }
    None
}

/// The place that the first relocation of a type at a field names.
fn named_by(index: &Index<'_, '_>, kind: u32, field: Place) -> Option<Place>
    ensures { result ≡ named_by_reloc index.now.elf kind field }
{
    let reloc = find_kind(index.relocs_at(field), kind)?;
    named_place(index.object(), reloc)
}

/// Whether tables may stand at a place, by the name of its section.
pub(crate) fn may_hold_tables(index: &Index<'_, '_>, place: Place) -> bool
    ensures { result ≡ may_hold_the_tables index.now.elf place }
{
    let object = index.object();
    place.sec < object.sections()
        && (object.section_name_begins(place.sec, RODATA)
            || object.section_name_begins(place.sec, DATA_REL_RO))
}

/// The boundary that the 64-bit address in the field at a place names.
pub(crate) fn boundary_named(
    index: &Index<'_, '_>,
    texts: &[SectionText<'_>],
    field: Place,
) -> Option<Place>
    requires { AscendBySection texts.now }
    ensures { result ≡ boundary_named_by index.now.elf texts.now field }
{
    let place = named_by(index, R_X86_64_64, field)?;
    if is_boundary(texts, place) {
        Some(place)
    } else {
        None
    }
}

/// Where the table begins whose 32-bit address the field at a place holds.
fn table_named(index: &Index<'_, '_>, field: Place) -> Option<Place>
    ensures { result ≡ table_of_field index.now.elf field }
{
    let table = named_by(index, R_X86_64_32S, field)?;
    if may_hold_tables(index, table) {
        Some(table)
    } else {
        None
    }
}

/// The place so many bytes behind another, where 64 bits hold the offset.
pub(crate) fn checked_behind(place: Place, n: u64) -> Option<Place>
    ensures { result ≡ place_behind place n }
{
    let off = u64::try_from(i128::from(place.off) + i128::from(n)).ok()?;
    Some(Place { off, ..place })
}

/// Where the table begins whose address is in a field that an operation at a place names.
pub(crate) fn field_table(index: &Index<'_, '_>, place: Place, op: Op) -> Option<Place>
    ensures { result ≡ field_table_of index.now.elf place op }
{
    match op {
        Op::JmpInd { table: Some(n) } => table_named(index, checked_behind(place, u64::from(n))?),
        _ => None,
    }
}
