//! The rows that the ORC sections of an object hold.

ghost use Rattle.std.specs.Prelude.{◌≡◌, ◌↔◌, pos, ◌≢◌, ◌<◌, ◌≤◌, ◌*◌, ◌+◌, ◌/◌, ◌^◌, ℕ, [], List, length, take, slice_get, Some, IfOk, IfErr, IfNone, IfSome, IsTrue, false, IsOkUnless, MatchOption, MatchResult};
ghost use Rattle.ot_base.specs.declared.row.PlacedRow.{PlacedRow};
ghost use Rattle.elf_objects.specs.Elf.{SectionEntry};
ghost use Rattle.elf_objects.specs.Contents.{relocs_at, section_at};
ghost use Rattle.elf_objects.specs.Number.{word};
ghost use Rattle.orc_bytes.specs.Faults.{row_in, row_count, HasRow, HasPlace, HasParts, HasReloc, HasRowsAndPlaces, IsAtRow, PlaceFault, FirstFault, Refuses, TellsPlace, StandsForText};
ghost use Rattle.orc_bytes.specs.Parts.{parts_of};
ghost use Rattle.orc_bytes.specs.RowBytes.{bytes_of_row};
ghost use Rattle.orc_bytes.specs.Sections.{HoldsOrc, section_named};

use crate::fault::{OrcFault, SlotWhy};
use byteorder::{ByteOrder, LittleEndian};
use elf_objects::{Home, Object, R_X86_64_PC32, Reloc};
use ot_base::codes::{KIND_REGS_PARTIAL, REG_SP_INDIRECT};
use ot_base::{Place, PlacedRow, Row};
use std::alloc::Global;

/// The ORC sections of an object.
#[derive(Drop)]
pub(crate) struct Parts<'a> {
    /// The body of `.orc_unwind`.
    table: &'a [u8],
    /// The body of `.orc_unwind_ip`.
    ips: &'a [u8],
    /// The number of `.orc_unwind_ip`, whose relocations tell the places.
    ip_section: u32,
}

/// The first section with a name.
fn section_named(object: &Object<'_>, name: &[u8]) -> Option<u32>
    ensures value { result ≡ section_named object.now name.now }
    ensures known { IfSome result (λ i. i < length object.now.sections) }
    ensures related { IfSome result (λ i. i < length object.now.relocs) }
{
    for i in 0..object.sections() {
        if object.section_is_named(i, name) {
            return Some(i);
        }
    }
    None
}

/// The two ORC sections, which have as many whole rows as places, or what is wrong with them.
fn find_parts<'a>(object: &Object<'a>) -> Result<Parts<'a>, OrcFault>
    ensures ok { IfOk result (λ p. HasParts object.now (parts_of object.now p)
        × HasRowsAndPlaces (parts_of object.now p)) }
    ensures known { IfOk result (λ p. p.ip_section < length object.now.sections) }
    ensures short { IfOk result (λ p. length p.table.now < 2 ^ 32) }
    ensures err { IfErr result (FirstFault object.now) }
{
    let Some(table_section) = section_named(object, b".orc_unwind") else {
        return Err(OrcFault::NoSection { which: 0 });
    };
    let Some(ip_section) = section_named(object, b".orc_unwind_ip") else {
        return Err(OrcFault::NoSection { which: 1 });
    };
    let table = object.section(table_section).body;
    let ips = object.section(ip_section).body;
    if table.len() % 6 != 0 {
        return Err(OrcFault::BadLength {
            which: 0,
            len: table.len() as u64,
        });
    }
    if ips.len() % 4 != 0 {
        return Err(OrcFault::BadLength {
            which: 1,
            len: ips.len() as u64,
        });
    }
    if table.len() / 6 != ips.len() / 4 {
        return Err(OrcFault::Counts {
            rows: table.len() as u64 / 6,
            ips: ips.len() as u64 / 4,
        });
    }
    Ok(Parts {
        table,
        ips,
        ip_section,
    })
}

/// The row in the first six bytes, where they are those of one.
#[tactic(auto, unfolding(elf_objects::specs::Number::half))]
fn read_row(bytes: &[u8]) -> Option<Row>
    requires { 6 ≤ length bytes.now }
    ensures some { IfSome result (λ row. (row ≡ row_in bytes.now) × HasRow bytes.now) }
    ensures bytes { IfSome result (λ row. bytes_of_row row ≡ take 6 bytes.now) }
    ensures none { IfNone result (HasRow bytes.now → ⊥) }
{
    let fields = LittleEndian::read_u16(&bytes[4..]);
    let row = Row {
        sp_offset: LittleEndian::read_i16(bytes),
        bp_offset: LittleEndian::read_i16(&bytes[2..]),
        sp_reg: (fields % 16) as u8,
        bp_reg: (fields / 16 % 16) as u8,
        kind: (fields / 256 % 8) as u8,
        signal: fields / 2048 % 2 == 1,
    };
    if row.sp_reg <= REG_SP_INDIRECT
        && row.bp_reg <= REG_SP_INDIRECT
        && row.kind <= KIND_REGS_PARTIAL
        && fields < 1 << 12
    {
        Some(row)
    } else {
        None
    }
}

/// The relocation of row number i of so many rows, where it stands at the row's four bytes.
fn slot_at(object: &Object<'_>, parts: &Parts<'_>, rows: u32, i: u32) -> Result<Reloc, SlotWhy>
    requires known { parts.now.ip_section < length object.now.sections }
    requires rows { rows ≡ row_count (parts_of object.now parts.now) }
    requires inside { i < rows }
    ensures ok { IfOk result (IsAtRow (parts_of object.now parts.now) i) }
    ensures err { IfErr result (PlaceFault object.now (parts_of object.now parts.now) i) }
{
    let relocs = object.relocs(parts.ip_section);
    if i >= relocs || (i + 1 == rows && relocs > rows) {
        return Err(SlotWhy::NoReloc);
    }
    let reloc = object.reloc(parts.ip_section, i);
    if reloc.kind != R_X86_64_PC32 {
        return Err(SlotWhy::Kind);
    }
    if reloc.offset != 4 * u64::from(i) {
        return Err(SlotWhy::Offset);
    }
    Ok(reloc)
}

/// Whether a symbol is the section symbol of this section, which is one of text.
fn stands_for_text(object: &Object<'_>, sym: u32, sec: u32) -> bool
    ensures some { IsTrue result
        → StandsForText object.now sym sec (section_at object.now sec) }
    ensures known { IsTrue result → sec < length object.now.sections }
    ensures none { result ≡ false
        → (section : SectionEntry) → StandsForText object.now sym sec section → ⊥ }
{
    if sec >= object.sections() {
        return false;
    }
    if !object.is_text(sec) {
        return false;
    }
    match object.section_symbol(sec) {
        Some(symbol) => symbol == sym,
        None => false,
    }
}

/// The text section that a symbol is the section symbol of.
fn text_of(object: &Object<'_>, sym: u32) -> Option<u32>
    ensures some { IfSome result (λ sec. StandsForText object.now sym sec (section_at object.now sec)) }
    ensures known { IfSome result (λ sec. sec < length object.now.sections) }
    ensures none { IfNone result
        ((sec : ℕ) (section : SectionEntry) → StandsForText object.now sym sec section → ⊥) }
{
    if sym >= object.symbols() {
        return None;
    }
    let Home::Section(sec) = object.symbol(sym).home else {
        return None;
    };
    if stands_for_text(object, sym, sec) {
        Some(sec)
    } else {
        None
    }
}

/// The offset that an addend tells, where it is one up to a section's size.
fn offset_in(addend: i64, size: u64) -> Option<u64>
    ensures some { IfSome result (λ off. (addend ≡ pos off) × (off ≤ size)) }
    ensures near { IfSome result (λ off. off < 2 ^ 63) }
    ensures none { IfNone result ((off : ℕ) → addend ≡ pos off → size < off) }
{
    if addend < 0 {
        return None;
    }
    let off = addend as u64;
    if off <= size { Some(off) } else { None }
}

/// Whether the four bytes from an offset on are zero.
#[tactic(auto, unfolding(elf_objects::specs::Number::word))]
fn is_zero_at(bytes: &[u8], at: usize) -> bool
    requires { at + 4 ≤ length bytes.now }
    ensures { IsTrue result ↔ word bytes.now at ≡ 0 }
{
    LittleEndian::read_u32(&bytes[at..]) == 0
}

/// The place of row number i of so many rows, or what is wrong with it.
fn place_of(object: &Object<'_>, parts: &Parts<'_>, rows: u32, i: u32) -> Result<Place, SlotWhy>
    requires known { parts.now.ip_section < length object.now.sections }
    requires rows { rows ≡ row_count (parts_of object.now parts.now) }
    requires counts { HasRowsAndPlaces (parts_of object.now parts.now) }
    requires inside { i < rows }
    ensures ok { IfOk result (HasPlace object.now (parts_of object.now parts.now) i) }
    ensures near { IfOk result (λ place. place.off < 2 ^ 63) }
    ensures err { IfErr result (PlaceFault object.now (parts_of object.now parts.now) i) }
{
    let reloc = slot_at(object, parts, rows, i)?;
    let Some(sec) = text_of(object, reloc.sym) else {
        return Err(SlotWhy::Symbol);
    };
    let Some(off) = offset_in(reloc.addend, object.section(sec).size) else {
        return Err(SlotWhy::Range);
    };
    if !is_zero_at(parts.ips, 4 * i as usize) {
        return Err(SlotWhy::NotZero);
    }
    Ok(Place { sec, off })
}

/// The rows of ORC sections with as many whole rows as places, in their order, or the first fault of
/// them.
fn read_rows(
    alloc: Global,
    object: &Object<'_>,
    parts: &Parts<'_>,
    count: u32,
) -> Result<Vec<PlacedRow>, OrcFault>
    requires known { parts.now.ip_section < length object.now.sections }
    requires has { HasParts object.now (parts_of object.now parts.now) }
    requires counts { HasRowsAndPlaces (parts_of object.now parts.now) }
    requires count { count ≡ row_count (parts_of object.now parts.now) }
    ensures ok { IfOk result (λ rows. HoldsOrc object.now rows.items) }
    ensures err { IfErr result (Refuses object.now) }
{
    let mut rows = Vec::new(alloc);
    for i in 0..count {
        let Some(row) = read_row(&parts.table[6 * i as usize..]) else {
            return Err(OrcFault::BadBits { row: i });
        };
        match place_of(object, parts, count, i) {
            Ok(place) => rows.push(PlacedRow { place, row })?,
            Err(why) => return Err(OrcFault::BadSlot { row: i, why }),
        }
    }
    if count == 0 && object.relocs(parts.ip_section) > 0 {
        return Err(OrcFault::BadSlot {
            row: 0,
            why: SlotWhy::NoReloc,
        });
    }
    Ok(rows)
}

/// The rows that the ORC sections of an object hold, in their order (Linux 6.6, `orc_types.h`). Of several
/// sections with one name the first is read.
///
/// # Errors
///
/// Where the sections are those of no rows, the first fault, in the order in which [`OrcFault`] lists
/// them; those of a row are looked for row by row. [`OrcFault::NoMemory`] may come at any object.
pub fn decode(alloc: Global, object: &Object<'_>) -> Result<Vec<PlacedRow>, OrcFault>
    ensures ok { IfOk result (λ rows. HoldsOrc object.now rows.items) }
    ensures few { IfOk result (λ rows. length rows.items < 2 ^ 32) }
    ensures err { IfErr result (Refuses object.now) }
    ensures only { (rows : List PlacedRow)
        → HoldsOrc object.now rows → IsOkUnless result OrcFault.NoMemory }
{
    let parts = find_parts(object)?;
    let count = (parts.table.len() / 6) as u32;
    read_rows(alloc, object, &parts, count)
}
