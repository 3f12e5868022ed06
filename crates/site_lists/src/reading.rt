//! The places that the site lists of an object hold.

ghost use Rattle.std.specs.Prelude.{◌≡◌, ◌↔◌, pos, ◌<◌, ◌≤◌, ◌*◌, ◌+◌, ◌/◌, ◌%◌, ◌^◌, ℕ, [], List, length, IfOk, IfErr, IfNone, IfSome, IsTrue, Some, None, false, true, is_some, IsOkUnless};
ghost use Rattle.ot_base.specs.declared.place.Place.{Place};
ghost use Rattle.elf_objects.specs.Elf.{SectionEntry};
ghost use Rattle.elf_objects.specs.Contents.{section_at};
ghost use Rattle.elf_objects.specs.Number.{word};
ghost use Rattle.orc_bytes.specs.Faults.{StandsForText};
ghost use Rattle.orc_bytes.specs.Sections.{section_named};
ghost use Rattle.site_lists.specs.Faults.{slot_count, HasList, HasPlace, IsAtSlot, ListFault, Refuses, RefusesList, SlotFault};
ghost use Rattle.site_lists.specs.Listed.{Listed, listed};
ghost use Rattle.site_lists.specs.Parts.{parts_of};
ghost use Rattle.site_lists.specs.Sections.{HasLists, HoldsList, HoldsSites, IsListOf, list_name as list_name_of};

use crate::fault::SitesFault;
use crate::fault_text::list_name;
use crate::lists::SiteLists;
use byteorder::{ByteOrder, LittleEndian};
use elf_objects::{Home, Object, R_X86_64_PC32, Reloc};
use orc_bytes::SlotWhy;
use ot_base::Place;
use std::alloc::Global;

/// The section of a list.
#[derive(Drop)]
pub(crate) struct Slots<'a> {
    /// Its body.
    body: &'a [u8],
    /// Its number, whose relocations tell the places.
    section: u32,
}

/// The first section with a name.
fn section_named(object: &Object<'_>, name: &[u8]) -> Option<u32>
    ensures value { result ≡ section_named object.now name.now }
    ensures known { IfSome result (λ i. i < length object.now.sections) }
    ensures related { IfSome result (λ i. i < length object.now.relocs) }
{
    for i in 0..object.sections() {
        if object.section_is_named(i, name) {
            return Some(i);
        }
    }
    None
}

/// The section with this number as that of a list, whose body has whole slots, or what is wrong with it.
fn slots_of<'a>(object: &Object<'a>, which: u8, section: u32) -> Result<Slots<'a>, SitesFault>
    requires named { section_named object.now (list_name_of which) ≡ Some section }
    requires known { section < length object.now.sections }
    requires related { section < length object.now.relocs }
    ensures ok { IfOk result (λ s. HasList object.now (list_name_of which) (parts_of object.now s)) }
    ensures whole { IfOk result (λ s. length s.body.now % 4 ≡ 0) }
    ensures known { IfOk result (λ s. s.section < length object.now.sections) }
    ensures short { IfOk result (λ s. length s.body.now < 2 ^ 32) }
    ensures err { IfErr result (ListFault object.now which) }
{
    let body = object.section(section).body;
    if body.len() % 4 != 0 {
        return Err(SitesFault::BadLength {
            which,
            len: body.len() as u64,
        });
    }
    Ok(Slots { body, section })
}

/// The relocation of slot number i of so many, where it stands at the slot's four bytes.
fn slot_at(object: &Object<'_>, slots: &Slots<'_>, count: u32, i: u32) -> Result<Reloc, SlotWhy>
    requires known { slots.now.section < length object.now.sections }
    requires count { count ≡ slot_count (parts_of object.now slots.now) }
    requires inside { i < count }
    ensures ok { IfOk result (IsAtSlot (parts_of object.now slots.now) i) }
    ensures err { IfErr result (SlotFault object.now (parts_of object.now slots.now) i) }
{
    let relocs = object.relocs(slots.section);
    if i >= relocs || (i + 1 == count && relocs > count) {
        return Err(SlotWhy::NoReloc);
    }
    let reloc = object.reloc(slots.section, i);
    if reloc.kind != R_X86_64_PC32 {
        return Err(SlotWhy::Kind);
    }
    if reloc.offset != 4 * u64::from(i) {
        return Err(SlotWhy::Offset);
    }
    Ok(reloc)
}

/// Whether a symbol is the section symbol of this section, which is one of text.
fn stands_for_text(object: &Object<'_>, sym: u32, sec: u32) -> bool
    ensures some { IsTrue result
        → StandsForText object.now sym sec (section_at object.now sec) }
    ensures known { IsTrue result → sec < length object.now.sections }
    ensures none { result ≡ false
        → (section : SectionEntry) → StandsForText object.now sym sec section → ⊥ }
{
    if sec >= object.sections() {
        return false;
    }
    if !object.is_text(sec) {
        return false;
    }
    match object.section_symbol(sec) {
        Some(symbol) => symbol == sym,
        None => false,
    }
}

/// The text section that a symbol is the section symbol of.
fn text_of(object: &Object<'_>, sym: u32) -> Option<u32>
    ensures some { IfSome result (λ sec. StandsForText object.now sym sec (section_at object.now sec)) }
    ensures known { IfSome result (λ sec. sec < length object.now.sections) }
    ensures none { IfNone result
        ((sec : ℕ) (section : SectionEntry) → StandsForText object.now sym sec section → ⊥) }
{
    if sym >= object.symbols() {
        return None;
    }
    let Home::Section(sec) = object.symbol(sym).home else {
        return None;
    };
    if stands_for_text(object, sym, sec) {
        Some(sec)
    } else {
        None
    }
}

/// The offset that an addend tells, where it is one up to a section's size.
fn offset_in(addend: i64, size: u64) -> Option<u64>
    ensures some { IfSome result (λ off. (addend ≡ pos off) × (off ≤ size)) }
    ensures near { IfSome result (λ off. off < 2 ^ 63) }
    ensures none { IfNone result ((off : ℕ) → addend ≡ pos off → size < off) }
{
    if addend < 0 {
        return None;
    }
    let off = addend as u64;
    if off <= size { Some(off) } else { None }
}

/// Whether the four bytes from an offset on are zero.
#[tactic(auto, unfolding(elf_objects::specs::Number::word))]
fn is_zero_at(bytes: &[u8], at: usize) -> bool
    requires { at + 4 ≤ length bytes.now }
    ensures { IsTrue result ↔ word bytes.now at ≡ 0 }
{
    LittleEndian::read_u32(&bytes[at..]) == 0
}

/// The place of slot number i of so many, or what is wrong with it.
fn place_of(object: &Object<'_>, slots: &Slots<'_>, count: u32, i: u32) -> Result<Place, SlotWhy>
    requires known { slots.now.section < length object.now.sections }
    requires count { count ≡ slot_count (parts_of object.now slots.now) }
    requires whole { length slots.now.body.now % 4 ≡ 0 }
    requires inside { i < count }
    ensures ok { IfOk result (HasPlace object.now (parts_of object.now slots.now) i) }
    ensures near { IfOk result (λ place. place.off < 2 ^ 63) }
    ensures err { IfErr result (SlotFault object.now (parts_of object.now slots.now) i) }
{
    let reloc = slot_at(object, slots, count, i)?;
    let Some(sec) = text_of(object, reloc.sym) else {
        return Err(SlotWhy::Symbol);
    };
    let Some(off) = offset_in(reloc.addend, object.section(sec).size) else {
        return Err(SlotWhy::Range);
    };
    if !is_zero_at(slots.body, 4 * i as usize) {
        return Err(SlotWhy::NotZero);
    }
    Ok(Place { sec, off })
}

/// The places of a list with so many whole slots, in their order, or the first fault of them.
fn read_places(
    alloc: Global,
    object: &Object<'_>,
    slots: &Slots<'_>,
    which: u8,
    count: u32,
) -> Result<Vec<Place>, SitesFault>
    requires known { slots.now.section < length object.now.sections }
    requires has { HasList object.now (list_name_of which) (parts_of object.now slots.now) }
    requires whole { length slots.now.body.now % 4 ≡ 0 }
    requires count { count ≡ slot_count (parts_of object.now slots.now) }
    ensures ok { IfOk result (λ places. HoldsList object.now (list_name_of which) places.items) }
    ensures err { IfErr result (RefusesList object.now which) }
{
    let mut places = Vec::new(alloc);
    for slot in 0..count {
        match place_of(object, slots, count, slot) {
            Ok(place) => places.push(place)?,
            Err(why) => return Err(SitesFault::BadSlot { which, slot, why }),
        }
    }
    if count == 0 && object.relocs(slots.section) > 0 {
        return Err(SitesFault::BadSlot {
            which,
            slot: 0,
            why: SlotWhy::NoReloc,
        });
    }
    Ok(places)
}

/// The places of the list with this number, which stands in a section.
fn decode_section(
    alloc: Global,
    object: &Object<'_>,
    which: u8,
    section: u32,
) -> Result<Vec<Place>, SitesFault>
    requires named { section_named object.now (list_name_of which) ≡ Some section }
    requires known { section < length object.now.sections }
    requires related { section < length object.now.relocs }
    ensures ok { IfOk result (λ places. HoldsList object.now (list_name_of which) places.items) }
    ensures err { IfErr result (RefusesList object.now which) }
{
    let slots = slots_of(object, which, section)?;
    let count = (slots.body.len() / 4) as u32;
    read_places(alloc, object, &slots, which, count)
}

/// The places of the list with this number: none where it isn't there.
fn decode_list(alloc: Global, object: &Object<'_>, which: u8) -> Result<Vec<Place>, SitesFault>
    ensures ok { IfOk result (λ places. IsListOf object.now (list_name_of which) places.items) }
    ensures err { IfErr result (RefusesList object.now which) }
    ensures only { (places : List Place)
        → IsListOf object.now (list_name_of which) places → IsOkUnless result SitesFault.NoMemory }
{
    match section_named(object, list_name(which).as_bytes()) {
        Some(section) => decode_section(alloc, object, which, section),
        None => Ok(Vec::new(alloc)),
    }
}

/// Whether the list with this number is there.
fn has_list(object: &Object<'_>, which: u8) -> bool
    ensures { result ≡ is_some (section_named object.now (list_name_of which)) }
{
    section_named(object, list_name(which).as_bytes()).is_some()
}

/// Whether one of the lists is there.
fn has_lists(object: &Object<'_>) -> bool
    ensures some { result ≡ true → HasLists object.now }
    ensures none { result ≡ false → (which : ℕ) → which < 3 → section_named object.now (list_name_of which) ≡ None }
{
    for which in 0..3 {
        if has_list(object, which) {
            return true;
        }
    }
    false
}

/// The places that the site lists of an object hold, each list in its order. Of several sections with one name the first is
/// read, and a list without a section is empty.
///
/// # Errors
///
/// Where no list is there, or the sections are those of no lists, the first fault, list by list in the order in which
/// [`SitesFault`] names them; those of slots are looked for slot by slot. [`SitesFault::NoMemory`] may come at any object.
pub fn decode(alloc: Global, object: &Object<'_>) -> Result<SiteLists, SitesFault>
    ensures ok { IfOk result (λ lists. HoldsSites object.now (listed lists)) }
    ensures err { IfErr result (Refuses object.now) }
    ensures only { (lists : Listed)
        → HoldsSites object.now lists → IsOkUnless result SitesFault.NoMemory }
{
    if !has_lists(object) {
        return Err(SitesFault::NoSection { which: 0 });
    }
    let retpoline = decode_list(alloc, object, 0)?;
    let returns = decode_list(alloc, object, 1)?;
    let calls = decode_list(alloc, object, 2)?;
    Ok(SiteLists {
        retpoline,
        returns,
        calls,
    })
}
