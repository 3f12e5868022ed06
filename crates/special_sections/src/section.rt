//! A section that is open for reading.

ghost use Rattle.std.specs.Prelude.{◌≡◌, ◌<◌, ◌≤◌, ◌+◌, ◌^◌, length, slice_index, IfOk};
ghost use Rattle.std.specs.Int.{cast_signed, w16};
ghost use Rattle.elf_objects.specs.Contents.{relocs_at, section_at};
ghost use Rattle.elf_objects.specs.Number.{half};
ghost use Rattle.symbols_relocs.specs.NamedPlaces.{place_held_at};
ghost use Rattle.symbols_relocs.specs.Relocs.{IsIndexOf};
ghost use Rattle.special_sections.specs.Fields.{field_at, holds_text_place, is_compressed, lacks_reloc, or_nowhere, table_why};
ghost use Rattle.special_sections.specs.Tables.{table_count};

use crate::fault::Why;
use crate::fields::{Bound, names_text};
use byteorder::{ByteOrder, LittleEndian};
use elf_objects::{Object, SHF_COMPRESSED};
use ot_base::{NoMemory, Place};
use std::alloc::Global;
use symbols_relocs::RelocIndex;

/// A section of entries: its flags, its body, and its relocations by offset.
#[derive(Drop)]
pub(crate) struct EntrySection<'o, 'a> {
    pub(crate) object: &'o Object<'a>,
    pub(crate) sec: u32,
    flags: u64,
    body: &'a [u8],
    relocs: RelocIndex,
    ghost known: { sec < length object.now.sections },
    ghost flags_are: { flags ≡ (section_at object.now sec).flags },
    ghost body_is: { body.now ≡ (section_at object.now sec).body },
    ghost short: { length body.now < 2 ^ 32 },
    ghost relocs_are: { IsIndexOf (relocs_at object.now sec) relocs },
}

impl<'o, 'a> EntrySection<'o, 'a> {
    /// Opens the section with an index.
    pub(crate) fn open(
        alloc: Global,
        object: &'o Object<'a>,
        sec: u32,
    ) -> Result<EntrySection<'o, 'a>, NoMemory>
        requires { sec < length object.now.sections }
        ensures object { IfOk result (λ section. section.object.now ≡ object.now) }
        ensures sec { IfOk result (λ section. section.sec ≡ sec) }
    {
        let section = object.section(sec);
        Ok(EntrySection {
            object,
            sec,
            flags: section.flags,
            body: section.body,
            relocs: RelocIndex::build(alloc, object, sec)?,
        })
    }

    /// Whether the section is compressed.
    pub(crate) fn is_compressed(&self) -> bool
        ensures { result ≡ is_compressed self.now.object.now self.now.sec }
    {
        self.flags & SHF_COMPRESSED != 0
    }

    /// Why it is refused, where its entries have `size` bytes each.
    pub(crate) fn table_why(&self, size: usize) -> Option<Why>
        requires { 0 < size }
        ensures { result ≡ table_why size self.now.object.now self.now.sec }
    {
        if self.is_compressed() {
            return Some(Why::Compressed);
        }
        if self.body.len() % size != 0 {
            return Some(Why::Size);
        }
        None
    }

    /// How many entries of `size` bytes it has.
    pub(crate) fn table_count(&self, size: usize) -> u32
        requires { 0 < size }
        ensures { result ≡ table_count size self.now.object.now self.now.sec }
    {
        (self.body.len() / size) as u32
    }

    /// Whether no relocation puts a place into the field at an offset.
    pub(crate) fn lacks_reloc(&self, at: u64) -> bool
        ensures { result ≡ lacks_reloc self.now.object.now (field_at self.now.sec at) }
    {
        self.relocs.pointer_at(at).is_none()
    }

    /// The place that the field at an offset holds.
    fn place_held_at(&self, at: u64) -> Option<Place>
        ensures { result ≡ place_held_at self.now.object.now (field_at self.now.sec at) }
    {
        self.relocs.place_held_at(self.object, at)
    }

    /// That place, or section 0, which is none.
    pub(crate) fn place(&self, at: u64) -> Place
        ensures { result ≡ or_nowhere (place_held_at self.now.object.now (field_at self.now.sec at)) }
    {
        self.place_held_at(at).unwrap_or(Place { sec: 0, off: 0 })
    }

    /// Whether that place is in a text section, up to a bound.
    pub(crate) fn holds_text_place(&self, at: u64, bound: Bound) -> bool
        ensures { result ≡ holds_text_place self.now.object.now bound (field_at self.now.sec at) }
    {
        names_text(self.object, bound, self.place_held_at(at))
    }

    /// The byte at an offset.
    pub(crate) fn byte(&self, at: usize) -> u8
        requires { at < length (section_at self.now.object.now self.now.sec).body }
        ensures { result ≡ slice_index (section_at self.now.object.now self.now.sec).body at }
    {
        self.body[at]
    }

    /// The number of two bytes at an offset.
    #[tactic(auto, unfolding(elf_objects::specs::Number::half))]
    pub(crate) fn half(&self, at: usize) -> u16
        requires { at + 2 ≤ length (section_at self.now.object.now self.now.sec).body }
        ensures { result ≡ half (section_at self.now.object.now self.now.sec).body at }
    {
        LittleEndian::read_u16(&self.body[at..])
    }

    /// The signed number of two bytes at an offset, in two's complement.
    pub(crate) fn signed_half(&self, at: usize) -> i16
        requires { at + 2 ≤ length (section_at self.now.object.now self.now.sec).body }
        ensures { result ≡ cast_signed w16 (half (section_at self.now.object.now self.now.sec).body at) }
    {
        self.half(at).cast_signed()
    }
}
