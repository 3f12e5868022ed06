//! The sections that list places.

ghost use Rattle.std.specs.Prelude.{◌≡◌, ◌<◌, length};
ghost use Rattle.elf_objects.specs.Contents.{relocs_at};
ghost use Rattle.symbols_relocs.specs.NamedPlaces.{place_named};
ghost use Rattle.special_sections.specs.PlaceLists.{entry_reloc, is_misplaced};

use crate::fault::Why;
use crate::fields::{Bound, names_text};
use crate::format::Format;
use crate::section::EntrySection;
use elf_objects::{Object, Reloc};
use ot_base::Place;
use symbols_relocs::{is_pointer, named_place};

/// Where the places of a list have to be.
#[derive(Clone, Copy)]
pub(crate) enum Judged {
    /// In a text section, below its size.
    InText,
    /// There, or at the size.
    UpToItsEnd,
    /// Anywhere.
    Anywhere,
}

/// A list of places: an entry for each relocation.
#[derive(Clone, Copy)]
pub(crate) struct PlaceList {
    pub(crate) name: &'static [u8],
    pub(crate) judged: Judged,
}

/// The relocation of an entry.
fn reloc_of(section: &EntrySection<'_, '_>, e: u32) -> Reloc
    requires { e < length (relocs_at section.now.object.now section.now.sec) }
    ensures { result ≡ entry_reloc section.now.object.now section.now.sec e }
{
    section.object.reloc(section.sec, e)
}

/// Whether a place isn't where those of a list have to be.
fn is_wrong(object: &Object<'_>, judged: Judged, place: Option<Place>) -> bool
    ensures { result ≡ is_misplaced object.now judged place }
{
    match judged {
        Judged::InText => !names_text(object, Bound::BelowEnd, place),
        Judged::UpToItsEnd => !names_text(object, Bound::UpToEnd, place),
        Judged::Anywhere => false,
    }
}

impl Format for PlaceList {
    type Entry = Place;

    ghost use Rattle.special_sections.specs.PlaceLists.{places};

    ghost kind = { λ list. places list.name.now list.judged };

    fn name(&self) -> &'static [u8] {
        self.name
    }

    fn section_why(&self, section: &EntrySection<'_, '_>) -> Option<Why> {
        if section.is_compressed() {
            return Some(Why::Compressed);
        }
        None
    }

    fn count(&self, section: &EntrySection<'_, '_>) -> u32 {
        section.object.relocs(section.sec)
    }

    fn why(&self, section: &EntrySection<'_, '_>, e: u32) -> Option<Why> {
        let reloc = reloc_of(section, e);
        if !is_pointer(reloc.kind) {
            return Some(Why::NoReloc);
        }
        let place = named_place(section.object, reloc);
        if is_wrong(section.object, self.judged, place) {
            return Some(Why::NotText);
        }
        None
    }

    fn entry(&self, section: &EntrySection<'_, '_>, e: u32) -> Place {
        let reloc = reloc_of(section, e);
        named_place(section.object, reloc).unwrap_or(Place { sec: 0, off: 0 })
    }
}
