//! The lines of site lists.

ghost use Rattle.std.specs.Prelude.{◌≡◌, ◌++◌, OnErr, OnOk};
ghost use Rattle.command_base.specs.List.{site_line};

use elf_objects::Object;
use ot_base::{Names, NoMemory, Place, PlaceText};
use std::fmt;

/// The line of a site: its list's word, and its place.
#[derive(Clone, Copy)]
struct SiteLine<'a> {
    word: &'static str,
    place: PlaceText<'a>,
}

impl fmt::Display for SiteLine<'_> {
    ghost use Rattle.std.specs.Prelude.{Some, ◌++◌, codes};
    ghost use Rattle.ot_base.specs.PlaceText.{place_text};

    ghost output = { λ l. Some (l.word.now ++ codes " " ++ place_text l.place.section.now l.place.off ++ codes "\n") };

    fn fmt<W: fmt::Write>(&self, f: &mut fmt::Formatter<W>) -> fmt::Result {
        let SiteLine { word, place } = *self;
        writeln!(f, "{word} {place}")
    }
}

/// Appends the line of a site of the list with this word.
#[tactic(auto, unfolding(crate::specs::List::site_line))]
pub(crate) fn push_line(
    object: &Object<'_>,
    word: &'static str,
    place: Place,
    into: &mut Vec<u8>,
) -> Result<(), NoMemory>
    ensures ok { OnOk result (into.new.items ≡ into.old.items ++ site_line object.now word.now place) }
    ensures err { OnErr result (into.new.items ≡ into.old.items) }
{
    let alloc = *into.allocator();
    let line = SiteLine {
        word,
        place: PlaceText {
            section: object.section_name(place.sec),
            off: place.off,
        },
    };
    let text = format!(in alloc; "{line}")?;
    into.extend_from_slice(text.as_bytes())?;
    Ok(())
}
