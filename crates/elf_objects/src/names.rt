//! The names of the sections begin in their table, and there is not too much text.

ghost use Rattle.std.specs.Prelude.{◌≡◌, MatchResult, IfErr, OnOk};
ghost use Rattle.elf_objects.specs.Steps.{EachSection, FirstSection, file};
ghost use Rattle.elf_objects.specs.Sections.{HasBody, HasName, NameFault, HasLittleText, IsMuchText, file_text_bytes, text_size};

use crate::MAX_TEXT_BYTES;
use crate::fault::{Counted, ElfFault, NameOf};
use crate::header::SectionHeader;
use crate::headers::Headers;

/// Whether the name of each section begins in the table of section names, in ascending order.
pub(crate) fn check_names(headers: &Headers) -> Result<(), ElfFault>
    ensures ok { OnOk result (EachSection HasName (file headers.now)) }
    ensures err { IfErr result (FirstSection HasName NameFault (file headers.now)) }
{
    let table = headers.get(headers.names);
    for i in 0..headers.count {
        if u64::from(headers.get(i).name) >= table.size {
            return Err(ElfFault::BadName {
                what: NameOf::Section,
                index: i,
            });
        }
    }
    Ok(())
}

/// The bytes of text in a section.
fn size_of_text(h: &SectionHeader) -> u64
    ensures { result ≡ text_size h.now }
{
    if h.is_text() { h.size } else { 0 }
}

/// The bytes of text in all sections.
#[tactic(auto, unfolding(crate::specs::Sections::file_text_bytes))]
fn count_text(headers: &Headers) -> u64
    requires { EachSection HasBody (file headers.now) }
    ensures { result ≡ file_text_bytes (file headers.now) }
{
    let mut total = 0;
    for i in 0..headers.count {
        total += size_of_text(&headers.get(i));
    }
    total
}

/// Whether there is not too much text.
pub(crate) fn check_text(headers: &Headers) -> Result<(), ElfFault>
    requires { EachSection HasBody (file headers.now) }
    ensures { MatchResult result
        (λ _. HasLittleText (file headers.now)) (IsMuchText (file headers.now)) }
{
    let count = count_text(headers);
    if count > MAX_TEXT_BYTES {
        return Err(ElfFault::TooMany {
            what: Counted::TextBytes,
            count,
        });
    }
    Ok(())
}
