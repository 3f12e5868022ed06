//! The bodies that an object lends.

ghost use Rattle.std.specs.Prelude.{◌≡◌, ◌≤◌, ◌+◌, length, IsTrue};
ghost use Rattle.elf_objects.specs.Header.{has_body};
ghost use Rattle.elf_objects.specs.Table.{body_of};

use crate::header::SectionHeader;

/// The body of a section.
#[tactic(auto, unfolding(crate::specs::Table::body_of))]
pub(crate) fn slice_body<'a>(bytes: &'a [u8], h: &SectionHeader) -> &'a [u8]
    requires { IsTrue (has_body h.now) → h.now.offset + h.now.size ≤ length bytes.now }
    ensures { result.now ≡ body_of bytes.now h.now }
{
    if h.has_body() {
        let offset = h.offset as usize;
        &bytes[offset..offset + h.size as usize]
    } else {
        &[]
    }
}
