//! The texts of a string table, each up to its zero byte.

ghost use Rattle.std.specs.Prelude.{◌≡◌, ◌↔◌, ◌<◌, ◌≤◌, ◌+◌, ◌^◌, ◌==◌, not, IfErr, IfOk, IsTrue, drop, length, slice_index};
ghost use Rattle.std.specs.List.{prefix_len};
ghost use Rattle.elf_objects.specs.Header.{has_body};
ghost use Rattle.elf_objects.specs.Strings.{BeginsWith, up_to_zero};
ghost use Rattle.elf_objects.specs.Table.{body_of, string_at};

use crate::fault::ElfFault;
use crate::header::SectionHeader;
use crate::slices::slice_body;
use std::alloc::Global;
use text_numbers::Ends;

/// The bytes from an offset on.
pub(crate) fn tail(bytes: &[u8], at: usize) -> &[u8]
    requires { at ≤ length bytes.now }
    ensures { result.now ≡ drop at bytes.now }
{
    &bytes[at..]
}

/// How many bytes stand before the first zero byte.
fn len_before_zero(bytes: &[u8]) -> usize
    ensures { result ≡ prefix_len (λ c. not (c == 0)) bytes.now }
{
    bytes.iter().take_while(|byte| **byte != 0).count()
}

/// The text that begins here: the bytes before the first zero byte.
#[tactic(auto, unfolding(crate::specs::Strings::up_to_zero))]
pub(crate) fn text_of(bytes: &[u8]) -> &[u8]
    ensures { result.now ≡ up_to_zero bytes.now }
{
    &bytes[..len_before_zero(bytes)]
}

/// Where the texts end in the body of a string table.
pub(crate) fn list_ends<'a>(
    alloc: Global,
    bytes: &'a [u8],
    h: &SectionHeader,
) -> Result<Ends<'a>, ElfFault>
    requires short { length bytes.now < 2 ^ 32 }
    requires inside { IsTrue (has_body h.now) → h.now.offset + h.now.size ≤ length bytes.now }
    ensures ok { IfOk result (λ ends. ends ≡ body_of bytes.now h.now) }
    ensures err { IfErr result (λ e. e ≡ ElfFault.NoMemory) }
{
    match Ends::build(alloc, slice_body(bytes, h)) {
        Ok(ends) => Ok(ends),
        Err(_) => Err(ElfFault::NoMemory),
    }
}

/// The text that begins at an offset of a string table.
#[tactic(auto, unfolding(crate::specs::Strings::up_to_zero, crate::specs::Table::string_at))]
pub(crate) fn text_at<'a>(ends: &Ends<'a>, at: usize) -> &'a [u8]
    requires { at ≤ length ends.now }
    ensures { result.now ≡ string_at ends.now at }
{
    let end = ends.end_of(at);
    &ends.table()[at..end]
}

/// Whether a zero byte stands at an offset, or nothing does.
fn ends_at(bytes: &[u8], at: usize) -> bool
    ensures { IsTrue result ↔ slice_index bytes.now at ≡ 0 }
{
    at >= bytes.len() || bytes[at] == 0
}

/// Whether the text that begins here begins with these bytes. It reads so many bytes at most.
pub(crate) fn text_begins(bytes: &[u8], prefix: &[u8]) -> bool
    ensures { IsTrue result ↔ BeginsWith (up_to_zero bytes.now) prefix.now }
{
    bytes.starts_with(prefix) && !prefix.contains(&0)
}

/// Whether the text that begins here is this one. It reads one byte more than that has at most.
pub(crate) fn text_is(bytes: &[u8], text: &[u8]) -> bool
    ensures { IsTrue result ↔ up_to_zero bytes.now ≡ text.now }
{
    text_begins(bytes, text) && ends_at(bytes, text.len())
}
