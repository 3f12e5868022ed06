//! Alternatives, static branches and exception entries.

ghost use Rattle.std.specs.Prelude.{◌≡◌, ◌<◌, ◌^◌};
ghost use Rattle.special_sections.specs.Tables.{is_too_long, pair_why_from, replacement_bound as replacement_bound_of};

use crate::entries::{AltEntry, BranchEntry, FixEntry};
use crate::fault::Why;
use crate::fields::{Bound, leaves_section};
use crate::format::Format;
use crate::section::EntrySection;
use elf_objects::Object;

/// `.altinstructions`: 14 bytes each.
#[derive(Clone, Copy)]
pub(crate) struct Alternatives;

/// `__jump_table`: 16 bytes each.
#[derive(Clone, Copy)]
pub(crate) struct Branches;

/// `__ex_table`: 12 bytes each.
#[derive(Clone, Copy)]
pub(crate) struct Fixes;

/// Whether the replacement is longer than an original that isn't empty, or one of them leaves its section.
fn is_long(object: &Object<'_>, entry: &AltEntry) -> bool
    ensures { result ≡ is_too_long object.now entry.now }
{
    entry.original_len != 0 && entry.replacement_len > entry.original_len
        || leaves_section(object, entry.original, entry.original_len)
        || leaves_section(object, entry.replacement, entry.replacement_len)
}

/// Up to where a replacement may stand: one without a byte also at the end of its section.
fn replacement_bound(entry: &AltEntry) -> Bound
    ensures { result ≡ replacement_bound_of entry.now }
{
    if entry.replacement_len == 0 {
        Bound::UpToEnd
    } else {
        Bound::BelowEnd
    }
}

/// Why an entry with a place at each of two offsets is refused.
fn pair_why(section: &EntrySection<'_, '_>, at: u64) -> Option<Why>
    requires { at < 2 ^ 40 }
    ensures { result ≡ pair_why_from section.now.object.now section.now.sec at }
{
    if section.lacks_reloc(at) || section.lacks_reloc(at + 4) {
        return Some(Why::NoReloc);
    }
    if !(section.holds_text_place(at, Bound::BelowEnd)
        && section.holds_text_place(at + 4, Bound::BelowEnd))
    {
        return Some(Why::NotText);
    }
    None
}

impl Format for Alternatives {
    type Entry = AltEntry;

    ghost use Rattle.special_sections.specs.Tables.{alternatives};

    ghost kind = { λ _. alternatives };

    fn name(&self) -> &'static [u8] {
        b".altinstructions"
    }

    fn section_why(&self, section: &EntrySection<'_, '_>) -> Option<Why> {
        section.table_why(14)
    }

    fn count(&self, section: &EntrySection<'_, '_>) -> u32 {
        section.table_count(14)
    }

    fn why(&self, section: &EntrySection<'_, '_>, e: u32) -> Option<Why> {
        let at = 14 * u64::from(e);
        let entry = self.entry(section, e);
        if section.lacks_reloc(at) || section.lacks_reloc(at + 4) {
            return Some(Why::NoReloc);
        }
        if !(section.holds_text_place(at, Bound::BelowEnd)
            && section.holds_text_place(at + 4, replacement_bound(&entry)))
        {
            return Some(Why::NotText);
        }
        if is_long(section.object, &entry) {
            return Some(Why::Length);
        }
        None
    }

    fn entry(&self, section: &EntrySection<'_, '_>, e: u32) -> AltEntry {
        let at = 14 * e as usize;
        AltEntry {
            original: section.place(at as u64),
            replacement: section.place(at as u64 + 4),
            feature: section.half(at + 8),
            flags: section.half(at + 10),
            original_len: section.byte(at + 12),
            replacement_len: section.byte(at + 13),
        }
    }
}

impl Format for Branches {
    type Entry = BranchEntry;

    ghost use Rattle.special_sections.specs.Tables.{branches};

    ghost kind = { λ _. branches };

    fn name(&self) -> &'static [u8] {
        b"__jump_table"
    }

    fn section_why(&self, section: &EntrySection<'_, '_>) -> Option<Why> {
        section.table_why(16)
    }

    fn count(&self, section: &EntrySection<'_, '_>) -> u32 {
        section.table_count(16)
    }

    fn why(&self, section: &EntrySection<'_, '_>, e: u32) -> Option<Why> {
        pair_why(section, 16 * u64::from(e))
    }

    fn entry(&self, section: &EntrySection<'_, '_>, e: u32) -> BranchEntry {
        let at = 16 * u64::from(e);
        BranchEntry {
            code: section.place(at),
            target: section.place(at + 4),
        }
    }
}

impl Format for Fixes {
    type Entry = FixEntry;

    ghost use Rattle.special_sections.specs.Tables.{fixes};

    ghost kind = { λ _. fixes };

    fn name(&self) -> &'static [u8] {
        b"__ex_table"
    }

    fn section_why(&self, section: &EntrySection<'_, '_>) -> Option<Why> {
        section.table_why(12)
    }

    fn count(&self, section: &EntrySection<'_, '_>) -> u32 {
        section.table_count(12)
    }

    fn why(&self, section: &EntrySection<'_, '_>, e: u32) -> Option<Why> {
        pair_why(section, 12 * u64::from(e))
    }

    fn entry(&self, section: &EntrySection<'_, '_>, e: u32) -> FixEntry {
        let at = 12 * u64::from(e);
        FixEntry {
            insn: section.place(at),
            fixup: section.place(at + 4),
        }
    }
}
