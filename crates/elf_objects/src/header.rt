//! Section headers, `Elf64_Shdr`.

ghost use Rattle.std.specs.Prelude.{◌≡◌, ◌+◌, ◌≤◌, ◌==◌, ◌&&◌, not, bit_and, length};
ghost use Rattle.elf_objects.specs.Header.{header_at};
ghost use Rattle.elf_objects.specs.declared.TheConstants.{SHT_PROGBITS as PROGBITS, SHF_EXECINSTR as EXECINSTR};

use crate::number::{word_at, xword_at};
use crate::{SHF_EXECINSTR, SHT_NOBITS, SHT_NULL, SHT_PROGBITS};

/// The fields of a section header, as they stand in the file.
#[derive(Clone, Copy)]
pub struct SectionHeader {
    pub name: u32,
    pub kind: u32,
    pub flags: u64,
    pub addr: u64,
    pub offset: u64,
    pub size: u64,
    pub link: u32,
    pub info: u32,
    pub align: u64,
    pub entsize: u64,
}

/// The header whose 64 bytes begin at an offset.
#[inline(always)]
#[tactic(auto, unfolding(crate::specs::Header::header_at))]
pub(crate) fn read_header(bytes: &[u8], at: usize) -> SectionHeader
    requires { at + 64 ≤ length bytes.now }
    ensures { result ≡ header_at bytes.now at }
{
    SectionHeader {
        name: word_at(bytes, at),
        kind: word_at(bytes, at + 4),
        flags: xword_at(bytes, at + 8),
        addr: xword_at(bytes, at + 16),
        offset: xword_at(bytes, at + 24),
        size: xword_at(bytes, at + 32),
        link: word_at(bytes, at + 40),
        info: word_at(bytes, at + 44),
        align: xword_at(bytes, at + 48),
        entsize: xword_at(bytes, at + 56),
    }
}

/// Whether a section of this type with these flags has code.
pub(crate) fn has_code(kind: u32, flags: u64) -> bool
    ensures { result ≡ ((kind == PROGBITS) && not (bit_and flags EXECINSTR == 0)) }
{
    kind == SHT_PROGBITS && flags & SHF_EXECINSTR != 0
}

impl SectionHeader {
    ghost use Rattle.elf_objects.specs.Header.{null_header, has_body, is_text_header};

    /// The header with nothing but zeros, which stands for that of a section that is not there.
    pub(crate) fn null() -> SectionHeader
        ensures { result ≡ null_header }
    {
        SectionHeader {
            name: 0,
            kind: SHT_NULL,
            flags: 0,
            addr: 0,
            offset: 0,
            size: 0,
            link: 0,
            info: 0,
            align: 0,
            entsize: 0,
        }
    }

    /// Whether the section has a body in the file.
    pub(crate) fn has_body(&self) -> bool
        ensures { result ≡ has_body self.now }
    {
        self.kind != SHT_NULL && self.kind != SHT_NOBITS
    }

    /// Whether the section has code.
    pub(crate) fn is_text(&self) -> bool
        ensures { result ≡ is_text_header self.now }
    {
        has_code(self.kind, self.flags)
    }
}
