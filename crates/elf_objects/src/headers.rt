//! The file header, and the table of section headers that it names.

ghost use Rattle.std.specs.Prelude.{◌≡◌, ◌<◌, ◌≤◌, ◌+◌, ◌*◌, ◌^◌, length, IfOk, IfErr, MatchResult};
ghost use Rattle.std.specs.Prelude.{find, not, ◌==◌};
ghost use Rattle.elf_objects.specs.Header.{is_text_header};
ghost use Rattle.elf_objects.specs.File.{HasFileHeader, IsElfRel64, HasFirstHeader, HasTable, TableFault, headers_at, section_count, section_header, name_table, fields, too_short};

use crate::fault::{Counted, ElfFault};
use crate::header::{SectionHeader, has_code, read_header};
use crate::number::{half_at, word_at, xword_at};
use crate::{MAX_SECTIONS, SHN_LORESERVE, SHN_XINDEX};

/// The bytes of a file with the place of its section header table.
#[derive(Clone, Copy)]
pub(crate) struct Headers<'a> {
    pub(crate) bytes: &'a [u8],
    /// `e_shoff`.
    pub(crate) at: u64,
    /// How many section headers there are.
    pub(crate) count: u32,
    /// The index of the table of section names.
    pub(crate) names: u32,
    ghost short: { length bytes.now < 2 ^ 32 },
    ghost at_is: { at ≡ headers_at bytes.now },
    ghost count_is: { count ≡ section_count bytes.now },
    ghost names_is: { names ≡ name_table bytes.now },
    ghost table: { HasTable bytes.now },
}

impl<'a> Headers<'a> {
    /// Finds the table, or the first fault on the way to it.
    pub(crate) fn find(bytes: &'a [u8]) -> Result<Headers<'a>, ElfFault>
        requires { length bytes.now < 2 ^ 32 }
        ensures ok { IfOk result (λ h. h.bytes.now ≡ bytes.now) }
        ensures err { IfErr result (TableFault bytes.now) }
    {
        if bytes.len() < 64 {
            return Err(short(bytes, 64));
        }
        check_target(bytes)?;
        check_first_header(bytes)?;
        let count = count_sections(bytes);
        let names = find_names(bytes);
        check_counts(bytes, count, names)?;
        Ok(Headers {
            bytes,
            at: xword_at(bytes, 40),
            count: count as u32,
            names,
        })
    }

    /// Where the header of a section begins.
    fn header_place(&self, i: u32) -> usize
        requires { i < section_count self.now.bytes.now }
        ensures value { result ≡ headers_at self.now.bytes.now + 64 * i }
        ensures inside { result + 64 ≤ length self.now.bytes.now }
    {
        self.at as usize + 64 * i as usize
    }

    /// The header of a section.
    #[tactic(auto, unfolding(crate::specs::File::section_header))]
    pub(crate) fn get(&self, i: u32) -> SectionHeader
        requires { i < section_count self.now.bytes.now }
        ensures { result ≡ section_header self.now.bytes.now i }
    {
        read_header(self.bytes, self.header_place(i))
    }

    /// The size of a section, read alone.
    #[tactic(auto, unfolding(crate::specs::File::section_header, crate::specs::Header::header_at))]
    pub(crate) fn size(&self, i: u32) -> u64
        requires { i < section_count self.now.bytes.now }
        ensures { result ≡ (section_header self.now.bytes.now i).size }
    {
        xword_at(self.bytes, self.header_place(i) + 32)
    }

    /// Whether a section has code, by its type and its flags alone.
    #[tactic(auto, unfolding(crate::specs::File::section_header, crate::specs::Header::header_at))]
    pub(crate) fn is_text(&self, i: u32) -> bool
        requires { i < section_count self.now.bytes.now }
        ensures { result ≡ is_text_header (section_header self.now.bytes.now i) }
    {
        let at = self.header_place(i);
        has_code(word_at(self.bytes, at + 4), xword_at(self.bytes, at + 8))
    }
}

/// The fields of the file header that tell the kind of file: the offset, what stands there, and what
/// must stand there.
fn header_fields(bytes: &[u8]) -> [(u64, u32, u32); 12]
    requires { HasFileHeader bytes.now }
    ensures { result ≡ fields bytes.now }
{
    [
        (0, u32::from(bytes[0]), 0x7F),
        (1, u32::from(bytes[1]), 0x45),
        (2, u32::from(bytes[2]), 0x4C),
        (3, u32::from(bytes[3]), 0x46),
        (4, u32::from(bytes[4]), 2),
        (5, u32::from(bytes[5]), 1),
        (6, u32::from(bytes[6]), 1),
        (16, u32::from(half_at(bytes, 16)), 1),
        (18, u32::from(half_at(bytes, 18)), 62),
        (20, word_at(bytes, 20), 1),
        (52, u32::from(half_at(bytes, 52)), 64),
        (58, u32::from(half_at(bytes, 58)), 64),
    ]
}

/// The first field that is not as it must be.
fn first_wrong(fields: &[(u64, u32, u32)]) -> Option<(u64, u32, u32)>
    ensures { result ≡ find (λ f. not (f.1 == f.2)) fields.now }
{
    fields.iter().copied().find(|field| field.1 != field.2)
}

/// Whether the file header is that of a little-endian 64-bit relocatable file for x86-64.
#[tactic(auto, unfolding(crate::specs::File::wrong_field))]
fn check_target(bytes: &[u8]) -> Result<(), ElfFault>
    requires { HasFileHeader bytes.now }
    ensures { MatchResult result (λ _. IsElfRel64 bytes.now) (TableFault bytes.now) }
{
    match first_wrong(&header_fields(bytes)) {
        None => Ok(()),
        Some((at, _, _)) => Err(ElfFault::NotElfRel64 { at }),
    }
}

/// The fault of a file that ends before `need`.
fn short(bytes: &[u8], need: u128) -> ElfFault
    ensures { result ≡ too_short bytes.now need }
{
    ElfFault::Short {
        need: need.min(u128::from(u64::MAX)) as u64,
        have: bytes.len() as u64,
    }
}

/// Whether the header of section 0 is there, where the file header leaves a number to it.
fn check_first_header(bytes: &[u8]) -> Result<(), ElfFault>
    requires file_header { HasFileHeader bytes.now }
    requires target { IsElfRel64 bytes.now }
    ensures { MatchResult result (λ _. HasFirstHeader bytes.now) (TableFault bytes.now) }
{
    if half_at(bytes, 60) == 0 || half_at(bytes, 62) == SHN_XINDEX {
        let at = xword_at(bytes, 40);
        if at == 0 {
            return Err(ElfFault::BadTable { sec: 0 });
        }
        let need = u128::from(at) + 64;
        if need > bytes.len() as u128 {
            return Err(short(bytes, need));
        }
    }
    Ok(())
}

/// How many section headers there are.
#[tactic(auto, unfolding(crate::specs::File::section_count))]
fn count_sections(bytes: &[u8]) -> u64
    requires file_header { HasFileHeader bytes.now }
    requires first_header { HasFirstHeader bytes.now }
    ensures { result ≡ section_count bytes.now }
{
    match half_at(bytes, 60) {
        0 => read_header(bytes, xword_at(bytes, 40) as usize).size,
        count => u64::from(count),
    }
}

/// The index of the table of section names.
#[tactic(auto, unfolding(crate::specs::File::name_table))]
fn find_names(bytes: &[u8]) -> u32
    requires file_header { HasFileHeader bytes.now }
    requires first_header { HasFirstHeader bytes.now }
    ensures { result ≡ name_table bytes.now }
{
    match half_at(bytes, 62) {
        SHN_XINDEX => read_header(bytes, xword_at(bytes, 40) as usize).link,
        index => u32::from(index),
    }
}

/// Whether the number of sections and the index of the table of their names are right, and the table
/// of section headers lies in the file.
fn check_counts(bytes: &[u8], count: u64, names: u32) -> Result<(), ElfFault>
    requires file_header { HasFileHeader bytes.now }
    requires target { IsElfRel64 bytes.now }
    requires first_header { HasFirstHeader bytes.now }
    requires count_is { count ≡ section_count bytes.now }
    requires names_is { names ≡ name_table bytes.now }
    ensures { MatchResult result (λ _. HasTable bytes.now) (TableFault bytes.now) }
{
    let index = half_at(bytes, 62);
    if count == 0 || u64::from(names) >= count || (index >= SHN_LORESERVE && index != SHN_XINDEX) {
        return Err(ElfFault::BadTable { sec: 0 });
    }
    if count > MAX_SECTIONS {
        return Err(ElfFault::TooMany {
            what: Counted::Sections,
            count,
        });
    }
    let need = u128::from(xword_at(bytes, 40)) + 64 * u128::from(count);
    if need > bytes.len() as u128 {
        return Err(short(bytes, need));
    }
    Ok(())
}
