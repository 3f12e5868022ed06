//! The symbol table.

ghost use Rattle.std.specs.Prelude.{◌≡◌, ◌<◌, ◌≤◌, ◌+◌, ◌*◌, ◌/◌, length, IsTrue, IfSome, IfNone};
ghost use Rattle.std.specs.Option.{ForSome};
ghost use Rattle.elf_objects.specs.Below.{AllBelow};
ghost use Rattle.elf_objects.specs.Header.{has_body};
ghost use Rattle.elf_objects.specs.Sections.{HasBody, HasLinks};
ghost use Rattle.elf_objects.specs.File.{section_count, section_header};
ghost use Rattle.elf_objects.specs.Found.{AreTables};
ghost use Rattle.elf_objects.specs.Table.{symbol_table, index_table, symbol_header, index_header as index_header_of, header_of, symbol_count, symbol_home, string_header, section_home, index_entry as index_entry_of};
ghost use Rattle.elf_objects.specs.Symbols.{HasHome};

use crate::entry::read_symbol;
use crate::forms::Tables;
use crate::header::SectionHeader;
use crate::headers::Headers;
use crate::number::word_at;
use crate::symbol::{Home, RawSymbol};
use crate::{SHN_ABS, SHN_COMMON, SHN_LORESERVE, SHN_UNDEF, SHN_XINDEX};

/// The sections of a file with its symbol table, where there is one.
#[derive(Clone, Copy)]
pub(crate) struct Symbols<'a> {
    pub(crate) headers: Headers<'a>,
    /// The index of the symbol table.
    pub(crate) table: Option<u32>,
    /// The index of the table of section numbers that do not fit `st_shndx`.
    pub(crate) indices: Option<u32>,
    /// The header of the symbol table, or zeros.
    pub(crate) header: SectionHeader,
    /// The header of the table of section numbers, or zeros.
    pub(crate) index_header: SectionHeader,
    /// How many symbols there are.
    pub(crate) count: u64,
    ghost table_is: { table ≡ symbol_table headers.bytes.now },
    ghost indices_is: { indices ≡ index_table headers.bytes.now },
    ghost header_is: { header ≡ symbol_header headers.bytes.now },
    ghost index_header_is: { index_header ≡ index_header_of headers.bytes.now },
    ghost count_is: { count ≡ symbol_count headers.bytes.now },
    ghost inside: { header.offset + 24 * count ≤ length headers.bytes.now },
    ghost indices_inside: { index_header.offset + index_header.size ≤ length headers.bytes.now },
}

/// The header of a table that may be missing.
#[inline(always)]
#[tactic(auto, unfolding(crate::specs::Table::header_of))]
pub(crate) fn header_or_null(headers: &Headers, index: Option<u32>) -> SectionHeader
    requires known { ForSome index (λ i. i < section_count headers.now.bytes.now) }
    requires body { ForSome index (λ i. IsTrue (has_body (section_header headers.now.bytes.now i))) }
    requires bodies { AllBelow (HasBody headers.now.bytes.now) (section_count headers.now.bytes.now) }
    ensures value { result ≡ header_of headers.now.bytes.now index }
    ensures inside { result.offset + result.size ≤ length headers.now.bytes.now }
{
    match index {
        Some(i) => headers.get(i),
        None => SectionHeader::null(),
    }
}

impl<'a> Symbols<'a> {
    /// Reads the headers of the tables that were found.
    #[tactic(auto, unfolding(crate::specs::Table::symbol_count))]
    pub(crate) fn new(headers: Headers<'a>, tables: Tables) -> Symbols<'a>
        requires found { AreTables headers.bytes.now (section_count headers.bytes.now) tables }
        requires bodies { AllBelow (HasBody headers.bytes.now) (section_count headers.bytes.now) }
        ensures { result.headers.bytes.now ≡ headers.entry.bytes.now }
    {
        let header = header_or_null(&headers, tables.symbols);
        Symbols {
            headers,
            table: tables.symbols,
            indices: tables.indices,
            header,
            index_header: header_or_null(&headers, tables.indices),
            count: header.size / 24,
        }
    }
}

impl<'a> Symbols<'a> {
    ghost use Rattle.elf_objects.specs.Table.{raw_symbol};

    /// The fields of a symbol.
    #[tactic(auto, unfolding(crate::specs::Table::raw_symbol))]
    pub(crate) fn raw(&self, k: u32) -> RawSymbol
        requires { k < symbol_count self.now.headers.bytes.now }
        ensures { result ≡ raw_symbol self.now.headers.bytes.now k }
    {
        read_symbol(
            self.headers.bytes,
            self.header.offset as usize + 24 * k as usize,
        )
    }

    /// The entry of a symbol in the table of section numbers.
    #[tactic(auto, unfolding(crate::specs::Table::index_entry))]
    pub(crate) fn index_entry(&self, k: u32) -> u32
        requires { k < self.now.index_header.size / 4 }
        ensures { result ≡ index_entry_of self.now.headers.bytes.now k }
    {
        word_at(
            self.headers.bytes,
            self.index_header.offset as usize + 4 * k as usize,
        )
    }

    /// The header of the symbols' string table.
    pub(crate) fn strings(&self) -> SectionHeader
        requires { AllBelow (HasLinks self.now.headers.bytes.now) (section_count self.now.headers.bytes.now) }
        ensures { result ≡ string_header self.now.headers.bytes.now }
    {
        self.headers.get(self.header.link)
    }
}

/// The section with a number, where 0 is none.
fn home_in(i: u32) -> Home
    ensures { result ≡ section_home i }
{
    if i == u32::from(SHN_UNDEF) {
        Home::Undefined
    } else {
        Home::Section(i)
    }
}

/// Where a symbol is defined.
#[inline(always)]
#[tactic(auto, unfolding(crate::specs::Table::symbol_home))]
pub(crate) fn find_home(symbols: &Symbols, k: u32) -> Option<Home>
    requires known { k < symbol_count symbols.now.headers.bytes.now }
    requires links { AllBelow (HasLinks symbols.now.headers.bytes.now) (section_count symbols.now.headers.bytes.now) }
    ensures some { IfSome result (λ home. HasHome symbols.now.headers.bytes.now k × (home ≡ symbol_home symbols.now.headers.bytes.now k)) }
    ensures none { IfNone result (¬ HasHome symbols.now.headers.bytes.now k) }
{
    let count = symbols.headers.count;
    match symbols.raw(k).shndx {
        SHN_ABS => Some(Home::Absolute),
        SHN_COMMON => Some(Home::Common),
        SHN_XINDEX => {
            symbols.indices?;
            let entry = symbols.index_entry(k);
            if entry < count {
                Some(home_in(entry))
            } else {
                None
            }
        }
        i if i < SHN_LORESERVE && u32::from(i) < count => Some(home_in(u32::from(i))),
        _ => None,
    }
}
