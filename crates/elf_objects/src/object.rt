//! A well-formed object.

ghost use Rattle.std.specs.Prelude.{◌≡◌, ◌<◌, ◌≤◌, ◌^◌, length, IfOk, IfErr, IsOkUnless};
ghost use Rattle.elf_objects.specs.Object.{IsObject, IsWellFormed, FirstFault, Refuses};

use crate::fault::ElfFault;
use crate::header::SectionHeader;
use crate::headers::Headers;
use crate::relocs::{nth_reloc, rela_header};
use crate::section::Section;
use crate::slices::slice_body;
use crate::steps::{check_contents, check_headers, link_sections, link_symbols};
use crate::strings::{list_ends, tail, text_at, text_begins, text_is, text_of};
use crate::symbol::{Reloc, Symbol};
use crate::symbols::{Symbols, find_home};
use crate::{MAX_SECTIONS, MAX_SYMBOLS};
use ot_base::Names;
use std::alloc::Global;
use std::marker::Model;
use text_numbers::Ends;

/// A well-formed ELF-64 relocatable object for x86-64, read where its bytes lie.
///
/// Names and bodies that it lends are slices of the bytes that it was read from.
#[derive(Drop)]
pub struct Object<'a> {
    symbols: Symbols<'a>,
    symbol_count: u32,
    names: SectionHeader,
    strings: SectionHeader,
    /// Where the names of symbols end.
    ends: Ends<'a>,
    /// For each section the section with its relocations.
    relas: Vec<Option<u32>>,
    /// For each section the first symbol that stands for it.
    section_symbols: Vec<Option<u32>>,
}

impl<'a> Model for Object<'a> {
    ghost use Rattle.elf_objects.specs.Elf.{Elf};
    ghost use Rattle.elf_objects.specs.Contents.{elf_of};
    ghost use Rattle.elf_objects.specs.Kept.{IsKept};

    ghost Value = { Elf };

    ghost view = { λ o. elf_of o.symbols.headers.bytes.now };

    ghost invariant = { λ o. IsKept o.symbols.headers.bytes.now o.symbol_count o.names o.strings o.ends o.relas.items o.section_symbols.items };
}

impl<'a> Object<'a> {
    /// Reads an object, or tells the first fault of bytes that are none.
    ///
    /// # Errors
    ///
    /// The steps are those of `IsWellFormed`, in their order. The fault is that of the first step that
    /// fails, at the lowest index where it goes over sections, symbols or relocations.
    /// [`ElfFault::NoMemory`] may come at any file.
    pub fn parse(alloc: Global, bytes: &'a [u8]) -> Result<Object<'a>, ElfFault>
        requires { length bytes.now < 2 ^ 32 }
        ensures ok { IfOk result (IsObject bytes.now) }
        ensures err { IfErr result (Refuses (FirstFault bytes.now)) }
        ensures only { IsWellFormed bytes.now → IsOkUnless result ElfFault.NoMemory }
    {
        let headers = Headers::find(bytes)?;
        Object::read(alloc, headers)
    }

    /// Reads an object whose section header table was found.
    fn read(alloc: Global, headers: Headers<'a>) -> Result<Object<'a>, ElfFault>
        ensures ok { IfOk result (IsObject headers.entry.bytes.now) }
        ensures err { IfErr result (Refuses (FirstFault headers.entry.bytes.now)) }
    {
        let tables = check_headers(alloc, &headers)?;
        let symbols = Symbols::new(headers, tables);
        let relas = link_sections(alloc, &symbols)?;
        let section_symbols = link_symbols(alloc, &symbols)?;
        check_contents(&symbols)?;
        let strings = symbols.strings();
        let ends = list_ends(alloc, symbols.headers.bytes, &strings)?;
        Ok(Object {
            names: symbols.headers.get(symbols.headers.names),
            strings,
            ends,
            symbol_count: symbols.count as u32,
            symbols,
            relas,
            section_symbols,
        })
    }
}

impl<'a> Object<'a> {
    ghost use Rattle.std.specs.Prelude.{◌↔◌, Some, IsTrue, slice_get};
    ghost use Rattle.elf_objects.specs.Contents.{is_text, relocs_at, section_at, section_symbol_of, symbol_at};
    ghost use Rattle.elf_objects.specs.Lent.{lent_section, lent_symbol, IsSlice};
    ghost use Rattle.elf_objects.specs.Strings.{BeginsWith, up_to_zero};

    /// The whole file.
    pub fn bytes(&self) -> &'a [u8]
        ensures value { result.now ≡ self.now.bytes }
        ensures object { IsObject result.now self.now }
        ensures short { length result.now < 2 ^ 32 }
    {
        self.symbols.headers.bytes
    }

    /// `e_shoff`, in bytes.
    pub fn headers_at(&self) -> u64
        ensures { result ≡ self.now.headers_at }
    {
        self.symbols.headers.at
    }

    /// The index of the table of section names.
    pub fn name_table(&self) -> u32
        ensures value { result ≡ self.now.name_table }
        ensures known { result < length self.now.sections }
    {
        self.symbols.headers.names
    }

    /// How many sections there are, that with the index 0 among them.
    pub fn sections(&self) -> u32
        ensures value { result ≡ length self.now.sections }
        ensures few { result ≤ MAX_SECTIONS }
        ensures object { IsObject self.now.bytes self.now }
    {
        self.symbols.headers.count
    }

    /// The section with an index. It takes the same time for each section, since it reads no name.
    pub fn section(&self, i: u32) -> Section<'a>
        requires { i < length self.now.sections }
        ensures value { lent_section (section_at self.now i).name result ≡ section_at self.now i }
        ensures slice { IsSlice self.now.bytes (section_at self.now i) }
        ensures short { length result.body.now < 2 ^ 32 }
    {
        let headers = &self.symbols.headers;
        let h = headers.get(i);
        Section {
            kind: h.kind,
            flags: h.flags,
            addr: h.addr,
            offset: h.offset,
            size: h.size,
            link: h.link,
            info: h.info,
            align: h.align,
            entsize: h.entsize,
            body: slice_body(headers.bytes, &h),
        }
    }

    /// The size of a section in bytes, `sh_size`.
    pub fn section_size(&self, i: u32) -> u64
        requires { i < length self.now.sections }
        ensures { result ≡ (section_at self.now i).size }
    {
        self.symbols.headers.size(i)
    }

    /// The table of section names from where the name of a section begins.
    fn section_name_on(&self, i: u32) -> &'a [u8]
        requires { i < length self.now.sections }
        ensures { up_to_zero result.now ≡ (section_at self.now i).name }
    {
        let headers = &self.symbols.headers;
        let h = headers.get(i);
        let names = slice_body(headers.bytes, &self.names);
        tail(names, h.name as usize)
    }

    /// The name of a section, without its zero byte. It takes the time of the name's length.
    pub fn name_of_section(&self, i: u32) -> &'a [u8]
        requires { i < length self.now.sections }
        ensures { result.now ≡ (section_at self.now i).name }
    {
        text_of(self.section_name_on(i))
    }

    /// Whether the name of a section is this one. It reads one byte more than this name has at most.
    pub fn section_is_named(&self, i: u32, name: &[u8]) -> bool
        requires { i < length self.now.sections }
        ensures { IsTrue result ↔ (section_at self.now i).name ≡ name.now }
    {
        text_is(self.section_name_on(i), name)
    }

    /// Whether the name of a section begins with these bytes. It reads so many bytes at most.
    pub fn section_name_begins(&self, i: u32, prefix: &[u8]) -> bool
        requires { i < length self.now.sections }
        ensures { IsTrue result ↔ BeginsWith (section_at self.now i).name prefix.now }
    {
        text_begins(self.section_name_on(i), prefix)
    }

    /// Whether a section has code: `SHT_PROGBITS` with `SHF_EXECINSTR`.
    pub fn is_text(&self, sec: u32) -> bool
        requires { sec < length self.now.sections }
        ensures { result ≡ is_text (section_at self.now sec) }
    {
        self.symbols.headers.is_text(sec)
    }

    /// The index of the symbol table, where there is one.
    pub fn symbol_table(&self) -> Option<u32>
        ensures { result ≡ self.now.symbol_table }
    {
        self.symbols.table
    }

    /// How many symbols there are, the null symbol with the index 0 among them.
    pub fn symbols(&self) -> u32
        ensures value { result ≡ length self.now.symbols }
        ensures few { result ≤ MAX_SYMBOLS }
        ensures object { IsObject self.now.bytes self.now }
    {
        self.symbol_count
    }

    /// The symbol with an index. It takes the same time for each symbol, since it reads no name.
    pub fn symbol(&self, k: u32) -> Symbol
        requires { k < length self.now.symbols }
        ensures { lent_symbol (symbol_at self.now k).name result ≡ symbol_at self.now k }
    {
        let raw = self.symbols.raw(k);
        let Some(home) = find_home(&self.symbols, k) else {
            unreachable!()
        };
        Symbol {
            bind: raw.info / 16,
            kind: raw.info % 16,
            other: raw.other,
            home,
            value: raw.value,
            size: raw.size,
        }
    }

    /// The symbols' string table from where the name of a symbol begins.
    fn symbol_name_on(&self, k: u32) -> &'a [u8]
        requires { k < length self.now.symbols }
        ensures { up_to_zero result.now ≡ (symbol_at self.now k).name }
    {
        let raw = self.symbols.raw(k);
        let strings = slice_body(self.symbols.headers.bytes, &self.strings);
        tail(strings, raw.name as usize)
    }

    /// The name of a symbol, without its zero byte. It reads 64 bytes of it at most.
    pub fn name_of_symbol(&self, k: u32) -> &'a [u8]
        requires { k < length self.now.symbols }
        ensures { result.now ≡ (symbol_at self.now k).name }
    {
        text_at(&self.ends, self.symbols.raw(k).name as usize)
    }

    /// Whether the name of a symbol is this one. It reads one byte more than this name has at most.
    pub fn symbol_is_named(&self, k: u32, name: &[u8]) -> bool
        requires { k < length self.now.symbols }
        ensures { IsTrue result ↔ (symbol_at self.now k).name ≡ name.now }
    {
        text_is(self.symbol_name_on(k), name)
    }

    /// Whether the name of a symbol begins with these bytes. It reads so many bytes at most.
    pub fn symbol_name_begins(&self, k: u32, prefix: &[u8]) -> bool
        requires { k < length self.now.symbols }
        ensures { IsTrue result ↔ BeginsWith (symbol_at self.now k).name prefix.now }
    {
        text_begins(self.symbol_name_on(k), prefix)
    }

    /// The first symbol that stands for a section: its type is `STT_SECTION`, its home is the section, and
    /// its value is 0.
    pub fn section_symbol(&self, sec: u32) -> Option<u32>
        requires { sec < length self.now.sections }
        ensures { result ≡ section_symbol_of self.now sec }
    {
        self.section_symbols[sec as usize]
    }

    /// How many relocations a section has: the entries of the section of relocations whose `sh_info` it is.
    pub fn relocs(&self, sec: u32) -> u32
        requires { sec < length self.now.sections }
        ensures { result ≡ length (relocs_at self.now sec) }
    {
        let rela = rela_header(&self.symbols.headers, &self.relas, sec);
        (rela.size / 24) as u32
    }

    /// A relocation of a section, in the order of the file.
    pub fn reloc(&self, sec: u32, i: u32) -> Reloc
        requires known { sec < length self.now.sections }
        requires inside { i < length (relocs_at self.now sec) }
        ensures { slice_get (relocs_at self.now sec) i ≡ Some result }
    {
        let rela = rela_header(&self.symbols.headers, &self.relas, sec);
        nth_reloc(self.symbols.headers.bytes, &rela, i)
    }
}

/// A file that was read.
pub type Parsed<'a> = Object<'a>;

impl<'a> Names for Object<'a> {
    ghost use Rattle.elf_objects.specs.Contents.{section_at, symbol_at};

    ghost section_names = { λ o i. (section_at o i).name };

    ghost symbol_names = { λ o k. (symbol_at o k).name };

    fn section_name(&self, sec: u32) -> &[u8] {
        if sec < self.sections() {
            self.name_of_section(sec)
        } else {
            &[]
        }
    }

    fn symbol_name(&self, sym: u32) -> &[u8] {
        if sym < self.symbols() {
            self.name_of_symbol(sym)
        } else {
            &[]
        }
    }
}
