//! Reads ELF-64 relocatable objects for x86-64: one that is well-formed, or the first fault of any other file; and the
//! numbers of the format by name.
//!
//! The format is that of the ELF-64 gABI with the x86-64 psABI: a file header, the bodies of the
//! sections, and a table of section headers. Everything that an object lends is a slice of its input.
#![tactic(auto)]

mod bodies;
mod check_symbols;
mod earliest;
mod entry;
mod extents;
mod fault;
mod fault_text;
mod forms;
mod header;
mod headers;
mod links;
mod names;
mod number;
mod object;
mod relocs;
mod section;
mod slices;
mod steps;
mod strings;
mod symbol;
mod symbols;

pub use fault::{Counted, ElfFault, NameOf};
pub use object::{Object, Parsed};
pub use section::Section;
pub use symbol::{Home, Reloc, Symbol};

// Section types, `sh_type` (ELF-64 gABI).

/// `sh_type`: the header is that of no section.
pub const SHT_NULL: u32 = 0;
/// `sh_type`: bytes whose meaning the program gives.
pub const SHT_PROGBITS: u32 = 1;
/// `sh_type`: a symbol table.
pub const SHT_SYMTAB: u32 = 2;
/// `sh_type`: a string table.
pub const SHT_STRTAB: u32 = 3;
/// `sh_type`: relocations with addends.
pub const SHT_RELA: u32 = 4;
/// `sh_type`: notes.
pub const SHT_NOTE: u32 = 7;
/// `sh_type`: a section that has no bytes in the file.
pub const SHT_NOBITS: u32 = 8;
/// `sh_type`: relocations without addends.
pub const SHT_REL: u32 = 9;
/// `sh_type`: a group of sections.
pub const SHT_GROUP: u32 = 17;
/// `sh_type`: the section numbers of symbols that do not fit `st_shndx`.
pub const SHT_SYMTAB_SHNDX: u32 = 18;

// Section flags, `sh_flags` (ELF-64 gABI).

/// `sh_flags`: the section can be written at run time.
pub const SHF_WRITE: u64 = 1;
/// `sh_flags`: the section is in memory at run time.
pub const SHF_ALLOC: u64 = 2;
/// `sh_flags`: the section has code.
pub const SHF_EXECINSTR: u64 = 4;
/// `sh_flags`: equal entries may be merged.
pub const SHF_MERGE: u64 = 0x10;
/// `sh_flags`: the entries are texts that end in a zero byte.
pub const SHF_STRINGS: u64 = 0x20;
/// `sh_flags`: `sh_info` is the number of a section.
pub const SHF_INFO_LINK: u64 = 0x40;
/// `sh_flags`: the section belongs to a group.
pub const SHF_GROUP: u64 = 0x200;
/// `sh_flags`: the body is compressed.
pub const SHF_COMPRESSED: u64 = 0x800;

// Special section numbers (ELF-64 gABI).

/// `st_shndx`: the symbol is defined elsewhere. As `sh_link` it means no section.
pub const SHN_UNDEF: u16 = 0;
/// From this number on `st_shndx`, `e_shnum` and `e_shstrndx` are no section's number.
pub const SHN_LORESERVE: u16 = 0xFF00;
/// `st_shndx`: the symbol's value is absolute.
pub const SHN_ABS: u16 = 0xFFF1;
/// `st_shndx`: the symbol is a common block that has no place yet.
pub const SHN_COMMON: u16 = 0xFFF2;
/// The number stands elsewhere: for `st_shndx` in the table of section numbers, for `e_shstrndx` in
/// `sh_link` of header 0.
pub const SHN_XINDEX: u16 = 0xFFFF;

// Symbol binds, the high four bits of `st_info` (ELF-64 gABI).

/// Bind: known in this object alone.
pub const STB_LOCAL: u8 = 0;
/// Bind: known in all objects.
pub const STB_GLOBAL: u8 = 1;
/// Bind: known in all objects, and another definition goes before it.
pub const STB_WEAK: u8 = 2;

// Symbol types, the low four bits of `st_info` (ELF-64 gABI).

/// Symbol type: none is told.
pub const STT_NOTYPE: u8 = 0;
/// Symbol type: data.
pub const STT_OBJECT: u8 = 1;
/// Symbol type: a function, or other code.
pub const STT_FUNC: u8 = 2;
/// Symbol type: it stands for a section.
pub const STT_SECTION: u8 = 3;
/// Symbol type: its name is that of a source file.
pub const STT_FILE: u8 = 4;

// Relocation types (x86-64 psABI). S is the symbol's value, A the addend, P the place that is
// changed; L is the place in the procedure linkage table, or S where there is none.

/// Relocation type: S + A, 8 bytes.
pub const R_X86_64_64: u32 = 1;
/// Relocation type: S + A - P, 4 bytes.
pub const R_X86_64_PC32: u32 = 2;
/// Relocation type: L + A - P, 4 bytes.
pub const R_X86_64_PLT32: u32 = 4;
/// Relocation type: S + A, 4 bytes that are extended by zeros.
pub const R_X86_64_32: u32 = 10;
/// Relocation type: S + A, 4 bytes that are extended by the sign.
pub const R_X86_64_32S: u32 = 11;

// Limits.

/// Most bytes that an object file may have.
pub const MAX_FILE_BYTES: u64 = 67_108_864;
/// Most sections that an object may have, that with the number 0 among them.
pub const MAX_SECTIONS: u64 = 262_144;
/// Most symbols that an object may have, that with the number 0 among them.
pub const MAX_SYMBOLS: u64 = 4_194_304;
/// Most bytes that the text sections of an object may have together.
pub const MAX_TEXT_BYTES: u64 = 16_777_216;
