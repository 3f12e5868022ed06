//! Symbols and relocations as they are lent.

/// Where a symbol is defined, `st_shndx`.
#[derive(Clone, Copy, PartialEq, Eq)]
pub enum Home {
    /// `SHN_UNDEF`.
    Undefined,
    /// The section with this index.
    Section(u32),
    /// `SHN_ABS`.
    Absolute,
    /// `SHN_COMMON`.
    Common,
}

/// A symbol, `Elf64_Sym`. Its name is read by [`name_of_symbol`](crate::Object::name_of_symbol) and
/// its kin alone.
#[derive(Clone, Copy, PartialEq, Eq)]
pub struct Symbol {
    /// The high four bits of `st_info`.
    pub bind: u8,
    /// The low four bits of `st_info`.
    pub kind: u8,
    /// `st_other`.
    pub other: u8,
    /// Where it is defined.
    pub home: Home,
    /// `st_value`: in a relocatable object an offset in its home.
    pub value: u64,
    /// `st_size`, in bytes.
    pub size: u64,
}

/// A relocation, `Elf64_Rela`.
#[derive(Clone, Copy, PartialEq, Eq)]
pub struct Reloc {
    /// `r_offset`, in bytes from the beginning of the section that it changes.
    pub offset: u64,
    /// The low 32 bits of `r_info`.
    pub kind: u32,
    /// The high 32 bits of `r_info`: the index of a symbol.
    pub sym: u32,
    /// `r_addend`.
    pub addend: i64,
}

/// The fields of a symbol, as they stand in the file.
#[derive(Clone, Copy)]
pub struct RawSymbol {
    pub name: u32,
    pub info: u8,
    pub other: u8,
    pub shndx: u16,
    pub value: u64,
    pub size: u64,
}
