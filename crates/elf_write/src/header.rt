// Section headers.

ghost use Rattle.std.specs.Prelude.{◌≡◌, ◌++◌, OnOk};
ghost use Rattle.elf_write.specs.Layout.{header_bytes};
ghost use Rattle.elf_write.specs.New.{header_fields};

use crate::bytes::{push_u32, push_u64};
use ot_base::NoMemory;

/// The fields of a section header (ELF-64 gABI, Elf64_Shdr).
#[derive(Clone, Copy)]
pub struct Header {
    /// sh_name, an offset in the name table.
    pub name: u32,
    /// sh_type.
    pub kind: u32,
    /// sh_flags.
    pub flags: u64,
    /// sh_addr.
    pub addr: u64,
    /// sh_offset, in bytes from the file's beginning.
    pub offset: u64,
    /// sh_size, in bytes.
    pub size: u64,
    /// sh_link.
    pub link: u32,
    /// sh_info.
    pub info: u32,
    /// sh_addralign, in bytes.
    pub align: u64,
    /// sh_entsize, in bytes.
    pub entsize: u64,
}

/// Adds the 64 bytes of the header.
pub fn push_header(out: &mut Vec<u8>, header: &Header) -> Result<(), NoMemory>
    ensures { OnOk result (out.new.items ≡ out.old.items ++ header_bytes (header_fields header.now)) }
{
    push_u32(out, header.name)?;
    push_u32(out, header.kind)?;
    push_u64(out, header.flags)?;
    push_u64(out, header.addr)?;
    push_u64(out, header.offset)?;
    push_u64(out, header.size)?;
    push_u32(out, header.link)?;
    push_u32(out, header.info)?;
    push_u64(out, header.align)?;
    push_u64(out, header.entsize)
}
