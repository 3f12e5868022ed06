//! The bytes of a relocation (ELF-64 gABI, `Elf64_Rela`).

ghost use Rattle.std.specs.Prelude.{◌≡◌};
ghost use Rattle.orc_bytes.specs.RelocBytes.{bytes_of_reloc, IsReloc};

use byteorder::{ByteOrder, LittleEndian};
use elf_objects::Reloc;

/// The 24 bytes of a relocation.
pub(crate) fn reloc_bytes(reloc: &Reloc) -> [u8; 24]
    requires { IsReloc reloc.now }
    ensures { result ≡ bytes_of_reloc reloc.now }
{
    let mut bytes = [0; 24];
    LittleEndian::write_u64(&mut bytes, reloc.offset);
    LittleEndian::write_u64(
        &mut bytes[8..],
        u64::from(reloc.kind) + (u64::from(reloc.sym) << 32),
    );
    LittleEndian::write_i64(&mut bytes[16..], reloc.addend);
    bytes
}
