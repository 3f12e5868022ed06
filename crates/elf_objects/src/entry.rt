//! Reading one symbol, and one relocation.

ghost use Rattle.std.specs.Prelude.{◌≡◌, ◌+◌, ◌≤◌, length};
ghost use Rattle.elf_objects.specs.Table.{raw_symbol_at, reloc_at};

use crate::number::{half_at, word_at, xword_at};
use crate::symbol::{RawSymbol, Reloc};

/// The symbol whose 24 bytes begin at an offset.
#[tactic(auto, unfolding(crate::specs::Table::raw_symbol_at))]
pub(crate) fn read_symbol(bytes: &[u8], at: usize) -> RawSymbol
    requires { at + 24 ≤ length bytes.now }
    ensures { result ≡ raw_symbol_at bytes.now at }
{
    RawSymbol {
        name: word_at(bytes, at),
        info: bytes[at + 4],
        other: bytes[at + 5],
        shndx: half_at(bytes, at + 6),
        value: xword_at(bytes, at + 8),
        size: xword_at(bytes, at + 16),
    }
}

/// The relocation whose 24 bytes begin at an offset.
#[tactic(auto, unfolding(crate::specs::Table::reloc_at))]
pub(crate) fn read_reloc(bytes: &[u8], at: usize) -> Reloc
    requires { at + 24 ≤ length bytes.now }
    ensures { result ≡ reloc_at bytes.now at }
{
    let info = xword_at(bytes, at + 8);
    Reloc {
        offset: xword_at(bytes, at),
        kind: (info & 0xFFFF_FFFF) as u32,
        sym: (info >> 32) as u32,
        addend: xword_at(bytes, at + 16).cast_signed(),
    }
}
