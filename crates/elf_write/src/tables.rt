//! The longer tables.

ghost use Rattle.std.specs.Prelude.{◌≡◌, ◌≤◌, ◌++◌, OnOk, length};
ghost use Rattle.std.specs.List.{flat_map};
ghost use Rattle.elf_write.specs.SymbolLayout.{inserted, number_bytes, short_number, long_number, symbol_bytes};

use crate::{push_bytes, push_u16, push_u32, push_u64};
use elf_objects::{SHN_LORESERVE, SHN_XINDEX, STT_SECTION};
use ot_base::NoMemory;

/// From this section number on `st_shndx` does not tell it.
const MANY: u32 = SHN_LORESERVE as u32;

/// `st_shndx` of a symbol of the section.
fn short_number(sec: u32) -> u16
    ensures { result ≡ short_number sec }
{
    if sec < MANY { sec as u16 } else { SHN_XINDEX }
}

/// Its entry in the table of section numbers.
fn long_number(sec: u32) -> u32
    ensures { result ≡ long_number sec }
{
    if sec < MANY { 0 } else { sec }
}

/// Adds the 24 bytes of the symbol that stands for the section.
fn push_symbol(out: &mut Vec<u8>, sec: u32) -> Result<(), NoMemory>
    ensures { OnOk result (out.new.items ≡ out.old.items ++ symbol_bytes sec) }
{
    push_u32(out, 0)?;
    push_bytes(out, &[STT_SECTION, 0])?;
    push_u16(out, short_number(sec))?;
    push_u64(out, 0)?;
    push_u64(out, 0)
}

/// Adds those of all of them.
fn push_new_symbols(out: &mut Vec<u8>, secs: &[u32]) -> Result<(), NoMemory>
    ensures { OnOk result (out.new.items ≡ out.old.items ++ flat_map symbol_bytes secs.now) }
{
    for sec in secs {
        push_symbol(out, *sec)?;
    }
    Ok(())
}

/// Adds their entries in the table of section numbers.
fn push_new_numbers(out: &mut Vec<u8>, secs: &[u32]) -> Result<(), NoMemory>
    ensures { OnOk result (out.new.items ≡ out.old.items ++ flat_map number_bytes secs.now) }
{
    for sec in secs {
        push_u32(out, long_number(*sec))?;
    }
    Ok(())
}

/// Adds the symbol table's body, with the new symbols in front of what stands from `at` on.
pub(crate) fn push_symbols(
    out: &mut Vec<u8>,
    body: &[u8],
    at: usize,
    secs: &[u32],
) -> Result<(), NoMemory>
    requires { at ≤ length body.now }
    ensures { OnOk result (out.new.items ≡ out.old.items ++ inserted at (flat_map symbol_bytes secs.now) body.now) }
{
    push_bytes(out, &body[..at])?;
    push_new_symbols(out, secs)?;
    push_bytes(out, &body[at..])
}

/// Adds the body of the table of section numbers, with the new entries in front of what stands from `at` on.
pub(crate) fn push_numbers(
    out: &mut Vec<u8>,
    body: &[u8],
    at: usize,
    secs: &[u32],
) -> Result<(), NoMemory>
    requires { at ≤ length body.now }
    ensures { OnOk result (out.new.items ≡ out.old.items ++ inserted at (flat_map number_bytes secs.now) body.now) }
{
    push_bytes(out, &body[..at])?;
    push_new_numbers(out, secs)?;
    push_bytes(out, &body[at..])
}
