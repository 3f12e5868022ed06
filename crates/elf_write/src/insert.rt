//! The public call.

ghost use Rattle.std.specs.Prelude.{◌≡◌, ◌+◌, ◌*◌, ◌<◌, ◌≤◌, ◌^◌, IfOk, IfErr, IsOkUnless, OnOk, length, slice_range, vec_len};
ghost use Rattle.elf_write.specs.Layout.{laid_out};
ghost use Rattle.elf_objects.specs.Object.{IsObject};
ghost use Rattle.elf_write.specs.SymbolLayout.{extended, headers_place, index_table, joined, locals, numbers_of, plan_of, symbols_inserted};
ghost use Rattle.elf_write.specs.SymbolObject.{CanInsert, extended_object, object_with_symbols};
ghost use Rattle.elf_write.specs.Room.{HasNumbers, Parts};
ghost use Rattle.elf_write.specs.Taken.{AreFree, Refuses};

use crate::changes::make_changes;
use crate::fault::SymFault;
use crate::find::{check_free, index_table};
use crate::plan::Plan;
use crate::tables::{push_numbers, push_symbols};
use crate::{next_multiple, pad, push_bytes};
use elf_objects::Object;
use ot_base::NoMemory;
use std::alloc::Global;

/// The file of an object in which a section symbol stands for each of these sections (ELF-64 gABI, symbol table: no name,
/// STB_LOCAL, STT_SECTION, value and size 0).
///
/// The new symbols stand right behind the last local one, in the order of `secs`, and `sh_info` of the symbol table grows by
/// their number. So do the numbers of the symbols behind them, in the relocations and in `sh_info` of groups, each of which
/// names the same symbol as before. A table of section numbers (SHT_SYMTAB_SHNDX) gets an entry for each new symbol: its
/// section's number where that is 0xFF00 or above, and else 0.
///
/// What stands in the file stays where it is, but for `e_shoff` and these numbers in the relocations. Behind it stand, each at
/// the next multiple of 8 and with zeros in the gaps, the longer symbol table, the longer table of section numbers where there
/// is one, and the section header table. With no section the result is the file as it is.
///
/// The result is a well-formed object, which says what the object said, with these symbols.
///
/// `CanInsert`: `secs` are numbers of sections of the object, from 1, in strictly rising order. Where there are some, the
/// object has a symbol table with at least one symbol; where one of them is 0xFF00 or above, it has a table of section numbers.
/// The symbols are then at most 4,194,304, and the result is shorter than 2^32 bytes.
///
/// # Errors
///
/// [`SymFault::HasOne`] exactly where one of the sections has a section symbol, for the first such, unless memory runs out;
/// [`SymFault::NoMemory`] where memory was wanted and not there.
pub fn with_section_symbols(
    alloc: Global,
    object: &Object<'_>,
    secs: &[u32],
) -> Result<Vec<u8>, SymFault>
    requires { CanInsert object.now secs.now }
    ensures free { IfOk result (λ _. AreFree object.now secs.now) }
    ensures layout { IfOk result (λ file. file.items ≡ symbols_inserted object.now secs.now) }
    ensures object { IfOk result (λ file. IsObject file.items (object_with_symbols object.now secs.now)) }
    ensures err { IfErr result (Refuses object.now secs.now) }
    ensures only { AreFree object.now secs.now → IsOkUnless result SymFault.NoMemory }
{
    check_free(object, secs)?;
    let bytes = object.bytes();
    if secs.is_empty() {
        return Ok(Vec::from_slice(alloc, bytes)?);
    }
    Ok(insert(alloc, object, bytes, secs)?)
}

/// Where the pieces go. The symbol table is the section `table`, that of section numbers the section `numbers`.
fn place(object: &Object<'_>, table: u32, numbers: Option<u32>, secs: &[u32]) -> Plan
    requires parts { Parts object.now secs.now table }
    requires found { numbers ≡ index_table object.now }
    ensures { result ≡ plan_of object.now secs.now }
{
    let symbols = object.section(table);
    let count = secs.len();
    let symbols_at = next_multiple(object.bytes().len());
    let symbols_end = symbols_at + symbols.body.len() + 24 * count;
    let numbers_at = next_multiple(symbols_end);
    let end = match numbers {
        Some(i) => numbers_at + object.section(i).body.len() + 4 * count,
        None => symbols_end,
    };
    Plan {
        locals: symbols.info,
        count: count as u32,
        symbols_at: symbols_at as u64,
        numbers_at: numbers_at as u64,
        headers_at: next_multiple(end) as u64,
    }
}

/// The file of an object, the longer tables and the headers, one behind the other; the headers begin at `headers_at`.
fn join(
    alloc: Global,
    object: &Object<'_>,
    bytes: &[u8],
    headers_at: u64,
    table: u32,
    numbers: Option<u32>,
    secs: &[u32],
) -> Result<Vec<u8>, NoMemory>
    requires file { bytes.now ≡ object.now.bytes }
    requires parts { Parts object.now secs.now table }
    requires found { numbers ≡ index_table object.now }
    requires place { headers_at ≡ headers_place object.now secs.now }
    ensures { IfOk result (λ out. out.items ≡ joined object.now secs.now) }
{
    let symbols = object.section(table);
    let at = symbols.info as usize;
    let count = object.sections() as usize;
    let mut out = Vec::with_capacity(alloc, headers_at as usize + 64 * count)?;
    push_bytes(&mut out, bytes)?;
    pad(&mut out)?;
    push_symbols(&mut out, symbols.body, 24 * at, secs)?;
    push_table_of_numbers(&mut out, object, numbers, at, secs)?;
    pad(&mut out)?;
    push_bytes(
        &mut out,
        headers(bytes, object.headers_at() as usize, count),
    )?;
    Ok(out)
}

/// Adds the longer table of section numbers, where there is one, at the next multiple of 8.
fn push_table_of_numbers(
    out: &mut Vec<u8>,
    object: &Object<'_>,
    numbers: Option<u32>,
    at: usize,
    secs: &[u32],
) -> Result<(), NoMemory>
    requires first { at ≡ locals object.now }
    requires room { HasNumbers object.now secs.now numbers }
    requires short { vec_len out.old < 2 ^ 63 }
    ensures { OnOk result (out.new.items ≡ laid_out out.old.items (numbers_of object.now secs.now numbers)) }
{
    if let Some(i) = numbers {
        pad(out)?;
        push_numbers(out, object.section(i).body, 4 * at, secs)?;
    }
    Ok(())
}

/// The object, which has these bytes, with at least one more symbol.
fn insert(
    alloc: Global,
    object: &Object<'_>,
    bytes: &[u8],
    secs: &[u32],
) -> Result<Vec<u8>, NoMemory>
    requires file { IsObject bytes.now object.now }
    requires some { 0 < length secs.now }
    requires can { CanInsert object.now secs.now }
    ensures layout { IfOk result (λ file. file.items ≡ extended object.now secs.now) }
    ensures object { IsObject (extended object.now secs.now) (extended_object object.now secs.now) }
{
    let Some(table) = object.symbol_table() else {
        unreachable!()
    };
    let numbers = index_table(object);
    let plan = place(object, table, numbers, secs);
    let mut out = join(alloc, object, bytes, plan.headers_at, table, numbers, secs)?;
    make_changes(&mut out, object, &plan);
    Ok(out)
}

/// So many section headers, from an offset of the file on.
fn headers(bytes: &[u8], at: usize, count: usize) -> &[u8]
    requires { at + 64 * count ≤ length bytes.now }
    ensures { result.now ≡ slice_range bytes.now at (at + 64 * count) }
{
    &bytes[at..at + 64 * count]
}
