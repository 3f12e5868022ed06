//! The public call.

ghost use Rattle.std.specs.Prelude.{◌≡◌, ◌≤◌, IfOk, IfErr, OnOk};
ghost use Rattle.elf_objects.specs.declared.TheConstants.{MAX_SYMBOLS as most_symbols};
ghost use Rattle.orc_output.specs.Needed.{needed_symbols as needed_by};
ghost use Rattle.orc_output.specs.Tables.{CanHaveTables, HasTables, IsFit, IsTableFault, symbols_needed};

use crate::fault::TableFault;
use crate::symbols::{are_bytes, insert_symbols, needed_symbols, read_object};
use crate::with_orc;
use elf_objects::{MAX_SYMBOLS, Object};
use ot_base::{NoMemory, PlacedRow};
use std::alloc::Global;

/// The file of an object with the ORC sections of these rows behind its own sections (Linux 6.6, `orc-unwinder.rst`).
///
/// A row names its place by the section symbol of its section. For each section that has rows and no section symbol one is
/// inserted, behind the last local symbol; no other section gets one. Then every relocation and group names the same symbol as
/// before. Where none is needed, the object's own file gets the sections.
///
/// `CanHaveTables`: each row lies in a text section in which some symbol is defined, at an offset up to the section's size; six
/// bytes hold it. The object has at most 64 MiB and 262,141 sections, and none of the ORC sections yet; and there are at most
/// 67,108,865 rows.
///
/// # Errors
///
/// [`TableFault::TooManySymbols`] exactly where the object would then have more than 4,194,304 symbols, with their number;
/// [`TableFault::NoMemory`] may come at any object.
pub fn with_tables(
    alloc: Global,
    object: &Object<'_>,
    rows: &[PlacedRow],
) -> Result<Vec<u8>, TableFault>
    requires { CanHaveTables object.now rows.now }
    ensures tables { IfOk result (λ file. HasTables object.now rows.now file.items) }
    ensures few { OnOk result (symbols_needed object.now rows.now ≤ most_symbols) }
    ensures err { IfErr result (IsTableFault object.now rows.now) }
{
    let secs = needed_symbols(alloc, object, rows)?;
    let count = u64::from(object.symbols()) + secs.len() as u64;
    if count > MAX_SYMBOLS {
        return Err(TableFault::TooManySymbols { count });
    }
    are_bytes(object.bytes());
    Ok(write_tables(alloc, object, &secs, rows)?)
}

/// The same, where these sections need a symbol.
fn write_tables(
    alloc: Global,
    object: &Object<'_>,
    secs: &[u32],
    rows: &[PlacedRow],
) -> Result<Vec<u8>, NoMemory>
    requires fit { IsFit object.now rows.now }
    requires needed { secs.now ≡ needed_by object.now rows.now }
    ensures { IfOk result (λ file. HasTables object.now rows.now file.items) }
{
    if secs.is_empty() {
        return with_orc(alloc, object, rows);
    }
    let file = insert_symbols(alloc, object, secs)?;
    let named = read_object(alloc, &file)?;
    with_orc(alloc, &named, rows)
}
