//! The entries of tables.

ghost use Rattle.std.specs.Prelude.{◌≡◌, length, IfOk};
ghost use Rattle.elf_objects.specs.Contents.{relocs_at};
ghost use Rattle.flow_defs.specs.Tables.{entries_for as entries_of_table_for, table_entry_at as entry_of_table};
ghost use Rattle.jump_tables.specs.Kept.{entry_for, kept_for, AreByPlace, AreStarts, AreTables, IsTableFrom};

use crate::code::Code;
use crate::entry::table_entry_at;
use crate::owner::{is_same_owner, owner_at};
use ot_base::{NoMemory, Place};
use std::alloc::Global;
use symbols_relocs::Index;

/// What is kept of a table: its entries for the owner of its first one. For any other owner it has none.
#[derive(Drop)]
pub(crate) struct Table {
    /// The owner of the first entry, by its symbol.
    pub owner: Option<u32>,
    /// The entries up to the first of another owner.
    pub entries: Vec<Place>,
}

impl Table {
    /// The entries for an owner.
    pub(crate) fn entries_for(&self, owner: Option<u32>) -> &[Place]
        ensures { result.now ≡ kept_for self.now owner }
    {
        if is_same_owner(self.owner, owner) {
            &self.entries
        } else {
            &[]
        }
    }
}

/// How many relocations a section has.
fn count_relocs(index: &Index<'_, '_>, sec: u32) -> u32
    ensures { result ≡ length (relocs_at index.now.elf sec) }
{
    let object = index.object();
    if sec < object.sections() {
        object.relocs(sec)
    } else {
        0
    }
}

/// Entry `i` of a table, where its owner is the one that is asked for.
fn entry_of(
    code: &Code<'_, '_, '_, '_>,
    starts: &[Place],
    table: Place,
    owner: Option<u32>,
    i: u32,
) -> Option<Place>
    requires sorted { AreByPlace starts.now }
    requires all { AreStarts code.now.index.now.elf code.now.texts.now code.now.sites.now.entries starts.now }
    ensures { result ≡ entry_for code.now.index.now.elf owner (entry_of_table code.now.index.now.elf code.now.texts.now code.now.sites.now.entries table i) }
{
    let entry = table_entry_at(code, starts, table, i)?;
    if is_same_owner(owner_at(code.index, entry), owner) {
        Some(entry)
    } else {
        None
    }
}

/// The entries for an owner of the table that begins at a place.
fn list_entries(
    alloc: Global,
    code: &Code<'_, '_, '_, '_>,
    starts: &[Place],
    table: Place,
    owner: Option<u32>,
) -> Result<Vec<Place>, NoMemory>
    requires sorted { AreByPlace starts.now }
    requires all { AreStarts code.now.index.now.elf code.now.texts.now code.now.sites.now.entries starts.now }
    ensures { IfOk result (λ list. list.items ≡ entries_of_table_for code.now.index.now.elf code.now.texts.now code.now.sites.now.entries table owner) }
{
    let mut list = Vec::new(alloc);
    for i in 0..count_relocs(code.index, table.sec) {
        let Some(entry) = entry_of(code, starts, table, owner, i) else {
            return Ok(list);
        };
        list.push(entry)?;
    }
    Ok(list)
}

/// What is kept of the table that begins at a place.
fn read_table(
    alloc: Global,
    code: &Code<'_, '_, '_, '_>,
    starts: &[Place],
    start: Place,
) -> Result<Table, NoMemory>
    requires sorted { AreByPlace starts.now }
    requires all { AreStarts code.now.index.now.elf code.now.texts.now code.now.sites.now.entries starts.now }
    ensures { IfOk result (IsTableFrom code.now.index.now.elf code.now.texts.now code.now.sites.now.entries start) }
{
    let Some(first) = table_entry_at(code, starts, start, 0) else {
        return Ok(Table {
            owner: None,
            entries: Vec::new(alloc),
        });
    };
    let owner = owner_at(code.index, first);
    let entries = list_entries(alloc, code, starts, start, owner)?;
    Ok(Table { owner, entries })
}

/// What is kept of each of the tables that begin at these places.
pub(crate) fn list_tables(
    alloc: Global,
    code: &Code<'_, '_, '_, '_>,
    starts: &[Place],
) -> Result<Vec<Table>, NoMemory>
    requires sorted { AreByPlace starts.now }
    requires all { AreStarts code.now.index.now.elf code.now.texts.now code.now.sites.now.entries starts.now }
    ensures { IfOk result (λ tables. AreTables code.now.index.now.elf code.now.texts.now code.now.sites.now.entries starts.now tables.items) }
{
    let mut tables = Vec::with_capacity(alloc, starts.len())?;
    for start in starts {
        tables.push(read_table(alloc, code, starts, *start)?)?;
    }
    Ok(tables)
}
