//! Writing an object with the tables of its rows to OUT.

ghost use Rattle.std.specs.Prelude.{◌≤◌, IfErr, IfOk, OnOk};
ghost use Rattle.orc_output.specs.Tables.{CanHaveTables};
ghost use Rattle.objtool_cli.specs.Writing.{IsCrowded, IsTable, StopsAtTable, WritesTable};

use command_base::{CommandStop, Refusal, write_file};
use elf_objects::{Counted, Object};
use orc_output::{TableFault, with_tables};
use ot_base::PlacedRow;
use ot_files::Files;
use std::alloc::Global;

/// The bytes of an object with the tables of these rows, or why there are none.
fn table_of<'a>(
    alloc: Global,
    object: &Object<'_>,
    rows: &[PlacedRow],
) -> Result<Vec<u8>, CommandStop<'a>>
    requires { CanHaveTables object.now rows.now }
    ensures table { IfOk result (λ table. IsTable object.now rows.now table.items) }
    ensures crowded { IfErr result (IsCrowded object.now rows.now) }
{
    match with_tables(alloc, object, rows) {
        Ok(table) => Ok(table),
        Err(TableFault::TooManySymbols { count }) => Err(CommandStop::Refused(Refusal::TooMany {
            what: Counted::Symbols,
            count,
        })),
        Err(TableFault::NoMemory) => Err(CommandStop::NoMemory),
    }
}

/// Writes an object with the tables of these rows to OUT, or tells why a command stops that can't.
pub fn write_table<'a, F: Files>(
    alloc: Global,
    object: &Object<'_>,
    rows: &[PlacedRow],
    output: &'a str,
    files: &mut F,
) -> Result<(), CommandStop<'a>>
    requires { CanHaveTables object.now rows.now }
    ensures written { OnOk result (WritesTable object.now rows.now output.now (F.content files.old) (F.content files.new)) }
    ensures stopped { IfErr result (StopsAtTable object.now rows.now output.now
        (record { content = F.content files.old; faults = F.faults files.old })
        (record { content = F.content files.new; faults = F.faults files.new })) }
    ensures later { F.faults files.old ≤ F.faults files.new }
{
    match table_of(alloc, object, rows) {
        Ok(table) => write_file(output, table.as_slice(), files),
        Err(stop) => Err(stop),
    }
}
