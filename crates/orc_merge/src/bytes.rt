//! The bytes of a table of merged rows, written and read.

ghost use Rattle.std.specs.Prelude.{◌≡◌, ◌++◌, ℕ, List, IfErr, IfOk, IsOkUnless, OnOk, length};
ghost use Rattle.table_defs.specs.Lookup.{AddressedRow};
ghost use Rattle.orc_walk.specs.Rows.{rows_of};
ghost use Rattle.orc_merge.specs.Merged.{IsMergedTable};
ghost use Rattle.orc_merge.specs.TableBytes.{address_bytes, row_section, table_bytes};
ghost use Rattle.orc_merge.specs.TableFaults.{IsTableFault};

use crate::faults::TableFault;
use crate::merged::Merged;
use crate::row_bytes::row_bytes;
use crate::table_reading::{MAGIC, check_addresses, read_count, read_items};
use ot_base::{NoMemory, Tape};
use std::alloc::Global;

/// Appends the addresses of a tape's rows.
fn add_addresses(tape: &mut Tape, bytes: &mut Vec<u8>) -> Result<(), NoMemory>
    ensures bytes { OnOk result (bytes.new.items ≡ bytes.old.items ++ address_bytes (rows_of tape.old.items)) }
    ensures only_reads { tape.new.items ≡ tape.old.items }
{
    for i in 0..tape.len() {
        let (address, _row) = tape.read(i);
        bytes.extend_from_slice(&address.to_le_bytes())?;
    }
    Ok(())
}

/// Appends a tape's rows.
fn add_rows(tape: &mut Tape, bytes: &mut Vec<u8>) -> Result<(), NoMemory>
    requires { IsMergedTable (rows_of tape.old.items) }
    ensures bytes { OnOk result (bytes.new.items ≡ bytes.old.items ++ row_section (rows_of tape.old.items)) }
    ensures only_reads { tape.new.items ≡ tape.old.items }
{
    for i in 0..tape.len() {
        let (_address, row) = tape.read(i);
        bytes.extend_from_slice(&row_bytes(&row))?;
    }
    Ok(())
}

impl Merged {
    /// The bytes of the table: eight by which it is known, the number of rows, their addresses, and the rows, six bytes each.
    /// Numbers stand in eight bytes, low byte first.
    pub fn to_bytes(&mut self, alloc: Global) -> Result<Vec<u8>, NoMemory>
        ensures bytes { IfOk result (λ bytes. bytes.items ≡ table_bytes self.old.rows) }
        ensures only_reads { self.new ≡ record self.old { reads = self.new.reads } }
    {
        let count = self.tape.len();
        let mut bytes = Vec::with_capacity(alloc, 16 + 14 * count as usize)?;
        bytes.extend_from_slice(&MAGIC)?;
        bytes.extend_from_slice(&u64::from(count).to_le_bytes())?;
        add_addresses(&mut self.tape, &mut bytes)?;
        add_rows(&mut self.tape, &mut bytes)?;
        Ok(bytes)
    }

    /// The table of these bytes, or where they are none.
    pub fn parse(alloc: Global, bytes: &[u8]) -> Result<Merged, TableFault>
        ensures rows { IfOk result (λ merged. table_bytes merged.rows ≡ bytes.now) }
        ensures unread { IfOk result (λ merged. merged.reads ≡ 0) }
        ensures fault { IfErr result (IsTableFault bytes.now) }

        // The bytes of a table are read as this table.
        ensures accepts { (rows : List AddressedRow) → IsMergedTable rows → bytes.now ≡ table_bytes rows
            → IsOkUnless result TableFault.NoMemory }
        ensures again { (rows : List AddressedRow) → IsMergedTable rows → bytes.now ≡ table_bytes rows
            → IfOk result (λ merged. merged.rows ≡ rows) }
    {
        let count = read_count(bytes)?;
        check_addresses(bytes, count)?;
        let items = read_items(alloc, bytes, count)?;
        Ok(Merged {
            tape: Tape::build(items),
        })
    }
}
