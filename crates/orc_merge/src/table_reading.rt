//! What the bytes of a table hold.

ghost use Rattle.std.specs.Prelude.{◌≡◌, ◌⊎◌, ◌+◌, ◌*◌, ◌≤◌, ℕ, None, Some, IfErr, IfOk, OnOk, length, nat_le, ◌==◌, ◌&&◌};
ghost use Rattle.orc_walk.specs.Rows.{rows_of};
ghost use Rattle.elf_objects.specs.Number.{xword};
ghost use Rattle.orc_merge.specs.TableFaults.{address_of, head_fault, row_offset, wrong_address, wrong_magic, wrong_row};
ghost use Rattle.orc_merge.specs.TableRows.{HasHead, rows_read};
ghost use Rattle.orc_merge.specs.declared.faults.TableFault.TheVariants.{Bad, NoMemory as no_memory};

use crate::ends::comes_before;
use crate::faults::TableFault;
use crate::merged::MOST_ROWS;
use crate::row_bytes::read_row;
use byteorder::{ByteOrder, LittleEndian};
use ot_base::Row;
use ot_base::codes::{KIND_UNDEFINED, REG_UNDEFINED};
use std::alloc::Global;

/// `ORCM`, and the version's number 1 in four bytes.
pub(crate) const MAGIC: [u8; 8] = [0x4f, 0x52, 0x43, 0x4d, 1, 0, 0, 0];

/// The row of zeros.
const ZERO_ROW: Row = Row {
    sp_offset: 0,
    bp_offset: 0,
    sp_reg: REG_UNDEFINED,
    bp_reg: REG_UNDEFINED,
    kind: KIND_UNDEFINED,
    signal: false,
};

/// The first wrong byte of the first eight.
fn wrong_magic(bytes: &[u8]) -> Option<usize>
    ensures { result ≡ wrong_magic bytes.now }
{
    for i in 0..bytes.len().min(8) {
        if bytes[i] != MAGIC[i] {
            return Some(i);
        }
    }
    None
}

/// Whether there may be so many rows, and a table of them has this length.
fn fits_length(count: u64, len: u64) -> bool
    ensures { result ≡ (nat_le count MOST_ROWS && len == row_offset count count) }
{
    count <= MOST_ROWS && len == 16 + 8 * count + 6 * count
}

/// The number of rows, where it gives the length; or what is wrong in front of the addresses.
pub(crate) fn read_count(bytes: &[u8]) -> Result<usize, TableFault>
    ensures head { IfOk result (HasHead bytes.now) }
    ensures fault { IfErr result (λ fault. (head : ℕ) × (head_fault bytes.now ≡ Some head) × (fault ≡ Bad head)) }
{
    if let Some(at) = wrong_magic(bytes) {
        return Err(TableFault::Bad { off: at as u64 });
    }
    if bytes.len() < 16 {
        return Err(TableFault::Bad {
            off: bytes.len() as u64,
        });
    }
    let count = LittleEndian::read_u64(&bytes[8..]);
    if fits_length(count, bytes.len() as u64) {
        Ok(count as usize)
    } else {
        Err(TableFault::Bad { off: 8 })
    }
}

/// An address by its number.
fn address(bytes: &[u8], i: usize) -> u64
    requires { 16 + 8 * i + 8 ≤ length bytes.now }
    ensures { result ≡ address_of bytes.now i }
{
    LittleEndian::read_u64(&bytes[16 + 8 * i..])
}

/// Looks for an address below the one before it.
pub(crate) fn check_addresses(bytes: &[u8], count: usize) -> Result<(), TableFault>
    requires { HasHead bytes.now count }
    ensures ascend { OnOk result (wrong_address bytes.now ≡ None) }
    ensures fault { IfErr result (λ fault. (off : ℕ) × (wrong_address bytes.now ≡ Some off) × (fault ≡ Bad off)) }
{
    let mut before = 0;
    for i in 0..count {
        let address = address(bytes, i);
        if address < before {
            return Err(TableFault::Bad {
                off: 16 + 8 * i as u64,
            });
        }
        before = address;
    }
    Ok(())
}

/// The rows with their addresses, or the first that isn't one or stands behind one that it comes before.
pub(crate) fn read_items(
    alloc: Global,
    bytes: &[u8],
    count: usize,
) -> Result<Vec<(u64, Row)>, TableFault>
    requires { HasHead bytes.now count }
    ensures rows { IfOk result (λ items. rows_of items.items ≡ rows_read bytes.now count) }
    ensures clean { OnOk result (wrong_row bytes.now ≡ None) }
    ensures fault { IfErr result (λ fault. (fault ≡ no_memory)
        ⊎ ((off : ℕ) × (wrong_row bytes.now ≡ Some off) × (fault ≡ Bad off))) }
{
    let mut items = Vec::with_capacity(alloc, count)?;
    let mut before = (0, ZERO_ROW);
    for i in 0..count {
        let at = 16 + 8 * count + 6 * i;
        let Some(row) = read_row(&bytes[at..]) else {
            return Err(TableFault::Bad { off: at as u64 });
        };
        let item = (address(bytes, i), row);
        if comes_before(item, before) {
            return Err(TableFault::Bad { off: at as u64 });
        }
        items.push(item)?;
        before = item;
    }
    Ok(items)
}
