//! The bytes of a row (Linux 6.6, `orc_types.h`, `struct orc_entry`).

ghost use Rattle.std.specs.Prelude.{◌≡◌, ◌≤◌, true, false, IfNone, IfSome, length, take};
ghost use Rattle.orc_bytes.specs.Faults.{HasRow, row_in};
ghost use Rattle.orc_bytes.specs.RowBytes.{packed_fields, bytes_of_row, IsRow};
ghost use Rattle.orc_merge.specs.TableFaults.{holds_row};

use byteorder::{ByteOrder, LittleEndian};
use ot_base::Row;
use ot_base::codes::{KIND_REGS_PARTIAL, REG_SP_INDIRECT};

/// The six bytes of a row.
pub(crate) fn row_bytes(row: &Row) -> [u8; 6]
    requires { IsRow row.now }
    ensures { result ≡ bytes_of_row row.now }
{
    let mut bytes = [0; 6];
    LittleEndian::write_i16(&mut bytes, row.sp_offset);
    LittleEndian::write_i16(&mut bytes[2..], row.bp_offset);
    LittleEndian::write_u16(&mut bytes[4..], fields(row));
    bytes
}

/// The registers, the kind and the signal bit of a row.
fn fields(row: &Row) -> u16
    requires { IsRow row.now }
    ensures { result ≡ packed_fields row.now }
{
    let signal = if row.signal { 1 << 11 } else { 0 };
    u16::from(row.sp_reg) + (u16::from(row.bp_reg) << 4) + (u16::from(row.kind) << 8) + signal
}

/// The row in the first six bytes, where they are those of one.
#[tactic(auto, unfolding(elf_objects::specs::Number::half))]
pub(crate) fn read_row(bytes: &[u8]) -> Option<Row>
    requires { 6 ≤ length bytes.now }
    ensures some { IfSome result (λ row. (row ≡ row_in bytes.now) × HasRow bytes.now) }
    ensures test { IfSome result (λ row. holds_row bytes.now ≡ true) }
    ensures bytes { IfSome result (λ row. bytes_of_row row ≡ take 6 bytes.now) }
    ensures none { IfNone result (holds_row bytes.now ≡ false) }
{
    let fields = LittleEndian::read_u16(&bytes[4..]);
    let row = Row {
        sp_offset: LittleEndian::read_i16(bytes),
        bp_offset: LittleEndian::read_i16(&bytes[2..]),
        sp_reg: (fields % 16) as u8,
        bp_reg: (fields / 16 % 16) as u8,
        kind: (fields / 256 % 8) as u8,
        signal: fields / 2048 % 2 == 1,
    };
    if row.sp_reg <= REG_SP_INDIRECT
        && row.bp_reg <= REG_SP_INDIRECT
        && row.kind <= KIND_REGS_PARTIAL
        && fields < 1 << 12
    {
        Some(row)
    } else {
        None
    }
}
