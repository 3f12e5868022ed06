//! The bytes of a row (Linux 6.6, `orc_types.h`, `struct orc_entry`).

ghost use Rattle.std.specs.Prelude.{◌≡◌};
ghost use Rattle.orc_bytes.specs.RowBytes.{packed_fields, bytes_of_row, IsRow};

use byteorder::{ByteOrder, LittleEndian};
use ot_base::Row;

/// The six bytes of a row.
pub(crate) fn row_bytes(row: &Row) -> [u8; 6]
    requires { IsRow row.now }
    ensures { result ≡ bytes_of_row row.now }
{
    let mut bytes = [0; 6];
    LittleEndian::write_i16(&mut bytes, row.sp_offset);
    LittleEndian::write_i16(&mut bytes[2..], row.bp_offset);
    LittleEndian::write_u16(&mut bytes[4..], fields(row));
    bytes
}

/// The registers, the kind and the signal bit of a row.
fn fields(row: &Row) -> u16
    requires { IsRow row.now }
    ensures { result ≡ packed_fields row.now }
{
    let signal = if row.signal { 1 << 11 } else { 0 };
    u16::from(row.sp_reg) + (u16::from(row.bp_reg) << 4) + (u16::from(row.kind) << 8) + signal
}
