// Numbers and zeros at the end of a vector.

ghost use Rattle.std.specs.Prelude.{◌≡◌, ◌+◌, ◌<◌, ◌≤◌, ◌^◌, ◌++◌, OnOk, length, slice_range, vec_len};
ghost use Rattle.elf_write.specs.Layout.{aligned, encoded, padded};

use byteorder::{ByteOrder, LittleEndian};
use ot_base::NoMemory;

const ZEROS: [u8; 8] = [0; 8];

/// The next multiple of 8.
pub fn next_multiple(n: usize) -> usize
    requires { n < 2 ^ 63 }
    ensures { result ≡ aligned n }
{
    (n + 7) / 8 * 8
}

/// Adds bytes at the end of a vector.
pub fn push_bytes(out: &mut Vec<u8>, bytes: &[u8]) -> Result<(), NoMemory>
    ensures { OnOk result (out.new.items ≡ out.old.items ++ bytes.now) }
{
    out.extend_from_slice(bytes)?;
    Ok(())
}

/// Adds those of the bytes from `from` up to `to`.
pub(crate) fn push_part(
    out: &mut Vec<u8>,
    bytes: &[u8],
    from: usize,
    to: usize,
) -> Result<(), NoMemory>
    requires in_order { from ≤ to }
    requires inside { to ≤ length bytes.now }
    ensures { OnOk result (out.new.items ≡ out.old.items ++ slice_range bytes.now from to) }
{
    push_bytes(out, &bytes[from..to])
}

/// Adds zeros up to the next multiple of 8.
pub fn pad(out: &mut Vec<u8>) -> Result<(), NoMemory>
    requires { vec_len out.old < 2 ^ 63 }
    ensures { OnOk result (out.new.items ≡ padded out.old.items) }
{
    let gap = next_multiple(out.len()) - out.len();
    push_bytes(out, &ZEROS[..gap])
}

/// Adds an `Elf64_Half`, the low byte first.
pub fn push_u16(out: &mut Vec<u8>, n: u16) -> Result<(), NoMemory>
    ensures { OnOk result (out.new.items ≡ out.old.items ++ encoded 2 n) }
{
    let mut bytes = [0; 2];
    LittleEndian::write_u16(&mut bytes, n);
    push_bytes(out, &bytes)
}

/// Adds an `Elf64_Word`, the low byte first.
pub fn push_u32(out: &mut Vec<u8>, n: u32) -> Result<(), NoMemory>
    ensures { OnOk result (out.new.items ≡ out.old.items ++ encoded 4 n) }
{
    let mut bytes = [0; 4];
    LittleEndian::write_u32(&mut bytes, n);
    push_bytes(out, &bytes)
}

/// Adds an `Elf64_Xword`, the low byte first.
pub fn push_u64(out: &mut Vec<u8>, n: u64) -> Result<(), NoMemory>
    ensures { OnOk result (out.new.items ≡ out.old.items ++ encoded 8 n) }
{
    let mut bytes = [0; 8];
    LittleEndian::write_u64(&mut bytes, n);
    push_bytes(out, &bytes)
}
