//! Alignment.

ghost use Rattle.std.specs.Prelude.{◌≡◌, ◌<◌, ◌≤◌, ◌^◌, OnOk, length};
ghost use Rattle.demo_objects.specs.Layout.{next_multiple, padded};

use ot_base::NoMemory;

/// The next multiple of an alignment.
pub(crate) fn next_multiple(align: u64, n: usize) -> usize
    requires some { 1 ≤ align }
    requires fits { next_multiple align n < 2 ^ 63 }
    ensures { result ≡ next_multiple align n }
{
    let over = n as u64 % align;
    if over == 0 {
        n
    } else {
        n + (align - over) as usize
    }
}

/// Adds zeros up to the next multiple of an alignment.
pub(crate) fn pad(out: &mut Vec<u8>, align: u64) -> Result<(), NoMemory>
    requires some { 1 ≤ align }
    requires fits { next_multiple align (length out.old.items) < 2 ^ 63 }
    ensures { OnOk result (out.new.items ≡ padded align out.old.items) }
{
    let end = next_multiple(align, out.len());
    out.resize(end, 0)?;
    Ok(())
}
