// The input, and the object with sections added behind it.

ghost use Rattle.std.specs.Prelude.{◌≡◌, ◌+◌, ◌*◌, ◌/◌, ◌<◌, ◌≤◌, ◌^◌, ◌++◌, IfOk, OnOk, length};
ghost use Rattle.elf_write.specs.Layout.{appended, encoded, long_count, short_count, written};
ghost use Rattle.elf_write.specs.New.{entries, input_of};

use crate::bytes::{next_multiple, pad, push_bytes, push_part, push_u16, push_u64};
use crate::pieces::{end_of_bodies, push_bodies, push_names, push_new_headers, size_of_names};
use crate::section::NewSection;
use ot_base::NoMemory;
use std::alloc::Global;

/// The number of sections from which on the file header says 0 and header 0 says it (ELF-64 gABI,
/// SHN_LORESERVE).
const MANY: usize = 0xFF00;

/// What the writer has to know of the input.
#[derive(Clone, Copy)]
pub(crate) struct Input<'a> {
    /// The whole file.
    pub(crate) bytes: &'a [u8],
    /// Its section headers.
    pub(crate) headers: &'a [u8],
    /// The number of the section of section names.
    pub(crate) name_table: usize,
    /// Its body.
    pub(crate) names: &'a [u8],
}

/// The input with the new sections behind it.
pub(crate) fn append_to(
    alloc: Global,
    input: &Input<'_>,
    new: &[NewSection],
) -> Result<Vec<u8>, NoMemory>
    requires file_header { 64 ≤ length input.now.bytes.now }
    requires headers { length input.now.headers.now < 2 ^ 32 }
    requires named { 1 ≤ input.now.name_table }
    requires in_table { 64 * input.now.name_table + 64 ≤ length input.now.headers.now }
    requires size { length (appended (input_of input.now) (entries new.now)) < 2 ^ 32 }
    ensures { IfOk result (λ v. v.items ≡ appended (input_of input.now) (entries new.now)) }
{
    if new.is_empty() {
        return Ok(Vec::from_slice(alloc, input.bytes)?);
    }
    let names_at = next_multiple(input.bytes.len());
    let names_size = input.names.len() + size_of_names(new);
    let names_end = names_at + names_size;
    let headers_at = next_multiple(end_of_bodies(names_end, new));
    let count = input.headers.len() / 64 + new.len();
    let mut out = Vec::with_capacity(alloc, headers_at + 64 * count)?;
    push_input(&mut out, input.bytes, headers_at, count)?;
    pad(&mut out)?;
    push_bytes(&mut out, input.names)?;
    push_names(&mut out, new)?;
    push_bodies(&mut out, new)?;
    pad(&mut out)?;
    push_old_headers(&mut out, input, names_at, names_size, count)?;
    push_new_headers(&mut out, input.names.len(), names_end, new)?;
    Ok(out)
}

/// Adds the input, its file header naming the headers' place and number.
fn push_input(
    out: &mut Vec<u8>,
    bytes: &[u8],
    headers_at: usize,
    count: usize,
) -> Result<(), NoMemory>
    requires { 64 ≤ length bytes.now }
    ensures { let counted = written 60 (encoded 2 (short_count count)) bytes.now in
        OnOk result (out.new.items ≡ out.old.items ++ written 40 (encoded 8 headers_at) counted) }
{
    let short = if count < MANY { count as u16 } else { 0 };
    push_part(out, bytes, 0, 40)?;
    push_u64(out, headers_at as u64)?;
    push_part(out, bytes, 48, 60)?;
    push_u16(out, short)?;
    push_part(out, bytes, 62, bytes.len())?;
    Ok(())
}

/// Adds the old headers: header 0 names the number of sections where they are many, the name
/// table's header its new place and size.
fn push_old_headers(
    out: &mut Vec<u8>,
    input: &Input<'_>,
    names_at: usize,
    names_size: usize,
    count: usize,
) -> Result<(), NoMemory>
    requires named { 1 ≤ input.now.name_table }
    requires in_table { 64 * input.now.name_table + 64 ≤ length input.now.headers.now }
    ensures { let place = 64 * input.now.name_table + 24 in
        let moved = written place (encoded 8 names_at ++ encoded 8 names_size) input.now.headers.now in
        OnOk result (out.new.items ≡ out.old.items ++ written 32 (encoded 8 (long_count count)) moved) }
{
    let long = if count < MANY { 0 } else { count as u64 };
    let headers = input.headers;
    let place = 64 * input.name_table + 24;
    push_part(out, headers, 0, 32)?;
    push_u64(out, long)?;
    push_part(out, headers, 40, place)?;
    push_u64(out, names_at as u64)?;
    push_u64(out, names_size as u64)?;
    push_part(out, headers, place + 16, headers.len())?;
    Ok(())
}
