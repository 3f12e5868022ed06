// The new names, bodies and headers, and where they end.

ghost use Rattle.std.specs.Prelude.{◌≡◌, ◌+◌, ◌<◌, ◌^◌, ◌++◌, OnOk, length};
ghost use Rattle.elf_write.specs.Layout.{bodies, end_of, header_for, header_table, laid_out, new_headers, new_names};
ghost use Rattle.elf_write.specs.New.{entries, entry_of, header_fields};

use crate::bytes::{next_multiple, pad, push_bytes};
use crate::header::{Header, push_header};
use crate::section::NewSection;
use ot_base::NoMemory;

/// Where the last of the bodies ends, if they are laid out behind `at` bytes.
pub(crate) fn end_of_bodies(at: usize, new: &[NewSection]) -> usize
    requires { end_of at (bodies (entries new.now)) < 2 ^ 32 }
    ensures { result ≡ end_of at (bodies (entries new.now)) }
{
    let mut end = at;
    for section in new {
        end = next_multiple(end) + section.body.len();
    }
    end
}

/// How many bytes the new names take in the name table, each with its zero byte.
pub(crate) fn size_of_names(new: &[NewSection]) -> usize
    requires { length (new_names (entries new.now)) < 2 ^ 32 }
    ensures { result ≡ length (new_names (entries new.now)) }
{
    let mut size = 0;
    for section in new {
        size += section.name.len() + 1;
    }
    size
}

/// Adds the new names, each with its zero byte.
pub(crate) fn push_names(out: &mut Vec<u8>, new: &[NewSection]) -> Result<(), NoMemory>
    ensures { OnOk result (out.new.items ≡ out.old.items ++ new_names (entries new.now)) }
{
    for section in new {
        push_bytes(out, &section.name)?;
        out.push(0)?;
    }
    Ok(())
}

/// Adds the new bodies, each at the next multiple of 8.
pub(crate) fn push_bodies(out: &mut Vec<u8>, new: &[NewSection]) -> Result<(), NoMemory>
    requires { end_of (length out.old.items) (bodies (entries new.now)) < 2 ^ 32 }
    ensures { OnOk result (out.new.items ≡ laid_out out.old.items (bodies (entries new.now))) }
{
    for section in new {
        pad(out)?;
        push_bytes(out, &section.body)?;
    }
    Ok(())
}

/// Adds the headers of the new sections, whose names begin at `name` in the name table and whose
/// bodies are laid out behind `at` bytes.
pub(crate) fn push_new_headers(
    out: &mut Vec<u8>,
    name: usize,
    at: usize,
    new: &[NewSection],
) -> Result<(), NoMemory>
    requires names { name + length (new_names (entries new.now)) < 2 ^ 32 }
    requires bodies { end_of at (bodies (entries new.now)) < 2 ^ 32 }
    ensures { let headers = new_headers name at (entries new.now) in
        OnOk result (out.new.items ≡ out.old.items ++ header_table headers) }
{
    let mut name = name;
    let mut at = at;
    for section in new {
        let place = next_multiple(at);
        push_header(out, &new_header(section, name as u32, place as u64))?;
        name += section.name.len() + 1;
        at = place + section.body.len();
    }
    Ok(())
}

fn new_header(section: &NewSection, name: u32, place: u64) -> Header
    ensures { header_fields result ≡ header_for name place (entry_of section.now) }
{
    Header {
        name,
        kind: section.kind,
        flags: section.flags,
        addr: 0,
        offset: place,
        size: section.body.len() as u64,
        link: section.link,
        info: section.info,
        align: section.align,
        entsize: section.entsize,
    }
}
