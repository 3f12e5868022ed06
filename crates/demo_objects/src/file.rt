//! The file of sections whose numbers and bodies are settled.

ghost use Rattle.std.specs.Prelude.{◌≡◌, ◌+◌, ◌-◌, ◌<◌, ◌≤◌, ◌^◌, ◌++◌, All, IfOk, OnOk, length};
ghost use Rattle.elf_write.specs.Layout.{header_bytes, header_for, header_table, long_count, new_names, short_count};
ghost use Rattle.elf_write.specs.New.{entries, entry_of, header_fields};
ghost use Rattle.demo_objects.specs.Layout.{bodies_end, file_header, file_of, first_header, headers_from, headers_place, long_index, next_multiple, short_index, with_bodies};

use crate::bytes::{next_multiple, pad};
use elf_objects::{SHN_LORESERVE, SHN_XINDEX, SHT_NULL};
use elf_write::{Header, NewSection, push_bytes, push_header, push_u16, push_u64};
use ot_base::NoMemory;
use std::alloc::Global;

/// From this number on a number of sections, or a section's number, stands in header 0.
const MANY: u32 = SHN_LORESERVE as u32;

/// The file header up to `e_shoff`: `e_ident` (the magic number, ELFCLASS64, ELFDATA2LSB, EV_CURRENT, and
/// zeros), `e_type` (ET_REL), `e_machine` (EM_X86_64), `e_version`, and no `e_entry` and `e_phoff`.
const BEFORE_PLACE: [u8; 40] =
    *b"\x7FELF\x02\x01\x01\0\0\0\0\0\0\0\0\0\x01\0\x3E\0\x01\0\0\0\0\0\0\0\0\0\0\0\0\0\0\0\0\0\0\0";

/// From there up to `e_shnum`: `e_flags`, `e_ehsize` (64), `e_phentsize`, `e_phnum`, and `e_shentsize` (64).
const BEFORE_COUNT: [u8; 12] = [0, 0, 0, 0, 64, 0, 0, 0, 0, 0, 64, 0];

/// Where the last of the bodies ends.
fn end_of_bodies(sections: &[NewSection]) -> usize
    requires aligned { All (λ e. 1 ≤ e.align) (entries sections.now) }
    requires fits { bodies_end 64 (entries sections.now) < 2 ^ 32 }
    ensures { result ≡ bodies_end 64 (entries sections.now) }
{
    let mut end = 64;
    for section in sections {
        end = next_multiple(section.align, end) + section.body.len();
    }
    end
}

/// Adds the bodies, each at the next multiple of its alignment.
fn push_bodies(out: &mut Vec<u8>, sections: &[NewSection]) -> Result<(), NoMemory>
    requires aligned { All (λ e. 1 ≤ e.align) (entries sections.now) }
    requires fits { bodies_end (length out.old.items) (entries sections.now) < 2 ^ 32 }
    ensures { OnOk result (out.new.items ≡ with_bodies out.old.items (entries sections.now)) }
{
    for section in sections {
        pad(out, section.align)?;
        push_bytes(out, &section.body)?;
    }
    Ok(())
}

/// The header of a section whose name begins at `name` in the name table and whose body begins at
/// `place`.
fn header(section: &NewSection, name: u32, place: u64) -> Header
    ensures { header_fields result ≡ header_for name place (entry_of section.now) }
{
    Header {
        name,
        kind: section.kind,
        flags: section.flags,
        addr: 0,
        offset: place,
        size: section.body.len() as u64,
        link: section.link,
        info: section.info,
        align: section.align,
        entsize: section.entsize,
    }
}

/// Adds the headers of the sections.
fn push_headers(out: &mut Vec<u8>, sections: &[NewSection]) -> Result<(), NoMemory>
    requires aligned { All (λ e. 1 ≤ e.align) (entries sections.now) }
    requires fits { bodies_end 64 (entries sections.now) < 2 ^ 32 }
    requires names { 1 + length (new_names (entries sections.now)) < 2 ^ 32 }
    ensures { OnOk result
        (out.new.items ≡ out.old.items ++ header_table (headers_from 1 64 (entries sections.now))) }
{
    let mut name = 1;
    let mut at = 64;
    for section in sections {
        let place = next_multiple(section.align, at);
        push_header(out, &header(section, name as u32, place as u64))?;
        name += section.name.len() + 1;
        at = place + section.body.len();
    }
    Ok(())
}

/// `e_shnum` of so many sections.
fn short_count(count: u32) -> u16
    ensures { result ≡ short_count count }
{
    if count < MANY { count as u16 } else { 0 }
}

/// `sh_size` of header 0, where there are so many sections.
fn long_count(count: u32) -> u64
    ensures { result ≡ long_count count }
{
    if count < MANY { 0 } else { u64::from(count) }
}

/// `e_shstrndx` of a name table with this number.
fn short_index(i: u32) -> u16
    ensures { result ≡ short_index i }
{
    if i < MANY { i as u16 } else { SHN_XINDEX }
}

/// `sh_link` of header 0, where the name table has this number.
fn long_index(i: u32) -> u32
    ensures { result ≡ long_index i }
{
    if i < MANY { 0 } else { i }
}

/// Header 0, where there are so many sections and the last is the name table.
fn first_header(count: u32) -> Header
    requires { 1 ≤ count }
    ensures { header_fields result ≡ first_header count }
{
    Header {
        name: 0,
        kind: SHT_NULL,
        flags: 0,
        addr: 0,
        offset: 0,
        size: long_count(count),
        link: long_index(count - 1),
        info: 0,
        align: 0,
        entsize: 0,
    }
}

/// Adds the file header.
fn push_file_header(out: &mut Vec<u8>, headers_at: u64, count: u32) -> Result<(), NoMemory>
    requires { 1 ≤ count }
    ensures { OnOk result (out.new.items ≡ out.old.items ++ file_header headers_at count) }
{
    push_bytes(out, &BEFORE_PLACE)?;
    push_u64(out, headers_at)?;
    push_bytes(out, &BEFORE_COUNT)?;
    push_u16(out, short_count(count))?;
    push_u16(out, short_index(count - 1))
}

/// The file of sections from number 1 on, the last of which is the name table.
pub(crate) fn file_of(alloc: Global, sections: &[NewSection]) -> Result<Vec<u8>, NoMemory>
    requires aligned { All (λ e. 1 ≤ e.align) (entries sections.now) }
    requires few { length sections.now < 2 ^ 32 - 1 }
    requires names { 1 + length (new_names (entries sections.now)) < 2 ^ 32 }
    requires fits { length (file_of (entries sections.now)) < 2 ^ 32 }
    ensures { IfOk result (λ file. file.items ≡ file_of (entries sections.now)) }
{
    let headers_at = next_multiple(8, end_of_bodies(sections));
    let count = sections.len() as u32 + 1;
    let mut out = Vec::with_capacity(alloc, headers_at + 64 * count as usize)?;
    push_file_header(&mut out, headers_at as u64, count)?;
    push_bodies(&mut out, sections)?;
    pad(&mut out, 8)?;
    push_header(&mut out, &first_header(count))?;
    push_headers(&mut out, sections)?;
    Ok(out)
}
