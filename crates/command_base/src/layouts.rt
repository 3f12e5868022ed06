//! Reading LAYOUT.

ghost use Rattle.std.specs.Prelude.{◌≡◌, ◌≤◌, ◌<◌, ◌^◌, IfErr, IfOk, length};
ghost use Rattle.command_base.specs.Layouts.{IsLayoutOf, NamesFiles, NamesNoFiles, StopsAtLayout, number_of_places};

use crate::{CommandStop, Refusal, layout_stop, read_file};
use orc_merge::Layout;
use ot_files::Files;
use std::alloc::Global;

/// How many bytes a layout may have.
pub const MAX_LAYOUT_BYTES: u64 = 16_777_216;

/// How many files a layout may name.
pub const MOST_FILES: u64 = 1_024;

/// The files that a text names, or why it names none that can be merged.
fn layout_of<'a>(alloc: Global, text: &[u8]) -> Result<Layout, CommandStop<'a>>
    requires { length text.now ≤ MAX_LAYOUT_BYTES }
    ensures names { IfOk result (λ layout. NamesFiles text.now layout) }
    ensures few { IfOk result (λ layout. number_of_places layout < 2 ^ 32) }
    ensures stopped { IfErr result (NamesNoFiles text.now) }
{
    let layout = match Layout::parse(alloc, text) {
        Ok(layout) => layout,
        Err(fault) => return Err(layout_stop(fault)),
    };
    let count = layout.files().len() as u64;
    if count > MOST_FILES {
        return Err(CommandStop::Refused(Refusal::TooManyFiles { count }));
    }
    Ok(layout)
}

/// The files that LAYOUT names, or why a command stops that needs them.
pub(crate) fn read_layout<'a, F: Files>(
    alloc: Global,
    name: &'a str,
    files: &mut F,
) -> Result<Layout, CommandStop<'a>>
    ensures layout { IfOk result (λ layout. IsLayoutOf (F.content files.old) name.now layout) }
    ensures few { IfOk result (λ layout. number_of_places layout < 2 ^ 32) }
    ensures stopped { IfErr result (StopsAtLayout name.now
        (record { content = F.content files.old; faults = F.faults files.old })
        (record { content = F.content files.new; faults = F.faults files.new })) }
    ensures unchanged { F.content files.new ≡ F.content files.old }
    ensures later { F.faults files.old ≤ F.faults files.new }
{
    match read_file(alloc, name, MAX_LAYOUT_BYTES, files) {
        Ok(text) => layout_of(alloc, text.as_slice()),
        Err(stop) => Err(stop),
    }
}
