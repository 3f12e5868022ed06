//! The lists of function names that a command goes by.

ghost use Rattle.std.specs.Prelude.{◌≡◌, ◌≤◌, option_map, IfErr, IfOk, OnOk, Some};
ghost use Rattle.ot_base.specs.NameLists.{lists_with};
ghost use Rattle.ot_base.specs.NamesFile.{IsNamesFile};
ghost use Rattle.command_base.specs.Names.{HasNames, HoldsNames, IsListsStop, StopsAtNames};

use crate::{CommandStop, lists_stop, read_file};
use elf_objects::MAX_FILE_BYTES;
use ot_base::{Lists, NoMemory};
use ot_files::Files;
use std::alloc::Global;

/// The built-in lists with the names that the text of a names file adds, or else why a command stops.
fn lists_of<'a>(alloc: Global, text: &[u8]) -> Result<Lists, CommandStop<'a>>
    ensures right { OnOk result (IsNamesFile text.now) }
    ensures are { IfOk result (λ lists. lists ≡ lists_with text.now) }
    ensures stopped { IfErr result (IsListsStop text.now) }
{
    match Lists::parse(alloc, text) {
        Ok(lists) => Ok(lists),
        Err(fault) => Err(lists_stop(fault)),
    }
}

/// The same of the file of this name.
fn read_lists<'a, F: Files>(
    alloc: Global,
    file: &'a str,
    files: &mut F,
) -> Result<Lists, CommandStop<'a>>
    ensures ok { IfOk result (HoldsNames (F.content files.old) file.now) }
    ensures stopped { IfErr result (StopsAtNames (Some file.now)
        (record { content = F.content files.old; faults = F.faults files.old })
        (record { content = F.content files.new; faults = F.faults files.new })) }
    ensures unchanged { F.content files.new ≡ F.content files.old }
    ensures later { F.faults files.old ≤ F.faults files.new }
{
    match read_file(alloc, file, MAX_FILE_BYTES, files) {
        Ok(text) => lists_of(alloc, text.as_slice()),
        Err(stop) => Err(stop),
    }
}

/// The lists of names: those of the names file, where one is given, or else the built-in ones. Or why a
/// command stops that needs them.
pub fn read_names<'a, F: Files>(
    alloc: Global,
    names: Option<&'a str>,
    files: &mut F,
) -> Result<Lists, CommandStop<'a>>
    ensures ok { IfOk result (HasNames (F.content files.old) (option_map (λ file. file.now) names.entry)) }
    ensures stopped { IfErr result (StopsAtNames (option_map (λ file. file.now) names.entry)
        (record { content = F.content files.old; faults = F.faults files.old })
        (record { content = F.content files.new; faults = F.faults files.new })) }
    ensures unchanged { F.content files.new ≡ F.content files.old }
    ensures later { F.faults files.old ≤ F.faults files.new }
{
    match names {
        Some(file) => read_lists(alloc, file, files),
        None => match Lists::built_in(alloc) {
            Ok(lists) => Ok(lists),
            Err(NoMemory) => Err(CommandStop::NoMemory),
        },
    }
}
