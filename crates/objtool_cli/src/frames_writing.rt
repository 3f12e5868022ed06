//! The bytes of an object with its call frame information.

ghost use Rattle.std.specs.Prelude.{◌≤◌, IfErr, IfOk, OnOk};
ghost use Rattle.elf_objects.specs.declared.TheConstants.{MAX_SYMBOLS};
ghost use Rattle.eh_frame.specs.Framed.{CanBeFramed};
ghost use Rattle.orc_output.specs.Tables.{symbols_needed};
ghost use Rattle.objtool_cli.specs.Written.{IsCrowded, TellsRows};

use command_base::{CommandStop, Refusal};
use eh_frame::{TableFault, rows_are_read_back, with_frames};
use elf_objects::{Counted, Object};
use ot_base::PlacedRow;
use std::alloc::Global;

/// The bytes of an object with the call frame information of these rows and the section symbols that they need, or why a command stops
/// whose object can't have them.
pub(crate) fn with_its_frames<'a>(
    alloc: Global,
    object: &Object<'_>,
    rows: &[PlacedRow],
) -> Result<Vec<u8>, CommandStop<'a>>
    requires { CanBeFramed object.now rows.now }
    ensures tells { IfOk result (λ file. TellsRows object.now rows.now file.items) }
    ensures few { OnOk result (symbols_needed object.now rows.now ≤ MAX_SYMBOLS) }
    ensures crowded { IfErr result (IsCrowded object.now rows.now) }
{
    rows_are_read_back();
    match with_frames(alloc, object, rows) {
        Ok(file) => Ok(file),
        Err(TableFault::TooManySymbols { count }) => Err(CommandStop::Refused(Refusal::TooMany {
            what: Counted::Symbols,
            count,
        })),
        Err(TableFault::NoMemory) => Err(CommandStop::NoMemory),
    }
}
