//! The bytes of an object with its site lists.

ghost use Rattle.std.specs.Prelude.{◌≤◌, ℕ, List, IfErr, IfOk, OnOk, length};
ghost use Rattle.elf_objects.specs.Object.{IsObject};
ghost use Rattle.elf_objects.specs.declared.TheConstants.{MAX_FILE_BYTES};
ghost use Rattle.flow_defs.specs.Coded.{coded_by};
ghost use Rattle.code_commands.specs.SitesOrder.{GetsSites};
ghost use Rattle.code_commands.specs.Sites.{GetNoSites, ListsSites};

use crate::sites_code::sites_of;
use crate::sites_room::check_room;
use command_base::{CommandStop, Refusal};
use elf_objects::{Counted, Object};
use orc_output::TableFault;
use ot_base::Lists;
use site_lists::{ListOptions, lists_are_determined, with_sites};
use std::alloc::Global;
use x86_map::Map;

/// The bytes of an object with the lists of its sites and the section symbols that these need, whose code is read under lists of
/// function names; or why a command stops whose object gets none.
pub(crate) fn with_its_sites<'a>(
    alloc: Global,
    map: Map,
    options: ListOptions,
    object: &Object<'a>,
    names: &Lists,
) -> Result<Vec<u8>, CommandStop<'a>>
    requires short { length object.now.bytes ≤ MAX_FILE_BYTES }
    ensures gets { OnOk result (GetsSites options (coded_by map object.now) names.now) }
    ensures lists { IfOk result (λ file. ListsSites options (coded_by map object.now) file.items) }
    ensures stopped { (bytes : List ℕ) → IsObject bytes object.now → IfErr result (GetNoSites options map bytes names.now) }
{
    lists_are_determined();
    let lists = sites_of(alloc, map, object, options, names)?;
    check_room(object)?;
    match with_sites(alloc, object, &lists) {
        Ok(file) => Ok(file),
        Err(TableFault::TooManySymbols { count }) => Err(CommandStop::Refused(Refusal::TooMany {
            what: Counted::Symbols,
            count,
        })),
        Err(TableFault::NoMemory) => Err(CommandStop::NoMemory),
    }
}
