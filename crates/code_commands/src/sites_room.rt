//! Whether an object has room for site lists.

ghost use Rattle.std.specs.Prelude.{◌≡◌, ◌≤◌, ℕ, List, All, IfErr, None, OnOk, length};
ghost use Rattle.ot_base.specs.NameLists.{NameLists};
ghost use Rattle.elf_objects.specs.Object.{IsObject};
ghost use Rattle.flow_defs.specs.Coded.{coded_by};
ghost use Rattle.site_lists.specs.SiteOutput.{IsOther, site_section};
ghost use Rattle.site_lists.specs.declared.options.ListOptions.{ListOptions};
ghost use Rattle.x86_map.specs.declared.map.Map.{Map};
ghost use Rattle.command_base.specs.Code.{IsInOrder};
ghost use Rattle.code_commands.specs.SitesOrder.{most_sections};
ghost use Rattle.code_commands.specs.Sites.{GetNoSites};

use command_base::{CommandStop, Refusal};
use elf_objects::{Counted, MAX_SECTIONS, Object};
use site_lists::first_site_section;

/// Checks that an object whose code is in order has no site list yet, and room for three with their relocations, or
/// tells why a command stops whose object hasn't.
pub(crate) fn check_room<'a>(object: &Object<'_>) -> Result<(), CommandStop<'a>>
    ensures new { OnOk result (site_section object.now ≡ None) }
    ensures others { OnOk result (All IsOther object.now.sections) }
    ensures few { OnOk result (length object.now.sections ≤ most_sections) }
    ensures stopped { (options : ListOptions) (map : Map) (bytes : List ℕ) (lists : NameLists) → IsObject bytes object.now → IsInOrder (coded_by map object.now) lists → IfErr result (GetNoSites options map bytes lists) }
{
    if let Some(sec) = first_site_section(object) {
        return Err(CommandStop::Refused(Refusal::HasSites { sec }));
    }
    let count = u64::from(object.sections());
    if count > MAX_SECTIONS - 6 {
        return Err(CommandStop::Refused(Refusal::TooMany {
            what: Counted::Sections,
            count,
        }));
    }
    Ok(())
}
