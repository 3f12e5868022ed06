//! The sites of an object's code.

ghost use Rattle.std.specs.Prelude.{◌≡◌, ◌≤◌, ℕ, List, IfErr, IfOk, OnOk, length};
ghost use Rattle.elf_objects.specs.Object.{IsObject};
ghost use Rattle.elf_objects.specs.declared.TheConstants.{MAX_FILE_BYTES};
ghost use Rattle.flow_defs.specs.Coded.{coded_by};
ghost use Rattle.object_points.specs.Linked.{IsLinked};
ghost use Rattle.site_lists.specs.declared.options.ListOptions.{ListOptions as ListOptionsValue};
ghost use Rattle.site_lists.specs.Listed.{listed};
ghost use Rattle.site_lists.specs.Sites.{AreFew, AreSitesIn, sites_of as sites_of_code};
ghost use Rattle.command_base.specs.Code.{IsInOrder};
ghost use Rattle.code_commands.specs.Sites.{GetNoSites};

use command_base::{CommandStop, flow_stop, link_stop};
use control_flow::check_flow;
use elf_objects::Object;
use object_points::{Linked, PointPlaces};
use ot_base::{Lists, NoMemory};
use site_lists::{ListOptions, SiteLists, sites};
use std::alloc::Global;
use x86_map::Map;

/// Reads the code of an object by an opcode map, under lists of function names, or tells why a command stops that can't.
fn link<'o, 'a>(
    alloc: Global,
    map: Map,
    object: &'o Object<'a>,
    names: &Lists,
) -> Result<Linked<'o, 'a>, CommandStop<'a>>
    requires { length object.now.bytes ≤ MAX_FILE_BYTES }
    ensures ok { IfOk result (λ linked. linked ≡ coded_by map object.now) }
    ensures right { OnOk result (IsLinked (coded_by map object.now) names.now) }
    ensures stopped { (options : ListOptionsValue) (bytes : List ℕ) → IsObject bytes object.now → IfErr result (GetNoSites options map bytes names.now) }
{
    match Linked::link(alloc, map, object, names) {
        Ok(linked) => Ok(linked),
        Err(fault) => Err(link_stop(object, fault)),
    }
}

/// Checks that what an object says of its code, which is read under lists of function names, fits the code, or tells why a command
/// stops where it doesn't.
fn check_code<'a>(
    alloc: Global,
    linked: &Linked<'_, '_>,
    names: &Lists,
) -> Result<(), CommandStop<'a>>
    requires { IsLinked linked.now names.now }
    ensures right { OnOk result (IsInOrder linked.now names.now) }
    ensures stopped { (options : ListOptionsValue) (bytes : List ℕ) → IsObject bytes linked.now.elf → IfErr result (GetNoSites options linked.now.map bytes names.now) }
{
    match PointPlaces::build(alloc, linked) {
        Ok(places) => match check_flow(&places) {
            Ok(()) => Ok(()),
            Err(fault) => Err(flow_stop(fault)),
        },
        Err(NoMemory) => Err(CommandStop::NoMemory),
    }
}

/// The sites of an object whose code is read under lists of function names, or why a command stops that has none.
fn sites_of_linked<'a>(
    alloc: Global,
    linked: &Linked<'_, '_>,
    options: ListOptions,
    names: &Lists,
) -> Result<SiteLists, CommandStop<'a>>
    requires { IsLinked linked.now names.now }
    ensures are { IfOk result (λ lists. listed lists ≡ sites_of_code options linked.now) }
    ensures placed { IfOk result (λ lists. AreSitesIn linked.now.elf (listed lists)) }
    ensures few { IfOk result (λ lists. AreFew (listed lists)) }
    ensures right { OnOk result (IsInOrder linked.now names.now) }
    ensures stopped { (bytes : List ℕ) → IsObject bytes linked.now.elf → IfErr result (GetNoSites options linked.now.map bytes names.now) }
{
    check_code(alloc, linked, names)?;
    match sites(alloc, linked, options) {
        Ok(lists) => Ok(lists),
        Err(NoMemory) => Err(CommandStop::NoMemory),
    }
}

/// The sites of an object whose code is read by an opcode map, under lists of function names, or why a command stops that has none.
pub(crate) fn sites_of<'a>(
    alloc: Global,
    map: Map,
    object: &Object<'a>,
    options: ListOptions,
    names: &Lists,
) -> Result<SiteLists, CommandStop<'a>>
    requires { length object.now.bytes ≤ MAX_FILE_BYTES }
    ensures are { IfOk result (λ lists. listed lists ≡ sites_of_code options (coded_by map object.now)) }
    ensures placed { IfOk result (λ lists. AreSitesIn object.now (listed lists)) }
    ensures few { IfOk result (λ lists. AreFew (listed lists)) }
    ensures right { OnOk result (IsInOrder (coded_by map object.now) names.now) }
    ensures stopped { (bytes : List ℕ) → IsObject bytes object.now → IfErr result (GetNoSites options map bytes names.now) }
{
    let linked = link(alloc, map, object, names)?;
    sites_of_linked(alloc, &linked, options, names)
}
