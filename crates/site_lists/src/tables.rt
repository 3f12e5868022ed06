//! The public call.

ghost use Rattle.std.specs.Prelude.{◌≡◌, ◌≤◌, IfOk, IfErr, OnOk};
ghost use Rattle.elf_objects.specs.declared.TheConstants.{MAX_SYMBOLS as most_symbols};
ghost use Rattle.site_lists.specs.Listed.{listed};
ghost use Rattle.site_lists.specs.Needed.{needed_symbols as needed_by};
ghost use Rattle.site_lists.specs.Tables.{CanHaveSites, HasSites, IsFit, IsSiteFault, symbols_needed};

use crate::needed::needed_symbols;
use crate::{SiteLists, with_lists};
use elf_objects::{MAX_SYMBOLS, Object};
use orc_output::TableFault;
use orc_output::symbols::{are_bytes, insert_symbols, read_object};
use ot_base::NoMemory;
use std::alloc::Global;

/// The file of an object with these site lists behind its own sections.
///
/// A list names its places by the section symbols of their sections. For each section that a list names and that has no section
/// symbol one is inserted, behind the last local symbol; no other section gets one. Then every relocation and group names the
/// same symbol as before. Where none is needed, the object's own file gets the sections.
///
/// `CanHaveSites`: each place lies in a text section for which a section symbol stands or can be made, at an offset up to the
/// section's size. The object has at most 64 MiB and 262,138 sections, and none of the site lists yet; and there are at most
/// 16,777,216 places in each list.
///
/// # Errors
///
/// [`TableFault::TooManySymbols`] exactly where the object would then have more than 4,194,304 symbols, with their number;
/// [`TableFault::NoMemory`] may come at any object.
pub fn with_sites(
    alloc: Global,
    object: &Object<'_>,
    lists: &SiteLists,
) -> Result<Vec<u8>, TableFault>
    requires { CanHaveSites object.now (listed lists.now) }
    ensures sites { IfOk result (λ file. HasSites object.now (listed lists.now) file.items) }
    ensures few { OnOk result (symbols_needed object.now (listed lists.now) ≤ most_symbols) }
    ensures err { IfErr result (IsSiteFault object.now (listed lists.now)) }
{
    let secs = needed_symbols(alloc, object, lists)?;
    let count = u64::from(object.symbols()) + secs.len() as u64;
    if count > MAX_SYMBOLS {
        return Err(TableFault::TooManySymbols { count });
    }
    are_bytes(object.bytes());
    Ok(write_sites(alloc, object, &secs, lists)?)
}

/// The same, where these sections need a symbol.
fn write_sites(
    alloc: Global,
    object: &Object<'_>,
    secs: &[u32],
    lists: &SiteLists,
) -> Result<Vec<u8>, NoMemory>
    requires fit { IsFit object.now (listed lists.now) }
    requires needed { secs.now ≡ needed_by object.now (listed lists.now) }
    ensures { IfOk result (λ file. HasSites object.now (listed lists.now) file.items) }
{
    if secs.is_empty() {
        return with_lists(alloc, object, lists);
    }
    let file = insert_symbols(alloc, object, secs)?;
    let named = read_object(alloc, &file)?;
    with_lists(alloc, &named, lists)
}
