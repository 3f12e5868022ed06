//! The table of what is allowed at an object's points and symbols.

ghost use Rattle.std.specs.Prelude.{length, IfOk};
ghost use Rattle.program_check.specs.Allows.{Allows};
ghost use Rattle.flow_defs.specs.Code.{points_of_object};
ghost use Rattle.flow_defs.specs.Program.{program_of};
ghost use Rattle.object_check.specs.Allowances.{allowances_of};

use crate::branches::list_safe_branches;
use crate::initial::list_before_user_space;
use crate::names::list_safe_names;
use crate::smap::list_lacking_smap;
use object_points::{Linked, PointPlaces};
use ot_base::{Lists, NoMemory, Options};
use program_check::AllowanceTable;
use std::alloc::Global;

/// What an object whose points are told, lists of names, and options allow at these points and at its symbols.
fn table_of_places(
    alloc: Global,
    places: &PointPlaces<'_, '_, '_>,
    lists: &Lists,
    options: Options,
) -> Result<AllowanceTable, NoMemory>
    ensures { IfOk result (λ table. Allows (allowances_of places.now lists.now options) table (length (points_of_object places.now))) }
{
    Ok(AllowanceTable {
        safe_branches: list_safe_branches(alloc, places)?,
        before_user_space: list_before_user_space(alloc, places, options)?,
        lacking_smap: list_lacking_smap(alloc, places)?,
        safe_names: list_safe_names(alloc, places.linked().object(), lists)?,
        empty_is_safe: lists.access_safe(&[]),
    })
}

/// What an object whose code is read, lists of names, and options allow at the points of its program and at its symbols.
///
/// The table takes 3 bytes a point and 1 a symbol. The place of each point is looked up among those that are listed as safe,
/// where it runs among the alternatives sites, the name of its section is read, and the name of each symbol is looked up in
/// the lists.
///
/// # Errors
///
/// [`NoMemory`] may come at any object.
pub fn table_of(
    alloc: Global,
    linked: &Linked<'_, '_>,
    lists: &Lists,
    options: Options,
) -> Result<AllowanceTable, NoMemory>
    ensures points { IfOk result (λ table. Allows (allowances_of linked.now lists.now options) table (length (points_of_object linked.now))) }
    ensures program { IfOk result (λ table. Allows (allowances_of linked.now lists.now options) table (program_of linked.now lists.now).count) }
{
    let places = PointPlaces::build(alloc, linked)?;
    table_of_places(alloc, &places, lists, options)
}
