//! The entries of a table.

ghost use Rattle.std.specs.Prelude.{◌≡◌, ◌&&◌, nat_lt};
ghost use Rattle.std.specs.List.{list_any};
ghost use Rattle.ot_base.specs.Places.{same_place};
ghost use Rattle.jump_tables.specs.Kept.{AreByPlace, AreStarts};
ghost use Rattle.flow_defs.specs.Tables.{table_entry_at as entry_of_table};

use crate::code::Code;
use crate::field::{boundary_named, checked_behind};
use crate::places::contains;
use ot_base::Place;

/// Whether the table ends before entry `i`, whose field is at a place: another table begins there.
fn is_cut(starts: &[Place], field: Place, i: u32) -> bool
    requires { AreByPlace starts.now }
    ensures { result ≡ (nat_lt 0 i && list_any (same_place field) starts.now) }
{
    i > 0 && contains(starts, field)
}

/// Entry `i` of the table that begins at a place: the boundary of a text section that the relocation
/// `R_X86_64_64` of its field names. There is none where `i` is above 0 and the table of a jump begins at
/// that field; `starts` are the places where such tables begin, in their order.
pub(crate) fn table_entry_at(
    code: &Code<'_, '_, '_, '_>,
    starts: &[Place],
    table: Place,
    i: u32,
) -> Option<Place>
    requires sorted { AreByPlace starts.now }
    requires all { AreStarts code.now.index.now.elf code.now.texts.now code.now.sites.now.entries starts.now }
    ensures { result ≡ entry_of_table code.now.index.now.elf code.now.texts.now code.now.sites.now.entries table i }
{
    let field = checked_behind(table, 8 * u64::from(i))?;
    if is_cut(starts, field, i) {
        return None;
    }
    boundary_named(code.index, code.texts, field)
}
