//! The order of look-up.

ghost use Rattle.std.specs.Prelude.{◌≡◌, ℕ, IsPermutation, OnOk};
ghost use Rattle.orc_walk.specs.Rows.{IsInOrder, row_at, rows_of};

use ot_base::{NoMemory, Row};
use table_defs::codes::KIND_UNDEFINED;

/// Puts items into the order of look-up: by address, and at one address the undefined kind first. Those
/// that tie keep their order, so the row that holds at an address stays the same.
pub(crate) fn sort(items: &mut Vec<(u64, Row)>) -> Result<(), NoMemory>
    ensures moved { IsPermutation items.old.items items.new.items }
    ensures in_order { OnOk result (IsInOrder (rows_of items.new.items)) }
    ensures found { OnOk result ((address : ℕ) → row_at address (rows_of items.new.items)
        ≡ row_at address (rows_of items.old.items)) }
{
    items.sort_by_key(|item| (item.0, item.1.kind != KIND_UNDEFINED))?;
    Ok(())
}
