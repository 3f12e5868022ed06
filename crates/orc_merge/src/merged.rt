//! The rows of several objects as one table.

ghost use Rattle.std.specs.Prelude.{◌≡◌, ◌⊎◌, ◌^◌, ◌<◌, None, Some, All, IfErr, IfOk, OnOk, length};
ghost use Rattle.orc_walk.specs.Cost.{ReadsFew};
ghost use Rattle.orc_walk.specs.Rows.{row_at};
ghost use Rattle.orc_merge.specs.Alike.{TellsAlike};
ghost use Rattle.orc_merge.specs.Merged.{IsMergeOf};
ghost use Rattle.orc_merge.specs.MergeFaults.{merge_fault, number_of_rows, too_many};
ghost use Rattle.orc_merge.specs.Parts.{AreRows, AreWithin, all_ranges};
ghost use Rattle.orc_merge.specs.declared.faults.MergeFault.TheVariants.{NoMemory as no_memory};

use crate::addresses::{items_of, sort};
use crate::ends::check_ends;
use crate::faults::MergeFault;
use crate::overlaps::check_overlaps;
use crate::part::Part;
use crate::places::check_places;
use orc_walk::find_in;
use ot_base::{Row, Tape};
use std::alloc::Global;
use std::marker::Model;

/// How many rows a table has at most.
pub const MOST_ROWS: u64 = 4_000_000;

/// The rows of several objects at their addresses, as one table: by address, at one address those of the undefined kind first, and
/// those that tie by object, and of one object in its order.
#[derive(Drop)]
pub struct Merged {
    pub(crate) tape: Tape,
}

impl Model for Merged {
    ghost use Rattle.orc_walk.specs.Rows.{rows_of};
    ghost use Rattle.orc_merge.specs.Merged.{IsMergedTable, MergedTable};

    ghost Value = { MergedTable };

    ghost view = { λ m. record { rows = rows_of m.tape.items; reads = m.tape.reads } };

    ghost invariant = { λ m. IsMergedTable (rows_of m.tape.items) };
}

/// How many rows the objects have, where there aren't too many.
fn row_count(parts: &[Part]) -> Result<usize, MergeFault>
    requires number { length parts.now < 2 ^ 32 }
    requires rows { All (λ part. length part.rows.items < 2 ^ 32) parts.now }
    ensures fits { OnOk result (too_many parts.now ≡ None) }
    ensures count { IfOk result (λ count. count ≡ number_of_rows parts.now) }
    ensures fault { IfErr result (λ fault. too_many parts.now ≡ Some fault) }
{
    let mut count = 0;
    for part in parts {
        count += part.rows.as_slice().len() as u64;
    }
    if count <= MOST_ROWS {
        Ok(count as usize)
    } else {
        Err(MergeFault::TooMany { count })
    }
}

impl Merged {
    /// The merged rows of these objects. No row lies behind its section's range. Refused are, in this order: the first object whose
    /// rows can't be placed; the first section that isn't ended; the first range that shares an address with one of an earlier
    /// object; more than `MOST_ROWS` rows.
    pub fn merge(alloc: Global, parts: &[Part]) -> Result<Merged, MergeFault>
        requires number { length parts.now < 2 ^ 32 }
        requires rows { All (λ part. length part.rows.items < 2 ^ 32) parts.now }
        requires ranges { length (all_ranges parts.now) < 2 ^ 32 }
        requires within { All AreWithin parts.now }
        requires held { All AreRows parts.now }
        ensures fits { OnOk result (merge_fault parts.now ≡ None) }
        ensures rows { IfOk result (λ merged. IsMergeOf parts.now merged.rows) }
        ensures unread { IfOk result (λ merged. merged.reads ≡ 0) }
        ensures fault { IfErr result (λ fault. (fault ≡ no_memory)
            ⊎ (merge_fault parts.now ≡ Some fault)) }

        // At each address inside one of its ranges each object's own rows tell the same.
        ensures alike { IfOk result (λ merged. All (λ part. TellsAlike part merged.rows) parts.now) }
    {
        check_places(alloc, parts)?;
        check_ends(alloc, parts)?;
        check_overlaps(alloc, parts)?;
        let count = row_count(parts)?;
        let mut items = items_of(alloc, parts, count)?;
        sort(&mut items)?;
        Ok(Merged {
            tape: Tape::build(items),
        })
    }

    /// The row that holds at an address: the last one at or below it. None where there is none.
    pub fn find(&mut self, addr: u64) -> Option<Row>
        ensures found { result ≡ row_at addr self.old.rows }
        ensures only_reads { self.new ≡ record self.old { reads = self.new.reads } }
        ensures counted { ReadsFew (length self.old.rows) self.old.reads self.new.reads }
    {
        find_in(&mut self.tape, &[], addr)
    }

    /// How many rows were read so far.
    pub fn reads(&self) -> u64
        ensures { result ≡ self.now.reads }
    {
        self.tape.reads()
    }
}
