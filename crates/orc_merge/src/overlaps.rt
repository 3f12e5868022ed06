//! Which ranges of several objects share an address.

ghost use Rattle.std.specs.Prelude.{◌≡◌, ◌⊎◌, ◌^◌, ◌<◌, ◌++◌, None, Some, [], All, IfErr, IfOk, OnOk, length};
ghost use Rattle.orc_walk.specs.Table.{IsLaidOut};
ghost use Rattle.orc_merge.specs.Overlaps.{first_overlap, numbered};
ghost use Rattle.orc_merge.specs.Parts.{all_ranges, owned_ranges};
ghost use Rattle.orc_merge.specs.declared.faults.MergeFault.TheVariants.{NoMemory as no_memory};

use crate::faults::MergeFault;
use crate::part::Part;
use orc_walk::{PlaceFault, PlaceWhy, Table};
use ot_base::NoMemory;
use std::alloc::Global;
use table_defs::Range;

/// Appends ranges, each with the number of the object that has it.
fn add_ranges(number: u32, ranges: &[Range], owned: &mut Vec<(u32, Range)>) -> Result<(), NoMemory>
    ensures { OnOk result (owned.new.items ≡ owned.old.items ++ owned_ranges number ranges.now) }
{
    for range in ranges {
        owned.push((number, *range))?;
    }
    Ok(())
}

/// The ranges of all objects, each with the number of the object that has it.
fn owned_ranges(alloc: Global, parts: &[Part]) -> Result<Vec<(u32, Range)>, NoMemory>
    requires { length parts.now < 2 ^ 32 }
    ensures { IfOk result (λ owned. owned.items ≡ all_ranges parts.now) }
{
    let mut owned = Vec::new(alloc);
    for (number, part) in parts.iter().enumerate() {
        add_ranges(number as u32, &part.ranges, &mut owned)?;
    }
    Ok(owned)
}

/// These ranges, each with its place in the list as its section's number.
fn numbered(alloc: Global, owned: &[(u32, Range)]) -> Result<Vec<Range>, NoMemory>
    requires { length owned.now < 2 ^ 32 }
    ensures { IfOk result (λ ranges. ranges.items ≡ numbered 0 owned.now) }
{
    let mut ranges = Vec::with_capacity(alloc, owned.len())?;
    for (number, one) in owned.iter().enumerate() {
        let (_part, range) = *one;
        ranges.push(Range {
            sec: number as u32,
            base: range.base,
            size: range.size,
        })?;
    }
    Ok(ranges)
}

/// Looks for ranges that share an address with one of an earlier object, or tells the first. The ranges of each object by itself
/// are laid out.
///
/// They are all placed as those of one object, with no row, and their places in the list of all ranges as the numbers of their
/// sections.
pub(crate) fn check_overlaps(alloc: Global, parts: &[Part]) -> Result<(), MergeFault>
    requires number { length parts.now < 2 ^ 32 }
    requires ranges { length (all_ranges parts.now) < 2 ^ 32 }
    requires laid_out { All (λ part. IsLaidOut part.ranges.items) parts.now }
    ensures fits { OnOk result (first_overlap [] (all_ranges parts.now) ≡ None) }
    ensures fault { IfErr result (λ fault. (fault ≡ no_memory)
        ⊎ (first_overlap [] (all_ranges parts.now) ≡ Some fault)) }
{
    let owned = owned_ranges(alloc, parts)?;
    let ranges = numbered(alloc, &owned)?;
    match Table::place(alloc, &[], &ranges) {
        Err(
            PlaceFault::At {
                sec,
                why: PlaceWhy::Overlaps { other },
            },
        ) => {
            let (part, range) = owned[sec as usize];
            let (other_part, other_range) = owned[other as usize];
            Err(MergeFault::Overlaps {
                part,
                sec: range.sec,
                other_part,
                other_sec: other_range.sec,
            })
        }
        Err(_fault) => Err(MergeFault::NoMemory),
        Ok(_table) => Ok(()),
    }
}
