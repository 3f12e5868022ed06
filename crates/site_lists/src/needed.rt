//! The section symbols that site lists need.

ghost use Rattle.std.specs.Prelude.{◌≡◌, ◌<◌, ◌||◌, All, Bool, IfOk, ℕ, false, length, slice_index_or};
ghost use Rattle.site_lists.specs.Listed.{listed};
ghost use Rattle.site_lists.specs.Needed.{has_place, is_listed, needed_symbols as needed_by};

use crate::SiteLists;
use elf_objects::Object;
use orc_output::symbols::unnamed_sections;
use ot_base::{NoMemory, Place};
use std::alloc::Global;

/// Marks each section in which a list has a place.
fn mark_sections(marks: &mut Vec<bool>, places: &[Place])
    requires { All (λ place. place.sec < length marks.old.items) places.now }
    ensures long { length marks.new.items ≡ length marks.old.items }
    ensures marks { (sec : ℕ) (d : Bool) → sec < length marks.old.items → slice_index_or marks.new.items sec d ≡ (slice_index_or marks.old.items sec d || has_place places.now sec) }
{
    for place in places {
        marks[place.sec as usize] = true;
    }
}

/// For each of so many sections, whether a list has a place there.
fn mark_listed(alloc: Global, count: u32, lists: &SiteLists) -> Result<Vec<bool>, NoMemory>
    requires retpoline { All (λ place. place.sec < count) lists.now.retpoline.items }
    requires returns { All (λ place. place.sec < count) lists.now.returns.items }
    requires calls { All (λ place. place.sec < count) lists.now.calls.items }
    ensures long { IfOk result (λ marks. length marks.items ≡ count) }
    ensures marks { IfOk result (λ marks. (sec : ℕ) → sec < count → slice_index_or marks.items sec false ≡ is_listed (listed lists.now) sec) }
{
    let mut marks = vec![in alloc; false; count as usize]?;
    mark_sections(&mut marks, &lists.retpoline);
    mark_sections(&mut marks, &lists.returns);
    mark_sections(&mut marks, &lists.calls);
    Ok(marks)
}

/// The sections that a list names and that have no section symbol, ascending.
pub(crate) fn needed_symbols(
    alloc: Global,
    object: &Object<'_>,
    lists: &SiteLists,
) -> Result<Vec<u32>, NoMemory>
    requires retpoline { All (λ place. place.sec < length object.now.sections) lists.now.retpoline.items }
    requires returns { All (λ place. place.sec < length object.now.sections) lists.now.returns.items }
    requires calls { All (λ place. place.sec < length object.now.sections) lists.now.calls.items }
    ensures { IfOk result (λ secs. secs.items ≡ needed_by object.now (listed lists.now)) }
{
    let marks = mark_listed(alloc, object.sections(), lists)?;
    unnamed_sections(alloc, object, &marks)
}
