//! What the special sections of an object say.

ghost use Rattle.std.specs.Prelude.{◌≡◌, [], filter, IfOk, IfErr, OnOk};
ghost use Rattle.special_sections.specs.Fields.{is_text_place as is_in_text};
ghost use Rattle.special_sections.specs.Reasons.{TellsFirst};
ghost use Rattle.special_sections.specs.Special.{list_faults, special_faults, special_of};
ghost use Rattle.special_sections.specs.RightTables.{HasRightTables};

use crate::entries::{AltEntry, BranchEntry, FixEntry, HintEntry};
use crate::fault::SpecialFault;
use crate::fields::{Bound, is_text_place};
use crate::hints::read_hints;
use crate::lists::{Judged, PlaceList};
use crate::nested::nest;
use crate::read::read_all;
use crate::tables::{Alternatives, Branches, Fixes};
use elf_objects::Object;
use ot_base::{Lists, Place};
use std::alloc::Global;
use std::marker::Model;

/// Places behind which code goes on.
const REACHABLE: PlaceList = PlaceList {
    name: b".discard.reachable",
    judged: Judged::UpToItsEnd,
};

/// Places behind which code doesn't go on.
const UNREACHABLE: PlaceList = PlaceList {
    name: b".discard.unreachable",
    judged: Judged::UpToItsEnd,
};

/// Functions that are not checked.
const UNCHECKED: PlaceList = PlaceList {
    name: b".discard.func_stack_frame_non_standard",
    judged: Judged::Anywhere,
};

/// Indirect branches and returns that may stay.
const SAFE_BRANCHES: PlaceList = PlaceList {
    name: b".discard.retpoline_safe",
    judged: Judged::InText,
};

/// Calls by which a function only pushes an address.
const INTRA_CALLS: PlaceList = PlaceList {
    name: b".discard.intra_function_calls",
    judged: Judged::InText,
};

/// The entries of the tables.
#[derive(Drop)]
struct Tables {
    alternatives: Vec<AltEntry>,
    branches: Vec<BranchEntry>,
    fixes: Vec<FixEntry>,
    hints: Vec<HintEntry>,
}

/// The entries of the lists of places.
#[derive(Drop)]
struct Places {
    after_reachable: Vec<Place>,
    after_unreachable: Vec<Place>,
    unchecked: Vec<Place>,
    safe_branches: Vec<Place>,
    intra_calls: Vec<Place>,
}

/// The entries of the special sections of an object, each kind by section and then by their order in it.
/// Contracts see it as the lists of them.
#[derive(Drop)]
pub struct Special {
    tables: Tables,
    places: Places,
}

impl Model for Special {
    ghost use Rattle.special_sections.specs.Special.{SpecialEntries};

    ghost Value = { SpecialEntries };

    ghost view = { λ s. record {
      alternatives = s.tables.alternatives.items;
      branches = s.tables.branches.items;
      fixes = s.tables.fixes.items;
      hints = s.tables.hints.items;
      after_reachable = s.places.after_reachable.items;
      after_unreachable = s.places.after_unreachable.items;
      unchecked = s.places.unchecked.items;
      safe_branches = s.places.safe_branches.items;
      intra_calls = s.places.intra_calls.items;
    } };
}

impl Tables {
    /// The entries of the tables of an object under lists of names, or the first fault of one of them.
    fn read(alloc: Global, object: &Object<'_>, lists: &Lists) -> Result<Tables, SpecialFault>
        ensures alternatives { IfOk result (λ t. t.alternatives.items ≡ (special_of object.now).alternatives) }
        ensures branches { IfOk result (λ t. t.branches.items ≡ (special_of object.now).branches) }
        ensures fixes { IfOk result (λ t. t.fixes.items ≡ (special_of object.now).fixes) }
        ensures hints { IfOk result (λ t. t.hints.items ≡ (special_of object.now).hints) }
        ensures right { OnOk result (HasRightTables object.now lists.now) }
        ensures err { IfErr result (TellsFirst (special_faults object.now lists.now)) }
    {
        let alternatives = read_all(alloc, object, &Alternatives)?;
        let branches = read_all(alloc, object, &Branches)?;
        let fixes = read_all(alloc, object, &Fixes)?;
        let hints = read_hints(alloc, object, lists)?;
        Ok(Tables {
            alternatives: nest(alloc, &alternatives)?,
            branches,
            fixes,
            hints,
        })
    }
}

impl Places {
    /// The entries of the lists of an object, or the first fault of one of them.
    fn read(alloc: Global, object: &Object<'_>) -> Result<Places, SpecialFault>
        ensures after_reachable { IfOk result (λ p. p.after_reachable.items ≡ (special_of object.now).after_reachable) }
        ensures after_unreachable { IfOk result (λ p. p.after_unreachable.items ≡ (special_of object.now).after_unreachable) }
        ensures unchecked { IfOk result (λ p. p.unchecked.items ≡ (special_of object.now).unchecked) }
        ensures safe_branches { IfOk result (λ p. p.safe_branches.items ≡ (special_of object.now).safe_branches) }
        ensures intra_calls { IfOk result (λ p. p.intra_calls.items ≡ (special_of object.now).intra_calls) }
        ensures right { OnOk result (list_faults object.now ≡ []) }
        ensures err { IfErr result (TellsFirst (list_faults object.now)) }
    {
        let after_reachable = read_all(alloc, object, &REACHABLE)?;
        let after_unreachable = read_all(alloc, object, &UNREACHABLE)?;
        let unchecked = read_all(alloc, object, &UNCHECKED)?;
        let safe_branches = read_all(alloc, object, &SAFE_BRANCHES)?;
        let intra_calls = read_all(alloc, object, &INTRA_CALLS)?;
        Ok(Places {
            after_reachable,
            after_unreachable,
            unchecked: text_places(alloc, object, &unchecked)?,
            safe_branches,
            intra_calls,
        })
    }
}

impl Special {
    /// Reads the special sections of an object. Lists of names say which code is loose, where hints may be written in any way.
    ///
    /// Sections of one name are read in ascending order. Entries are refused in the order of
    /// `special_faults`: by kind, then by section, then by entry.
    ///
    /// # Errors
    ///
    /// The first fault in that order; [`SpecialFault::NoMemory`] may come at any object.
    pub fn read(alloc: Global, object: &Object<'_>, lists: &Lists) -> Result<Special, SpecialFault>
        ensures ok { IfOk result (λ special. special ≡ special_of object.now) }
        ensures right { OnOk result (special_faults object.now lists.now ≡ []) }
        ensures err { IfErr result (TellsFirst (special_faults object.now lists.now)) }
    {
        let tables = Tables::read(alloc, object, lists)?;
        let places = Places::read(alloc, object)?;
        Ok(Special { tables, places })
    }

    /// The alternatives, `.altinstructions`. The originals of one place have the length of the longest there.
    pub fn alternatives(&self) -> &[AltEntry]
        ensures { result.now ≡ self.now.alternatives }
    {
        &self.tables.alternatives
    }

    /// The static branches, `__jump_table`.
    pub fn branches(&self) -> &[BranchEntry]
        ensures { result.now ≡ self.now.branches }
    {
        &self.tables.branches
    }

    /// The exception entries, `__ex_table`.
    pub fn fixes(&self) -> &[FixEntry]
        ensures { result.now ≡ self.now.fixes }
    {
        &self.tables.fixes
    }

    /// The hints on the stack, `.discard.unwind_hints`: of several at one place the last one counts.
    pub fn hints(&self) -> &[HintEntry]
        ensures { result.now ≡ self.now.hints }
    {
        &self.tables.hints
    }

    /// The ends of instructions behind which code goes on, `.discard.reachable`.
    pub fn after_reachable(&self) -> &[Place]
        ensures { result.now ≡ self.now.after_reachable }
    {
        &self.places.after_reachable
    }

    /// The ends of instructions behind which code doesn't go on, `.discard.unreachable`.
    pub fn after_unreachable(&self) -> &[Place]
        ensures { result.now ≡ self.now.after_unreachable }
    {
        &self.places.after_unreachable
    }

    /// The starts of functions that are not checked, `.discard.func_stack_frame_non_standard`. What isn't
    /// in a text section, below its size, is passed by.
    pub fn unchecked(&self) -> &[Place]
        ensures { result.now ≡ self.now.unchecked }
    {
        &self.places.unchecked
    }

    /// The indirect branches and returns that may stay as they are, `.discard.retpoline_safe`.
    pub fn safe_branches(&self) -> &[Place]
        ensures { result.now ≡ self.now.safe_branches }
    {
        &self.places.safe_branches
    }

    /// The calls by which a function only pushes an address, `.discard.intra_function_calls`.
    pub fn intra_calls(&self) -> &[Place]
        ensures { result.now ≡ self.now.intra_calls }
    {
        &self.places.intra_calls
    }
}

/// Those of some places that are in a text section, below its size.
fn text_places(
    alloc: Global,
    object: &Object<'_>,
    places: &[Place],
) -> Result<Vec<Place>, SpecialFault>
    ensures ok { IfOk result (λ list. list.items ≡ filter (is_in_text object.now Bound.BelowEnd) places.now) }
    ensures err { IfErr result (λ e. e ≡ SpecialFault.NoMemory) }
{
    let mut list = Vec::new(alloc);
    for place in places {
        if is_text_place(object, Bound::BelowEnd, *place) {
            list.push(*place)?;
        }
    }
    Ok(list)
}
