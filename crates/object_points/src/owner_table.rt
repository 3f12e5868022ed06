//! Whose code points are, as a graph has it.

ghost use Rattle.std.specs.Prelude.{◌≡◌, ◌==◌, ◌&&◌, is_some, ◌+◌, ◌*◌, ◌<◌, ◌≤◌, ◌++◌, Bool, Some, true, false, IfOk, IfSome, OnOk, if◌then◌else◌, length, slice_get};
ghost use Rattle.symbols_relocs.specs.Covers.{is_uncovered as is_an_uncovered};
ghost use Rattle.flow_defs.specs.Code.{point_at, points_of_object};
ghost use Rattle.flow_defs.specs.Program.{is_patch_section};
ghost use Rattle.object_points.specs.Owners.{IsOwnerOf, all_owners, fourfold, owner_by};

use crate::PointPlaces;
use crate::code_owners::CodeOwner;
use crate::patch_sections::{is_marked, mark_patch_sections};
use ot_base::{Lists, NoMemory};
use program_graph::Owner;
use std::alloc::Global;
use std::marker::Model;
use symbols_relocs::{CodeNames, Extents, covered_code, named_code};

/// Whose code the points of an object are: for each function, in the order of their starts, and for code of no function four
/// items: outside the sections to which control comes by patching alone and in these, of code that symbols cover and of other.
/// Where the object has loose code, there are as many behind them for that. Contracts see it as the object, the lists of names
/// and the list of these items.
#[derive(Drop)]
pub struct OwnerTable<'p, 'l, 'o, 'a> {
    places: &'p PointPlaces<'l, 'o, 'a>,
    lists: &'p Lists,
    items: &'p [CodeOwner],
    /// For each point the number of its function, or that behind all of them.
    numbers: &'p [u32],
    owners: Vec<Owner>,
    /// For each section whether it is such a section.
    patches: Vec<bool>,
    /// Whether there is loose code, and which is.
    has_loose: bool,
    loose: Extents,
    /// What symbols cover.
    covered: Extents,
}

impl<'p, 'l, 'o, 'a> Model for OwnerTable<'p, 'l, 'o, 'a> {
    ghost use Rattle.std.specs.Coded.{codes};
    ghost use Rattle.ot_base.specs.NameLists.{name_set_code};
    ghost use Rattle.object_points.specs.Owners.{AreOwners, ArePatchSections, OwnerList};

    ghost Value = { OwnerList };

    ghost coded = { Prim.hlevel (codes, name_set_code) };

    ghost view = { λ t. record { object = t.places.now; lists = t.lists.now; owners = t.owners.items } };

    ghost invariant = { λ t. AreOwners t.places.now t.lists.now t.items.now t.numbers.now t.owners.items t.has_loose t.loose t.covered × ArePatchSections t.places.now.elf t.patches.items };
}

/// Whose code that of an item is: loose or other, that no symbol covers or other, and in a section to which control comes by
/// patching alone or in another.
fn owner_in(item: CodeOwner, is_loose: bool, is_uncovered: bool, in_patches: bool) -> Owner
    ensures { result ≡ owner_by item is_loose is_uncovered in_patches }
{
    Owner {
        function: item.function,
        owner: item.owner,
        is_unchecked: item.is_unchecked,
        in_patches,
        is_loose,
        is_uncovered,
    }
}

/// Adds four items for each of these, of loose code or of other.
fn add_owners(owners: &mut Vec<Owner>, items: &[CodeOwner], is_loose: bool) -> Result<(), NoMemory>
    ensures { OnOk result (owners.new.items ≡ owners.old.items ++ fourfold is_loose items.now) }
{
    for k in 0..items.len() {
        let item = items[k];
        owners.push(owner_in(item, is_loose, false, false))?;
        owners.push(owner_in(item, is_loose, false, true))?;
        owners.push(owner_in(item, is_loose, true, false))?;
        owners.push(owner_in(item, is_loose, true, true))?;
    }
    Ok(())
}

/// All items, with those of loose code where there is some.
fn list_owners(alloc: Global, items: &[CodeOwner], has_loose: bool) -> Result<Vec<Owner>, NoMemory>
    ensures { IfOk result (λ owners. owners.items ≡ all_owners has_loose items.now) }
{
    let mut owners = Vec::new(alloc);
    add_owners(&mut owners, items, false)?;
    if has_loose {
        add_owners(&mut owners, items, true)?;
    }
    Ok(owners)
}

/// Whether a variant is that of the object's own code, and there is a function.
fn is_plain_of_function(variant: u32, function: Option<u32>) -> bool
    ensures { result ≡ ((variant == 0) && is_some function) }
{
    variant == 0 && function.is_some()
}

/// Which of the four of an item it is.
fn which(is_uncovered: bool, in_patches: bool) -> u32
    ensures { result ≡ (if is_uncovered then 2 else 0) + (if in_patches then 1 else 0) }
{
    match (is_uncovered, in_patches) {
        (false, false) => 0,
        (false, true) => 1,
        (true, false) => 2,
        (true, true) => 3,
    }
}

impl<'p, 'l, 'o, 'a> OwnerTable<'p, 'l, 'o, 'a> {
    /// Whose code the points of an object are, where lists of names tell which is loose.
    ///
    /// # Errors
    ///
    /// [`NoMemory`] may come at any object.
    pub fn build(
        alloc: Global,
        places: &'p PointPlaces<'l, 'o, 'a>,
        lists: &'p Lists,
    ) -> Result<OwnerTable<'p, 'l, 'o, 'a>, NoMemory>
        ensures object { IfOk result (λ table. table.object ≡ places.now) }
        ensures lists { IfOk result (λ table. table.lists ≡ lists.now) }
    {
        let object = places.linked().object();
        let told = places.code_owners();
        let loose = named_code(alloc, object, lists, CodeNames::Loose)?;
        let covered = covered_code(alloc, object)?;
        let has_loose = !loose.is_empty();
        let owners = list_owners(alloc, told.items, has_loose)?;
        let patches = mark_patch_sections(alloc, object)?;
        Ok(OwnerTable {
            places,
            lists,
            items: told.items,
            numbers: told.numbers,
            owners,
            patches,
            has_loose,
            loose,
            covered,
        })
    }

    /// Whether a point stands in a section to which control comes by patching alone.
    fn is_in_patches(&self, n: u32) -> bool
        requires { n < length (points_of_object self.now.object) }
        ensures { result ≡ is_patch_section self.now.object.elf (point_at self.now.object n).place.sec }
    {
        is_marked(&self.patches, self.places.point(n).place.sec)
    }

    /// Whether a point stands in code that no symbol covers. An instruction of a function doesn't.
    #[inline(always)]
    fn is_uncovered(&self, n: u32) -> bool
        requires { n < length (points_of_object self.now.object) }
        ensures { result ≡ is_an_uncovered self.now.object.elf (point_at self.now.object n).place }
    {
        let point = self.places.point(n);
        if is_plain_of_function(point.variant, self.places.function(n)) {
            return false;
        }
        self.covered.leaves_out(point.place)
    }

    /// The number of the item of a point: that of the place where it runs, and of that where it stands.
    #[inline(always)]
    pub fn number_of(&self, n: u32) -> u32
        requires { n < length (points_of_object self.now.object) }
        ensures inside { result < length self.now.owners }
        ensures item { IfSome (slice_get self.now.owners result) (IsOwnerOf self.now.object self.now.lists n) }
    {
        let own = which(self.is_uncovered(n), self.is_in_patches(n));
        let number = 4 * self.numbers[n as usize] + own;
        if !self.has_loose {
            return number;
        }
        // Whether it runs in loose code.
        if self.loose.contains(self.places.address(n)) {
            4 * self.items.len() as u32 + number
        } else {
            number
        }
    }

    /// The items.
    pub fn into_owners(self) -> Vec<Owner>
        ensures { result.items ≡ self.entry.owners }
    {
        self.owners
    }
}
