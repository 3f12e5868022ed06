//! The sites of an object, with their entries.

ghost use Rattle.std.specs.Prelude.{◌≡◌, ◌^◌, ◌<◌, ◌≤◌, ℕ, Some, map, true, false, length, slice_get, slice_index_or, IfOk, IfErr, IfSome, OnOk, MatchOption};
ghost use Rattle.alternatives.specs.Faults.{AreRight, IsFirstFault};
ghost use Rattle.alternatives.specs.Gathered.{plain_insns};
ghost use Rattle.alternatives.specs.Numbers.{IsNumberOf, IsRunOf};
ghost use Rattle.alternatives.specs.Points.{address_of_point, entries_from, first_of, insn_of_point, point_after, points_of};
ghost use Rattle.alternatives.specs.Sites.{in_alternatives_site, is_in_site as lies_in_site, AreSitesOf};
ghost use Rattle.alternatives.specs.Texts.{text_bytes, AreShort, AscendBySection};
ghost use Rattle.alternatives.specs.declared.original.Original.{Original};
ghost use Rattle.alternatives.specs.declared.site.AlternativesSite.{AlternativesSite};
ghost use Rattle.x86_text.specs.InsnLists.{AreNumbered as AreInsnsNumbered};

use crate::check::check_entries;
use crate::fault::SiteFault;
use crate::near::Blocks;
use crate::original::{Original, sorted_originals};
use crate::overlap::find_overlap;
use crate::point::Point;
use crate::site::{AlternativesSite, find_site, group_sites, numbers_from};
use crate::table::PointTable;
use crate::texts::SectionText;
use operation_defs::Insn;
use ot_base::{NoMemory, Place};
use special_sections::{AltEntry, Special};
use std::alloc::Global;
use std::marker::Model;
use x86_text::{InsnList, NumberedInsns};

/// The alternatives sites of an object, and the points of its code. Contracts see them as the lists of the
/// sites, of the numbers of their entries, of the points with their instructions, and of all entries.
#[derive(Drop)]
pub struct Sites {
    sites: Vec<AlternativesSite>,
    entry_numbers: Vec<u32>,
    blocks: Blocks,
    table: PointTable,
}

impl Model for Sites {
    ghost use Rattle.std.specs.Prelude.{◌<◌, ◌≤◌, ◌^◌, length};
    ghost use Rattle.alternatives.specs.Sites.{AreSitesOf, SiteList};

    ghost Value = { SiteList };

    ghost view = { λ s. record {
      sites = s.sites.items;
      entry_numbers = s.entry_numbers.items;
      points = s.table.points;
      insns = s.table.insns;
      entries = s.table.entries;
    } };

    ghost invariant = { λ s. (length s.sites.items < 2 ^ 32) × (length s.entry_numbers.items ≤ 8388608) × AreSitesOf s.table.entries s.sites.items s.entry_numbers.items };
}

impl Sites {
    /// The sites of the entries of an object's special sections, where each entry is in order.
    ///
    /// `texts` has each text section once, ascending by section; together they have at most 16,777,216
    /// bytes. `insns` has all their instructions, in their order. The object has at most 8,388,608 alternatives. So there are fewer than 2^32 points.
    ///
    /// # Errors
    ///
    /// The first entry that is refused, with the first reason; [`SiteFault::NoMemory`] may come at any
    /// object.
    pub fn build(
        alloc: Global,
        special: &Special,
        texts: &[SectionText<'_>],
        insns: InsnList,
    ) -> Result<Sites, SiteFault>
        requires ascending { AscendBySection texts.now }
        requires bytes { text_bytes texts.now ≤ 16777216 }
        requires insns { insns ≡ plain_insns texts.now }
        requires few { length special.now.alternatives ≤ 8388608 }
        ensures sites { IfOk result (λ s. AreSitesOf special.now.alternatives s.sites s.entry_numbers) }
        ensures points { IfOk result (λ s. s.points ≡ points_of texts.now special.now.alternatives) }
        ensures insns { IfOk result (λ s. map (λ insn. Some insn) s.insns ≡ map (insn_of_point texts.now special.now.alternatives) s.points) }
        ensures entries { IfOk result (λ s. s.entries ≡ special.now.alternatives) }
        ensures right { OnOk result (AreRight texts.now special.now.alternatives (length special.now.alternatives)) }
        ensures err { IfErr result (IsFirstFault texts.now special.now.alternatives) }
    {
        build_sites(alloc, special.alternatives(), texts, insns)
    }

    /// The sites, ascending.
    pub fn sites(&self) -> &[AlternativesSite]
        ensures { result.now ≡ self.now.sites }
    {
        &self.sites
    }

    /// The number of the site that holds a place.
    pub fn site_number_at(&self, place: Place) -> Option<u32>
        ensures { MatchOption result ((k : ℕ) (d : AlternativesSite) → k < length self.now.sites → in_alternatives_site (slice_index_or self.now.sites k d) place ≡ false) (λ i. (i < length self.now.sites) × ((d : AlternativesSite) → in_alternatives_site (slice_index_or self.now.sites i d) place ≡ true)) }
    {
        let (near, _) = self.blocks.numbers(place);
        find_site(self.sites.as_slice(), place, near as usize)
    }

    /// Whether a place lies in a site.
    pub fn is_in_site(&self, place: Place) -> bool
        ensures { result ≡ lies_in_site self.now.entries place }
    {
        let (near, _) = self.blocks.numbers(place);
        find_site(self.sites.as_slice(), place, near as usize).is_some()
    }

    /// The numbers of the entries that have an original, by site, and those of one site ascending.
    pub fn entry_numbers(&self) -> &[u32]
        ensures { result.now ≡ self.now.entry_numbers }
    {
        &self.entry_numbers
    }

    /// The numbers of the entries whose original begins at a place, ascending.
    pub fn entries_at(&self, place: Place) -> &[u32]
        ensures { result.now ≡ entries_from self.now.entries place }
    {
        let (near, _) = self.blocks.numbers(place);
        numbers_from(&self.sites, &self.entry_numbers, place, near as usize)
    }

    /// How many points the object's code has.
    pub fn point_count(&self) -> u32
        ensures count { result ≡ length self.now.points }
        ensures few { length self.now.points < 2 ^ 32 }
    {
        self.table.point_count()
    }

    /// The point with this number. The numbers go by place and then by variant, from 0 on.
    pub fn point(&self, n: u32) -> Point
        requires { n < length self.now.points }
        ensures { slice_get self.now.points n ≡ Some result }
    {
        self.table.point(n)
    }

    /// The number of a point.
    pub fn number_of(&self, point: Point) -> Option<u32>
        ensures { IsNumberOf self.now.points point result }
    {
        self.table.number_of(point)
    }

    /// The instruction of the point with this number.
    pub fn insn_of(&self, n: u32) -> Insn
        requires { n < length self.now.points }
        ensures { slice_get self.now.insns n ≡ Some result }
    {
        self.table.insn_of(n)
    }

    /// The instructions of the points as they are numbered: for each point, in their order, where its own stands among those
    /// that came.
    pub fn numbered_insns(&self) -> NumberedInsns<'_>
        ensures { AreInsnsNumbered self.now.insns result.kinds.now result.numbers.now }
    {
        self.table.numbered_insns()
    }

    /// Where the point with this number runs: in the code as it is assembled, at its place; in a
    /// replacement, in the site, as far behind its start as the point is behind the replacement's.
    pub fn address_of(&self, n: u32) -> Place
        requires { n < length self.now.points }
        ensures { IfSome (slice_get self.now.points n) (λ p. result ≡ address_of_point self.now.entries p) }
    {
        self.table.address_of(n)
    }

    /// The number of the point right behind the one with this number, in its text section or its
    /// replacement.
    pub fn number_behind(&self, n: u32) -> Option<u32>
        requires { n < length self.now.points }
        ensures { IfSome (slice_get self.now.points n) (λ p. IfSome (slice_get self.now.insns n) (λ insn. IsNumberOf self.now.points (point_after p insn) result)) }
    {
        self.table.number_behind(n)
    }

    /// How many entries the object has, also those without an original.
    pub fn entry_count(&self) -> u32
        ensures { result ≡ length self.now.entries }
    {
        self.table.entry_count()
    }

    /// The number of the first point of the replacement of an entry.
    pub fn number_of_first(&self, entry: u32) -> Option<u32>
        requires { entry < length self.now.entries }
        ensures { IsNumberOf self.now.points (first_of self.now.entries entry) result }
    {
        self.table.number_of_first(entry)
    }

    /// The numbers of the points at a place: the first, and the one behind the last.
    pub fn numbers_at(&self, place: Place) -> (u32, u32)
        ensures { IsRunOf self.now.points place result.0 result.1 }
    {
        self.table.numbers_at(place)
    }
}

/// The numbers of the entries of originals.
fn numbers_of(alloc: Global, originals: &[Original]) -> Result<Vec<u32>, NoMemory>
    ensures { IfOk result (λ numbers. numbers.items ≡ map (λ (o : Original). o.entry) originals.now) }
{
    let mut numbers = Vec::new(alloc);
    for original in originals {
        numbers.push(original.entry)?;
    }
    Ok(numbers)
}

/// The sites of entries, where each entry is in order.
pub(crate) fn build_sites(
    alloc: Global,
    entries: &[AltEntry],
    texts: &[SectionText<'_>],
    insns: InsnList,
) -> Result<Sites, SiteFault>
    requires insns { insns ≡ plain_insns texts.now }
    requires ascending { AscendBySection texts.now }
    requires short { AreShort texts.now }
    requires bytes { text_bytes texts.now ≤ 16777216 }
    requires few { length entries.now ≤ 8388608 }
    ensures sites { IfOk result (λ s. AreSitesOf entries.now s.sites s.entry_numbers) }
    ensures points { IfOk result (λ s. s.points ≡ points_of texts.now entries.now) }
    ensures insns { IfOk result (λ s. map (λ insn. Some insn) s.insns ≡ map (insn_of_point texts.now entries.now) s.points) }
    ensures entries { IfOk result (λ s. s.entries ≡ entries.now) }
    ensures right { OnOk result (AreRight texts.now entries.now (length entries.now)) }
    ensures err { IfErr result (IsFirstFault texts.now entries.now) }
{
    let originals = sorted_originals(alloc, entries)?;
    let overlap = find_overlap(alloc, entries, originals.as_slice())?;
    check_entries(texts, entries, overlap)?;
    let sites = group_sites(alloc, originals.as_slice())?;
    let entry_numbers = numbers_of(alloc, originals.as_slice())?;
    let blocks = Blocks::of_sites(alloc, sites.as_slice())?;
    let table = PointTable::build(alloc, texts, entries, insns)?;
    Ok(Sites {
        sites,
        entry_numbers,
        blocks,
        table,
    })
}
