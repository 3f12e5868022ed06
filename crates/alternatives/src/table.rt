//! The points of an object by their numbers.

ghost use Rattle.std.specs.Prelude.{◌≡◌, ◌^◌, ◌≤◌, ◌<◌, ℕ, Some, map, length, slice_get, IfOk, IfSome};
ghost use Rattle.alternatives.specs.Faults.{AreRight};
ghost use Rattle.alternatives.specs.Gathered.{plain_insns};
ghost use Rattle.alternatives.specs.Numbers.{IsNumberOf, IsRunOf};
ghost use Rattle.alternatives.specs.Points.{address_of_point, first_of as first_point, insn_of_point as insn_of_a_point, point_after, points_of as points_in_order};
ghost use Rattle.alternatives.specs.Texts.{text_bytes, AreShort, AscendBySection};
ghost use Rattle.x86_text.specs.InsnLists.{AreNumbered as AreInsnsNumbered};

use crate::near::Blocks;
use crate::point::{Point, count_before, count_to};
use crate::points::list_points;
use crate::stored::StoredPoint;
use crate::texts::SectionText;
use operation_defs::Insn;
use ot_base::{NoMemory, Place};
use special_sections::AltEntry;
use std::alloc::Global;
use std::marker::Model;
use x86_text::{InsnList, NumberedInsns};

/// The points of an object in their order, with their instructions, and its entries. Contracts see it
/// as these lists.
#[derive(Drop)]
pub(crate) struct PointTable {
    points: Vec<StoredPoint>,
    insns: InsnList,
    entries: Vec<AltEntry>,
    blocks: Blocks,
}

impl Model for PointTable {
    ghost use Rattle.alternatives.specs.Numbers.{AreNumbered, PointList};

    ghost Value = { PointList };

    ghost view = { λ t. record { points = t.points.items; insns = t.insns; entries = t.entries.items } };

    ghost invariant = { λ t. AreNumbered t.points.items t.insns t.entries.items };
}

impl PointTable {
    /// The points of an object whose entries are in order, where the instructions of its texts are given, in their order.
    pub(crate) fn build(
        alloc: Global,
        texts: &[SectionText<'_>],
        entries: &[AltEntry],
        insns: InsnList,
    ) -> Result<PointTable, NoMemory>
        requires ascending { AscendBySection texts.now }
        requires short { AreShort texts.now }
        requires bytes { text_bytes texts.now ≤ 16777216 }
        requires few { length entries.now ≤ 8388608 }
        requires right { AreRight texts.now entries.now (length entries.now) }
        requires insns { insns ≡ plain_insns texts.now }
        ensures points { IfOk result (λ t. t.points ≡ points_in_order texts.now entries.now) }
        ensures insns { IfOk result (λ t. map (λ insn. Some insn) t.insns ≡ map (insn_of_a_point texts.now entries.now) t.points) }
        ensures entries { IfOk result (λ t. t.entries ≡ entries.now) }
    {
        let mut blocks = Blocks::new(alloc);
        let listed = list_points(alloc, texts, entries, insns, &mut blocks)?;
        let entries = entries.to_vec(alloc)?;
        Ok(PointTable {
            points: listed.points,
            insns: listed.insns,
            entries,
            blocks,
        })
    }

    /// How many points there are.
    pub(crate) fn point_count(&self) -> u32
        ensures count { result ≡ length self.now.points }
        ensures few { length self.now.points < 2 ^ 32 }
    {
        self.points.len() as u32
    }

    /// The point with this number.
    pub(crate) fn point(&self, n: u32) -> Point
        requires { n < length self.now.points }
        ensures { slice_get self.now.points n ≡ Some result }
    {
        self.points[n as usize].point()
    }

    /// The number of a point.
    pub(crate) fn number_of(&self, point: Point) -> Option<u32>
        ensures { IsNumberOf self.now.points point result }
    {
        if let Some(n) = self.blocks.number_of(&self.points, point) {
            return Some(n);
        }
        match self
            .points
            .binary_search_by_key(&point, |stored| stored.point())
        {
            Ok(n) => Some(n as u32),
            Err(_) => None,
        }
    }

    /// The instruction of a point.
    pub(crate) fn insn_of(&self, n: u32) -> Insn
        requires { n < length self.now.points }
        ensures { slice_get self.now.insns n ≡ Some result }
    {
        self.insns.get(n as usize)
    }

    /// The instructions of the points as they are numbered.
    pub(crate) fn numbered_insns(&self) -> NumberedInsns<'_>
        ensures { AreInsnsNumbered self.now.insns result.kinds.now result.numbers.now }
    {
        self.insns.numbered()
    }

    /// Where a point runs.
    pub(crate) fn address_of(&self, n: u32) -> Place
        requires { n < length self.now.points }
        ensures { IfSome (slice_get self.now.points n) (λ p. result ≡ address_of_point self.now.entries p) }
    {
        let point = self.points[n as usize].point();
        if point.variant == 0 {
            return point.place;
        }
        let entry = &self.entries[point.variant as usize - 1];
        let distance = point.place.off.saturating_sub(entry.replacement.off);
        let off = entry.original.off + distance;
        Place {
            off,
            ..entry.original
        }
    }

    /// The number of the point right behind another, in its text section or its replacement.
    pub(crate) fn number_behind(&self, n: u32) -> Option<u32>
        requires { n < length self.now.points }
        ensures { IfSome (slice_get self.now.points n) (λ p. IfSome (slice_get self.now.insns n) (λ insn. IsNumberOf self.now.points (point_after p insn) result)) }
    {
        let point = self.points[n as usize].point();
        let off = point.place.off + u64::from(self.insns.get(n as usize).len);
        let place = Place { off, ..point.place };
        self.number_of(Point { place, ..point })
    }

    /// How many entries the object has.
    pub(crate) fn entry_count(&self) -> u32
        ensures { result ≡ length self.now.entries }
    {
        self.entries.len() as u32
    }

    /// The number of the first point of the replacement of an entry.
    pub(crate) fn number_of_first(&self, entry: u32) -> Option<u32>
        requires { entry < length self.now.entries }
        ensures { IsNumberOf self.now.points (first_point self.now.entries entry) result }
    {
        let place = self.entries[entry as usize].replacement;
        let variant = entry + 1;
        self.number_of(Point { place, variant })
    }

    /// The numbers of the points at a place: the first, and the one behind the last.
    pub(crate) fn numbers_at(&self, place: Place) -> (u32, u32)
        ensures { IsRunOf self.now.points place result.0 result.1 }
    {
        let points = self.points.as_slice();
        (
            count_before(points, place) as u32,
            count_to(points, place) as u32,
        )
    }
}
