//! The points of an object, in their order.

ghost use Rattle.std.specs.Prelude.{◌≡◌, ◌+◌, ◌*◌, ◌≤◌, ◌<◌, ◌++◌, ◌∷◌, [], ℕ, true, false, List, Option, Some, filter, map, drop, length, slice_index_or, All, IfOk, OnOk};
ghost use Rattle.std.specs.List.Sorted.{IsPermutation, IsSortedBy};
ghost use Rattle.std.specs.Ordering.{is_lt};
ghost use Rattle.ot_base.specs.Places.{is_before as is_before_place};
ghost use Rattle.operation_defs.specs.declared.insn.Insn.{Insn};
ghost use Rattle.alternatives.specs.declared.point.Point.{Point};
ghost use Rattle.alternatives.specs.Gathered.{is_plain, is_replaced, plain_insns, plain_of, plain_points, replaced_of, replacement_points, woven, AreTold, HaveInsns};
ghost use Rattle.alternatives.specs.Originals.{counts as is_counted, entry_at};
ghost use Rattle.alternatives.specs.Points.{insn_of_point as insn_of_a_point, point_cmp, points_of as points_in_order, IsPoint};
ghost use Rattle.alternatives.specs.Texts.{text_bytes, AreShort, AscendBySection};

use crate::insns::insn_of_point;
use crate::near::{Blocks, OpenBlock};
use crate::original::counts;
use crate::point::Point;
use crate::stored::StoredPoint;
use crate::texts::SectionText;
use ot_base::{NoMemory, Place, is_before};
use special_sections::AltEntry;
use std::alloc::Global;
use x86_text::InsnList;

/// Points with their instructions.
#[derive(Drop)]
pub(crate) struct Listed {
    pub(crate) points: Vec<StoredPoint>,
    pub(crate) insns: InsnList,
}

/// Adds the points of the replacement of an entry.
fn push_replaced(
    points: &mut Vec<StoredPoint>,
    texts: &[SectionText<'_>],
    entries: &[AltEntry],
    entry: u32,
) -> Result<(), NoMemory>
    requires ascending { AscendBySection texts.now }
    requires short { AreShort texts.now }
    requires few { length entries.now ≤ 8388608 }
    requires inside { entry < length entries.now }
    requires near { (entry_at entries.now entry).replacement.off ≤ 16777216 }
    ensures all { OnOk result (points.new.items ≡ points.old.items ++ replaced_of texts.now entries.now entry) }
    ensures few { OnOk result (length points.new.items ≤ length points.old.items + 256) }
{
    let alternative = &entries[entry as usize];
    let start = alternative.replacement;
    for distance in 0..u64::from(alternative.replacement_len) + 1 {
        let off = start.off + distance;
        let place = Place { off, ..start };
        let variant = entry + 1;
        let point = Point { place, variant };
        if insn_of_point(texts, entries, point).is_some() {
            points.push(StoredPoint::new(point))?;
        }
    }
    Ok(())
}

/// The points of replacements, by variant.
fn gather_replaced(
    alloc: Global,
    texts: &[SectionText<'_>],
    entries: &[AltEntry],
) -> Result<Vec<StoredPoint>, NoMemory>
    requires ascending { AscendBySection texts.now }
    requires short { AreShort texts.now }
    requires few { length entries.now ≤ 8388608 }
    requires near { (k : ℕ) → k < length entries.now → is_counted (entry_at entries.now k) ≡ true → (entry_at entries.now k).replacement.off ≤ 16777216 }
    ensures all { IfOk result (λ points. points.items ≡ replacement_points texts.now entries.now) }
    ensures few { IfOk result (λ points. length points.items ≤ 256 * length entries.now) }
{
    let mut points = Vec::new(alloc);
    for entry in 0..entries.len() as u32 {
        if counts(&entries[entry as usize]) {
            push_replaced(&mut points, texts, entries, entry)?;
        }
    }
    Ok(points)
}

/// The instructions of points.
fn insns_of(
    alloc: Global,
    texts: &[SectionText<'_>],
    entries: &[AltEntry],
    points: &[StoredPoint],
) -> Result<InsnList, NoMemory>
    requires ascending { AscendBySection texts.now }
    requires short { AreShort texts.now }
    requires each { All (IsPoint texts.now entries.now) points.now }
    ensures { IfOk result (λ insns. map (λ insn. Some insn) insns ≡ map (insn_of_a_point texts.now entries.now) points.now) }
{
    let mut insns = InsnList::new(alloc)?;
    for point in points {
        if let Some(insn) = insn_of_point(texts, entries, point.point()) {
            insns.push(insn)?;
        }
    }
    Ok(insns)
}

/// The points of replacements, by place and then by variant.
fn list_replaced(
    alloc: Global,
    texts: &[SectionText<'_>],
    entries: &[AltEntry],
) -> Result<Listed, NoMemory>
    requires ascending { AscendBySection texts.now }
    requires short { AreShort texts.now }
    requires few { length entries.now ≤ 8388608 }
    requires near { (k : ℕ) → k < length entries.now → is_counted (entry_at entries.now k) ≡ true → (entry_at entries.now k).replacement.off ≤ 16777216 }
    ensures all { IfOk result (λ l. IsPermutation (replacement_points texts.now entries.now) l.points.items) }
    ensures sorted { IfOk result (λ l. IsSortedBy (λ p q. is_lt (point_cmp p q)) l.points.items) }
    ensures insns { IfOk result (HaveInsns (insn_of_a_point texts.now entries.now)) }
    ensures few { IfOk result (λ l. length l.points.items ≤ 256 * length entries.now) }
{
    let mut points = gather_replaced(alloc, texts, entries)?;
    points.sort_by_key(|point| (point.place(), point.variant()))?;
    let insns = insns_of(alloc, texts, entries, points.as_slice())?;
    Ok(Listed { points, insns })
}

/// No points yet, with room for those of texts and so many others.
fn room_for(
    alloc: Global,
    texts: &[SectionText<'_>],
    others: usize,
) -> Result<Vec<StoredPoint>, NoMemory>
    ensures { IfOk result (λ points. points.items ≡ []) }
{
    let mut count = others;
    for text in texts {
        count = count.saturating_add(text.text.count() as usize);
    }
    Ok(Vec::with_capacity(alloc, count)?)
}

/// Whether there is an other point of this number, at a lower place than a plain point.
#[inline(always)]
fn comes_first(others: &[StoredPoint], n: usize, point: Point) -> bool
    ensures other { result ≡ true → (n < length others.now) × ((d : Point) → is_before_place (slice_index_or others.now n d).place point.place ≡ true) }
    ensures plain { result ≡ false → (rest : List Point) → woven (point ∷ rest) (drop n others.now) ≡ point ∷ woven rest (drop n others.now) }
{
    if n >= others.len() {
        return false;
    }
    is_before(others[n].place(), point.place)
}

/// Adds those of these points, from a number on, that come before a plain point, and tells the number of the next.
#[inline(never)]
fn push_before(
    points: &mut Vec<StoredPoint>,
    others: &[StoredPoint],
    from: usize,
    point: Point,
) -> Result<usize, NoMemory>
    requires { from ≤ length others.now }
    ensures within { IfOk result (λ next. next ≤ length others.now) }
    ensures points { IfOk result (λ next. (rest : List Point) → points.new.items ++ point ∷ woven rest (drop next others.now) ≡ points.old.items ++ woven (point ∷ rest) (drop from others.now)) }
{
    let mut next = from;
    while comes_first(others, next, point) {
        points.push(others[next])?;
        next += 1;
    }
    Ok(next)
}

/// Below which offset the plain points of a section come before the other point of this number.
fn limit_of(others: &[StoredPoint], n: usize, sec: u32) -> u64
    ensures { (p : Point) (rest : List Point) → p.place.sec ≡ sec → p.place.off < result → woven (p ∷ rest) (drop n others.now) ≡ p ∷ woven rest (drop n others.now) }
{
    if n >= others.len() {
        return u64::MAX;
    }
    let other = others[n].place();
    if other.sec > sec {
        return u64::MAX;
    }
    if other.sec < sec {
        return 0;
    }
    other.off.saturating_add(1)
}

/// Adds the points of a text section, and those of these points, from a number on, that come before one of them, and tells
/// the number of the next.
#[inline(always)]
fn push_text(
    points: &mut Vec<StoredPoint>,
    blocks: &mut Blocks,
    text: &SectionText<'_>,
    others: &[StoredPoint],
    from: usize,
) -> Result<usize, NoMemory>
    requires { from ≤ length others.now }
    ensures within { IfOk result (λ next. next ≤ length others.now) }
    ensures points { IfOk result (λ next. (rest : List Point) → points.new.items ++ woven rest (drop next others.now) ≡ points.old.items ++ woven (plain_of text.now ++ rest) (drop from others.now)) }
{
    let sec = text.sec;
    let mut next = from;
    let mut limit = limit_of(others, next, sec);
    let mut block = OpenBlock::before_first();
    let offsets = text.text.offsets();
    for off in offsets {
        let off = u64::from(*off);
        let place = Place { sec, off };
        let variant = 0;
        if off >= limit {
            next = push_before(points, others, next, Point { place, variant })?;
            limit = limit_of(others, next, sec);
        }
        blocks.add(&mut block, place, points.len())?;
        points.push(StoredPoint::new(Point { place, variant }))?;
    }
    blocks.close(block);
    Ok(next)
}

/// The points of texts, and other points among them by place and then by variant.
#[inline(never)]
fn weave_points(
    alloc: Global,
    blocks: &mut Blocks,
    texts: &[SectionText<'_>],
    others: &[StoredPoint],
) -> Result<Vec<StoredPoint>, NoMemory>
    ensures { IfOk result (λ points. points.items ≡ woven (plain_points texts.now) others.now) }
{
    let mut points = room_for(alloc, texts, others.len())?;
    let mut next = 0;
    for text in texts {
        next = push_text(&mut points, blocks, text, others, next)?;
    }
    for n in next..others.len() {
        points.push(others[n])?;
    }
    blocks.end(points.len());
    Ok(points)
}

/// Adds instructions behind others.
fn push_all(insns: &mut InsnList, more: &InsnList) -> Result<(), NoMemory>
    ensures { OnOk result (insns.new ≡ insns.old ++ more.now) }
{
    for n in 0..more.len() {
        insns.push(more.get(n))?;
    }
    Ok(())
}

/// Puts the instructions of replaced points among those of the plain ones, in the order of all points: from the last on, so
/// that none is moved before it is read.
fn weave_insns(
    insns: &mut InsnList,
    points: &[StoredPoint],
    replaced: &InsnList,
) -> Result<(), NoMemory>
    requires plain { length (filter is_plain points.now) ≡ length insns.now }
    requires all { length points.now ≡ length insns.now + length replaced.now }
    ensures { OnOk result ((told : Point → Option Insn) → AreTold told (filter is_plain points.now) insns.old → AreTold told (filter is_replaced points.now) replaced.now → AreTold told points.now insns.new) }
{
    let mut plain = insns.len();
    let mut others = replaced.len();
    push_all(insns, replaced)?;
    while others > 0 {
        let n = plain + others - 1;
        let variant = points[n].variant();
        if variant == 0 {
            plain -= 1;
            insns.set_from(n, plain);
        } else {
            others -= 1;
            insns.set(n, replaced.get(others))?;
        }
    }
    Ok(())
}

/// The points of an object, by place and then by variant, where the instructions of its texts are given, in their order.
pub(crate) fn list_points(
    alloc: Global,
    texts: &[SectionText<'_>],
    entries: &[AltEntry],
    plain: InsnList,
    blocks: &mut Blocks,
) -> Result<Listed, NoMemory>
    requires ascending { AscendBySection texts.now }
    requires short { AreShort texts.now }
    requires few { length entries.now ≤ 8388608 }
    requires near { (k : ℕ) → k < length entries.now → is_counted (entry_at entries.now k) ≡ true → (entry_at entries.now k).replacement.off ≤ 16777216 }
    requires plain { plain ≡ plain_insns texts.now }
    ensures all { IfOk result (λ l. l.points.items ≡ points_in_order texts.now entries.now) }
    ensures insns { IfOk result (HaveInsns (insn_of_a_point texts.now entries.now)) }
    ensures few { IfOk result (λ l. length l.points.items ≤ text_bytes texts.now + 256 * length entries.now) }
{
    let replaced = list_replaced(alloc, texts, entries)?;
    let points = weave_points(alloc, blocks, texts, &replaced.points)?;
    let mut insns = plain;
    weave_insns(&mut insns, &points, &replaced.insns)?;
    Ok(Listed { points, insns })
}
