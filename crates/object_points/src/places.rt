//! Points by their numbers.

ghost use Rattle.std.specs.Prelude.{◌≡◌, ◌+◌, ◌<◌, ◌≤◌, Some, None, false, length, nat_le, slice_get, IfOk, IfSome};
ghost use Rattle.alternatives.specs.Texts.{is_boundary as is_a_boundary};
ghost use Rattle.alternatives.specs.Points.{address_of_point};
ghost use Rattle.flow_defs.specs.Arrival.{decoded_insn as decoded_insn_of, for_replacements as for_replacements_of, hint_of, is_padding as is_padding_at, own_hint_of, start_hint_of};
ghost use Rattle.flow_defs.specs.Code.{alternatives_of, number_of as number_of_point, plain_point, point_at, points_of_object, texts_of};
ghost use Rattle.object_points.specs.CodeOwners.{IsItemBy, TellOwners};
ghost use Rattle.object_points.specs.Decoded.{AreDecoded};
ghost use Rattle.flow_defs.specs.Owners.{function_of_point, is_entry as is_an_entry, is_unchecked as is_unchecked_by, is_unchecked_point as is_unchecked_at, owner_of_point, unchecked_start as unchecked_starting_at};
ghost use Rattle.flow_defs.specs.Sites.{site_holding};
ghost use Rattle.special_sections.specs.HintStates.{hint_at as hint_at_place};
ghost use Rattle.special_sections.specs.Special.{special_of};

use crate::PlaceSet;
use crate::code_owners::{CodeOwner, CodeOwners, address_of, list_items, list_numbers};
use crate::function_starts::list_starts;
use crate::linked::Linked;
use crate::marked_hints::MarkedHints;
use crate::owner::{is_part, owner_of};
use crate::site_marks::{mark_sites, may_hold};
use crate::unchecked::{is_among, list_unchecked};
use alternatives::{Point, Sites};
use operation_defs::Insn;
use ot_base::{NoMemory, Place};
use state_defs::HintState;
use std::alloc::Global;
use std::marker::Model;
use x86_text::NumberedInsns;

/// The points of an object whose code is read, with who owns them and the hints at them. Contracts see it as the object.
///
/// A point is told by its number, functions and owners by their symbols. It takes 4 bytes for each point and 20 for each
/// function, besides what it says of places. Nothing here takes memory once it is built.
#[derive(Drop)]
pub struct PointPlaces<'l, 'o, 'a> {
    linked: &'l Linked<'o, 'a>,
    starts: PlaceSet,
    unchecked: Vec<u32>,
    /// Whose code that of each function is, and that of no function.
    items: Vec<CodeOwner>,
    /// For each point, which of these items is its own.
    numbers: Vec<u32>,
    hints: MarkedHints,
    /// The marks of the blocks of code are set in which alternatives sites lie: no site holds a place of another block.
    site_marks: Vec<u8>,
}

impl<'l, 'o, 'a> Model for PointPlaces<'l, 'o, 'a> {
    ghost use Rattle.flow_defs.specs.Coded.{Coded};
    ghost use Rattle.object_points.specs.Kept.{IsKept};

    ghost Value = { Coded };

    ghost view = { λ p. p.linked.now };

    ghost invariant = { λ p. IsKept p.linked.now p.starts p.unchecked.items p.items.items p.numbers.items p.hints p.site_marks.items };
}

impl<'l, 'o, 'a> PointPlaces<'l, 'o, 'a> {
    /// The points of an object, with the owners that aren't checked, and its hints.
    ///
    /// # Errors
    ///
    /// [`NoMemory`] may come at any object.
    pub fn build(
        alloc: Global,
        linked: &'l Linked<'o, 'a>,
    ) -> Result<PointPlaces<'l, 'o, 'a>, NoMemory>
        ensures { IfOk result (λ places. places ≡ linked.now) }
    {
        let index = linked.index();
        let starts = list_starts(alloc, index)?;
        let unchecked = list_unchecked(alloc, linked)?;
        let items = list_items(alloc, index, &unchecked)?;
        let numbers = list_numbers(alloc, linked, index, &items)?;
        let hints = MarkedHints::build(alloc, linked.special())?;
        let site_marks = mark_sites(alloc, linked)?;
        Ok(PointPlaces {
            linked,
            starts,
            unchecked,
            items,
            numbers,
            hints,
            site_marks,
        })
    }

    /// The object with its code.
    pub fn linked(&self) -> &'l Linked<'o, 'a>
        ensures { result.now ≡ self.now }
    {
        self.linked
    }

    /// How many points there are.
    pub fn count(&self) -> usize
        ensures { result ≡ length (points_of_object self.now) }
    {
        self.linked.sites().point_count() as usize
    }

    /// The point with a number.
    pub fn point(&self, n: u32) -> Point
        requires { n < length (points_of_object self.now) }
        ensures { result ≡ point_at self.now n }
    {
        self.linked.sites().point(n)
    }

    /// The number of a point.
    pub fn number_of(&self, point: Point) -> Option<u32>
        ensures { result ≡ number_of_point self.now point }
    {
        self.linked.sites().number_of(point)
    }

    /// The number of a point, found at once where it is the guessed one. A wrong guess costs time and nothing else.
    pub fn number_by_guess(&self, point: Point, guess: u32) -> Option<u32>
        ensures { result ≡ number_of_point self.now point }
    {
        if let Some(n) = guessed(self.linked.sites(), point, guess) {
            return Some(n);
        }
        self.number_of(point)
    }

    /// Whether a place is a boundary: an instruction of a text section begins there.
    pub fn is_boundary(&self, place: Place) -> bool
        ensures { result ≡ is_a_boundary (texts_of self.now) place }
    {
        let variant = 0;
        let plain = self.linked.sites().number_of(Point { place, variant });
        plain.is_some()
    }

    /// Whether a place is a boundary, told at once where the guessed point is the plain one there. A wrong guess costs time
    /// and nothing else.
    pub fn is_boundary_by_guess(&self, place: Place, guess: u32) -> bool
        ensures { result ≡ is_a_boundary (texts_of self.now) place }
    {
        let variant = 0;
        let point = Point { place, variant };
        if let Some(_) = guessed(self.linked.sites(), point, guess) {
            return true;
        }
        self.is_boundary(place)
    }

    /// The instruction of a point as it is decoded; of padding, the padding.
    pub fn decoded_insn(&self, n: u32) -> Insn
        requires { n < length (points_of_object self.now) }
        ensures { result ≡ decoded_insn_of self.now (point_at self.now n) }
    {
        self.linked.sites().insn_of(n)
    }

    /// The instructions of the points as they are decoded and numbered: that of each point, in their order, is the one that
    /// stands at its number among those that came.
    pub fn numbered_insns(&self) -> NumberedInsns<'l>
        ensures { AreDecoded self.now result.kinds.now result.numbers.now }
    {
        self.linked.sites().numbered_insns()
    }

    /// Whose code the points are.
    pub fn code_owners(&self) -> CodeOwners<'_>
        ensures told { TellOwners self.now result.items.now result.numbers.now }
        ensures few { length result.items.now ≤ 4194305 }
    {
        // There is an item for each of these functions, and one more.
        self.linked.index().functions();
        CodeOwners {
            items: &self.items,
            numbers: &self.numbers,
        }
    }

    /// Whether a point is the padding behind a replacement.
    pub fn is_padding(&self, n: u32) -> bool
        requires { n < length (points_of_object self.now) }
        ensures { result ≡ is_padding_at self.now (point_at self.now n) }
    {
        let point = self.point(n);
        if point.variant == 0 {
            return false;
        }
        let entry = self.linked.special().alternatives()[point.variant as usize - 1];
        is_behind(
            entry.replacement.off,
            entry.replacement_len,
            point.place.off,
        )
    }

    /// Where a point runs: a point of a replacement runs in the site over which that may be patched.
    pub fn address(&self, n: u32) -> Place
        requires { n < length (points_of_object self.now) }
        ensures { result ≡ address_of_point (alternatives_of self.now) (point_at self.now n) }
    {
        address_of(self.linked, n)
    }

    /// The function of a point: that of the place where it runs.
    pub fn function(&self, n: u32) -> Option<u32>
        requires { n < length (points_of_object self.now) }
        ensures { result ≡ function_of_point self.now (point_at self.now n) }
    {
        self.item(n).function
    }

    /// The owner of a point: its function, or that function's parent where it is a part.
    pub fn owner(&self, n: u32) -> Option<u32>
        requires { n < length (points_of_object self.now) }
        ensures { result ≡ owner_of_point self.now (point_at self.now n) }
    {
        self.item(n).owner
    }

    /// Whether what an owner owns isn't checked: one of its functions is listed as one without a standard frame
    /// (`STACK_FRAME_NON_STANDARD`). Code without owner is checked.
    pub fn is_unchecked(&self, owner: Option<u32>) -> bool
        ensures { result ≡ is_unchecked_by self.now.elf owner }
    {
        match owner {
            Some(owner) => is_among(&self.unchecked, owner),
            None => false,
        }
    }

    /// Whether a point isn't checked.
    pub fn is_unchecked_point(&self, n: u32) -> bool
        requires { n < length (points_of_object self.now) }
        ensures { result ≡ is_unchecked_at self.now (point_at self.now n) }
    {
        self.item(n).is_unchecked
    }

    /// Whose code a point is.
    fn item(&self, n: u32) -> CodeOwner
        requires { n < length (points_of_object self.now) }
        ensures { IsItemBy self.now.elf (function_of_point self.now (point_at self.now n)) (owner_of_point self.now (point_at self.now n)) result }
    {
        self.items[self.numbers[n as usize] as usize]
    }

    /// Whether a point may have an unwind hint, told without a search: where it may not, it has none.
    #[inline(always)]
    pub fn may_have_hint(&self, n: u32) -> bool
        requires { n < length (points_of_object self.now) }
        ensures { result ≡ false → hint_of self.now (point_at self.now n) ≡ None }
    {
        let point = self.point(n);
        if point.variant != 0 {
            return true;
        }
        self.hints.may_have(point.place)
    }

    /// The unwind hint that counts for a point: the one at its own place; where there is none, and it is the first point of a
    /// replacement, the one at the place where its site starts, unless that is a SAVE.
    #[inline(always)]
    pub fn hint(&self, n: u32) -> Option<HintState>
        requires { n < length (points_of_object self.now) }
        ensures { result ≡ hint_of self.now (point_at self.now n) }
    {
        match self.own_hint(n) {
            Some(hint) => Some(hint),
            None => self.start_hint(n),
        }
    }

    /// The unwind hint at the own place of a point. Padding has none.
    #[inline(always)]
    pub fn own_hint(&self, n: u32) -> Option<HintState>
        requires { n < length (points_of_object self.now) }
        ensures { result ≡ own_hint_of self.now (point_at self.now n) }
    {
        if self.is_padding(n) {
            return None;
        }
        self.hint_at(self.point(n).place)
    }

    /// The unwind hint that a point has by the place at which its site starts.
    fn start_hint(&self, n: u32) -> Option<HintState>
        requires { n < length (points_of_object self.now) }
        ensures { result ≡ start_hint_of self.now (point_at self.now n) }
    {
        let point = self.point(n);
        if point.variant == 0 {
            return None;
        }
        let entry = self.linked.special().alternatives()[point.variant as usize - 1];
        if point.place == entry.replacement {
            for_replacements(self.hint_at(entry.original))
        } else {
            None
        }
    }

    /// What the hint at a place does.
    #[inline(always)]
    pub(crate) fn hint_at(&self, place: Place) -> Option<HintState>
        ensures { result ≡ hint_at_place (special_of self.now.elf).hints place }
    {
        self.hints.hint_at(place)
    }

    /// The unwind hint of the plain point at a place: the hint there.
    #[inline(always)]
    pub fn plain_hint(&self, place: Place) -> Option<HintState>
        ensures { result ≡ hint_of self.now (plain_point place) }
    {
        self.hint_at(place)
    }

    /// Whether an alternatives site may hold a place, told without a search: where none may, none does.
    #[inline(always)]
    pub fn may_be_in_site(&self, place: Place) -> bool
        ensures { result ≡ false → site_holding self.now place ≡ None }
    {
        may_hold(&self.site_marks, place)
    }

    /// The function that starts at a place and isn't checked.
    #[inline(always)]
    pub fn unchecked_start(&self, place: Place) -> Option<u32>
        ensures { result ≡ unchecked_starting_at self.now.elf place }
    {
        if !self.starts.may_contain(place) {
            return None;
        }
        self.search_unchecked_start(place)
    }

    /// The same by a search.
    #[inline(never)]
    fn search_unchecked_start(&self, place: Place) -> Option<u32>
        ensures { result ≡ unchecked_starting_at self.now.elf place }
    {
        let index = self.linked.index();
        let Some(function) = index.starts_at(place) else {
            return None;
        };
        if is_among(&self.unchecked, owner_of(index, function)) {
            Some(index.functions()[function as usize].sym)
        } else {
            None
        }
    }

    /// Whether a place is an entry: the start of a function that is no part and is checked.
    #[inline(always)]
    pub fn is_entry(&self, place: Place) -> bool
        ensures { result ≡ is_an_entry self.now.elf place }
    {
        if !self.starts.may_contain(place) {
            return false;
        }
        self.search_entry(place)
    }

    /// The same by a search.
    #[inline(never)]
    fn search_entry(&self, place: Place) -> bool
        ensures { result ≡ is_an_entry self.now.elf place }
    {
        let index = self.linked.index();
        let Some(function) = index.starts_at(place) else {
            return false;
        };
        if is_part(index, function) {
            return false;
        }
        let sym = index.functions()[function as usize].sym;
        !is_among(&self.unchecked, sym)
    }
}

/// A hint at the place where a site starts, where it counts in each of its replacements: any but a SAVE.
fn for_replacements(hint: Option<HintState>) -> Option<HintState>
    ensures { result ≡ for_replacements_of hint }
{
    match hint {
        Some(HintState::Save) | None => None,
        Some(hint) => Some(hint),
    }
}

/// Whether an offset is so many bytes behind another, or further.
fn is_behind(start: u64, len: u8, off: u64) -> bool
    ensures { result ≡ nat_le (start + len) off }
{
    u128::from(start) + u128::from(len) <= u128::from(off)
}

/// A guessed number, where it is that of a point. Of any other nothing is told.
fn guessed(sites: &Sites, point: Point, guess: u32) -> Option<u32>
    ensures { IfSome result (λ n. slice_get sites.now.points n ≡ Some point) }
{
    if guess < sites.point_count() && sites.point(guess) == point {
        return Some(guess);
    }
    None
}
