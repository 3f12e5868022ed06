//! Whose code the points of an object are.

ghost use Rattle.std.specs.Prelude.{◌≡◌, ◌<◌, ◌≤◌, None, Some, IfOk, IfSome, length, unwrap_or};
ghost use Rattle.elf_objects.specs.Elf.{Elf};
ghost use Rattle.symbols_relocs.specs.Lists.{symbol_of};
ghost use Rattle.symbols_relocs.specs.Parts.{owner_of as owner_of_function};
ghost use Rattle.alternatives.specs.Points.{address_of_point};
ghost use Rattle.flow_defs.specs.Code.{alternatives_of, point_at, points_of_object};
ghost use Rattle.object_points.specs.CodeOwners.{AreItems, IsBetween, IsItemBy, TellsOwners, TellOwners};
ghost use Rattle.object_points.specs.Unchecked.{AreUnchecked};

use crate::linked::Linked;
use crate::owner::owner_of;
use crate::unchecked::is_among;
use ot_base::{NoMemory, Place};
use std::alloc::Global;
use symbols_relocs::Index;

/// Whose code that of a function is, or code of no function.
#[derive(Clone, Copy)]
pub struct CodeOwner {
    /// The function, by its symbol.
    pub function: Option<u32>,
    /// Its owner, by its symbol.
    pub owner: Option<u32>,
    /// Whether what that owns isn't checked.
    pub is_unchecked: bool,
}

/// Whose code the points of an object are.
#[derive(Clone, Copy)]
pub struct CodeOwners<'p> {
    /// Whose code that of each function is, in the order of their starts, and behind these whose code of no function is.
    pub items: &'p [CodeOwner],
    /// For each point, which of these items is that of the place where it runs.
    pub numbers: &'p [u32],
}

/// Whose code that of the function with an index is.
fn item_of(index: &Index<'_, '_>, unchecked: &[u32], function: u32) -> CodeOwner
    requires unchecked { AreUnchecked index.now.elf unchecked.now }
    requires inside { function < length index.now.functions }
    ensures { IsItemBy index.now.elf (Some (symbol_of index.now.functions function)) (Some (owner_of_function index.now.elf (symbol_of index.now.functions function))) result }
{
    let owner = owner_of(index, function);
    CodeOwner {
        function: Some(index.functions()[function as usize].sym),
        owner: Some(owner),
        is_unchecked: is_among(unchecked, owner),
    }
}

/// Whose code that of no function is.
fn no_item() -> CodeOwner
    ensures { (o : Elf) → IsItemBy o None None result }
{
    CodeOwner {
        function: None,
        owner: None,
        is_unchecked: false,
    }
}

/// Whose code that of each function is, in the order of their starts, and behind these whose code of no function is.
pub(crate) fn list_items(
    alloc: Global,
    index: &Index<'_, '_>,
    unchecked: &[u32],
) -> Result<Vec<CodeOwner>, NoMemory>
    requires { AreUnchecked index.now.elf unchecked.now }
    ensures items { IfOk result (λ items. AreItems index.now.elf index.now.functions items.items) }
    ensures few { IfOk result (λ items. length items.items ≤ 4194305) }
{
    let count = index.functions().len();
    let mut items = Vec::with_capacity(alloc, count + 1)?;
    for function in 0..count {
        items.push(item_of(index, unchecked, function as u32))?;
    }
    items.push(no_item())?;
    Ok(items)
}

/// Places in a row of a section that have one item.
#[derive(Clone, Copy)]
struct ItemSpan {
    /// Their section.
    sec: u32,
    /// The first offset of them.
    first: u64,
    /// The last offset of them, below the first where there are none.
    last: u64,
    /// The index of their item.
    number: u32,
}

/// No places.
fn no_span() -> ItemSpan
    ensures { result.last < result.first }
{
    ItemSpan {
        sec: 0,
        first: 1,
        last: 0,
        number: 0,
    }
}

/// The index of the item of a function, or of code of no function.
fn number_of(index: &Index<'_, '_>, function: Option<u32>) -> u32
    requires { IfSome function (λ f. f < length index.now.functions) }
    ensures { result ≡ unwrap_or function (length index.now.functions) }
{
    match function {
        Some(function) => function,
        None => index.functions().len() as u32,
    }
}

/// The places from one on that have one item.
#[inline(never)]
fn span_from(index: &Index<'_, '_>, items: &[CodeOwner], place: Place) -> ItemSpan
    requires { AreItems index.now.elf index.now.functions items.now }
    ensures tells { TellsOwners index.now.elf items.now result.sec result.first result.last result.number }
    ensures has { IsBetween result.sec result.first result.last place }
{
    let span = index.span_from(place);
    ItemSpan {
        sec: place.sec,
        first: place.off,
        last: span.last,
        number: number_of(index, span.function),
    }
}

/// Places in a row of which one is the given one: the given ones, where they have it.
#[inline(always)]
fn span_with(index: &Index<'_, '_>, items: &[CodeOwner], place: Place, span: ItemSpan) -> ItemSpan
    requires items { AreItems index.now.elf index.now.functions items.now }
    requires tells { TellsOwners index.now.elf items.now span.sec span.first span.last span.number }
    ensures tells { TellsOwners index.now.elf items.now result.sec result.first result.last result.number }
    ensures has { IsBetween result.sec result.first result.last place }
{
    if span.sec == place.sec && span.first <= place.off && place.off <= span.last {
        return span;
    }
    span_from(index, items, place)
}

/// Where the point with a number runs.
pub(crate) fn address_of(linked: &Linked<'_, '_>, n: u32) -> Place
    requires { n < length (points_of_object linked.now) }
    ensures { result ≡ address_of_point (alternatives_of linked.now) (point_at linked.now n) }
{
    linked.sites().address_of(n)
}

/// For each point the index of its item: that of the place where it runs.
pub(crate) fn list_numbers(
    alloc: Global,
    linked: &Linked<'_, '_>,
    index: &Index<'_, '_>,
    items: &[CodeOwner],
) -> Result<Vec<u32>, NoMemory>
    requires object { index.now.elf ≡ linked.now.elf }
    requires items { AreItems index.now.elf index.now.functions items.now }
    ensures { IfOk result (λ numbers. TellOwners linked.now items.now numbers.items) }
{
    let count = linked.sites().point_count();
    let mut numbers = Vec::with_capacity(alloc, count as usize)?;
    let mut span = no_span();
    for n in 0..count {
        span = span_with(index, items, address_of(linked, n), span);
        numbers.push_reserved(span.number);
    }
    Ok(numbers)
}
