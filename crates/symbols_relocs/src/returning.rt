//! Code that returns for its caller.

ghost use Rattle.std.specs.Prelude.{◌≡◌, ◌<◌, ◌≤◌, ℕ, None, Some, option_map, true, false, length, slice_index_or, slice_get, filter, IfOk, IfSome, OnOk};
ghost use Rattle.ot_base.specs.declared.place.Place.{Place as PlaceValue};
ghost use Rattle.ot_base.specs.Places.{is_before as is_lower};
ghost use Rattle.elf_objects.specs.Contents.{symbol_at};
ghost use Rattle.symbols_relocs.specs.CodeNames.{BeginInOrder, begins_at, begins_if_any, first_symbol_at};
ghost use Rattle.symbols_relocs.specs.Functions.{start_of as start_of_symbol};
ghost use Rattle.symbols_relocs.specs.NamedCode.{is_returning_name as is_a_returning_name, is_returning_symbol_at, returning_at};

use crate::code_names::names_code;
use crate::symbols::place_of;
use elf_objects::Object;
use ot_base::{NoMemory, Place, is_before};
use std::alloc::Global;
use std::marker::Model;

/// Where code begins that a symbol names.
#[derive(Clone, Copy)]
pub struct NamedStart {
    /// The place of its first byte.
    pub start: Place,
    /// The symbol.
    pub sym: u32,
}

/// Where code that returns for its caller begins, by the places. Contracts see it as this list.
#[derive(Drop)]
pub struct ReturningCode {
    starts: Vec<NamedStart>,
}

impl Model for ReturningCode {
    ghost use Rattle.std.specs.Prelude.{List};
    ghost use Rattle.symbols_relocs.specs.declared.returning.NamedStart.{NamedStart};
    ghost use Rattle.symbols_relocs.specs.CodeNames.{BeginInOrder};

    ghost Value = { List NamedStart };

    ghost view = { λ r. r.starts.items };

    ghost invariant = { λ r. BeginInOrder r.starts.items };
}

impl ReturningCode {
    /// The code of an object that returns for its caller.
    ///
    /// # Errors
    ///
    /// [`NoMemory`] may come at any object.
    pub fn build(alloc: Global, object: &Object<'_>) -> Result<ReturningCode, NoMemory>
        ensures { IfOk result (λ code. (place : PlaceValue) → first_symbol_at code place ≡ returning_at object.now place) }
    {
        let mut starts = list_starts(alloc, object)?;
        sort_starts(&mut starts)?;
        Ok(ReturningCode { starts })
    }

    /// The symbol of the code that begins at a place: of several the lowest.
    #[inline(always)]
    pub fn symbol_at(&self, place: Place) -> Option<u32>
        ensures { result ≡ first_symbol_at self.now place }
    {
        if self.starts.is_empty() {
            return None;
        }
        self.search(place)
    }

    /// The same by halving.
    #[inline(never)]
    fn search(&self, place: Place) -> Option<u32>
        ensures { result ≡ first_symbol_at self.now place }
    {
        let first = count_before(&self.starts, place);
        if first >= self.starts.len() {
            return None;
        }
        let start = self.starts[first];
        if begins(start, place) {
            Some(start.sym)
        } else {
            None
        }
    }
}

/// Whether code begins at a place.
fn begins(start: NamedStart, place: Place) -> bool
    ensures { result ≡ begins_at place start }
{
    start.start == place
}

/// Whether the name of a symbol is that of code that returns for its caller.
fn is_returning_name(object: &Object<'_>, k: u32) -> bool
    requires { k < length object.now.symbols }
    ensures { result ≡ is_a_returning_name (symbol_at object.now k).name }
{
    object.symbol_is_named(k, b"srso_safe_ret")
        || object.symbol_is_named(k, b"srso_alias_safe_ret")
        || object.symbol_is_named(k, b"retbleed_return_thunk")
}

/// Where the code of a symbol begins, if it is such code.
fn returning_start(object: &Object<'_>, k: u32) -> Option<NamedStart>
    requires { k < length object.now.symbols }
    ensures place { (place : PlaceValue) → begins_if_any place result ≡ is_returning_symbol_at object.now place k }
    ensures own { IfSome result (λ s. s.sym ≡ k) }
{
    let symbol = object.symbol(k);
    if names_code(object, k, &symbol) && is_returning_name(object, k) {
        Some(NamedStart {
            start: place_of(&symbol),
            sym: k,
        })
    } else {
        None
    }
}

/// Where such code begins, in the order of symbols.
fn list_starts(alloc: Global, object: &Object<'_>) -> Result<Vec<NamedStart>, NoMemory>
    ensures { IfOk result (λ starts. (place : PlaceValue) → first_symbol_at starts.items place ≡ returning_at object.now place) }
{
    let mut starts = Vec::new(alloc);
    for k in 0..object.symbols() {
        if let Some(start) = returning_start(object, k) {
            starts.push(start)?;
        }
    }
    Ok(starts)
}

/// Puts them in the order of their places, and leaves those at one place in their order.
fn sort_starts(starts: &mut Vec<NamedStart>) -> Result<(), NoMemory>
    ensures sorted { OnOk result (BeginInOrder starts.new.items) }
    ensures same { OnOk result ((place : PlaceValue) → first_symbol_at starts.new.items place ≡ first_symbol_at starts.old.items place) }
{
    starts.sort_by_key(|start| start.start)?;
    Ok(())
}

/// How many of these begin before a place.
fn count_before(starts: &[NamedStart], place: Place) -> usize
    requires { BeginInOrder starts.now }
    ensures within { result ≤ length starts.now }
    ensures before { (k : ℕ) (d : NamedStart) → k < result → is_lower (slice_index_or starts.now k d).start place ≡ true }
    ensures others { (k : ℕ) (d : NamedStart) → result ≤ k → k < length starts.now → is_lower (slice_index_or starts.now k d).start place ≡ false }
{
    starts.partition_point(|start| is_before(start.start, place))
}
