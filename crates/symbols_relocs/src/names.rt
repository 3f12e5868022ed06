//! The names of functions, by numbers.

ghost use Rattle.std.specs.Prelude.{◌≡◌, ◌<◌, ◌≤◌, ℕ, List, Some, None, false, length, slice_get, slice_index_or, IfOk, OnOk};
ghost use Rattle.elf_objects.specs.Contents.{symbol_at};
ghost use Rattle.symbols_relocs.specs.Functions.{is_function as is_function_of};
ghost use Rattle.symbols_relocs.specs.Names.{name_slot, strings as strings_of, with_first, AreFirst, AreRuns, AreStems, HasMark, IsMarked, IsNumber, KeepsMarks, KnowsParents};
ghost use Rattle.symbols_relocs.specs.Lists.{HaveSymbols};
ghost use Rattle.symbols_relocs.specs.Parts.{part_name as part_name_of};
ghost use Rattle.text_numbers.specs.Texts.{AreDifferent, AreKept};

use crate::function::Function;
use crate::part::{Run, no_runs, stem_end};
use crate::strings::name_start;
use crate::symbols::is_function;
use elf_objects::Object;
use ot_base::NoMemory;
use std::alloc::Global;
use text_numbers::{Ends, Texts};

/// How many slots there are for names.
const SLOTS: usize = 1024;

/// No slot is marked.
pub(crate) fn no_marks(alloc: Global) -> Result<Vec<bool>, NoMemory>
    ensures { IfOk result (λ marks. length marks.items ≡ 1024) }
{
    Ok(vec![in alloc; false; SLOTS]?)
}

/// The slot of a name, by its length and its last byte.
fn slot_of(name: &[u8]) -> usize
    ensures value { result ≡ name_slot name.now }
    ensures within { result < 1024 }
{
    let last = match name.last() {
        Some(byte) => usize::from(*byte),
        None => 0,
    };
    (name.len() + 64 * last) % SLOTS
}

/// Marks the slot of a name.
fn mark_name(marks: &mut Vec<bool>, name: &[u8])
    requires { length marks.old.items ≡ 1024 }
    ensures marked { IsMarked marks.new.items name.now }
    ensures kept { KeepsMarks marks.old.items marks.new.items }
    ensures len { length marks.new.items ≡ 1024 }
{
    marks[slot_of(name)] = true;
}

/// Whether the slot of a symbol's name is marked.
fn is_marked(object: &Object<'_>, ends: &Ends<'_>, marks: &[bool], k: u32) -> bool
    requires known { k < length object.now.symbols }
    requires ends { ends.now ≡ strings_of object.now }
    requires len { length marks.now ≡ 1024 }
    ensures { result ≡ slice_index_or marks.now (name_slot (symbol_at object.now k).name) false }
{
    let start = name_start(object, k);
    let end = ends.end_of(start);
    marks[slot_of(&ends.table()[start..end])]
}

/// The number of a symbol's name.
fn number_name(
    object: &Object<'_>,
    ends: &Ends<'_>,
    texts: &mut Texts<'_>,
    k: u32,
) -> Result<u32, NoMemory>
    requires known { k < length object.now.symbols }
    requires ends { ends.now ≡ strings_of object.now }
    requires table { texts.old.table ≡ strings_of object.now }
    ensures number { IfOk result (λ n. slice_get texts.new.texts n ≡ Some (symbol_at object.now k).name) }
    ensures different { OnOk result (AreDifferent texts.new.texts) }
    ensures table { texts.new.table ≡ texts.old.table }
    ensures kept { AreKept texts.old.texts texts.new.texts }
{
    let start = name_start(object, k);
    let end = ends.end_of(start);
    let number = texts.number(start, end)?;
    let known = number < texts.len();
    prove!(known);
    Ok(number)
}

/// The number of the P of a symbol's name, where that is the name of a part of P; the slot of P is marked.
fn number_stem(
    object: &Object<'_>,
    ends: &Ends<'_>,
    runs: &mut Vec<Run>,
    texts: &mut Texts<'_>,
    marks: &mut Vec<bool>,
    k: u32,
) -> Result<Option<u32>, NoMemory>
    requires known { k < length object.now.symbols }
    requires ends { ends.now ≡ strings_of object.now }
    requires runs { AreRuns (strings_of object.now) runs.old.items }
    requires table { texts.old.table ≡ strings_of object.now }
    requires marks { length marks.old.items ≡ 1024 }
    ensures number { IfOk result (λ n. IsNumber texts.new.texts n (part_name_of (symbol_at object.now k).name)) }
    ensures marked { IfOk result (HasMark texts.new.texts marks.new.items) }
    ensures runs { AreRuns (strings_of object.now) runs.new.items }
    ensures table { texts.new.table ≡ texts.old.table }
    ensures kept { AreKept texts.old.texts texts.new.texts }
    ensures marks { KeepsMarks marks.old.items marks.new.items }
    ensures len { length marks.new.items ≡ 1024 }
{
    let start = name_start(object, k);
    let end = ends.end_of(start);
    match stem_end(ends.table(), runs, start, end) {
        Some(end) => {
            mark_name(marks, &ends.table()[start..end]);
            Ok(Some(texts.number(start, end)?))
        }
        None => Ok(None),
    }
}

/// The numbers of the P of all functions that are parts of P; the slot of each P is marked.
pub(crate) fn list_stems(
    alloc: Global,
    object: &Object<'_>,
    functions: &[Function],
    ends: &Ends<'_>,
    texts: &mut Texts<'_>,
    marks: &mut Vec<bool>,
) -> Result<Vec<Option<u32>>, NoMemory>
    requires symbols { HaveSymbols object.now functions.now }
    requires ends { ends.now ≡ strings_of object.now }
    requires table { texts.old.table ≡ strings_of object.now }
    requires marks { length marks.old.items ≡ 1024 }
    ensures stems { IfOk result (λ stems. AreStems object.now functions.now texts.new.texts (length functions.now) stems.items) }
    ensures marked { IfOk result (λ stems. (i : ℕ) → HasMark texts.new.texts marks.new.items (slice_index_or stems.items i None)) }
    ensures table { IfOk result (λ stems. texts.new.table ≡ strings_of object.now) }
    ensures len { IfOk result (λ stems. length marks.new.items ≡ 1024) }
{
    let mut runs = no_runs(alloc, ends.table())?;
    let mut stems = Vec::with_capacity(alloc, functions.len())?;
    for function in functions {
        let stem = number_stem(object, ends, &mut runs, texts, marks, function.sym)?;
        stems.push(stem)?;
    }
    Ok(stems)
}

/// So many numbers without a symbol.
fn no_symbols(alloc: Global, count: usize) -> Result<Vec<Option<u32>>, NoMemory>
    ensures len { IfOk result (λ list. length list.items ≡ count) }
    ensures none { IfOk result (λ list. (n : ℕ) → slice_index_or list.items n None ≡ None) }
{
    Ok(vec![in alloc; None; count]?)
}

/// Gives a symbol to a number that has none.
fn add_symbol(first: &mut Vec<Option<u32>>, number: usize, symbol: u32)
    requires { number < length first.old.items }
    ensures { first.new.items ≡ with_first first.old.items number symbol }
{
    first[number] = first[number].or(Some(symbol));
}

/// For each number of a text with a marked slot the first symbol of a function whose name has it.
fn list_first(
    alloc: Global,
    object: &Object<'_>,
    ends: &Ends<'_>,
    texts: &mut Texts<'_>,
    marks: &[bool],
) -> Result<Vec<Option<u32>>, NoMemory>
    requires ends { ends.now ≡ strings_of object.now }
    requires table { texts.old.table ≡ strings_of object.now }
    requires marks { length marks.now ≡ 1024 }
    ensures first { IfOk result (λ first. AreFirst object.now texts.old.texts marks.now first.items) }
    ensures kept { IfOk result (λ first. AreKept texts.old.texts texts.new.texts) }
{
    let mut first = no_symbols(alloc, texts.len() as usize)?;
    for k in 0..object.symbols() {
        if is_function(object, k) && is_marked(object, ends, marks, k) {
            let number = number_name(object, ends, texts, k)?;
            if (number as usize) < first.len() {
                add_symbol(&mut first, number as usize, k);
            }
        }
    }
    Ok(first)
}

/// Whether one of these is there.
fn has_stems(stems: &[Option<u32>]) -> bool
    ensures { result ≡ false → (i n : ℕ) → slice_index_or stems.now i None ≡ Some n → ⊥ }
{
    for stem in stems {
        if stem.is_some() {
            return true;
        }
    }
    false
}

/// For each number of a P that functions are parts of the first symbol of a function with this name.
pub(crate) fn first_symbols(
    alloc: Global,
    object: &Object<'_>,
    ends: &Ends<'_>,
    texts: &mut Texts<'_>,
    marks: &[bool],
    stems: &[Option<u32>],
) -> Result<Vec<Option<u32>>, NoMemory>
    requires ends { ends.now ≡ strings_of object.now }
    requires table { texts.old.table ≡ strings_of object.now }
    requires marks { length marks.now ≡ 1024 }
    requires marked { (i : ℕ) → HasMark texts.old.texts marks.now (slice_index_or stems.now i None) }
    ensures first { IfOk result (λ first. KnowsParents object.now texts.new.texts stems.now first.items) }
    ensures kept { IfOk result (λ first. AreKept texts.old.texts texts.new.texts) }
{
    if !has_stems(stems) {
        return Ok(Vec::new(alloc));
    }
    list_first(alloc, object, ends, texts, marks)
}
