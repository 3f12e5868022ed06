//! The parents of parts.

ghost use Rattle.std.specs.Prelude.{◌≡◌, ◌<◌, ◌≤◌, List, Option, ℕ, length, option_and_then, IfOk, IfSome};
ghost use Rattle.elf_objects.specs.Elf.{Elf as OneElf};
ghost use Rattle.symbols_relocs.specs.Functions.{start_of as start_of_symbol, starts_at as starts_symbol_at};
ghost use Rattle.symbols_relocs.specs.Lists.{AreFunctions, AreSame, HaveParents, IsIndexOfSymbol};
ghost use Rattle.symbols_relocs.specs.Names.{strings as strings_of, AreFound, IsFound};
ghost use Rattle.symbols_relocs.specs.Parts.{first_named, function_named as function_named_by, other_than as other_than_symbol};

use crate::function::Function;
use crate::names::{first_symbols, list_stems, no_marks};
use crate::order::find_start;
use crate::strings::strings;
use crate::symbols::start_of;
use elf_objects::Object;
use ot_base::NoMemory;
use std::alloc::Global;
use text_numbers::{Ends, Texts};

/// The first symbol with the name that has a number.
fn first_symbol(first: &[Option<u32>], stem: Option<u32>) -> Option<u32>
    ensures { (o : OneElf) (part : Option (List ℕ)) → IsFound o first.now stem part → result ≡ option_and_then (first_named o) part }
{
    *first.get(stem? as usize)?
}

/// The function that starts where a symbol does, by its place among the functions.
fn function_of(object: &Object<'_>, functions: &[Function], symbol: u32) -> Option<u32>
    requires all { AreFunctions object.now functions.now }
    requires few { length functions.now ≤ 4194304 }
    requires known { symbol < length object.now.symbols }
    ensures { IsIndexOfSymbol functions.now result (starts_symbol_at object.now (start_of_symbol object.now symbol)) }
{
    let index = find_start(functions, &[], start_of(object, symbol))?;
    Some(index as u32)
}

/// The function with a place among the functions, where it is another than the one with this symbol.
fn other_than(functions: &[Function], sym: u32, index: Option<u32>) -> Option<u32>
    requires { IfSome index (λ i. i < length functions.now) }
    ensures { (f : Option ℕ) → IsIndexOfSymbol functions.now index f → IsIndexOfSymbol functions.now result (option_and_then (other_than_symbol sym) f) }
{
    let other = index?;
    if functions[other as usize].sym == sym {
        None
    } else {
        Some(other)
    }
}

/// The function that has the name of a number, by its place among the functions.
fn function_named(
    object: &Object<'_>,
    functions: &[Function],
    first: &[Option<u32>],
    stem: Option<u32>,
) -> Option<u32>
    requires all { AreFunctions object.now functions.now }
    requires few { length functions.now ≤ 4194304 }
    ensures inside { IfSome result (λ i. i < length functions.now) }
    ensures named { (part : Option (List ℕ)) → IsFound object.now first.now stem part → IsIndexOfSymbol functions.now result (option_and_then (function_named_by object.now) part) }
{
    let symbol = first_symbol(first, stem)?;
    if symbol >= object.symbols() {
        return None;
    }
    function_of(object, functions, symbol)
}

/// The same functions with their parents, by the numbers of the P of their names.
fn add_parents(
    alloc: Global,
    object: &Object<'_>,
    functions: &[Function],
    stems: &[Option<u32>],
    first: &[Option<u32>],
) -> Result<Vec<Function>, NoMemory>
    requires all { AreFunctions object.now functions.now }
    requires few { length functions.now ≤ 4194304 }
    requires found { AreFound object.now functions.now stems.now first.now }
    ensures same { IfOk result (λ list. AreSame functions.now list.items) }
    ensures parents { IfOk result (λ list. HaveParents object.now list.items) }
{
    let mut list = Vec::with_capacity(alloc, functions.len())?;
    for (i, function) in functions.iter().enumerate() {
        let named = function_named(object, functions, first, stems[i]);
        let parent = other_than(functions, function.sym, named);
        list.push(Function {
            parent,
            ..*function
        })?;
    }
    Ok(list)
}

/// The same functions with their parents, whose names get numbers.
fn find_parents(
    alloc: Global,
    object: &Object<'_>,
    functions: &[Function],
    ends: &Ends<'_>,
    texts: &mut Texts<'_>,
) -> Result<Vec<Function>, NoMemory>
    requires all { AreFunctions object.now functions.now }
    requires few { length functions.now ≤ 4194304 }
    requires ends { ends.now ≡ strings_of object.now }
    requires table { texts.old.table ≡ strings_of object.now }
    ensures same { IfOk result (λ list. AreSame functions.now list.items) }
    ensures parents { IfOk result (λ list. HaveParents object.now list.items) }
{
    let mut marks = no_marks(alloc)?;
    let stems = list_stems(alloc, object, functions, ends, texts, &mut marks)?;
    let first = first_symbols(alloc, object, ends, texts, &marks, stems.as_slice())?;
    add_parents(alloc, object, functions, stems.as_slice(), first.as_slice())
}

/// The same functions with their parents.
pub(crate) fn with_parents(
    alloc: Global,
    object: &Object<'_>,
    functions: &[Function],
) -> Result<Vec<Function>, NoMemory>
    requires all { AreFunctions object.now functions.now }
    requires few { length functions.now ≤ 4194304 }
    ensures same { IfOk result (λ list. AreSame functions.now list.items) }
    ensures parents { IfOk result (λ list. HaveParents object.now list.items) }
{
    let table = strings(object);
    let ends = Ends::build(alloc, table)?;
    let mut texts = Texts::new(alloc, table)?;
    find_parents(alloc, object, functions, &ends, &mut texts)
}
