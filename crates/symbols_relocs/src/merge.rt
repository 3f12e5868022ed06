//! The symbols with one start as one function.

ghost use Rattle.std.specs.Prelude.{◌≡◌, IfOk, OnOk};
ghost use Rattle.std.specs.List.Sorted.{IsPermutation};
ghost use Rattle.symbols_relocs.specs.Lists.{widened as widened_by, with_symbol, AreByStart, AreMerged};

use crate::function::Function;
use ot_base::NoMemory;
use std::alloc::Global;

/// Puts symbols in the order of their starts.
fn sort_by_start(symbols: &mut Vec<Function>) -> Result<(), NoMemory>
    ensures sorted { OnOk result (AreByStart symbols.new.items) }
    ensures same { OnOk result (IsPermutation symbols.old.items symbols.new.items) }
{
    symbols.sort_by_key(|symbol| symbol.start)?;
    Ok(())
}

/// A function with one symbol more.
fn widened(function: Function, symbol: Function) -> Function
    ensures { result ≡ widened_by function symbol }
{
    Function {
        size: function.size.max(symbol.size),
        sym: function.sym.min(symbol.sym),
        ..function
    }
}

/// Adds a symbol to the last function, where it has its start, or as a function of its own.
fn add_symbol(functions: &mut Vec<Function>, symbol: Function) -> Result<(), NoMemory>
    ensures { OnOk result (functions.new.items ≡ with_symbol functions.old.items symbol) }
{
    let count = functions.len();
    if count > 0 && functions[count - 1].start == symbol.start {
        functions[count - 1] = widened(functions[count - 1], symbol);
    } else {
        functions.push(symbol)?;
    }
    Ok(())
}

/// Adds symbols in the order of their starts.
fn merge_sorted(alloc: Global, symbols: &[Function]) -> Result<Vec<Function>, NoMemory>
    requires { AreByStart symbols.now }
    ensures { IfOk result (λ functions. AreMerged symbols.now functions.items) }
{
    let mut functions = Vec::new(alloc);
    for symbol in symbols {
        add_symbol(&mut functions, *symbol)?;
    }
    Ok(functions)
}

/// The functions of these symbols, in the order of their starts.
pub(crate) fn merge_symbols(
    alloc: Global,
    mut symbols: Vec<Function>,
) -> Result<Vec<Function>, NoMemory>
    ensures { IfOk result (λ functions. AreMerged symbols.items functions.items) }
{
    sort_by_start(&mut symbols)?;
    merge_sorted(alloc, &symbols)
}
