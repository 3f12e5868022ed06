//! The names of parts of functions.

ghost use Rattle.std.specs.Prelude.{◌≡◌, ◌<◌, ◌≤◌, ◌^◌, IfOk, IfSome, length, option_map, slice_range, take};
ghost use Rattle.symbols_relocs.specs.Parts.{before_ending as before_ending_of, digits_at_end as digits_at_end_of, is_digit as is_digit_code, numbered_part as numbered_part_of, part_name as part_name_of};
ghost use Rattle.symbols_relocs.specs.Names.{AreRuns};

use ot_base::NoMemory;
use std::alloc::Global;

/// What stands before an ending.
fn before_ending<'n>(ending: &[u8], name: &'n [u8]) -> Option<&'n [u8]>
    ensures { option_map (λ p. p.now) result ≡ before_ending_of ending.now name.now }
{
    if name.ends_with(ending) {
        Some(&name[..name.len() - ending.len()])
    } else {
        None
    }
}

/// Whether a byte is one of `0` to `9`.
fn is_digit(c: u8) -> bool
    ensures { result ≡ is_digit_code c }
{
    c >= b'0' && c <= b'9'
}

/// How many digits a name ends with.
fn digits_at_end(name: &[u8]) -> usize
    ensures { result ≡ digits_at_end_of name.now }
{
    name.iter().rev().take_while(|c| is_digit(**c)).count()
}

/// How many digits stand before a place of the string table.
#[derive(Clone, Copy)]
pub(crate) struct Run {
    pub(crate) end: u32,
    pub(crate) digits: u32,
}

/// The table's beginning, before which there are none: so each run is one.
const NO_RUN: Run = Run { end: 0, digits: 0 };

/// From how many digits on they are kept.
const MANY: usize = 64;

/// No runs of digits, with slots for a table. Each block of 64 bytes has one, which is that of the one place behind 64
/// or more digits where a text ends.
pub(crate) fn no_runs(alloc: Global, table: &[u8]) -> Result<Vec<Run>, NoMemory>
    ensures { IfOk result (λ runs. AreRuns table.now runs.items) }
{
    Ok(vec![in alloc; NO_RUN; table.len() / 64 + 1]?)
}

/// The kept number of digits before a place.
fn kept_digits(table: &[u8], runs: &[Run], end: usize) -> Option<usize>
    requires { AreRuns table.now runs.now }
    ensures { IfSome result (λ n. n ≡ digits_at_end_of (take end table.now)) }
{
    let run = runs.get(end / 64)?;
    if run.end as usize == end {
        Some(run.digits as usize)
    } else {
        None
    }
}

/// Keeps the number of digits before a place, where there are many.
fn keep_digits(table: &[u8], runs: &mut Vec<Run>, end: usize, digits: usize)
    requires inside { end ≤ length table.now }
    requires short { length table.now < 2 ^ 32 }
    requires is { digits ≡ digits_at_end_of (take end table.now) }
    requires runs { AreRuns table.now runs.old.items }
    ensures { AreRuns table.now runs.new.items }
{
    let slot = end / 64;
    if digits >= MANY && slot < runs.len() {
        runs[slot] = Run {
            end: end as u32,
            digits: digits as u32,
        };
    }
}

/// How many digits stand before a place of the string table.
fn digits_before(table: &[u8], runs: &mut Vec<Run>, end: usize) -> usize
    requires inside { end ≤ length table.now }
    requires short { length table.now < 2 ^ 32 }
    requires runs { AreRuns table.now runs.old.items }
    ensures value { result ≡ digits_at_end_of (take end table.now) }
    ensures runs { AreRuns table.now runs.new.items }
{
    if let Some(digits) = kept_digits(table, runs, end) {
        return digits;
    }
    let digits = digits_at_end(&table[..end]);
    keep_digits(table, runs, end, digits);
    digits
}

/// The P of a name `P.cold.` with digits behind it, of which there are so many.
fn numbered_part(name: &[u8], digits: usize) -> Option<&[u8]>
    requires { digits ≡ digits_at_end_of name.now }
    ensures { option_map (λ p. p.now) result ≡ numbered_part_of name.now }
{
    if digits == 0 {
        return None;
    }
    before_ending(b".cold.", &name[..name.len() - digits])
}

/// The P of a name `P.cold`, or `P.cold.` with digits behind it, of which there are so many.
fn part_name(name: &[u8], digits: usize) -> Option<&[u8]>
    requires { digits ≡ digits_at_end_of name.now }
    ensures { option_map (λ p. p.now) result ≡ part_name_of name.now }
{
    match before_ending(b".cold", name) {
        Some(parent) => Some(parent),
        None => numbered_part(name, digits),
    }
}

/// Where the P ends of a name in the string table, where it is that of a part.
pub(crate) fn stem_end(table: &[u8], runs: &mut Vec<Run>, start: usize, end: usize) -> Option<usize>
    requires order { start ≤ end }
    requires inside { end ≤ length table.now }
    requires short { length table.now < 2 ^ 32 }
    requires runs { AreRuns table.now runs.old.items }
    ensures stem { option_map (λ e. slice_range table.now start e) result ≡ part_name_of (slice_range table.now start end) }
    ensures from { IfSome result (λ e. start ≤ e) }
    ensures to { IfSome result (λ e. e ≤ end) }
    ensures runs { AreRuns table.now runs.new.items }
{
    let digits = digits_before(table, runs, end);
    let stem = part_name(&table[start..end], digits.min(end - start))?;
    Some(start + stem.len())
}
