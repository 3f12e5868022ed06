//! Where the texts of a table end.

ghost use Rattle.std.specs.Prelude.{◌≡◌, ◌<◌, ◌≤◌, ◌+◌, ◌/◌, ◌^◌, ◌==◌, not, length, IfOk};
ghost use Rattle.std.specs.List.{prefix_len};
ghost use Rattle.text_numbers.specs.Ends.{end_from, AreEndsFrom};

use ot_base::NoMemory;
use std::alloc::Global;
use std::marker::Model;

/// A table with the ends of its texts, each before the first zero byte or at the table's end. Contracts see it as the
/// table.
#[derive(Drop)]
pub struct Ends<'a> {
    table: &'a [u8],
    /// For each block of 64 bytes where the text ends that its first byte stands in.
    ends: Vec<u32>,
}

impl<'a> Model for Ends<'a> {
    ghost use Rattle.std.specs.Prelude.{ℕ, List};
    ghost use Rattle.text_numbers.specs.Ends.{AreEnds};

    ghost Value = { List ℕ };

    ghost view = { λ e. e.table.now };

    ghost invariant = { λ e. AreEnds e.table.now e.ends.items };
}

/// How many bytes stand before the first zero byte.
fn len_before_zero(bytes: &[u8]) -> usize
    ensures value { result ≡ prefix_len (λ c. not (c == 0)) bytes.now }
    ensures within { result ≤ length bytes.now }
{
    bytes.iter().take_while(|byte| **byte != 0).count()
}

/// Where the text ends that stands at an offset, where it is known of the beginnings of later blocks.
fn find_end(table: &[u8], ends: &[u32], at: usize) -> usize
    requires inside { at ≤ length table.now }
    requires short { length table.now < 2 ^ 32 }
    requires blocks { length ends.now ≡ length table.now / 64 + 1 }
    requires later { AreEndsFrom table.now (at / 64 + 1) ends.now }
    ensures value { result ≡ end_from table.now at }
    ensures within { result ≤ length table.now }
{
    let next = at / 64 + 1;
    if 64 * next >= table.len() {
        return at + len_before_zero(&table[at..]);
    }
    let len = len_before_zero(&table[at..64 * next]);
    if at + len < 64 * next {
        at + len
    } else {
        ends[next] as usize
    }
}

/// So many zeros.
fn zeros(alloc: Global, count: usize) -> Result<Vec<u32>, NoMemory>
    ensures { IfOk result (λ list. length list.items ≡ count) }
{
    Ok(vec![in alloc; 0; count]?)
}

/// The ends at the beginnings of all blocks.
fn list_ends(alloc: Global, table: &[u8]) -> Result<Vec<u32>, NoMemory>
    requires { length table.now < 2 ^ 32 }
    ensures blocks { IfOk result (λ ends. length ends.items ≡ length table.now / 64 + 1) }
    ensures all { IfOk result (λ ends. AreEndsFrom table.now 0 ends.items) }
{
    let count = table.len() / 64 + 1;
    let mut ends = zeros(alloc, count)?;
    let mut block = count;
    while block > 0 {
        block -= 1;
        ends[block] = find_end(table, &ends, 64 * block) as u32;
    }
    Ok(ends)
}

impl<'a> Ends<'a> {
    /// Finds the ends of a table's texts.
    pub fn build(alloc: Global, table: &'a [u8]) -> Result<Ends<'a>, NoMemory>
        requires { length table.now < 2 ^ 32 }
        ensures { IfOk result (λ ends. ends ≡ table.now) }
    {
        let ends = list_ends(alloc, table)?;
        Ok(Ends { table, ends })
    }

    /// The table.
    pub fn table(&self) -> &'a [u8]
        ensures value { result.now ≡ self.now }
        ensures short { length result.now < 2 ^ 32 }
    {
        self.table
    }

    /// Where the text ends that begins at an offset. It reads at most 64 bytes.
    pub fn end_of(&self, at: usize) -> usize
        requires { at ≤ length self.now }
        ensures value { result ≡ end_from self.now at }
        ensures within { result ≤ length self.now }
    {
        find_end(self.table, &self.ends, at)
    }
}
