//! Texts of a table by their numbers.

ghost use Rattle.std.specs.Prelude.{◌≡◌, ◌<◌, ◌≤◌, ◌^◌, [], ◌∷◌, Some, length, slice_get, slice_range, IfOk};
ghost use Rattle.text_numbers.specs.Texts.{AreDifferent, AreKept};

use crate::marks::{Mark, number_whole, unmarked_slots};
use crate::pieces::Pieces;
use ot_base::NoMemory;
use std::alloc::Global;
use std::marker::Model;

/// Different texts of a table with numbers from 0 on. Contracts see the table and the texts in the order of their
/// numbers.
#[derive(Drop)]
pub struct Texts<'a> {
    pieces: Pieces<'a>,
    marks: Vec<Mark>,
}

impl<'a> Model for Texts<'a> {
    ghost use Rattle.text_numbers.specs.Texts.{AreMarks, Numbered};

    ghost Value = { Numbered };

    ghost view = { λ t. t.pieces };

    ghost invariant = { λ t. AreMarks t.pieces t.marks.items };
}

impl<'a> Texts<'a> {
    /// The empty text of a table alone.
    pub fn new(alloc: Global, table: &'a [u8]) -> Result<Texts<'a>, NoMemory>
        requires { length table.now < 2 ^ 32 }
        ensures table { IfOk result (λ texts. texts.table ≡ table.now) }
    {
        let pieces = Pieces::new(alloc, table)?;
        let marks = unmarked_slots(alloc, &pieces)?;
        Ok(Texts { pieces, marks })
    }

    /// How many texts have numbers.
    pub fn len(&self) -> u32
        ensures len { result ≡ length self.now.texts }
        ensures different { AreDifferent self.now.texts }
    {
        self.pieces.len()
    }

    /// The number of the text from one place of the table to another: it has one, or gets the next.
    ///
    /// Of texts that end before a zero byte at one place, all together read each byte once, and so do those that end
    /// at one other place between two zero bytes; and each text reads 64 bytes more.
    pub fn number(&mut self, start: usize, end: usize) -> Result<u32, NoMemory>
        requires order { start ≤ end }
        requires inside { end ≤ length self.old.table }
        ensures number { IfOk result (λ n. slice_get self.new.texts n ≡ Some (slice_range self.old.table start end)) }
        ensures table { self.new.table ≡ self.old.table }
        ensures kept { AreKept self.old.texts self.new.texts }
    {
        let rest = start + (end - start) % 64;
        let number = number_whole(&mut self.pieces, &mut self.marks, rest, end)?;
        if rest == start {
            return Ok(number);
        }
        self.pieces.join(start, rest, end, number)
    }
}
