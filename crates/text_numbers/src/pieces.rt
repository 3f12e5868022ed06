//! Texts as pieces before other texts.

ghost use Rattle.std.specs.Prelude.{◌≡◌, ◌<◌, ◌≤◌, ◌+◌, ◌-◌, ◌%◌, ◌^◌, [], ◌∷◌, Some, length, slice_get, slice_range, IfOk, OnOk, OnErr};
ghost use Rattle.std.specs.List.{position_or_len};
ghost use Rattle.std.specs.Map.{keys_of};
ghost use Rattle.indexmap.specs.IndexMap.{insert_entry};
ghost use Rattle.text_numbers.specs.Texts.{is_same, AreDifferent, AreKept};

use crate::piece::{Piece, Span};
use indexmap::IndexMap;
use ot_base::NoMemory;
use std::alloc::Global;
use std::marker::Model;

/// Different texts of a table with numbers from 0 on, where 0 is that of the empty one. Contracts see the table and
/// the texts.
#[derive(Drop)]
pub(crate) struct Pieces<'a> {
    table: &'a [u8],
    /// Where each piece stands with the text behind it, in the order of the numbers from 1 on.
    places: IndexMap<Piece<'a>, Span>,
}

impl<'a> Model for Pieces<'a> {
    ghost use Rattle.text_numbers.specs.Texts.{texts_of, ArePieces, Numbered};

    ghost Value = { Numbered };

    ghost view = { λ p. record { table = p.table.now; texts = texts_of p.table.now p.places.entries } };

    ghost invariant = { λ p. ArePieces p.table.now p.places.entries };
}

/// The piece from one place to another, before the text with a number.
fn piece_of<'a>(table: &'a [u8], start: usize, end: usize, rest: u32) -> Piece<'a>
    requires order { start ≤ end }
    requires inside { end ≤ length table.now }
    ensures bytes { result.bytes.now ≡ slice_range table.now start end }
    ensures rest { result.rest ≡ rest }
{
    Piece {
        bytes: &table[start..end],
        rest,
    }
}

/// The place of a piece, which is put behind the others where it isn't there. The span is that of its text.
fn place_of<'a>(
    places: &mut IndexMap<Piece<'a>, Span>,
    piece: Piece<'a>,
    span: Span,
) -> Result<usize, NoMemory>
    ensures at { IfOk result (λ i. i ≡ position_or_len (is_same piece.entry) (keys_of places.old.entries)) }
    ensures within { IfOk result (λ i. i ≤ length places.old.entries) }
    ensures ok { OnOk result (places.new.entries ≡ insert_entry is_same places.old.entries piece.entry span) }
    ensures err { OnErr result (places.new.entries ≡ places.old.entries) }
{
    let (at, _) = places.insert_full(piece, span)?;
    Ok(at)
}

impl<'a> Pieces<'a> {
    /// The empty text of a table alone, with room for one in each 64 bytes.
    pub(crate) fn new(alloc: Global, table: &'a [u8]) -> Result<Pieces<'a>, NoMemory>
        requires { length table.now < 2 ^ 32 }
        ensures table { IfOk result (λ pieces. pieces.table ≡ table.now) }
        ensures texts { IfOk result (λ pieces. pieces.texts ≡ [] ∷ []) }
    {
        Ok(Pieces {
            table,
            places: IndexMap::with_capacity(alloc, table.len() / 64)?,
        })
    }

    /// The table.
    pub(crate) fn table(&self) -> &'a [u8]
        ensures value { result.now ≡ self.now.table }
        ensures short { length result.now < 2 ^ 32 }
        ensures empty { slice_get self.now.texts 0 ≡ Some [] }
    {
        self.table
    }

    /// How many texts have numbers.
    pub(crate) fn len(&self) -> u32
        ensures len { result ≡ length self.now.texts }
        ensures different { AreDifferent self.now.texts }
    {
        self.places.len() as u32 + 1
    }

    /// The number of a text from `start` to `end`, of which what begins at `rest` has the number `number`. It has one,
    /// or gets the next.
    pub(crate) fn join(
        &mut self,
        start: usize,
        rest: usize,
        end: usize,
        number: u32,
    ) -> Result<u32, NoMemory>
        requires some { start < rest }
        requires few { rest ≤ start + 64 }
        requires order { rest ≤ end }
        requires inside { end ≤ length self.old.table }
        requires whole { (end - rest) % 64 ≡ 0 }
        requires number { slice_get self.old.texts number ≡ Some (slice_range self.old.table rest end) }
        ensures number { IfOk result (λ n. slice_get self.new.texts n ≡ Some (slice_range self.old.table start end)) }
        ensures table { self.new.table ≡ self.old.table }
        ensures kept { AreKept self.old.texts self.new.texts }
    {
        let piece = piece_of(self.table, start, rest, number);
        if self.len() == u32::MAX {
            return Err(NoMemory);
        }
        let span = Span {
            start: start as u32,
            end: end as u32,
        };
        let at = place_of(&mut self.places, piece, span)?;
        Ok(at as u32 + 1)
    }
}
