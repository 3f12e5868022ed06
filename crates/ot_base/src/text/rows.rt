ghost use Rattle.std.specs.Prelude.{◌≡◌, ◌++◌, Some, OnOk, OnErr};
ghost use Rattle.ot_base.specs.RowText.{base_text, kind_name, register_name, row_line, row_words};

use crate::codes::{
    KIND_CALL, KIND_END_OF_STACK, KIND_REGS, KIND_REGS_PARTIAL, KIND_UNDEFINED, REG_BP,
    REG_BP_INDIRECT, REG_DI, REG_DX, REG_PREV_SP, REG_R10, REG_R13, REG_SP, REG_SP_INDIRECT,
    REG_UNDEFINED,
};
use crate::memory::NoMemory;
use crate::names::Names;
use crate::row::{PlacedRow, Row};
use crate::text::places::PlaceText;
use std::fmt;

#[tactic(auto, unfolding(crate::specs::RowText::kind_name))]
fn kind_name(kind: u8) -> &'static str
    ensures { result.now ≡ kind_name kind }
{
    match kind {
        KIND_UNDEFINED => "undefined",
        KIND_END_OF_STACK => "end",
        KIND_CALL => "call",
        KIND_REGS => "regs",
        KIND_REGS_PARTIAL => "partial",
        _ => "",
    }
}

#[tactic(auto, unfolding(crate::specs::RowText::register_name))]
fn register_name(register: u8) -> &'static str
    ensures { result.now ≡ register_name register }
{
    match register {
        REG_UNDEFINED => "undef",
        REG_PREV_SP => "prev",
        REG_DX => "dx",
        REG_DI => "di",
        REG_BP => "bp",
        REG_SP => "sp",
        REG_R10 => "r10",
        REG_R13 => "r13",
        REG_BP_INDIRECT => "(bp)",
        REG_SP_INDIRECT => "(sp)",
        _ => "",
    }
}

#[derive(Clone, Copy)]
struct Base {
    register: u8,
    offset: i16,
}

impl fmt::Display for Base {
    ghost output = { λ b. Some (base_text b.register b.offset) };

    fn fmt<W: fmt::Write>(&self, f: &mut fmt::Formatter<W>) -> fmt::Result {
        let register = register_name(self.register);
        let offset = self.offset;
        if offset < 0 {
            write!(f, "{register}{offset}")
        } else {
            write!(f, "{register}+{offset}")
        }
    }
}

/// What a row says: its kind, the base and offset of the frame's top and of the saved rbp, and
/// whether it has the signal bit.
#[derive(Clone, Copy)]
pub struct RowWords(pub Row);

impl fmt::Display for RowWords {
    ghost output = { λ r. Some (row_words r.0) };

    #[tactic(auto, unfolding(crate::specs::RowText::row_words))]
    fn fmt<W: fmt::Write>(&self, f: &mut fmt::Formatter<W>) -> fmt::Result {
        let row = self.0;
        let kind = kind_name(row.kind);
        let top = Base {
            register: row.sp_reg,
            offset: row.sp_offset,
        };
        let saved = Base {
            register: row.bp_reg,
            offset: row.bp_offset,
        };
        let signal = if row.signal { " signal" } else { "" };
        write!(f, "{kind} cfa {top} bp {saved}{signal}")
    }
}

/// The line of a row: its place, and what it says.
#[derive(Drop)]
pub struct RowLine<'a, N> {
    /// Where the names of sections are.
    pub names: &'a N,
    /// The row, at its place.
    pub placed: PlacedRow,
}

impl<N: Names> fmt::Display for RowLine<'_, N> {
    ghost use Rattle.ot_base.specs.RowText.{row_line};

    ghost output = { λ l. Some (row_line (N.section_names l.names.now l.placed.place.sec) l.placed) };

    #[tactic(auto, unfolding(crate::specs::RowText::row_line))]
    fn fmt<W: fmt::Write>(&self, f: &mut fmt::Formatter<W>) -> fmt::Result {
        let PlacedRow { place, row } = self.placed;
        let at = PlaceText {
            section: self.names.section_name(place.sec),
            off: place.off,
        };
        let said = RowWords(row);
        writeln!(f, "{at}: {said}")
    }
}

/// Appends the line of a row.
pub fn row_text<N: Names>(names: &N, placed: &PlacedRow, into: &mut Vec<u8>) -> Result<(), NoMemory>
    ensures ok { OnOk result (into.new.items ≡ into.old.items ++ row_line (N.section_names names.now placed.now.place.sec) placed.now) }
    ensures err { OnErr result (into.new.items ≡ into.old.items) }
{
    let alloc = *into.allocator();
    let line = RowLine {
        names,
        placed: *placed,
    };
    let text = format!(in alloc; "{line}")?;
    into.extend_from_slice(text.as_bytes())?;
    Ok(())
}
