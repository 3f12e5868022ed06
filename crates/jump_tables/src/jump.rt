//! The jumps by a table.

ghost use Rattle.std.specs.Prelude.{◌≡◌, ◌<◌, ◌≤◌, ◌+◌, ◌^◌, ◌++◌, ℕ, true, false, length, slice_index_or, IfOk, OnOk};
ghost use Rattle.ot_base.specs.Places.{is_before as is_lower};
ghost use Rattle.x86_text.specs.Code.{code_of};
ghost use Rattle.alternatives.specs.declared.texts.SectionText.{SectionText};
ghost use Rattle.jump_tables.specs.declared.jump.Jump.{Jump};
ghost use Rattle.flow_defs.specs.Tables.{names_table as names_a_table, table_by as table_of_insn};
ghost use Rattle.jump_tables.specs.Kept.{start_at as start_of_jump};
ghost use Rattle.jump_tables.specs.Jumps.{jump_by, jump_among, jumps_among, jumps_of, AreByJump, HaveSameJumps, IsAscending};

use crate::code::Code;
use crate::field::field_table;
use crate::places::same_place;
use crate::registers::register_table;
use alternatives::SectionText;
use operation_defs::Op;
use ot_base::{NoMemory, Place, is_before};
use std::alloc::Global;
use x86_text::PlacedInsn;

/// A jump by a table.
#[derive(Clone, Copy, Drop)]
pub(crate) struct Jump {
    /// Where it begins.
    pub place: Place,
    /// Where its table begins.
    pub table: Place,
    /// Whether it names the table itself.
    pub named: bool,
}

/// Whether an operation itself names the field that holds a table's address.
fn names_table(op: Op) -> bool
    ensures { result ≡ names_a_table op }
{
    matches!(op, Op::JmpInd { table: Some(_) })
}

/// Where the table begins that an instruction of a text section jumps by.
fn table_by(
    code: &Code<'_, '_, '_, '_>,
    text: &SectionText<'_>,
    placed: PlacedInsn,
) -> Option<Place>
    requires { placed.off + placed.insn.len < 2 ^ 64 }
    ensures { result ≡ table_of_insn code.now.index.now.elf code.now.texts.now code.now.sites.now.entries text.now.text (record { sec = text.now.sec; off = placed.off }) placed.insn }
{
    let off = placed.off;
    let place = Place { sec: text.sec, off };
    match field_table(code.index, place, placed.insn.op) {
        Some(table) => Some(table),
        None => register_table(code, text, place, placed.insn),
    }
}

/// The jump by a table that an instruction of a text section is.
fn jump_at(code: &Code<'_, '_, '_, '_>, text: &SectionText<'_>, placed: PlacedInsn) -> Option<Jump>
    requires { placed.off + placed.insn.len < 2 ^ 64 }
    ensures { result ≡ jump_by code.now.index.now.elf code.now.texts.now code.now.sites.now.entries text.now.text (record { sec = text.now.sec; off = placed.off }) placed.insn }
{
    let table = table_by(code, text, placed)?;
    let off = placed.off;
    let place = Place { sec: text.sec, off };
    let named = names_table(placed.insn.op);
    Some(Jump {
        place,
        table,
        named,
    })
}

/// Adds the jumps by a table among the instructions of a text section.
fn add_jumps(
    jumps: &mut Vec<Jump>,
    code: &Code<'_, '_, '_, '_>,
    text: &SectionText<'_>,
) -> Result<(), NoMemory>
    ensures added { OnOk result (jumps.new.items ≡ jumps.old.items ++ jumps_among code.now.index.now.elf code.now.texts.now code.now.sites.now.entries text.now.text text.now.sec (code_of text.now.text)) }
    ensures ascending { OnOk result (IsAscending (code_of text.now.text)) }
{
    let _size = text.text.size();
    let table_jumps = text.text.table_jumps();
    for placed in table_jumps {
        let Some(jump) = jump_at(code, text, *placed) else {
            continue;
        };
        jumps.push(jump)?;
    }
    Ok(())
}

/// The jumps by a table among the instructions of all text sections.
pub(crate) fn list_jumps(alloc: Global, code: &Code<'_, '_, '_, '_>) -> Result<Vec<Jump>, NoMemory>
    ensures all { IfOk result (λ jumps. jumps.items ≡ jumps_of code.now.index.now.elf code.now.texts.now code.now.sites.now.entries) }
    ensures ascending { OnOk result ((k : ℕ) (d : SectionText) → k < length code.now.texts.now → IsAscending (code_of (slice_index_or code.now.texts.now k d).text)) }
{
    let mut jumps = Vec::new(alloc);
    let texts = code.texts;
    for text in texts {
        add_jumps(&mut jumps, code, text)?;
    }
    Ok(jumps)
}

/// Puts jumps in the order of their places.
pub(crate) fn sort_jumps(jumps: &mut Vec<Jump>) -> Result<(), NoMemory>
    ensures sorted { OnOk result (AreByJump jumps.new.items) }
    ensures same { OnOk result (HaveSameJumps jumps.old.items jumps.new.items) }
{
    jumps.sort_by_key(|jump| jump.place)?;
    Ok(())
}

/// How many of these are before a place.
fn count_before(jumps: &[Jump], place: Place) -> usize
    requires { AreByJump jumps.now }
    ensures within { result ≤ length jumps.now }
    ensures below { (k : ℕ) (d : Jump) → k < result → is_lower (slice_index_or jumps.now k d).place place ≡ true }
    ensures from { (k : ℕ) (d : Jump) → result ≤ k → k < length jumps.now → is_lower (slice_index_or jumps.now k d).place place ≡ false }
{
    jumps.partition_point(|jump| is_before(jump.place, place))
}

/// The first of these at a place.
pub(crate) fn find_jump(jumps: &[Jump], place: Place) -> Option<Jump>
    requires { AreByJump jumps.now }
    ensures { result ≡ jump_among jumps.now place }
{
    let at = count_before(jumps, place);
    if at >= jumps.len() {
        return None;
    }
    if same_place(jumps[at].place, place) {
        Some(jumps[at])
    } else {
        None
    }
}

/// The table that a jump has at a point of a variant: in a replacement only the one that it names itself.
pub(crate) fn start_at(jump: &Jump, variant: u32) -> Option<Place>
    ensures { result ≡ start_of_jump variant jump.now }
{
    if variant == 0 || jump.named {
        Some(jump.table)
    } else {
        None
    }
}
