//! Jumps to where a register points, and the tables whose addresses are taken right before them.

ghost use Rattle.std.specs.Prelude.{◌≡◌, ◌+◌, ◌<◌, ◌^◌, ◌==◌, length, position, slice_index, IfSome};
ghost use Rattle.flow_defs.specs.TableRegisters.{ends_search as ends_the_search, is_on_register as is_a_register_jump, is_searched as is_searched_insn, is_thunk as is_a_thunk, jumps_to_register as jumps_to_a_register, register_table as register_table_of, table_before as table_before_offset, table_before_jump as table_before_place};

use crate::bytes::bytes_from;
use crate::code::Code;
use crate::owner::{is_same_owner, owner_at};
use crate::taken::first_taken;
use alternatives::{SectionText, Sites};
use elf_objects::Object;
use operation_defs::{Insn, Op};
use ot_base::Place;
use symbols_relocs::{Index, Target};
use x86_text::PlacedInsn;

/// How many instructions before a jump are searched.
const STEPS: u32 = 4;

/// The byte with an index, 0 where there is none.
fn byte_at(bytes: &[u8], at: usize) -> u8
    ensures { result ≡ slice_index bytes.now at }
{
    bytes.get(at).copied().unwrap_or(0)
}

/// The index of the first byte FF.
fn opcode_at(bytes: &[u8]) -> Option<usize>
    ensures first { result ≡ position (λ b. b == 255) bytes.now }
    ensures within { IfSome result (λ at. at < length bytes.now) }
{
    bytes.iter().position(|byte| *byte == 0xFF)
}

/// Whether the indirect jump at a place is on a register: the mod of its ModRM byte, behind the opcode FF, is 3.
fn is_on_register(object: &Object<'_>, place: Place) -> bool
    ensures { result ≡ is_a_register_jump object.now place }
{
    let bytes = bytes_from(object, place);
    match opcode_at(bytes) {
        Some(at) => byte_at(bytes, at + 1) >= 0xC0,
        None => false,
    }
}

/// Whether a branch goes to a thunk that jumps to where a register points.
fn is_thunk(target: Target) -> bool
    ensures { result ≡ is_a_thunk target }
{
    matches!(target, Target::ThunkIndirect)
}

/// Whether an instruction jumps to where a register points.
fn jumps_to_register(index: &Index<'_, '_>, place: Place, insn: Insn) -> bool
    requires { place.off + insn.len < 2 ^ 64 }
    ensures { result ≡ jumps_to_a_register index.now.elf place insn insn.op }
{
    match insn.op {
        Op::JmpInd { table: None } => is_on_register(index.object(), place),
        Op::Jmp { wide, .. } => wide && is_thunk(index.branch_target(place, insn)),
        _ => false,
    }
}

/// Whether the search goes back no further.
fn ends_search(op: Op) -> bool
    ensures { result ≡ ends_the_search op }
{
    matches!(
        op,
        Op::Call { .. }
            | Op::CallInd
            | Op::Jmp { .. }
            | Op::Jcc { .. }
            | Op::JmpInd { .. }
            | Op::Ret
            | Op::RetImm
            | Op::Switch
            | Op::Iret
    )
}

/// Whether an instruction of a section is searched.
fn is_searched(
    index: &Index<'_, '_>,
    sites: &Sites,
    owner: Option<u32>,
    sec: u32,
    placed: PlacedInsn,
) -> bool
    ensures { result ≡ is_searched_insn index.now.elf sites.now.entries owner sec placed }
{
    let off = placed.off;
    let place = Place { sec, off };
    is_same_owner(owner_at(index, place), owner)
        && !sites.is_in_site(place)
        && !ends_search(placed.insn.op)
}

/// The first table of an owner whose address is taken by the instructions of a section before an offset that are searched.
fn table_before(
    code: &Code<'_, '_, '_, '_>,
    text: &SectionText<'_>,
    owner: Option<u32>,
    off: u64,
) -> Option<Place>
    ensures { result ≡ table_before_offset code.now.index.now.elf code.now.texts.now code.now.sites.now.entries owner text.now.sec text.now.text off }
{
    let mut next = text.text.count_before(off);
    for _step in 0..STEPS {
        if next == 0 {
            return None;
        }
        next -= 1;
        let (off, insn) = text.text.insn(next);
        let placed = PlacedInsn { off, insn };
        if !is_searched(code.index, code.sites, owner, text.sec, placed) {
            return None;
        }
        if let Some(table) = first_taken(code, owner, text.sec, placed) {
            return Some(table);
        }
    }
    None
}

/// Where the table begins whose address is taken before a jump of an owner, in no site.
fn table_before_jump(
    code: &Code<'_, '_, '_, '_>,
    text: &SectionText<'_>,
    place: Place,
) -> Option<Place>
    requires { place.sec ≡ text.now.sec }
    ensures { result ≡ table_before_place code.now.index.now.elf code.now.texts.now code.now.sites.now.entries text.now.text place }
{
    if code.sites.is_in_site(place) {
        return None;
    }
    let owner = owner_at(code.index, place)?;
    table_before(code, text, Some(owner), place.off)
}

/// Where the table begins of a jump to where a register points; None of any other instruction.
pub(crate) fn register_table(
    code: &Code<'_, '_, '_, '_>,
    text: &SectionText<'_>,
    place: Place,
    insn: Insn,
) -> Option<Place>
    requires here { place.sec ≡ text.now.sec }
    requires low { place.off + insn.len < 2 ^ 64 }
    ensures { result ≡ register_table_of code.now.index.now.elf code.now.texts.now code.now.sites.now.entries text.now.text place insn }
{
    if !jumps_to_register(code.index, place, insn) {
        return None;
    }
    table_before_jump(code, text, place)
}
