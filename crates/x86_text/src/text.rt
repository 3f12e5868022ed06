ghost use Rattle.std.specs.Prelude.{◌≡◌, ◌++◌, ◌+◌, ◌^◌, ◌<◌, ◌≤◌, ◌↔◌, ℕ, List, true, All, [], ◌∷◌, length, drop, filter, slice_get, slice_index_or, slice_range, Contains, is_some, IfOk, IfErr, OnOk, IfSome, IfNone, MatchBool, MatchOption};
ghost use Rattle.std.specs.List.Sorted.{IsNonDecreasingBy};
ghost use Rattle.x86_decode.specs.Decoding.{StandsInFront};
ghost use Rattle.x86_text.specs.Added.{AddsCode};
ghost use Rattle.x86_text.specs.Code.{may_use_table as may_use_a_table, read_by, code_of, insn_listed, insns_of, offsets_of, table_jumps_of, IsBoundary, IsCode, IsNextBoundary, IsPreviousBoundary, LeadsTo};
ghost use Rattle.x86_text.specs.declared.placed.PlacedInsn.{PlacedInsn};
ghost use Rattle.x86_text.specs.Refused.{IsTextFault};
ghost use Rattle.operation_defs.specs.declared.insn.Insn.{Insn as InsnValue};

use crate::fault::TextFault;
use crate::insn_list::InsnList;
use crate::known::may_use_table;
use crate::placed::PlacedInsn;
use operation_defs::Insn;
use ot_base::NoMemory;
use std::alloc::Global;
use std::marker::Model;
use x86_decode::{Map, decode};

/// A body of code, with the offsets of its instructions by an opcode map. Contracts see it as the body and the map.
#[derive(Drop)]
pub struct Text<'a> {
    map: Map,
    body: &'a [u8],
    /// Where its instructions begin, in bytes from the body's start.
    offsets: Vec<u32>,
    /// Those of its instructions that may jump by a table.
    table_jumps: Vec<PlacedInsn>,
}

impl<'a> Model for Text<'a> {
    ghost use Rattle.x86_text.specs.Code.{Body, read_by};
    ghost use Rattle.x86_text.specs.Listed.{IsKept};

    ghost Value = { Body };

    ghost view = { λ t. read_by t.map t.body.now };

    ghost invariant = { λ t. IsKept (read_by t.map t.body.now) t.offsets.items t.table_jumps.items };
}

impl<'a> Text<'a> {
    /// Reads a body of at most 16,777,216 bytes by an opcode map, from its first byte on without gaps, and adds its
    /// instructions to a list. It keeps none of them but those that may jump by a table.
    pub fn read(
        alloc: Global,
        map: Map,
        body: &'a [u8],
        insns: &mut InsnList,
    ) -> Result<Text<'a>, TextFault>
        requires { length body.now ≤ 16_777_216 }
        ensures ok { IfOk result (λ text. text ≡ read_by map body.now) }
        ensures code { OnOk result (IsCode (read_by map body.now)) }
        ensures insns { OnOk result (insns.new ≡ insns.old ++ insns_of (read_by map body.now)) }
        ensures fault { IfErr result (IsTextFault (read_by map body.now)) }
    {
        // Most instructions have three bytes or more.
        let mut offsets = Vec::with_capacity(alloc, body.len() / 3)?;
        let mut table_jumps = Vec::new(alloc);
        insns.make_room(alloc, map, body.len())?;
        let mut off = 0usize;
        while off < body.len() {
            off = read_known(map, body, off, &mut offsets, &mut table_jumps, insns)?;
            if off < body.len() {
                off = read_one(map, body, off, &mut offsets, &mut table_jumps, insns)?;
            }
        }
        Ok(Text {
            map,
            body,
            offsets,
            table_jumps,
        })
    }

    /// How many bytes it has.
    pub fn size(&self) -> u64
        ensures { result ≡ length self.now.bytes }
    {
        self.body.len() as u64
    }

    /// How many instructions it has.
    pub fn count(&self) -> u32
        ensures count { result ≡ length (code_of self.now) }
        // An instruction begins at each boundary of the body, and nowhere else.
        ensures code { IsCode self.now }
        ensures boundaries { (off : ℕ) → IsBoundary self.now off ↔ Contains (offsets_of self.now) off }
        // They have a byte each at least, and fill the body from its first byte to its last.
        ensures some { All (λ p. 0 < p.insn.len) (code_of self.now) }
        ensures whole { LeadsTo 0 (code_of self.now) (length self.now.bytes) }
    {
        self.offsets.len() as u32
    }

    /// Where its instructions begin, ascending.
    pub fn offsets(&self) -> &[u32]
        ensures { result.now ≡ offsets_of self.now }
    {
        &self.offsets
    }

    /// The instruction with this number, and its offset.
    pub fn insn(&self, i: u32) -> (u64, Insn)
        requires { i < length (code_of self.now) }
        ensures listed { slice_get (code_of self.now) i ≡ Some (record { off = result.0; insn = result.1 }) }
        ensures stands { StandsInFront self.now.map (drop result.0 self.now.bytes) result.1 }
        ensures low { result.0 < 2 ^ 32 }
    {
        let off = self.offsets[i as usize];
        match decode(self.map, &self.body[off as usize..]) {
            Ok(insn) => (u64::from(off), insn),
            Err(_) => unreachable!(),
        }
    }

    /// How many of its instructions begin before an offset.
    pub fn count_before(&self, off: u64) -> u32
        ensures within { result ≤ length (code_of self.now) }
        ensures before { (k : ℕ) (d : PlacedInsn) → k < result → (slice_index_or (code_of self.now) k d).off < off }
        ensures others { (k : ℕ) (d : PlacedInsn) → result ≤ k → k < length (code_of self.now) → off ≤ (slice_index_or (code_of self.now) k d).off }
    {
        let offsets = self.offsets.as_slice();
        count_below(offsets, off) as u32
    }

    /// The bytes of the instruction with this number.
    pub fn bytes_of(&self, i: u32) -> &'a [u8]
        requires { i < length (code_of self.now) }
        ensures { IfSome (slice_get (code_of self.now) i) (λ p. result.now ≡ slice_range self.now.bytes p.off (p.off + p.insn.len)) }
    {
        let (off, insn) = self.insn(i);
        let start = off as usize;
        &self.body[start..start + insn.len as usize]
    }

    /// Those of its instructions that may jump by a table, in their order.
    pub fn table_jumps(&self) -> &[PlacedInsn]
        ensures jumps { result.now ≡ table_jumps_of self.now }
        // All its instructions have a byte each at least, and fill the body from its first byte to its last.
        ensures some { All (λ p. 0 < p.insn.len) (code_of self.now) }
        ensures whole { LeadsTo 0 (code_of self.now) (length self.now.bytes) }
    {
        &self.table_jumps
    }

    /// Whether an instruction begins at this offset.
    pub fn is_boundary(&self, off: u64) -> bool
        ensures value { result ≡ is_some (insn_listed (code_of self.now) off) }
        ensures boundary { MatchBool result (IsBoundary self.now off) (IsBoundary self.now off → ⊥) }
        ensures within { result ≡ true → off < length self.now.bytes }
    {
        let offsets = self.offsets.as_slice();
        let place = count_below(offsets, off);
        place < offsets.len() && u64::from(offsets[place]) == off
    }

    /// The instruction that begins at this offset.
    pub fn insn_at(&self, off: u64) -> Option<Insn>
        ensures listed { result ≡ insn_listed (code_of self.now) off }
        ensures found { IfSome result (λ insn. IsBoundary self.now off × StandsInFront self.now.map (drop off self.now.bytes) insn) }
        ensures absent { IfNone result (IsBoundary self.now off → ⊥) }
    {
        if !self.is_boundary(off) {
            return None;
        }
        decode(self.map, &self.body[off as usize..]).ok()
    }

    /// The least offset above this one at which an instruction begins.
    pub fn next(&self, off: u64) -> Option<u64>
        ensures { MatchOption result ((b : ℕ) → IsBoundary self.now b → b ≤ off) (IsNextBoundary self.now off) }
    {
        let offsets = self.offsets.as_slice();
        let place = count_to(offsets, off);
        if place < offsets.len() {
            Some(u64::from(offsets[place]))
        } else {
            None
        }
    }

    /// The greatest offset below this one at which an instruction begins.
    pub fn prev(&self, off: u64) -> Option<u64>
        ensures { MatchOption result ((b : ℕ) → IsBoundary self.now b → off ≤ b) (IsPreviousBoundary self.now off) }
    {
        let offsets = self.offsets.as_slice();
        let place = count_below(offsets, off);
        if place > 0 {
            Some(u64::from(offsets[place - 1]))
        } else {
            None
        }
    }
}

/// Reads the instructions of a body from an offset on up to one that isn't known at once, and tells where that stands.
#[inline(never)]
fn read_known(
    map: Map,
    body: &[u8],
    from: usize,
    offsets: &mut Vec<u32>,
    jumps: &mut Vec<PlacedInsn>,
    insns: &mut InsnList,
) -> Result<usize, NoMemory>
    requires few { length body.now ≤ 16_777_216 }
    requires boundary { from < length body.now → IsBoundary (read_by map body.now) from }
    ensures from { IfOk result (λ off. from ≤ off) }
    ensures read { IfOk result (λ off. AddsCode (read_by map body.now) from off offsets.old.items offsets.new.items jumps.old.items jumps.new.items insns.old insns.new) }
{
    let mut off = from;
    while off < body.len() {
        let Some(found) = insns.push_known(map, &body[off..])? else {
            return Ok(off);
        };
        offsets.push(off as u32)?;
        push_table_jump(jumps, off as u64, found.may_jump, insns)?;
        off += found.len as usize;
    }
    Ok(off)
}

/// Reads the instruction of a body at an offset, and tells where it ends.
#[inline(never)]
fn read_one(
    map: Map,
    body: &[u8],
    off: usize,
    offsets: &mut Vec<u32>,
    jumps: &mut Vec<PlacedInsn>,
    insns: &mut InsnList,
) -> Result<usize, TextFault>
    requires few { length body.now ≤ 16_777_216 }
    requires boundary { IsBoundary (read_by map body.now) off }
    requires inside { off < length body.now }
    ensures behind { IfOk result (λ behind. off < behind) }
    ensures read { IfOk result (λ behind. AddsCode (read_by map body.now) off behind offsets.old.items offsets.new.items jumps.old.items jumps.new.items insns.old insns.new) }
    ensures fault { IfErr result (IsTextFault (read_by map body.now)) }
{
    let insn = insns.read(map, body, off)?;
    offsets.push(off as u32)?;
    push_table_jump(jumps, off as u64, may_use_table(insn.op), insns)?;
    Ok(off + insn.len as usize)
}

/// Adds the last instruction of a list, which stands at an offset.
#[inline(never)]
fn push_last(jumps: &mut Vec<PlacedInsn>, off: u64, insns: &InsnList) -> Result<(), NoMemory>
    requires { 0 < length insns.now }
    ensures { (before : List InsnValue) (last : InsnValue) → insns.now ≡ before ++ last ∷ [] → OnOk result (jumps.new.items ≡ jumps.old.items ++ record { off = off; insn = last } ∷ []) }
{
    let insn = insns.get(insns.len() - 1);
    jumps.push(PlacedInsn { off, insn })?;
    Ok(())
}

/// Adds the last instruction of a list, which stands at an offset, where it may jump by a table.
#[inline(always)]
fn push_table_jump(
    jumps: &mut Vec<PlacedInsn>,
    off: u64,
    may_jump: bool,
    insns: &InsnList,
) -> Result<(), NoMemory>
    requires { 0 < length insns.now }
    ensures { (before : List InsnValue) (last : InsnValue) → insns.now ≡ before ++ last ∷ [] → may_use_a_table last.op ≡ may_jump → OnOk result (jumps.new.items ≡ jumps.old.items ++ filter (λ p. may_use_a_table p.insn.op) (record { off = off; insn = last } ∷ [])) }
{
    if may_jump {
        push_last(jumps, off, insns)?;
    }
    Ok(())
}

/// How many of these are below an offset.
fn count_below(offsets: &[u32], off: u64) -> usize
    requires { IsNonDecreasingBy (λ o. o) offsets.now }
    ensures within { result ≤ length offsets.now }
    ensures below { (k : ℕ) (d : ℕ) → k < result → slice_index_or offsets.now k d < off }
    ensures above { (k : ℕ) (d : ℕ) → result ≤ k → k < length offsets.now → off ≤ slice_index_or offsets.now k d }
{
    offsets.partition_point(|begin| u64::from(*begin) < off)
}

/// How many of these are an offset or below it.
fn count_to(offsets: &[u32], off: u64) -> usize
    requires { IsNonDecreasingBy (λ o. o) offsets.now }
    ensures within { result ≤ length offsets.now }
    ensures below { (k : ℕ) (d : ℕ) → k < result → slice_index_or offsets.now k d ≤ off }
    ensures above { (k : ℕ) (d : ℕ) → result ≤ k → k < length offsets.now → off < slice_index_or offsets.now k d }
{
    offsets.partition_point(|begin| u64::from(*begin) <= off)
}
