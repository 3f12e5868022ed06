//! The rules that the call frame information of an object holds.

ghost use Rattle.std.specs.Prelude.{◌≡◌, ◌≤◌, ◌<◌, ◌+◌, ◌^◌, [], List, length, drop, take, All, IsPermutation, IfOk, IfErr, IfSome, IsOkUnless};
ghost use Rattle.std.specs.List.Sorted.{IsNonDecreasingBy};
ghost use Rattle.eh_frame.specs.declared.fault.EhFault.{EhFault as EhFaultValue};
ghost use Rattle.eh_frame.specs.declared.rule.PlacedRule.{PlacedRule as PlacedRuleValue};
ghost use Rattle.elf_objects.specs.Contents.{relocs_at};
ghost use Rattle.orc_bytes.specs.Sections.{section_named};
ghost use Rattle.eh_frame.specs.Records.{cie, relocs_in, terminator, HoldsRules};
ghost use Rattle.eh_frame.specs.Faults.{FirstFault, HasFrames, RecordFault, Refuses};
ghost use Rattle.eh_frame.specs.Cursor.{AreFrom};
ghost use Rattle.eh_frame.specs.Found.{IsFound, ReadsRecords};

use crate::entry::{CIE, begins_with_cie, is_terminator, read_entry};
use crate::fault::EhFault;
use crate::relocs::{addressed_text, begins_below, only_below, sorted_relocs};
use crate::rule::PlacedRule;
use crate::rules::{ListFault, list_rules};
use elf_objects::{Object, Reloc};
use std::alloc::Global;

/// The first section with a name.
fn section_named(object: &Object<'_>, name: &[u8]) -> Option<u32>
    ensures value { result ≡ section_named object.now name.now }
    ensures known { IfSome result (λ i. i < length object.now.sections) }
    ensures related { IfSome result (λ i. i < length object.now.relocs) }
{
    for i in 0..object.sections() {
        if object.section_is_named(i, name) {
            return Some(i);
        }
    }
    None
}

/// An entry whose record and relocation are right.
#[derive(Clone, Copy)]
pub(crate) struct Found<'a> {
    /// The section that it is for.
    sec: u32,
    /// The section's size.
    size: u32,
    /// Its instructions.
    spelled: &'a [u8],
}

/// The entry at the beginning of some bytes, which stand at an offset of a section and aren't those that end it; or what is wrong
/// with it, which is what is wrong with the object. `relocs` are the section's relocations from that offset on, ascending, and
/// `least` the least section that may come.
fn find_entry<'a>(
    object: &Object<'_>,
    section: u32,
    bytes: &'a [u8],
    at: usize,
    relocs: &[Reloc],
    least: u64,
) -> Result<Found<'a>, EhFault>
    requires short { at + length bytes.now < 2 ^ 32 }
    requires ascending { IsNonDecreasingBy (λ r. r.offset) relocs.now }
    requires from { AreFrom (relocs_at object.now section) at relocs.now }
    requires further { bytes.now ≡ terminator → ⊥ }
    requires first { (fault : EhFaultValue) → RecordFault object.now (relocs_at object.now section) at least bytes.now fault → FirstFault object.now fault }
    ensures ok { IfOk result (λ found. IsFound object.now (relocs_at object.now section) at least bytes.now relocs.now found) }
    ensures err { IfErr result (Refuses object.now) }
{
    let off = at as u64;
    let Some(entry) = read_entry(bytes, at) else {
        return Err(EhFault::BadRecord { off });
    };
    let end = off + 17 + entry.spelled.len() as u64;
    let Some(reloc) = only_below(relocs, end) else {
        return Err(EhFault::BadReloc { off });
    };
    let Some(sec) = addressed_text(object, &reloc, off) else {
        return Err(EhFault::BadReloc { off });
    };
    if object.section_size(sec) != u64::from(entry.size) || u64::from(sec) < least {
        return Err(EhFault::BadRecord { off });
    }
    Ok(Found {
        sec,
        size: entry.size,
        spelled: entry.spelled,
    })
}

/// The rules of the records behind the CIE.
fn read_records(
    alloc: Global,
    object: &Object<'_>,
    section: u32,
    body: &[u8],
    relocs: &[Reloc],
) -> Result<Vec<PlacedRule>, EhFault>
    requires short { length body.now < 2 ^ 32 }
    requires cie { take 24 body.now ≡ cie }
    requires has { HasFrames object.now body.now (relocs_at object.now section) }
    requires none { relocs_in (relocs_at object.now section) 0 24 ≡ [] }
    requires ascending { IsNonDecreasingBy (λ r. r.offset) relocs.now }
    requires permutation { IsPermutation (relocs_at object.now section) relocs.now }
    requires behind { All (λ r. 24 ≤ r.offset) relocs.now }
    ensures ok { IfOk result (λ rules. ReadsRecords object.now (relocs_at object.now section) (drop 24 body.now) rules.items) }
    ensures err { IfErr result (Refuses object.now) }
{
    let mut rules = Vec::new(alloc);
    let mut at = CIE.len();
    let mut next = 0;
    let mut least = 0;
    'records: while !is_terminator(&body[at..]) {
        let found = find_entry(object, section, &body[at..], at, &relocs[next..], least)?;
        match list_rules(&mut rules, found.spelled, found.sec, found.size) {
            Ok(()) => {}
            Err(ListFault::Bad { at: stop }) => {
                return Err(EhFault::BadOp {
                    off: (at + 17 + stop) as u64,
                });
            }
            Err(ListFault::NoMemory) => return Err(EhFault::NoMemory),
        }
        at += 17 + found.spelled.len();
        next += 1;
        least = u64::from(found.sec) + 1;
    }
    if next < relocs.len() {
        return Err(EhFault::BadReloc { off: at as u64 });
    }
    Ok(rules)
}

/// The rules that the `.eh_frame` of an object holds (DWARF 4, section 6.4): for each of its entries that at the section's
/// beginning, and each that isn't the rule before, in the order of their places. Of several sections with one name the first is
/// read. A rule at a section's size isn't listed.
///
/// # Errors
///
/// Where the section isn't one of the profile, the first fault, record by record and within one in the order in which
/// [`EhFault`] lists them; but a wrong size or order of a section is told only where the relocation is right.
/// [`EhFault::NoMemory`] may come at any object.
pub fn decode(alloc: Global, object: &Object<'_>) -> Result<Vec<PlacedRule>, EhFault>
    ensures ok { IfOk result (λ rules. HoldsRules object.now rules.items) }
    ensures err { IfErr result (Refuses object.now) }
    ensures only { (rules : List PlacedRuleValue) → HoldsRules object.now rules → IsOkUnless result EhFault.NoMemory }
    ensures same { (rules : List PlacedRuleValue) → HoldsRules object.now rules → IfOk result (λ told. told.items ≡ rules) }
{
    let Some(section) = section_named(object, b".eh_frame") else {
        return Err(EhFault::NoSection);
    };
    let body = object.section(section).body;
    if !begins_with_cie(body) {
        return Err(EhFault::BadRecord { off: 0 });
    }
    let relocs = sorted_relocs(alloc, object, section)?;
    if begins_below(&relocs, CIE.len() as u64) {
        return Err(EhFault::BadReloc { off: 0 });
    }
    read_records(alloc, object, section, body, &relocs)
}
