//! What is known of an object's code before it is read.

ghost use Rattle.std.specs.Prelude.{◌≡◌, ◌<◌, ◌≤◌, ◌+◌, ◌^◌, ℕ, None, [], length, slice_index_or, option_map, IfOk, IfErr, IfSome, IsTrue, OnOk};
ghost use Rattle.elf_objects.specs.Contents.{relocs_at};
ghost use Rattle.symbols_relocs.specs.NamedPlaces as places;
ghost use Rattle.symbols_relocs.specs.RelocCounts.{LackRelocs};
ghost use Rattle.symbols_relocs.specs.Relocs.{at_offset, IsIndexOf};
ghost use Rattle.symbols_relocs.specs.Faults.{Tells};
ghost use Rattle.symbols_relocs.specs.Functions.{first_bad, function_at as function_symbol_at, starts_at as starts_symbol_at};
ghost use Rattle.symbols_relocs.specs.Lists.{AreFunctions, HaveParents, IsIndexOfSymbol};
ghost use Rattle.symbols_relocs.specs.Parts.{owner_at as owner_symbol_at};
ghost use Rattle.symbols_relocs.specs.Spans.{place_at};
ghost use Rattle.symbols_relocs.specs.BranchNames.{branch_name as branch_name_of, named_symbol as named_symbol_of};
ghost use Rattle.symbols_relocs.specs.Targets.{branch_target as branch_target_of, jump_target as jump_target_of};

use crate::RelocIndex;
use crate::displacement::{Displacement, displacement_of, field_of};
use crate::fault::IndexFault;
use crate::function::Function;
use crate::merge::merge_symbols;
use crate::near::list_counts;
use crate::order::find_start;
use crate::outer::{find_holder, link_outer};
use crate::parents::with_parents;
use crate::span::{Span, find_span};
use crate::symbols::list_symbols;
use crate::target::{Target, field_target, is_branch_kind};
use elf_objects::{Object, Reloc, STB_GLOBAL, STB_WEAK};
use operation_defs::Insn;
use ot_base::{NoMemory, Place};
use std::alloc::Global;
use std::marker::Model;

/// The functions of an object, by their places, and its relocations by theirs.
///
/// It looks things up in the object that it was built from. Contracts see that object and the list of its
/// functions. Nothing here takes memory once it is built.
#[derive(Drop)]
pub struct Index<'o, 'a> {
    object: &'o Object<'a>,
    functions: Vec<Function>,
    /// For each function, how many there are up to the last one before it that ends behind its end.
    outer: Vec<usize>,
    /// How many functions may start at a place or before it, by the slots of places.
    near: Vec<u32>,
    /// The relocations of each section.
    relocs: Vec<RelocIndex>,
}

impl<'o, 'a> Model for Index<'o, 'a> {
    ghost use Rattle.symbols_relocs.specs.Lists.{Indexed, IsIndexed};

    ghost Value = { Indexed };

    ghost view = { λ i. record { elf = i.object.now; functions = i.functions.items } };

    ghost invariant = { λ i. IsIndexed i.object.now i.functions.items i.outer.items i.relocs.items };
}

impl<'o, 'a> Index<'o, 'a> {
    /// Lists the functions of an object and sorts its relocations.
    ///
    /// # Errors
    ///
    /// [`IndexFault::Func`] with the first symbol of type `STT_FUNC` of a text section that starts at the
    /// section's size or behind, or ends behind. [`IndexFault::NoMemory`] may come at any object.
    pub fn build(alloc: Global, object: &'o Object<'a>) -> Result<Index<'o, 'a>, IndexFault>
        ensures ok { IfOk result (λ index. index.elf ≡ object.now) }
        ensures right { OnOk result (first_bad object.now ≡ None) }
        ensures err { IfErr result (Tells object.now) }
    {
        let symbols = list_symbols(alloc, object)?;
        let functions = merge_symbols(alloc, symbols)?;
        let functions = with_parents(alloc, object, &functions)?;
        let outer = link_outer(alloc, &functions)?;
        let near = list_counts(alloc, &functions)?;
        let relocs = index_relocs(alloc, object)?;
        Ok(Index {
            object,
            functions,
            outer,
            near,
            relocs,
        })
    }

    /// The object that it was built from.
    pub fn object(&self) -> &'o Object<'a>
        ensures { result.now ≡ self.now.elf }
    {
        self.object
    }

    /// The functions, each once, in the order of their starts.
    pub fn functions(&self) -> &[Function]
        ensures value { result.now ≡ self.now.functions }
        ensures few { length result.now ≤ 4194304 }
        ensures all { AreFunctions self.now.elf result.now }
        ensures parents { HaveParents self.now.elf result.now }
    {
        &self.functions
    }

    /// The function of a place, by its place among the functions: of those that hold it, the one with the
    /// greatest start.
    pub fn function_at(&self, place: Place) -> Option<u32>
        ensures { IsIndexOfSymbol self.now.functions result (function_symbol_at self.now.elf place) }
    {
        let index = find_holder(&self.functions, &self.outer, &self.near, place)?;
        Some(index as u32)
    }

    /// The function of a place, and up to which offset it is that of all places behind in the section.
    pub fn span_from(&self, place: Place) -> Span
        ensures from { place.off ≤ result.last }
        ensures function { (off : ℕ) → place.off ≤ off → off ≤ result.last → IsIndexOfSymbol self.now.functions result.function (function_symbol_at self.now.elf (place_at place.sec off)) }
    {
        find_span(&self.functions, &self.outer, &self.near, place)
    }

    /// The owner of a place, by its place among the functions: the parent of its function, or the function
    /// itself where that is no part.
    pub fn owner_at(&self, place: Place) -> Option<u32>
        ensures { IsIndexOfSymbol self.now.functions result (owner_symbol_at self.now.elf place) }
    {
        let index = self.function_at(place)?;
        match self.functions[index as usize].parent {
            Some(parent) => Some(parent),
            None => Some(index),
        }
    }

    /// The function that starts at a place, by its place among the functions.
    pub fn starts_at(&self, place: Place) -> Option<u32>
        ensures { IsIndexOfSymbol self.now.functions result (starts_symbol_at self.now.elf place) }
    {
        let index = find_start(&self.functions, &self.near, place)?;
        Some(index as u32)
    }

    /// The relocations whose field begins at a place, in the order of the file.
    pub fn relocs_at(&self, place: Place) -> &[Reloc]
        ensures { result.now ≡ at_offset place.off (relocs_at self.now.elf place.sec) }
    {
        if place.sec >= self.object.sections() {
            return &[];
        }
        self.relocs[place.sec as usize].at(place.off)
    }

    /// The relocation whose field begins at a place, whatever its type: the first in the order of the file.
    pub fn reloc_at(&self, place: Place) -> Option<Reloc>
        ensures { result ≡ places.reloc_at self.now.elf place }
    {
        if place.sec >= self.object.sections() {
            return None;
        }
        self.relocs[place.sec as usize].reloc_at(place.off)
    }

    /// The same relocation, where it is found near or known to be missing.
    #[inline(always)]
    fn reloc_near(&self, place: Place) -> Option<Option<&Reloc>>
        ensures { IfSome result (λ r. option_map (λ p. p.now) r ≡ places.reloc_at self.now.elf place) }
    {
        self.relocs.get(place.sec as usize)?.reloc_near(place.off)
    }

    /// Whether few steps show that no relocation begins at one of so many bytes from a place on.
    #[inline(always)]
    pub(crate) fn lacks_relocs(&self, place: Place, len: u8) -> bool
        requires { place.off + len < 2 ^ 64 }
        ensures { IsTrue result → LackRelocs (relocs_at self.now.elf place.sec) place.off len }
    {
        match self.relocs.get(place.sec as usize) {
            Some(relocs) => relocs.lacks_from(place.off, len),
            None => false,
        }
    }

    /// The place that the field at a place holds by a relocation: the symbol's value plus the addend, in
    /// the symbol's section.
    ///
    /// None where no relocation of the type `R_X86_64_64`, `R_X86_64_PC32`, `R_X86_64_32` or
    /// `R_X86_64_32S` stands there, where the symbol of the first is in no section, and where the sum isn't
    /// from 0 to 2^64 - 1.
    pub fn place_held_at(&self, place: Place) -> Option<Place>
        ensures { result ≡ places.place_held_at self.now.elf place }
    {
        if place.sec >= self.object.sections() {
            return None;
        }
        self.relocs[place.sec as usize].place_held_at(self.object, place.off)
    }

    /// The target of a direct call or branch: the first of the lines of `branch_target` that fits.
    ///
    /// It is [`Target::Bad`] for any other instruction. It judges by the instruction, the relocation and
    /// the symbol alone: whether an instruction starts at the target is not asked.
    #[inline(always)]
    pub fn branch_target(&self, place: Place, insn: Insn) -> Target
        requires { place.off + insn.len < 2 ^ 64 }
        ensures { result ≡ branch_target_of self.now.elf place insn }
    {
        match displacement_of(insn.op) {
            Some(displacement) => self.jump_target(place, insn.len, displacement),
            None => Target::Bad,
        }
    }

    /// The symbol by which a direct call or branch names its target: the symbol of the relocation on its 32-bit displacement, where that
    /// is a GLOBAL or WEAK one and the relocation is one of a branch, with the addend -4.
    pub fn branch_name(&self, place: Place, insn: Insn) -> Option<u32>
        requires { place.off + insn.len < 2 ^ 64 }
        ensures { result ≡ branch_name_of self.now.elf place insn }
    {
        let displacement = displacement_of(insn.op)?;
        if !displacement.wide {
            return None;
        }
        named_symbol(self.object, self.reloc_at(field_of(place, insn.len, true))?)
    }

    /// The target of a call or branch with a displacement.
    #[inline(always)]
    fn jump_target(&self, place: Place, len: u8, displacement: Displacement) -> Target
        requires { place.off + len < 2 ^ 64 }
        ensures { result ≡ jump_target_of self.now.elf place len displacement.rel displacement.wide }
    {
        match self.reloc_near(field_of(place, len, displacement.wide)) {
            Some(reloc) => field_target(self.object, place, len, displacement, reloc),
            None => {
                let target = self.far_target(place, len, displacement);
                target
            }
        }
    }

    /// The same, where the relocation of its field isn't found near.
    #[inline(never)]
    fn far_target(&self, place: Place, len: u8, displacement: Displacement) -> Target
        requires { place.off + len < 2 ^ 64 }
        ensures { result ≡ jump_target_of self.now.elf place len displacement.rel displacement.wide }
    {
        let reloc = self.reloc_at(field_of(place, len, displacement.wide));
        field_target(self.object, place, len, displacement, reloc.as_ref())
    }
}

/// The symbol of a relocation, where it names the place of a GLOBAL or WEAK symbol itself.
fn named_symbol(object: &Object<'_>, reloc: Reloc) -> Option<u32>
    ensures { result ≡ named_symbol_of object.now reloc }
{
    if !is_branch_kind(reloc.kind) || reloc.addend != -4 || reloc.sym >= object.symbols() {
        return None;
    }
    let bind = object.symbol(reloc.sym).bind;
    if bind == STB_GLOBAL || bind == STB_WEAK {
        Some(reloc.sym)
    } else {
        None
    }
}

/// The relocations of each section.
fn index_relocs(alloc: Global, object: &Object<'_>) -> Result<Vec<RelocIndex>, NoMemory>
    ensures len { IfOk result (λ list. length list.items ≡ length object.now.sections) }
    ensures each { IfOk result (λ list. (i : ℕ) → i < length object.now.sections → IsIndexOf (relocs_at object.now i) (slice_index_or list.items i [])) }
{
    let count = object.sections();
    let mut list = Vec::with_capacity(alloc, count as usize)?;
    for sec in 0..count {
        list.push(RelocIndex::build(alloc, object, sec)?)?;
    }
    Ok(list)
}
