//! An object with its code read.

ghost use Rattle.std.specs.Prelude.{◌≡◌, ◌≤◌, Some, length, map, IfOk, IfErr, OnOk};
ghost use Rattle.alternatives.specs.Points.{insn_of_point};
ghost use Rattle.alternatives.specs.Sites.{AreSitesOf};
ghost use Rattle.alternatives.specs.Texts.{AscendBySection, text_bytes};
ghost use Rattle.special_sections.specs.Special.{special_of};
ghost use Rattle.ot_base.specs.NameLists.{NameLists};
ghost use Rattle.flow_defs.specs.Code.{alternatives_of, points_of_object, texts_of};
ghost use Rattle.flow_defs.specs.Coded.{coded_by};
ghost use Rattle.object_points.specs.Linked.{IsLinked, IsLinkFault};

use crate::fault::LinkFault;
use crate::texts::{ObjectTexts, read_texts};
use alternatives::{SectionText, Sites};
use elf_objects::Object;
use ot_base::Lists;
use special_sections::{Special, alternatives_are_few};
use std::alloc::Global;
use std::marker::Model;
use symbols_relocs::Index;
use x86_text::Map;

/// An object with its code read: the instructions of its text sections, what its special sections say,
/// its functions, and its alternatives sites. Contracts see it as the object with the opcode map.
#[derive(Drop)]
pub struct Linked<'o, 'a> {
    map: Map,
    texts: Vec<SectionText<'a>>,
    special: Special,
    index: Index<'o, 'a>,
    sites: Sites,
}

impl<'o, 'a> Model for Linked<'o, 'a> {
    ghost use Rattle.flow_defs.specs.Coded.{Coded, coded_by};
    ghost use Rattle.object_points.specs.KeptCode.{IsKept};

    ghost Value = { Coded };

    ghost view = { λ l. coded_by l.map l.index.elf };

    ghost invariant = { λ l. IsKept (coded_by l.map l.index.elf) l.texts.items l.special l.sites };
}

impl<'o, 'a> Linked<'o, 'a> {
    /// Reads the code of an object by an opcode map: its texts, its special sections, its functions, and its alternatives,
    /// in this order. Which of its code is loose, where hints may be any, lists of names say. The object has at most 67,108,864
    /// bytes (64 MiB), so that its points have numbers.
    ///
    /// # Errors
    ///
    /// What the first of these that refuses the object says. [`LinkFault::NoMemory`] may come at any object.
    pub fn link(
        alloc: Global,
        map: Map,
        object: &'o Object<'a>,
        lists: &Lists,
    ) -> Result<Linked<'o, 'a>, LinkFault>
        requires { length object.now.bytes ≤ 67108864 }
        ensures ok { IfOk result (λ linked. linked ≡ coded_by map object.now) }
        ensures right { OnOk result (IsLinked (coded_by map object.now) lists.now) }
        ensures err { IfErr result (IsLinkFault (coded_by map object.now) lists.now) }
    {
        alternatives_are_few();
        let ObjectTexts { texts, insns } = read_texts(alloc, map, object)?;
        let special = Special::read(alloc, object, lists)?;
        let index = Index::build(alloc, object)?;
        let sites = Sites::build(alloc, &special, &texts, insns)?;
        Ok(Linked {
            map,
            texts,
            special,
            index,
            sites,
        })
    }

    /// The object.
    pub fn object(&self) -> &'o Object<'a>
        ensures { result.now ≡ self.now.elf }
    {
        self.index.object()
    }

    /// The text sections with their instructions, ascending.
    pub fn texts(&self) -> &[SectionText<'a>]
        ensures value { result.now ≡ texts_of self.now }
        ensures ascending { AscendBySection result.now }
        ensures little { text_bytes result.now ≤ 16777216 }
        ensures linked { (lists : NameLists) × IsLinked self.now lists }
    {
        &self.texts
    }

    /// What the special sections say.
    pub fn special(&self) -> &Special
        ensures { result.now ≡ special_of self.now.elf }
    {
        &self.special
    }

    /// The functions, and the relocations by their places.
    pub fn index(&self) -> &Index<'o, 'a>
        ensures { result.now.elf ≡ self.now.elf }
    {
        &self.index
    }

    /// The alternatives sites, with the points of the code.
    pub fn sites(&self) -> &Sites
        ensures sites { AreSitesOf (alternatives_of self.now) result.now.sites result.now.entry_numbers }
        ensures points { result.now.points ≡ points_of_object self.now }
        ensures insns { map (λ insn. Some insn) result.now.insns ≡ map (insn_of_point (texts_of self.now) (alternatives_of self.now)) result.now.points }
        ensures entries { result.now.entries ≡ alternatives_of self.now }
    {
        &self.sites
    }
}
