//! The instructions of an object's text sections.

ghost use Rattle.std.specs.Prelude.{◌≡◌, ◌++◌, ◌<◌, true, length, IfOk, IfErr, OnOk};
ghost use Rattle.elf_objects.specs.Contents.{is_text, section_at};
ghost use Rattle.elf_objects.specs.Object.{IsObject};
ghost use Rattle.alternatives.specs.Gathered.{plain_insns};
ghost use Rattle.x86_text.specs.Code.{insns_of, IsCode};
ghost use Rattle.flow_defs.specs.Code.{body_of, texts_of};
ghost use Rattle.flow_defs.specs.Coded.{coded_by};
ghost use Rattle.object_points.specs.Linked.{AllCode, AreCode, IsTextsFault};

use crate::fault::LinkFault;
use alternatives::SectionText;
use elf_objects::Object;
use std::alloc::Global;
use x86_text::{InsnList, Map, Text, TextFault};

/// The texts of an object, and their instructions.
#[derive(Drop)]
pub(crate) struct ObjectTexts<'a> {
    /// The text sections, ascending.
    pub(crate) texts: Vec<SectionText<'a>>,
    /// The instructions of all of them, in their order.
    pub(crate) insns: InsnList,
}

/// Decodes a text section by an opcode map, and adds its instructions to a list.
fn read_text<'a>(
    alloc: Global,
    map: Map,
    object: &Object<'a>,
    sec: u32,
    insns: &mut InsnList,
) -> Result<Text<'a>, LinkFault>
    requires object { IsObject object.now.bytes object.now }
    requires inside { sec < length object.now.sections }
    requires text { is_text (section_at object.now sec) ≡ true }
    ensures read { IfOk result (λ text. text ≡ body_of (coded_by map object.now) sec) }
    ensures code { OnOk result (IsCode (body_of (coded_by map object.now) sec)) }
    ensures insns { OnOk result (insns.new ≡ insns.old ++ insns_of (body_of (coded_by map object.now) sec)) }
    ensures fault { AreCode (coded_by map object.now) sec → IfErr result (IsTextsFault (coded_by map object.now)) }
{
    match Text::read(alloc, map, object.section(sec).body, insns) {
        Ok(text) => Ok(text),
        Err(TextFault::NoMemory) => Err(LinkFault::NoMemory),
        Err(TextFault::At { off, why }) => Err(LinkFault::Text {
            sec,
            fault: TextFault::At { off, why },
        }),
    }
}

/// Decodes each text section of an object by an opcode map, in the order of their numbers, or tells the first place
/// where an instruction ought to stand and none does.
pub(crate) fn read_texts<'a>(
    alloc: Global,
    map: Map,
    object: &Object<'a>,
) -> Result<ObjectTexts<'a>, LinkFault>
    ensures read { IfOk result (λ r. r.texts.items ≡ texts_of (coded_by map object.now)) }
    ensures insns { IfOk result (λ r. r.insns ≡ plain_insns (texts_of (coded_by map object.now))) }
    ensures code { OnOk result (AllCode (coded_by map object.now)) }
    ensures object { OnOk result (IsObject object.now.bytes object.now) }
    ensures fault { IfErr result (IsTextsFault (coded_by map object.now)) }
{
    let mut texts = Vec::new(alloc);
    let mut insns = InsnList::new(alloc)?;
    for sec in 0..object.sections() {
        if object.is_text(sec) {
            let text = read_text(alloc, map, object, sec, &mut insns)?;
            texts.push(SectionText { sec, text })?;
        }
    }
    insns.forget_spellings();
    Ok(ObjectTexts { texts, insns })
}
