//! What is known of an object's code where its tables are looked for.

ghost use Rattle.alternatives.specs.Texts.{AscendBySection};

use alternatives::{SectionText, Sites};
use symbols_relocs::Index;

/// An object with its functions and relocations, the texts of its sections, and its alternatives.
#[derive(Clone, Copy)]
pub(crate) struct Code<'c, 'o, 'a, 't> {
    pub(crate) index: &'c Index<'o, 'a>,
    pub(crate) texts: &'c [SectionText<'t>],
    pub(crate) sites: &'c Sites,
    ghost ascending: { AscendBySection texts.now },
}
