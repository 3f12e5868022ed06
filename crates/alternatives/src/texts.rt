//! The texts of an object's sections, and where they may be cut.

ghost use Rattle.std.specs.Prelude.{◌≡◌, ◌+◌, ◌<◌, ◌≤◌, ◌==◌, ℕ, true, length, slice_index_or};
ghost use Rattle.alternatives.specs.Texts.{insn_at as insn_found, is_cut as is_a_cut, is_cut_of as is_a_cut_of, is_whole as is_a_whole, AreShort, AscendBySection};
ghost use Rattle.alternatives.specs.declared.texts.SectionText.{SectionText};

use operation_defs::Insn;
use ot_base::Place;
use x86_text::Text;

/// The instructions of a text section.
#[derive(Drop)]
pub struct SectionText<'a> {
    /// The section's number in the section header table.
    pub sec: u32,
    /// Its body, with its instructions.
    pub text: Text<'a>,
}

/// Whether a body ends at an offset.
fn is_end(text: &Text<'_>, off: u64) -> bool
    ensures { result ≡ (off == length text.now.bytes) }
{
    off == text.size()
}

/// Whether an instruction of a body begins at an offset, or the body ends there.
fn is_cut_of(text: &Text<'_>, off: u64) -> bool
    ensures value { result ≡ is_a_cut_of text.now off }
    ensures within { result ≡ true → off ≤ length text.now.bytes }
{
    is_end(text, off) || text.is_boundary(off)
}

/// How many of these are of sections below one.
fn count_below(texts: &[SectionText<'_>], sec: u32) -> usize
    requires { AscendBySection texts.now }
    ensures within { result ≤ length texts.now }
    ensures below { (k : ℕ) (d : SectionText) → k < result → (slice_index_or texts.now k d).sec < sec }
    ensures above { (k : ℕ) (d : SectionText) → result ≤ k → k < length texts.now → sec ≤ (slice_index_or texts.now k d).sec }
{
    texts.partition_point(|text| text.sec < sec)
}

/// The instruction that begins at a place.
pub(crate) fn insn_at(texts: &[SectionText<'_>], place: Place) -> Option<Insn>
    requires { AscendBySection texts.now }
    ensures { result ≡ insn_found texts.now place }
{
    let at = count_below(texts, place.sec);
    if at >= texts.len() {
        return None;
    }
    let text = &texts[at];
    if text.sec != place.sec {
        return None;
    }
    text.text.insn_at(place.off)
}

/// Whether a place is a boundary of a text section, or that section's size.
pub(crate) fn is_cut(texts: &[SectionText<'_>], place: Place) -> bool
    requires ascending { AscendBySection texts.now }
    requires short { AreShort texts.now }
    ensures value { result ≡ is_a_cut texts.now place }
    ensures within { result ≡ true → place.off ≤ 16777216 }
{
    let at = count_below(texts, place.sec);
    if at >= texts.len() {
        return false;
    }
    let text = &texts[at];
    if text.sec != place.sec {
        return false;
    }
    is_cut_of(&text.text, place.off)
}

/// Whether bytes from a place on begin and end at such places.
pub(crate) fn is_whole(texts: &[SectionText<'_>], place: Place, len: u8) -> bool
    requires ascending { AscendBySection texts.now }
    requires short { AreShort texts.now }
    ensures { result ≡ is_a_whole texts.now place len }
{
    if !is_cut(texts, place) {
        return false;
    }
    let off = place.off + u64::from(len);
    is_cut(texts, Place { off, ..place })
}
