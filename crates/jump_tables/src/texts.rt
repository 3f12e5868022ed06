//! The instructions of an object's text sections, by their places.

ghost use Rattle.std.specs.Prelude.{◌≡◌, ◌<◌, ◌≤◌, ◌==◌, ℕ, find, length, slice_index_or};
ghost use Rattle.alternatives.specs.Texts.{AscendBySection, is_boundary as is_a_boundary};
ghost use Rattle.alternatives.specs.declared.texts.SectionText.{SectionText};

use alternatives::SectionText;
use ot_base::Place;

/// How many of these are of sections below one.
fn count_below(texts: &[SectionText<'_>], sec: u32) -> usize
    requires { AscendBySection texts.now }
    ensures within { result ≤ length texts.now }
    ensures below { (k : ℕ) (d : SectionText) → k < result → (slice_index_or texts.now k d).sec < sec }
    ensures above { (k : ℕ) (d : SectionText) → result ≤ k → k < length texts.now → sec ≤ (slice_index_or texts.now k d).sec }
{
    texts.partition_point(|text| text.sec < sec)
}

/// Whether an instruction begins at a place.
pub(crate) fn is_boundary(texts: &[SectionText<'_>], place: Place) -> bool
    requires { AscendBySection texts.now }
    ensures { result ≡ is_a_boundary texts.now place }
{
    let at = count_below(texts, place.sec);
    if at >= texts.len() {
        return false;
    }
    let text = &texts[at];
    if text.sec != place.sec {
        return false;
    }
    text.text.is_boundary(place.off)
}
