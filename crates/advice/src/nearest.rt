//! The known word that a word at fault may stand for.

ghost use Rattle.std.specs.Prelude.{◌≡◌, [], ◌∷◌, ◌++◌, IfOk, List, Some, length, map, option_map};
ghost use Rattle.std.specs.Str.{chars};
ghost use Rattle.cli_words.specs.Words.{Word};
ghost use Rattle.advice.specs.Nearest.{IsClosest, IsNearest, are_few, edits};

use std::alloc::{AllocError, Global};
use strsim::levenshtein;

/// A known word, and how many edits make it of the word at fault.
#[derive(Clone, Copy)]
struct Candidate {
    known: &'static str,
    edits: usize,
}

/// The one of two candidates that takes fewer edits, the first where both take the same.
fn fewer_edits(best: Option<Candidate>, next: Candidate) -> Candidate
    ensures { (word : Word) (known : List Word) → IsClosest word known best → next.edits ≡ edits word next.known.now
        → IsClosest word (known ++ next.known.now ∷ []) (Some result) }
{
    match best {
        None => next,
        Some(best) => { if best.edits <= next.edits { best } else { next } }
    }
}

/// The known word to which the fewest edits lead, where there are known words.
fn closest(
    alloc: Global,
    word: &str,
    known: &[&'static str],
) -> Result<Option<Candidate>, AllocError>
    ensures { IfOk result (IsClosest word.now (map (λ other. other.now) known.now)) }
{
    let mut best = None;
    for other in known {
        let next = Candidate {
            known: other,
            edits: levenshtein(alloc, word, other)?,
        };
        best = Some(fewer_edits(best, next));
    }
    Ok(best)
}

/// How many characters a word has.
fn char_count(word: &str) -> usize
    ensures { result ≡ length (chars word.now) }
{
    word.chars().count()
}

/// Whether so many edits are few: at most two, and fewer than the word has characters.
fn are_few(word: &str, edits: usize) -> bool
    ensures { result ≡ are_few word.now edits }
{
    edits <= 2 && edits < char_count(word)
}

/// The nearest of the known words, where one is near: at most two edits of a character lead to it, and
/// fewer than the word has characters.
pub(crate) fn nearest(
    alloc: Global,
    word: &str,
    known: &[&'static str],
) -> Result<Option<&'static str>, AllocError>
    ensures { IfOk result (λ near. IsNearest word.now (map (λ other. other.now) known.now) (option_map (λ near. near.now) near)) }
{
    match closest(alloc, word, known)? {
        Some(best) if are_few(word, best.edits) => Ok(Some(best.known)),
        _ => Ok(None),
    }
}
