//! The lines of a text, and the words of a line.

ghost use Rattle.std.specs.Prelude.{◌≡◌, ◌==◌, map, IfOk};
ghost use Rattle.std.specs.List.{slice_split};
ghost use Rattle.ot_base.specs.NamesFile.{says_nothing};
ghost use Rattle.orc_walk.specs.Lines.{ends_empty, lines, words};

use std::alloc::{AllocError, Global};

/// What stands between the LFs of a text.
fn parts_of(alloc: Global, text: &[u8]) -> Result<Vec<&[u8]>, AllocError>
    ensures { IfOk result (λ v. map (λ part. part.now) v.items ≡ slice_split (λ b. b == 10) text.now) }
{
    text.split(|byte| *byte == b'\n').collect(alloc)
}

/// Whether the last of these parts is empty, or there is none.
fn ends_empty(parts: &[&[u8]]) -> bool
    ensures { result ≡ ends_empty (map (λ part. part.now) parts.now) }
{
    match parts.last() {
        Some(last) => last.is_empty(),
        None => true,
    }
}

/// The lines of a text. Each ends in LF, and the last may lack it.
pub(crate) fn lines_of(alloc: Global, text: &[u8]) -> Result<Vec<&[u8]>, AllocError>
    ensures { IfOk result (λ v. map (λ line. line.now) v.items ≡ lines text.now) }
{
    let mut lines = parts_of(alloc, text)?;
    if ends_empty(&lines) {
        lines.pop();
    }
    Ok(lines)
}

/// The words of a line, which single spaces part.
pub(crate) fn words_of(alloc: Global, line: &[u8]) -> Result<Vec<&[u8]>, AllocError>
    ensures { IfOk result (λ v. map (λ word. word.now) v.items ≡ words line.now) }
{
    line.split(|byte| *byte == b' ').collect(alloc)
}

/// Whether a line is empty or begins with `#`.
pub(crate) fn says_nothing(line: &[u8]) -> bool
    ensures { result ≡ says_nothing line.now }
{
    line.is_empty() || line[0] == b'#'
}
