//! Which kind of refusal, or which reason for which a file fails, a line tells.

ghost use Rattle.std.specs.Prelude.{◌≡◌, IfSome, IsTrue, map, option_map};
ghost use Rattle.std.specs.List.{find};
ghost use Rattle.explanations.specs.Refusals.{AreKindsTold, has_words, is_explained, mark_of, marks, topic_in, topic_of};
ghost use Rattle.explanations.specs.Topics.{is_topic};

/// Words that stand in the lines of a kind of refusal or of a reason for which a file fails, and its topic.
type Mark = (&'static str, &'static str);

/// The words by which kinds of refusals, and reasons for which files fail, are known. A name of a file or of a section is printed without blanks, and each of these has
/// one, so they stand in what the line says itself. Words that lines of another kind have too stand behind those of that kind.
const MARKS: [Mark; 62] = [
    (" is missing", "missing"),
    (" is longer than ", "longer"),
    ("names file line ", "names-file"),
    ("image line ", "image-line"),
    ("layout line ", "layout-line"),
    ("file needs ", "not-an-object"),
    ("not an x86-64 relocatable file ", "not-an-object"),
    ("too many ", "too-many"),
    (": opcode outside the map: ", "opcode"),
    (": instruction cut after ", "instruction-cut"),
    (": instruction too long", "instruction-too-long"),
    (": bad slot: ", "bad-slot"),
    (": slot ", "bad-slot"),
    (": Compressed", "Compressed"),
    (": HintBase", "HintBase"),
    (": HintOffset", "HintOffset"),
    (": HintSignal", "HintSignal"),
    (": HintType", "HintType"),
    (": Length", "Length"),
    (": NoReloc", "NoReloc"),
    (": NotBoundary", "NotBoundary"),
    (": NotText", "NotText"),
    (": Overlap", "Overlap"),
    (": Replacement", "Replacement"),
    (": Size", "Size"),
    (": bad bits", "bad-bits"),
    (": bad function", "bad-function"),
    (": bad length ", "bad-length"),
    (": bad link", "bad-link"),
    (": bad name", "bad-name"),
    (": bad record", "bad-record"),
    (": bad symbol", "bad-symbol"),
    (": bad table", "bad-table"),
    ("bad operation at ", "bad-operation"),
    ("bad relocation at ", "frame-relocation"),
    (": bad relocation ", "bad-relocation"),
    (" is a frame section", "frame-section"),
    (" is an ORC section", "orc-section"),
    (" is a site list", "site-list"),
    ("no function ", "no-function"),
    ("no section ", "no-section"),
    (": no text", "no-text"),
    (": not a boundary", "not-a-boundary"),
    (": not a call", "not-a-call"),
    (": not a function", "not-a-function"),
    (": not a site", "not-a-site"),
    (": not ended", "not-ended"),
    (": not placed", "not-placed"),
    (": outside the file", "outside-the-file"),
    (": overlaps ", "overlaps"),
    (" rows, ", "rows-and-places"),
    ("table: bad at byte ", "table"),
    (": wraps", "wraps"),
    (": Is a directory", "file-folder"),
    (": No space left on device", "file-full"),
    (": Disk quota exceeded", "file-full"),
    (": No such file or directory", "file-no-folder"),
    (": Not a directory", "file-not-a-folder"),
    (": Permission denied", "file-permission"),
    (": Operation not permitted", "file-permission"),
    (": Read-only file system", "file-read-only"),
    (": File too large", "file-too-large"),
];

/// These words, as a slice.
#[tactic(auto, unfolding(crate::specs::Refusals::marks))]
fn marks() -> &'static [Mark]
    ensures { map mark_of result.now ≡ marks }
{
    &MARKS
}

/// Whether some words stand in a line.
fn has_words(line: &[u8], words: &[u8]) -> bool
    ensures { result ≡ has_words line.now words.now }
{
    for at in 0..line.len() {
        if line[at..].starts_with(words) {
            return true;
        }
    }
    false
}

/// The first of some marks whose words stand in a line.
fn mark_in(marks: &[Mark], line: &[u8]) -> Option<Mark>
    ensures { result ≡ find (λ mark. has_words line.now mark.0.now) marks.now }
{
    marks
        .iter()
        .copied()
        .find(|mark| has_words(line, mark.0.as_bytes()))
}

/// The topic of the first of some marks whose words stand in a line.
fn topic_in(marks: &[Mark], line: &[u8]) -> Option<&'static str>
    ensures { option_map (λ topic. topic.now) result ≡ topic_in (map mark_of marks.now) line.now }
{
    match mark_in(marks, line) {
        Some(mark) => Some(mark.1),
        None => None,
    }
}

/// Whether a line tells a refusal, or why a file fails.
fn is_explained(line: &[u8]) -> bool
    ensures { result ≡ is_explained line.now }
{
    line.starts_with(b"refused: ") || line.starts_with(b"objtool: ")
}

/// The topic of what a line tells, as it is printed: a refusal, where it begins with `refused: `, or why a file fails, where it begins
/// with `objtool: `. It may end in a line feed. A line that tells none has no topic.
pub fn topic_of_refusal(line: &[u8]) -> Option<&'static str>
    ensures topic { option_map (λ topic. topic.now) result ≡ topic_of line.now }
    ensures explained { IfSome result (λ topic. IsTrue (is_topic topic.now)) }
    ensures titles { AreKindsTold }
{
    if is_explained(line) {
        topic_in(marks(), line)
    } else {
        None
    }
}
