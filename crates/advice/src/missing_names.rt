//! Names and numbers that are missing, and how commands are used.

ghost use Rattle.std.specs.Prelude.{◌≡◌, length, map, not, option_map, slice_get, string_bytes};
ghost use Rattle.cli_words.specs.Words.{is_option, names_in};
ghost use Rattle.advice.specs.MissingNames.{ArePlaces, missing_name, missing_of, places_behind, usage_behind};

use cli_words::UsageKind;

/// What the names and numbers behind a first word are called, in their order.
fn place_names(first: &str) -> &'static [&'static str]
    ensures names { map (λ name. name.now) result.now ≡ places_behind first.now }
    ensures places { ArePlaces }
{
    match first {
        "check" | "sites" | "cfi" => &["IN", "OUT"],
        "dump" | "list" | "cfa" => &["FILE"],
        "unwind" => &["FILE", "IMAGE"],
        "entry" | "show" => &["IN"],
        "merge" => &["LAYOUT", "OUT"],
        "find" => &["TABLE", "ADDR"],
        "explain" => &["TOPIC"],
        "demo" => &["N"],
        _ => &[],
    }
}

/// How the command is used that a first word asks for.
pub(crate) fn usage(first: &str) -> &'static str
    ensures { result.now ≡ usage_behind first.now }
{
    match first {
        "check" => "objtool check [OPTIONS] <IN> <OUT>",
        "dump" => "objtool dump <FILE>",
        "unwind" => "objtool unwind <FILE> <IMAGE>",
        "sites" => "objtool sites [OPTIONS] <IN> <OUT>",
        "list" => "objtool list <FILE>",
        "entry" => "objtool entry [OPTIONS] <IN>",
        "cfi" => "objtool cfi [OPTIONS] <IN> <OUT>",
        "cfa" => "objtool cfa <FILE>",
        "merge" => "objtool merge <LAYOUT> <OUT>",
        "find" => "objtool find <TABLE> <ADDR>",
        "show" => "objtool show [OPTIONS] <IN>",
        "explain" => "objtool explain [TOPIC]",
        "demo" => "objtool demo <N>",
        _ => "",
    }
}

/// Whether a word behind a command is a name or a number, and no option.
pub(crate) fn is_name(word: &str) -> bool
    ensures { result ≡ not (is_option word.now) }
{
    match word.as_bytes() {
        [] => true,
        [first, ..] => *first != b'-',
    }
}

/// How many of these words are names or numbers.
fn count_names(words: &[String]) -> usize
    ensures { result ≡ length (names_in (map string_bytes words.now)) }
{
    words
        .iter()
        .map(|word| word.as_str())
        .filter(|word| is_name(word))
        .count()
}

/// The name at this place, where there is one.
pub(crate) fn name_at<'a>(names: &[&'a str], at: usize) -> Option<&'a str>
    ensures { option_map (λ name. name.now) result ≡ slice_get (map (λ name. name.now) names.now) at }
{
    if at < names.len() {
        Some(names[at])
    } else {
        None
    }
}

/// What the first name or number is called that is missing among the words of a command line, where one is.
fn missing_name(words: &[String]) -> Option<&'static str>
    ensures { option_map (λ name. name.now) result ≡ missing_name (map string_bytes words.now) }
{
    match words {
        [] => None,
        [first, rest @ ..] => name_at(place_names(first.as_str()), count_names(rest)),
    }
}

/// What is missing, where the words are at fault by that.
pub(crate) fn missing_of(kind: UsageKind, words: &[String]) -> Option<&'static str>
    ensures { option_map (λ name. name.now) result ≡ missing_of kind (map string_bytes words.now) }
{
    match kind {
        UsageKind::Missing => missing_name(words),
        _ => None,
    }
}
