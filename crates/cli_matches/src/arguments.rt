//! What the matches of a command have for its arguments.

ghost use Rattle.std.specs.Prelude.{◌≡◌, Some, codes, string_bytes, option_map, IfOk, Bool};
ghost use Rattle.clap.specs.Words.{first_of};
ghost use Rattle.x86_map.specs.declared.map.Map.{Map as MapKind};
ghost use Rattle.cli_words.specs.Words.{Word};
ghost use Rattle.cli_matches.specs.Matches.{SaysPair, SaysSwitch, is_asked, rows_in};

use clap::ArgMatches;
use cli_words::Map;
use std::alloc::{AllocError, Global};

/// The text of a name, where the matches have one.
pub(crate) fn text_of(
    alloc: Global,
    found: &ArgMatches<'_>,
    name: &str,
) -> Result<Option<String>, AllocError>
    ensures { IfOk result (λ text. option_map string_bytes text ≡ first_of name.now (rows_in found.now)) }
{
    match found.get_str(name) {
        Some(text) => Ok(Some(String::from_str(alloc, text)?)),
        None => Ok(None),
    }
}

/// Whether an option is given that has no value.
pub(crate) fn is_given(found: &ArgMatches<'_>, name: &str) -> bool
    ensures { (given : Bool) → SaysSwitch (rows_in found.now) name.now given → result ≡ given }
{
    found.get_flag(name)
}

/// The opcode map that the options ask for.
pub(crate) fn map_of(found: &ArgMatches<'_>) -> Map
    ensures { (map : MapKind) → SaysSwitch (rows_in found.now) (codes "all-opcodes") (is_asked map) → result ≡ map }
{
    if is_given(found, "all-opcodes") {
        Map::Whole
    } else {
        Map::Base
    }
}

/// Two texts, where the matches have both.
pub(crate) fn pair_of(
    alloc: Global,
    found: &ArgMatches<'_>,
    first: &str,
    second: &str,
) -> Result<Option<(String, String)>, AllocError>
    ensures { IfOk result (λ pair. (one other : Word) → SaysPair (rows_in found.now) first.now second.now one other
        → option_map {U = Word × Word} (λ pair. (string_bytes pair.0, string_bytes pair.1)) pair ≡ Some (one, other)) }
{
    let first = text_of(alloc, found, first)?;
    let second = text_of(alloc, found, second)?;
    match (first, second) {
        (Some(first), Some(second)) => Ok(Some((first, second))),
        _ => Ok(None),
    }
}
