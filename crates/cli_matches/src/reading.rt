//! What a whole command line asks for.

ghost use Rattle.std.specs.Prelude.{◌≡◌, Ok, Option, Some, codes, map, string_bytes, option_and_then, option_map, IfOk, IfErr, ℕ};
ghost use Rattle.clap.specs.Words.{first_of, subcommand_rows_of};
ghost use Rattle.cli_words.specs.declared.options.CheckOptions.{CheckOptions};
ghost use Rattle.cli_words.specs.declared.options.EntryRules.{EntryRules};
ghost use Rattle.cli_words.specs.declared.options.SiteOptions.{SiteOptions};
ghost use Rattle.x86_map.specs.declared.map.Map.{Map as MapKind};
ghost use Rattle.cli_words.specs.Grammar.{Command as Meant, cfa, cfi, check, command_in, demo, dump, entry, explain, find, IsFaultOf, list, meaning, merge, show, sites, unwind};
ghost use Rattle.cli_words.specs.Numbers.{address_of, number_of};
ghost use Rattle.cli_words.specs.Words.{Word};
ghost use Rattle.cli_matches.specs.Matches.{Says, SaysCheck, SaysEntry, SaysPair, SaysRewriting, SaysShow, SaysSites, request_of, rows_in};

use crate::arguments::{is_given, map_of, pair_of, text_of};
use crate::definition::command_line;
use clap::ArgMatches;
use clap::error::ErrorKind;
use cli_words::{
    CheckOptions, Command, EntryRules, Map, SiteOptions, UsageFault, address_of, judge_words,
    number_of,
};
use ot_base::Options;
use std::alloc::{AllocError, Global};

/// The rules that the options of `check` ask for.
fn rules_of(found: &ArgMatches<'_>) -> Options
    ensures { (input output : Word) (options : CheckOptions) (names : Option Word)
        → SaysCheck (rows_in found.now) input output options names → result ≡ options.rules }
{
    Options {
        fp: is_given(found, "fp"),
        retpoline: is_given(found, "retpoline"),
        rethunk: is_given(found, "rethunk"),
        uaccess: is_given(found, "uaccess"),
        unreachable: !is_given(found, "no-unreachable"),
        link: is_given(found, "link"),
        module: is_given(found, "module"),
    }
}

/// What the words behind `check`, `sites` or `cfi` give, but for the rules that `check` asks for.
#[derive(Drop)]
struct Rewriting {
    input: String,
    output: String,
    map: Map,
    names: Option<String>,
}

/// What such a command has in these matches.
fn rewriting_of(alloc: Global, found: &ArgMatches<'_>) -> Result<Option<Rewriting>, AllocError>
    ensures { IfOk result (λ read. (input output : Word) (map : MapKind) (names : Option Word)
        → SaysRewriting (rows_in found.now) input output map names
        → option_map {U = Word × Word × MapKind × Option Word} (λ r. (string_bytes r.input, string_bytes r.output, r.map, option_map string_bytes r.names)) read
        ≡ Some (input, output, map, names)) }
{
    let input = text_of(alloc, found, "IN")?;
    let output = text_of(alloc, found, "OUT")?;
    let names = text_of(alloc, found, "names")?;
    match (input, output) {
        (Some(input), Some(output)) => Ok(Some(Rewriting {
            input,
            output,
            map: map_of(found),
            names,
        })),
        _ => Ok(None),
    }
}

/// The command of `check`.
fn check_of(alloc: Global, found: &ArgMatches<'_>) -> Result<Option<Command>, AllocError>
    ensures { IfOk result (λ read. (input output : Word) (options : CheckOptions) (names : Option Word)
        → SaysCheck (rows_in found.now) input output options names
        → option_map command_in read ≡ Some (check input output options names)) }
{
    match rewriting_of(alloc, found)? {
        Some(
            Rewriting {
                input,
                output,
                map,
                names,
            },
        ) => Ok(Some(Command::Check {
            input,
            output,
            options: CheckOptions {
                map,
                rules: rules_of(found),
                backtrace: is_given(found, "backtrace"),
            },
            names,
        })),
        None => Ok(None),
    }
}

/// What the options of `sites` say.
fn site_options_of(found: &ArgMatches<'_>) -> SiteOptions
    ensures { (input output : Word) (options : SiteOptions) (map : MapKind) (names : Option Word)
        → SaysSites (rows_in found.now) input output options map names → result ≡ options }
{
    SiteOptions {
        module: is_given(found, "module"),
    }
}

/// The command of `sites`.
fn sites_of(alloc: Global, found: &ArgMatches<'_>) -> Result<Option<Command>, AllocError>
    ensures { IfOk result (λ read. (input output : Word) (options : SiteOptions) (map : MapKind) (names : Option Word)
        → SaysSites (rows_in found.now) input output options map names
        → option_map command_in read ≡ Some (sites input output options map names)) }
{
    match rewriting_of(alloc, found)? {
        Some(
            Rewriting {
                input,
                output,
                map,
                names,
            },
        ) => Ok(Some(Command::Sites {
            input,
            output,
            options: site_options_of(found),
            map,
            names,
        })),
        None => Ok(None),
    }
}

/// The command of `cfi`.
fn cfi_of(alloc: Global, found: &ArgMatches<'_>) -> Result<Option<Command>, AllocError>
    ensures { IfOk result (λ read. (input output : Word) (map : MapKind) (names : Option Word)
        → SaysRewriting (rows_in found.now) input output map names
        → option_map command_in read ≡ Some (cfi input output map names)) }
{
    match rewriting_of(alloc, found)? {
        Some(
            Rewriting {
                input,
                output,
                map,
                names,
            },
        ) => Ok(Some(Command::Cfi {
            input,
            output,
            map,
            names,
        })),
        None => Ok(None),
    }
}

/// The entry rules that the options of `entry` ask for.
fn entry_rules_of(found: &ArgMatches<'_>) -> EntryRules
    ensures { (input : Word) (rules : EntryRules) (map : MapKind) (names : Option Word)
        → SaysEntry (rows_in found.now) input rules map names → result ≡ rules }
{
    EntryRules {
        noinstr: is_given(found, "noinstr"),
        sls: is_given(found, "sls"),
        ibt: is_given(found, "ibt"),
    }
}

/// The command of `entry`.
fn entry_of(alloc: Global, found: &ArgMatches<'_>) -> Result<Option<Command>, AllocError>
    ensures { IfOk result (λ read. (input : Word) (rules : EntryRules) (map : MapKind) (names : Option Word)
        → SaysEntry (rows_in found.now) input rules map names
        → option_map command_in read ≡ Some (entry input rules map names)) }
{
    let input = text_of(alloc, found, "IN")?;
    let names = text_of(alloc, found, "names")?;
    match input {
        Some(input) => Ok(Some(Command::Entry {
            input,
            rules: entry_rules_of(found),
            map: map_of(found),
            names,
        })),
        None => Ok(None),
    }
}

/// The command of `show`.
fn show_of(alloc: Global, found: &ArgMatches<'_>) -> Result<Option<Command>, AllocError>
    ensures { IfOk result (λ read. (input : Word) (function : Option Word) (map : MapKind) (names : Option Word)
        → SaysShow (rows_in found.now) input function map names
        → option_map command_in read ≡ Some (show input function map names)) }
{
    let input = text_of(alloc, found, "IN")?;
    let function = text_of(alloc, found, "function")?;
    let names = text_of(alloc, found, "names")?;
    match input {
        Some(input) => Ok(Some(Command::Show {
            input,
            function,
            map: map_of(found),
            names,
        })),
        None => Ok(None),
    }
}

/// The command of `dump`.
fn dump_of(alloc: Global, found: &ArgMatches<'_>) -> Result<Option<Command>, AllocError>
    ensures { IfOk result (λ read. (file : Word) → first_of (codes "FILE") (rows_in found.now) ≡ Some file
        → option_map command_in read ≡ Some (dump file)) }
{
    match text_of(alloc, found, "FILE")? {
        Some(file) => Ok(Some(Command::Dump { file })),
        None => Ok(None),
    }
}

/// The command of `list`.
fn list_of(alloc: Global, found: &ArgMatches<'_>) -> Result<Option<Command>, AllocError>
    ensures { IfOk result (λ read. (file : Word) → first_of (codes "FILE") (rows_in found.now) ≡ Some file
        → option_map command_in read ≡ Some (list file)) }
{
    match text_of(alloc, found, "FILE")? {
        Some(file) => Ok(Some(Command::List { file })),
        None => Ok(None),
    }
}

/// The command of `cfa`.
fn cfa_of(alloc: Global, found: &ArgMatches<'_>) -> Result<Option<Command>, AllocError>
    ensures { IfOk result (λ read. (file : Word) → first_of (codes "FILE") (rows_in found.now) ≡ Some file
        → option_map command_in read ≡ Some (cfa file)) }
{
    match text_of(alloc, found, "FILE")? {
        Some(file) => Ok(Some(Command::Cfa { file })),
        None => Ok(None),
    }
}

/// The command of `unwind`.
fn unwind_of(alloc: Global, found: &ArgMatches<'_>) -> Result<Option<Command>, AllocError>
    ensures { IfOk result (λ read. (file image : Word) → SaysPair (rows_in found.now) (codes "FILE") (codes "IMAGE") file image
        → option_map command_in read ≡ Some (unwind file image)) }
{
    match pair_of(alloc, found, "FILE", "IMAGE")? {
        Some((file, image)) => Ok(Some(Command::Unwind { file, image })),
        None => Ok(None),
    }
}

/// The command of `merge`.
fn merge_of(alloc: Global, found: &ArgMatches<'_>) -> Result<Option<Command>, AllocError>
    ensures { IfOk result (λ read. (layout output : Word) → SaysPair (rows_in found.now) (codes "LAYOUT") (codes "OUT") layout output
        → option_map command_in read ≡ Some (merge layout output)) }
{
    match pair_of(alloc, found, "LAYOUT", "OUT")? {
        Some((layout, output)) => Ok(Some(Command::Merge { layout, output })),
        None => Ok(None),
    }
}

/// The command of `find`.
fn find_of(alloc: Global, found: &ArgMatches<'_>) -> Result<Option<Command>, AllocError>
    ensures { IfOk result (λ read. (table text : Word) (address : ℕ)
        → SaysPair (rows_in found.now) (codes "TABLE") (codes "ADDR") table text → address_of text ≡ Some address
        → option_map command_in read ≡ Some (find table address)) }
{
    match pair_of(alloc, found, "TABLE", "ADDR")? {
        Some((table, text)) => match address_of(text.as_str()) {
            Some(address) => Ok(Some(Command::Find { table, address })),
            None => Ok(None),
        },
        None => Ok(None),
    }
}

/// The command of `explain`.
fn explain_of(alloc: Global, found: &ArgMatches<'_>) -> Result<Option<Command>, AllocError>
    ensures { IfOk result (λ read. (topic : Option Word) → first_of (codes "TOPIC") (rows_in found.now) ≡ topic
        → option_map command_in read ≡ Some (explain topic)) }
{
    let topic = text_of(alloc, found, "TOPIC")?;
    Ok(Some(Command::Explain { topic }))
}

/// The number of `demo`.
fn number_in(found: &ArgMatches<'_>) -> Option<u32>
    ensures { result ≡ option_and_then number_of (first_of (codes "N") (rows_in found.now)) }
{
    match found.get_str("N") {
        Some(text) => number_of(text),
        None => None,
    }
}

/// The command of `demo`.
fn demo_of(found: &ArgMatches<'_>) -> Option<Command>
    ensures { option_map command_in result ≡ option_map demo (option_and_then number_of (first_of (codes "N") (rows_in found.now))) }
{
    match number_in(found) {
        Some(n) => Some(Command::Demo { n }),
        None => None,
    }
}

/// The command of this name with these matches.
fn named_command(
    alloc: Global,
    name: &str,
    found: &ArgMatches<'_>,
) -> Result<Option<Command>, AllocError>
    ensures { IfOk result (λ read. (asked : Meant) → Says (Some (name.now, rows_in found.now)) asked
        → option_map command_in read ≡ Some asked) }
{
    match name {
        "check" => check_of(alloc, found),
        "dump" => dump_of(alloc, found),
        "unwind" => unwind_of(alloc, found),
        "sites" => sites_of(alloc, found),
        "list" => list_of(alloc, found),
        "entry" => entry_of(alloc, found),
        "cfi" => cfi_of(alloc, found),
        "cfa" => cfa_of(alloc, found),
        "merge" => merge_of(alloc, found),
        "find" => find_of(alloc, found),
        "show" => show_of(alloc, found),
        "explain" => explain_of(alloc, found),
        "demo" => Ok(demo_of(found)),
        _ => Ok(None),
    }
}

/// The command that the matches say.
fn command_of(alloc: Global, matches: &ArgMatches<'_>) -> Result<Option<Command>, AllocError>
    ensures { IfOk result (λ read. (asked : Meant) → Says (subcommand_rows_of matches.now) asked
        → option_map command_in read ≡ Some asked) }
{
    match matches.subcommand() {
        Some((name, found)) => named_command(alloc, name, found),
        None => Ok(None),
    }
}

/// The text of the program that an answer of `clap` asks for.
fn requested(kind: ErrorKind) -> Option<Command>
    ensures { option_map command_in result ≡ request_of kind }
{
    match kind {
        ErrorKind::DisplayHelp => Some(Command::Help),
        ErrorKind::DisplayVersion => Some(Command::Version),
        _ => None,
    }
}

/// The command that the words of a command line ask for, which stand here without the program's name; or
/// the first of them that is at fault, and what is wrong with it.
///
/// Words that mean a command are handed to `clap`, and the command is made of its matches.
pub fn read_words(alloc: Global, words: &[String]) -> Result<Command, UsageFault>
    ensures ok { IfOk result (λ command. meaning (map string_bytes words.now) ≡ Ok (command_in command)) }
    ensures fault { IfErr result (IsFaultOf (meaning (map string_bytes words.now))) }
{
    judge_words(alloc, words)?;
    match command_line(alloc)?.try_get_matches_from(words) {
        Ok(matches) => match command_of(alloc, &matches)? {
            Some(command) => Ok(command),
            None => unreachable!(),
        },
        Err(error) => requested(error.kind()).ok_or(UsageFault::NoMemory),
    }
}
