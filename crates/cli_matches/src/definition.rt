//! The command line as `clap` defines it.

ghost use Rattle.std.specs.Prelude.{◌≡◌, IfOk, codes};
ghost use Rattle.clap.specs.Words.{app_of};
ghost use Rattle.cli_matches.specs.Definition.{check_app, demo_app, entry_app, explain_app, file_app, find_app, line_app, merge_app, program_app, rewriting_app, show_app, sites_app, unwind_app};

use crate::making::{
    command, of_file, rewriting, with_command, with_common_options, with_objects, with_optional,
    with_place, with_switch, with_text, with_value,
};
use clap::{ArgAction, Command};
use std::alloc::{AllocError, Global};

const NAME: &str = "objtool";

const VERSION: &str = "0.1.0";

const ABOUT: &str =
    "Checks how compiled kernel code uses the stack, and makes and reads ORC unwind tables";

const CHECK: &str = "Check an object, and write it with its ORC tables added";

const DUMP: &str = "Print the rows of an object's ORC tables";

const UNWIND: &str = "Print the frames of a stack, by an object's ORC tables";

const SITES: &str = "Write an object with lists of its returns, calls through thunks and calls";

const LIST: &str = "Print the site lists of an object";

const ENTRY: &str = "Check code against the entry rules";

const CFI: &str = "Check an object and write it with call frame information";

const CFA: &str = "Print the call frame information of an object";

const MERGE: &str = "Merge the rows of several objects' ORC tables into one table";

const FIND: &str = "Print the row of a merged table that holds at an address";

const SHOW: &str = "Print the program of an object as the checker sees it";

const EXPLAIN: &str = "Print what a rule or a refusal means";

const DEMO: &str = "Make an object of N functions, check it, and print what it has";

/// The command `check`, with its words and options.
pub fn check<'a>(alloc: Global) -> Result<Command<'a>, AllocError>
    ensures { IfOk result (λ command. app_of command ≡ check_app) }
{
    let check = command(alloc, "check", "objtool check", CHECK);
    let check = with_objects(alloc, check);
    let check = with_switch(
        alloc,
        check,
        "fp",
        "Check that each call is made with a frame pointer set up",
    );
    let check = with_switch(
        alloc,
        check,
        "retpoline",
        "Check that no indirect branch is left outside listed places",
    );
    let check = with_switch(
        alloc,
        check,
        "rethunk",
        "Check that no return instruction is left outside listed places",
    );
    let check = with_switch(
        alloc,
        check,
        "uaccess",
        "Check that user access is off outside of listed functions",
    );
    let check = with_switch(
        alloc,
        check,
        "no-unreachable",
        "Don't check that each instruction is reached",
    );
    let check = with_switch(
        alloc,
        check,
        "link",
        "Let code that a linker left without a symbol stand unreached",
    );
    let check = with_switch(
        alloc,
        check,
        "module",
        "Take the object for part of a module, so that .init.text counts too",
    );
    let check = with_switch(
        alloc,
        check,
        "backtrace",
        "Print where each warning is and how control came there",
    );
    with_common_options(alloc, check)
}

/// The command `dump`, with its word.
pub fn dump<'a>(alloc: Global) -> Result<Command<'a>, AllocError>
    ensures { IfOk result (λ command. app_of command ≡ file_app (codes "dump")) }
{
    of_file(alloc, "dump", "objtool dump", DUMP)
}

/// The command `unwind`, with its words.
pub fn unwind<'a>(alloc: Global) -> Result<Command<'a>, AllocError>
    ensures { IfOk result (λ command. app_of command ≡ unwind_app) }
{
    let unwind = of_file(alloc, "unwind", "objtool unwind", UNWIND);
    with_place(
        alloc,
        unwind,
        "IMAGE",
        "The text that says the registers, the placement and the memory",
    )
}

/// The command `sites`, with its words and options.
pub fn sites<'a>(alloc: Global) -> Result<Command<'a>, AllocError>
    ensures { IfOk result (λ command. app_of command ≡ sites_app) }
{
    let sites = command(alloc, "sites", "objtool sites", SITES);
    let sites = with_objects(alloc, sites);
    let sites = with_switch(
        alloc,
        sites,
        "module",
        "Take the object for part of a module, so that .init.text counts too",
    );
    with_common_options(alloc, sites)
}

/// The command `list`, with its word.
pub fn list<'a>(alloc: Global) -> Result<Command<'a>, AllocError>
    ensures { IfOk result (λ command. app_of command ≡ file_app (codes "list")) }
{
    of_file(alloc, "list", "objtool list", LIST)
}

/// The command `entry`, with its word and options.
pub fn entry<'a>(alloc: Global) -> Result<Command<'a>, AllocError>
    ensures { IfOk result (λ command. app_of command ≡ entry_app) }
{
    let entry = command(alloc, "entry", "objtool entry", ENTRY);
    let entry = with_place(alloc, entry, "IN", "The object to check");
    let entry = with_switch(
        alloc,
        entry,
        "noinstr",
        "Check that code that isn't instrumented calls no code that is",
    );
    let entry = with_switch(
        alloc,
        entry,
        "sls",
        "Check that an INT3 stands behind each return and each indirect jump",
    );
    let entry = with_switch(
        alloc,
        entry,
        "ibt",
        "Check that functions whose address is taken begin with ENDBR",
    );
    with_common_options(alloc, entry)
}

/// The command `cfi`, with its words and options.
pub fn cfi<'a>(alloc: Global) -> Result<Command<'a>, AllocError>
    ensures { IfOk result (λ command. app_of command ≡ rewriting_app (codes "cfi")) }
{
    rewriting(alloc, "cfi", "objtool cfi", CFI)
}

/// The command `cfa`, with its word.
pub fn cfa<'a>(alloc: Global) -> Result<Command<'a>, AllocError>
    ensures { IfOk result (λ command. app_of command ≡ file_app (codes "cfa")) }
{
    of_file(alloc, "cfa", "objtool cfa", CFA)
}

/// The command `merge`, with its words.
pub fn merge<'a>(alloc: Global) -> Result<Command<'a>, AllocError>
    ensures { IfOk result (λ command. app_of command ≡ merge_app) }
{
    let merge = command(alloc, "merge", "objtool merge", MERGE);
    let merge = with_place(
        alloc,
        merge,
        "LAYOUT",
        "The text that names the objects and says where their sections lie",
    );
    with_place(alloc, merge, "OUT", "The file to write")
}

/// The command `find`, with its words.
pub fn find<'a>(alloc: Global) -> Result<Command<'a>, AllocError>
    ensures { IfOk result (λ command. app_of command ≡ find_app) }
{
    let find = command(alloc, "find", "objtool find", FIND);
    let find = with_place(alloc, find, "TABLE", "The merged table");
    with_place(alloc, find, "ADDR", "The address, in hexadecimal digits")
}

/// The command `show`, with its word and options.
pub fn show<'a>(alloc: Global) -> Result<Command<'a>, AllocError>
    ensures { IfOk result (λ command. app_of command ≡ show_app) }
{
    let show = command(alloc, "show", "objtool show", SHOW);
    let show = with_place(
        alloc,
        show,
        "IN",
        "The object, an ELF64 relocatable file for x86-64",
    );
    let show = with_value(
        alloc,
        show,
        "function",
        "NAME",
        "Print the code of this function alone",
    );
    with_common_options(alloc, show)
}

/// The command `explain`, with its word.
pub fn explain<'a>(alloc: Global) -> Result<Command<'a>, AllocError>
    ensures { IfOk result (λ command. app_of command ≡ explain_app) }
{
    let explain = command(alloc, "explain", "objtool explain", EXPLAIN);
    with_optional(
        alloc,
        explain,
        "TOPIC",
        "A rule's number, or the kind of a refusal; where none is given, all are listed",
    )
}

/// The command `demo`, with its word.
pub fn demo<'a>(alloc: Global) -> Result<Command<'a>, AllocError>
    ensures { IfOk result (λ command. app_of command ≡ demo_app) }
{
    let demo = command(alloc, "demo", "objtool demo", DEMO);
    with_place(alloc, demo, "N", "A number from 0 to 100000")
}

/// The program, before its commands and options.
fn program<'a>(alloc: Global) -> Command<'a>
    ensures { app_of result ≡ program_app }
{
    Command::new(alloc, NAME)
        .version(VERSION)
        .about(ABOUT)
        .no_binary_name(true)
        .subcommand_required(true)
        .disable_help_flag(true)
        .disable_version_flag(true)
        .disable_help_subcommand(true)
}

/// The whole command line: the program, with its commands and its own options.
pub fn command_line<'a>(alloc: Global) -> Result<Command<'a>, AllocError>
    ensures { IfOk result (λ command. app_of command ≡ line_app) }
{
    let line = with_command(Ok(program(alloc)), check(alloc));
    let line = with_command(line, dump(alloc));
    let line = with_command(line, unwind(alloc));
    let line = with_command(line, sites(alloc));
    let line = with_command(line, list(alloc));
    let line = with_command(line, entry(alloc));
    let line = with_command(line, cfi(alloc));
    let line = with_command(line, cfa(alloc));
    let line = with_command(line, merge(alloc));
    let line = with_command(line, find(alloc));
    let line = with_command(line, show(alloc));
    let line = with_command(line, explain(alloc));
    let line = with_command(line, demo(alloc));
    let line = with_text(alloc, line, "help", 'h', ArgAction::Help, "Print help");
    with_text(
        alloc,
        line,
        "version",
        'V',
        ArgAction::Version,
        "Print version",
    )
}
