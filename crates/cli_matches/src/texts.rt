//! The texts of `--help` and `--version`.

ghost use Rattle.std.specs.Prelude.{◌≡◌};
ghost use Rattle.cli_matches.specs.Texts.{help_text, version_text};

/// The usage as `clap` renders it of the definition, of the program and then of each command, what the
/// statuses mean, and an example.
const HELP: &str = "\
Checks how compiled kernel code uses the stack, and makes and reads ORC unwind tables

Usage: objtool <COMMAND>

Commands:
  check    Check an object, and write it with its ORC tables added
  dump     Print the rows of an object's ORC tables
  unwind   Print the frames of a stack, by an object's ORC tables
  sites    Write an object with lists of its returns, calls through thunks and calls
  list     Print the site lists of an object
  entry    Check code against the entry rules
  cfi      Check an object and write it with call frame information
  cfa      Print the call frame information of an object
  merge    Merge the rows of several objects' ORC tables into one table
  find     Print the row of a merged table that holds at an address
  show     Print the program of an object as the checker sees it
  explain  Print what a rule or a refusal means
  demo     Make an object of N functions, check it, and print what it has

Options:
  -h, --help     Print help
  -V, --version  Print version

Check an object, and write it with its ORC tables added

Usage: objtool check [OPTIONS] <IN> <OUT>

Arguments:
  <IN>   The object, an ELF64 relocatable file for x86-64
  <OUT>  The file to write, which may have the name IN

Options:
      --fp              Check that each call is made with a frame pointer set up
      --retpoline       Check that no indirect branch is left outside listed places
      --rethunk         Check that no return instruction is left outside listed places
      --uaccess         Check that user access is off outside of listed functions
      --no-unreachable  Don't check that each instruction is reached
      --link            Let code that a linker left without a symbol stand unreached
      --module          Take the object for part of a module, so that .init.text counts too
      --backtrace       Print where each warning is and how control came there
      --all-opcodes     Read vector, virtualization and newer system instructions too
      --names=<FILE>    Add the function names of FILE to the lists that are built in

Print the rows of an object's ORC tables

Usage: objtool dump <FILE>

Arguments:
  <FILE>  The object

Print the frames of a stack, by an object's ORC tables

Usage: objtool unwind <FILE> <IMAGE>

Arguments:
  <FILE>   The object
  <IMAGE>  The text that says the registers, the placement and the memory

Write an object with lists of its returns, calls through thunks and calls

Usage: objtool sites [OPTIONS] <IN> <OUT>

Arguments:
  <IN>   The object, an ELF64 relocatable file for x86-64
  <OUT>  The file to write, which may have the name IN

Options:
      --module        Take the object for part of a module, so that .init.text counts too
      --all-opcodes   Read vector, virtualization and newer system instructions too
      --names=<FILE>  Add the function names of FILE to the lists that are built in

Print the site lists of an object

Usage: objtool list <FILE>

Arguments:
  <FILE>  The object

Check code against the entry rules

Usage: objtool entry [OPTIONS] <IN>

Arguments:
  <IN>  The object to check

Options:
      --noinstr       Check that code that isn't instrumented calls no code that is
      --sls           Check that an INT3 stands behind each return and each indirect jump
      --ibt           Check that functions whose address is taken begin with ENDBR
      --all-opcodes   Read vector, virtualization and newer system instructions too
      --names=<FILE>  Add the function names of FILE to the lists that are built in

Check an object and write it with call frame information

Usage: objtool cfi [OPTIONS] <IN> <OUT>

Arguments:
  <IN>   The object, an ELF64 relocatable file for x86-64
  <OUT>  The file to write, which may have the name IN

Options:
      --all-opcodes   Read vector, virtualization and newer system instructions too
      --names=<FILE>  Add the function names of FILE to the lists that are built in

Print the call frame information of an object

Usage: objtool cfa <FILE>

Arguments:
  <FILE>  The object

Merge the rows of several objects' ORC tables into one table

Usage: objtool merge <LAYOUT> <OUT>

Arguments:
  <LAYOUT>  The text that names the objects and says where their sections lie
  <OUT>     The file to write

Print the row of a merged table that holds at an address

Usage: objtool find <TABLE> <ADDR>

Arguments:
  <TABLE>  The merged table
  <ADDR>   The address, in hexadecimal digits

Print the program of an object as the checker sees it

Usage: objtool show [OPTIONS] <IN>

Arguments:
  <IN>  The object, an ELF64 relocatable file for x86-64

Options:
      --function=<NAME>  Print the code of this function alone
      --all-opcodes      Read vector, virtualization and newer system instructions too
      --names=<FILE>     Add the function names of FILE to the lists that are built in

Print what a rule or a refusal means

Usage: objtool explain [TOPIC]

Arguments:
  [TOPIC]  A rule's number, or the kind of a refusal; where none is given, all are listed

Make an object of N functions, check it, and print what it has

Usage: objtool demo <N>

Arguments:
  <N>  A number from 0 to 100000

Statuses:
  0  all was done
  1  a rule is broken; a line for each place says which
  2  a file is missing, too long, or not what it has to be; a line says why
  3  the words are no command; a line says which and why
  4  a file couldn't be read or written; a line names it
  5  a line couldn't be written
  6  memory ran out

Example:
  objtool check leaf.o checked.o
";

const VERSION: &str = "objtool 0.1.0\n";

/// The text of `--help`.
#[tactic(auto, unfolding(crate::specs::Texts::help_text))]
pub fn help_text() -> &'static str
    ensures { result.now ≡ help_text }
{
    HELP
}

/// The text of `--version`: the name and the version.
#[tactic(auto, unfolding(crate::specs::Texts::version_text))]
pub fn version_text() -> &'static str
    ensures { result.now ≡ version_text }
{
    VERSION
}
