//! The check of bytes that no file holds, told by one line.

ghost use Rattle.std.specs.Prelude.{◌≡◌, ◌≢◌, ◌<◌, ◌≤◌, ℕ, length};
ghost use Rattle.elf_objects.specs.declared.TheConstants.{MAX_FILE_BYTES as most_bytes};
ghost use Rattle.ot_base.specs.NameLists.{built_in};
ghost use Rattle.ot_files.specs.Causes.{Rose};
ghost use Rattle.object_check.specs.declared.counts.CodeCounts.{CodeCounts};
ghost use Rattle.command_base.specs.declared.refusal.Refusal.{Refusal};
ghost use Rattle.command_base.specs.declared.status.Status.TheVariants as status;
ghost use Rattle.command_base.specs.Printing.{IsOutputFault, Prints};
ghost use Rattle.objtool_cli.specs.Checked.{BreaksRule, IsUncheckable};
ghost use Rattle.objtool_cli.specs.Summary.{IsOrFails, Passes, PrintsRefusal, PrintsSummary, PrintsWarningsOf, SumsUp, no_options, summary_line};

use crate::check::check_stop;
use cli_words::{CheckOptions, Map};
use command_base::{Status, conclude, parse_stop, print_line, print_warnings};
use elf_objects::Object;
use object_check::{CodeCounts, ObjectVerdict, check_object};
use ot_base::{Lists, NoMemory, Options};
use ot_files::Sink;
use std::alloc::Global;
use std::fmt;
use x86_decode::one_outcome;

/// The options of `check` where none is given.
const NO_OPTIONS: CheckOptions = CheckOptions {
    map: Map::Base,
    rules: Options {
        fp: false,
        retpoline: false,
        rethunk: false,
        uaccess: false,
        unreachable: true,
        link: false,
        module: false,
    },
    backtrace: false,
};

/// The numbers that a summary tells.
#[derive(Clone, Copy)]
struct Numbers {
    /// How much code an object has.
    counts: CodeCounts,
    /// How many rows its ORC table has.
    rows: u64,
}

impl fmt::Display for Numbers {
    ghost use Rattle.std.specs.Prelude.{Some};
    ghost use Rattle.objtool_cli.specs.Summary.{numbers_text};

    ghost output = { λ numbers. Some (numbers_text numbers.counts numbers.rows) };

    #[tactic(auto, unfolding(crate::specs::Summary::numbers_text))]
    fn fmt<W: fmt::Write>(&self, f: &mut fmt::Formatter<W>) -> fmt::Result {
        let rows = self.rows;
        let CodeCounts {
            functions,
            instructions,
            text_bytes,
        } = self.counts;
        write!(
            f,
            "functions {functions}, instructions {instructions}, rows {rows}, text bytes {text_bytes}"
        )
    }
}

/// The line of an object that breaks no rule.
#[derive(Clone, Copy)]
struct SummaryLine<'a> {
    /// What stands before the colon.
    title: &'a str,
    /// What stands behind it.
    numbers: Numbers,
}

impl fmt::Display for SummaryLine<'_> {
    ghost use Rattle.std.specs.Prelude.{Some};
    ghost use Rattle.objtool_cli.specs.Summary.{summary_line};

    ghost output = { λ line. Some (summary_line line.title.now line.numbers.counts line.numbers.rows) };

    #[tactic(auto, unfolding(crate::specs::Summary::summary_line))]
    fn fmt<W: fmt::Write>(&self, f: &mut fmt::Formatter<W>) -> fmt::Result {
        writeln!(f, "{}: {}", self.title, self.numbers)
    }
}

/// Prints the line of an object that breaks no rule, and gives the status that the command ends with.
fn print_summary<S: Sink>(alloc: Global, line: SummaryLine<'_>, out: &mut S) -> Status
    ensures printed { Prints status.Done (summary_line line.entry.title.now line.entry.numbers.counts line.entry.numbers.rows)
        (record { written = S.written out.old; faults = S.faults out.old })
        (record { written = S.written out.new; faults = S.faults out.new }) result }
    ensures later { S.faults out.old ≤ S.faults out.new }
    ensures output_failed { S.faults out.old < S.faults out.new → IsOutputFault result }
{
    match format!(in alloc; "{line}") {
        Ok(text) => print_line(Status::Done, text.as_bytes(), out),
        Err(_) => Status::NoMemory,
    }
}

/// Checks bytes under the built-in lists of names and with no options, and tells how that ends.
fn sum_up<S: Sink>(alloc: Global, title: &str, bytes: &[u8], out: &mut S) -> Status
    requires { length bytes.now ≤ most_bytes }
    ensures ends { SumsUp title.now bytes.now
        (record { written = S.written out.old; faults = S.faults out.old })
        (record { written = S.written out.new; faults = S.faults out.new }) result }
    ensures later { S.faults out.old ≤ S.faults out.new }
    ensures output_failed { S.faults out.old < S.faults out.new → IsOutputFault result }
{
    let Ok(lists) = Lists::built_in(alloc) else {
        return Status::NoMemory;
    };
    let object = match Object::parse(alloc, bytes) {
        Ok(object) => object,
        Err(fault) => return conclude(alloc, parse_stop(fault), out),
    };
    match check_object(alloc, NO_OPTIONS.map, &object, &lists, NO_OPTIONS.rules) {
        Ok(ObjectVerdict::Accepted { rows, counts }) => {
            let rows = rows.len() as u64;
            let numbers = Numbers { counts, rows };
            print_summary(alloc, SummaryLine { title, numbers }, out)
        }
        Ok(ObjectVerdict::Broken(warnings)) => print_warnings(alloc, &object, &warnings, out),
        Err(fault) => conclude(alloc, check_stop(&object, fault), out),
    }
}

/// Checks the bytes of an object, at most 67,108,864 (64 MiB), as `check` without options does, and gives the status that a
/// command ends with which does so. Where no rule is broken it prints the line
///
/// ```text
/// TITLE: functions F, instructions I, rows R, text bytes T
/// ```
///
/// with the numbers of functions, parts included, of the instructions of the text sections, of the rows of the ORC table, and
/// of the bytes of the text sections. Where rules are broken it prints the line of each warning, and where the bytes can't
/// be checked the line that says why.
pub fn summary<S: Sink>(alloc: Global, title: &str, bytes: &[u8], out: &mut S) -> Status
    requires { length bytes.now ≤ most_bytes }
    // What was told to the output, and why.
    ensures ends { SumsUp title.now bytes.now
        (record { written = S.written out.old; faults = S.faults out.old })
        (record { written = S.written out.new; faults = S.faults out.new }) result }

    // Where it is done, the bytes break no rule, and exactly their line was printed. And of an object that breaks none exactly
    // its line is printed, or a beginning of it, where the output fails or memory runs out.
    ensures done { result ≡ Status.Done → PrintsSummary title.now bytes.now (S.written out.old) (S.written out.new) }
    ensures passes { (counts : CodeCounts) (rows : ℕ) → Passes bytes.now counts rows
        → Prints status.Done (summary_line title.now counts rows)
        (record { written = S.written out.old; faults = S.faults out.old })
        (record { written = S.written out.new; faults = S.faults out.new }) result }

    // Where warnings are answered, the bytes break rules, and exactly the lines of all warnings were printed. And where they
    // break some, warnings are answered, unless the output fails or memory runs out.
    ensures warned { result ≡ Status.Warnings → PrintsWarningsOf bytes.now (S.written out.old) (S.written out.new) }
    ensures warns { BreaksRule bytes.now built_in no_options → IsOrFails status.Warnings result }

    // The same of bytes that can't be checked, and of the line that says why.
    ensures refused { result ≡ Status.Refused → PrintsRefusal bytes.now (S.written out.old) (S.written out.new) }
    ensures refuses { (refusal : Refusal) → IsUncheckable no_options.map bytes.now built_in refusal → IsOrFails status.Refused result }

    // There are no other answers; a fault of the output is answered only where its count rose, and always where it did, and no
    // count falls.
    ensures no_usage { result ≢ Status.Usage }
    ensures no_file_fault { result ≢ Status.FileFault }
    ensures sink_fault { result ≡ Status.SinkFault → Rose (S.faults out.old) (S.faults out.new) }
    ensures output_failed { S.faults out.old < S.faults out.new → result ≡ Status.SinkFault }
    ensures later { S.faults out.old ≤ S.faults out.new }
{
    one_outcome();
    sum_up(alloc, title, bytes, out)
}
