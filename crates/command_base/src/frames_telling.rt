//! The command `cfa FILE`.

ghost use Rattle.std.specs.Prelude.{◌≡◌, ◌<◌, ◌≤◌, ℕ, List, Ok, Some, IfErr, IsErrOf, OnOk, length};
ghost use Rattle.ot_files.specs.Content.{Content, reading};
ghost use Rattle.ot_files.specs.Output.{appending};
ghost use Rattle.elf_objects.specs.Contents.{section_at};
ghost use Rattle.elf_objects.specs.Elf.{Elf};
ghost use Rattle.eh_frame.specs.Texts.{rule_line};
ghost use Rattle.eh_frame.specs.declared.rule.PlacedRule.{PlacedRule as RuleValue};
ghost use Rattle.command_base.specs.Dump.{IsAnswered};
ghost use Rattle.command_base.specs.Printing.{FailsToPrint, IsOutputFault, Prints};
ghost use Rattle.command_base.specs.declared.status.Status.TheVariants as status;
ghost use Rattle.command_base.specs.declared.stop.CommandStop.{CommandStop as StopValue};
ghost use Rattle.command_base.specs.Cfa.{EndsCfa, IsTold, SaysRules, TellsBytes, rules_text};
ghost use Rattle.command_base.specs.Refusing.{IsRefusedOrFails, Tells};
ghost use Rattle.command_base.specs.CfaRefused.{RefusesCfa};

use crate::rule_line::push_line;
use crate::{Status, conclude, frames_stop, parse_stop, print_part, read_file};
use eh_frame::{PlacedRule, decode};
use elf_objects::{MAX_FILE_BYTES, Object};
use ot_base::NoMemory;
use ot_files::{Files, Sink};
use std::alloc::Global;

/// Prints the line of a rule, which is made in `line`.
fn print_rule<S: Sink>(
    object: &Object<'_>,
    placed: PlacedRule,
    line: &mut Vec<u8>,
    out: &mut S,
) -> Result<(), Status>
    ensures ok { OnOk result (S.written out.new
        ≡ appending (S.written out.old) (rule_line (section_at object.now placed.place.sec).name placed)) }
    ensures err { IfErr result (FailsToPrint (rule_line (section_at object.now placed.place.sec).name placed)
        (record { written = S.written out.old; faults = S.faults out.old })
        (record { written = S.written out.new; faults = S.faults out.new })) }
    ensures later { S.faults out.old ≤ S.faults out.new }
    ensures output_failed { S.faults out.old < S.faults out.new → IsErrOf result Status.SinkFault }
{
    line.clear();
    match push_line(object, placed, line) {
        Ok(()) => print_part(line.as_slice(), out),
        Err(NoMemory) => Err(Status::NoMemory),
    }
}

/// Prints the line of each rule, and gives the status that the command ends with.
fn print_rules<S: Sink>(
    alloc: Global,
    object: &Object<'_>,
    rules: &[PlacedRule],
    out: &mut S,
) -> Status
    ensures printed { Prints status.Done (rules_text object.now rules.now)
        (record { written = S.written out.old; faults = S.faults out.old })
        (record { written = S.written out.new; faults = S.faults out.new }) result }
    ensures later { S.faults out.old ≤ S.faults out.new }
    ensures output_failed { S.faults out.old < S.faults out.new → IsOutputFault result }
{
    let mut line = Vec::new(alloc);
    for placed in rules {
        match print_rule(object, *placed, &mut line, out) {
            Ok(()) => {}
            Err(status) => return status,
        }
    }
    Status::Done
}

/// Prints the rules that the call frame information of an object says, or why it says none.
fn tell_bytes<S: Sink>(alloc: Global, bytes: &[u8], out: &mut S) -> Status
    requires { length bytes.now ≤ MAX_FILE_BYTES }
    ensures ends { TellsBytes bytes.now
        (record { written = S.written out.old; faults = S.faults out.old })
        (record { written = S.written out.new; faults = S.faults out.new }) result }
    ensures later { S.faults out.old ≤ S.faults out.new }
    ensures output_failed { S.faults out.old < S.faults out.new → IsOutputFault result }
{
    let object = match Object::parse(alloc, bytes) {
        Ok(object) => object,
        Err(fault) => return conclude(alloc, parse_stop(fault), out),
    };
    match decode(alloc, &object) {
        Ok(rules) => print_rules(alloc, &object, &rules, out),
        Err(fault) => conclude(alloc, frames_stop(fault), out),
    }
}

/// Reads FILE and prints the rules that its call frame information says, or tells why where it stops.
fn read_and_tell<F: Files, S: Sink>(alloc: Global, file: &str, files: &mut F, out: &mut S) -> Status
    ensures ends { EndsCfa file.now
        (record { content = F.content files.old; faults = F.faults files.old })
        (record { content = F.content files.new; faults = F.faults files.new })
        (record { written = S.written out.old; faults = S.faults out.old })
        (record { written = S.written out.new; faults = S.faults out.new }) result }
    ensures unchanged { F.content files.new ≡ F.content files.old }
    ensures files_later { F.faults files.old ≤ F.faults files.new }
    ensures out_later { S.faults out.old ≤ S.faults out.new }
    ensures output_failed { S.faults out.old < S.faults out.new → IsOutputFault result }
{
    match read_file(alloc, file, MAX_FILE_BYTES, files) {
        Ok(bytes) => tell_bytes(alloc, bytes.as_slice(), out),
        Err(stop) => conclude(alloc, stop, out),
    }
}

/// Prints the frame rules that the call frame information of the object FILE says, one line each, or why it says none, and gives the
/// status that the command ends with. No file is changed.
pub fn cfa<F: Files, S: Sink>(alloc: Global, file: &str, files: &mut F, out: &mut S) -> Status
    // What was told to the output, and why.
    ensures ends { EndsCfa file.now
        (record { content = F.content files.old; faults = F.faults files.old })
        (record { content = F.content files.new; faults = F.faults files.new })
        (record { written = S.written out.old; faults = S.faults out.old })
        (record { written = S.written out.new; faults = S.faults out.new }) result }
    // It is done only where FILE is read as an object whose call frame information says rules, and then their lines were printed.
    ensures told { result ≡ Status.Done → IsTold file.now (F.content files.old) (S.written out.old) (S.written out.new) }
    // Such a FILE isn't refused.
    ensures accepts { (bytes : List ℕ) (object : Elf) (rules : List RuleValue) (held : Content)
        → F.content files.old ≡ Some held → reading held file.now MAX_FILE_BYTES ≡ Ok bytes → SaysRules bytes object rules
        → IsAnswered result }
    // Where the files tell their content: it is refused only where a step finds a refusal, the first that fails, and exactly its line
    // was printed. And where one does, it is refused, unless a fault or want of memory is answered.
    ensures refused { (held : Content) → result ≡ Status.Refused → F.content files.old ≡ Some held
        → Tells (RefusesCfa file.now held) (S.written out.old) (S.written out.new) }
    ensures refuses { (held : Content) (stop : StopValue) → F.content files.old ≡ Some held
        → RefusesCfa file.now held stop → IsRefusedOrFails result }
    ensures unchanged { F.content files.new ≡ F.content files.old }
    ensures files_later { F.faults files.old ≤ F.faults files.new }
    ensures out_later { S.faults out.old ≤ S.faults out.new }
    ensures output_failed { S.faults out.old < S.faults out.new → IsOutputFault result }
{
    read_and_tell(alloc, file, files, out)
}
