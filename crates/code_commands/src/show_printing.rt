//! The listing of a program, printed line by line.

ghost use Rattle.std.specs.Prelude.{◌≡◌, ◌<◌, ◌≤◌, IfErr, IsErrOf, OnOk, length, option_map};
ghost use Rattle.ot_files.specs.Output.{appending};
ghost use Rattle.machine_defs.specs.Program.{Program};
ghost use Rattle.kept_states.specs.LevelStates.{at};
ghost use Rattle.program_graph.specs.Tells.{Tells};
ghost use Rattle.code_listing.specs.Listing.{listing_text, part_text};
ghost use Rattle.code_listing.specs.Points.{NamesPoints};
ghost use Rattle.command_base.specs.Printing.{FailsToPrint, IsOutputFault, Prints};
ghost use Rattle.command_base.specs.declared.status.Status.TheVariants as status;

use code_listing::push_part;
use command_base::{Status, print_part};
use elf_objects::Object;
use kept_states::Kept;
use ot_base::NoMemory;
use ot_files::Sink;
use program_graph::Graph;
use std::alloc::Global;

/// Prints what is listed of a point, which is made in `line`.
fn print_point<S: Sink>(
    object: &Object<'_>,
    graph: &Graph,
    kept: &Kept,
    function: Option<&str>,
    n: u32,
    line: &mut Vec<u8>,
    out: &mut S,
) -> Result<(), Status>
    requires point { n < length graph.now.parts.points.items }
    requires kept { length kept.now ≡ length graph.now.parts.points.items }
    requires named { (p : Program) × Tells p graph.now.parts × NamesPoints p }
    ensures ok { (p : Program) → Tells p graph.now.parts → OnOk result (S.written out.new ≡ appending (S.written out.old)
        (part_text object.now p (at kept.now) (option_map (λ name. name.now) function.entry) n)) }
    ensures err { (p : Program) → Tells p graph.now.parts → IfErr result (FailsToPrint
        (part_text object.now p (at kept.now) (option_map (λ name. name.now) function.entry) n)
        (record { written = S.written out.old; faults = S.faults out.old })
        (record { written = S.written out.new; faults = S.faults out.new })) }
    ensures later { S.faults out.old ≤ S.faults out.new }
    ensures output_failed { S.faults out.old < S.faults out.new → IsErrOf result Status.SinkFault }
{
    line.clear();
    match push_part(object, graph, kept, function, n, line) {
        Ok(()) => print_part(line.as_slice(), out),
        Err(NoMemory) => Err(Status::NoMemory),
    }
}

/// Prints the listing of a program, of all code or of the functions of one name, and gives the status that the command ends with.
pub(crate) fn print_listing<S: Sink>(
    alloc: Global,
    object: &Object<'_>,
    graph: &Graph,
    kept: &Kept,
    function: Option<&str>,
    out: &mut S,
) -> Status
    requires kept { length kept.now ≡ length graph.now.parts.points.items }
    requires named { (p : Program) × Tells p graph.now.parts × NamesPoints p }
    ensures printed { (p : Program) → Tells p graph.now.parts → Prints status.Done
        (listing_text object.now p (at kept.now) (option_map (λ name. name.now) function.entry))
        (record { written = S.written out.old; faults = S.faults out.old })
        (record { written = S.written out.new; faults = S.faults out.new }) result }
    ensures later { S.faults out.old ≤ S.faults out.new }
    ensures output_failed { S.faults out.old < S.faults out.new → IsOutputFault result }
{
    let mut line = Vec::new(alloc);
    for n in 0..graph.points() {
        match print_point(object, graph, kept, function, n, &mut line, out) {
            Ok(()) => {}
            Err(status) => return status,
        }
    }
    Status::Done
}
