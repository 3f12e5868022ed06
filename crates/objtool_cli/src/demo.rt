//! The command `demo N`.

ghost use Rattle.std.specs.Prelude.{◌<◌, ◌≤◌};
ghost use Rattle.command_base.specs.Printing.{IsOutputFault};
ghost use Rattle.objtool_cli.specs.Summary.{SumsUp, demo_bytes, demo_title};

use crate::summaries::summary;
use command_base::Status;
use demo_objects::demo as demo_object;
use ot_files::Sink;
use std::alloc::Global;

/// Checks the object of so many functions that is made up, and sums it up with the title `demo` and their number.
pub(crate) fn demo<S: Sink>(alloc: Global, n: u32, out: &mut S) -> Status
    requires { n ≤ 100000 }
    ensures ends { SumsUp (demo_title n) (demo_bytes n)
        (record { written = S.written out.old; faults = S.faults out.old })
        (record { written = S.written out.new; faults = S.faults out.new }) result }
    ensures later { S.faults out.old ≤ S.faults out.new }
    ensures output_failed { S.faults out.old < S.faults out.new → IsOutputFault result }
{
    let Ok(bytes) = demo_object(alloc, n) else {
        return Status::NoMemory;
    };
    match format!(in alloc; "demo {n}") {
        Ok(title) => summary(alloc, title.as_str(), bytes.as_slice(), out),
        Err(_) => Status::NoMemory,
    }
}
