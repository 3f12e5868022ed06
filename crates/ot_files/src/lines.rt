//! Whole lines over any output.
ghost use Rattle.std.specs.Prelude.{◌≡◌, ◌<◌, ◌≤◌, OnOk, OnErr, IsErrOf};
ghost use Rattle.ot_files.specs.Causes.{Rose};
ghost use Rattle.ot_files.specs.Output.{appending, AppendsPrefix};

use crate::output::{Sink, SinkError};

/// Writes a whole line. Each write hands over all that isn't written yet, and never an empty piece.
/// At a refusal a beginning of the line was written.
pub fn write_line<S: Sink>(out: &mut S, line: &[u8]) -> Result<(), SinkError>
    ensures ok { OnOk result (S.written out.new ≡ appending (S.written out.old) line.now) }
    ensures err { OnErr result (AppendsPrefix (S.written out.old) (S.written out.new) line.now) }

    ensures later { S.faults out.old ≤ S.faults out.new }
    ensures failed { IsErrOf result SinkError.Failed → Rose (S.faults out.old) (S.faults out.new) }
    // The count rises at no other answer: no write is tried again behind one that failed.
    ensures only_failed { S.faults out.old < S.faults out.new → IsErrOf result SinkError.Failed }
{
    let mut rest = line;
    while !rest.is_empty() {
        let taken = out.write(rest)?;
        rest = &rest[taken..];
    }
    Ok(())
}
