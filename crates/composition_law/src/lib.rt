//! The commands fit together: what `check` writes `dump` and `unwind` read back, and what `sites`, `cfi` and `merge`
//! write `list`, `cfa` and `find`.
#![tactic(auto)]

ghost use Rattle.composition_law.specs.Laws.{CfaIsDone, DumpIsDone, DumpTellsTheRows, FindIsDone, ListIsDone, RowsAreReadBack, StatesAreUnwound, UnwindIsDone, UnwindTellsTheFrames};

use orc_walk::memory_is_said;
use table_defs::walk_is_determined;

/// Rows that are encoded and added to an object are the rows that its ORC sections then hold, and the only
/// ones, so `orc_bytes::decode` of the result gives them.
pub fn rows_are_read_back()
    ensures { RowsAreReadBack }
{}

/// Where the bytes of OUT unwind the object that IN held, `dump` of these bytes prints the lines of exactly
/// the rows by which they do, one each in their order, or memory runs out.
pub fn dump_tells_the_rows()
    ensures { DumpTellsTheRows }
{}

/// So, where a file that holds these bytes and the output don't fail, `dump` of it ends with status 0 and
/// has printed these lines, or memory ran out.
pub fn dump_is_done()
    ensures { DumpIsDone }
{}

/// Where the bytes of OUT unwind the object that IN held, and an image holds a state of some run of the
/// machine on the object's program, with the text sections placed where the machine has them, `unwind` of
/// these bytes and this image isn't refused.
pub fn states_are_unwound()
    ensures { StatesAreUnwound }
{}

/// And it prints exactly the frames of that state's shadow call stack, innermost first, and the stop that
/// belongs to how they end, or memory runs out.
pub fn unwind_tells_the_frames()
    ensures { UnwindTellsTheFrames }
{
    walk_is_determined();
    memory_is_said();
}

/// So, where files that hold these bytes and this image and the output don't fail, `unwind` of them ends
/// with status 0 and has printed these frames and this stop, or memory ran out.
pub fn unwind_is_done()
    ensures { UnwindIsDone }
{
    walk_is_determined();
    memory_is_said();
}

/// Where a file holds the bytes that `sites` writes for an object, and nothing fails, `list` of it ends with status 0
/// and has printed the lines of exactly the sites of the object's code, or memory ran out.
pub fn list_is_done()
    ensures { ListIsDone }
{}

/// Where a file holds the bytes that `cfi` writes for an object, and nothing fails, `cfa` of it ends with status 0 and
/// has printed the lines of exactly the rules of the rows of the object's program, or memory ran out.
pub fn cfa_is_done()
    ensures { CfaIsDone }
{}

/// Where a file holds the table that `merge` writes for some objects, and nothing fails, `find` of it and an address
/// ends with status 0 and has printed the line of the merged row that holds at the address, or that there is none, or
/// memory ran out.
pub fn find_is_done()
    ensures { FindIsDone }
{}
