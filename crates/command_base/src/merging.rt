//! The command `merge LAYOUT OUT`.

ghost use Rattle.std.specs.Prelude.{◌≡◌, ◌≢◌, ◌⊎◌, ◌<◌, ◌≤◌, ◌^◌, ℕ, List, Some, None, length, IfErr, IfOk, OnOk};
ghost use Rattle.std.specs.FinMap.{get};
ghost use Rattle.ot_files.specs.Causes.{Rose};
ghost use Rattle.ot_files.specs.Content.{Content, ChangesAtMost};
ghost use Rattle.orc_merge.specs.LayoutFile.{FileSaid};
ghost use Rattle.orc_merge.specs.MergeFaults.{merge_fault};
ghost use Rattle.orc_merge.specs.declared.part.Part.{Part as PartValue};
ghost use Rattle.command_base.specs.Printing.{IsOutputFault};
ghost use Rattle.command_base.specs.declared.stop.CommandStop.{CommandStop as StopValue};
ghost use Rattle.command_base.specs.Layouts.{IsLayoutOf, number_of_places};
ghost use Rattle.command_base.specs.MergedObjects.{ArePartsOf, CanBeMerged};
ghost use Rattle.command_base.specs.Merge.{EndsMerge, HasNoTable, IsMerged, IsTableOf, MayBeMerged, StopsBehindLayout, WritesMerged};
ghost use Rattle.command_base.specs.Alike.{FindAlike, WalkAlike};
ghost use Rattle.command_base.specs.Refusing.{IsRefusedOrFails, Tells};
ghost use Rattle.command_base.specs.MergeRefused.{RefusesMerge};

use crate::layouts::read_layout;
use crate::merged_objects::parts_of;
use crate::{CommandStop, Status, conclude, merge_stop, write_file};
use orc_merge::{Layout, Merged, Part};
use ot_files::{Files, Sink};
use std::alloc::Global;

/// The bytes of the table of these objects' merged rows, or why there are none.
fn table_of<'a>(alloc: Global, parts: &[Part]) -> Result<Vec<u8>, CommandStop<'a>>
    requires { CanBeMerged parts.now }
    ensures table { IfOk result (λ table. IsTableOf parts.now table.items) }
    ensures none { IfErr result (HasNoTable parts.now) }
{
    let mut merged = match Merged::merge(alloc, parts) {
        Ok(merged) => merged,
        Err(fault) => return Err(merge_stop(fault)),
    };
    match merged.to_bytes(alloc) {
        Ok(table) => Ok(table),
        Err(_no_memory) => Err(CommandStop::NoMemory),
    }
}

/// Reads the files of a layout and writes the table of their merged rows to OUT, or tells why a command stops that
/// can't.
fn write_merged<'a, F: Files>(
    alloc: Global,
    layout: &'a Layout,
    output: &'a str,
    files: &mut F,
) -> Result<(), CommandStop<'a>>
    requires files { length layout.now < 2 ^ 32 }
    requires places { number_of_places layout.now < 2 ^ 32 }
    ensures written { OnOk result (WritesMerged layout.now output.now (F.content files.old) (F.content files.new)) }
    ensures stopped { IfErr result (StopsBehindLayout layout.now output.now
        (record { content = F.content files.old; faults = F.faults files.old })
        (record { content = F.content files.new; faults = F.faults files.new })) }
    ensures later { F.faults files.old ≤ F.faults files.new }
{
    let parts = match parts_of(alloc, layout, files) {
        Ok(parts) => parts,
        Err(stop) => return Err(stop),
    };
    match table_of(alloc, &parts) {
        Ok(table) => write_file(output, table.as_slice(), files),
        Err(stop) => Err(stop),
    }
}

/// Reads the objects that the layout LAYOUT names, one after the other, and writes to OUT one table of all their rows
/// at the addresses that LAYOUT gives their sections; or tells why it can't. Gives the status that the command ends
/// with. No file but OUT is changed, and OUT only after every step before; where it is done, nothing is printed.
pub fn merge<F: Files, S: Sink>(
    alloc: Global,
    layout: &str,
    output: &str,
    files: &mut F,
    out: &mut S,
) -> Status
    // What was done to the files and told to the output, and why.
    ensures ends { EndsMerge layout.now output.now
        (record { content = F.content files.old; faults = F.faults files.old })
        (record { content = F.content files.new; faults = F.faults files.new })
        (record { written = S.written out.old; faults = S.faults out.old })
        (record { written = S.written out.new; faults = S.faults out.new }) result }

    // It is done only where LAYOUT is read as a layout, its files as objects, and nothing hinders that their rows are
    // merged; OUT then holds the table of their merged rows, short enough for `find`, and every other name what it
    // held.
    ensures merged { result ≡ Status.Done → IsMerged layout.now output.now (F.content files.old) (F.content files.new) }

    // Where the files tell their content, what `find` gives on OUT at each address inside one of an object's ranges
    // is what the object's own rows and ranges give; no row, and a row of the undefined kind, count as one.
    ensures finds { (before after : Content) (said : List FileSaid) (parts : List PartValue) (table : List ℕ) → result ≡ Status.Done
        → F.content files.old ≡ Some before → F.content files.new ≡ Some after
        → IsLayoutOf (Some before) layout.now said → ArePartsOf (Some before) said parts
        → get after output.now ≡ Some table → FindAlike table parts }

    // And a walk over the rows of OUT, in the ranges of all objects, gives the frames of the walk over an object's
    // own rows in its ranges, and stops alike; where that walk leaves the object's ranges, these frames and then
    // maybe more.
    ensures walks { (before after : Content) (said : List FileSaid) (parts : List PartValue) (table : List ℕ) → result ≡ Status.Done
        → F.content files.old ≡ Some before → F.content files.new ≡ Some after
        → IsLayoutOf (Some before) layout.now said → ArePartsOf (Some before) said parts
        → get after output.now ≡ Some table → WalkAlike table parts }

    // Such files aren't refused: it is done, unless a file's fault or want of memory is answered.
    ensures accepts { (held : Content) (said : List FileSaid) (parts : List PartValue)
        → F.content files.old ≡ Some held → IsLayoutOf (Some held) layout.now said → ArePartsOf (Some held) said parts
        → merge_fault parts ≡ None → (result ≡ Status.Done) ⊎ ((result ≡ Status.FileFault) ⊎ (result ≡ Status.NoMemory)) }

    // Where the files tell their content: status 2 comes only where a step finds a refusal, the first that fails, and
    // exactly its line was printed. And where one does, status 2 comes, unless a fault or want of memory is answered.
    ensures refused { (held : Content) → result ≡ Status.Refused → F.content files.old ≡ Some held
        → Tells (RefusesMerge layout.now held) (S.written out.old) (S.written out.new) }
    ensures refuses { (held : Content) (stop : StopValue) → F.content files.old ≡ Some held
        → RefusesMerge layout.now held stop → IsRefusedOrFails result }

    // Nothing is told where it is done.
    ensures silent { result ≡ Status.Done → S.written out.new ≡ S.written out.old }

    // A file is changed only at these answers, only where every step before OUT has passed, and only OUT.
    ensures unchanged { result ≢ Status.Done → result ≢ Status.FileFault → result ≢ Status.NoMemory
        → F.content files.new ≡ F.content files.old }
    ensures changes { (F.content files.new ≡ F.content files.old)
        ⊎ (MayBeMerged layout.now (F.content files.old) × ChangesAtMost output.now (F.content files.old) (F.content files.new)) }

    // A fault is answered only where its count rose in this call, and no count falls.
    ensures file_fault { result ≡ Status.FileFault → Rose (F.faults files.old) (F.faults files.new) }
    ensures sink_fault { result ≡ Status.SinkFault → Rose (S.faults out.old) (S.faults out.new) }
    ensures files_later { F.faults files.old ≤ F.faults files.new }
    ensures out_later { S.faults out.old ≤ S.faults out.new }
    ensures output_failed { S.faults out.old < S.faults out.new → IsOutputFault result }
{
    let layout = match read_layout(alloc, layout, files) {
        Ok(layout) => layout,
        Err(stop) => return conclude(alloc, stop, out),
    };
    match write_merged(alloc, &layout, output, files) {
        Ok(()) => Status::Done,
        Err(stop) => conclude(alloc, stop, out),
    }
}
