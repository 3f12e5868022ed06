//! The lines that are printed behind a warning's line.

ghost use Rattle.std.specs.Prelude.{◌≡◌, ◌++◌, ◌<◌, All, OnErr, OnOk, Some, length};
ghost use Rattle.machine_defs.specs.Program.{Program};
ghost use Rattle.program_graph.specs.Tells.{Tells};
ghost use Rattle.command_base.specs.BacktraceText.{further_text, holder_line, holder_text, kind_words as kind_words_of, see_line, state_line, step_text, steps_line};

use crate::backtrace_holder::Holder;
use code_listing::{push_point, push_state};
use elf_objects::Object;
use ot_base::{Escaped, Names, NoMemory, PlaceText};
use program_graph::Graph;
use state_defs::State;
use state_ways::{WayKind, WayStep};
use std::fmt;

/// How control came to a point.
fn kind_words(kind: WayKind) -> &'static str
    ensures { result.now ≡ kind_words_of kind }
{
    match kind {
        WayKind::Entry => "entry",
        WayKind::Hint => "hint",
        WayKind::Restore => "restore",
        WayKind::Next => "next",
        WayKind::Taken => "taken",
        WayKind::Fixup => "fixup",
        WayKind::Table => "table",
    }
}

/// A place by its distance from the start of the function that holds it.
#[derive(Clone, Copy)]
struct HolderText<'a, 'o> {
    object: &'a Object<'o>,
    holder: Option<Holder>,
}

impl fmt::Display for HolderText<'_, '_> {
    ghost output = { λ t. Some (holder_text t.object.now t.holder) };

    fn fmt<W: fmt::Write>(&self, f: &mut fmt::Formatter<W>) -> fmt::Result {
        match self.holder {
            Some(Holder { sym, off }) => {
                let place = PlaceText {
                    section: self.object.symbol_name(sym),
                    off,
                };
                write!(f, "{place}")
            }
            None => write!(f, "no function"),
        }
    }
}

/// Appends words.
fn push_words(words: &str, into: &mut Vec<u8>) -> Result<(), NoMemory>
    ensures ok { OnOk result (into.new.items ≡ into.old.items ++ words.now) }
    ensures err { OnErr result (into.new.items ≡ into.old.items) }
{
    into.extend_from_slice(words.as_bytes())?;
    Ok(())
}

/// The line of the function that holds a place.
#[derive(Clone, Copy)]
struct HolderLine<'a, 'o> {
    file: Escaped<'a>,
    holder: HolderText<'a, 'o>,
}

impl fmt::Display for HolderLine<'_, '_> {
    ghost output = { λ l. Some (holder_line l.holder.object.now l.file.0.now l.holder.holder) };

    fn fmt<W: fmt::Write>(&self, f: &mut fmt::Formatter<W>) -> fmt::Result {
        let HolderLine { file, holder } = *self;
        writeln!(f, "    in {file}: {holder}")
    }
}

/// Appends the line of the function that holds a place of an object that was read from a file.
pub(crate) fn push_holder(
    object: &Object<'_>,
    input: &str,
    holder: Option<Holder>,
    into: &mut Vec<u8>,
) -> Result<(), NoMemory>
    ensures { OnOk result (into.new.items ≡ into.old.items ++ holder_line object.now input.now holder) }
{
    let alloc = *into.allocator();
    let line = HolderLine {
        file: Escaped(input.as_bytes()),
        holder: HolderText { object, holder },
    };
    let text = format!(in alloc; "{line}")?;
    into.extend_from_slice(text.as_bytes())?;
    Ok(())
}

/// Appends the line of the state that is kept at a point, if one is.
pub(crate) fn push_kept(state: Option<State>, into: &mut Vec<u8>) -> Result<(), NoMemory>
    ensures { OnOk result (into.new.items ≡ into.old.items ++ state_line state) }
{
    push_words("    state: ", into)?;
    push_state(state, into)?;
    push_words("\n", into)
}

/// Appends a step.
fn push_step(
    object: &Object<'_>,
    graph: &Graph,
    step: WayStep,
    into: &mut Vec<u8>,
) -> Result<(), NoMemory>
    requires { step.point < length graph.now.parts.points.items }
    ensures { (p : Program) → Tells p graph.now.parts → OnOk result (into.new.items ≡ into.old.items ++ step_text object.now p step) }
{
    push_point(object, graph, step.point, into)?;
    push_words(" ", into)?;
    push_words(kind_words(step.kind), into)
}

/// Appends each step behind a comma and a blank.
fn push_further(
    object: &Object<'_>,
    graph: &Graph,
    steps: &[WayStep],
    into: &mut Vec<u8>,
) -> Result<(), NoMemory>
    requires { All (λ s. s.point < length graph.now.parts.points.items) steps.now }
    ensures { (p : Program) → Tells p graph.now.parts → OnOk result (into.new.items ≡ into.old.items ++ further_text object.now p steps.now) }
{
    for step in steps {
        push_words(", ", into)?;
        push_step(object, graph, *step, into)?;
    }
    Ok(())
}

/// Appends the line of some steps under its first words, where there are some.
pub(crate) fn push_steps(
    object: &Object<'_>,
    graph: &Graph,
    head: &str,
    steps: &[WayStep],
    into: &mut Vec<u8>,
) -> Result<(), NoMemory>
    requires { All (λ s. s.point < length graph.now.parts.points.items) steps.now }
    ensures { (p : Program) → Tells p graph.now.parts → OnOk result (into.new.items ≡ into.old.items ++ steps_line object.now p head.now steps.now) }
{
    if steps.is_empty() {
        return Ok(());
    }
    push_words("    ", into)?;
    push_words(head, into)?;
    push_words(": ", into)?;
    push_step(object, graph, steps[0], into)?;
    push_further(object, graph, &steps[1..], into)?;
    push_words("\n", into)
}

/// The line that names the explanation of a rule.
#[derive(Clone, Copy)]
struct SeeLine(u8);

impl fmt::Display for SeeLine {
    ghost output = { λ l. Some (see_line l.0) };

    fn fmt<W: fmt::Write>(&self, f: &mut fmt::Formatter<W>) -> fmt::Result {
        let rule = self.0;
        writeln!(f, "    see: objtool explain {rule}")
    }
}

/// Appends the line that names the explanation of a rule.
pub(crate) fn push_see(rule: u8, into: &mut Vec<u8>) -> Result<(), NoMemory>
    ensures { OnOk result (into.new.items ≡ into.old.items ++ see_line rule) }
{
    let alloc = *into.allocator();
    let line = SeeLine(rule);
    let text = format!(in alloc; "{line}")?;
    into.extend_from_slice(text.as_bytes())?;
    Ok(())
}
