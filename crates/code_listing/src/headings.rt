//! The headings of functions.

ghost use Rattle.std.specs.Prelude.{◌≡◌, ◌++◌, ◌<◌, OnOk, Some, codes, length};
ghost use Rattle.machine_defs.specs.Program.{Program};
ghost use Rattle.program_graph.specs.Tells.{Tells};
ghost use Rattle.code_listing.specs.Points.{symbol_words};
ghost use Rattle.code_listing.specs.Listing.{begins_function, heading_of, heading_text, is_same_function, unchecked_words};

use crate::flow::push_text;
use crate::points::symbol_text;
use elf_objects::Object;
use ot_base::NoMemory;
use program_graph::Graph;

/// Whether two points have the same function, or none.
fn is_same_function(one: Option<u32>, other: Option<u32>) -> bool
    ensures { result ≡ is_same_function one other }
{
    one == other
}

/// Whether a point is the first, or of another function than the point before.
fn begins_function(graph: &Graph, n: u32) -> bool
    requires { n < length graph.now.parts.points.items }
    ensures { (p : Program) → Tells p graph.now.parts → result ≡ begins_function p n }
{
    n == 0 || !is_same_function(graph.function(n - 1), graph.function(n))
}

/// What the heading says of a function that isn't checked.
fn unchecked_words(unchecked: bool) -> &'static str
    ensures { result.now ≡ unchecked_words unchecked }
{
    if unchecked { " (not checked)" } else { "" }
}

/// Appends the heading of the code of a function that is no part of another one.
fn push_whole(
    object: &Object<'_>,
    function: u32,
    unchecked: bool,
    into: &mut Vec<u8>,
) -> Result<(), NoMemory>
    ensures ok { OnOk result (into.new.items ≡ into.old.items ++ (symbol_words object.now function ++ unchecked_words unchecked ++ codes ":\n")) }
{
    let alloc = *into.allocator();
    let name = symbol_text(object, function);
    let unchecked = unchecked_words(unchecked);
    push_text(&format!(in alloc; "{name}{unchecked}:\n")?, into)
}

/// Appends the heading of the code of a part of a function.
fn push_part_of(
    object: &Object<'_>,
    function: u32,
    owner: u32,
    unchecked: bool,
    into: &mut Vec<u8>,
) -> Result<(), NoMemory>
    ensures ok { OnOk result (into.new.items ≡ into.old.items ++ (symbol_words object.now function ++ (codes " (part of " ++ symbol_words object.now owner ++ codes ")") ++ unchecked_words unchecked ++ codes ":\n")) }
{
    let alloc = *into.allocator();
    let name = symbol_text(object, function);
    let whole = symbol_text(object, owner);
    let unchecked = unchecked_words(unchecked);
    push_text(
        &format!(in alloc; "{name} (part of {whole}){unchecked}:\n")?,
        into,
    )
}

/// Appends the heading of a function's code.
#[tactic(auto, unfolding(crate::specs::Listing::heading_of))]
fn push_function(
    object: &Object<'_>,
    function: u32,
    owner: Option<u32>,
    unchecked: bool,
    into: &mut Vec<u8>,
) -> Result<(), NoMemory>
    ensures ok { OnOk result (into.new.items ≡ into.old.items ++ heading_of object.now (Some function) owner unchecked) }
{
    let Some(owner) = owner else {
        return push_whole(object, function, unchecked, into);
    };
    if owner == function {
        return push_whole(object, function, unchecked, into);
    }
    push_part_of(object, function, owner, unchecked, into)
}

/// Appends the heading that stands before a point's line, where one does.
#[tactic(auto, unfolding(crate::specs::Listing::heading_of))]
pub(crate) fn push_heading(
    object: &Object<'_>,
    graph: &Graph,
    n: u32,
    into: &mut Vec<u8>,
) -> Result<(), NoMemory>
    requires { n < length graph.now.parts.points.items }
    ensures ok { (p : Program) → Tells p graph.now.parts → OnOk result (into.new.items ≡ into.old.items ++ heading_text object.now p n) }
{
    if !begins_function(graph, n) {
        return Ok(());
    }
    match graph.function(n) {
        Some(function) => {
            push_function(object, function, graph.owner(n), graph.unchecked(n), into)
        }
        None => push_text("no function:\n", into),
    }
}
