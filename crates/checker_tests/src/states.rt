//! How many different states are kept of the objects that `demo` checks. What each step comes to is told by no contract, so that the
//! next is proved without it.

ghost use Rattle.std.specs.Prelude.{◌≤◌};

use crate::readings::{code_of, object_of};
use control_flow::flow;
use demo_objects::demo;
use elf_objects::Object;
use kept_states::{Scratch, spread};
use object_points::Linked;
use ot_base::Lists;
use program_graph::Graph;
use state_pool::count_states;
use std::alloc::Global;
use std::test::Fail;

/// The bytes of the object of so many functions.
fn demo_bytes(alloc: Global, functions: u32) -> Option<Vec<u8>>
    requires { functions ≤ 100000 }
{
    demo(alloc, functions).ok()
}

/// The control-flow graph of its code, under the built-in lists of names.
fn graph_of(alloc: Global, linked: &Linked<'_, '_>) -> Option<Graph> {
    let lists = Lists::built_in(alloc).ok()?;
    flow(alloc, linked, &lists).ok()
}

/// How many different states are kept of a graph's points.
fn states_kept(alloc: Global, graph: &Graph) -> Option<u32> {
    let scratch = Scratch::reserve(alloc, graph.points()).ok()?;
    let kept = spread(graph, scratch);
    count_states(alloc, &kept, graph.points()).ok()
}

/// How many different states are kept of a code.
fn states_of_code(alloc: Global, linked: &Linked<'_, '_>) -> Option<u32> {
    let graph = graph_of(alloc, linked)?;
    states_kept(alloc, &graph)
}

/// How many different states are kept of an object.
fn states_of_object(alloc: Global, object: &Object<'_>) -> Option<u32> {
    let linked = code_of(alloc, object)?;
    states_of_code(alloc, &linked)
}

/// How many different states are kept of the object of so many functions.
fn states_of(alloc: Global, functions: u32) -> Option<u32>
    requires { functions ≤ 100000 }
{
    let bytes = demo_bytes(alloc, functions)?;
    let object = object_of(alloc, &bytes)?;
    states_of_object(alloc, &object)
}

/// Of each three functions one has a frame, so five states are kept, however many functions there are.
#[test]
fn five_states_are_kept(rt: HostRuntime) -> Result<(), Fail> {
    assert!(rt; states_of(rt.alloc(), 3) == Some(5));
    assert!(rt; states_of(rt.alloc(), 100_000) == Some(5));
    Ok(())
}
