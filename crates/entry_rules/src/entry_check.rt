//! The check of an object against the entry rules.

ghost use Rattle.std.specs.Prelude.{◌≡◌, true, IfOk, OnOk};
ghost use Rattle.ot_base.specs.NameLists.{NameLists};
ghost use Rattle.flow_defs.specs.Program.{program_of};
ghost use Rattle.object_points.specs.Places.{HaveSamePlaces};
ghost use Rattle.program_graph.specs.Tells.{Tells};
ghost use Rattle.stack_rules.specs.Gains.{Gains};
ghost use Rattle.taken_places.specs.Taken.{excused_places, taken_places};
ghost use Rattle.entry_rules.specs.ObjectFacts.{facts_of};
ghost use Rattle.entry_rules.specs.PointWarns.{BareWarns, LeavingWarns, TakenWarns};
ghost use Rattle.entry_rules.specs.Verdict.{AreFound, IsGraphOf, PromisesHold};

use crate::bare::push_bare;
use crate::law::rules_are_kept;
use crate::leaving::push_leaving;
use crate::noinstr::list_noinstr;
use crate::options::EntryOptions;
use crate::taken::push_taken;
use elf_objects::Object;
use object_law::entry_laws::program_has_functions;
use object_law::flow_laws::program_is_one;
use object_points::{Linked, PlaceSet, PointPlaces};
use ot_base::{NoMemory, Warning};
use point_edges::object_is_in_order;
use program_graph::Graph;
use stack_rules::sort_warnings;
use std::alloc::Global;
use taken_places::{list_excused, list_taken};

/// Adds the warnings of rule 51, where it is asked for.
fn push_noinstr(
    alloc: Global,
    linked: &Linked<'_, '_>,
    graph: &Graph,
    options: EntryOptions,
    into: &mut Vec<Warning>,
) -> Result<(), NoMemory>
    ensures { OnOk result ((lists : NameLists) → Tells (program_of linked.now lists) graph.now.parts → Gains into.old.items into.new.items (λ w. options.noinstr ≡ true × LeavingWarns (program_of linked.now lists) (facts_of linked.now) w)) }
{
    if !options.noinstr {
        return Ok(());
    }
    object_is_in_order(linked);
    program_is_one();
    program_has_functions();
    let flags = list_noinstr(alloc, linked.object())?;
    push_leaving(graph, &flags, into)
}

/// Adds the warnings of rules 52 and 53, where they are asked for.
fn push_sls(
    linked: &Linked<'_, '_>,
    graph: &Graph,
    options: EntryOptions,
    into: &mut Vec<Warning>,
) -> Result<(), NoMemory>
    requires { IsGraphOf linked.now graph.now.parts }
    ensures { OnOk result ((lists : NameLists) → Tells (program_of linked.now lists) graph.now.parts → Gains into.old.items into.new.items (λ w. options.sls ≡ true × BareWarns (program_of linked.now lists) w)) }
{
    if !options.sls {
        return Ok(());
    }
    push_bare(linked, graph, into)
}

/// The places whose addresses are taken.
fn taken_set(alloc: Global, linked: &Linked<'_, '_>) -> Result<PlaceSet, NoMemory>
    ensures { IfOk result (HaveSamePlaces (taken_places linked.now)) }
{
    let listed = list_taken(alloc, linked)?;
    PlaceSet::build(alloc, &listed)
}

/// Those that go without an ENDBR all the same.
fn excused_set(alloc: Global, object: &Object<'_>) -> Result<PlaceSet, NoMemory>
    ensures { IfOk result (HaveSamePlaces (excused_places object.now)) }
{
    let listed = list_excused(alloc, object)?;
    PlaceSet::build(alloc, &listed)
}

/// Adds the warnings of rule 54, where it is asked for.
fn push_ibt(
    alloc: Global,
    linked: &Linked<'_, '_>,
    graph: &Graph,
    options: EntryOptions,
    into: &mut Vec<Warning>,
) -> Result<(), NoMemory>
    requires { IsGraphOf linked.now graph.now.parts }
    ensures { OnOk result ((lists : NameLists) → Tells (program_of linked.now lists) graph.now.parts → Gains into.old.items into.new.items (λ w. options.ibt ≡ true × TakenWarns (program_of linked.now lists) (facts_of linked.now) w)) }
{
    if !options.ibt {
        return Ok(());
    }
    let taken = taken_set(alloc, linked)?;
    let excused = excused_set(alloc, linked.object())?;
    let places = PointPlaces::build(alloc, linked)?;
    push_taken(&places, graph, &taken, &excused, into)
}

/// The warnings of the entry rules that the options ask for, of an object whose code is read, by the control-flow
/// graph of its program: 51 for `noinstr`, 52 and 53 for `sls`, 54 for `ibt`. Each is told once, by section, offset,
/// rule and what it tells. They are of all code, reached or not, and don't ask that the object passes stack
/// validation.
///
/// Where there is none, each run of the program keeps what the options ask for, wherever the object is placed.
///
/// # Errors
///
/// [`NoMemory`] where memory was wanted and not there.
pub fn check(
    alloc: Global,
    linked: &Linked<'_, '_>,
    graph: &Graph,
    options: EntryOptions,
) -> Result<Vec<Warning>, NoMemory>
    requires { IsGraphOf linked.now graph.now.parts }
    ensures warnings { IfOk result (λ warnings. AreFound linked.now graph.now.parts options warnings.items) }
    ensures promises { IfOk result (λ warnings. PromisesHold linked.now graph.now.parts options warnings.items) }
{
    object_is_in_order(linked);
    program_is_one();
    rules_are_kept();
    let mut warnings = Vec::new(alloc);
    push_noinstr(alloc, linked, graph, options, &mut warnings)?;
    push_sls(linked, graph, options, &mut warnings)?;
    push_ibt(alloc, linked, graph, options, &mut warnings)?;
    sort_warnings(&mut warnings);
    Ok(warnings)
}
