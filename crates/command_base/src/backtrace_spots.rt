//! The first points at the places of warnings.

ghost use Rattle.std.specs.Prelude.{◌≡◌, ◌+◌, ◌-◌, ◌<◌, ◌≤◌, ℕ, AllPairs, IfOk, None, OnOk, Some, Option, true, false, if◌then◌else◌, is_some, length, slice_index_or};
ghost use Rattle.ot_base.specs.Places.{is_before as is_lower, same_place};
ghost use Rattle.state_defs.specs.declared.state.State.{State};
ghost use Rattle.machine_defs.specs.Program.{Program};
ghost use Rattle.program_graph.specs.Tells.{Tells};
ghost use Rattle.kept_states.specs.LevelStates.{at};
ghost use Rattle.stack_rules.specs.Before.{ComesBefore};
ghost use Rattle.command_base.specs.declared.backtrace_spots.Spot.{Spot as SpotValue};
ghost use Rattle.command_base.specs.BacktraceSpots.{AreApart, AreFirst, ArePicked, AreSpots, HaveNumbers, IsSpot};

use kept_states::Kept;
use ot_base::{NoMemory, Place, Warning, is_before};
use program_graph::Graph;
use std::alloc::Global;

/// A place, and the first points there of those that were looked at.
#[derive(Clone, Copy)]
pub(crate) struct Spot {
    /// The place.
    pub(crate) place: Place,
    /// The first point whose bytes stand there.
    pub(crate) first: Option<u32>,
    /// The first of them that keeps a state.
    pub(crate) kept: Option<u32>,
}

impl Spot {
    /// A place at which no point was looked at.
    fn at(place: Place) -> Spot
        ensures place { result.place ≡ place }
        ensures new { (p : Program) (states : ℕ → Option State) → IsSpot p states 0 result }
    {
        Spot {
            place,
            first: None,
            kept: None,
        }
    }

    /// One more point that stands there was looked at.
    fn with_point(self, n: u32, is_kept: bool) -> Spot
        ensures place { result.place ≡ self.place }
        ensures spot { (p : Program) (states : ℕ → Option State) → p.place n ≡ self.place → is_kept ≡ is_some (states n) → IsSpot p states n self → IsSpot p states (n + 1) result }
    {
        Spot {
            place: self.place,
            first: self.first.or(Some(n)),
            kept: self.kept.or(kept_number(n, is_kept)),
        }
    }
}

/// The number of a point, where it keeps a state.
fn kept_number(n: u32, is_kept: bool) -> Option<u32>
    ensures { result ≡ if is_kept then Some n else None }
{
    if is_kept { Some(n) } else { None }
}

/// The places of some warnings, each once in their order, and by warning the number of its place.
#[derive(Drop)]
struct Spots {
    spots: Vec<Spot>,
    numbers: Vec<usize>,
}

/// Whether a place is the last of these.
fn is_last(spots: &[Spot], place: Place) -> bool
    ensures some { result ≡ true → 0 < length spots.now }
    ensures same { (d : SpotValue) → 0 < length spots.now → same_place (slice_index_or spots.now (length spots.now - 1) d).place place ≡ result }
{
    let count = spots.len();
    count > 0 && spots[count - 1].place == place
}

/// Adds a place, unless it is the last one, and gives its number.
fn push_place(spots: &mut Vec<Spot>, place: Place) -> Result<usize, NoMemory>
    requires apart { AreApart spots.old.items }
    requires behind { (d : SpotValue) → 0 < length spots.old.items → is_lower place (slice_index_or spots.old.items (length spots.old.items - 1) d).place ≡ false }
    ensures apart { OnOk result (AreApart spots.new.items) }
    ensures new { OnOk result ((p : Program) (states : ℕ → Option State) → AreSpots p states 0 spots.old.items → AreSpots p states 0 spots.new.items) }
    ensures more { OnOk result (length spots.old.items ≤ length spots.new.items) }
    ensures stays { OnOk result ((k : ℕ) (d : SpotValue) → k < length spots.old.items → slice_index_or spots.new.items k d ≡ slice_index_or spots.old.items k d) }
    ensures last { IfOk result (λ number. number + 1 ≡ length spots.new.items) }
    ensures place { IfOk result (λ number. (d : SpotValue) → (slice_index_or spots.new.items number d).place ≡ place) }
{
    if is_last(spots, place) {
        return Ok(spots.len() - 1);
    }
    spots.push(Spot::at(place))?;
    Ok(spots.len() - 1)
}

/// The places of some warnings.
fn list_spots(alloc: Global, warnings: &[Warning]) -> Result<Spots, NoMemory>
    requires { AllPairs ComesBefore warnings.now }
    ensures apart { IfOk result (λ list. AreApart list.spots.items) }
    ensures new { IfOk result (λ list. (p : Program) (states : ℕ → Option State) → AreSpots p states 0 list.spots.items) }
    ensures numbers { IfOk result (λ list. HaveNumbers warnings.now list.spots.items list.numbers.items) }
    ensures len { IfOk result (λ list. length list.numbers.items ≡ length warnings.now) }
{
    let mut spots: Vec<Spot> = Vec::new(alloc);
    let mut numbers = Vec::with_capacity(alloc, warnings.len())?;
    for warning in warnings {
        let number = push_place(&mut spots, warning.place)?;
        numbers.push(number)?;
    }
    Ok(Spots { spots, numbers })
}

/// How many of these are before a place.
fn count_before(spots: &[Spot], place: Place) -> usize
    requires { AreApart spots.now }
    ensures within { result ≤ length spots.now }
    ensures before { (k : ℕ) (d : SpotValue) → k < result → is_lower (slice_index_or spots.now k d).place place ≡ true }
    ensures others { (k : ℕ) (d : SpotValue) → result ≤ k → k < length spots.now → is_lower (slice_index_or spots.now k d).place place ≡ false }
{
    spots.partition_point(|spot| is_before(spot.place, place))
}

/// Looks at one more point, which stands at a place.
fn look_at(spots: &mut [Spot], place: Place, n: u32, is_kept: bool)
    requires { AreApart spots.old }
    ensures len { length spots.new ≡ length spots.old }
    ensures places { (k : ℕ) (d : SpotValue) → (slice_index_or spots.new k d).place ≡ (slice_index_or spots.old k d).place }
    ensures spots { (p : Program) (states : ℕ → Option State) → p.place n ≡ place → is_kept ≡ is_some (states n) → AreSpots p states n spots.old → AreSpots p states (n + 1) spots.new }
{
    let number = count_before(spots, place);
    if number < spots.len() && spots[number].place == place {
        spots[number] = spots[number].with_point(n, is_kept);
    }
}

/// Looks at all points.
fn look_at_all(graph: &Graph, kept: &Kept, spots: &mut [Spot])
    requires points { length kept.now ≡ length graph.now.parts.points.items }
    requires apart { AreApart spots.old }
    ensures len { length spots.new ≡ length spots.old }
    ensures places { (k : ℕ) (d : SpotValue) → (slice_index_or spots.new k d).place ≡ (slice_index_or spots.old k d).place }
    ensures spots { (p : Program) → Tells p graph.now.parts → AreSpots p (at kept.now) 0 spots.old → AreSpots p (at kept.now) p.count spots.new }
{
    for n in 0..graph.points() {
        look_at(spots, graph.place(n), n, kept.is_kept(n));
    }
}

/// The spots with these numbers.
fn pick(alloc: Global, spots: &[Spot], numbers: &[usize]) -> Result<Vec<Spot>, NoMemory>
    requires { (i : ℕ) → i < length numbers.now → slice_index_or numbers.now i 0 < length spots.now }
    ensures { IfOk result (λ picked. ArePicked spots.now numbers.now picked.items) }
{
    let mut picked = Vec::with_capacity(alloc, numbers.len())?;
    for number in numbers {
        picked.push(spots[*number])?;
    }
    Ok(picked)
}

/// For each warning the first points at its place.
pub(crate) fn first_points(
    alloc: Global,
    graph: &Graph,
    kept: &Kept,
    warnings: &[Warning],
) -> Result<Vec<Spot>, NoMemory>
    requires points { length kept.now ≡ length graph.now.parts.points.items }
    requires ascend { AllPairs ComesBefore warnings.now }
    ensures len { IfOk result (λ list. length list.items ≡ length warnings.now) }
    ensures first { IfOk result (λ list. (p : Program) → Tells p graph.now.parts → AreFirst p (at kept.now) warnings.now list.items) }
{
    let Spots { mut spots, numbers } = list_spots(alloc, warnings)?;
    let all = spots.as_mut_slice();
    look_at_all(graph, kept, all);
    pick(alloc, all, &numbers)
}
