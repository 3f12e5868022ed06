//! The entries of lists, by their numbers.

ghost use Rattle.std.specs.Prelude.{◌≡◌};
ghost use Rattle.std.specs.List.{position_from};
ghost use Rattle.flow_defs.specs.Faults.{is_no_boundary, is_no_end as is_no_end_of};
ghost use Rattle.control_flow.specs.Judged.{is_no_branch as is_no_branch_of, is_no_call as is_no_call_of, is_no_function as is_no_function_of};

use crate::places::{is_no_branch, is_no_call, is_no_end, is_no_function};
use object_points::PointPlaces;
use ot_base::Place;
use special_sections::{BranchEntry, FixEntry, HintEntry};

/// The first static branch whose code is no boundary.
pub(crate) fn branch_off_boundary(
    places: &PointPlaces<'_, '_, '_>,
    branches: &[BranchEntry],
) -> Option<usize>
    ensures { result ≡ position_from (λ b. is_no_boundary places.now b.code) 0 branches.now }
{
    branches
        .iter()
        .position(|branch| !places.is_boundary(branch.code))
}

/// The first exception entry whose instruction is at no boundary.
pub(crate) fn fix_off_boundary(
    places: &PointPlaces<'_, '_, '_>,
    fixes: &[FixEntry],
) -> Option<usize>
    ensures { result ≡ position_from (λ f. is_no_boundary places.now f.insn) 0 fixes.now }
{
    fixes.iter().position(|fix| !places.is_boundary(fix.insn))
}

/// The first hint at no boundary.
pub(crate) fn hint_off_boundary(
    places: &PointPlaces<'_, '_, '_>,
    hints: &[HintEntry],
) -> Option<usize>
    ensures { result ≡ position_from (λ h. is_no_boundary places.now h.place) 0 hints.now }
{
    hints
        .iter()
        .position(|hint| !places.is_boundary(hint.place))
}

/// The first place that is no boundary.
pub(crate) fn place_off_boundary(
    places: &PointPlaces<'_, '_, '_>,
    listed: &[Place],
) -> Option<usize>
    ensures { result ≡ position_from (is_no_boundary places.now) 0 listed.now }
{
    listed.iter().position(|place| !places.is_boundary(*place))
}

/// The first place at which no instruction ends.
pub(crate) fn place_off_end(places: &PointPlaces<'_, '_, '_>, listed: &[Place]) -> Option<usize>
    ensures { result ≡ position_from (is_no_end_of places.now) 0 listed.now }
{
    listed.iter().position(|place| is_no_end(places, *place))
}

/// The first static branch whose code is neither a Nop nor a Jmp.
pub(crate) fn branch_off_site(
    places: &PointPlaces<'_, '_, '_>,
    branches: &[BranchEntry],
) -> Option<usize>
    ensures { result ≡ position_from (λ b. is_no_branch_of places.now b.code) 0 branches.now }
{
    branches
        .iter()
        .position(|branch| is_no_branch(places, branch.code))
}

/// The first place at which no direct call begins.
pub(crate) fn place_off_call(places: &PointPlaces<'_, '_, '_>, listed: &[Place]) -> Option<usize>
    ensures { result ≡ position_from (is_no_call_of places.now) 0 listed.now }
{
    listed.iter().position(|place| is_no_call(places, *place))
}

/// The first place at which no function starts.
pub(crate) fn place_off_function(
    places: &PointPlaces<'_, '_, '_>,
    listed: &[Place],
) -> Option<usize>
    ensures { result ≡ position_from (is_no_function_of places.now) 0 listed.now }
{
    listed
        .iter()
        .position(|place| is_no_function(places, *place))
}
