//! Whether the program of an object can be checked.

ghost use Rattle.std.specs.Prelude.{◌≡◌, ◌≢◌, [], option_map, slice_get, IfErr, OnOk};
ghost use Rattle.flow_defs.specs.Faults.{boundary_faults, flow_faults, IsFirstFlowFault};
ghost use Rattle.special_sections.specs.Special.{special_of};
ghost use Rattle.control_flow.specs.Few.{AreFew};
ghost use Rattle.control_flow.specs.Judged.{fault_in};

use crate::lists::{
    branch_off_boundary, branch_off_site, fix_off_boundary, hint_off_boundary, place_off_boundary,
    place_off_call, place_off_end, place_off_function,
};
use crate::starts::find_bad_start;
use flow_defs::FlowFault;
use object_points::PointPlaces;

/// The first place of a list that is no boundary, or where the list has ends of instructions, no end: by the
/// list's number and the entry's.
fn find_bad_place(places: &PointPlaces<'_, '_, '_>) -> Option<(u8, u32)>
    requires { AreFew (special_of places.now.elf) }
    ensures { option_map fault_in result ≡ slice_get (boundary_faults places.now) 0 }
{
    let special = places.linked().special();
    if let Some(entry) = branch_off_boundary(places, special.branches()) {
        return Some((1, entry as u32));
    }
    if let Some(entry) = fix_off_boundary(places, special.fixes()) {
        return Some((2, entry as u32));
    }
    if let Some(entry) = hint_off_boundary(places, special.hints()) {
        return Some((3, entry as u32));
    }
    if let Some(entry) = place_off_end(places, special.after_reachable()) {
        return Some((4, entry as u32));
    }
    if let Some(entry) = place_off_end(places, special.after_unreachable()) {
        return Some((5, entry as u32));
    }
    if let Some(entry) = place_off_boundary(places, special.safe_branches()) {
        return Some((6, entry as u32));
    }
    if let Some(entry) = place_off_boundary(places, special.intra_calls()) {
        return Some((7, entry as u32));
    }
    None
}

/// Checks that the program of an object whose code is read can be checked: first the starts of its functions,
/// then the places of its lists, the code of its static branches, its calls within functions, and its unchecked functions.
///
/// # Errors
///
/// The first of them that is refused, never [`FlowFault::NoMemory`].
pub fn check_flow(places: &PointPlaces<'_, '_, '_>) -> Result<(), FlowFault>
    ensures ok { OnOk result (flow_faults places.now ≡ []) }
    ensures err { IfErr result (IsFirstFlowFault places.now) }
    ensures memory { IfErr result (λ fault. fault ≢ FlowFault.NoMemory) }
{
    let linked = places.linked();
    let bytes = linked.object().bytes().len();
    if let Some(sym) = find_bad_start(places) {
        return Err(FlowFault::FuncStart { sym });
    }
    let special = linked.special();
    // Each entry of a list has a relocation in the file, so its number has 32 bits.
    prove!(special.branches().len() <= bytes);
    if let Some((list, entry)) = find_bad_place(places) {
        return Err(FlowFault::NotBoundary { list, entry });
    }
    if let Some(entry) = branch_off_site(places, special.branches()) {
        return Err(FlowFault::StaticSite {
            entry: entry as u32,
        });
    }
    if let Some(entry) = place_off_call(places, special.intra_calls()) {
        return Err(FlowFault::NotCall {
            entry: entry as u32,
        });
    }
    if let Some(entry) = place_off_function(places, special.unchecked()) {
        return Err(FlowFault::NotFunction {
            entry: entry as u32,
        });
    }
    Ok(())
}
