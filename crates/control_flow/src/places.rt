//! Places of code, judged.

ghost use Rattle.std.specs.Prelude.{◌≡◌};
ghost use Rattle.flow_defs.specs.Faults.{is_branch_op as is_jump_or_nop, is_direct_call as is_call, is_no_end as is_no_end_of, is_no_start as is_no_start_of};
ghost use Rattle.control_flow.specs.Judged.{ends_text as ends_text_of, is_no_branch as is_no_branch_of, is_no_call as is_no_call_of, is_no_function as is_no_function_of};

use alternatives::Point;
use elf_objects::Object;
use object_points::{PointPlaces, site_holding};
use operation_defs::Op;
use ot_base::Place;

/// Whether no function can start at a place: it is no boundary, or in a site, past its start.
pub(crate) fn is_no_start(places: &PointPlaces<'_, '_, '_>, place: Place) -> bool
    ensures { result ≡ is_no_start_of places.now place }
{
    if !places.is_boundary(place) {
        return true;
    }
    match site_holding(places, place) {
        Some(site) => !(site.start.sec == place.sec && site.start.off == place.off),
        None => false,
    }
}

/// Whether a text section ends at a place.
fn ends_text(object: &Object<'_>, place: Place) -> bool
    ensures { result ≡ ends_text_of object.now place }
{
    place.sec < object.sections()
        && object.is_text(place.sec)
        && place.off == object.section(place.sec).body.len() as u64
}

/// Whether no instruction ends at a place.
pub(crate) fn is_no_end(places: &PointPlaces<'_, '_, '_>, place: Place) -> bool
    ensures { result ≡ is_no_end_of places.now place }
{
    if place.off == 0 {
        return true;
    }
    if places.is_boundary(place) {
        return false;
    }
    !ends_text(places.linked().object(), place)
}

/// Whether an operation is one of a static branch: a Nop or a Jmp.
fn is_branch_op(op: Op) -> bool
    ensures { result ≡ is_jump_or_nop op }
{
    matches!(op, Op::Nop | Op::Jmp { .. })
}

/// Whether neither a Nop nor a Jmp begins at a place.
pub(crate) fn is_no_branch(places: &PointPlaces<'_, '_, '_>, place: Place) -> bool
    ensures { result ≡ is_no_branch_of places.now place }
{
    match places.number_of(Point { place, variant: 0 }) {
        Some(n) => !is_branch_op(places.decoded_insn(n).op),
        None => true,
    }
}

/// Whether an operation is a direct call.
fn is_direct_call(op: Op) -> bool
    ensures { result ≡ is_call op }
{
    matches!(op, Op::Call { .. })
}

/// Whether no direct call begins at a place.
pub(crate) fn is_no_call(places: &PointPlaces<'_, '_, '_>, place: Place) -> bool
    ensures { result ≡ is_no_call_of places.now place }
{
    match places.number_of(Point { place, variant: 0 }) {
        Some(n) => !is_direct_call(places.decoded_insn(n).op),
        None => true,
    }
}

/// Whether no function starts at a place.
pub(crate) fn is_no_function(places: &PointPlaces<'_, '_, '_>, place: Place) -> bool
    ensures { result ≡ is_no_function_of places.now place }
{
    places.linked().index().starts_at(place).is_none()
}
