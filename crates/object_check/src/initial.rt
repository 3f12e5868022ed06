//! Code that runs before user space does.

ghost use Rattle.std.specs.Prelude.{◌≡◌, ◌<◌, false, length, slice_index_or, IfOk};
ghost use Rattle.flow_defs.specs.Code.{point_at, points_of_object};
ghost use Rattle.object_check.specs.Allowances.{is_before_user_space as is_before_user_space_at, is_init_text as is_init_text_of};
ghost use Rattle.object_check.specs.Flags.{AreFlags};

use crate::points::count_points;
use elf_objects::Object;
use object_points::PointPlaces;
use ot_base::{NoMemory, Options};
use std::alloc::Global;

/// Whether the name of a section is `.init.text`.
fn is_init_text(object: &Object<'_>, sec: u32) -> bool
    requires { sec < length object.now.sections }
    ensures { result ≡ is_init_text_of object.now sec }
{
    object.section_is_named(sec, b".init.text")
}

/// The same of each section.
fn list_init_texts(alloc: Global, object: &Object<'_>) -> Result<Vec<bool>, NoMemory>
    ensures { IfOk result (λ flags. AreFlags (is_init_text_of object.now) (length object.now.sections) flags.items) }
{
    let mut flags = Vec::new(alloc);
    for sec in 0..object.sections() {
        flags.push(is_init_text(object, sec))?;
    }
    Ok(flags)
}

/// Whether a section is one of them.
fn is_listed(flags: &[bool], sec: u32) -> bool
    ensures { result ≡ slice_index_or flags.now sec false }
{
    flags.get(sec as usize).copied().unwrap_or(false)
}

/// Whether the code of a point runs before user space does.
fn is_before_user_space(
    places: &PointPlaces<'_, '_, '_>,
    init_texts: &[bool],
    options: Options,
    n: u32,
) -> bool
    requires point { n < length (points_of_object places.now) }
    requires init_texts { AreFlags (is_init_text_of places.now.elf) (length places.now.elf.sections) init_texts.now }
    ensures { result ≡ is_before_user_space_at places.now options (point_at places.now n) }
{
    !options.module && is_listed(init_texts, places.point(n).place.sec)
}

/// For each point, whether its code runs before user space does.
pub(crate) fn list_before_user_space(
    alloc: Global,
    places: &PointPlaces<'_, '_, '_>,
    options: Options,
) -> Result<Vec<bool>, NoMemory>
    ensures { IfOk result (λ flags. AreFlags (λ q. is_before_user_space_at places.now options (point_at places.now q)) (length (points_of_object places.now)) flags.items) }
{
    let init_texts = list_init_texts(alloc, places.linked().object())?;
    let count = count_points(places);
    let mut flags = Vec::with_capacity(alloc, count as usize)?;
    for n in 0..count {
        flags.push(is_before_user_space(places, init_texts.as_slice(), options, n))?;
    }
    Ok(flags)
}
