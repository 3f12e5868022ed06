//! The bytes of sections.

ghost use Rattle.std.specs.Prelude.{◌≡◌, ◌<◌, ◌^◌, length};
ghost use Rattle.flow_defs.specs.TableRegisters.{bytes_from as bytes_from_place};

use elf_objects::Object;
use ot_base::Place;

/// The bytes of a section from a place on; none where there are none.
pub(crate) fn bytes_from<'a>(object: &Object<'a>, place: Place) -> &'a [u8]
    ensures value { result.now ≡ bytes_from_place object.now place }
    ensures short { length result.now < 2 ^ 32 }
{
    if place.sec >= object.sections() {
        return &[];
    }
    let body = object.section(place.sec).body;
    if place.off > body.len() as u64 {
        return &[];
    }
    &body[place.off as usize..]
}
