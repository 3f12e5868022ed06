//! The displacements of direct calls and branches.

ghost use Rattle.std.specs.Prelude.{◌≡◌, ◌+◌, ◌<◌, ◌^◌, option_map};
ghost use Rattle.symbols_relocs.specs.NamedPlaces.{offset_of};
ghost use Rattle.flow_defs.specs.Targets.{displacement_of as displacement_of_op, jump_displacement as jump_displacement_of, lacks_reloc as lacks_reloc_at, relative_place as relative_place_of};
ghost use Rattle.symbols_relocs.specs.Targets.{last_bytes as last_bytes_of};
ghost use Rattle.point_arrivals.specs.Displacements.{meant};

use operation_defs::Op;
use ot_base::Place;
use symbols_relocs::Index;

/// What the last bytes of a direct call or branch hold.
#[derive(Clone, Copy)]
pub(crate) struct Displacement {
    /// How many of the instruction's bytes it has.
    pub(crate) bytes: u8,
    /// How far from the instruction's end it leads.
    pub(crate) value: i32,
}

/// The displacement of a jump, `wide` where it has 32 bits.
fn jump_displacement(rel: i32, wide: bool) -> Displacement
    ensures { meant result ≡ jump_displacement_of rel wide }
{
    Displacement {
        bytes: if wide { 4 } else { 1 },
        value: rel,
    }
}

/// The displacement of a direct call or branch. Other instructions have none.
pub(crate) fn displacement_of(op: Op) -> Option<Displacement>
    ensures { option_map meant result ≡ displacement_of_op op }
{
    match op {
        Op::Call { rel } => Some(Displacement {
            bytes: 4,
            value: rel,
        }),
        Op::Jmp { rel, wide } => Some(jump_displacement(rel, wide)),
        Op::Jcc { rel, wide } => Some(jump_displacement(rel, wide)),
        _ => None,
    }
}

/// Where the last bytes of the instruction at a place begin.
fn last_bytes(place: Place, len: u8, bytes: u8) -> Place
    requires { place.off + len < 2 ^ 64 }
    ensures { result ≡ last_bytes_of place len bytes }
{
    Place {
        sec: place.sec,
        off: (place.off + u64::from(len)).saturating_sub(u64::from(bytes)),
    }
}

/// Whether no relocation stands on the displacement of the instruction at a place.
pub(crate) fn lacks_reloc(
    index: &Index<'_, '_>,
    place: Place,
    len: u8,
    displacement: Displacement,
) -> bool
    requires { place.off + len < 2 ^ 64 }
    ensures { result ≡ lacks_reloc_at index.now.elf place len (meant displacement) }
{
    index
        .reloc_at(last_bytes(place, len, displacement.bytes))
        .is_none()
}

/// A number as an offset, where 64 bits hold it.
fn offset(sum: i128) -> Option<u64>
    ensures { result ≡ offset_of sum }
{
    u64::try_from(sum).ok()
}

/// The place that a displacement leads to from the instruction at a place, where 64 bits hold its offset.
pub(crate) fn relative_place(place: Place, len: u8, displacement: Displacement) -> Option<Place>
    ensures { result ≡ relative_place_of place len (meant displacement) }
{
    let off = offset(i128::from(place.off) + i128::from(len) + i128::from(displacement.value))?;
    let sec = place.sec;
    Some(Place { sec, off })
}
