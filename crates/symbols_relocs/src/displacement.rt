//! The displacements of direct calls and branches.

ghost use Rattle.std.specs.Prelude.{◌≡◌, ◌+◌, ◌<◌, ◌^◌};
ghost use Rattle.symbols_relocs.specs.Displacements.{displacement_of as displacement_of_op, field_of as field_of_displacement};

use operation_defs::Op;
use ot_base::Place;

/// What the last bytes of a direct call or branch hold.
#[derive(Clone, Copy)]
pub(crate) struct Displacement {
    /// How far from the instruction's end it leads.
    pub(crate) rel: i32,
    /// Whether it has 32 bits, and not 8.
    pub(crate) wide: bool,
}

/// The displacement of a direct call or branch. Other instructions have none.
#[inline(always)]
pub(crate) fn displacement_of(op: Op) -> Option<Displacement>
    ensures { result ≡ displacement_of_op op }
{
    match op {
        Op::Call { rel } => Some(Displacement { rel, wide: true }),
        Op::Jmp { rel, wide } => Some(Displacement { rel, wide }),
        Op::Jcc { rel, wide } => Some(Displacement { rel, wide }),
        _ => None,
    }
}

/// Where the displacement of the instruction at a place begins.
#[inline(always)]
pub(crate) fn field_of(place: Place, len: u8, wide: bool) -> Place
    requires { place.off + len < 2 ^ 64 }
    ensures { result ≡ field_of_displacement place len wide }
{
    let bytes = if wide { 4 } else { 1 };
    Place {
        sec: place.sec,
        off: (place.off + u64::from(len)).saturating_sub(bytes),
    }
}
