//! What most points have beside their operation.

ghost use Rattle.std.specs.Prelude.{◌≡◌, IsTrue, Some, slice_get};
ghost use Rattle.program_graph.specs.declared.usual.TheConstants.{USUAL_RARE, USUAL_TRANSFER};

use crate::parts::{Previous, Rare, Transfer};
use machine_defs::{Marks, Role};

/// What a usual point has of what few have otherwise.
const USUAL_RARE: Rare = Rare {
    replaced: None,
    previous: Previous::Below,
    hinted: None,
};

/// Where control goes from a usual point, beside its edges: nowhere.
const USUAL_TRANSFER: Transfer = Transfer {
    role: Role::Plain,
    marks: Marks {
        bad: false,
        past_end: false,
        into_site: false,
        into_function: false,
        relocated: false,
    },
    calls_fentry: false,
    names_symbol: false,
};

/// Where in a list that of a usual point stands first. Where none does, the list's length.
pub(crate) fn find_usual_rare(rares: &[Rare]) -> usize
    ensures { (r : Rare) → slice_get rares.now result ≡ Some r → r ≡ USUAL_RARE }
{
    for i in 0..rares.len() {
        if rares[i] == USUAL_RARE {
            return i;
        }
    }
    rares.len()
}

/// Where in a list that of a usual point stands first. Where none does, the list's length.
pub(crate) fn find_usual_transfer(transfers: &[Transfer]) -> usize
    ensures { (t : Transfer) → slice_get transfers.now result ≡ Some t → t ≡ USUAL_TRANSFER }
{
    for i in 0..transfers.len() {
        if transfers[i] == USUAL_TRANSFER {
            return i;
        }
    }
    transfers.len()
}
