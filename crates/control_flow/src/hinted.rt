//! What points with a hint have.

ghost use Rattle.std.specs.Prelude.{◌≡◌, ◌<◌, ◌^◌, ◌++◌, ◌∷◌, [], None, Some, All, IfOk, MatchOption, length};
ghost use Rattle.control_flow.specs.Hinted.{IsHinted, IsUnhinted};
ghost use Rattle.control_flow.specs.Listed.{count_of};

use object_points::{HintPoints, PointPlaces};
use ot_base::NoMemory;
use program_graph::Hinted;

/// What a point has that has a hint.
pub(crate) fn hinted_of(
    places: &PointPlaces<'_, '_, '_>,
    hints: &HintPoints<'_, '_, '_, '_>,
    n: u32,
) -> Option<Hinted>
    requires places { hints.now.object ≡ places.now }
    requires point { n < count_of hints.now.object }
    ensures { MatchOption result (IsUnhinted hints.now.object n) (IsHinted hints.now.object hints.now.restores n) }
{
    let hint = hints.hint(n);
    if hint.is_none() {
        return None;
    }
    let (restores_from, restores_to) = hints.restores_of(n);
    Some(Hinted {
        hint,
        is_own: places.own_hint(n).is_some(),
        save_of: hints.save_of(n),
        restores_from,
        restores_to,
    })
}

/// Puts what a point has, if it has something, behind what others have, and tells where it stands.
pub(crate) fn push_hinted(
    hinted: &mut Vec<Hinted>,
    found: Option<Hinted>,
) -> Result<Option<u32>, NoMemory>
    requires { length hinted.old.items < 2 ^ 32 }
    ensures { IfOk result (λ number. MatchOption found ((number ≡ None) × (hinted.new.items ≡ hinted.old.items)) (λ x. (number ≡ Some (length hinted.old.items)) × (hinted.new.items ≡ hinted.old.items ++ x ∷ []))) }
{
    let Some(found) = found else {
        return Ok(None);
    };
    let number = hinted.len() as u32;
    hinted.push(found)?;
    Ok(Some(number))
}

/// The law that RESTOREs are points.
pub(crate) fn restores_are_points(hints: &HintPoints<'_, '_, '_, '_>)
    ensures { All (λ r. r < count_of hints.now.object) hints.now.restores }
{
    hints.restores();
}
