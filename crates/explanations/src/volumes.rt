//! The rows of all topics, in several volumes.

ghost use Rattle.std.specs.Prelude.{◌≡◌};
ghost use Rattle.explanations.specs.Entry.{told};
ghost use Rattle.explanations.specs.Volumes.{entries};

use crate::row::Row;
use crate::{
    files_that_fail, refusals_bad, refusals_f_to_m, refusals_n, refusals_o_to_z,
    refusals_of_entries, rules_1_to_9, rules_10_to_19, rules_21_to_44, rules_45_to_54,
};

/// The rows of all topics, volume by volume: the rules by their numbers, then the kinds of refusals, and
/// the reasons for which files fail, by their names.
#[tactic(auto, unfolding(crate::specs::Volumes::entries))]
pub(crate) fn all_rows() -> [&'static [Row]; 10]
    ensures { told result ≡ entries }
{
    [
        rules_1_to_9::rows(),
        rules_10_to_19::rows(),
        rules_21_to_44::rows(),
        rules_45_to_54::rows(),
        refusals_of_entries::rows(),
        refusals_bad::rows(),
        files_that_fail::rows(),
        refusals_f_to_m::rows(),
        refusals_n::rows(),
        refusals_o_to_z::rows(),
    ]
}
