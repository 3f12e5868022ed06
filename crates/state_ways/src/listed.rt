//! Warnings of rule 4 in a list.

ghost use Rattle.std.specs.Prelude.{◌≡◌, ◌<◌, ◌≤◌, ◌↔◌, ℕ, AllPairs, Contains, IsTrue, MatchOption, Some, length, slice_get};
ghost use Rattle.ot_base.specs.declared.warning.Warning.{Warning as WarningValue};
ghost use Rattle.ot_base.specs.Warnings.{numbered_warning};
ghost use Rattle.stack_rules.specs.Before.{ComesBefore};

use ot_base::rules::STATE_MISMATCH;
use ot_base::{Place, Warning};

/// What a warning of rule 4 tells: its place, and the numbers of the state that is kept there and of the one that is found.
#[derive(Clone, Copy)]
pub(crate) struct Mismatch {
    pub(crate) place: Place,
    pub(crate) kept: i128,
    pub(crate) found: i128,
}

/// Whether a warning comes before that of a mismatch.
fn comes_before(warning: &Warning, key: Mismatch) -> bool
    ensures { IsTrue result ↔ ComesBefore warning.now (numbered_warning key.place STATE_MISMATCH key.kept key.found) }
{
    if warning.place.sec != key.place.sec {
        return warning.place.sec < key.place.sec;
    }
    if warning.place.off != key.place.off {
        return warning.place.off < key.place.off;
    }
    if warning.rule != STATE_MISMATCH {
        return warning.rule < STATE_MISMATCH;
    }
    let kept = i128::from(warning.a);
    if kept != key.kept {
        return kept < key.kept;
    }
    i128::from(warning.b) < key.found
}

/// Whether a warning is that of a mismatch.
fn tells(warning: &Warning, key: Mismatch) -> bool
    ensures { IsTrue result ↔ (warning.now ≡ numbered_warning key.place STATE_MISMATCH key.kept key.found) }
{
    warning.place.sec == key.place.sec
        && warning.place.off == key.place.off
        && warning.rule == STATE_MISMATCH
        && i128::from(warning.a) == key.kept
        && i128::from(warning.b) == key.found
}

/// How many of the warnings come before that of a mismatch, in ascending order.
fn count_before(warnings: &[Warning], key: Mismatch) -> usize
    requires { AllPairs ComesBefore warnings.now }
    ensures within { result ≤ length warnings.now }
    ensures before { (k : ℕ) (w : WarningValue) → k < result → slice_get warnings.now k ≡ Some w → ComesBefore w (numbered_warning key.place STATE_MISMATCH key.kept key.found) }
    ensures behind { (k : ℕ) (w : WarningValue) → result ≤ k → slice_get warnings.now k ≡ Some w → ComesBefore w (numbered_warning key.place STATE_MISMATCH key.kept key.found) → ⊥ }
{
    let mut low = 0;
    let mut high = warnings.len();
    while low < high {
        let middle = low + (high - low) / 2;
        if comes_before(&warnings[middle], key) {
            low = middle + 1;
        } else {
            high = middle;
        }
    }
    low
}

/// Where among the warnings, in ascending order, that of a mismatch stands.
pub(crate) fn look_up(warnings: &[Warning], key: Mismatch) -> Option<usize>
    requires { AllPairs ComesBefore warnings.now }
    ensures { MatchOption result (Contains warnings.now (numbered_warning key.place STATE_MISMATCH key.kept key.found) → ⊥) (λ k. slice_get warnings.now k ≡ Some (numbered_warning key.place STATE_MISMATCH key.kept key.found)) }
{
    let place = count_before(warnings, key);
    if place >= warnings.len() {
        return None;
    }
    if !tells(&warnings[place], key) {
        return None;
    }
    Some(place)
}
