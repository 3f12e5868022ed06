//! The rules of stack validation, as the list of their warnings.

use crate::Program;
use crate::kept::Kept;
use crate::option_rules::option_warnings;
use crate::point_rules::point_warnings;
use crate::site_rules::site_warnings;
use ot_base::rules::{FUNCTION_WITHOUT_SIZE, RESTORE_WITHOUT_SAVE};
use ot_base::{Options, Warning};
use state_defs::HintState;
use std::alloc::{AllocError, Global};

/// The warnings of rule 18 at entries: control that comes to one stands at a RESTORE that has no state
/// to restore.
fn entry_warnings(warnings: &mut Vec<Warning>, p: &Program, kept: &Kept) -> Result<(), AllocError> {
    for q in 0..p.count() {
        let Some(point) = p.point(q) else {
            continue;
        };
        let is_empty_restore = point.hint == Some(HintState::Restore) && kept.state(q).is_none();
        if is_empty_restore && p.is_at_entry(q) {
            warnings.push(Warning::bare(point.place, RESTORE_WITHOUT_SAVE))?;
        }
    }
    Ok(())
}

/// The warnings of the rules 1 to 13 and 15 to 19. One may stand there more than once.
fn stack_warnings(
    warnings: &mut Vec<Warning>,
    alloc: Global,
    p: &Program,
    kept: &Kept,
) -> Result<(), AllocError> {
    for q in 0..p.count() {
        if let (Some(point), Some(state)) = (p.point(q), kept.state(q)) {
            point_warnings(warnings, alloc, p, kept, (q, point), state)?;
        }
    }
    site_warnings(warnings, p, kept)?;
    for place in &p.without_size {
        warnings.push(Warning::bare(*place, FUNCTION_WITHOUT_SIZE))?;
    }
    entry_warnings(warnings, p, kept)
}

/// The warnings of a check under its options. One may stand there more than once.
pub fn warnings(alloc: Global, p: &Program, options: &Options) -> Result<Vec<Warning>, AllocError> {
    let kept = Kept::of(alloc, p)?;
    let mut warnings = Vec::new(alloc);
    stack_warnings(&mut warnings, alloc, p, &kept)?;
    option_warnings(&mut warnings, p, &kept, options)?;
    Ok(warnings)
}
