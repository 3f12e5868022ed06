//! The rows of a program's ORC table, from the states that are kept.

use crate::kept::Kept;
use crate::state_row::{StateRow, ZERO_ROW};
use crate::{ModelSite, Program, TextSection};
use ot_base::{Place, PlacedRow};
use std::alloc::{AllocError, Global};

/// The row of a point: of its state, or the one that says that nothing is known.
fn row_of_point(kept: &Kept, q: u32) -> StateRow {
    kept.state(q).map_or(ZERO_ROW, StateRow::of)
}

/// The first point that runs at a place and is kept.
fn kept_at(p: &Program, kept: &Kept, place: Place) -> Option<u32> {
    for q in 0..p.count() {
        if p.point(q)?.address == place && kept.state(q).is_some() {
            return Some(q);
        }
    }
    None
}

/// Whether a site's original code has a state at its start.
pub fn is_kept_site(p: &Program, kept: &Kept, site: ModelSite) -> bool {
    p.plain_at(site.start)
        .is_some_and(|q| kept.state(q).is_some())
}

/// The row that begins at a place of a site: where its start is kept, that of a kept point there, in any
/// variant; else one at its start says that nothing is known.
fn row_in_site(p: &Program, kept: &Kept, site: ModelSite, place: Place) -> Option<StateRow> {
    if is_kept_site(p, kept, site) {
        Some(row_of_point(kept, kept_at(p, kept, place)?))
    } else {
        (site.start == place).then_some(ZERO_ROW)
    }
}

/// The row that begins at a place; outside sites each instruction of the original code begins one.
fn row_at(p: &Program, kept: &Kept, place: Place) -> Option<StateRow> {
    match p.site_at(place) {
        None => Some(row_of_point(kept, p.plain_at(place)?)),
        Some(site) => row_in_site(p, kept, site, place),
    }
}

/// The rows of a section, without those that are equal to the one before, and with one behind it that
/// says that nothing is known, where there is a row.
fn section_rows(
    alloc: Global,
    p: &Program,
    kept: &Kept,
    text: TextSection,
) -> Result<Vec<PlacedRow>, AllocError> {
    let mut rows = Vec::new(alloc);
    let mut before = ZERO_ROW;
    for off in 0..text.size {
        let place = Place { sec: text.sec, off };
        if let Some(row) = row_at(p, kept, place) {
            if row != before {
                rows.push(PlacedRow {
                    place,
                    row: row.packed(),
                })?;
                before = row;
            }
        }
    }
    if !rows.is_empty() {
        rows.push(PlacedRow {
            place: Place {
                sec: text.sec,
                off: text.size,
            },
            row: ZERO_ROW.packed(),
        })?;
    }
    Ok(rows)
}

/// The rows of a program, section by section.
pub fn rows(alloc: Global, p: &Program) -> Result<Vec<PlacedRow>, AllocError> {
    let kept = Kept::of(alloc, p)?;
    let mut rows = Vec::new(alloc);
    for text in &p.texts {
        for row in &section_rows(alloc, p, &kept, *text)? {
            rows.push(*row)?;
        }
    }
    Ok(rows)
}
