//! Code in place of which a processor with SMAP has other code.

ghost use Rattle.std.specs.Prelude.{◌≡◌, ◌<◌, length, IfOk};
ghost use Rattle.alternatives.specs.Points.{address_of_point};
ghost use Rattle.flow_defs.specs.Code.{alternatives_of, point_at, points_of_object};
ghost use Rattle.object_points.specs.Places.{HaveSamePlaces};
ghost use Rattle.object_check.specs.Allowances.{is_for_smap as is_an_entry_for_smap, is_smap_point as is_a_smap_point, lacks_smap as lacks_smap_at, makes_smap_site as makes_a_smap_site};
ghost use Rattle.object_check.specs.Flags.{AreFlags};
ghost use Rattle.object_check.specs.SmapSites.{IsSiteStart, smap_starts as starts_of_smap_sites};

use crate::points::count_points;
use alternatives::AltEntry;
use object_points::{PlaceSet, PointPlaces};
use ot_base::{NoMemory, Place};
use std::alloc::Global;

/// The processor feature SMAP: bit 20 of word 9 (Linux 6.6, asm/cpufeatures.h).
const X86_FEATURE_SMAP: u16 = 9 * 32 + 20;

/// Whether the replacement of an entry is for processors with SMAP, without flags.
fn is_for_smap(entry: &AltEntry) -> bool
    ensures { result ≡ is_an_entry_for_smap entry.now }
{
    entry.feature == X86_FEATURE_SMAP && entry.flags == 0
}

/// Whether an entry makes a site that has such a replacement.
fn makes_smap_site(entry: &AltEntry) -> bool
    ensures { result ≡ makes_a_smap_site entry.now }
{
    entry.original_len != 0 && is_for_smap(entry)
}

/// Where these sites start.
fn smap_starts(alloc: Global, entries: &[AltEntry]) -> Result<Vec<Place>, NoMemory>
    ensures { IfOk result (λ starts. starts.items ≡ starts_of_smap_sites entries.now) }
{
    let starts = entries
        .iter()
        .filter(|entry| makes_smap_site(entry))
        .map(|entry| entry.original)
        .collect(alloc)?;
    Ok(starts)
}

/// Where the site starts in which a point runs, if it runs in one.
fn site_start(places: &PointPlaces<'_, '_, '_>, n: u32) -> Option<Place>
    requires { n < length (points_of_object places.now) }
    ensures { IsSiteStart (alternatives_of places.now) (address_of_point (alternatives_of places.now) (point_at places.now n)) result }
{
    let sites = places.linked().sites();
    let site = sites.site_number_at(places.address(n))?;
    Some(sites.sites()[site as usize].start)
}

/// Whether a point is one of a replacement for processors with SMAP.
fn is_smap_point(places: &PointPlaces<'_, '_, '_>, n: u32) -> bool
    requires { n < length (points_of_object places.now) }
    ensures { result ≡ is_a_smap_point places.now (point_at places.now n) }
{
    let point = places.point(n);
    if point.variant == 0 {
        return false;
    }
    is_for_smap(&places.linked().special().alternatives()[point.variant as usize - 1])
}

/// Whether a point runs in a site that has such a replacement, and is of none of them.
fn lacks_smap(places: &PointPlaces<'_, '_, '_>, starts: &PlaceSet, n: u32) -> bool
    requires point { n < length (points_of_object places.now) }
    requires starts { HaveSamePlaces (starts_of_smap_sites (alternatives_of places.now)) starts.now }
    ensures { result ≡ lacks_smap_at places.now (point_at places.now n) }
{
    let Some(start) = site_start(places, n) else {
        return false;
    };
    starts.contains(start) && !is_smap_point(places, n)
}

/// For each point, whether a processor with SMAP has other code in its place.
pub(crate) fn list_lacking_smap(
    alloc: Global,
    places: &PointPlaces<'_, '_, '_>,
) -> Result<Vec<bool>, NoMemory>
    ensures { IfOk result (λ flags. AreFlags (λ q. lacks_smap_at places.now (point_at places.now q)) (length (points_of_object places.now)) flags.items) }
{
    let starts = smap_starts(alloc, places.linked().special().alternatives())?;
    let starts = PlaceSet::build(alloc, &starts)?;
    let count = count_points(places);
    let mut flags = Vec::with_capacity(alloc, count as usize)?;
    for n in 0..count {
        flags.push(lacks_smap(places, &starts, n))?;
    }
    Ok(flags)
}
