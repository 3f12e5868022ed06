//! Sites without their entries.

ghost use Rattle.std.specs.Prelude.{◌≡◌, map, IfOk};
ghost use Rattle.ot_base.specs.Places.{same_place};
ghost use Rattle.machine_defs.specs.Program.{in_site};
ghost use Rattle.program_graph.specs.Tells.{site_of};
ghost use Rattle.object_points.specs.Plain.{plain_site as plain_of};

use ot_base::{NoMemory, Place};
use program_graph::GraphSite;
use std::alloc::Global;

/// A site without its entries.
pub(crate) fn plain_site(site: &alternatives::AlternativesSite) -> GraphSite
    ensures { result ≡ plain_of site.now }
{
    GraphSite {
        start: site.start,
        len: u64::from(site.len),
    }
}

/// Sites without their entries.
pub(crate) fn plain_sites(
    alloc: Global,
    sites: &[alternatives::AlternativesSite],
) -> Result<Vec<GraphSite>, NoMemory>
    ensures { IfOk result (λ plain. plain.items ≡ map plain_of sites.now) }
{
    Ok(sites.iter().map(|site| plain_site(site)).collect(alloc)?)
}

/// Whether a place is the start of a site.
pub(crate) fn starts_at(site: GraphSite, place: Place) -> bool
    ensures { result ≡ same_place site.start place }
{
    site.start.sec == place.sec && site.start.off == place.off
}

/// Whether a place lies in a site.
pub(crate) fn is_in_site(site: GraphSite, place: Place) -> bool
    ensures { result ≡ in_site (site_of site) place }
{
    let start = site.start;
    start.sec == place.sec
        && start.off <= place.off
        && u128::from(place.off) < u128::from(start.off) + u128::from(site.len)
}
