//! Sites by place.

ghost use Rattle.std.specs.Prelude.{◌≡◌, ◌<◌, [], length, map, option_map, IfNone, IfOk, IfSome};
ghost use Rattle.program_graph.specs.Tells.{site_of};
ghost use Rattle.flow_defs.specs.Code.{point_at, points_of_object};
ghost use Rattle.flow_defs.specs.Sites.{is_into_site as comes_into_site, site_holding, sites_of};
ghost use Rattle.object_points.specs.Plain.{AreAllSites};

use crate::PointPlaces;
use crate::linked::Linked;
use crate::site::{is_in_site, plain_site, plain_sites, starts_at};
use alternatives::Sites;
use ot_base::{NoMemory, Place};
use program_graph::GraphSite;
use std::alloc::Global;

/// The sites of an object. One without text sections has none.
pub(crate) fn sites_in_code<'l>(linked: &'l Linked<'_, '_>) -> Option<&'l Sites>
    ensures none { IfNone result (sites_of linked.now ≡ []) }
    ensures all { IfSome result (λ sites. AreAllSites linked.now sites.now.sites) }
{
    if linked.texts().is_empty() {
        return None;
    }
    Some(linked.sites())
}

/// The alternatives sites of an object, ascending by their starts.
///
/// # Errors
///
/// [`NoMemory`] may come at any object.
pub fn list_sites(
    alloc: Global,
    places: &PointPlaces<'_, '_, '_>,
) -> Result<Vec<GraphSite>, NoMemory>
    ensures { IfOk result (λ sites. map site_of sites.items ≡ sites_of places.now) }
{
    match sites_in_code(places.linked()) {
        Some(sites) => plain_sites(alloc, sites.sites()),
        None => Ok(Vec::new(alloc)),
    }
}

/// The alternatives site that holds a place, its start included.
#[inline(always)]
pub fn site_holding(places: &PointPlaces<'_, '_, '_>, place: Place) -> Option<GraphSite>
    ensures { option_map site_of result ≡ site_holding places.now place }
{
    if !places.may_be_in_site(place) {
        return None;
    }
    search_site(places, place)
}

/// The same by a search.
#[inline(never)]
fn search_site(places: &PointPlaces<'_, '_, '_>, place: Place) -> Option<GraphSite>
    ensures { option_map site_of result ≡ site_holding places.now place }
{
    let sites = sites_in_code(places.linked())?;
    let n = sites.site_number_at(place)?;
    Some(plain_site(&sites.sites()[n as usize]))
}

/// Whether control that comes from a point to a place would come into a site, past its start. From a plain
/// point of the site itself it wouldn't.
pub fn is_into_site(places: &PointPlaces<'_, '_, '_>, n: u32, place: Place) -> bool
    requires { n < length (points_of_object places.now) }
    ensures { result ≡ comes_into_site places.now (point_at places.now n) place }
{
    let Some(site) = site_holding(places, place) else {
        return false;
    };
    let point = places.point(n);
    !starts_at(site, place) && !(point.variant == 0 && is_in_site(site, point.place))
}
