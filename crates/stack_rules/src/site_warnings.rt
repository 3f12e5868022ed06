//! The warnings of rule 12.

ghost use Rattle.std.specs.Prelude.{◌≡◌, ◌+◌, ◌-◌, ◌<◌, ◌≤◌, ◌^◌, IfNone, IfSome, pos, length};
ghost use Rattle.ot_base.specs.declared.rules.TheConstants.{ALTERNATIVES_DISAGREE};
ghost use Rattle.ot_base.specs.Warnings.{numbered_warning};
ghost use Rattle.machine_defs.specs.Program.{Program, Site};
ghost use Rattle.machine_defs.specs.IsProgram.{IsLaidOut};
ghost use Rattle.program_graph.specs.Tells.{Tells};
ghost use Rattle.stack_rules.specs.Sites.{IsIndexOf};
ghost use Rattle.stack_rules.specs.Disagree.{FitsOffset, IsOfSite, IsSiteOf};

use crate::SiteIndex;
use ot_base::{Place, Warning};
use program_graph::Graph;

/// How far it is from a place to the byte that lies so many behind another place. Told as the greatest number where that is more.
fn offset(start: Place, address: Place, ahead: u8) -> i64
    ensures { start.off ≤ address.off → address.off + ahead < start.off + 2 ^ 63 → result ≡ pos (address.off + ahead - start.off) }
{
    let from_start = address.off.saturating_sub(start.off);
    i64::try_from(from_start.saturating_add(u64::from(ahead))).unwrap_or(i64::MAX)
}

/// The warning that variants of a site with this start disagree so many bytes behind an address.
fn warning_at(start: Place, address: Place, ahead: u8) -> Warning
    ensures { start.off ≤ address.off → address.off + ahead < start.off + 2 ^ 63 → result ≡ numbered_warning start ALTERNATIVES_DISAGREE (pos (address.off + ahead - start.off)) (pos 0) }
{
    Warning::alternatives_disagree(start, offset(start, address, ahead))
}

/// The warning that variants of a point's site disagree so many bytes behind where the point runs. A point that runs in no site
/// has none.
pub(crate) fn disagreement(
    graph: &Graph,
    sites: &SiteIndex,
    point: u32,
    ahead: u8,
) -> Option<Warning>
    requires { point < length graph.now.parts.points.items }
    ensures some { (p : Program) → Tells p graph.now.parts → IsIndexOf p sites.now → FitsOffset p point ahead → IfSome result (IsOfSite p point ahead) }
    ensures none { (p : Program) → Tells p graph.now.parts → IsIndexOf p sites.now → IsLaidOut p → IfNone result ((site : Site) → IsSiteOf p point site → ⊥) }
{
    let address = graph.address(point);
    let mut near = 0usize;
    match sites.find(address, &mut near) {
        Some(site) => Some(warning_at(site.start, address, ahead)),
        None => None,
    }
}
