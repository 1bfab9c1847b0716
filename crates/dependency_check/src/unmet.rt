//! The first need that is not met, and whose it is.
ghost use Rattle.std.specs.Prelude.{◌≡◌, not, find, map, option_map, IsTrue};
ghost use Rattle.ucm_base.specs.Names.{names_rise};
ghost use Rattle.ucm_base.specs.Needs.{is_met, missing};
ghost use Rattle.dependency_check.specs.Clusters.{needing, unmet};

use std::cmp::Ordering;
use ucm_base::{ClusterName, Need, Needs, VersionText};

/// A cluster by its name, its version and what it needs, which lie elsewhere.
#[derive(Clone, Copy)]
pub struct Needing<'a> {
    pub name: &'a ClusterName,
    pub version: &'a VersionText,
    pub needs: &'a Needs,
}

/// Whether a cluster of the needed name is there, at a version that the requirement accepts. Where the one in the
/// middle has another name, only the half that may have it is looked at.
fn is_met(clusters: &[Needing<'_>], need: &Need) -> bool
    requires rise { IsTrue (names_rise (map (λ c. c.name.now) clusters.now)) }
    ensures { result ≡ is_met (map needing clusters.now) need.now }
{
    let (before, from) = clusters.split_at(clusters.len() / 2);
    let Some((middle, behind)) = from.split_first() else {
        return false;
    };
    match need.name.cmp(middle.name) {
        Ordering::Less => is_met(before, need),
        Ordering::Equal => need.req.accepts(middle.version),
        Ordering::Greater => is_met(behind, need),
    }
}

/// The first of some needs that is not met.
fn unmet_of<'a>(clusters: &[Needing<'_>], needs: &'a [Need]) -> Option<&'a Need>
    requires rise { IsTrue (names_rise (map (λ c. c.name.now) clusters.now)) }
    ensures { option_map (λ need. need.now) result
        ≡ find (λ need. not (is_met (map needing clusters.now) need)) needs.now }
{
    for need in needs {
        if !is_met(clusters, need) {
            return Some(need);
        }
    }
    None
}

/// The first need that the clusters leave unmet: that of the first cluster which has one, and of these the first in
/// its list. A need is met where a cluster of its name is there, at a version that its requirement accepts.
///
/// The clusters stand in order of name, so that the first cluster is the first by name, and a need is looked up by
/// halves. It takes no memory.
pub fn missing<'a>(clusters: &[Needing<'a>]) -> Option<(ClusterName, &'a Need)>
    requires rise { IsTrue (names_rise (map (λ c. c.name.now) clusters.now)) }
    ensures { option_map unmet result ≡ missing (map needing clusters.now) }
{
    for cluster in clusters {
        if let Some(need) = unmet_of(clusters, cluster.needs.as_slice()) {
            return Some((*cluster.name, need));
        }
    }
    None
}
