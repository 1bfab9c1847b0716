//! Where the payloads of a package's parts go.
ghost use Rattle.std.specs.Prelude.{◌≡◌, map, option_map, IfOk};
ghost use Rattle.pm_types.specs.Clusters.{cluster_at};
ghost use Rattle.ucm_base.specs.Limits.{cluster_limit};
ghost use Rattle.transfer_blocks.specs.Table.{is_free, lowest_free};
ghost use Rattle.node_core.specs.Places.{extent_of, extents_of, running_at, taken_in};

use pm_types::{Change, Cluster, Extent, State};
use std::alloc::{AllocError, Global};
use ucm_base::limits::CLUSTER_LIMIT;
use ucm_base::{Action, ClusterName, Part};

/// Where the payloads of parts go, in order: for the parts behind it a part counts as planned.
pub(crate) fn extents(
    alloc: Global,
    state: &State,
    parts: &[Part<u32>],
) -> Result<Vec<Extent>, AllocError>
    ensures { IfOk result (λ extents. extents.items
        ≡ extents_of state.now.running (taken_in state.now) parts.now) }
{
    let mut taken = taken(alloc, state)?;
    let mut extents = Vec::new(alloc);
    for part in parts {
        let extent = extent_of(state.running.as_slice(), taken.as_slice(), part);
        taken.push(extent.place)?;
        extents.push(extent)?;
    }
    Ok(extents)
}

/// The places that running clusters, saved clusters and planned changes have.
#[tactic(auto, using(crate::proofs::Taken::taken_none, crate::proofs::Taken::taken_some))]
fn taken(alloc: Global, state: &State) -> Result<Vec<u8>, AllocError>
    ensures { IfOk result (λ taken. taken.items ≡ taken_in state.now) }
{
    let mut taken = places(alloc, state.running.as_slice())?;
    if let Some(session) = &state.session {
        taken.append(&mut places(alloc, session.saved.as_slice())?)?;
        taken.append(&mut planned_places(alloc, session.changes.as_slice())?)?;
    }
    Ok(taken)
}

/// The places of clusters.
fn places(alloc: Global, clusters: &[Cluster<Extent>]) -> Result<Vec<u8>, AllocError>
    ensures { IfOk result (λ places. places.items
        ≡ map (λ c. c.content.place) clusters.now) }
{
    let mut places = Vec::new(alloc);
    for cluster in clusters {
        places.push(cluster.content.place)?;
    }
    Ok(places)
}

/// The places of planned changes.
fn planned_places(alloc: Global, changes: &[Change<Extent>]) -> Result<Vec<u8>, AllocError>
    ensures { IfOk result (λ places. places.items
        ≡ map (λ c. c.part.payload.place) changes.now) }
{
    let mut places = Vec::new(alloc);
    for change in changes {
        places.push(change.part.payload.place)?;
    }
    Ok(places)
}

/// Where the payload of a part goes, where these places are taken.
fn extent_of(running: &[Cluster<Extent>], taken: &[u8], part: &Part<u32>) -> Extent
    ensures { result ≡ extent_of running.now taken.now part.now }
{
    let length = part.payload;
    let at = running_at(running, part.manifest.name);
    match part.manifest.action {
        Action::Install => Extent {
            place: lowest_free(taken),
            side: 0,
            length,
        },
        Action::Update => Extent {
            place: at.place,
            side: 1u8.saturating_sub(at.side),
            length,
        },
        Action::Remove => Extent {
            place: at.place,
            side: at.side,
            length,
        },
    }
}

/// Where the running cluster of a name lies.
fn running_at(running: &[Cluster<Extent>], name: ClusterName) -> Extent
    ensures { result ≡ running_at running.now name }
{
    match cluster_at(running, name) {
        Some(cluster) => cluster.content,
        None => Extent {
            place: 0,
            side: 0,
            length: 0,
        },
    }
}

/// The lowest place that isn't taken.
fn lowest_free(taken: &[u8]) -> u8
    ensures { result ≡ lowest_free cluster_limit taken.now }
{
    for place in 0..CLUSTER_LIMIT as u8 {
        if is_free(taken, place) {
            return place;
        }
    }
    0
}

/// Whether the place isn't taken.
fn is_free(taken: &[u8], place: u8) -> bool
    ensures { result ≡ is_free taken.now place }
{
    taken.iter().all(|other| *other != place)
}

/// The cluster of a name.
fn cluster_at(clusters: &[Cluster<Extent>], name: ClusterName) -> Option<&Cluster<Extent>>
    ensures { option_map (λ c. c.now) result ≡ cluster_at clusters.now name }
{
    clusters.iter().find(|cluster| cluster.name == name)
}
