//! The clusters that run after a session's changes.
ghost use Rattle.std.specs.Prelude.{◌≡◌, ◌++◌, ◌∷◌, [], filter, not, IfOk, OnOk};
ghost use Rattle.std.specs.Str.{bytes_eq};
ghost use Rattle.ucm_base.specs.Names.{name_lt};
ghost use Rattle.pm_types.specs.Clusters.{brought, changed_by, planned, with_cluster, without};

use pm_types::{Change, Cluster, Clusters, Extent};
use std::alloc::{AllocError, Global};
use ucm_base::{Action, ClusterName, Part};

/// The clusters after changes, in order.
pub(crate) fn planned(
    alloc: Global,
    saved: &Clusters,
    changes: &[Change<Extent>],
) -> Result<Clusters, AllocError>
    ensures { IfOk result (λ clusters. clusters ≡ planned changes.now saved.now) }
{
    let mut clusters = saved.copied(alloc)?;
    for change in changes {
        clusters = changed(alloc, clusters.as_slice(), &change.part)?;
    }
    Ok(clusters)
}

/// The clusters after one change, in order.
fn changed(
    alloc: Global,
    clusters: &[Cluster<Extent>],
    part: &Part<Extent>,
) -> Result<Clusters, AllocError>
    ensures { IfOk result (λ changed. changed ≡ changed_by part.now clusters.now) }
{
    match part.manifest.action {
        Action::Install | Action::Update => with(alloc, clusters, part),
        Action::Remove => without(alloc, clusters, &part.manifest.name),
    }
}

/// The clusters with that of a part in its place.
fn with(
    alloc: Global,
    clusters: &[Cluster<Extent>],
    part: &Part<Extent>,
) -> Result<Clusters, AllocError>
    ensures { IfOk result (λ all. all ≡ with_cluster (brought part.now) clusters.now) }
{
    let name = &part.manifest.name;
    let mut all = before(alloc, clusters, name)?;
    let mut behind = behind(alloc, clusters, name)?;
    all.push(brought(alloc, part)?)?;
    all.append(&mut behind)?;
    Ok(Clusters::of(all))
}

/// The clusters that stand before a name.
fn before(
    alloc: Global,
    clusters: &[Cluster<Extent>],
    name: &ClusterName,
) -> Result<Vec<Cluster<Extent>>, AllocError>
    ensures { IfOk result
        (λ v. v.items ≡ filter (λ c. name_lt c.name name.now) clusters.now) }
{
    let mut before = Vec::with_capacity(alloc, clusters.len())?;
    for cluster in clusters {
        if cluster.name < *name {
            before.push(cluster.copied(alloc)?)?;
        }
    }
    Ok(before)
}

/// The clusters that stand behind a name.
fn behind(
    alloc: Global,
    clusters: &[Cluster<Extent>],
    name: &ClusterName,
) -> Result<Vec<Cluster<Extent>>, AllocError>
    ensures { IfOk result
        (λ v. v.items ≡ filter (λ c. name_lt name.now c.name) clusters.now) }
{
    let mut behind = Vec::with_capacity(alloc, clusters.len())?;
    for cluster in clusters {
        if *name < cluster.name {
            behind.push(cluster.copied(alloc)?)?;
        }
    }
    Ok(behind)
}

/// The clusters without that of a name.
fn without(
    alloc: Global,
    clusters: &[Cluster<Extent>],
    name: &ClusterName,
) -> Result<Clusters, AllocError>
    ensures { IfOk result (λ left. left ≡ without name.now clusters.now) }
{
    let mut left = Vec::with_capacity(alloc, clusters.len())?;
    for cluster in clusters {
        if cluster.name != *name {
            left.push(cluster.copied(alloc)?)?;
        }
    }
    Ok(Clusters::of(left))
}

/// The cluster that a part brings.
fn brought(alloc: Global, part: &Part<Extent>) -> Result<Cluster<Extent>, AllocError>
    ensures { IfOk result (λ cluster. cluster ≡ brought part.now) }
{
    let manifest = &part.manifest;
    Ok(Cluster {
        name: manifest.name,
        version: manifest.version.clone()?,
        needs: manifest.needs.copied(alloc)?,
        content: part.payload,
    })
}
