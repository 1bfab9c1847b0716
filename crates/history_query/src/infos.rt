//! Queries on clusters, planned changes and transfers.
ghost use Rattle.std.specs.Prelude.{◌≡◌, ◌==◌, filter, map, option_map, IfOk};
ghost use Rattle.history_query.specs.Shown.{changes_planned, shown_change, shown_cluster, shown_transfer};

use pm_types::{
    Change, ChangeInfo, ChangeList, Cluster, ClusterInfo, ClusterList, Clusters, Extent,
    PackageInfo, PackageList, Session, StoredTransfer,
};
use std::alloc::{AllocError, Global};
use ucm_base::ClientId;

/// The running clusters, in order of name.
pub fn cluster_info(alloc: Global, running: &Clusters) -> Result<ClusterList, AllocError>
    ensures { IfOk result (λ list. list ≡ map shown_cluster running.now) }
{
    let items = shown_clusters(alloc, running.as_slice())?;
    Ok(ClusterList::of(items))
}

fn shown_clusters(
    alloc: Global,
    clusters: &[Cluster<Extent>],
) -> Result<Vec<ClusterInfo>, AllocError>
    ensures { IfOk result (λ infos. infos.items ≡ map shown_cluster clusters.now) }
{
    let mut infos = Vec::with_capacity(alloc, clusters.len())?;
    for cluster in clusters {
        infos.push(ClusterInfo {
            name: cluster.name,
            version: cluster.version.clone()?,
        })?;
    }
    Ok(infos)
}

/// The planned changes, in order; none where there is no session.
pub fn change_info(alloc: Global, session: Option<&Session>) -> Result<ChangeList, AllocError>
    ensures { IfOk result (λ list. list
        ≡ map shown_change (changes_planned (option_map (λ x. x.now) session.entry))) }
{
    let items = shown_changes(alloc, planned_in(session))?;
    Ok(ChangeList::of(items))
}

fn planned_in(session: Option<&Session>) -> &[Change<Extent>]
    ensures { result.now ≡ changes_planned (option_map (λ x. x.now) session.entry) }
{
    match session {
        Some(session) => session.changes.as_slice(),
        None => &[],
    }
}

fn shown_changes(alloc: Global, changes: &[Change<Extent>]) -> Result<Vec<ChangeInfo>, AllocError>
    ensures { IfOk result (λ infos. infos.items ≡ map shown_change changes.now) }
{
    let mut infos = Vec::with_capacity(alloc, changes.len())?;
    for change in changes {
        let manifest = &change.part.manifest;
        infos.push(ChangeInfo {
            name: manifest.name,
            action: manifest.action,
            version: manifest.version.clone()?,
        })?;
    }
    Ok(infos)
}

/// The client's transfers, by rising ids.
pub fn packages(
    alloc: Global,
    transfers: &[StoredTransfer],
    client: ClientId,
) -> Result<PackageList, AllocError>
    ensures { IfOk result (λ list. list
        ≡ map (λ t. shown_transfer t.header)
        (filter (λ t. t.header.client == client) transfers.now)) }
{
    let items = shown_packages(alloc, transfers, client)?;
    Ok(PackageList::of(items))
}

fn shown_packages(
    alloc: Global,
    transfers: &[StoredTransfer],
    client: ClientId,
) -> Result<Vec<PackageInfo>, AllocError>
    ensures { IfOk result (λ infos. infos.items
        ≡ map (λ t. shown_transfer t.header)
        (filter (λ t. t.header.client == client) transfers.now)) }
{
    transfers
        .iter()
        .filter(|transfer| transfer.header.client == client)
        .map(|transfer| PackageInfo {
            id: transfer.header.id,
            phase: transfer.header.phase,
            received: transfer.header.received,
            size: transfer.header.size,
        })
        .collect(alloc)
}
