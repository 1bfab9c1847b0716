//! A node that begins with installed clusters.
ghost use Rattle.std.specs.Prelude.{◌≡◌, ◌≤◌, ◌++◌, ◌∷◌, [], filter, length, map, IfOk, OnOk, IsErrOf, IsTrue};
ghost use Rattle.std.specs.List.{AllByRecursion};
ghost use Rattle.ucm_base.specs.Limits.{cluster_limit, package_limit};
ghost use Rattle.ucm_base.specs.Names.{all_differ, name_lt};
ghost use Rattle.pm_types.specs.Histories.{formatted};
ghost use Rattle.pm_types.specs.Stored.{Areas, fresh_state, meaning};
ghost use Rattle.transfer_blocks.specs.Areas.{AreasFit};
ghost use Rattle.fault_count.specs.Faults.{HasRisen};
ghost use Rattle.node_core.specs.Packages.{package_reading};
ghost use Rattle.node_core.specs.Core.{IsSound, holding};
ghost use Rattle.node_core.specs.Errors.{end_by};
ghost use Rattle.node_core.specs.Format.{Formats, IsFormatted, in_order, placed, placed_from, with_installed};

use crate::node::ReserveError;
use pm_types::{Cluster, Clusters, Extent, State};
use std::alloc::{AllocError, Global};
use transfer_blocks::{Area, Staging};
use ucm_base::{Block, ClusterName};

/// A cluster that a node begins with, and its bytes.
pub type Installed = Cluster<Block>;

/// The state of a node that begins with these clusters and has done nothing. Each one's bytes are put to the first side
/// of its place; the places go from 0 up by rising names. What the areas held before doesn't matter, and after an error
/// only first sides may hold other bytes.
pub fn format_areas<S: Staging>(
    alloc: Global,
    staging: &mut S,
    installed: &[Installed],
) -> Result<State, ReserveError>
    requires fit { S.is_fit staging.old }
    requires differ { IsTrue (all_differ (map (λ c. c.name) installed.now)) }
    requires few { length installed.now ≤ cluster_limit }
    requires short { AllByRecursion (λ c. length c.content ≤ package_limit) installed.now }
    ensures places { IfOk result (λ s. s
        ≡ fresh_state (placed_from 0 (in_order installed.now))) }
    ensures node { IfOk result (λ s. meaning package_reading (S.areas staging.new) s
        ≡ formatted (in_order installed.now)) }
    ensures sound { IfOk result (λ s.
        IsSound (holding (S.areas staging.new) s)) }
    ensures holds { IfOk result (λ s. (held : Areas) → AreasFit held
        → IsFormatted (in_order installed.now) held s) }
    // What was done to the staging: with the clause above it holds of each image of a device.
    ensures formats { Formats S.obeys (in_order installed.now) (end_by result)
        staging.old staging.new }
    ensures entries { IfOk result (λ s. s.entries ≡ 0) }
    ensures fit { S.is_fit staging.new }
    ensures cause { IsErrOf result ReserveError.StagingFailed
        → HasRisen (S.fault_count staging.old) (S.fault_count staging.new) }
    ensures faults { S.fault_count staging.old ≤ S.fault_count staging.new }
{
    let ordered = in_order(alloc, installed)?;
    let running = install(alloc, staging, ordered)?;
    let state = State::fresh(alloc, running)?;
    Ok(state)
}

/// The clusters by rising names; none is copied.
fn in_order<'a>(alloc: Global, installed: &'a [Installed]) -> Result<Vec<&'a Installed>, AllocError>
    requires differ { IsTrue (all_differ (map (λ c. c.name) installed.now)) }
    ensures sorted { IfOk result (λ v. map (λ c. c.now) v.items ≡ in_order installed.now) }
    ensures length { IfOk result (λ v.
        length (map (λ c. c.now) v.items) ≡ length installed.now) }
{
    let mut sorted = Vec::with_capacity(alloc, installed.len())?;
    for cluster in installed {
        let before = count_before(sorted.as_slice(), &cluster.name);
        sorted.insert(before, cluster)?;
    }
    Ok(sorted)
}

/// How many of the clusters stand before the name.
fn count_before(clusters: &[&Installed], name: &ClusterName) -> usize
    ensures { result ≡ length (filter (λ c. name_lt c.now.name name.now) clusters.now) }
{
    clusters
        .iter()
        .filter(|cluster| cluster.name < *name)
        .count()
}

/// Puts the clusters to the first sides of the places, in turn.
fn install<S: Staging>(
    alloc: Global,
    staging: &mut S,
    clusters: Vec<&Installed>,
) -> Result<Clusters, ReserveError>
    requires fit { S.is_fit staging.old }
    requires few { length (map (λ c. c.now) clusters.items) ≤ cluster_limit }
    requires short { AllByRecursion (λ c. length c.content ≤ package_limit) (map (λ c. c.now) clusters.items) }
    ensures placed { IfOk result (λ running. running ≡ placed_from 0 (map (λ c. c.now) clusters.entry.items)) }
    ensures areas { IfOk result (λ _. S.areas staging.new
        ≡ with_installed (map (λ c. c.now) clusters.entry.items) (S.areas staging.old)) }
    ensures formats { Formats S.obeys (map (λ c. c.now) clusters.entry.items) (end_by result) staging.old staging.new }
    ensures fit { S.is_fit staging.new }
    ensures cause { IsErrOf result ReserveError.StagingFailed
        → HasRisen (S.fault_count staging.old) (S.fault_count staging.new) }
    ensures faults { S.fault_count staging.old ≤ S.fault_count staging.new }
{
    let mut running = Vec::with_capacity(alloc, clusters.len())?;
    for cluster in clusters {
        let place = running.len() as u8;
        let bytes = cluster.content.as_slice();
        staging.put(Area::Side { place, side: 0 }, 0, bytes)?;
        add(alloc, &mut running, place, cluster)?;
    }
    Ok(Clusters::of(running))
}

/// Adds a cluster whose bytes lie on the first side of the place.
fn add(
    alloc: Global,
    running: &mut Vec<Cluster<Extent>>,
    place: u8,
    cluster: &Installed,
) -> Result<(), AllocError>
    requires short { length cluster.now.content ≤ package_limit }
    ensures { OnOk result (running.new.items ≡ running.old.items ++ placed place cluster.now ∷ []) }
{
    let length = cluster.content.as_slice().len() as u32;
    running.push(Cluster {
        name: cluster.name,
        version: cluster.version.clone()?,
        needs: cluster.needs.copied(alloc)?,
        content: Extent {
            place,
            side: 0,
            length,
        },
    })?;
    Ok(())
}
