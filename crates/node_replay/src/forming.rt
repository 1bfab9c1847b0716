//! Formatting the disk with a script's clusters.
ghost use Rattle.std.specs.Prelude.{◌≡◌, ◌≤◌, false, IfOk, IfErr, IsTrue, length, map};
ghost use Rattle.std.specs.List.{AllByRecursion};
ghost use Rattle.disk_core.specs.Images.{EachImage};
ghost use Rattle.ucm_base.specs.Limits.{attempt_limit, cluster_limit, package_limit};
ghost use Rattle.ucm_base.specs.Names.{all_differ};
ghost use Rattle.pm_types.specs.Histories.{formatted};
ghost use Rattle.node_core.specs.Format.{in_order};
ghost use Rattle.node_store.specs.Open.{IsBlank, IsOpen};
ghost use Rattle.node_store.specs.Serving.{node_on};
ghost use Rattle.slot_store.specs.Extents.{HasExtents, node_places};
ghost use Rattle.node_replay.specs.Done.{RoseIn};
ghost use Rattle.node_replay.specs.Lines.{cluster_meant};

use checkpoint::StoreError;
use disk_core::Disk;
use node_store::Node;
use pm_types::Cluster;
use scenario::Installed;
use std::alloc::{AllocError, Global};
use ucm_base::Block;
use ucm_base::limits::ATTEMPT_LIMIT;

/// The clusters with their bytes.
pub(crate) fn clusters_of(
    alloc: Global,
    installed: &[Installed],
    attached: &[u8],
) -> Result<Vec<Cluster<Block>>, AllocError>
    ensures { IfOk result (λ v. v.items ≡ map (cluster_meant attached.now) installed.now) }
{
    let mut clusters = Vec::new(alloc);
    'installed: for one in installed {
        clusters.push(cluster_of(alloc, one, attached)?)?;
    }
    Ok(clusters)
}

/// An installed cluster with its bytes.
fn cluster_of(
    alloc: Global,
    installed: &Installed,
    attached: &[u8],
) -> Result<Cluster<Block>, AllocError>
    ensures { IfOk result (λ c. c ≡ cluster_meant attached.now installed.now) }
{
    Ok(Cluster {
        name: installed.name,
        version: installed.version.clone()?,
        needs: installed.needs.copied(alloc)?,
        content: installed.block.make(alloc, attached)?,
    })
}

/// Formats the disk, in at most eight attempts. After eight that failed, or without memory, the disk comes back.
pub(crate) fn form<D: Disk + Drop>(
    alloc: Global,
    disk: D,
    clusters: &[Cluster<Block>],
) -> Result<Node<D>, (D, StoreError)>
    requires extents { HasExtents node_places (D.seen disk) }
    requires blank { EachImage (D.images disk) IsBlank }
    requires differ { IsTrue (all_differ (map (λ c. c.name) clusters.now)) }
    requires few { length clusters.now ≤ cluster_limit }
    requires short { AllByRecursion (λ c. length c.content ≤ package_limit) clusters.now }
    ensures known { IfOk result (λ node. IsOpen node.log node.ready
        (D.seen node.extents.disk) (D.images node.extents.disk)) }
    ensures node { IfOk result (λ node. node_on node.ready.state (D.seen node.extents.disk)
        ≡ formatted (in_order clusters.now)) }
    ensures open { IfOk result (λ node. node.is_closed ≡ false) }
    ensures plan { IfOk result (λ node. D.armed node.extents.disk ≡ D.armed disk) }
    ensures faults { IfOk result (λ node.
        D.fault_count disk ≤ D.fault_count node.extents.disk) }
    ensures rose { IfErr result (λ failed. failed.1 ≡ StoreError.Failed
        → RoseIn attempt_limit (D.fault_count disk) (D.fault_count failed.0)) }
    ensures kept { IfErr result (λ failed. D.armed failed.0 ≡ D.armed disk) }
{
    let mut disk = disk;
    'attempts: for attempt in 0..ATTEMPT_LIMIT {
        match Node::format(alloc, disk, clusters) {
            Ok(node) => return Ok(node),
            Err((back, StoreError::Failed)) => disk = back,
            Err((back, StoreError::OutOfMemory)) => return Err((back, StoreError::OutOfMemory)),
        }
    }
    Err((disk, StoreError::Failed))
}
