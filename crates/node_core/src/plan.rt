//! The clusters that would run after the planned changes.
ghost use Rattle.std.specs.Prelude.{◌≡◌, ◌≢◌, filter, map, not, IfOk, OnOk};
ghost use Rattle.std.specs.Str.{bytes_eq};
ghost use Rattle.ucm_base.specs.Names.{name_lt};
ghost use Rattle.pm_types.specs.Clusters.{brought, changed_by, planned, with_cluster};
ghost use Rattle.node_core.specs.Core.{over};
ghost use Rattle.node_core.specs.Units.{IsReservedWork, planned_of};
ghost use Rattle.pm_types.specs.Stored.{Areas};
ghost use Rattle.pm_types.specs.declared.status.Status.TheVariants.{Processing};

use crate::prepared::Prepared;
use crate::ready::Ready;
use pm_types::{Change, Cluster, Clusters, Extent, Session, Status};
use std::alloc::{AllocError, Global};
use ucm_base::{Action, ClusterName, Needs, Part, VersionText};

/// A cluster that would run; its version and its needs lie with the saved clusters or the planned changes.
#[derive(Clone, Copy)]
pub(crate) struct Planned<'a> {
    pub(crate) name: &'a ClusterName,
    pub(crate) version: &'a VersionText,
    pub(crate) needs: &'a Needs,
    content: Extent,
}

impl Planned<'_> {
    /// The cluster itself.
    fn cluster(&self, alloc: Global) -> Result<Cluster<Extent>, AllocError>
        ensures { IfOk result (λ c. c ≡ planned_of self.now) }
    {
        Ok(Cluster {
            name: *self.name,
            version: self.version.clone()?,
            needs: self.needs.copied(alloc)?,
            content: self.content,
        })
    }
}

/// The clusters after a session's changes, in order.
pub(crate) fn planned_clusters(alloc: Global, session: &Session) -> Result<Clusters, AllocError>
    ensures { IfOk result (λ cs. cs ≡ planned session.now.changes session.now.saved) }
{
    let plan = plan(alloc, &session.saved, session.changes.as_slice())?;
    let mut clusters = Vec::with_capacity(alloc, plan.len())?;
    for planned in &plan {
        clusters.push(planned.cluster(alloc)?)?;
    }
    Ok(Clusters::of(clusters))
}

/// The clusters after changes, in order. None is copied.
pub(crate) fn plan<'a>(
    alloc: Global,
    saved: &'a Clusters,
    changes: &'a [Change<Extent>],
) -> Result<Vec<Planned<'a>>, AllocError>
    ensures { IfOk result (λ plan. map planned_of plan.items ≡ planned changes.now saved.now) }
{
    let mut plan = take_over(alloc, saved.as_slice())?;
    for change in changes {
        plan = change_plan(alloc, &change.part, plan.as_slice())?;
    }
    Ok(plan)
}

/// The clusters as they are.
fn take_over<'a>(
    alloc: Global,
    clusters: &'a [Cluster<Extent>],
) -> Result<Vec<Planned<'a>>, AllocError>
    ensures { IfOk result (λ plan. map planned_of plan.items ≡ clusters.now) }
{
    let mut plan = Vec::with_capacity(alloc, clusters.len())?;
    for cluster in clusters {
        plan.push(Planned {
            name: &cluster.name,
            version: &cluster.version,
            needs: &cluster.needs,
            content: cluster.content,
        })?;
    }
    Ok(plan)
}

/// The clusters after one change, in order.
fn change_plan<'a>(
    alloc: Global,
    part: &'a Part<Extent>,
    plan: &[Planned<'a>],
) -> Result<Vec<Planned<'a>>, AllocError>
    ensures { IfOk result (λ v. map planned_of v.items
        ≡ changed_by part.now (map planned_of plan.now)) }
{
    match part.manifest.action {
        Action::Install | Action::Update => put(alloc, part, plan),
        Action::Remove => {
            let left = without(alloc, &part.manifest.name, plan)?;
            Ok(left)
        }
    }
}

/// The clusters with that of a part in its place.
fn put<'a>(
    alloc: Global,
    part: &'a Part<Extent>,
    plan: &[Planned<'a>],
) -> Result<Vec<Planned<'a>>, AllocError>
    ensures { IfOk result (λ v. map planned_of v.items
        ≡ with_cluster (brought part.now) (map planned_of plan.now)) }
{
    let manifest = &part.manifest;
    let mut all = before(alloc, &manifest.name, plan)?;
    all.push(Planned {
        name: &manifest.name,
        version: &manifest.version,
        needs: &manifest.needs,
        content: part.payload,
    })?;
    let mut behind = behind(alloc, &manifest.name, plan)?;
    all.append(&mut behind)?;
    Ok(all)
}

/// The clusters that stand before a name.
fn before<'a>(
    alloc: Global,
    name: &ClusterName,
    plan: &[Planned<'a>],
) -> Result<Vec<Planned<'a>>, AllocError>
    ensures { IfOk result (λ v. v.items
        ≡ filter (λ other. name_lt other.name.now name.now) plan.now) }
{
    plan.iter()
        .filter(|other| other.name < name)
        .copied()
        .collect(alloc)
}

/// The clusters that stand behind a name.
fn behind<'a>(
    alloc: Global,
    name: &ClusterName,
    plan: &[Planned<'a>],
) -> Result<Vec<Planned<'a>>, AllocError>
    ensures { IfOk result (λ v. v.items
        ≡ filter (λ other. name_lt name.now other.name.now) plan.now) }
{
    plan.iter()
        .filter(|other| name < other.name)
        .copied()
        .collect(alloc)
}

/// The clusters without that of a name.
fn without<'a>(
    alloc: Global,
    name: &ClusterName,
    plan: &[Planned<'a>],
) -> Result<Vec<Planned<'a>>, AllocError>
    ensures { IfOk result (λ v. v.items
        ≡ filter (λ other. not (bytes_eq other.name.now name.now)) plan.now) }
{
    plan.iter()
        .filter(|other| other.name != name)
        .copied()
        .collect(alloc)
}

impl Ready {
    /// Makes ready the clusters that run after the next unit, where it changes them.
    pub(crate) fn reserve_clusters(&mut self, alloc: Global) -> Result<(), AllocError>
        ensures state { self.new.state ≡ self.old.state }
        ensures ready { OnOk result (self.old.state.status ≢ Processing
            → (areas : Areas) → IsReservedWork (over areas self.new)) }
    {
        let state = &self.state;
        let Some(session) = &state.session else {
            return Ok(());
        };
        let clusters = match state.status {
            Status::Activating => planned_clusters(alloc, session)?,
            Status::RollingBack => session.saved.copied(alloc)?,
            _ => return Ok(()),
        };
        self.prepared = Prepared::Clusters(clusters);
        Ok(())
    }
}
