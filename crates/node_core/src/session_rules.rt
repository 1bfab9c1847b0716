//! The status table, and what refuses the calls on a session, row by row.
ghost use Rattle.std.specs.Prelude.{◌≡◌, ◌≤◌, ◌==◌, ◌&&◌, [], length, nat_le, not, option_map};
ghost use Rattle.ucm_base.specs.Limits.{cluster_limit, part_limit};
ghost use Rattle.ucm_base.specs.Versions.{is_newer};
ghost use Rattle.pm_types.specs.Clusters.{cluster_at, has_cluster};
ghost use Rattle.pm_types.specs.NodeState.{some_passes};
ghost use Rattle.pm_types.specs.Refusals.{first_refusal};
ghost use Rattle.pm_types.specs.Sessions.{cancel_refusals, is_update, is_wrong_tag, part_refusals, parts_refusal, status_table, suits};
ghost use Rattle.node_core.specs.Sessions.{added, count_of, goal_of, is_brought, is_planned, package_refusals};

use pm_types::{
    Call, Change, Cluster, Extent, Header, Outcome, Phase, Refusal, Session, State, Status,
};
use std::cmp::Ordering;
use transfer_blocks::Found;
use ucm_base::limits::CLUSTER_LIMIT;
use ucm_base::{Action, ClientId, ClusterName, Manifest, Part};

/// Where a call leads: to a status, to cleaning up with an outcome, or back to what was before processing.
#[derive(Clone, Copy, Debug, PartialEq, Eq)]
pub(crate) enum Goal {
    To(Status),
    CleanUp(Outcome),
    Resume,
}

/// The status table: where a call leads from a status; none is its dash.
pub(crate) fn goal_from(status: Status, call: &Call) -> Option<Goal>
    ensures { option_map goal_of result ≡ status_table status call.now }
{
    match (status, call) {
        (Status::Idle, Call::ProcessSwPackage { .. }) => Some(Goal::To(Status::Processing)),
        (Status::Ready, Call::ProcessSwPackage { .. }) => Some(Goal::To(Status::Processing)),
        (Status::Ready, Call::Activate) => Some(Goal::To(Status::Activating)),
        (Status::Ready, Call::RevertProcessedSwPackages) => Some(Goal::CleanUp(Outcome::Old)),
        (Status::Processing, Call::Cancel { .. }) => Some(Goal::Resume),
        (Status::Verifying, Call::Rollback) => Some(Goal::To(Status::RollingBack)),
        (Status::Activated, Call::Finish) => Some(Goal::CleanUp(Outcome::New)),
        (Status::Activated, Call::Rollback) => Some(Goal::To(Status::RollingBack)),
        (Status::RolledBack, Call::Finish) => Some(Goal::CleanUp(Outcome::Old)),
        _ => None,
    }
}

/// Whether the session is another client's.
pub(crate) fn is_anothers(session: &Option<Session>, client: ClientId) -> bool
    ensures { result ≡ some_passes (λ x. not (x.owner == client)) session.now }
{
    match session {
        Some(session) => session.owner != client,
        None => false,
    }
}

/// Why the processing of a transfer isn't cancelled.
pub(crate) fn cancel_refusal(found: Option<Found>) -> Option<Refusal>
    ensures { result ≡ first_refusal (cancel_refusals (option_map (λ f. f.header) found)) }
{
    let Some(found) = found else {
        return Some(Refusal::InvalidTransferId);
    };
    match found.header.phase {
        Phase::Processing => None,
        _ => Some(Refusal::OperationNotPermitted),
    }
}

/// Whether the tag isn't the one that the client's session has: the master has one, others have none.
fn has_wrong_tag(state: &State, client: ClientId, tag: u32) -> bool
    ensures { result ≡ is_wrong_tag state.now client tag }
{
    let is_wrong = if client.number() == 0 {
        tag == 0
    } else {
        tag != 0
    };
    match &state.session {
        Some(session) => is_wrong || session.tag != tag,
        None => is_wrong,
    }
}

/// Why a package isn't processed, before its parts are looked at.
pub(crate) fn package_refusal(
    state: &State,
    client: ClientId,
    tag: u32,
    found: Option<Found>,
) -> Option<Refusal>
    ensures { result ≡ first_refusal
        (package_refusals state.now client tag (option_map (λ f. f.header) found)) }
{
    if has_wrong_tag(state, client, tag) {
        return Some(Refusal::OperationNotPermitted);
    }
    let Some(found) = found else {
        return Some(Refusal::InvalidTransferId);
    };
    match found.header.phase {
        Phase::Transferred => None,
        _ => Some(Refusal::OperationNotPermitted),
    }
}

/// Why the parts of a package aren't processed: the refusal of the first part that has one.
pub(crate) fn parts_refusal(
    running: &[Cluster<Extent>],
    changes: &[Change<Extent>],
    parts: &[Part<u32>],
) -> Option<Refusal>
    requires changes { length changes.now ≤ cluster_limit }
    requires parts { length parts.now ≤ part_limit }
    ensures { result ≡ parts_refusal running.now changes.now [] parts.now }
{
    for place in 0..parts.len() {
        let refusal = part_refusal(running, changes, &parts[..place], &parts[place]);
        if refusal.is_some() {
            return refusal;
        }
    }
    None
}

/// Why a part isn't processed, where these stand before it in its package.
fn part_refusal(
    running: &[Cluster<Extent>],
    changes: &[Change<Extent>],
    before: &[Part<u32>],
    part: &Part<u32>,
) -> Option<Refusal>
    requires changes { length changes.now ≤ cluster_limit }
    requires before { length before.now ≤ part_limit }
    ensures { result ≡ first_refusal (part_refusals running.now changes.now before.now part.now) }
{
    let manifest = &part.manifest;
    if is_changed(changes, manifest.name) {
        return Some(Refusal::ClusterAlreadyChanged);
    }
    if !suits(manifest.action, has_cluster(running, manifest.name)) {
        return Some(Refusal::ActionNotApplicable);
    }
    if is_old(running, manifest) {
        return Some(Refusal::OldVersion);
    }
    if manifest.action == Action::Install && is_full(running, changes, before) {
        return Some(Refusal::TooManyClusters);
    }
    None
}

/// Whether a change of the cluster is planned.
fn is_changed(changes: &[Change<Extent>], name: ClusterName) -> bool
    ensures { result ≡ is_planned changes.now name }
{
    changes
        .iter()
        .any(|change| change.part.manifest.name == name)
}

/// Whether a cluster of the name is there.
fn has_cluster(clusters: &[Cluster<Extent>], name: ClusterName) -> bool
    ensures { result ≡ has_cluster clusters.now name }
{
    clusters.iter().any(|cluster| cluster.name == name)
}

/// Whether the action is one where the cluster is there, or isn't.
fn suits(action: Action, is_there: bool) -> bool
    ensures { result ≡ suits action is_there }
{
    match action {
        Action::Install => !is_there,
        Action::Update | Action::Remove => is_there,
    }
}

/// Whether an Update isn't of higher precedence than what runs.
fn is_old(running: &[Cluster<Extent>], manifest: &Manifest) -> bool
    ensures { result ≡ (is_update manifest.now.action && some_passes
        (λ c. not (is_newer manifest.now.version c.version))
        (cluster_at running.now manifest.now.name)) }
{
    match (manifest.action, cluster_at(running, manifest.name)) {
        (Action::Update, Some(cluster)) => {
            manifest.version.precedence(&cluster.version) != Ordering::Greater
        }
        _ => false,
    }
}

/// The cluster of a name.
pub(crate) fn cluster_at(
    clusters: &[Cluster<Extent>],
    name: ClusterName,
) -> Option<&Cluster<Extent>>
    ensures { option_map (λ c. c.now) result ≡ cluster_at clusters.now name }
{
    clusters.iter().find(|cluster| cluster.name == name)
}

/// Whether clusters, changes and parts have as many different names as a node may have.
fn is_full(clusters: &[Cluster<Extent>], changes: &[Change<Extent>], parts: &[Part<u32>]) -> bool
    requires changes { length changes.now ≤ cluster_limit }
    requires parts { length parts.now ≤ part_limit }
    ensures { result ≡ nat_le cluster_limit (count_of clusters.now changes.now parts.now) }
{
    let mut count = 0;
    let mut rest = clusters;
    while let [cluster, others @ ..] = rest {
        count += added(others, changes, parts, cluster.name);
        rest = others;
    }
    count >= CLUSTER_LIMIT.saturating_sub(count_changed(changes, parts))
}

/// How many different clusters changes and parts are of.
fn count_changed(changes: &[Change<Extent>], parts: &[Part<u32>]) -> u64
    requires changes { length changes.now ≤ cluster_limit }
    requires parts { length parts.now ≤ part_limit }
    ensures { result ≡ count_of [] changes.now parts.now }
{
    let mut count = 0;
    let mut rest = changes;
    while let [change, others @ ..] = rest {
        count += added(&[], others, parts, change.part.manifest.name);
        rest = others;
    }
    count + count_brought(parts)
}

/// How many different clusters parts are of.
fn count_brought(parts: &[Part<u32>]) -> u64
    requires { length parts.now ≤ part_limit }
    ensures count { result ≡ count_of [] [] parts.now }
    ensures few { result ≤ part_limit }
{
    let mut count = 0;
    let mut rest = parts;
    while let [part, others @ ..] = rest {
        count += added(&[], &[], others, part.manifest.name);
        rest = others;
    }
    count
}

/// 1 where no cluster, no change and no part has the name, else 0.
fn added(
    clusters: &[Cluster<Extent>],
    changes: &[Change<Extent>],
    parts: &[Part<u32>],
    name: ClusterName,
) -> u64
    ensures { result ≡ added clusters.now changes.now parts.now name }
{
    if has_cluster(clusters, name) || is_changed(changes, name) || is_brought(parts, name) {
        0
    } else {
        1
    }
}

/// Whether one of the parts changes the cluster.
fn is_brought(parts: &[Part<u32>], name: ClusterName) -> bool
    ensures { result ≡ is_brought parts.now name }
{
    parts.iter().any(|part| part.manifest.name == name)
}
