//! Queries, which change nothing, and their answers.

use crate::{LineList, Phase, Refusal, Status};
use ucm_base::{Action, ClusterName, Rows, VersionText};

/// What a client may ask of a node.
#[derive(Clone, Copy, Debug, PartialEq, Eq)]
pub enum Query {
    CurrentStatus,
    GetSwClusterInfo,
    GetSwClusterChangeInfo,
    GetSwPackages,
    GetSwProcessProgress { id: u32 },
    GetHistory { ge: u64, lt: u64 },
}

/// A running cluster, as a query shows it.
#[derive(Drop)]
pub struct ClusterInfo {
    pub name: ClusterName,
    pub version: VersionText,
}

/// A planned change, as a query shows it.
#[derive(Drop)]
pub struct ChangeInfo {
    pub name: ClusterName,
    pub action: Action,
    pub version: VersionText,
}

/// A transfer, as a query shows it.
#[derive(Clone, Copy, Debug, PartialEq, Eq)]
pub struct PackageInfo {
    pub id: u32,
    pub phase: Phase,
    pub received: u64,
    pub size: u64,
}

/// Running clusters, in order of name.
pub type ClusterList = Rows<ClusterInfo>;

/// Planned changes, in order.
pub type ChangeList = Rows<ChangeInfo>;

/// Transfers, by rising ids.
pub type PackageList = Rows<PackageInfo>;

/// The answer to a query.
#[derive(Drop)]
pub enum Answer {
    Status(Status),
    Clusters(ClusterList),
    Changes(ChangeList),
    Packages(PackageList),
    /// In percent.
    Progress(u8),
    Refused(Refusal),
    History(LineList),
}
