//! The limits, as the contracts and the code of every crate name them.

/// Clients of a node: the master, client 0, and 31 others.
pub const CLIENT_LIMIT: u64 = 32;

/// Nodes of a vehicle.
pub const NODE_LIMIT: u64 = 8;

/// Different cluster names of a node, over those that run, were saved or are planned.
pub const CLUSTER_LIMIT: u64 = 64;

/// Bytes of a cluster's name.
pub const NAME_LIMIT: usize = 32;

/// Bytes of a version's or a requirement's text.
pub const TEXT_LIMIT: usize = 64;

/// Needs of one manifest.
pub const NEED_LIMIT: u64 = 16;

/// Bytes of a manifest's text.
pub const MANIFEST_LIMIT: u64 = 16_384;

/// Bytes of the manifests' texts together, in a software package of two or more parts.
pub const MANIFESTS_LIMIT: u64 = 3_072;

/// Parts of a software package.
pub const PART_LIMIT: u64 = 16;

/// Bytes of a software package, and of a cluster's content.
pub const PACKAGE_LIMIT: u64 = 16_777_216;

/// Bytes of a vehicle package.
pub const VEHICLE_LIMIT: u64 = 33_554_432;

/// Software packages that a vehicle package carries.
pub const CARRIED_LIMIT: u64 = 128;

/// Steps of a vehicle package's plan.
pub const STEP_LIMIT: u64 = 128;

/// Bytes of a plan's text.
pub const PLAN_LIMIT: u64 = 65_536;

/// Transfers of a node, of all clients together.
pub const TRANSFER_LIMIT: u64 = 8;

/// Bytes of a block.
pub const BLOCK_LIMIT: u64 = 4_096;

/// Bytes that a `fill` of a script or a recipe makes.
pub const FILL_LIMIT: u64 = 16_000_000;

/// Digits of the `hex` of a script or a recipe.
pub const HEX_LIMIT: usize = 8_192;

/// The id that is never given: where it would be next, no transfer starts any more.
pub const LAST_ID: u64 = 4_294_967_295;

/// The latest start time, 2^62.
pub const TIME_LIMIT: u64 = 4_611_686_018_427_387_904;

/// Lines of the history that a node keeps.
pub const LINE_LIMIT: u64 = 256;

/// Attempts at one call.
pub const ATTEMPT_LIMIT: u64 = 8;

/// Campaigns of a vehicle, the current one among them.
pub const CAMPAIGN_LIMIT: usize = 4_096;

/// Bytes of the input of a program.
pub const INPUT_LIMIT: u64 = 67_108_864;
