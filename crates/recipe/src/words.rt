//! The words of a recipe's lines, and the part that they make.
ghost use Rattle.std.specs.Prelude.{◌≡◌, ◌≤◌, IfOk, IfErr, Ok, Err, length, map, []};
ghost use Rattle.ucm_base.specs.Limits.{need_limit};
ghost use Rattle.scenario.specs.declared.why.Why.{Why};
ghost use Rattle.scenario.specs.Readings.{IsRead};
ghost use Rattle.scenario.specs.Blocks.{bytes_meant};
ghost use Rattle.recipe.specs.Packages.{is_step, making_of, part_in, part_of, payload_in, vehicle_node_in};

use scenario::{BlockSource, Why, WordError, action, name, needs, number, plain_block, version};
use sha2::{Digest, Sha256};
use std::alloc::{AllocError, Global};
use ucm_base::{Action, Block, ClusterName, Manifest, Needs, NodeId, Part, VersionText};

/// What a line makes.
#[derive(Clone, Copy, Debug, PartialEq, Eq)]
pub(crate) enum Making {
    /// A package of one part.
    Package,
    /// One part more of a package above.
    With,
}

/// What a line makes of packages, by its first word.
pub(crate) fn making_of(first: &[u8]) -> Option<Making>
    ensures { result ≡ making_of first.now }
{
    if first == b"package".as_slice() {
        Some(Making::Package)
    } else if first == b"with".as_slice() {
        Some(Making::With)
    } else {
        None
    }
}

/// Whether a line makes a step, by its first word.
pub(crate) fn is_step(first: &[u8]) -> bool
    ensures { result ≡ is_step first.now }
{
    first == b"step".as_slice()
}

/// The node of a step, 1 to 8.
pub(crate) fn node(word: &[u8]) -> Result<NodeId, WordError>
    ensures { IsRead result (vehicle_node_in word.now) }
{
    match NodeId::of(number(word)?) {
        Some(node) => Ok(node),
        None => Err(WordError::Refused(Why::Value)),
    }
}

/// Where a payload comes from.
fn payload(alloc: Global, action: Action, word: &[u8]) -> Result<BlockSource, WordError>
    ensures { IsRead result (payload_in action word.now) }
{
    let block = plain_block(alloc, word)?;
    if action == Action::Remove && block.len() != 0 {
        return Err(WordError::Refused(Why::Value));
    }
    Ok(block)
}

/// The part of these. Its payload is hashed once.
fn part_of(
    alloc: Global,
    action: Action,
    name: ClusterName,
    version: VersionText,
    needs: Needs,
    block: &BlockSource,
) -> Result<Part<Block>, AllocError>
    ensures { IfOk result (λ part. part
        ≡ part_of action name version needs (bytes_meant [] block.now)) }
{
    let payload = block.make(alloc, &[])?;
    let sha256 = Sha256::digest(payload.as_slice());
    let manifest = Manifest {
        action,
        name,
        version,
        needs,
        sha256,
    };
    Ok(Part { manifest, payload })
}

/// The words of a part, but its needs.
#[derive(Clone, Copy)]
pub(crate) struct PartWords<'a> {
    pub(crate) action: &'a [u8],
    pub(crate) cluster: &'a [u8],
    pub(crate) version: &'a [u8],
    pub(crate) block: &'a [u8],
}

/// The part that these words make, with these needs.
pub(crate) fn read_part(
    alloc: Global,
    words: &PartWords<'_>,
    needed: &[&[u8]],
) -> Result<Part<Block>, WordError>
    requires { length needed.now ≤ need_limit }
    ensures part { IfOk result (λ part. part_in words.now.action.now words.now.cluster.now
        words.now.version.now words.now.block.now (map (λ w. w.now) needed.now) ≡ Ok part) }
    ensures refused { IfErr result (λ e. (why : Why) → e ≡ WordError.Refused why
        → part_in words.now.action.now words.now.cluster.now words.now.version.now
        words.now.block.now (map (λ w. w.now) needed.now) ≡ Err why) }
{
    let action = action(words.action)?;
    let cluster = name(words.cluster)?;
    let version = version(alloc, words.version)?;
    let block = payload(alloc, action, words.block)?;
    let needs = needs(alloc, needed)?;
    Ok(part_of(alloc, action, cluster, version, needs, &block)?)
}
