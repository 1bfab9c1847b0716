//! Manifests, parts, clusters and changes.
ghost use Rattle.std.specs.Prelude.{◌≡◌, ◌++◌, ◌<◌, ◌^◌, ◌∷◌, [], length, IfOk, IfErr};
ghost use Rattle.wire.specs.Fields.{bytes_field};
ghost use Rattle.manifest.specs.Text.{manifest_text};
ghost use Rattle.ucm_base.specs.Limits.{cluster_limit, need_limit};
ghost use Rattle.ucm_base.specs.declared.parts.Manifest.{Manifest as AnyManifest};
ghost use Rattle.event_codec.specs.Spelling.{IsOutside, ListFits, list_spelled};
ghost use Rattle.event_codec.specs.Clusters.{manifest_spelled, ManifestFits, part_spelled, PartFits, contents_spelled, ContentsFit, SeveralFit, need_spelled, NeedFits, extent_spelled, ExtentFits, cluster_spelled, ClusterFits, change_spelled, ChangeFits};
ghost use Rattle.event_codec.specs.Unique.{unique-list};
ghost use Rattle.event_codec.specs.UniqueClusters.{unique-manifest, unique-part, unique-contents, unique-several_contents, unique-need, unique-extent, unique-cluster, unique-change};

use crate::fields::{put_list, put_many, take_list};
use crate::taking::{Put, Take, Unread};
use manifest::{ManifestError, print_manifest, read_manifest};
use pm_types::{Change, Changes, Cluster, Clusters, Contents, Extent};
use std::alloc::{AllocError, Global};
use ucm_base::limits::{CLUSTER_LIMIT, NEED_LIMIT, PART_LIMIT};
use ucm_base::{ClusterName, Manifest, Need, Needs, Part, ReqText, VersionText};
use wire::{put_bytes, take_bytes};

/// A length of four bytes, and so many bytes.
fn take_block(bytes: &[u8]) -> Result<(&[u8], &[u8]), Unread>
    ensures taken { IfOk result (λ t. (bytes.now ≡ bytes_field t.0.now ++ t.1.now)
        × (length t.0.now < 2 ^ 32)) }
    ensures outside { IfErr result (λ e. e ≡ Unread.Outside
        → IsOutside bytes_field (λ t. length t < 2 ^ 32) bytes.now) }
{
    take_bytes(bytes).ok_or(Unread::Outside)
}

/// The manifest that a text is the canonical text of.
fn canonical(alloc: Global, text: &[u8]) -> Result<Manifest, Unread>
    ensures taken { IfOk result (λ m. ManifestFits m × (text.now ≡ manifest_text m)) }
    ensures outside { IfErr result (λ e. e ≡ Unread.Outside
        → (m : AnyManifest) → ManifestFits m → text.now ≡ manifest_text m → ⊥) }
{
    let manifest = match read_manifest(alloc, text) {
        Ok(manifest) => manifest,
        Err(ManifestError::InvalidManifest) => return Err(Unread::Outside),
        Err(ManifestError::OutOfMemory) => return Err(Unread::OutOfMemory),
    };
    let printed = print_manifest(alloc, &manifest)?;
    if printed.as_slice() != text {
        return Err(Unread::Outside);
    }
    Ok(manifest)
}

impl Take for Manifest {
    ghost spelled = { manifest_spelled };

    ghost fits = { ManifestFits };

    ghost unique = { unique-manifest };

    fn take(alloc: Global, bytes: &[u8]) -> Result<(Manifest, &[u8]), Unread> {
        let (text, rest) = take_block(bytes)?;
        match canonical(alloc, text) {
            Ok(manifest) => Ok((manifest, rest)),
            Err(unread) => Err(unread),
        }
    }
}

impl Put for Manifest {
    fn put(&self, alloc: Global, into: &mut Vec<u8>) -> Result<(), AllocError> {
        let text = print_manifest(alloc, self)?;
        put_bytes(into, text.as_slice())
    }
}

impl Take for Part<u32> {
    ghost spelled = { part_spelled };

    ghost fits = { PartFits };

    ghost unique = { unique-part };

    fn take(alloc: Global, bytes: &[u8]) -> Result<(Part<u32>, &[u8]), Unread> {
        match <(Manifest, u32)>::take(alloc, bytes) {
            Ok(((manifest, payload), rest)) => Ok((Part { manifest, payload }, rest)),
            Err(unread) => Err(unread),
        }
    }
}

impl Put for Part<u32> {
    fn put(&self, alloc: Global, into: &mut Vec<u8>) -> Result<(), AllocError> {
        self.manifest.put(alloc, into)?;
        self.payload.put(alloc, into)
    }
}

/// Contents of two parts at least, behind a count.
#[derive(Drop)]
pub(crate) struct Several {
    pub contents: Contents,
}

impl Take for Several {
    ghost spelled = { λ s. list_spelled part_spelled s.contents };

    ghost fits = { λ s. SeveralFit s.contents };

    ghost unique = { unique-several_contents };

    fn take(alloc: Global, bytes: &[u8]) -> Result<(Several, &[u8]), Unread> {
        match take_list::<Part<u32>>(alloc, bytes, PART_LIMIT as u8) {
            Ok((parts, rest)) if parts.len() >= 2 => {
                let contents = Contents::of(parts);
                Ok((Several { contents }, rest))
            }
            Ok(_) => Err(Unread::Outside),
            Err(unread) => Err(unread),
        }
    }
}

/// The contents of one part.
pub(crate) fn one_part(alloc: Global, part: Part<u32>) -> Result<Contents, AllocError>
    ensures { IfOk result (λ contents. contents ≡ part ∷ []) }
{
    let mut parts = Vec::with_capacity(alloc, 1)?;
    parts.push(part)?;
    Ok(Contents::of(parts))
}

impl Take for Contents {
    ghost spelled = { contents_spelled };

    ghost fits = { ContentsFit };

    ghost unique = { unique-contents };

    fn take(alloc: Global, bytes: &[u8]) -> Result<(Contents, &[u8]), Unread> {
        let (kind, rest) = u8::take(alloc, bytes)?;
        match kind {
            0 => Ok((Contents::none(alloc), rest)),
            1 => match Part::take(alloc, rest) {
                Ok((part, rest)) => Ok((one_part(alloc, part)?, rest)),
                Err(unread) => Err(unread),
            },
            2 => match Several::take(alloc, rest) {
                Ok((several, rest)) => Ok((several.contents, rest)),
                Err(unread) => Err(unread),
            },
            _ => Err(Unread::Outside),
        }
    }
}

impl Put for Contents {
    fn put(&self, alloc: Global, into: &mut Vec<u8>) -> Result<(), AllocError> {
        let parts = self.as_slice();
        if parts.is_empty() {
            return 0u8.put(alloc, into);
        }
        if parts.len() == 1 {
            1u8.put(alloc, into)?;
            return put_many(alloc, into, parts);
        }
        2u8.put(alloc, into)?;
        put_list(alloc, into, parts)
    }
}

impl Take for Need {
    ghost spelled = { need_spelled };

    ghost fits = { NeedFits };

    ghost unique = { unique-need };

    fn take(alloc: Global, bytes: &[u8]) -> Result<(Need, &[u8]), Unread> {
        match <(ClusterName, ReqText)>::take(alloc, bytes) {
            Ok(((name, req), rest)) => Ok((Need { name, req }, rest)),
            Err(unread) => Err(unread),
        }
    }
}

impl Put for Need {
    fn put(&self, alloc: Global, into: &mut Vec<u8>) -> Result<(), AllocError> {
        self.name.put(alloc, into)?;
        self.req.put(alloc, into)
    }
}

impl Take for Needs {
    ghost spelled = { list_spelled need_spelled };

    ghost fits = { ListFits NeedFits need_limit };

    ghost unique = { unique-list need_limit unique-need };

    fn take(alloc: Global, bytes: &[u8]) -> Result<(Needs, &[u8]), Unread> {
        match take_list::<Need>(alloc, bytes, NEED_LIMIT as u8) {
            Ok((needs, rest)) => Ok((Needs::of(needs), rest)),
            Err(unread) => Err(unread),
        }
    }
}

impl Put for Needs {
    fn put(&self, alloc: Global, into: &mut Vec<u8>) -> Result<(), AllocError> {
        put_list(alloc, into, self.as_slice())
    }
}

impl Take for Extent {
    ghost spelled = { extent_spelled };

    ghost fits = { ExtentFits };

    ghost unique = { unique-extent };

    fn take(alloc: Global, bytes: &[u8]) -> Result<(Extent, &[u8]), Unread> {
        match <(u8, (u8, u32))>::take(alloc, bytes) {
            Ok(((place, (side, length)), rest)) => Ok((
                Extent {
                    place,
                    side,
                    length,
                },
                rest,
            )),
            Err(unread) => Err(unread),
        }
    }
}

impl Put for Extent {
    fn put(&self, alloc: Global, into: &mut Vec<u8>) -> Result<(), AllocError> {
        self.place.put(alloc, into)?;
        self.side.put(alloc, into)?;
        self.length.put(alloc, into)
    }
}

impl Take for Cluster<Extent> {
    ghost spelled = { cluster_spelled };

    ghost fits = { ClusterFits };

    ghost unique = { unique-cluster };

    fn take(alloc: Global, bytes: &[u8]) -> Result<(Cluster<Extent>, &[u8]), Unread> {
        match <(ClusterName, (VersionText, (Needs, Extent)))>::take(alloc, bytes) {
            Ok(((name, (version, (needs, content))), rest)) => {
                let cluster = Cluster {
                    name,
                    version,
                    needs,
                    content,
                };
                Ok((cluster, rest))
            }
            Err(unread) => Err(unread),
        }
    }
}

impl Put for Cluster<Extent> {
    fn put(&self, alloc: Global, into: &mut Vec<u8>) -> Result<(), AllocError> {
        self.name.put(alloc, into)?;
        self.version.put(alloc, into)?;
        self.needs.put(alloc, into)?;
        self.content.put(alloc, into)
    }
}

impl Take for Clusters {
    ghost spelled = { list_spelled cluster_spelled };

    ghost fits = { ListFits ClusterFits 255 };

    ghost unique = { unique-list 255 unique-cluster };

    fn take(alloc: Global, bytes: &[u8]) -> Result<(Clusters, &[u8]), Unread> {
        match take_list::<Cluster<Extent>>(alloc, bytes, u8::MAX) {
            Ok((clusters, rest)) => Ok((Clusters::of(clusters), rest)),
            Err(unread) => Err(unread),
        }
    }
}

impl Take for Change<Extent> {
    ghost spelled = { change_spelled };

    ghost fits = { ChangeFits };

    ghost unique = { unique-change };

    fn take(alloc: Global, bytes: &[u8]) -> Result<(Change<Extent>, &[u8]), Unread> {
        match <(u32, (Manifest, Extent))>::take(alloc, bytes) {
            Ok(((transfer, (manifest, payload)), rest)) => {
                let part = Part { manifest, payload };
                Ok((Change { transfer, part }, rest))
            }
            Err(unread) => Err(unread),
        }
    }
}

impl Put for Change<Extent> {
    fn put(&self, alloc: Global, into: &mut Vec<u8>) -> Result<(), AllocError> {
        self.transfer.put(alloc, into)?;
        self.part.manifest.put(alloc, into)?;
        self.part.payload.put(alloc, into)
    }
}

impl Take for Changes {
    ghost spelled = { list_spelled change_spelled };

    ghost fits = { ListFits ChangeFits cluster_limit };

    ghost unique = { unique-list cluster_limit unique-change };

    fn take(alloc: Global, bytes: &[u8]) -> Result<(Changes, &[u8]), Unread> {
        match take_list::<Change<Extent>>(alloc, bytes, CLUSTER_LIMIT as u8) {
            Ok((items, rest)) => {
                let mut changes = Changes::new(alloc)?;
                changes.append(items);
                Ok((changes, rest))
            }
            Err(unread) => Err(unread),
        }
    }
}

impl Put for Changes {
    fn put(&self, alloc: Global, into: &mut Vec<u8>) -> Result<(), AllocError> {
        put_list(alloc, into, self.as_slice())
    }
}
