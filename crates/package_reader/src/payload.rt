//! Whether a payload is its manifest's.
ghost use Rattle.std.specs.Prelude.{◌≡◌};
ghost use Rattle.package_reader.specs.Reading.{is_payload_of};

use crate::layout::DIGEST_SIZE;
use sha2::{Digest, Sha256};
use ucm_base::{Action, Manifest};

/// Whether the manifest has the payload's SHA-256 (FIPS 180-4), and a removal no payload.
pub(crate) fn is_payload_of(manifest: &Manifest, payload: &[u8]) -> bool
    ensures { result ≡ is_payload_of manifest.now payload.now }
{
    let digest: [u8; DIGEST_SIZE] = Sha256::digest(payload);
    digest == manifest.sha256 && (manifest.action != Action::Remove || payload.is_empty())
}
