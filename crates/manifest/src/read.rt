//! Reading manifests.
ghost use Rattle.std.specs.Prelude.{◌≡◌, ◌==◌, IfOk, IfErr, Some, None, map, option_map, length, nat_le};
ghost use Rattle.serde_json.specs.Find.{as_str, get};
ghost use Rattle.serde_json.specs.View.{view};
ghost use Rattle.ucm_base.specs.Limits.{need_limit};
ghost use Rattle.manifest.specs.declared.read.ManifestError.TheVariants.{InvalidManifest};
ghost use Rattle.manifest.specs.Trees.{all_of, field, has_keys};
ghost use Rattle.manifest.specs.Read.{IsRead};
ghost use Rattle.manifest.specs.Form.{action_named, action_of_tree, digest_of_tree, manifest_of, manifest_of_tree, name_of_tree, need_of_tree, needs_of_tree, req_of_tree, version_of_tree};

use crate::digest::digest_of_hex;
use serde_json::Value;
use std::alloc::{AllocError, AllocFailed, Global};
use ucm_base::limits::NEED_LIMIT;
use ucm_base::{Action, ClusterName, Manifest, Need, Needs, ReqText, TextError, VersionText};

/// Why no manifest was read.
#[derive(Clone, Copy, PartialEq, Eq, Debug)]
pub enum ManifestError {
    /// The text is no manifest.
    InvalidManifest,
    OutOfMemory,
}

impl From<AllocError> for ManifestError {
    ghost use Rattle.std.specs.Prelude.{◌≡◌};
    ghost use Rattle.manifest.specs.declared.read.ManifestError.TheVariants.{OutOfMemory};

    ghost from_gives = { λ _ e. e ≡ OutOfMemory };

    fn from(_refused: AllocError) -> ManifestError {
        ManifestError::OutOfMemory
    }
}

impl<T: Drop> From<AllocFailed<T>> for ManifestError {
    ghost use Rattle.std.specs.Prelude.{◌≡◌};
    ghost use Rattle.manifest.specs.declared.read.ManifestError.TheVariants.{OutOfMemory};

    ghost from_gives = { λ _ e. e ≡ OutOfMemory };

    fn from(_refused: AllocFailed<T>) -> ManifestError {
        ManifestError::OutOfMemory
    }
}

fn has_count(value: &Value, count: usize) -> bool
    ensures { result ≡ has_keys count (view value.now) }
{
    match value.as_object() {
        Some(members) => members.len() == count,
        None => false,
    }
}

fn text_at<'a>(value: &'a Value, key: &str) -> Option<&'a str>
    ensures { option_map (λ s. s.now) result ≡ field key.now as_str (view value.now) }
{
    value.get(key).and_then(Value::as_str)
}

fn name_at(value: &Value, key: &str) -> Option<ClusterName>
    ensures { result ≡ field key.now name_of_tree (view value.now) }
{
    match text_at(value, key) {
        Some(text) => ClusterName::of(text.as_bytes()).ok(),
        None => None,
    }
}

fn digest_at(value: &Value, key: &str) -> Option<[u8; 32]>
    ensures { result ≡ field key.now digest_of_tree (view value.now) }
{
    match text_at(value, key) {
        Some(text) => digest_of_hex(text.as_bytes()),
        None => None,
    }
}

fn action_of(text: &str) -> Option<Action>
    ensures { result ≡ action_named text.now }
{
    if text == "install" {
        Some(Action::Install)
    } else if text == "update" {
        Some(Action::Update)
    } else if text == "remove" {
        Some(Action::Remove)
    } else {
        None
    }
}

fn action_at(value: &Value, key: &str) -> Option<Action>
    ensures { result ≡ field key.now action_of_tree (view value.now) }
{
    match text_at(value, key) {
        Some(text) => action_of(text),
        None => None,
    }
}

fn version_at(alloc: Global, value: &Value, key: &str) -> Result<VersionText, ManifestError>
    ensures { IsRead result (field key.now version_of_tree (view value.now)) }
{
    match text_at(value, key) {
        Some(text) => match VersionText::of(alloc, text.as_bytes()) {
            Ok(version) => Ok(version),
            Err(TextError::BadText) => Err(ManifestError::InvalidManifest),
            Err(TextError::OutOfMemory) => Err(ManifestError::OutOfMemory),
        },
        None => Err(ManifestError::InvalidManifest),
    }
}

fn req_at(alloc: Global, value: &Value, key: &str) -> Result<ReqText, ManifestError>
    ensures { IsRead result (field key.now req_of_tree (view value.now)) }
{
    match text_at(value, key) {
        Some(text) => match ReqText::of(alloc, text.as_bytes()) {
            Ok(version) => Ok(version),
            Err(TextError::BadText) => Err(ManifestError::InvalidManifest),
            Err(TextError::OutOfMemory) => Err(ManifestError::OutOfMemory),
        },
        None => Err(ManifestError::InvalidManifest),
    }
}

fn need_in(alloc: Global, value: &Value) -> Result<Need, ManifestError>
    ensures { IsRead result (need_of_tree (view value.now)) }
{
    if !has_count(value, 2) {
        return Err(ManifestError::InvalidManifest);
    }
    let Some(name) = name_at(value, "name") else {
        return Err(ManifestError::InvalidManifest);
    };
    let req = req_at(alloc, value, "req")?;
    Ok(Need { name, req })
}

fn all_needs(alloc: Global, values: &[Value]) -> Result<Vec<Need>, ManifestError>
    ensures ok { IfOk result (λ v. all_of need_of_tree (map view values.now) ≡ Some v.items) }
    ensures count { IfOk result (λ v. length v.items ≡ length values.now) }
    ensures invalid { IfErr result
        (λ e. e ≡ InvalidManifest → all_of need_of_tree (map view values.now) ≡ None) }
{
    let mut out = Vec::new(alloc);
    'needs: for i in 0..values.len() {
        let need = need_in(alloc, &values[i])?;
        out.push(need)?;
    }
    Ok(out)
}

fn are_few(values: &[Value]) -> bool
    ensures { result ≡ nat_le (length values.now) need_limit }
{
    values.len() as u64 <= NEED_LIMIT
}

fn needs_in(alloc: Global, value: &Value) -> Result<Needs, ManifestError>
    ensures { IsRead result (needs_of_tree (view value.now)) }
{
    let Some(list) = value.as_array() else {
        return Err(ManifestError::InvalidManifest);
    };
    let values = list.as_slice();
    if !are_few(values) {
        return Err(ManifestError::InvalidManifest);
    }
    let items = all_needs(alloc, values)?;
    Ok(Needs::of(items))
}

fn needs_at(alloc: Global, value: &Value, key: &str) -> Result<Needs, ManifestError>
    ensures { IsRead result (field key.now needs_of_tree (view value.now)) }
{
    match value.get(key) {
        Some(inner) => needs_in(alloc, inner),
        None => Err(ManifestError::InvalidManifest),
    }
}

fn manifest_in(alloc: Global, value: &Value) -> Result<Manifest, ManifestError>
    ensures { IsRead result (manifest_of_tree (view value.now)) }
{
    if !has_count(value, 5) {
        return Err(ManifestError::InvalidManifest);
    }
    let Some(action) = action_at(value, "action") else {
        return Err(ManifestError::InvalidManifest);
    };
    let Some(name) = name_at(value, "name") else {
        return Err(ManifestError::InvalidManifest);
    };
    let Some(sha256) = digest_at(value, "sha256") else {
        return Err(ManifestError::InvalidManifest);
    };
    let version = version_at(alloc, value, "version")?;
    let needs = needs_at(alloc, value, "needs")?;
    Ok(Manifest {
        action,
        name,
        version,
        needs,
        sha256,
    })
}

/// The manifest of a text, if it is one: JSON (RFC 8259), an object of exactly five keys.
pub fn read_manifest(alloc: Global, bytes: &[u8]) -> Result<Manifest, ManifestError>
    ensures { IsRead result (manifest_of bytes.now) }
{
    match Value::from_slice(alloc, bytes) {
        Ok(value) => manifest_in(alloc, &value),
        Err(e) if e.is_memory() => Err(ManifestError::OutOfMemory),
        Err(_) => Err(ManifestError::InvalidManifest),
    }
}
