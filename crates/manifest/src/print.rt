//! Printing manifests.
ghost use Rattle.std.specs.Prelude.{◌≡◌, ◌≤◌, IfOk, Some, length, string_bytes, true};
ghost use Rattle.std.specs.List.{All};
ghost use Rattle.hex.specs.Hex.{encode_lower};
ghost use Rattle.serde_json.specs.View.{view};
ghost use Rattle.ucm_base.specs.Limits.{need_limit};
ghost use Rattle.ucm_base.specs.Name.{is_cluster_name};
ghost use Rattle.manifest.specs.Form.{manifest_of};
ghost use Rattle.manifest.specs.Valid.{IsDigest, IsManifest, IsNeed};
ghost use Rattle.manifest.specs.Text.{action_word, manifest_text};
ghost use Rattle.manifest.specs.Written.{manifest_tree, need_tree, needs_tree};

use serde_json::{Value, json};
use std::alloc::{AllocError, Global};
use ucm_base::{Action, ClusterName, Manifest, Need};

/// The word of an action.
fn word_of(action: Action) -> &'static str
    ensures { result.now ≡ action_word action }
{
    match action {
        Action::Install => "install",
        Action::Update => "update",
        Action::Remove => "remove",
    }
}

fn name_in(name: &ClusterName) -> &str
    ensures text { result.now ≡ name.now }
    ensures form { is_cluster_name name.now ≡ true }
{
    let _form = name.as_bytes();
    name.as_str()
}

fn digest_text(alloc: Global, digest: &[u8; 32]) -> Result<String, AllocError>
    ensures text { IfOk result (λ s. string_bytes s ≡ encode_lower digest.now) }
    ensures form { IsDigest digest.now }
{
    hex::encode(alloc, digest.as_slice())
}

fn need_value(alloc: Global, need: &Need) -> Result<Value, AllocError>
    ensures tree { IfOk result (λ v. view v ≡ need_tree need.now) }
    ensures form { IsNeed need.now }
{
    let name = name_in(&need.name);
    let text = need.req.text();
    let req = text.as_str();
    json!(in alloc; {"name": name, "req": req})
}

fn needs_value(alloc: Global, needs: &[Need]) -> Result<Value, AllocError>
    ensures tree { IfOk result (λ v. view v ≡ needs_tree needs.now) }
    ensures form { IfOk result (λ _. All IsNeed needs.now) }
{
    let mut list = Vec::new(alloc);
    'needs: for need in needs {
        let value = need_value(alloc, need)?;
        list.push(value)?;
    }
    Ok(Value::Array(list))
}

fn manifest_value(alloc: Global, m: &Manifest) -> Result<Value, AllocError>
    ensures tree { IfOk result (λ v. view v ≡ manifest_tree m.now) }
    ensures form { IfOk result (λ _. IsManifest m.now) }
{
    let action = word_of(m.action);
    let name = name_in(&m.name);
    let needs = needs_value(alloc, m.needs.as_slice())?;
    let digest = digest_text(alloc, &m.sha256)?;
    let sha256 = digest.as_str();
    let text = m.version.text();
    let version = text.as_str();
    json!(in alloc; {
        "action": action,
        "name": name,
        "needs": needs,
        "sha256": sha256,
        "version": version,
    })
}

/// The canonical text of a manifest: JSON (RFC 8259) without blanks. It reads as the manifest.
pub fn print_manifest(alloc: Global, m: &Manifest) -> Result<Vec<u8>, AllocError>
    ensures text { IfOk result (λ b. b.items ≡ manifest_text m.now) }
    ensures back { IfOk result (λ b. manifest_of b.items ≡ Some m.now) }
    ensures short { IfOk result (λ b. length b.items ≤ 4096) }
{
    let value = manifest_value(alloc, m)?;
    value.to_vec(alloc)
}
