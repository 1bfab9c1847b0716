//! Versions and requirements that keep their text and what it reads as.
ghost use Rattle.std.specs.Prelude.{◌≡◌, ◌↔◌, ◌&&◌, IfOk, IfErr, Ok, Err, true, false, map};
ghost use Rattle.std.specs.Result.{is_ok};
ghost use Rattle.semver.specs.Parse.{memory_error, req_of, version_parts};
ghost use Rattle.semver.specs.Identifiers.{comparator_view, parts_of};
ghost use Rattle.ucm_base.specs.Versions.{accepts, is_req_text, is_version_text, precedence_of};

use crate::short::ShortText;
use semver::{Error, Version, VersionReq};
use std::alloc::{AllocError, Global};
use std::cmp::Ordering;
use std::marker::Model;
use std::str;

/// Why a text was not taken.
#[derive(Clone, Copy, PartialEq, Eq, Debug)]
pub enum TextError {
    BadText,
    OutOfMemory,
}

/// A version, seen as its text.
#[derive(Drop)]
pub struct VersionText {
    text: ShortText,
    version: Version,
}

impl Model for VersionText {
    ghost use Rattle.std.specs.Prelude.{ℕ, List, ◌≡◌, Ok};
    ghost use Rattle.semver.specs.Parse.{version_parts};
    ghost use Rattle.semver.specs.Identifiers.{parts_of};

    ghost Value = { List ℕ };

    ghost view = { λ s. s.text };

    ghost invariant = { λ s. version_parts s.text ≡ Ok (parts_of s.version) };
}

/// A requirement, seen as its text.
#[derive(Drop)]
pub struct ReqText {
    text: ShortText,
    req: VersionReq,
}

impl Model for ReqText {
    ghost use Rattle.std.specs.Prelude.{ℕ, List, ◌≡◌, Ok, map};
    ghost use Rattle.semver.specs.Parse.{req_of};
    ghost use Rattle.semver.specs.Identifiers.{comparator_view};

    ghost Value = { List ℕ };

    ghost view = { λ s. s.text };

    ghost invariant = { λ s. req_of s.text ≡ Ok (map comparator_view s.req.comparators.items) };
}

fn fault_of(e: Error) -> TextError
    ensures { (result ≡ TextError.OutOfMemory) ↔ (e ≡ memory_error) }
{
    if e == Error::from(AllocError) {
        TextError::OutOfMemory
    } else {
        TextError::BadText
    }
}

fn version_in(alloc: Global, text: &str) -> Result<Version, TextError>
    ensures ok { IfOk result (λ v. version_parts text.now ≡ Ok (parts_of v)) }
    ensures bad { IfErr result (λ e. e ≡ TextError.BadText
        → is_ok (version_parts text.now) ≡ false) }
    ensures refused { is_ok (version_parts text.now) ≡ false → result ≡ Err TextError.BadText }
{
    match Version::parse(alloc, text) {
        Ok(version) => Ok(version),
        Err(e) => Err(fault_of(e)),
    }
}

fn req_in(alloc: Global, text: &str) -> Result<VersionReq, TextError>
    ensures ok { IfOk result (λ r. req_of text.now ≡ Ok (map comparator_view r.comparators.items)) }
    ensures bad { IfErr result (λ e. e ≡ TextError.BadText → is_ok (req_of text.now) ≡ false) }
    ensures refused { is_ok (req_of text.now) ≡ false → result ≡ Err TextError.BadText }
{
    match VersionReq::parse(alloc, text) {
        Ok(req) => Ok(req),
        Err(e) => Err(fault_of(e)),
    }
}

impl VersionText {
    /// The version of these bytes, if they are one.
    pub fn of(alloc: Global, bytes: &[u8]) -> Result<VersionText, TextError>
        ensures ok { IfOk result (λ v. (v ≡ bytes.now) × (is_version_text bytes.now ≡ true)) }
        ensures bad { IfErr result (λ e. e ≡ TextError.BadText
            → is_version_text bytes.now ≡ false) }
        ensures refused { is_version_text bytes.now ≡ false → result ≡ Err TextError.BadText }
    {
        let Some(text) = ShortText::of(bytes) else {
            return Err(TextError::BadText);
        };
        let Ok(ascii) = str::from_utf8(bytes) else {
            return Err(TextError::BadText);
        };
        let version = version_in(alloc, ascii)?;
        Ok(VersionText { text, version })
    }

    /// The text.
    pub fn text(&self) -> ShortText
        ensures text { result ≡ self.now }
        ensures form { is_version_text self.now ≡ true }
    {
        let _bytes = self.text.as_bytes();
        self.text
    }

    /// The precedence of two versions.
    pub fn precedence(&self, other: &VersionText) -> Ordering
        ensures { result ≡ precedence_of self.now other.now }
    {
        self.version.cmp_precedence(&other.version)
    }
}

impl ReqText {
    /// The requirement of these bytes, if they are one.
    pub fn of(alloc: Global, bytes: &[u8]) -> Result<ReqText, TextError>
        ensures ok { IfOk result (λ v. (v ≡ bytes.now) × (is_req_text bytes.now ≡ true)) }
        ensures bad { IfErr result (λ e. e ≡ TextError.BadText → is_req_text bytes.now ≡ false) }
        ensures refused { is_req_text bytes.now ≡ false → result ≡ Err TextError.BadText }
    {
        let Some(text) = ShortText::of(bytes) else {
            return Err(TextError::BadText);
        };
        let Ok(ascii) = str::from_utf8(bytes) else {
            return Err(TextError::BadText);
        };
        let req = req_in(alloc, ascii)?;
        Ok(ReqText { text, req })
    }

    /// The text.
    pub fn text(&self) -> ShortText
        ensures text { result ≡ self.now }
        ensures form { is_req_text self.now ≡ true }
    {
        let _bytes = self.text.as_bytes();
        self.text
    }

    /// Whether the version is accepted.
    pub fn accepts(&self, version: &VersionText) -> bool
        ensures { result ≡ accepts self.now version.now }
    {
        self.req.matches(&version.version)
    }
}

impl Clone for VersionText {
    ghost is_clone = { λ x y. y ≡ x };

    fn clone(&self) -> Result<VersionText, AllocError> {
        Ok(VersionText {
            text: self.text,
            version: self.version.clone()?,
        })
    }
}

impl Clone for ReqText {
    ghost is_clone = { λ x y. y ≡ x };

    fn clone(&self) -> Result<ReqText, AllocError> {
        Ok(ReqText {
            text: self.text,
            req: self.req.clone()?,
        })
    }
}

#[cfg(test)]
mod tests {
    use super::*;
    use std::test::Fail;

    #[test]
    fn reads(rt: HostRuntime) -> Result<(), Fail> {
        let alloc = rt.alloc();
        let Ok(old) = VersionText::of(alloc, b"1.0.0-rc.1") else {
            return Err(Fail::from("old"));
        };
        let Ok(new) = VersionText::of(alloc, b"1.0.0") else {
            return Err(Fail::from("new"));
        };
        let Ok(req) = ReqText::of(alloc, b">=1.0.0,<2") else {
            return Err(Fail::from("req"));
        };
        assert!(rt; old.precedence(&new) == Ordering::Less);
        assert!(rt; req.accepts(&new));
        assert!(rt; !req.accepts(&old));
        assert!(rt; new.clone()?.text().as_bytes() == b"1.0.0".as_slice());
        assert!(rt; matches!(VersionText::of(alloc, b"1.0"), Err(TextError::BadText)));
        Ok(())
    }
}
