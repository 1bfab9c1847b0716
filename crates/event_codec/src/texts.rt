//! Names, versions and requirements: a length of one byte, and the text.
ghost use Rattle.std.specs.Prelude.{◌≡◌, ◌++◌, ◌<◌, ◌^◌, IfOk, IfErr, OnOk, length};
ghost use Rattle.event_codec.specs.Spelling.{Any, IsOutside};
ghost use Rattle.event_codec.specs.Texts.{text_spelled, IsName, IsReq, IsShort, IsVersion};
ghost use Rattle.event_codec.specs.Unique.{unique-text};

use crate::taking::{Put, Take, Unread};
use std::alloc::{AllocError, Global};
use ucm_base::{ClusterName, ReqText, ShortText, TextError, VersionText};
use wire::take_u8;

fn take_text(bytes: &[u8]) -> Result<(&[u8], &[u8]), Unread>
    ensures taken { IfOk result (λ t. bytes.now ≡ text_spelled t.0.now ++ t.1.now) }
    ensures outside { IfErr result (λ e. e ≡ Unread.Outside
        → IsOutside text_spelled Any bytes.now) }
{
    let (len, rest) = take_u8(bytes).ok_or(Unread::Outside)?;
    rest.split_at_checked(usize::from(len))
        .ok_or(Unread::Outside)
}

fn put_text(alloc: Global, into: &mut Vec<u8>, text: &[u8]) -> Result<(), AllocError>
    requires { length text.now < 2 ^ 8 }
    ensures { OnOk result (into.new.items ≡ into.old.items ++ text_spelled text.now) }
{
    (text.len() as u8).put(alloc, into)?;
    into.extend_from_slice(text)
}

impl Take for ClusterName {
    ghost spelled = { text_spelled };

    ghost fits = { IsName };

    ghost unique = { unique-text };

    fn take(alloc: Global, bytes: &[u8]) -> Result<(ClusterName, &[u8]), Unread> {
        let (text, rest) = take_text(bytes)?;
        match ClusterName::of(text) {
            Ok(name) => Ok((name, rest)),
            Err(_) => Err(Unread::Outside),
        }
    }
}

impl Put for ClusterName {
    fn put(&self, alloc: Global, into: &mut Vec<u8>) -> Result<(), AllocError> {
        put_text(alloc, into, self.as_bytes())
    }
}

impl Take for ShortText {
    ghost spelled = { text_spelled };

    ghost fits = { IsShort };

    ghost unique = { unique-text };

    fn take(alloc: Global, bytes: &[u8]) -> Result<(ShortText, &[u8]), Unread> {
        let (text, rest) = take_text(bytes)?;
        match ShortText::of(text) {
            Some(short) => Ok((short, rest)),
            None => Err(Unread::Outside),
        }
    }
}

impl Put for ShortText {
    fn put(&self, alloc: Global, into: &mut Vec<u8>) -> Result<(), AllocError> {
        put_text(alloc, into, self.as_bytes())
    }
}

impl Take for VersionText {
    ghost spelled = { text_spelled };

    ghost fits = { IsVersion };

    ghost unique = { unique-text };

    fn take(alloc: Global, bytes: &[u8]) -> Result<(VersionText, &[u8]), Unread> {
        let (text, rest) = take_text(bytes)?;
        match VersionText::of(alloc, text) {
            Ok(version) => Ok((version, rest)),
            Err(TextError::BadText) => Err(Unread::Outside),
            Err(TextError::OutOfMemory) => Err(Unread::OutOfMemory),
        }
    }
}

impl Put for VersionText {
    fn put(&self, alloc: Global, into: &mut Vec<u8>) -> Result<(), AllocError> {
        put_text(alloc, into, self.text().as_bytes())
    }
}

impl Take for ReqText {
    ghost spelled = { text_spelled };

    ghost fits = { IsReq };

    ghost unique = { unique-text };

    fn take(alloc: Global, bytes: &[u8]) -> Result<(ReqText, &[u8]), Unread> {
        let (text, rest) = take_text(bytes)?;
        match ReqText::of(alloc, text) {
            Ok(req) => Ok((req, rest)),
            Err(TextError::BadText) => Err(Unread::Outside),
            Err(TextError::OutOfMemory) => Err(Unread::OutOfMemory),
        }
    }
}

impl Put for ReqText {
    fn put(&self, alloc: Global, into: &mut Vec<u8>) -> Result<(), AllocError> {
        put_text(alloc, into, self.text().as_bytes())
    }
}
