//! What is printed of parts and read again; what bytes are refused by stands in the scenarios.
use package_reader::{Packed, PrintError, is_too_large, print_package, seal_package};
use sha2::{Digest, Sha256};
use std::alloc::Global;
use std::test::Fail;
use ucm_base::{Action, Block, ClusterName, Manifest, Needs, Part, VersionText};

/// `install core 1.0.0` with the payload `abc`.
const ONE: &[u8] = b"SWP1\x00\x00\x00\x8b\
{\"action\":\"install\",\"name\":\"core\",\"needs\":[],\
\"sha256\":\"ba7816bf8f01cfea414140de5dae2223b00361a396177a9cb410ff61f20015ad\",\"version\":\"1.0.0\"}\
\x00\x00\x00\x03abc\
\x85\x19\xfb\x70\xb0\xde\xd6\xee\x46\x76\xa0\xb2\x3c\xfc\xf9\x33\
\x4a\x59\x28\xb3\x38\xc4\xd8\xaa\xe2\x4b\x03\xa3\x8c\x17\x3c\xe1";

/// The same, and `install apps 1.0.0` with the payload `abc`.
const TWO: &[u8] = b"SWP2\x02\x00\x00\x00\x8b\
{\"action\":\"install\",\"name\":\"core\",\"needs\":[],\
\"sha256\":\"ba7816bf8f01cfea414140de5dae2223b00361a396177a9cb410ff61f20015ad\",\"version\":\"1.0.0\"}\
\x00\x00\x00\x03abc\x00\x00\x00\x8b\
{\"action\":\"install\",\"name\":\"apps\",\"needs\":[],\
\"sha256\":\"ba7816bf8f01cfea414140de5dae2223b00361a396177a9cb410ff61f20015ad\",\"version\":\"1.0.0\"}\
\x00\x00\x00\x03abc\
\x67\x39\xf8\x0e\x52\xb5\xf2\xb7\xe5\x9a\x67\x71\x6b\x65\x59\xe9\
\x2b\x5c\xc4\xa2\x8b\x92\x40\x76\x32\x75\xee\xd4\x6a\x6b\x5c\x75";

/// A part with the version 1.0.0, whose manifest has the digest of these bytes.
fn part(
    alloc: Global,
    action: Action,
    name: &[u8],
    payload: &[u8],
    told: &[u8],
) -> Result<Part<Block>, Fail> {
    let (Ok(name), Ok(version)) = (ClusterName::of(name), VersionText::of(alloc, b"1.0.0")) else {
        return Err(Fail::from("a name or a version"));
    };
    if payload.len() > 17_000_000 {
        return Err(Fail::from("too long"));
    }
    let payload = Block::of(Vec::from_slice(alloc, payload)?);
    Ok(Part {
        manifest: Manifest {
            action,
            name,
            version,
            needs: Needs::of(Vec::new(alloc)),
            sha256: Sha256::digest(told),
        },
        payload,
    })
}

#[test]
fn what_is_printed_is_read(rt: HostRuntime) -> Result<(), Fail> {
    let alloc = rt.alloc();
    let mut parts = vec![in alloc; part(alloc, Action::Install, b"core", b"abc", b"abc")?]?;
    assert!(rt; seal_package(alloc, parts.as_slice())?.as_slice() == ONE);
    parts.push(part(alloc, Action::Install, b"apps", b"abc", b"abc")?)?;
    assert!(rt; !is_too_large(alloc, parts.as_slice())?);
    let Ok(bytes) = print_package(alloc, parts.as_slice()) else {
        return Err(Fail::from("not printed"));
    };
    assert!(rt; bytes.as_slice() == TWO);
    let Ok(packed) = Packed::read(alloc, Block::of(bytes)) else {
        return Err(Fail::from("not read"));
    };
    assert!(rt; packed.as_slice() == TWO);
    let [core, apps] = packed.parts() else {
        return Err(Fail::from("not two parts"));
    };
    assert!(rt; core.manifest.name.as_bytes() == b"core".as_slice());
    assert!(rt; apps.manifest.name.as_bytes() == b"apps".as_slice());
    assert_eq!(rt; (core.payload.at, apps.payload.at), (152, 302));
    assert!(rt; apps.payload.of(packed.as_slice()) == b"abc".as_slice());
    Ok(())
}

/// What isn't printed: no part, two parts of one cluster, and a payload of another digest.
#[test]
fn what_is_not_printed(rt: HostRuntime) -> Result<(), Fail> {
    let alloc = rt.alloc();
    let mut parts = Vec::new(alloc);
    assert!(rt;
        matches!(
            print_package(alloc, parts.as_slice()),
            Err(PrintError::BadParts)
        )
    );
    parts.push(part(alloc, Action::Install, b"core", b"abd", b"abc")?)?;
    assert!(rt;
        matches!(
            print_package(alloc, parts.as_slice()),
            Err(PrintError::WrongDigest)
        )
    );
    parts.push(part(alloc, Action::Install, b"core", b"abc", b"abc")?)?;
    assert!(rt;
        matches!(
            print_package(alloc, parts.as_slice()),
            Err(PrintError::BadParts)
        )
    );
    Ok(())
}
