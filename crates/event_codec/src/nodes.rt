//! Nodes and sets of nodes.
ghost use Rattle.std.specs.Prelude.{◌≡◌, ◌%◌, if◌then◌else◌};
ghost use Rattle.wire.specs.Fields.{u8_field};
ghost use Rattle.event_codec.specs.Master.{IsNode, NodeSetFits, bits_of, node_set_spelled};
ghost use Rattle.event_codec.specs.Unique.{unique-u8};
ghost use Rattle.event_codec.specs.UniqueMaster.{unique-node_set};

use crate::taking::{Put, Take, Unread};
use std::alloc::{AllocError, Global};
use ucm_base::limits::NODE_LIMIT;
use ucm_base::{NodeId, NodeSet};

impl Take for NodeId {
    ghost spelled = { u8_field };

    ghost fits = { IsNode };

    ghost unique = { unique-u8 };

    fn take(alloc: Global, bytes: &[u8]) -> Result<(NodeId, &[u8]), Unread> {
        let (number, rest) = u8::take(alloc, bytes)?;
        match NodeId::of(u64::from(number)) {
            Some(node) => Ok((node, rest)),
            None => Err(Unread::Outside),
        }
    }
}

impl Put for NodeId {
    fn put(&self, alloc: Global, into: &mut Vec<u8>) -> Result<(), AllocError> {
        self.number().put(alloc, into)
    }
}

/// The flags as a number, the first with the lowest bit.
fn bits(flags: &[bool; NODE_LIMIT as usize]) -> u8
    ensures { result ≡ bits_of flags.now }
{
    let [a, b, c, d, e, f, g, h] = *flags;
    let low = u8::from(a) + 2 * u8::from(b) + 4 * u8::from(c) + 8 * u8::from(d);
    let high = u8::from(e) + 2 * u8::from(f) + 4 * u8::from(g) + 8 * u8::from(h);
    low + 16 * high
}

fn is_odd(number: u8) -> bool
    ensures { (if result then 1 else 0) ≡ number % 2 }
{
    number % 2 == 1
}

/// The flags of a number.
fn flags(bits: u8) -> [bool; NODE_LIMIT as usize]
    ensures { bits_of result ≡ bits }
{
    [
        is_odd(bits),
        is_odd(bits / 2),
        is_odd(bits / 4),
        is_odd(bits / 8),
        is_odd(bits / 16),
        is_odd(bits / 32),
        is_odd(bits / 64),
        is_odd(bits / 128),
    ]
}

impl Take for NodeSet {
    ghost spelled = { node_set_spelled };

    ghost fits = { NodeSetFits };

    ghost unique = { unique-node_set };

    fn take(alloc: Global, bytes: &[u8]) -> Result<(NodeSet, &[u8]), Unread> {
        let (bits, rest) = u8::take(alloc, bytes)?;
        let flags = flags(bits);
        Ok((NodeSet { flags }, rest))
    }
}

impl Put for NodeSet {
    fn put(&self, alloc: Global, into: &mut Vec<u8>) -> Result<(), AllocError> {
        bits(&self.flags).put(alloc, into)
    }
}
