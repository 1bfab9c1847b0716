//! Numbers that name nodes, clients and calls.
ghost use Rattle.std.specs.Prelude.{◌≡◌, ◌<◌, ◌≤◌, ◌&&◌, Some, None, nat_le, nat_lt, if◌then◌else◌};
ghost use Rattle.ucm_base.specs.Limits.{client_limit, node_limit};

use crate::limits::{CLIENT_LIMIT, NODE_LIMIT};
use std::fmt;
use std::marker::Model;

/// A client of a node, 0 to 31, seen as its number. Client 0 is the master.
#[derive(Clone, Copy, Debug, PartialEq, Eq)]
pub struct ClientId {
    number: u8,
}

impl Model for ClientId {
    ghost use Rattle.std.specs.Prelude.{ℕ, ◌<◌};
    ghost use Rattle.ucm_base.specs.Limits.{client_limit};

    ghost Value = { ℕ };

    ghost view = { λ a. a.number };

    ghost invariant = { λ a. a.number < client_limit };

    ghost inverse = { λ n. record { number = n } };
}

impl ClientId {
    /// The client of this number, if there is one.
    pub fn of(number: u64) -> Option<ClientId>
        ensures { result ≡ (if nat_lt number client_limit then Some number else None) }
    {
        if number < CLIENT_LIMIT {
            Some(ClientId {
                number: number as u8,
            })
        } else {
            None
        }
    }

    /// The number, 0 to 31.
    pub fn number(self) -> u8
        ensures number { result ≡ self }
        ensures form { result < client_limit }
    {
        self.number
    }
}

impl fmt::Display for ClientId {
    ghost use Rattle.std.specs.Prelude.{Some};
    ghost use Rattle.std.specs.Fmt.{decimal};

    ghost output = { λ n. Some (decimal n) };

    fn fmt<W: fmt::Write>(&self, f: &mut fmt::Formatter<W>) -> fmt::Result {
        let number = self.number;
        write!(f, "{number}")
    }
}

/// A node of a vehicle, 1 to 8, seen as its number.
#[derive(Clone, Copy, Debug, PartialEq, Eq)]
pub struct NodeId {
    number: u8,
}

impl Model for NodeId {
    ghost use Rattle.std.specs.Prelude.{ℕ, ◌≤◌};
    ghost use Rattle.ucm_base.specs.Limits.{node_limit};

    ghost Value = { ℕ };

    ghost view = { λ a. a.number };

    ghost invariant = { λ a. (1 ≤ a.number) × (a.number ≤ node_limit) };

    ghost inverse = { λ n. record { number = n } };
}

impl NodeId {
    /// The node of this number, if there is one.
    pub fn of(number: u64) -> Option<NodeId>
        ensures { result
            ≡ (if nat_le 1 number && nat_le number node_limit then Some number else None) }
    {
        if number >= 1 && number <= NODE_LIMIT {
            Some(NodeId {
                number: number as u8,
            })
        } else {
            None
        }
    }

    /// The number, 1 to 8.
    pub fn number(self) -> u8
        ensures number { result ≡ self }
        ensures form { (1 ≤ result) × (result ≤ node_limit) }
    {
        self.number
    }
}

/// A set of nodes: the flag of node n stands at place n - 1.
#[derive(Clone, Copy, Debug, PartialEq, Eq)]
pub struct NodeSet {
    pub flags: [bool; NODE_LIMIT as usize],
}

/// The number of a call: an epoch, and a number within it. Ordered by epoch, then by number.
#[derive(Clone, Copy, Debug, PartialEq, Eq, PartialOrd, Ord)]
pub struct CallNo {
    pub epoch: u32,
    pub number: u32,
}

impl CallNo {
    /// The number of these parts, if both are at least 1.
    pub fn of(epoch: u32, number: u32) -> Option<CallNo>
        ensures { result ≡ (if nat_le 1 epoch && nat_le 1 number
            then Some (record { epoch = epoch; number = number }) else None) }
    {
        if epoch >= 1 && number >= 1 {
            Some(CallNo { epoch, number })
        } else {
            None
        }
    }
}

impl fmt::Display for CallNo {
    ghost use Rattle.std.specs.Prelude.{Some};
    ghost use Rattle.ucm_base.specs.Text.{call_no_text};

    ghost output = { λ n. Some (call_no_text n) };

    fn fmt<W: fmt::Write>(&self, f: &mut fmt::Formatter<W>) -> fmt::Result {
        let CallNo { epoch, number } = *self;
        write!(f, "{epoch}.{number}")
    }
}
