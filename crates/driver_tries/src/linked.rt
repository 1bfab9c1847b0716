//! A node behind a link, as a worker sees it.
ghost use Rattle.std.specs.Prelude.{◌≤◌};

use crate::node::CoreNode;
use pm_types::Call;
use sub_core::{Fate, Sent, Subordinate, UnitSent};
use ucm_base::CallNo;

/// Attempts that have another fate than to be delivered. Attempts are counted from 1.
#[derive(Clone, Copy)]
pub struct Trouble {
    pub first: u32,
    pub last: u32,
    pub fate: Fate,
}

/// A node, the link to it, and the numbers of what was sent.
#[derive(Drop)]
pub struct LinkedNode {
    pub node: CoreNode,
    pub trouble: Option<Trouble>,
    pub sent: Vec<CallNo>,
    pub last: Option<CallNo>,
    pub losses: u64,
}

impl LinkedNode {
    /// The fate of the newest attempt.
    fn fate(&self) -> Fate {
        match self.trouble {
            Some(Trouble { first, last, fate })
                if (first as usize..=last as usize).contains(&self.sent.len()) => { fate }
            _ => Fate::Deliver,
        }
    }
}

impl Subordinate for LinkedNode {
    ghost use Rattle.std.specs.Prelude.{◌≤◌, ⊤};

    ghost ready = { λ n. n.node.core.held.state.entries ≤ n.node.asked };

    ghost last = { λ n. n.last };

    ghost counted = { λ n. record { losses = n.losses; faults = 0 } };

    ghost sends = { λ s no call answer t. ⊤ };

    ghost works = { λ s answer t. ⊤ };

    fn send(&mut self, no: CallNo, call: Call) -> Sent {
        self.last = Some(no);
        if self.sent.push(no).is_err() {
            return Sent::OutOfMemory;
        }
        let fate = self.fate();
        if let Fate::Lost = fate {
            self.losses = self.losses.saturating_add(1);
            return Sent::Lost { faults: 0 };
        }
        match (self.node.execute(no, call), fate) {
            (Err(_), _) => Sent::OutOfMemory,
            (Ok(_), Fate::Unanswered) => {
                self.losses = self.losses.saturating_add(1);
                Sent::Lost { faults: 0 }
            }
            (Ok(reply), _) => Sent::Answered(reply),
        }
    }

    fn unit(&mut self) -> UnitSent {
        match self.node.work() {
            Ok(worked) => UnitSent::Worked(worked),
            Err(_) => UnitSent::OutOfMemory,
        }
    }

    fn losses(&self) -> u64 {
        self.losses
    }

    fn faults(&self) -> u64 {
        0
    }
}
