//! What the gate of the master's list holds.
ghost use Rattle.std.specs.Prelude.{◌<◌, ◌^◌, length};

use crate::opening::Opening;
use campaign_core::MasterEvent;
use decision_log::MasterLog;
use disk_core::Disk;
use turn_gate::Machine;

/// The master's list on its disk, and the events that were recorded since the gate was made, in memory.
#[derive(Drop)]
pub struct SharedLog<D: Disk> {
    pub(crate) log: MasterLog<D>,
    pub(crate) events: Vec<MasterEvent>,
    ghost short: { length events.items < 2 ^ 58 },
}

impl<D: Disk> Machine for SharedLog<D> {
    ghost use Rattle.campaign_core.specs.Views.{state_of};
    ghost use Rattle.master_gate.specs.Laws.{code_fits, list_fits};
    ghost use Rattle.plan_numbers.specs.Plans.{plan_numbers};
    ghost use Rattle.master_gate.specs.Stands.{StandsFor, account_of, fold_after, opening, state_code_after, tells};

    type Entry = MasterEvent;

    type Opening = Opening<D>;

    ghost account = { account_of D.fault_count };

    ghost tells = { tells };

    ghost fixed = { λ s. plan_numbers (D.armed s.log.disk) };

    ghost stands = { λ s o. StandsFor D.moment D.left_since D.seen D.images o s.log s.events.items };

    ghost opening = { λ s. opening s.log };

    ghost code_after = { state_code_after };

    fn count(&self) -> u64 {
        self.events.len() as u64
    }

    fn code(&self) -> u8 {
        self.log.state().code()
    }

    fn faults(&self) -> u64 {
        self.log.faults()
    }

    ghost code_fits = { λ o events. code_fits (state_of (fold_after o events)) };

    ghost list_fits = { list_fits };
}
