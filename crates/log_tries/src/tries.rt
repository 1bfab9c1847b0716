//! A master's list under a plan.
ghost use Rattle.std.specs.Prelude.{◌≡◌, ◌≤◌, ◌+◌, None, IfOk, OnOk};
ghost use Rattle.disk_core.specs.Plans.{no_faults};
ghost use Rattle.checkpoint.specs.Halves.{layout_of};
ghost use Rattle.decision_log.specs.Known.{IsKnown};
ghost use Rattle.log_tries.specs.declared.tries.TryError.TheVariants.{Memory as no_memory};

use campaign_core::{CampaignState, CampaignView, Decision, MasterEvent};
use decision_log::{AddAnswer, MasterLog, MasterRevived};
use disk_core::{Disk, FaultPlan};
use disk_mem::{MemDisk, Tear};
use std::alloc::{AllocError, Global};

/// The bytes of a disk with halves 0 and 1.
const TWO_HALVES: u64 = 4_194_304;

/// What the revival said of the last event.
#[derive(Clone, Copy, Debug, PartialEq, Eq, Drop)]
pub enum Settled {
    Stood,
    Lost,
    /// It wasn't pending.
    Nothing,
}

/// What is left.
#[derive(Clone, Copy, Debug, PartialEq, Eq, Drop)]
pub struct Left {
    pub revived: Settled,
    /// How many events the list had then.
    pub count: u64,
    /// The state and the decision that its disk showed, opened again behind one event more.
    pub state: CampaignState,
    pub decision: Option<Decision>,
    /// How many events the list had at last.
    pub all: u64,
}

/// Why nothing was tried.
#[derive(Clone, Copy, Debug, PartialEq, Eq, Drop)]
pub enum TryError {
    Memory,
    /// The list wasn't made.
    Format,
    /// The pending event wasn't settled.
    Revive,
    /// The disk wasn't opened again.
    Open,
}

impl From<AllocError> for TryError {
    ghost from_gives = { λ _ e. e ≡ no_memory };

    fn from(_: AllocError) -> Self {
        TryError::Memory
    }
}

/// Makes a list on a fresh disk, arms the disk, adds the first events up to the one that isn't added, and revives the
/// list. Of all events it then adds one that the list hasn't, opens its disk again, and adds those that are left. Each
/// event makes two writes and two syncs.
pub fn try_events(
    alloc: Global,
    tear: Tear,
    plan: &FaultPlan,
    first: &[MasterEvent],
    events: &[MasterEvent],
) -> Result<Left, TryError> {
    let mut log = fresh(alloc, tear)?;
    log.arm(plan)?;
    add_events(&mut log, alloc, first);
    let revived = settle(&mut log, alloc)?;
    let count = log.count();
    let rest = behind(events, count);
    let (next, others) = rest.split_at(rest.len().min(1));
    add_events(&mut log, alloc, next);
    settle(&mut log, alloc)?;
    let before = log.count();
    let mut again = opened_again(alloc, log)?;
    let state = again.state();
    let decision = decision_of(&again.view());
    add_events(&mut again, alloc, others);
    Ok(Left {
        revived,
        count,
        state,
        decision,
        all: before.saturating_add(again.count()),
    })
}

/// The events behind the first `count` of these.
fn behind(events: &[MasterEvent], count: u64) -> &[MasterEvent] {
    let place = count.min(events.len() as u64);
    &events[place as usize..]
}

fn decision_of(view: &CampaignView) -> Option<Decision> {
    match view.current {
        Some(current) => current.decision,
        None => None,
    }
}

/// Revives the list, where an event is pending.
pub fn settle<D: Disk>(log: &mut MasterLog<D>, alloc: Global) -> Result<Settled, TryError>
    requires known { IsKnown log.old.log log.old.campaign.fold log.old.pending
        (D.seen log.old.disk) (D.images log.old.disk) }
    ensures known { IsKnown log.new.log log.new.campaign.fold log.new.pending
        (D.seen log.new.disk) (D.images log.new.disk) }
    ensures open { OnOk result (log.new.pending ≡ None) }
{
    match log.revive(alloc) {
        Ok(MasterRevived::Stood { event: _ }) => Ok(Settled::Stood),
        Ok(MasterRevived::Lost) => Ok(Settled::Lost),
        Ok(MasterRevived::Nothing) => Ok(Settled::Nothing),
        Err(_) => Err(TryError::Revive),
    }
}

/// An empty list on a fresh disk of two halves.
pub fn fresh(alloc: Global, tear: Tear) -> Result<MasterLog<MemDisk>, TryError>
    ensures known { IfOk result (λ log. IsKnown log.log log.campaign.fold log.pending
        (⟦<MemDisk as Disk>⟧.seen log.disk) (⟦<MemDisk as Disk>⟧.images log.disk)) }
    ensures open { IfOk result (λ log. log.pending ≡ None) }
    ensures unarmed { IfOk result (λ log. ⟦<MemDisk as Disk>⟧.armed log.disk ≡ no_faults) }
{
    formatted(alloc, TWO_HALVES, tear)
}

/// An empty list on a fresh disk of `size` bytes.
fn formatted(alloc: Global, size: u64, tear: Tear) -> Result<MasterLog<MemDisk>, TryError>
    requires { (layout_of 0).upper + (layout_of 0).journal_at + (layout_of 0).journal_len
        ≤ size }
    ensures known { IfOk result (λ log. IsKnown log.log log.campaign.fold log.pending
        (⟦<MemDisk as Disk>⟧.seen log.disk) (⟦<MemDisk as Disk>⟧.images log.disk)) }
    ensures open { IfOk result (λ log. log.pending ≡ None) }
    ensures unarmed { IfOk result (λ log. ⟦<MemDisk as Disk>⟧.armed log.disk ≡ no_faults) }
{
    let disk = MemDisk::torn(alloc, size, tear)?;
    match MasterLog::format(alloc, disk) {
        Ok(log) => Ok(log),
        Err((_disk, _fault)) => Err(TryError::Format),
    }
}

/// Adds the events, up to the first that isn't added.
pub fn add_events<D: Disk>(log: &mut MasterLog<D>, alloc: Global, events: &[MasterEvent])
    requires known { IsKnown log.old.log log.old.campaign.fold log.old.pending
        (D.seen log.old.disk) (D.images log.old.disk) }
    requires open { log.old.pending ≡ None }
    ensures known { IsKnown log.new.log log.new.campaign.fold log.new.pending
        (D.seen log.new.disk) (D.images log.new.disk) }
{
    'events: for event in events {
        let AddAnswer::Added = log.add(alloc, *event) else {
            return;
        };
    }
}

/// The list that an open list's disk shows when it is opened again.
pub fn opened_again<D: Disk + Drop>(
    alloc: Global,
    log: MasterLog<D>,
) -> Result<MasterLog<D>, TryError>
    requires known { IsKnown log.log log.campaign.fold log.pending
        (D.seen log.disk) (D.images log.disk) }
    requires open { log.pending ≡ None }
    ensures known { IfOk result (λ again. IsKnown again.log again.campaign.fold again.pending
        (D.seen again.disk) (D.images again.disk)) }
    ensures open { IfOk result (λ again. again.pending ≡ None) }
{
    match MasterLog::open(alloc, log.close()) {
        Ok(again) => Ok(again),
        Err((_disk, _error)) => Err(TryError::Open),
    }
}
