//! The gate of the master's list, and its seats.
ghost use Rattle.std.specs.Prelude.{◌≡◌, ◌+◌, ◌≤◌, ◌++◌, [], ◌∷◌, Some, IfOk, IfErr, IfSome, length};
ghost use mathlib.Core.List.{IsPrefix};
ghost use Rattle.disk_core.specs.Images.{EachImage};
ghost use Rattle.disk_core.specs.Moments.{LeavesOnly};
ghost use Rattle.turn_gate.specs.Parts.{at_most_last};
ghost use Rattle.turn_gate.specs.Rule.{NotAbove};
ghost use Rattle.turn_gate.specs.Steps.{CoversRises, NotesAreOf};
ghost use Rattle.turn_gate.specs.Views.{fixed_to, noted};
ghost use Rattle.campaign_core.specs.Campaign.{IsLegalFrom, campaign_from};
ghost use Rattle.campaign_core.specs.Views.{state_code};
ghost use Rattle.master_gate.specs.Adds.{AddsTo, LooksAt, listing, rise_of, rise_of_look};
ghost use Rattle.plan_numbers.specs.Plans.{plan_numbers};
ghost use Rattle.master_gate.specs.Seats.{IsMasterSeat, IsSeat, IsWatcher, ShowsAt, listing_of, opening_of};
ghost use Rattle.master_gate.specs.Stands.{IsImageOf, Knows, MayLeave, WasLeft, opening, state_code_after};

use crate::answers::{LookAnswer, faults_of};
use crate::shared::SharedLog;
use campaign_core::{CampaignState, MasterEvent};
use decision_log::{AddAnswer, MasterLog};
use disk_core::Disk;
use std::alloc::{AllocError, Global};
use std::marker::Model;
use std::sync::Wait;
use turn_gate::{Gate, Seat};

/// A seat of the master's gate.
pub type MasterSeat<D> = Seat<SharedLog<D>>;

/// The master's list behind a turn. Clauses see its name, which its seats have too.
#[derive(Drop)]
pub struct MasterGate<D: Disk> {
    gate: Gate<SharedLog<D>>,
    alloc: Global,
}

impl<D: Disk> Model for MasterGate<D> {
    ghost use Rattle.atomic_table.specs.Seated.{TableId, table_id_coded};

    ghost Value = { TableId };

    ghost coded = { table_id_coded };

    ghost view = { λ g. g.gate };
}

impl<D: Disk> MasterGate<D> {
    /// A gate of a list, and the one seat that adds. What is pending already is in doubt.
    pub fn new(
        alloc: Global,
        log: MasterLog<D>,
    ) -> Result<(MasterGate<D>, MasterSeat<D>), (MasterLog<D>, AllocError)>
        requires known { Knows D.seen D.images log }
        ensures seat { IfOk result (λ made. IsMasterSeat made.0 made.1) }
        ensures fixed { IfOk result (λ made. made.1.view.fixed
            ≡ Some (fixed_to (opening log) (plan_numbers (D.armed log.disk))
            (D.fault_count log.disk) (0 ∷ []))) }
        ensures list { IfOk result (λ made. listing_of made.1.view ≡ listing [] log.pending) }
        ensures rises { IfOk result (λ made. made.1.view.rises ≡ 0) }
        ensures handed_back { IfErr result (λ refused. refused.0 ≡ log) }
    {
        // That the count is a u64 is known once it was read.
        let _ = log.count();
        let shared = SharedLog {
            log,
            events: Vec::new(alloc),
        };
        match Gate::new(alloc, shared, &[0]) {
            Ok((gate, mut seats)) => {
                let Some(seat) = seats.pop() else {
                    unreachable!()
                };
                Ok((MasterGate { gate, alloc }, seat))
            }
            Err((shared, e)) => {
                let SharedLog { log, events: _ } = shared;
                Err((log, e))
            }
        }
    }

    /// One turn: adds an event. Nothing else enters the list.
    pub fn add<R: Wait>(&self, rt: &R, seat: &mut MasterSeat<D>, event: MasterEvent) -> AddAnswer
        requires ours { IsMasterSeat self.now seat.old }
        ensures ours { IsMasterSeat self.now seat.new }
        ensures fixed { seat.new.view.fixed ≡ seat.old.view.fixed }
        ensures adds { AddsTo (opening_of seat.old.view) event result
            (listing_of seat.old.view) (listing_of seat.new.view) }
        ensures rises { seat.new.view.rises ≡ seat.old.view.rises + rise_of result }
        ensures notes { seat.new.view.notes ≡ seat.old.view.notes }
    {
        let mut shared = self.gate.turn(rt, seat);
        let answer = shared.add(self.alloc, event);
        self.gate.publish(seat, &shared, faults_of(&answer));
        self.gate.give(seat, shared);
        answer
    }

    /// One turn: what the list comes to. It adds nothing, and settles what was in doubt.
    pub fn look<R: Wait>(&self, rt: &R, seat: &mut MasterSeat<D>) -> LookAnswer
        requires ours { IsMasterSeat self.now seat.old }
        ensures ours { IsMasterSeat self.now seat.new }
        ensures fixed { seat.new.view.fixed ≡ seat.old.view.fixed }
        ensures looks { LooksAt (opening_of seat.old.view) result
            (listing_of seat.old.view) (listing_of seat.new.view) }
        ensures rises { seat.new.view.rises ≡ seat.old.view.rises + rise_of_look result }
        ensures notes { seat.new.view.notes ≡ seat.old.view.notes }
    {
        let mut shared = self.gate.turn(rt, seat);
        let answer = shared.look(self.alloc);
        self.gate.publish(seat, &shared, answer.faults());
        self.gate.give(seat, shared);
        answer
    }

    /// A seat that polls, beside the one that adds.
    pub fn watch(&self, seat: &mut MasterSeat<D>) -> MasterSeat<D>
        requires ours { IsMasterSeat self.now seat.old }
        ensures ours { IsMasterSeat self.now seat.new }
        ensures same { seat.new.view ≡ seat.old.view }
        ensures watcher { IsWatcher self.now result }
        ensures seen { result.view.seen ≡ seat.old.view.seen }
        ensures fixed { result.view.fixed ≡ seat.old.view.fixed }
        ensures notes { result.view.notes ≡ seat.old.view.notes }
    {
        self.gate.split(seat, None)
    }

    /// How many events are recorded, and the campaign's state after them, by any seat. It never waits.
    pub fn state(&self, seat: &mut MasterSeat<D>) -> (u64, CampaignState)
        requires ours { IsSeat self.now seat.old }
        ensures same_gate { seat.new.gate ≡ seat.old.gate }
        ensures noted { seat.new.view ≡ noted result.0 (state_code result.1) seat.old.view }
        ensures adds_still { IsMasterSeat self.now seat.old → IsMasterSeat self.now seat.new }
        ensures polls_still { IsWatcher self.now seat.old → IsWatcher self.now seat.new }
        ensures not_before_seen { length seat.old.view.seen ≤ result.0 }
        ensures not_before_polled { NotAbove result.0 seat.old.view.notes }
        ensures shows { ShowsAt seat.old.view result.0 result.1 }
    {
        let (place, code) = self.gate.poll(seat);
        (place, CampaignState::of_code(code))
    }

    /// A seat that polled is joined to the one that adds, which has its notes then.
    pub fn join(&self, seat: &mut MasterSeat<D>, watcher: MasterSeat<D>)
        requires ours { IsMasterSeat self.now seat.old }
        requires watcher { IsWatcher self.now watcher }
        ensures ours { IsMasterSeat self.now seat.new }
        ensures fixed { seat.new.view.fixed ≡ seat.old.view.fixed }
        ensures parts { seat.new.view.parts ≡ seat.old.view.parts }
        ensures rises { seat.new.view.rises ≡ seat.old.view.rises }
        ensures goes_on { IsPrefix seat.old.view.seen seat.new.view.seen }

        // It has seen more only where the other seat had.
        ensures same { length watcher.view.seen ≤ length seat.old.view.seen
            → seat.new.view.seen ≡ seat.old.view.seen }
        ensures notes { seat.new.view.notes ≡ seat.old.view.notes ++ watcher.view.notes }
    {
        self.gate.join(seat, watcher);
    }

    /// Ends the gate by the seat that adds, and hands back the log and the events that were recorded. Seats that only
    /// poll may be left.
    pub fn close(self, seat: MasterSeat<D>) -> (MasterLog<D>, Vec<MasterEvent>)
        requires ours { IsMasterSeat self seat }
        ensures list { result.1.items ≡ seat.view.seen }
        ensures legal { IsLegalFrom (opening_of seat.view) result.1.items }
        ensures fold { result.0.campaign.fold
            ≡ campaign_from (opening_of seat.view) result.1.items }
        ensures count { IfSome seat.view.fixed (λ f.
            result.0.count ≡ at_most_last (f.opening.count + length result.1.items)) }
        ensures pending { MayLeave (listing_of seat.view).doubt result.0.pending }
        ensures known { Knows D.seen D.images result.0 }
        ensures images { EachImage (D.images result.0.disk)
            (IsImageOf result.0.campaign.fold result.0.pending) }

        // At each moment since the making a crash left a beginning of the list, with one event more or without.
        ensures moments { IfSome seat.view.fixed (λ f.
            LeavesOnly D.moment D.left_since f.opening.disk result.0.disk
            (WasLeft f.opening.fold result.1.items)) }
        ensures plan { IfSome seat.view.fixed
            (λ f. plan_numbers (D.armed result.0.disk) ≡ f.numbers) }
        ensures faults { CoversRises seat.view (D.fault_count result.0.disk) }
        ensures polled { NotesAreOf state_code_after seat.view result.1.items }
    {
        let MasterGate { gate, alloc: _ } = self;
        let SharedLog { log, events } = gate.close_one(seat);
        (log, events)
    }
}

/// Threads share a gate, and a seat goes from one to another.
fn asserts_that_threads_share_it<D: Disk + Send>() {
    fn shares<T: Sync + Send>() {}
    fn moves<T: Send>() {}
    shares::<MasterGate<D>>();
    moves::<MasterSeat<D>>();
}
