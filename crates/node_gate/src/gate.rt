//! The gate of a node, and its seats.
ghost use Rattle.std.specs.Prelude.{◌≡◌, ℕ, ◌+◌, ◌<◌, ◌≤◌, false, [], Some, None, IfOk, IfErr, IfSome, length};
ghost use mathlib.Core.List.{IsPrefix};
ghost use Rattle.turn_gate.specs.Parts.{AllDiffer, IsAmong, at_most_last, numbers_of, parts_of};
ghost use Rattle.turn_gate.specs.Seats.{AllRest, AllSawBeginnings, HaveAll, OneSaw, fixed_in, notes_in, one_each, parts_in, rises_in};
ghost use Rattle.turn_gate.specs.Rule.{NotAbove, NotesFit};
ghost use Rattle.turn_gate.specs.Views.{account, first_view, fixed_to, joined, left_with, noted, split_off};
ghost use Rattle.pm_types.specs.NodeState.{status_code};
ghost use Rattle.node_store.specs.Open.{IsOpen};
ghost use Rattle.node_gate.specs.Calls.{AsksTo, CallsTo, WorksTo, rise_of, rise_of_ask, rise_of_work};
ghost use Rattle.client_calls.specs.Arrivals.{MayArrive};
ghost use Rattle.plan_numbers.specs.Plans.{fixed_numbers};
ghost use Rattle.node_gate.specs.Clients.{known_of, posted};
ghost use Rattle.node_gate.specs.Seats.{IsClientSeat, IsHandedBack, IsSeat, IsWorkSeat, ShowsAt, Turned, opened_as};
ghost use Rattle.node_gate.specs.Stands.{opening, status_code_after, tells};

use crate::answers::{AskAnswer, faults_of, faults_of_work};
use crate::shared::SharedNode;
use disk_core::Disk;
use node_store::{Node, NodeAnswer, WorkAnswer};
use pm_types::{Call, Entry, Query, Status};
use std::alloc::{AllocError, Global};
use std::marker::Model;
use std::sync::Wait;
use turn_gate::{Gate, Seat, Seats};
use ucm_base::{CallNo, ClientId, ClusterName};

/// A seat of a node's gate.
pub type NodeSeat<D> = Seat<SharedNode<D>>;

/// Seats of a node's gate, in the order of its clients.
pub type NodeSeats<D> = Seats<SharedNode<D>>;

/// A node behind a turn. Clauses see its name, which its seats have too.
#[derive(Drop)]
pub struct NodeGate<D: Disk> {
    gate: Gate<SharedNode<D>>,
    alloc: Global,
}

impl<D: Disk> Model for NodeGate<D> {
    ghost use Rattle.atomic_table.specs.Seated.{TableId, table_id_coded};

    ghost Value = { TableId };

    ghost coded = { table_id_coded };

    ghost view = { λ g. g.gate };
}

/// The numbers of clients, as parts.
fn parts_of_clients(alloc: Global, clients: &[ClientId]) -> Result<Vec<u8>, AllocError>
    ensures { IfOk result (λ parts. parts.items ≡ clients.now) }
{
    let mut parts = Vec::with_capacity(alloc, clients.len())?;
    for client in clients {
        parts.push(client.number())?;
    }
    Ok(parts)
}

impl<D: Disk> NodeGate<D> {
    /// A gate of an open node, and one seat for each of these clients, where clusters of these names fail when they are
    /// verified.
    pub fn new(
        alloc: Global,
        node: Node<D>,
        clients: &[ClientId],
        fails: Vec<ClusterName>,
    ) -> Result<(NodeGate<D>, NodeSeats<D>), (Node<D>, AllocError)>
        requires known { IsOpen node.log node.ready
            (D.seen node.extents.disk) (D.images node.extents.disk) }
        requires open { node.is_closed ≡ false }
        requires some { 0 < length clients.now }
        requires differ { AllDiffer clients.now }
        ensures seats { IfOk result (λ made. made.1.items ≡ one_each made.0
            (first_view (fixed_to (opening node)
            (fixed_numbers fails.items (D.armed node.extents.disk))
            (D.fault_count node.extents.disk) clients.now)
            (account [] None (D.fault_count node.extents.disk)))
            (parts_of tells (account [] None (D.fault_count node.extents.disk)) clients.now)) }
        ensures handed_back { IfErr result (λ refused. refused.0 ≡ node) }
    {
        let Ok(parts) = parts_of_clients(alloc, clients) else {
            return Err((node, AllocError));
        };
        let shared = SharedNode {
            node,
            entries: Vec::new(alloc),
            pending: None,
            fails,
        };
        match Gate::new(alloc, shared, parts.as_slice()) {
            Ok((gate, seats)) => Ok((NodeGate { gate, alloc }, seats)),
            Err((shared, e)) => {
                let SharedNode { node, .. } = shared;
                Err((node, e))
            }
        }
    }

    /// One turn: a client's numbered call. A closed node is opened again first.
    pub fn call<R: Wait>(
        &self,
        rt: &R,
        seat: &mut NodeSeat<D>,
        client: ClientId,
        no: CallNo,
        call: Call,
    ) -> NodeAnswer
        requires ours { IsClientSeat client self.now seat.old }
        ensures ours { IsClientSeat client self.now seat.new }
        ensures called { Turned (CallsTo (opened_as D.seen seat.old.view) client no call result) seat.old seat.new }

        // Of what its client knows it makes what the arrival of one message may make.
        ensures arrives { MayArrive (posted no call)
            (known_of client seat.old.view) (known_of client seat.new.view) }
        ensures rises { seat.new.view.rises ≡ seat.old.view.rises + rise_of result }
    {
        let mut shared = self.gate.turn(rt, seat);
        let answer = shared.call(self.alloc, client, no, call);
        self.gate.publish(seat, &shared, faults_of(&answer));
        self.gate.give(seat, shared);
        answer
    }

    /// One turn: the node's next unit of work, which passes by the names that the gate was made with. A closed node is
    /// opened again first.
    pub fn work<R: Wait>(&self, rt: &R, seat: &mut NodeSeat<D>) -> WorkAnswer
        requires ours { IsWorkSeat self.now seat.old }
        ensures ours { IsWorkSeat self.now seat.new }
        ensures worked { Turned (WorksTo (opened_as D.seen seat.old.view) result) seat.old seat.new }
        ensures rises { seat.new.view.rises ≡ seat.old.view.rises + rise_of_work result }
    {
        let mut shared = self.gate.turn(rt, seat);
        let answer = shared.work(self.alloc);
        self.gate.publish(seat, &shared, faults_of_work(&answer));
        self.gate.give(seat, shared);
        answer
    }

    /// One turn: a query of a client, answered after all entries. It adds nothing but what was pending, where that
    /// stood, since a closed node is opened again first.
    pub fn ask<R: Wait>(
        &self,
        rt: &R,
        seat: &mut NodeSeat<D>,
        client: ClientId,
        query: &Query,
    ) -> AskAnswer
        requires ours { IsClientSeat client self.now seat.old }
        ensures ours { IsClientSeat client self.now seat.new }
        ensures asked { Turned (AsksTo (opened_as D.seen seat.old.view) client query.now result) seat.old seat.new }
        ensures rises { seat.new.view.rises ≡ seat.old.view.rises + rise_of_ask result }
    {
        let mut shared = self.gate.turn(rt, seat);
        let answer = shared.ask(self.alloc, client, query);
        self.gate.publish(seat, &shared, answer.faults());
        self.gate.give(seat, shared);
        answer
    }

    /// How many entries stand since the gate was made, and the node's status after them, by any seat. It never waits.
    pub fn poll_status(&self, seat: &mut NodeSeat<D>) -> (u64, Status)
        requires ours { IsSeat self.now seat.old }
        ensures same_gate { seat.new.gate ≡ seat.old.gate }
        ensures noted { seat.new.view ≡ noted result.0 (status_code result.1) seat.old.view }
        ensures calls_still { (client : ℕ)
            → IsClientSeat client self.now seat.old → IsClientSeat client self.now seat.new }
        ensures works_still { IsWorkSeat self.now seat.old → IsWorkSeat self.now seat.new }
        ensures not_before_seen { length seat.old.view.seen ≤ result.0 }
        ensures not_before_polled { NotAbove result.0 seat.old.view.notes }
        ensures shows { ShowsAt D.seen seat.old.view result.0 result.1 }
    {
        let (place, code) = self.gate.poll(seat);
        (place, Status::of_code(code))
    }

    /// A new seat, which has seen what this one has, and takes the named client's part from it.
    pub fn split(&self, seat: &mut NodeSeat<D>, client: Option<ClientId>) -> NodeSeat<D>
        requires ours { IsSeat self.now seat.old }
        requires its_part { IsAmong client (numbers_of seat.old.view.parts) }
        ensures ours { IsSeat self.now seat.new }
        ensures new_ours { IsSeat self.now result }
        ensures left { seat.new.view ≡ left_with client seat.old.view }
        ensures moved { result.view ≡ split_off client seat.old.view }
    {
        let part = match client {
            Some(client) => Some(client.number()),
            None => None,
        };
        self.gate.split(seat, part)
    }

    /// Two seats are made one, which has seen what either had. It has the parts, the polls and the rises of both.
    pub fn join(&self, seat: &mut NodeSeat<D>, other: NodeSeat<D>)
        requires ours { IsSeat self.now seat.old }
        requires other_ours { IsSeat self.now other }
        ensures ours { IsSeat self.now seat.new }
        ensures both { seat.new.view ≡ joined seat.old.view other.view }
        ensures goes_on { IsPrefix seat.old.view.seen seat.new.view.seen }
        ensures has_seen { IsPrefix other.view.seen seat.new.view.seen }
    {
        self.gate.join(seat, other);
    }

    /// Ends the gate, by seats that together have all its clients, and hands back the node and its entries since the
    /// gate was made. The node may be closed, with one entry more pending.
    pub fn close(self, seats: NodeSeats<D>) -> (Node<D>, Vec<Entry>)
        requires rest { AllRest self seats.items }
        requires all_clients { HaveAll seats.items }
        ensures list { OneSaw result.1.items seats.items }
        ensures all_saw { AllSawBeginnings result.1.items seats.items }
        ensures left { IfSome (fixed_in seats.items) (λ f. IsHandedBack D.moment D.left_since D.seen
            D.images D.armed D.fault_count f result.0 result.1.items (parts_in seats.items)) }
        ensures polled { IfSome (fixed_in seats.items) (λ f. NotesFit (status_code_after D.seen)
            f.opening result.1.items (notes_in seats.items)) }
        ensures faults { IfSome (fixed_in seats.items)
            (λ f. at_most_last (f.faults + rises_in seats.items)
            ≤ D.fault_count result.0.extents.disk) }
    {
        let NodeGate { gate, alloc: _ } = self;
        let SharedNode { node, entries, .. } = gate.close(seats);
        (node, entries)
    }
}

/// Threads share a gate, and a seat goes from one to another.
fn asserts_that_threads_share_it<D: Disk + Send>() {
    fn shares<T: Sync + Send>() {}
    fn moves<T: Send>() {}
    shares::<NodeGate<D>>();
    moves::<NodeSeat<D>>();
}
