//! What a store above builds on: what a node does is what its record tells of.
ghost use Rattle.std.specs.Prelude.{◌≡◌, ◌<◌, ◌↔◌, ℕ, Bool, List, Some};
ghost use Rattle.ucm_base.specs.Limits.{entry_limit};
ghost use Rattle.ucm_base.specs.declared.ids.CallNo.{CallNo as a_number};
ghost use Rattle.pm_types.specs.declared.calls.Call.{Call as a_call};
ghost use Rattle.pm_types.specs.declared.replies.Worked.TheVariants.{Unit as UnitDone};
ghost use Rattle.pm_types.specs.declared.status.Status.{Status as a_status};
ghost use Rattle.pm_types.specs.Steps.{execute};
ghost use Rattle.pm_types.specs.Stored.{State as a_state};
ghost use Rattle.node_core.specs.Core.{AllReady, Readied, kept_by, node_of, reply_by};
ghost use Rattle.node_core.specs.Units.{AllWorkReady, answer_to, state_worked};
ghost use Rattle.event_codec.specs.declared.records.Record.TheVariants.{Worked};
ghost use Rattle.event_codec.specs.declared.records.Record.{Record as a_record};
ghost use Rattle.node_recovery.specs.Allowed.{IsAllowed};
ghost use Rattle.node_recovery.specs.Deciding.{after_record};
ghost use Rattle.node_recovery.specs.Folds.{effect};
ghost use Rattle.node_recovery.specs.Recorded.{record_of};

/// A law: a record makes a state of another exactly where it is allowed there, and its effect is this state.
pub fn what_a_record_makes()
    ensures law { (s t : a_state) (r : a_record)
        → (after_record s r ≡ Some t) ↔ (IsAllowed s r × (effect s r ≡ Some t)) }
{}

/// A law: where a node is sound and all is ready for a newer call, the record of the call with its reply is allowed, and
/// makes of the stored state what the call makes of it.
pub fn what_a_call_does_is_recorded()
    ensures law { (r : Readied) (client : ℕ) (call_no : a_number) (call : a_call)
        → r.state.entries < entry_limit
        → AllReady r client call (λ v.
        after_record r.state (record_of r client call_no call (reply_by v client call))
        ≡ Some (execute (kept_by r) r.state client call_no call (reply_by v client call))) }
{}

/// A law: where a node is sound and all is ready for its next unit of work, the record of the unit that it answers is
/// allowed, and makes of the stored state what the unit makes of it.
pub fn what_a_unit_does_is_recorded()
    ensures law { (r : Readied) (fails : List (List ℕ)) (passed : Bool) (after : a_status)
        → r.state.entries < entry_limit
        → AllWorkReady r (λ v. answer_to fails (node_of v) ≡ UnitDone passed after
        → after_record r.state (Worked passed after) ≡ Some (state_worked r (UnitDone passed after))) }
{}
