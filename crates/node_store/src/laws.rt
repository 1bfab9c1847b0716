//! What a gate above builds on.
ghost use Rattle.std.specs.Prelude.{◌≡◌, ℕ, List, Some};
ghost use Rattle.disk_core.specs.Images.{EachImage};
ghost use Rattle.event_log.specs.declared.log.Log.{Log as a_log};
ghost use Rattle.ucm_base.specs.declared.ids.CallNo.{CallNo as a_number};
ghost use Rattle.pm_types.specs.declared.calls.Call.{Call as a_call};
ghost use Rattle.pm_types.specs.NodeState.{NodeState as a_node};
ghost use Rattle.pm_types.specs.Stored.{State as a_state};
ghost use Rattle.node_recovery.specs.Images.{stored_in};
ghost use Rattle.node_core.specs.Core.{Readied as readied};
ghost use Rattle.node_core.specs.Units.{after_work};
ghost use Rattle.node_store.specs.Open.{CanServe, IsOpen};
ghost use Rattle.node_store.specs.Serving.{MakesOne, Serves, node_on, stepped};

use disk_core::Disk;

/// A law: from an image that serves for a node one can be opened, and it is this node.
pub fn what_serves_can_be_opened()
    ensures can { (n : a_node) (image : List ℕ) → Serves n image → CanServe image }
    ensures node { (n : a_node) (image : List ℕ) (s : a_state) → Serves n image
        → stored_in image ≡ Some s → node_on s image ≡ n }
{}

/// A law: each image of an open node's disk serves for it.
pub fn what_is_open_serves<D: Disk>()
    ensures { (log : a_log) (r : readied) (d : D) → IsOpen log r (D.seen d) (D.images d)
        → EachImage (D.images d) (Serves (node_on r.state (D.seen d))) }
{}

/// A law: a call and a unit make one entry, or leave the node as it was.
pub fn events_make_one_entry()
    ensures call { (n : a_node) (client : ℕ) (call_no : a_number) (call : a_call)
        → MakesOne n (stepped n client call_no call).0 }
    ensures unit { (n : a_node) (fails : List (List ℕ)) → MakesOne n (after_work fails n) }
{}
