//! What a replay did is one history of the node.
ghost use Rattle.std.specs.Prelude.{ℕ, List};
ghost use Rattle.pm_types.specs.NodeState.{NodeState as a_node};
ghost use Rattle.pm_types.specs.Histories.{IsLegal, IsTrueTo};
ghost use Rattle.node_core.specs.Packages.{package_reading};
ghost use Rattle.scenario.specs.declared.script.Script.{Script as a_script};
ghost use Rattle.node_replay.specs.Done.{AreDone, AreOfClients, Did, history_of};

/// A law: the history of what was done is one that the node can have, true to the clusters that fail.
pub fn what_is_done_is_legal()
    ensures { (script : a_script) (attached : List ℕ) (start : a_node) (before : ℕ) (done : List Did)
        → AreOfClients done → AreDone script attached start before done
        → IsLegal package_reading start (history_of done)
        × IsTrueTo script.fails package_reading start (history_of done) }
{}
