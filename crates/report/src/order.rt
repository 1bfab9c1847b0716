//! Whether the lists of a run stand in their order.
ghost use Rattle.std.specs.Prelude.{◌≡◌, ◌≤◌, ◌↔◌, ℕ, IsTrue};
ghost use Rattle.std.specs.List.{All};
ghost use Rattle.report.specs.Shown.{ArePlaced, HasItsLosses, IsShown, Rises, is_above, is_lower, opens_before, rank, ranks_before};

use crate::{LineReply, NodeHistory, Opening, Shown, Unreached, Whose};

fn opens_before(a: &Opening, b: &Opening) -> bool
    ensures { result ≡ opens_before a.now b.now }
{
    let (node, next) = (a.node.number(), b.node.number());
    node < next || node == next && a.cluster.name < b.cluster.name
}

fn is_lower(a: &NodeHistory, b: &NodeHistory) -> bool
    ensures { result ≡ is_lower a.now b.now }
{
    a.node.number() < b.node.number()
}

fn rank(whose: Whose) -> u8
    ensures { result ≡ rank whose }
{
    match whose {
        Whose::Master => 0,
        Whose::Node(node) => node.number(),
    }
}

fn ranks_before(a: &Unreached, b: &Unreached) -> bool
    ensures { result ≡ ranks_before a.now b.now }
{
    rank(a.whose) < rank(b.whose)
}

fn is_above(a: &LineReply, b: &LineReply) -> bool
    ensures { result ≡ is_above a.now b.now }
{
    a.line < b.line
}

fn opening_rises(list: &[Opening]) -> bool
    ensures { IsTrue result ↔ Rises opens_before list.now }
{
    list.is_sorted_by(|a, b| opens_before(a, b))
}

fn nodes_rise(list: &[NodeHistory]) -> bool
    ensures { IsTrue result ↔ Rises is_lower list.now }
{
    list.is_sorted_by(|a, b| is_lower(a, b))
}

fn unreached_rises(list: &[Unreached]) -> bool
    ensures { IsTrue result ↔ Rises ranks_before list.now }
{
    list.is_sorted_by(|a, b| ranks_before(a, b))
}

fn replies_rise(list: &[LineReply]) -> bool
    ensures { IsTrue result ↔ Rises is_above list.now }
{
    list.is_sorted_by(|a, b| is_above(a, b))
}

/// Whether the places are 0, 1, ..
fn are_placed<T>(list: &[(u64, T)]) -> bool
    ensures { IsTrue result ↔ ArePlaced list.now }
{
    for (place, placed) in list.iter().enumerate() {
        if placed.0 != place as u64 {
            return false;
        }
    }
    true
}

fn entries_are_placed(list: &[NodeHistory]) -> bool
    ensures { IsTrue result ↔ All (λ h. ArePlaced h.entries) list.now }
{
    list.iter()
        .all(|history| are_placed(history.entries.as_slice()))
}

fn has_its_losses(unreached: Unreached) -> bool
    ensures { IsTrue result ↔ HasItsLosses unreached }
{
    match unreached.whose {
        Whose::Master => unreached.losses == 0,
        Whose::Node(_) => true,
    }
}

fn have_their_losses(list: &[Unreached]) -> bool
    ensures { IsTrue result ↔ All HasItsLosses list.now }
{
    list.iter().all(|unreached| has_its_losses(*unreached))
}

fn are_lines(list: &[LineReply]) -> bool
    ensures { IsTrue result ↔ All (λ r. 1 ≤ r.line) list.now }
{
    list.iter().all(|reply| reply.line >= 1)
}

impl Shown<'_> {
    /// Whether each list stands in its order, as those of a run do.
    pub fn is_shown(&self) -> bool
        ensures { IsTrue result ↔ IsShown self.now }
    {
        let opening = opening_rises(self.opening.as_slice());
        let master = are_placed(self.master.as_slice());
        let nodes = nodes_rise(self.nodes.as_slice());
        let entries = entries_are_placed(self.nodes.as_slice());
        let unreached = unreached_rises(self.unreached.as_slice());
        let losses = have_their_losses(self.unreached.as_slice());
        let replies = replies_rise(self.replies.as_slice());
        let lines = are_lines(self.replies.as_slice());
        opening && master && nodes && entries && unreached && losses && replies && lines
    }
}
