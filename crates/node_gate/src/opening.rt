//! What a gate goes on from, as clauses see it.
use pm_types::State;

/// The stored state of the node and its disk as the gate was made: together they are the node of the opening. No value
/// of it is made.
pub struct Opening<D> {
    pub state: State,
    pub disk: D,
}
