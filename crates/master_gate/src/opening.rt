//! What a gate goes on from, as clauses see it.
use campaign_core::Fold;

/// The fold of the list, how many events its log had counted, and its disk, as the gate was made. No value of it is
/// made.
pub struct Opening<D> {
    pub fold: Fold,
    pub count: u64,
    pub disk: D,
}
