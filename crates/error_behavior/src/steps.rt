use error_conditions::Cause;
use plain_values::List;
use propagation_points::{Held, ReachedPoint};

/// From where a transition or an outgoing condition goes.
#[derive(Drop)]
pub enum Origin {
    /// From `all` states.
    Always,
    /// From the state that is selected, or from one of its variants that are.
    From(Held),
}

/// What a transition does: on its trigger, from its origin, it leads to variants of states, which are
/// named by their numbers, those of each branch behind those of the branch before.
#[derive(Drop)]
pub struct Step {
    pub origin: Origin,
    pub trigger: Cause,
    pub targets: List<u32>,
}

/// What an outgoing condition does: on its trigger, if it has one, from its origin types come out of a point.
#[derive(Drop)]
pub struct Emission {
    pub origin: Origin,
    pub trigger: Option<Cause>,
    pub reached: ReachedPoint,
}
