use aadl_syntax::Identifier;
use plain_values::List;
use propagation_points::{Held, ReachedPoint};

/// What an error flow means. Points are named by their places in the list of points, states and types by their numbers;
/// all begin at 0.
#[derive(Drop)]
pub enum FlowMeaning {
    /// An error source without a state, of this name: one event, from which all types come out that are reached.
    Event(Identifier, ReachedPoint),
    /// An error source that names a state: the types that are reached come out while it is in the state.
    State(Held, ReachedPoint),
    /// An error path without a set at its end: each type that is reached at its start goes to this point.
    Carry(ReachedPoint, u32),
    /// An error path with a set at its end: whatever of its start is reached makes these types come out of this point.
    Change(ReachedPoint, u32, List<u32>),
}

/// The flows of a component: what its sources and paths mean, and what its sinks take, each in order.
#[derive(Drop)]
pub struct Flows {
    pub meanings: List<FlowMeaning>,
    pub sinks: List<ReachedPoint>,
}
