use aadl_syntax::Identifier;
use plain_values::List;
use propagation_points::ReachedPoint;

/// A state of a component below: the names of the subcomponents that lead to the component, and the number of the state there,
/// from 0.
#[derive(Drop)]
pub struct StateBelow {
    pub path: List<Identifier>,
    pub state: u32,
}

/// What a condition means: when it is true.
#[derive(Drop)]
pub enum Cause {
    /// An event of the component, by its number from 0.
    Event(u32),
    /// A state of a component below.
    State(StateBelow),
    /// One of the types that are reached at the inward side of a point of the component.
    Point(ReachedPoint),
    /// All of these.
    All(List<Cause>),
    /// One of these at least.
    Any(List<Cause>),
    /// So many of these at least, counted by place.
    AtLeast(u32, List<Cause>),
}
