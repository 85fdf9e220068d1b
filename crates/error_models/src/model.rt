use composite_states::ClauseMeaning;
use error_behavior::ErrorBehavior;
use error_flows::FlowMeaning;
use error_machines::States;
use plain_values::List;
use propagation_points::{Points, ReachedPoint};

/// The error model of a component: its points, its states, what happens in it, what flows through it, and its composite states.
#[derive(Drop)]
pub struct ErrorModel<'a> {
    pub points: Points<'a>,
    pub states: States<'a>,
    pub behavior: ErrorBehavior<'a>,
    pub flows: List<FlowMeaning>,
    /// What its sinks take.
    pub sinks: List<ReachedPoint>,
    pub composites: List<ClauseMeaning>,
    /// Whether it has a clause of composite states, one of `others` included.
    pub is_composite: bool,
}
