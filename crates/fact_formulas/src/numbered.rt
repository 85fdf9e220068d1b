use fault_system::FaultSystem;
use model_facts::{EventTable, FactTable};
use plain_values::List;

/// A model with its facts and events in order, and its system.
#[derive(Drop)]
pub struct NumberedModel {
    /// The error types that may be at a free side of a point, rising.
    pub universe: List<u32>,
    /// What may hold in it, in order.
    pub facts: FactTable,
    /// What may occur in it, in order.
    pub events: EventTable,
    /// These with what makes each fact hold.
    pub system: FaultSystem,
    /// The numbers of its facts that are effects of failures, rising.
    pub effects: List<u32>,
}
