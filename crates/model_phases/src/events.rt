use crate::flat::{FlatModel, FromAssembly};
use event_origins::{EventOrigin, origins_of};
use fact_formulas::NumberedModel;
use model_facts::Assembly;
use phases::Status;
use plain_values::List;
use std::alloc::Global;

/// A model as a system, and of which kind each of its events is, and where it is declared.
#[derive(Drop)]
pub struct EventModel {
    pub flat: FlatModel,
    /// The origin of each event.
    pub origins: List<EventOrigin>,
}

impl FromAssembly for EventModel {
    ghost use Rattle.model_phases.specs.Phases.{origins_phase};

    ghost phase = { origins_phase };

    fn of(alloc: Global, assembly: &Assembly, model: NumberedModel) -> Result<EventModel, Status> {
        let origins = origins_of(alloc, assembly, model.events.list())?;
        let flat = FlatModel::of(alloc, assembly, model)?;
        Ok(EventModel { flat, origins })
    }
}
