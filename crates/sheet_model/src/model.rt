use crate::next::parts_of;
use crate::part::Part;
use event_rates::rated_of;
use fact_formulas::NumberedModel;
use model_facts::Assembly;
use model_phases::{EventModel, FromAssembly};
use phases::Status;
use plain_values::List;
use std::alloc::Global;

/// A model as a system with the origins of its events, of which of them it gives a rate, and what its components are.
#[derive(Drop)]
pub struct SheetModel {
    pub events: EventModel,
    /// For each event whether the model gives it a rate.
    pub rated: List<bool>,
    /// What each component is, by its number.
    pub parts: List<Part>,
}

impl FromAssembly for SheetModel {
    ghost use Rattle.sheet_model.specs.Phase.{sheet_phase};

    ghost phase = { sheet_phase };

    fn of(alloc: Global, assembly: &Assembly, model: NumberedModel) -> Result<SheetModel, Status> {
        let profile = assembly.types().profile();
        let parts = parts_of(alloc, assembly.instance(), assembly.links())?;
        let events = EventModel::of(alloc, assembly, model)?;
        let infos = events.flat.system.event_infos();
        let rated = rated_of(alloc, profile, assembly.instance(), infos)?;
        Ok(SheetModel {
            events,
            rated,
            parts,
        })
    }
}
