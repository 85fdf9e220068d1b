use crate::flat::FromAssembly;
use fact_formulas::NumberedModel;
use finding_places::{ReviewLine, review_lines};
use model_facts::Assembly;
use phases::Status;
use plain_values::List;
use std::alloc::Global;

/// What a model leaves without effect, and where its errors stop.
#[derive(Drop)]
pub struct ReviewedModel {
    /// The lines of its review, one a finding.
    pub lines: List<ReviewLine>,
}

impl FromAssembly for ReviewedModel {
    ghost use Rattle.model_phases.specs.Phases.{review_phase};

    ghost phase = { review_phase };

    fn of(
        alloc: Global,
        assembly: &Assembly,
        model: NumberedModel,
    ) -> Result<ReviewedModel, Status> {
        let lines = review_lines(alloc, assembly, &model)?;
        Ok(ReviewedModel { lines })
    }
}
