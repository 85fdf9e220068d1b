ghost use Rattle.std.specs.Prelude.{◌≡◌, IfErr, IfOk, None, OnOk};
ghost use Rattle.plain_values.specs.inner.Stops.{StopsAt};
ghost use Rattle.fact_formulas.specs.Flat.{size_refusal};
ghost use Rattle.fact_formulas.specs.inner.Models.{IsSystemOf};
ghost use Rattle.model_phases.specs.inner.Numbered.{IsNumbered};

use fact_formulas::NumberedModel;
use flattener::flatten;
use model_facts::{
    Assembly, EventTable, FactTable, are_named, event_names_are_plain, fact_names_are_plain,
    universe_of,
};
use plain_values::Answer;
use std::alloc::Global;

/// The model that is put together, numbered. Its names are made of identifiers, and so they are plain.
pub(crate) fn numbered_model(alloc: Global, assembly: &Assembly) -> Answer<NumberedModel>
    ensures numbered { IfOk result (IsNumbered assembly.now) }
    ensures accepted { OnOk result (size_refusal assembly.now ≡ None) }
    ensures refused { IfErr result (StopsAt (size_refusal assembly.now)) }
{
    are_named(assembly)?;
    fact_names_are_plain();
    event_names_are_plain();
    let made = made_of(alloc, assembly)?;
    let _facts = made.system.facts();
    Ok(made)
}

/// The model, numbered.
///
/// M6 where there are more than 262,144 facts, or else M7 where there are more than 4,096 events, or else M9 where the formulas
/// have more than 4,194,304 places.
fn made_of(alloc: Global, assembly: &Assembly) -> Answer<NumberedModel>
    ensures made { IfOk result (IsSystemOf assembly.now) }
    ensures accepted { OnOk result (size_refusal assembly.now ≡ None) }
    ensures refused { IfErr result (StopsAt (size_refusal assembly.now)) }
{
    let universe = universe_of(alloc, assembly)?;
    let facts = FactTable::of(alloc, assembly, universe.items())?;
    let events = EventTable::of(alloc, assembly)?;
    let system = flatten(alloc, assembly, universe.items(), &facts, &events)?;
    let effects = facts.effects(alloc, assembly)?;
    Ok(NumberedModel {
        universe,
        facts,
        events,
        system,
        effects,
    })
}
