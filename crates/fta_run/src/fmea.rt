//! The FMEA table of a model.

ghost use Rattle.std.specs.Prelude.{◌≡◌, ◌||◌, IfOk, length};
ghost use Rattle.phases.specs.Phases.{Passes};
ghost use Rattle.plain_values.specs.Rising.{RisesWithin};
ghost use Rattle.fmea_rows.specs.inner.Text.{HasFieldNames};
ghost use Rattle.model_phases.specs.Named.{IsPlainModel};
ghost use Rattle.fact_formulas.specs.Flat.{is_of_root};
ghost use Rattle.fta_run.specs.Due.{fmea_text};
ghost use Rattle.fta_run.specs.Effects.{asked_effects};

use fact_formulas::is_of_root;
use fault_system::FaultSystem;
use fmea_rows::{TableLines, rows};
use model_phases::FlatModel;
use plain_values::{List, Mem};
use std::alloc::Global;

/// The table of a model: for each event each effect that it reaches alone, of the root or of all components.
pub fn table_of(alloc: Global, model: FlatModel, all: bool) -> Mem<TableLines>
    requires plain { IsPlainModel model }
    requires names { HasFieldNames model.system }
    ensures { IfOk result (Passes (fmea_text all model)) }
{
    let effects = asked_effects(alloc, &model, all)?;
    let rows = rows(alloc, &model.system, effects.items())?;
    Ok(TableLines::new(alloc, model.system, rows, model.rates))
}

/// The effects that are asked of: those of all components, or those of the root.
pub(crate) fn asked_effects(alloc: Global, model: &FlatModel, all: bool) -> Mem<List<u32>>
    requires rise { RisesWithin 0 (length model.now.system.facts) model.now.effects }
    ensures effects { IfOk result (λ effects. effects ≡ asked_effects all model.now) }
    ensures rise { IfOk result (λ effects. RisesWithin 0 (length model.now.system.facts) effects) }
{
    let mut effects = List::new(alloc);
    for effect in model.effects.items() {
        effects.push_if(*effect, is_asked(&model.system, *effect, all))?;
    }
    Ok(effects)
}

/// Whether an effect is asked of.
fn is_asked(system: &FaultSystem, number: u32, all: bool) -> bool
    ensures { result ≡ (all || is_of_root system.now number) }
{
    all || is_of_root(system, number)
}
