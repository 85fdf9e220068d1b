//! What may be asked as a target, and how many events it takes.

ghost use Rattle.std.specs.Prelude.{◌≡◌, ◌<◌, All, IfOk, length};
ghost use Rattle.phases.specs.Phases.{Passes};
ghost use Rattle.plain_values.specs.Numbered.{numbers_below};
ghost use Rattle.plain_values.specs.Rising.{RisesWithin};
ghost use Rattle.model_phases.specs.Named.{IsPlainModel};
ghost use Rattle.fta_run.specs.Due.{targets_text};
ghost use Rattle.fta_run.specs.Effects.{asked_targets};

use crate::fmea::asked_effects;
use fault_system::FaultSystem;
use model_phases::FlatModel;
use plain_values::{List, Mem};
use std::alloc::Global;
use target_orders::orders_text;

/// What it takes to make each target of a model hold: each effect of the root, or each fact.
pub fn orders_of(alloc: Global, model: &FlatModel, all: bool) -> Mem<Vec<u8>>
    requires { IsPlainModel model.now }
    ensures { IfOk result (λ text. Passes (targets_text all model.now) text.items) }
{
    let facts = asked_targets(alloc, model, all)?;
    orders_text(alloc, &model.system, facts.items())
}

/// The facts that are asked of: all, or the effects of the root.
fn asked_targets(alloc: Global, model: &FlatModel, all: bool) -> Mem<List<u32>>
    requires { RisesWithin 0 (length model.now.system.facts) model.now.effects }
    ensures facts { IfOk result (λ facts. facts ≡ asked_targets all model.now) }
    ensures there { IfOk result (λ facts. All (λ fact. fact < length model.now.system.facts) facts) }
{
    if all {
        return all_facts(alloc, &model.system);
    }
    asked_effects(alloc, model, false)
}

/// All facts of a system.
fn all_facts(alloc: Global, system: &FaultSystem) -> Mem<List<u32>>
    ensures { IfOk result (λ facts. facts ≡ numbers_below (length system.now.facts)) }
{
    let mut facts = List::new(alloc);
    for fact in 0..system.facts() {
        facts.push(fact)?;
    }
    Ok(facts)
}
