ghost use Rattle.std.specs.Prelude.{◌≡◌, None, Some, IfErr, IfOk, OnOk, map};
ghost use Rattle.plain_values.specs.Order.{least};
ghost use Rattle.error_libraries.specs.Libraries.{table_of};
ghost use Rattle.propagation_points.specs.Points.{point_refusals, points_of};
ghost use Rattle.error_flows.specs.Flows.{all_flow_refusals, flows_of, sinks_of};
ghost use Rattle.error_behavior.specs.Behavior.{behavior_refusals, behavior_of};
ghost use Rattle.error_machines.specs.States.{states_of};
ghost use Rattle.composite_states.specs.Composites.{clauses_of, composite_clause_refusals};
ghost use Rattle.plain_values.specs.inner.Stops.{StopsAt};
ghost use Rattle.error_models.specs.Below.{kind_machine, states_below};
ghost use Rattle.error_models.specs.Models.{is_composite, model_of, model_with};
ghost use Rattle.error_models.specs.Refused.{group_with, models_group, models_refusal, refusal_with};
ghost use Rattle.noted_refusals.specs.inner.Noted.{Tells, TellsFirst};

use crate::model::ErrorModel;
use crate::tree::{BelowKind, Tree};
use aadl_syntax::Composite;
use component_extension::{Effective, InClause};
use composite_states::{ClauseMeaning, clauses_of};
use error_behavior::{ErrorBehavior, behavior_of};
use error_flows::{Flows, flows_of};
use error_machines::{States, UsedMachine, states_of};
use error_types::Reading;
use instantiator::Instance;
use plain_values::{Answer, List};
use propagation_points::{Points, Sorts, points_of};
use std::alloc::Global;

/// The error models of the kinds of an instance, which have these machines, in order.
///
/// The first refusal by component, of which the points are tested first, then the machine, the flows and the composite states,
/// each a group of which the first by place is answered: N9 and P3 of its points; those of `behavior_of`, of `flows_of` and of
/// `clauses_of`. The refusals of the group are noted, in place of what was noted before.
pub fn models_of<'a>(
    alloc: Global,
    instance: &Instance<'_, 'a>,
    machines: &[Option<UsedMachine<'a>>],
    reading: &mut Reading<'_, 'a>,
) -> Answer<List<ErrorModel<'a>>>
    requires machines { machines.now ≡ map (kind_machine instance.now.packages) instance.now.kinds }
    requires table { reading.old.types ≡ table_of reading.old.types.profile instance.now.packages }
    ensures kept { reading.new.types ≡ reading.old.types }
    ensures models { IfOk result (λ models. models ≡ map (model_of reading.old.types instance.now.kinds) instance.now.kinds) }
    ensures accepted { OnOk result (models_refusal reading.old.types instance.now.kinds ≡ None) }
    ensures refused { IfErr result (StopsAt (models_refusal reading.old.types instance.now.kinds)) }
    ensures told { IfErr result (TellsFirst (models_group reading.old.types instance.now.kinds) reading.new.refusals) }
{
    let tree = Tree::of(alloc, instance, machines, &mut reading.types)?;
    let mut models = List::new(alloc);
    for (number, kind) in instance.kinds().iter().enumerate() {
        let below = BelowKind {
            tree: &tree,
            classifier: kind.classifier,
        };
        let model = model_of(alloc, &kind.effective, &machines[number], reading, &below)?;
        models.push(model)?;
    }
    Ok(models)
}

/// The error model of a component with this effective classifier and this machine.
fn model_of<'a>(
    alloc: Global,
    effective: &Effective<'a>,
    machine: &Option<UsedMachine<'a>>,
    reading: &mut Reading<'_, 'a>,
    below: &BelowKind<'_, '_, '_, 'a>,
) -> Answer<ErrorModel<'a>>
    ensures kept { reading.new.types ≡ reading.old.types }
    ensures model { IfOk result (λ model. model ≡ model_with reading.old.types effective.now machine.now (states_below below.now.tree.profile below.now.tree.packages below.now.tree.kinds (Some below.now.classifier))) }
    ensures accepted { OnOk result (refusal_with reading.old.types effective.now machine.now (states_below below.now.tree.profile below.now.tree.packages below.now.tree.kinds (Some below.now.classifier)) ≡ None) }
    ensures refused { IfErr result (StopsAt (refusal_with reading.old.types effective.now machine.now (states_below below.now.tree.profile below.now.tree.packages below.now.tree.kinds (Some below.now.classifier)))) }
    ensures told { IfErr result (TellsFirst (group_with reading.old.types effective.now machine.now (states_below below.now.tree.profile below.now.tree.packages below.now.tree.kinds (Some below.now.classifier))) reading.new.refusals) }
{
    let points = points(alloc, effective, reading)?;
    let states = states_of(alloc, &mut reading.types, machine)?;
    let behavior = behavior(alloc, effective, machine, &states.sorts, reading, &points)?;
    let flows = flows(alloc, effective, reading, &points, &states.sorts)?;
    let composites = composites(alloc, effective, reading, &points, &states, below)?;
    Ok(ErrorModel {
        points,
        states,
        behavior,
        flows: flows.meanings,
        sinks: flows.sinks,
        composites,
        is_composite: is_composite(effective.behavior.composites.items()),
    })
}

fn is_composite(composites: &[InClause<'_, Composite>]) -> bool
    ensures { result ≡ is_composite composites.now }
{
    composites.len() > 0
}

/// The points of a component, whose refusals are tested.
fn points<'a>(
    alloc: Global,
    effective: &Effective<'a>,
    reading: &mut Reading<'_, 'a>,
) -> Answer<Points<'a>>
    ensures kept { reading.new.types ≡ reading.old.types }
    ensures points { IfOk result (λ points. points ≡ points_of reading.old.types effective.now) }
    ensures accepted { OnOk result (least (point_refusals reading.old.types effective.now) ≡ None) }
    ensures refused { IfErr result (StopsAt (least (point_refusals reading.old.types effective.now))) }
    ensures told { IfErr result (Tells (point_refusals reading.old.types effective.now) reading.new.refusals) }
{
    reading.refusals.clear();
    let points = points_of(alloc, effective, reading)?;
    reading.refusals.settle()?;
    Ok(points)
}

/// The error behavior of a component, whose refusals are tested.
fn behavior<'a>(
    alloc: Global,
    effective: &Effective<'a>,
    machine: &Option<UsedMachine<'a>>,
    states: &Sorts<'a>,
    reading: &mut Reading<'_, 'a>,
    points: &Points<'a>,
) -> Answer<ErrorBehavior<'a>>
    requires { states.now ≡ (states_of reading.old.types machine.now).sorts }
    ensures kept { reading.new.types ≡ reading.old.types }
    ensures behavior { IfOk result (λ behavior. behavior ≡ behavior_of reading.old.types points.now machine.now effective.now) }
    ensures accepted { OnOk result (least (behavior_refusals reading.old.types points.now machine.now effective.now) ≡ None) }
    ensures refused { IfErr result (StopsAt (least (behavior_refusals reading.old.types points.now machine.now effective.now))) }
    ensures told { IfErr result (Tells (behavior_refusals reading.old.types points.now machine.now effective.now) reading.new.refusals) }
{
    reading.refusals.clear();
    let behavior = behavior_of(alloc, effective, machine, states, reading, points)?;
    reading.refusals.settle()?;
    Ok(behavior)
}

/// The flows of a component, whose refusals are tested.
fn flows<'a>(
    alloc: Global,
    effective: &Effective<'a>,
    reading: &mut Reading<'_, 'a>,
    points: &Points<'a>,
    states: &Sorts<'a>,
) -> Answer<Flows>
    ensures kept { reading.new.types ≡ reading.old.types }
    ensures flows { IfOk result (λ flows. flows.meanings ≡ flows_of reading.old.types points.now states.now effective.now) }
    ensures sinks { IfOk result (λ flows. flows.sinks ≡ sinks_of reading.old.types points.now states.now effective.now) }
    ensures accepted { OnOk result (least (all_flow_refusals reading.old.types points.now states.now effective.now) ≡ None) }
    ensures refused { IfErr result (StopsAt (least (all_flow_refusals reading.old.types points.now states.now effective.now))) }
    ensures told { IfErr result (Tells (all_flow_refusals reading.old.types points.now states.now effective.now) reading.new.refusals) }
{
    reading.refusals.clear();
    let flows = flows_of(alloc, effective, reading, points, states)?;
    reading.refusals.settle()?;
    Ok(flows)
}

/// The composite clauses of a component, whose refusals are tested.
fn composites<'a>(
    alloc: Global,
    effective: &Effective<'a>,
    reading: &mut Reading<'_, 'a>,
    points: &Points<'a>,
    states: &States<'a>,
    below: &BelowKind<'_, '_, '_, 'a>,
) -> Answer<List<ClauseMeaning>>
    ensures kept { reading.new.types ≡ reading.old.types }
    ensures clauses { IfOk result (λ clauses. clauses ≡ clauses_of (states_below below.now.tree.profile below.now.tree.packages below.now.tree.kinds (Some below.now.classifier)) reading.old.types points.now states.now effective.now) }
    ensures accepted { OnOk result (least (composite_clause_refusals (states_below below.now.tree.profile below.now.tree.packages below.now.tree.kinds (Some below.now.classifier)) reading.old.types points.now states.now effective.now) ≡ None) }
    ensures refused { IfErr result (StopsAt (least (composite_clause_refusals (states_below below.now.tree.profile below.now.tree.packages below.now.tree.kinds (Some below.now.classifier)) reading.old.types points.now states.now effective.now))) }
    ensures told { IfErr result (Tells (composite_clause_refusals (states_below below.now.tree.profile below.now.tree.packages below.now.tree.kinds (Some below.now.classifier)) reading.old.types points.now states.now effective.now) reading.new.refusals) }
{
    reading.refusals.clear();
    let clauses = clauses_of(alloc, effective, reading, points, states, below)?;
    reading.refusals.settle()?;
    Ok(clauses)
}
