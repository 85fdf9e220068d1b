ghost use Rattle.std.specs.Prelude.{◌≡◌, ◌++◌, ℕ, IfOk, OnOk, false, filter, map, nat_eq, slice_index_or};
ghost use Rattle.std.specs.HashMap.{get};
ghost use Rattle.fact_formulas.specs.Formulas.{branches_to, condition_to, conditions_to, emissions_at, end_of, flow_at, flows_at, steps_to};
ghost use Rattle.flattener.specs.inner.Tables.{AreConditions, AreEmissions, AreFlows, AreSteps, flow_seen, row_at, values};

use crate::rows::{add, at};
use composite_states::ClauseMeaning;
use error_behavior::{Emission, Step};
use error_conditions::Cause;
use error_flows::FlowMeaning;
use error_models::ErrorModel;
use plain_values::{List, Mem};
use std::alloc::Global;
use std::collections::HashMap;
use std::marker::Model;

/// The error model of a kind of components, with what leads to each state and out of each point. Contracts see the model.
#[derive(Drop)]
pub(crate) struct Kind<'m> {
    model: &'m ErrorModel<'m>,
    steps: HashMap<u32, List<&'m Step>>,
    conditions: HashMap<u32, List<&'m Cause>>,
    emissions: HashMap<u32, List<&'m Emission>>,
    flows: HashMap<u32, List<(u32, &'m FlowMeaning)>>,
}

impl<'m> Model for Kind<'m> {
    ghost use Rattle.std.specs.Coded.{codes};
    ghost use Rattle.aadl_syntax.specs.contracts.error_model.Condition as condition;
    ghost use Rattle.propagation_points.specs.contracts.side.Side as side;
    ghost use Rattle.error_conditions.specs.contracts.cause.Cause as cause;
    ghost use Rattle.error_models.specs.declared.model.ErrorModel.{ErrorModel as Seen};

    ghost Value = { Seen };

    ghost coded = { Prim.hlevel (codes, condition.the_row.coded, side.the_row.coded, cause.the_row.coded) };

    ghost use Rattle.std.specs.Prelude.{nat_eq};
    ghost use Rattle.std.specs.HashMap.{get};
    ghost use Rattle.flattener.specs.inner.Tables.{AreConditions, AreEmissions, AreFlows, AreSteps};

    ghost view = { λ k. k.model.now };

    ghost invariant = { λ k. AreSteps k.model.now.behavior.steps (get nat_eq k.steps) × AreConditions k.model.now.composites (get nat_eq k.conditions) × AreEmissions k.model.now.behavior.emissions (get nat_eq k.emissions) × AreFlows k.model.now.flows (get nat_eq k.flows) };
}

impl<'m> Kind<'m> {
    /// The kind of this error model.
    pub(crate) fn of(alloc: Global, model: &'m ErrorModel<'m>) -> Mem<Kind<'m>>
        ensures { IfOk result (λ kind. kind ≡ model.now) }
    {
        let steps = steps_of(alloc, model.behavior.steps.items())?;
        let conditions = conditions_of(alloc, model.composites.items())?;
        let emissions = emissions_of(alloc, model.behavior.emissions.items())?;
        let flows = flows_of(alloc, &model.flows)?;
        Ok(Kind {
            model,
            steps,
            conditions,
            emissions,
            flows,
        })
    }

    /// The error model.
    pub(crate) fn model(&self) -> &'m ErrorModel<'m>
        ensures { result.now ≡ self.now }
    {
        self.model
    }

    /// Whether a variant of a state always holds: that of an initial state.
    pub(crate) fn is_initial(&self, state: u32) -> bool
        ensures { result ≡ slice_index_or self.now.states.always state false }
    {
        match self.model.states.always.items().get(state as usize) {
            Some(initial) => *initial,
            None => false,
        }
    }

    /// The transitions to a state, one for each branch.
    pub(crate) fn steps_to(&self, state: u32) -> &[&'m Step]
        ensures { map (λ step. step.now) result.now ≡ steps_to state self.now.behavior.steps }
    {
        at(&self.steps, state)
    }

    /// The conditions of the clauses of composite states to a state.
    pub(crate) fn conditions_to(&self, state: u32) -> &[&'m Cause]
        ensures { map (λ cause. cause.now) result.now ≡ conditions_to state self.now.composites }
    {
        at(&self.conditions, state)
    }

    /// The outgoing conditions of a point.
    pub(crate) fn emissions_at(&self, point: u32) -> &[&'m Emission]
        ensures { map (λ emission. emission.now) result.now ≡ emissions_at point self.now.behavior.emissions }
    {
        at(&self.emissions, point)
    }

    /// The flows that come out of a point, with their places among the flows.
    pub(crate) fn flows_at(&self, point: u32) -> &[(u32, &'m FlowMeaning)]
        ensures { map flow_seen result.now ≡ flows_at point self.now.flows }
    {
        at(&self.flows, point)
    }
}

fn steps_of<'m>(alloc: Global, steps: &'m [Step]) -> Mem<HashMap<u32, List<&'m Step>>>
    ensures { IfOk result (λ rows. AreSteps steps.now (get nat_eq rows)) }
{
    let mut rows = HashMap::new(alloc);
    for step in steps {
        add_step(alloc, &mut rows, step)?;
    }
    Ok(rows)
}

/// Adds a transition to the row of each of its targets.
fn add_step<'m>(alloc: Global, rows: &mut HashMap<u32, List<&'m Step>>, step: &'m Step) -> Mem<()>
    ensures { OnOk result ((state : ℕ) → values (get nat_eq rows.new state) ≡ values (get nat_eq rows.old state) ++ branches_to state step.now) }
{
    for target in step.targets.items() {
        add(alloc, rows, *target, step)?;
    }
    Ok(())
}

fn conditions_of<'m>(
    alloc: Global,
    clauses: &'m [ClauseMeaning],
) -> Mem<HashMap<u32, List<&'m Cause>>>
    ensures { IfOk result (λ rows. AreConditions clauses.now (get nat_eq rows)) }
{
    let mut rows = HashMap::new(alloc);
    for clause in clauses {
        add_condition(alloc, &mut rows, clause)?;
    }
    Ok(rows)
}

/// Adds the condition of a clause to the row of each of its targets.
fn add_condition<'m>(
    alloc: Global,
    rows: &mut HashMap<u32, List<&'m Cause>>,
    clause: &'m ClauseMeaning,
) -> Mem<()>
    ensures { OnOk result ((state : ℕ) → values (get nat_eq rows.new state) ≡ values (get nat_eq rows.old state) ++ condition_to state clause.now) }
{
    match &clause.condition {
        Some(condition) => add_to(alloc, rows, clause.targets.items(), condition),
        None => Ok(()),
    }
}

/// Adds a condition to the row of each of these variants.
fn add_to<'m>(
    alloc: Global,
    rows: &mut HashMap<u32, List<&'m Cause>>,
    targets: &[u32],
    condition: &'m Cause,
) -> Mem<()>
    ensures { OnOk result ((state : ℕ) → values (get nat_eq rows.new state) ≡ values (get nat_eq rows.old state) ++ map (λ target. condition.now) (filter (λ target. nat_eq target state) targets.now)) }
{
    for target in targets {
        add(alloc, rows, *target, condition)?;
    }
    Ok(())
}

fn emissions_of<'m>(
    alloc: Global,
    emissions: &'m [Emission],
) -> Mem<HashMap<u32, List<&'m Emission>>>
    ensures { IfOk result (λ rows. AreEmissions emissions.now (get nat_eq rows)) }
{
    let mut rows = HashMap::new(alloc);
    for emission in emissions {
        add(alloc, &mut rows, emission.reached.point, emission)?;
    }
    Ok(rows)
}

fn flows_of<'m>(
    alloc: Global,
    flows: &'m List<FlowMeaning>,
) -> Mem<HashMap<u32, List<(u32, &'m FlowMeaning)>>>
    ensures { IfOk result (λ rows. AreFlows flows.now (get nat_eq rows)) }
{
    let mut rows = HashMap::new(alloc);
    for (number, flow) in flows.items().iter().enumerate() {
        add_flow(alloc, &mut rows, number as u32, flow)?;
    }
    Ok(rows)
}

fn add_flow<'m>(
    alloc: Global,
    rows: &mut HashMap<u32, List<(u32, &'m FlowMeaning)>>,
    number: u32,
    flow: &'m FlowMeaning,
) -> Mem<()>
    ensures { OnOk result ((point : ℕ) → map flow_seen (row_at (get nat_eq rows.new point)) ≡ map flow_seen (row_at (get nat_eq rows.old point)) ++ flow_at point number flow.now) }
{
    add(alloc, rows, end_of(flow), (number, flow))
}

/// The point out of which a flow comes.
fn end_of(flow: &FlowMeaning) -> u32
    ensures { result ≡ end_of flow.now }
{
    match flow {
        FlowMeaning::Event(_, reached) => reached.point,
        FlowMeaning::State(_, reached) => reached.point,
        FlowMeaning::Carry(_, end) => *end,
        FlowMeaning::Change(_, end, _) => *end,
    }
}
