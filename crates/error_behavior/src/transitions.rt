ghost use Rattle.std.specs.Prelude.{◌≡◌, ◌++◌, [], IfOk, OnOk, flat_map, option_and_then, option_map, option_to_list};
ghost use Rattle.noted_refusals.specs.inner.Noted.{noting};
ghost use Rattle.std.specs.Option.{option_map_or};
ghost use Rattle.propagation_points.specs.Settings.{state_refusals_in};
ghost use Rattle.propagation_points.specs.States.{held_numbers};
ghost use Rattle.error_behavior.specs.Steps.{emission_of, origin_refusals, origin_of, outgoing_refusals, perhaps_refusals, step_of, targets_of, transition_refusals, trigger_of};

use crate::steps::{Emission, Origin, Step};
use crate::triggers::TriggerPlace;
use aadl_syntax::{Condition, Outgoing, StateRef, Transition};
use error_conditions::{Cause, Side, cause_of};
use error_types::Reading;
use plain_values::{List, Mem};
use propagation_points::{Held, PointUse, ReachedPoint, Setting};
use std::alloc::Global;

/// From where a transition or an outgoing condition goes. The refusals of its state are noted.
fn origin_of<'a>(
    alloc: Global,
    reading: &mut Reading<'_, 'a>,
    setting: &Setting<'_, 'a>,
    state: &'a Option<StateRef>,
) -> Mem<Option<Origin>>
    ensures kept { reading.new.types ≡ reading.old.types }
    ensures origin { IfOk result (λ origin. origin ≡ origin_of reading.old.types setting.now state.now) }
    ensures noted { OnOk result (reading.new.refusals ≡ noting reading.old.refusals (origin_refusals reading.old.types setting.now state.now)) }
{
    match state {
        Some(state) => {
            let held = setting.refer(alloc, reading, state)?;
            Ok(held.map(|held| Origin::From(held)))
        }
        None => Ok(Some(Origin::Always)),
    }
}

/// The states to which a transition leads. The refusals of their names are noted.
fn targets_of<'a>(
    alloc: Global,
    reading: &mut Reading<'_, 'a>,
    setting: &Setting<'_, 'a>,
    targets: &'a [StateRef],
) -> Mem<List<u32>>
    ensures kept { reading.new.types ≡ reading.old.types }
    ensures targets { IfOk result (λ numbers. numbers ≡ targets_of reading.old.types setting.now targets.now) }
    ensures noted { OnOk result (reading.new.refusals ≡ noting reading.old.refusals (flat_map (state_refusals_in reading.old.types setting.now) targets.now)) }
{
    let mut numbers = List::new(alloc);
    for target in targets {
        let held = setting.refer(alloc, reading, target)?;
        add_held(&mut numbers, &held)?;
    }
    Ok(numbers)
}

fn add_held(numbers: &mut List<u32>, held: &Option<Held>) -> Mem<()>
    ensures { OnOk result (numbers.new ≡ numbers.old ++ option_map_or held_numbers held.now []) }
{
    match held {
        Some(Held::One(number)) => numbers.push(*number),
        Some(Held::Any(more)) => add_numbers(numbers, more.items()),
        None => Ok(()),
    }
}

fn add_numbers(numbers: &mut List<u32>, more: &[u32]) -> Mem<()>
    ensures { OnOk result (numbers.new ≡ numbers.old ++ more.now) }
{
    for number in more {
        numbers.push(*number)?;
    }
    Ok(())
}

/// Adds the step of a transition, if it has one. Its refusals are noted.
pub(crate) fn add_step<'a>(
    alloc: Global,
    steps: &mut List<Step>,
    reading: &mut Reading<'_, 'a>,
    place: &TriggerPlace<'_, 'a>,
    transition: &'a Transition,
) -> Mem<()>
    ensures kept { reading.new.types ≡ reading.old.types }
    ensures steps { OnOk result (steps.new ≡ steps.old ++ step_of place.now reading.old.types transition.now) }
    ensures noted { OnOk result (reading.new.refusals ≡ noting reading.old.refusals (transition_refusals place.now reading.old.types transition.now)) }
{
    if let Some(step) = step_of(alloc, reading, place, transition)? {
        steps.push(step)?;
    }
    Ok(())
}

/// The step of a transition, if it has one. Its refusals are noted.
#[tactic(auto, using(noted_refusals::proofs::Noting::noted_more))]
fn step_of<'a>(
    alloc: Global,
    reading: &mut Reading<'_, 'a>,
    place: &TriggerPlace<'_, 'a>,
    transition: &'a Transition,
) -> Mem<Option<Step>>
    ensures kept { reading.new.types ≡ reading.old.types }
    ensures step { IfOk result (λ step. option_to_list step ≡ step_of place.now reading.old.types transition.now) }
    ensures noted { OnOk result (reading.new.refusals ≡ noting reading.old.refusals (transition_refusals place.now reading.old.types transition.now)) }
{
    let origin = origin_of(alloc, reading, &place.setting, &transition.source.state)?;
    let trigger = cause_of(alloc, place, Side::Holds, reading, &transition.condition)?;
    let targets = targets_of(alloc, reading, &place.setting, transition.targets.items())?;
    Ok(step_from(origin, trigger, targets))
}

fn step_from(origin: Option<Origin>, trigger: Cause, targets: List<u32>) -> Option<Step>
    ensures { result ≡ option_map (λ origin. record { origin = origin; trigger = trigger; targets = targets }) origin }
{
    match origin {
        Some(origin) => Some(Step {
            origin,
            trigger,
            targets,
        }),
        None => None,
    }
}

/// When a trigger may hold, if there is one. Its refusals are noted.
fn trigger_of<'a>(
    alloc: Global,
    reading: &mut Reading<'_, 'a>,
    place: &TriggerPlace<'_, 'a>,
    condition: &'a Option<Condition>,
) -> Mem<Option<Cause>>
    ensures kept { reading.new.types ≡ reading.old.types }
    ensures trigger { IfOk result (λ trigger. trigger ≡ trigger_of place.now reading.old.types condition.now) }
    ensures noted { OnOk result (reading.new.refusals ≡ noting reading.old.refusals (perhaps_refusals place.now reading.old.types condition.now)) }
{
    match condition {
        Some(condition) => Ok(Some(cause_of(alloc, place, Side::Holds, reading, condition)?)),
        None => Ok(None),
    }
}

/// Adds the emission of an outgoing condition, if it has one. Its refusals are noted.
pub(crate) fn add_emission<'a>(
    alloc: Global,
    emissions: &mut List<Emission>,
    reading: &mut Reading<'_, 'a>,
    place: &TriggerPlace<'_, 'a>,
    outgoing: &'a Outgoing,
) -> Mem<()>
    ensures kept { reading.new.types ≡ reading.old.types }
    ensures emissions { OnOk result (emissions.new ≡ emissions.old ++ emission_of place.now reading.old.types outgoing.now) }
    ensures noted { OnOk result (reading.new.refusals ≡ noting reading.old.refusals (outgoing_refusals place.now reading.old.types outgoing.now)) }
{
    if let Some(emission) = emission_of(alloc, reading, place, outgoing)? {
        emissions.push(emission)?;
    }
    Ok(())
}

/// The emission of an outgoing condition, if it has one. Its refusals are noted.
#[tactic(auto, using(noted_refusals::proofs::Noting::noted_more))]
fn emission_of<'a>(
    alloc: Global,
    reading: &mut Reading<'_, 'a>,
    place: &TriggerPlace<'_, 'a>,
    outgoing: &'a Outgoing,
) -> Mem<Option<Emission>>
    ensures kept { reading.new.types ≡ reading.old.types }
    ensures emission { IfOk result (λ emission. option_to_list emission ≡ emission_of place.now reading.old.types outgoing.now) }
    ensures noted { OnOk result (reading.new.refusals ≡ noting reading.old.refusals (outgoing_refusals place.now reading.old.types outgoing.now)) }
{
    let origin = origin_of(alloc, reading, &place.setting, &outgoing.source.state)?;
    let trigger = trigger_of(alloc, reading, place, &outgoing.condition)?;
    let used = PointUse::new(&outgoing.point, true, &outgoing.set);
    let reached = place.setting.reached(alloc, reading, &used)?;
    Ok(emission_from(origin, trigger, reached))
}

fn emission_from(
    origin: Option<Origin>,
    trigger: Option<Cause>,
    reached: Option<ReachedPoint>,
) -> Option<Emission>
    ensures { result ≡ option_and_then (λ origin. option_map (λ reached. record { origin = origin; trigger = trigger; reached = reached }) reached) origin }
{
    Some(Emission {
        origin: origin?,
        trigger,
        reached: reached?,
    })
}
