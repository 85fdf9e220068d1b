ghost use Rattle.std.specs.Prelude.{◌≡◌, ◌++◌, IfOk, OnOk, flat_map, option_copied, option_map, slice_get};
ghost use Rattle.noted_refusals.specs.inner.Noted.{noting};
ghost use Rattle.error_types.specs.Types.{text_scope};
ghost use Rattle.error_behavior.specs.Behavior.{behavior_refusals, behavior_of, behavior_with, clause_emissions, clause_outgoing_refusals, clause_steps, clause_transition_refusals, decl_refusals, refusals_with, machine_refusals, machine_steps, step_refusals, texts_of};
ghost use Rattle.error_machines.specs.States.{states_of};
ghost use Rattle.error_behavior.specs.Steps.{step_of, transition_refusals};

use crate::events::{events_of, note_clause_events, note_events};
use crate::steps::{Emission, Step};
use crate::transitions::{add_emission, add_step};
use crate::triggers::{TriggerPlace, Vocabulary};
use aadl_syntax::{MachineDecl, Outgoing, Transition};
use component_extension::{Effective, InClause};
use error_libraries::Scope;
use error_machines::UsedMachine;
use error_types::{Reading, TypeTable};
use noted_refusals::Refusals;
use plain_values::{Code, List, Mem};
use profiles::Profile;
use propagation_points::{Points, Sorts, scopes_of};
use std::alloc::Global;

/// The error behavior of a component: its events, whose variants are numbered by their places, from 0; its steps, those of
/// its machine first; and its emissions.
#[derive(Drop)]
pub struct ErrorBehavior<'a> {
    pub events: Sorts<'a>,
    pub steps: List<Step>,
    pub emissions: List<Emission>,
}

/// The texts of a component: that of its machine, if it uses one, and those of its clauses.
#[derive(Drop)]
pub struct Texts {
    pub machine: Option<Scope>,
    pub clauses: List<Scope>,
}

/// The error behavior of a component that uses this machine, if it uses one. The names are those of its states.
///
/// The refusals are noted: P12 where the machine extends another, P11 where it uses transformations, by the first profile P8 at each recover or
/// repair event, N11 at a state that is none, N12 at a name of a trigger that is
/// neither an event nor a point with an inward side, N9 at a point that is none, N10 at a set with a type that is not declared
/// for its side, its state or its event, and by the first profile P5 at each `orless` and
/// P6 at each `noerror` in a condition.
pub fn behavior_of<'a>(
    alloc: Global,
    effective: &Effective<'a>,
    machine: &Option<UsedMachine<'a>>,
    states: &Sorts<'a>,
    reading: &mut Reading<'_, 'a>,
    points: &Points<'a>,
) -> Mem<ErrorBehavior<'a>>
    requires { states.now ≡ (states_of reading.old.types machine.now).sorts }
    ensures kept { reading.new.types ≡ reading.old.types }
    ensures behavior { IfOk result (λ behavior. behavior ≡ behavior_of reading.old.types points.now machine.now effective.now) }
    ensures noted { OnOk result (reading.new.refusals ≡ noting reading.old.refusals (behavior_refusals reading.old.types points.now machine.now effective.now)) }
{
    let texts = texts_of(alloc, &reading.types, machine, effective)?;
    let events = events_of(alloc, &mut reading.types, machine, effective, &texts)?;
    let words = Vocabulary::new(points, states, &events);
    let (steps, emissions) = meanings(alloc, reading, &words, &texts, machine, effective)?;
    Ok(ErrorBehavior {
        events: events.sorts,
        steps,
        emissions,
    })
}

/// The texts of a component.
fn texts_of(
    alloc: Global,
    types: &TypeTable<'_, '_>,
    machine: &Option<UsedMachine<'_>>,
    effective: &Effective<'_>,
) -> Mem<Texts>
    ensures { IfOk result (λ texts. texts ≡ texts_of types.now machine.now effective.now) }
{
    Ok(Texts {
        machine: machine_text(alloc, types, machine)?,
        clauses: scopes_of(alloc, types, effective.clauses.items())?,
    })
}

fn machine_text(
    alloc: Global,
    types: &TypeTable<'_, '_>,
    machine: &Option<UsedMachine<'_>>,
) -> Mem<Option<Scope>>
    ensures { IfOk result (λ scope. scope ≡ option_map (λ machine. text_scope types.now.packages machine.«package» machine.item.uses) machine.now) }
{
    match machine {
        Some(machine) => {
            let uses = machine.decl().uses.items();
            Ok(Some(types.text_scope(alloc, machine.package(), uses)?))
        }
        None => Ok(None),
    }
}

/// The steps and the emissions of a component with these words and texts. All refusals are noted.
#[tactic(auto, using(noted_refusals::proofs::Noting::noted_more))]
fn meanings<'s, 'a>(
    alloc: Global,
    reading: &mut Reading<'_, 'a>,
    words: &Vocabulary<'s, 'a>,
    texts: &'s Texts,
    machine: &Option<UsedMachine<'a>>,
    effective: &Effective<'a>,
) -> Mem<(List<Step>, List<Emission>)>
    ensures kept { reading.new.types ≡ reading.old.types }
    ensures steps { IfOk result (λ made. made.0 ≡ (behavior_with reading.old.types words.now texts.now machine.now effective.now).steps) }
    ensures emissions { IfOk result (λ made. made.1 ≡ (behavior_with reading.old.types words.now texts.now machine.now effective.now).emissions) }
    ensures noted { OnOk result (reading.new.refusals ≡ noting reading.old.refusals (refusals_with reading.old.types words.now texts.now machine.now effective.now)) }
{
    let steps = steps_of(alloc, reading, words, texts, machine, effective)?;
    let outgoing = effective.behavior.outgoing.items();
    let emissions = emissions_of(alloc, reading, words, texts, outgoing)?;
    Ok((steps, emissions))
}

/// The steps of a machine, and then those of clauses. All refusals but those of outgoing conditions are noted.
#[tactic(auto, using(noted_refusals::proofs::Noting::noted_more))]
fn steps_of<'s, 'a>(
    alloc: Global,
    reading: &mut Reading<'_, 'a>,
    words: &Vocabulary<'s, 'a>,
    texts: &'s Texts,
    machine: &Option<UsedMachine<'a>>,
    effective: &Effective<'a>,
) -> Mem<List<Step>>
    ensures kept { reading.new.types ≡ reading.old.types }
    ensures steps { IfOk result (λ steps. steps ≡ machine_steps reading.old.types words.now texts.now machine.now ++ clause_steps reading.old.types words.now texts.now effective.now.behavior.transitions) }
    ensures noted { OnOk result (reading.new.refusals ≡ noting reading.old.refusals (step_refusals reading.old.types words.now texts.now machine.now effective.now)) }
{
    let mut steps = machine_steps(alloc, reading, words, texts, machine)?;
    let profile = reading.types.profile();
    note_clause_events(
        &mut reading.refusals,
        profile,
        effective.behavior.events.items(),
    );
    let transitions = effective.behavior.transitions.items();
    add_clause_steps(alloc, &mut steps, reading, words, texts, transitions)?;
    Ok(steps)
}

/// The steps of a machine, if there is one. Its refusals are noted.
#[tactic(auto, using(noted_refusals::proofs::Noting::noted_more))]
fn machine_steps<'s, 'a>(
    alloc: Global,
    reading: &mut Reading<'_, 'a>,
    words: &Vocabulary<'s, 'a>,
    texts: &'s Texts,
    machine: &Option<UsedMachine<'a>>,
) -> Mem<List<Step>>
    ensures kept { reading.new.types ≡ reading.old.types }
    ensures steps { IfOk result (λ steps. steps ≡ machine_steps reading.old.types words.now texts.now machine.now) }
    ensures noted { OnOk result (reading.new.refusals ≡ noting reading.old.refusals (machine_refusals reading.old.types words.now texts.now machine.now)) }
{
    match machine {
        Some(machine) => {
            note_machine(
                &mut reading.refusals,
                reading.types.profile(),
                machine.decl(),
            );
            let place = words.place(machine_scope(texts));
            steps_at(alloc, reading, &place, machine.decl().transitions.items())
        }
        None => Ok(List::new(alloc)),
    }
}

pub(crate) fn machine_scope(texts: &Texts) -> Option<&Scope>
    ensures { option_copied result ≡ texts.now.machine }
{
    match &texts.machine {
        Some(scope) => Some(scope),
        None => None,
    }
}

pub(crate) fn clause_scope(texts: &Texts, number: usize) -> Option<&Scope>
    ensures { option_copied result ≡ slice_get texts.now.clauses number }
{
    texts.clauses.items().get(number)
}

/// Notes the refusals of a declared machine, but for its transitions.
#[tactic(auto, using(noted_refusals::proofs::Noting::noted_more))]
fn note_machine(refusals: &mut Refusals, profile: Profile, decl: &MachineDecl)
    ensures { refusals.new ≡ noting refusals.old (decl_refusals profile decl.now) }
{
    refusals.note_at(Code::MachineExtends, decl.extends);
    refusals.note_at(Code::Mapping, decl.transforms);
    note_events(refusals, profile, decl.events.items());
}

/// The steps of transitions that stand in one place. Their refusals are noted.
fn steps_at<'a>(
    alloc: Global,
    reading: &mut Reading<'_, 'a>,
    place: &TriggerPlace<'_, 'a>,
    transitions: &'a [Transition],
) -> Mem<List<Step>>
    ensures kept { reading.new.types ≡ reading.old.types }
    ensures steps { IfOk result (λ steps. steps ≡ flat_map (step_of place.now reading.old.types) transitions.now) }
    ensures noted { OnOk result (reading.new.refusals ≡ noting reading.old.refusals (flat_map (transition_refusals place.now reading.old.types) transitions.now)) }
{
    let mut steps = List::new(alloc);
    for transition in transitions {
        add_step(alloc, &mut steps, reading, place, transition)?;
    }
    Ok(steps)
}

/// Adds the steps of transitions of clauses. Their refusals are noted.
fn add_clause_steps<'s, 'a>(
    alloc: Global,
    steps: &mut List<Step>,
    reading: &mut Reading<'_, 'a>,
    words: &Vocabulary<'s, 'a>,
    texts: &'s Texts,
    transitions: &[InClause<'a, Transition>],
) -> Mem<()>
    ensures kept { reading.new.types ≡ reading.old.types }
    ensures steps { OnOk result (steps.new ≡ steps.old ++ clause_steps reading.old.types words.now texts.now transitions.now) }
    ensures noted { OnOk result (reading.new.refusals ≡ noting reading.old.refusals (clause_transition_refusals reading.old.types words.now texts.now transitions.now)) }
{
    for transition in transitions {
        let place = words.place(clause_scope(texts, transition.scope()));
        add_step(alloc, steps, reading, &place, transition.item())?;
    }
    Ok(())
}

/// The emissions of outgoing conditions of clauses. Their refusals are noted.
fn emissions_of<'s, 'a>(
    alloc: Global,
    reading: &mut Reading<'_, 'a>,
    words: &Vocabulary<'s, 'a>,
    texts: &'s Texts,
    outgoing: &[InClause<'a, Outgoing>],
) -> Mem<List<Emission>>
    ensures kept { reading.new.types ≡ reading.old.types }
    ensures emissions { IfOk result (λ emissions. emissions ≡ clause_emissions reading.old.types words.now texts.now outgoing.now) }
    ensures noted { OnOk result (reading.new.refusals ≡ noting reading.old.refusals (clause_outgoing_refusals reading.old.types words.now texts.now outgoing.now)) }
{
    let mut emissions = List::new(alloc);
    for condition in outgoing {
        let place = words.place(clause_scope(texts, condition.scope()));
        add_emission(alloc, &mut emissions, reading, &place, condition.item())?;
    }
    Ok(emissions)
}
