ghost use Rattle.std.specs.Prelude.{◌≡◌, ◌&&◌, ◌++◌, IfOk, OnOk, is_none, option_map, option_to_list};
ghost use Rattle.noted_refusals.specs.inner.Noted.{noting};
ghost use Rattle.plain_values.specs.declared.refusal.Code.TheVariants.{Others};
ghost use Rattle.plain_values.specs.Refusal.{refused_so};
ghost use Rattle.profiles.specs.Profiles.{is_first};
ghost use Rattle.propagation_points.specs.Settings.{clause_setting};
ghost use Rattle.propagation_points.specs.States.{held_numbers};
ghost use Rattle.composite_states.specs.Composites.{clause_refusals, clause_of, clauses_in, clauses_of, composite_clause_refusals, condition_of, fails_at, fails_in, is_not_initial, others_cause, perhaps_refusals, refusals_in};

use crate::below::{CompositePlace, StatesBelow};
use crate::meaning::ClauseMeaning;
use aadl_syntax::{Composite, Condition};
use component_extension::{Effective, InClause};
use error_conditions::{Cause, Side, cause_of};
use error_libraries::Scope;
use error_machines::States;
use error_types::Reading;
use noted_refusals::Refusals;
use plain_values::{Code, List, Mem};
use profiles::Profile;
use propagation_points::{Held, Points, Setting, scopes_of};
use std::alloc::Global;

/// The composite clauses of a component, and what is around them: its points and states, the texts of its clauses, and what lies
/// below it.
#[derive(Drop)]
struct Around<'s, 'a, B> {
    points: &'s Points<'a>,
    states: &'s States<'a>,
    scopes: &'s [Scope],
    below: &'s B,
    composites: &'s [InClause<'a, Composite>],
}

/// The composite clauses of a component with these points and states, in order, over the states of the components below.
///
/// Their refusals are noted: N13 at a name that leads to no component below, N11 at a state that is none, N9 at a point that is
/// none, N10 at a set with a type that is not declared for its side or its state, and by the first profile P5 at each `orless`, P6 at each
/// `noerror` in a condition, and P7 at each clause of `others` to a state that is not initial.
pub fn clauses_of<'a, B: StatesBelow<'a>>(
    alloc: Global,
    effective: &Effective<'a>,
    reading: &mut Reading<'_, 'a>,
    points: &Points<'a>,
    states: &States<'a>,
    below: &B,
) -> Mem<List<ClauseMeaning>>
    ensures kept { reading.new.types ≡ reading.old.types }
    ensures clauses { IfOk result (λ clauses. clauses ≡ clauses_of (B.states_at below.now) reading.old.types points.now states.now effective.now) }
    ensures noted { OnOk result (reading.new.refusals ≡ noting reading.old.refusals (composite_clause_refusals (B.states_at below.now) reading.old.types points.now states.now effective.now)) }
{
    let scopes = scopes_of(alloc, &reading.types, effective.clauses.items())?;
    let around = Around {
        points,
        states,
        scopes: scopes.items(),
        below,
        composites: effective.behavior.composites.items(),
    };
    clauses_in(alloc, reading, &around)
}

/// The meanings of clauses in these surroundings, in order. Their refusals are noted.
fn clauses_in<'s, 'a, B: StatesBelow<'a>>(
    alloc: Global,
    reading: &mut Reading<'_, 'a>,
    around: &Around<'s, 'a, B>,
) -> Mem<List<ClauseMeaning>>
    ensures kept { reading.new.types ≡ reading.old.types }
    ensures clauses { IfOk result (λ clauses. clauses ≡ clauses_in (B.states_at around.now.below.now) reading.old.types around.now.points.now around.now.states.now.sorts around.now.scopes.now around.now.composites.now) }
    ensures noted { OnOk result (reading.new.refusals ≡ noting reading.old.refusals (refusals_in (B.states_at around.now.below.now) reading.old.types around.now.points.now around.now.states.now around.now.scopes.now around.now.composites.now)) }
{
    let mut clauses = List::new(alloc);
    for composite in around.composites {
        let place = place_in(around, composite.scope());
        add_clause(
            alloc,
            &mut clauses,
            reading,
            around,
            &place,
            composite.item(),
        )?;
    }
    Ok(clauses)
}

/// The place of a condition of a clause, which has this number among the texts.
fn place_in<'s, 'a, B>(around: &Around<'s, 'a, B>, scope: usize) -> CompositePlace<'s, 'a, B>
    ensures { result ≡ record { setting = clause_setting around.now.points.now around.now.states.now.sorts around.now.scopes.now scope; below = around.now.below.now } }
{
    CompositePlace {
        setting: Setting::of_clause(around.points, &around.states.sorts, around.scopes, scope),
        below: around.below,
    }
}

/// Adds the meaning of a clause, if it has one. Its refusals are noted.
fn add_clause<'a, B: StatesBelow<'a>>(
    alloc: Global,
    clauses: &mut List<ClauseMeaning>,
    reading: &mut Reading<'_, 'a>,
    around: &Around<'_, 'a, B>,
    place: &CompositePlace<'_, 'a, B>,
    composite: &'a Composite,
) -> Mem<()>
    ensures kept { reading.new.types ≡ reading.old.types }
    ensures clauses { OnOk result (clauses.new ≡ clauses.old ++ clause_of (B.states_at place.now.below) place.now.setting reading.old.types (fails_in (B.states_at around.now.below.now) reading.old.types around.now.points.now around.now.states.now.sorts around.now.scopes.now around.now.composites.now) composite.now) }
    ensures noted { OnOk result (reading.new.refusals ≡ noting reading.old.refusals (clause_refusals (B.states_at place.now.below) place.now.setting reading.old.types around.now.states.now.initial composite.now)) }
{
    let condition = condition_of(alloc, reading, around, place, &composite.condition)?;
    let held = place.setting.refer(alloc, reading, &composite.target)?;
    let target = place.setting.place(&composite.target);
    let profile = reading.types.profile();
    let initial = around.states.initial.items();
    note_others(&mut reading.refusals, profile, initial, target, composite);
    add_meaning(alloc, clauses, held, condition)
}

/// Notes by the first profile P7 at a clause of `others` to this state, where it is not initial.
fn note_others(
    refusals: &mut Refusals,
    profile: Profile,
    initial: &[bool],
    target: Option<u32>,
    composite: &Composite,
)
    ensures { refusals.new ≡ noting refusals.old (refused_so (is_first profile && (is_none composite.now.condition && is_not_initial initial.now target)) Others composite.now.spot) }
{
    let is_wrong = composite.condition.is_none() && is_not_initial(initial, target);
    refusals.note_if(profile.is_first() && is_wrong, Code::Others, composite.spot);
}

fn add_meaning(
    alloc: Global,
    clauses: &mut List<ClauseMeaning>,
    held: Option<Held>,
    condition: Option<Cause>,
) -> Mem<()>
    ensures { OnOk result (clauses.new ≡ clauses.old ++ option_to_list (option_map (λ held. record { targets = held_numbers held; condition = condition }) held)) }
{
    if let Some(held) = held {
        let targets = held.numbers(alloc)?;
        clauses.push(ClauseMeaning { targets, condition })?;
    }
    Ok(())
}

fn is_not_initial(initial: &[bool], state: Option<u32>) -> bool
    ensures { result ≡ is_not_initial initial.now state }
{
    match state {
        Some(number) => match initial.get(number as usize) {
            Some(is_initial) => !*is_initial,
            None => false,
        },
        None => false,
    }
}

/// When a clause may hold, by its condition or else by `others`. Its refusals are noted.
fn condition_of<'a, B: StatesBelow<'a>>(
    alloc: Global,
    reading: &mut Reading<'_, 'a>,
    around: &Around<'_, 'a, B>,
    place: &CompositePlace<'_, 'a, B>,
    condition: &'a Option<Condition>,
) -> Mem<Option<Cause>>
    ensures kept { reading.new.types ≡ reading.old.types }
    ensures condition { IfOk result (λ found. found ≡ condition_of (B.states_at place.now.below) place.now.setting reading.old.types (fails_in (B.states_at around.now.below.now) reading.old.types around.now.points.now around.now.states.now.sorts around.now.scopes.now around.now.composites.now) condition.now) }
    ensures noted { OnOk result (reading.new.refusals ≡ noting reading.old.refusals (perhaps_refusals (B.states_at place.now.below) place.now.setting reading.old.types condition.now)) }
{
    match condition {
        Some(condition) => Ok(Some(cause_of(alloc, place, Side::Holds, reading, condition)?)),
        None => others_cause(alloc, reading, around),
    }
}

/// When `others` may hold among clauses. Nothing is noted: the refusals of their conditions are those of the clauses.
fn others_cause<'a, B: StatesBelow<'a>>(
    alloc: Global,
    reading: &mut Reading<'_, 'a>,
    around: &Around<'_, 'a, B>,
) -> Mem<Option<Cause>>
    ensures kept { reading.new.types ≡ reading.old.types }
    ensures others { IfOk result (λ found. found ≡ others_cause reading.old.types.profile (fails_in (B.states_at around.now.below.now) reading.old.types around.now.points.now around.now.states.now.sorts around.now.scopes.now around.now.composites.now)) }
    ensures noted { OnOk result (reading.new.refusals ≡ reading.old.refusals) }
{
    match reading.types.profile() {
        Profile::First => Ok(None),
        Profile::Second => {
            let noted = std::mem::replace(&mut reading.refusals, Refusals::new(alloc));
            let fails = fails_in(alloc, reading, around)?;
            reading.refusals = noted;
            Ok(Some(Cause::All(fails)))
        }
    }
}

/// Where the conditions of clauses may fail, in order.
fn fails_in<'a, B: StatesBelow<'a>>(
    alloc: Global,
    reading: &mut Reading<'_, 'a>,
    around: &Around<'_, 'a, B>,
) -> Mem<List<Cause>>
    ensures kept { reading.new.types ≡ reading.old.types }
    ensures fails { IfOk result (λ fails. fails ≡ fails_in (B.states_at around.now.below.now) reading.old.types around.now.points.now around.now.states.now.sorts around.now.scopes.now around.now.composites.now) }
{
    let mut fails = List::new(alloc);
    for composite in around.composites {
        let place = place_in(around, composite.scope());
        add_fails(
            alloc,
            &mut fails,
            reading,
            &place,
            &composite.item().condition,
        )?;
    }
    Ok(fails)
}

/// Adds where a condition may fail, if there is one.
fn add_fails<'a, B: StatesBelow<'a>>(
    alloc: Global,
    fails: &mut List<Cause>,
    reading: &mut Reading<'_, 'a>,
    place: &CompositePlace<'_, 'a, B>,
    condition: &'a Option<Condition>,
) -> Mem<()>
    ensures kept { reading.new.types ≡ reading.old.types }
    ensures fails { OnOk result (fails.new ≡ fails.old ++ fails_at (B.states_at place.now.below) place.now.setting reading.old.types condition.now) }
{
    if let Some(condition) = condition {
        fails.push(cause_of(alloc, place, Side::Fails, reading, condition)?)?;
    }
    Ok(())
}
