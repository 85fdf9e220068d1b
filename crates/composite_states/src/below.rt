ghost use Rattle.std.specs.Prelude.{◌≡◌, ◌++◌, [], ◌∷◌, IfOk, OnOk, Some, cond, is_none, map, option_copied};
ghost use Rattle.noted_refusals.specs.inner.Noted.{noting};
ghost use Rattle.package_index.specs.Names.{front};
ghost use Rattle.plain_values.specs.declared.refusal.Code.TheVariants.{UnknownState};
ghost use Rattle.plain_values.specs.Refusal.{refused_so};
ghost use Rattle.composite_states.specs.Below.{below_at, others_in, state_at, state_in, state_named, state_named_refusals, state_or_none, state_pair, unknown_refusals, variant_cause, variant_count};
ghost use Rattle.plain_values.specs.Numbered.{numbers_below};
ghost use Rattle.error_conditions.specs.Conditions.{Pair, always, held_cause, may_fail};
ghost use Rattle.error_conditions.specs.inner.Sides.{at_side};
ghost use Rattle.error_conditions.specs.declared.cause.Cause.TheVariants.{Any};

use aadl_syntax::{Atom, Identifier};
use error_conditions::{
    Atoms, Cause, Side, StateBelow, always, may_fail, note_no_errors, point_meaning, says_no_error,
};
use error_types::Reading;
use noted_refusals::Refusals;
use package_index::Words;
use plain_values::{Code, List, Mem, Spot};
use propagation_points::{Held, Setting, Sort, Sorts, is_number_in};
use std::alloc::{AllocError, Global};
use std::marker::Model;

/// The states of the components below a component.
pub trait StatesBelow<'a> {
    ghost use Rattle.std.specs.Prelude.{◌≡◌, List, Option, ℕ, option_copied};
    ghost use Rattle.propagation_points.specs.States.{Sort as Seen};

    ghost states_at: { Self → List (List ℕ) → Option (List Seen) };

    /// The states of the component to which these names of subcomponents lead; `None` where they lead to none.
    fn states_at(&self, path: &[Identifier]) -> Option<&Sorts<'a>>
        ensures { option_copied result ≡ states_at self.now path.now };
}

/// Where a condition of composite states stands: the points and the states of the component, the text in which it is read, and
/// what lies below the component.
#[derive(Drop)]
pub(crate) struct CompositePlace<'s, 'a, B> {
    pub(crate) setting: Setting<'s, 'a>,
    pub(crate) below: &'s B,
}

impl<'s, 'a, B> Model for CompositePlace<'s, 'a, B> {
    ghost use Rattle.std.specs.Coded.{codes};
    ghost use Rattle.propagation_points.specs.contracts.side.Side as side;
    ghost use Rattle.composite_states.specs.inner.Below.{CompositePlace as Place};

    ghost Value = { Place B };

    ghost coded = { Prim.hlevel (codes, side.the_row.coded, B.code) };

    ghost view = { λ p. record { setting = p.setting; below = p.below.now } };
}

impl<'s, 'a, B: StatesBelow<'a>> Atoms for CompositePlace<'s, 'a, B> {
    ghost use Rattle.composite_states.specs.Below.{composite_refusals, composite_meaning};

    ghost meaning = { λ place. composite_meaning (B.states_at place.below) place.setting };

    ghost faults = { λ place. composite_refusals (B.states_at place.below) place.setting };

    #[tactic(auto, using(noted_refusals::proofs::Noting::noted_more))]
    fn meaning<'t>(
        &self,
        alloc: Global,
        side: Side,
        reading: &mut Reading<'_, 't>,
        atom: &'t Atom,
    ) -> Mem<Cause> {
        note_no_errors(&mut reading.refusals, reading.types.profile(), &atom.set);
        if atom.inward {
            return point_meaning(alloc, side, &self.setting, reading, atom);
        }
        state_or_none(alloc, side, reading, &self.setting, self.below, atom)
    }
}

/// A side of the meaning of a named part that names a state of a component below, or that no error is there. Its refusals are noted.
fn state_or_none<'a, 't, B: StatesBelow<'a>>(
    alloc: Global,
    side: Side,
    reading: &mut Reading<'_, 't>,
    setting: &Setting,
    below: &B,
    atom: &'t Atom,
) -> Mem<Cause>
    ensures kept { reading.new.types ≡ reading.old.types }
    ensures meaning { IfOk result (λ cause. cause ≡ at_side side (state_or_none (B.states_at below.now) reading.old.types setting.now atom.now)) }
    ensures noted { OnOk result (reading.new.refusals ≡ noting reading.old.refusals (state_named_refusals (B.states_at below.now) reading.old.types setting.now atom.now)) }
{
    let no_error = says_no_error(alloc, &mut reading.types, setting.scope(), &atom.set)?;
    let cause = state_named(alloc, side, reading, setting, below, atom)?;
    Ok(or_no_error(alloc, side, no_error, cause))
}

/// A side of what may always hold and may always fail where this is so, and else means this.
fn or_no_error(alloc: Global, side: Side, is_so: bool, cause: Cause) -> Cause
    ensures { (meaning : Pair) → cause ≡ at_side side meaning → result ≡ at_side side (cond is_so (may_fail always) meaning) }
{
    if is_so {
        return may_fail(alloc, side, always(alloc));
    }
    cause
}

/// A side of the meaning of a named part that names a state of a component below. Its refusals are noted.
#[tactic(auto, using(noted_refusals::proofs::Noting::noted_more))]
fn state_named<'a, 't, B: StatesBelow<'a>>(
    alloc: Global,
    side: Side,
    reading: &mut Reading<'_, 't>,
    setting: &Setting,
    below: &B,
    atom: &'t Atom,
) -> Mem<Cause>
    ensures kept { reading.new.types ≡ reading.old.types }
    ensures meaning { IfOk result (λ cause. cause ≡ at_side side (state_named (B.states_at below.now) reading.old.types setting.now atom.now)) }
    ensures noted { OnOk result (reading.new.refusals ≡ noting reading.old.refusals (state_named_refusals (B.states_at below.now) reading.old.types setting.now atom.now)) }
{
    let names = atom.names.items();
    match known_state(below, names, atom.spot, &mut reading.refusals) {
        Some(state) => {
            let held = setting.held(alloc, reading, state, &atom.set)?;
            let count = variant_count(below_at(below, path_of(names)))?;
            state_pair(alloc, side, path_of(names), count, held)
        }
        None => Ok(may_fail(alloc, side, Cause::Any(List::new(alloc)))),
    }
}

/// How many variants the states of a component have, if there is the component; want of memory where a number has no room for
/// that.
fn variant_count(states: Option<&Sorts>) -> Mem<u32>
    ensures { IfOk result (λ count. count ≡ variant_count (option_copied states.entry)) }
{
    let count = match states {
        Some(states) => states.variants().len(),
        None => 0,
    };
    if count > 4_294_967_295 {
        return Err(AllocError);
    }
    Ok(count as u32)
}

/// A side of what it means that the component below to which names lead, whose states have so many variants, is in what is selected.
fn state_pair(alloc: Global, side: Side, path: &[Identifier], count: u32, held: Held) -> Mem<Cause>
    ensures { IfOk result (λ cause. cause ≡ at_side side (state_pair path.now count held)) }
{
    match side {
        Side::Holds => held_cause(alloc, path, held),
        Side::Fails => {
            let held = held.numbers(alloc)?;
            in_others(alloc, path, count, held.items())
        }
    }
}

/// That the component below to which names lead, whose states have so many variants, is in one that is not among these.
fn in_others(alloc: Global, path: &[Identifier], count: u32, held: &[u32]) -> Mem<Cause>
    ensures { IfOk result (λ cause. cause ≡ Any (map (variant_cause path.now) (others_in held.now (numbers_below count)))) }
{
    let mut parts = List::new(alloc);
    for number in 0..count {
        add_other(alloc, &mut parts, path, number, held)?;
    }
    Ok(Cause::Any(parts))
}

/// Adds that it is in the variant of a number, unless that is among these.
fn add_other(
    alloc: Global,
    parts: &mut List<Cause>,
    path: &[Identifier],
    number: u32,
    held: &[u32],
) -> Mem<()>
    ensures { OnOk result (parts.new ≡ parts.old ++ map (variant_cause path.now) (others_in held.now (number ∷ []))) }
{
    if is_number_in(held, number) {
        return Ok(());
    }
    parts.push(variant_cause(alloc, path, number)?)
}

/// The state that names mean. N13 or N11 is noted where they mean none.
fn known_state<'b, 'a, B: StatesBelow<'a>>(
    below: &'b B,
    names: &[Identifier],
    spot: Spot,
    refusals: &mut Refusals,
) -> Option<&'b Sort<'a>>
    ensures state { option_copied result ≡ state_at (B.states_at below.now) names.now }
    ensures noted { refusals.new ≡ noting refusals.old (unknown_refusals names.now spot (below_at (B.states_at below.now) (front names.now))) }
{
    match below_at(below, path_of(names)) {
        Some(states) => state_in(states, names, spot, refusals),
        None => {
            refusals.note_if(true, Code::UnknownSubcomponent, spot);
            None
        }
    }
}

/// The states of the component below to which these names lead; without a name they lead to none.
fn below_at<'b, 'a, B: StatesBelow<'a>>(below: &'b B, path: &[Identifier]) -> Option<&'b Sorts<'a>>
    ensures { option_copied result ≡ below_at (B.states_at below.now) path.now }
{
    if path.len() == 0 {
        return None;
    }
    below.states_at(path)
}

/// The state that the last of the names names. N11 is noted where there is none.
fn state_in<'b, 'a>(
    states: &'b Sorts<'a>,
    names: &[Identifier],
    spot: Spot,
    refusals: &mut Refusals,
) -> Option<&'b Sort<'a>>
    ensures state { option_copied result ≡ state_in names.now (Some states.now) }
    ensures noted { refusals.new ≡ noting refusals.old (refused_so (is_none (state_in names.now (Some states.now))) UnknownState spot) }
{
    let state = last_of(states, names);
    refusals.note_if(state.is_none(), Code::UnknownState, spot);
    state
}

fn last_of<'b, 'a>(states: &'b Sorts<'a>, names: &[Identifier]) -> Option<&'b Sort<'a>>
    ensures { option_copied result ≡ state_in names.now (Some states.now) }
{
    states.find(Words::Identifiers(names).last()?)
}

/// The names before the last.
fn path_of(names: &[Identifier]) -> &[Identifier]
    ensures { result.now ≡ front names.now }
{
    match names.len() {
        0 => names,
        count => &names[..count - 1],
    }
}

/// That the component below to which names lead is in what is selected of a state.
fn held_cause(alloc: Global, path: &[Identifier], held: Held) -> Mem<Cause>
    ensures { IfOk result (λ cause. cause ≡ held_cause (variant_cause path.now) held) }
{
    match held {
        Held::One(number) => variant_cause(alloc, path, number),
        Held::Any(numbers) => any_variant(alloc, path, numbers.items()),
    }
}

fn any_variant(alloc: Global, path: &[Identifier], numbers: &[u32]) -> Mem<Cause>
    ensures { IfOk result (λ cause. cause ≡ Any (map (variant_cause path.now) numbers.now)) }
{
    let mut parts = List::new(alloc);
    for number in numbers {
        parts.push(variant_cause(alloc, path, *number)?)?;
    }
    Ok(Cause::Any(parts))
}

fn variant_cause(alloc: Global, path: &[Identifier], number: u32) -> Mem<Cause>
    ensures { IfOk result (λ cause. cause ≡ variant_cause path.now number) }
{
    Ok(Cause::State(StateBelow {
        path: copied(alloc, path)?,
        state: number,
    }))
}

fn copied(alloc: Global, names: &[Identifier]) -> Mem<List<Identifier>>
    ensures { IfOk result (λ copies. copies ≡ names.now) }
{
    let mut copies = List::new(alloc);
    for name in names {
        copies.push(Identifier::of(alloc, name.text())?)?;
    }
    Ok(copies)
}
