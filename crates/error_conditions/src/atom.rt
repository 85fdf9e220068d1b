ghost use Rattle.std.specs.Prelude.{◌≡◌, IfOk, OnOk, cond, filter, flat_map, map, not, option_copied, option_map};
ghost use Rattle.noted_refusals.specs.inner.Noted.{noting};
ghost use Rattle.propagation_points.specs.Settings.{refusals_in};
ghost use Rattle.propagation_points.specs.Uses.{atom_use};
ghost use Rattle.plain_values.specs.Numbered.{numbers_below};
ghost use Rattle.error_libraries.specs.Search.{is_number_in};
ghost use Rattle.error_conditions.specs.Conditions.{always, held_cause, may_fail, no_error_at, no_error_refusals, point_cause, point_meaning, point_pair, rest_at, rest_of, says_no_error};
ghost use Rattle.error_conditions.specs.inner.Sides.{at_side};
ghost use Rattle.error_conditions.specs.declared.cause.Cause.TheVariants.{Any, Event};

use crate::cause::Cause;
use crate::side::Side;
use aadl_syntax::{Atom, Term, TypeSet};
use error_libraries::Scope;
use error_types::{Reading, TypeTable};
use noted_refusals::Refusals;
use plain_values::{Code, List, Mem};
use profiles::Profile;
use propagation_points::{Held, PointUse, Reach, ReachedPoint, Setting, is_number_in};
use std::alloc::Global;

/// What is always so.
pub fn always(alloc: Global) -> Cause
    ensures { result ≡ always }
{
    Cause::All(List::new(alloc))
}

/// A side of what holds by this cause, and may always fail.
pub fn may_fail(alloc: Global, side: Side, cause: Cause) -> Cause
    ensures { result ≡ at_side side (may_fail cause) }
{
    match side {
        Side::Holds => cause,
        Side::Fails => always(alloc),
    }
}

/// What is always so where this is so, and else this cause.
pub fn or_always(alloc: Global, is_so: bool, cause: Cause) -> Cause
    ensures { result ≡ cond is_so always cause }
{
    if is_so {
        return always(alloc);
    }
    cause
}

/// Whether a name with this set behind it says in a text that no error may be there.
pub fn says_no_error<'a>(
    alloc: Global,
    types: &mut TypeTable<'_, 'a>,
    scope: Option<&Scope>,
    set: &'a Option<TypeSet>,
) -> Mem<bool>
    ensures kept { types.new ≡ types.old }
    ensures so { IfOk result (λ so. so ≡ says_no_error types.old (option_copied scope.entry) set.now) }
{
    let Some(scope) = scope else {
        return Ok(false);
    };
    let Some(set) = set else {
        return Ok(false);
    };
    if types.profile().is_first() {
        return Ok(false);
    }
    types.has_no_error(alloc, scope, set)
}

/// A side of the meaning of a named part that names a point: one of the types that are reached there comes in, or perhaps none at
/// all. Its refusals are noted.
pub fn point_meaning<'a>(
    alloc: Global,
    side: Side,
    setting: &Setting,
    reading: &mut Reading<'_, 'a>,
    atom: &'a Atom,
) -> Mem<Cause>
    ensures kept { reading.new.types ≡ reading.old.types }
    ensures meaning { IfOk result (λ cause. cause ≡ at_side side (point_meaning reading.old.types setting.now atom.now)) }
    ensures noted { OnOk result (reading.new.refusals ≡ noting reading.old.refusals (refusals_in reading.old.types setting.now (atom_use atom.now))) }
{
    let no_error = says_no_error(alloc, &mut reading.types, setting.scope(), &atom.set)?;
    let used = PointUse::of_atom(atom);
    let reached = setting.reached(alloc, reading, &used)?;
    point_pair(alloc, &reading.types, side, no_error, reached)
}

/// A side of what it means that this is reached, perhaps or no error at all.
fn point_pair(
    alloc: Global,
    types: &TypeTable<'_, '_>,
    side: Side,
    no_error: bool,
    reached: Option<ReachedPoint>,
) -> Mem<Cause>
    ensures { IfOk result (λ cause. cause ≡ at_side side (point_pair types.now no_error reached)) }
{
    if !no_error {
        return Ok(may_fail(alloc, side, point_cause(alloc, reached)));
    }
    match side {
        Side::Holds => Ok(always(alloc)),
        Side::Fails => Ok(point_cause(alloc, rest_at(alloc, types, reached)?)),
    }
}

/// The types at the point that this does not mean.
fn rest_at(
    alloc: Global,
    types: &TypeTable<'_, '_>,
    reached: Option<ReachedPoint>,
) -> Mem<Option<ReachedPoint>>
    ensures { IfOk result (λ rest. rest ≡ option_map (rest_at types.now) reached) }
{
    match reached {
        Some(reached) => Ok(Some(ReachedPoint {
            point: reached.point,
            types: rest_of(alloc, types, &reached.types)?,
        })),
        None => Ok(None),
    }
}

/// The types of a side that this does not mean.
fn rest_of(alloc: Global, types: &TypeTable<'_, '_>, meant: &Reach) -> Mem<Reach>
    ensures { IfOk result (λ rest. rest ≡ rest_of types.now meant.now) }
{
    match meant {
        Reach::Whole => Ok(Reach::Only(List::new(alloc))),
        Reach::Only(meant) => {
            if meant.items().len() == 0 {
                return Ok(Reach::Whole);
            }
            Ok(Reach::Only(others(alloc, types.count(), meant.items())?))
        }
    }
}

/// The numbers below a count that are none of these, rising.
fn others(alloc: Global, count: u32, meant: &[u32]) -> Mem<List<u32>>
    ensures { IfOk result (λ others. others ≡ filter (λ number. not (is_number_in meant.now number)) (numbers_below count)) }
{
    let mut others = List::new(alloc);
    for number in 0..count {
        others.push_if(number, !is_number_in(meant, number))?;
    }
    Ok(others)
}

fn point_cause(alloc: Global, reached: Option<ReachedPoint>) -> Cause
    ensures { result ≡ point_cause reached }
{
    match reached {
        Some(reached) => Cause::Point(reached),
        None => Cause::Any(List::new(alloc)),
    }
}

/// Notes by the first profile P6 at each `noerror` of the set of a named part.
pub fn note_no_errors(refusals: &mut Refusals, profile: Profile, set: &Option<TypeSet>)
    ensures { refusals.new ≡ noting refusals.old (no_error_refusals profile set.now) }
{
    if let Some(set) = set {
        note_terms(refusals, profile, set.terms.items());
    }
}

fn note_terms(refusals: &mut Refusals, profile: Profile, terms: &[Term])
    ensures { refusals.new ≡ noting refusals.old (flat_map (no_error_at profile) terms.now) }
{
    for term in terms {
        note_term(refusals, profile, term);
    }
}

fn note_term(refusals: &mut Refusals, profile: Profile, term: &Term)
    ensures { refusals.new ≡ noting refusals.old (no_error_at profile term.now) }
{
    if let Term::NoError(spot) = term {
        refusals.note_if(profile.is_first(), Code::NoErrorCondition, *spot);
    }
}

/// What a name means that selects this of the events of a component.
pub fn event_cause(alloc: Global, held: Held) -> Mem<Cause>
    ensures { IfOk result (λ cause. cause ≡ held_cause Event held) }
{
    match held {
        Held::One(number) => Ok(Cause::Event(number)),
        Held::Any(numbers) => any_event(alloc, numbers.items()),
    }
}

fn any_event(alloc: Global, numbers: &[u32]) -> Mem<Cause>
    ensures { IfOk result (λ cause. cause ≡ Any (map Event numbers.now)) }
{
    let mut parts = List::new(alloc);
    for number in numbers {
        parts.push(Cause::Event(*number))?;
    }
    Ok(Cause::Any(parts))
}
