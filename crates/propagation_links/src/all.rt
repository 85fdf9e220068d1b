ghost use Rattle.std.specs.Prelude.{◌≡◌, ◌<◌, ◌≤◌, ◌^◌, ◌∷◌, [], length, None, Some, IfOk, IfErr, OnOk, MatchResult, map};
ghost use Rattle.plain_values.specs.inner.Stops.{StopsAt};
ghost use Rattle.propagation_links.specs.Bound.{all_bounds};
ghost use Rattle.propagation_links.specs.Links.{links_of};
ghost use Rattle.propagation_links.specs.Refused.{count_in, count_links, faults_group, first_fault, limit_refusal, links_group, links_refusal, refusals_in};
ghost use Rattle.propagation_links.specs.inner.Steps.{AllLinked, AreFew, IsFurther, Linked};
ghost use Rattle.instantiator.specs.Whole.{effective_in};
ghost use Rattle.plain_values.specs.Order.{least};
ghost use Rattle.noted_refusals.specs.inner.Noted.{TellsFirst, alone};

use crate::bound::{BoundTo, bounds_of};
use crate::bound_links::{add_all_bound, count_references};
use crate::counted::count_in;
use crate::further::Further;
use crate::link::Link;
use crate::links::add_links;
use crate::pointed::Pointed;
use crate::refused::note_faults;
use crate::tables::BindingTables;
use aadl_syntax::Identifier;
use component_extension::Effective;
use instantiator::Instance;
use noted_refusals::Refusals;
use plain_values::{Answer, Code, List, Mem, Place, Refusal, Stop};
use profiles::Profile;
use propagation_points::Points;
use std::alloc::Global;

/// The links of an instance under a profile, where `points` has the points of each of its kinds, in order.
///
/// For each component in order, its connections and then its user paths are taken, each in order; each gives the link
/// between its ends in the written direction, and a connection that goes both ways or is of an access then the other. A
/// from-end is the outward side of its point, or the inward side where the point is the component's own; a to-end is the
/// other. A link of which a side is not there is left out.
///
/// Behind these stand the links of bindings. For each component in order, first for its processor and then for its memory, the
/// outermost component on the way to it counts that has a binding of that kind with it as a target, and there the last such
/// binding. Each of its references in order that leads to a component gives the link from the point `bindings` of that to
/// the point `processor` or `memory` of the bound one, and then the one from there to `bindings`.
///
/// Under the second profile there are more behind these. Bindings in braces behind a subcomponent or a connection count too, each before
/// those of the sections of its component; a component for which no binding to a processor or to a memory counts takes the one that
/// counts for the nearest component around it; a virtual processor is bound to the processor in which it stands, unless a binding counts for
/// it; and a virtual bus, as a connection is, by its point `connection`, or else to the bus or processor in which it stands. By none of
/// these a component is bound to itself. Then, for each component, the binding of its function that counts for it
/// gives the links between `bindings` and its point `binding`. Then, for each connection for which a binding of connections counts,
/// each component that carries it, and each direction, there is the link from `bindings` to the to-end, from `bindings` to the point
/// `connection` of the component at the to-end, and from the from-end to `bindings`.
///
/// M14 where all components have more than 1,048,576 connections, user paths and references of bindings that count. Else the
/// first component decides of which anything is refused, and of that the first by place: N14 at an end that means nothing, P3
/// at an end of a connection with three names or more, P9 at each block of connection errors.
pub fn links_of<'a>(
    alloc: Global,
    profile: Profile,
    instance: &Instance<'_, 'a>,
    points: &[&Points<'a>],
    refusals: &mut Refusals,
) -> Answer<List<Link>>
    ensures links { IfOk result (λ links. links ≡ links_of profile instance.now (map (λ points. points.now) points.now)) }
    ensures accepted { OnOk result (links_refusal profile instance.now (map (λ points. points.now) points.now) ≡ None) }
    ensures refused { IfErr result (StopsAt (links_refusal profile instance.now (map (λ points. points.now) points.now))) }
    ensures told { IfErr result (TellsFirst (links_group profile instance.now (map (λ points. points.now) points.now)) refusals.new) }
{
    let pointed = Pointed::new(instance, points);
    test_links(profile, &pointed, refusals)?;
    let itself = itself(alloc)?;
    let tables = BindingTables::of(alloc, instance, &itself)?;
    let bounds = bounds_of(alloc, &tables)?;
    let further = Further::of(alloc, profile, &tables)?;
    test_limit(profile, &pointed, bounds.items(), &further, refusals)?;
    let mut links = connected(alloc, &pointed, refusals)?;
    add_all_bound(&mut links, &pointed, true, bounds.items())?;
    further.add_links(&mut links, &pointed)?;
    Ok(links)
}

/// A list of the empty path alone.
fn itself(alloc: Global) -> Mem<List<List<Identifier>>>
    ensures { IfOk result (λ paths. paths ≡ [] ∷ []) }
{
    let mut paths = List::new(alloc);
    paths.push(List::new(alloc))?;
    Ok(paths)
}

/// The links of the connections and paths of all components.
fn connected(alloc: Global, pointed: &Pointed, refusals: &mut Refusals) -> Answer<List<Link>>
    ensures linked { MatchResult result (AllLinked pointed.now) (StopsAt (first_fault pointed.now)) }
    ensures told { IfErr result (TellsFirst (faults_group pointed.now) refusals.new) }
{
    let mut links = List::new(alloc);
    for number in 0..pointed.instance().components().len() {
        add_component(&mut links, pointed, number as u32, refusals)?;
    }
    Ok(links)
}

/// Adds the links of the component of a number, unless anything is refused of it.
fn add_component(
    links: &mut List<Link>,
    pointed: &Pointed,
    number: u32,
    refusals: &mut Refusals,
) -> Answer<()>
    ensures linked { MatchResult result (λ _. Linked pointed.now number (effective_in pointed.now.instance number) links.old links.new) (StopsAt (least (refusals_in pointed.now number (effective_in pointed.now.instance number)))) }
    ensures told { IfErr result (TellsFirst (refusals_in pointed.now number (effective_in pointed.now.instance number)) refusals.new) }
{
    match pointed.instance().effective(number) {
        Some(effective) => add_effective(links, pointed, number, effective, refusals),
        None => Ok(()),
    }
}

fn add_effective<'a>(
    links: &mut List<Link>,
    pointed: &Pointed<'_, '_, 'a>,
    number: u32,
    effective: &Effective<'a>,
    refusals: &mut Refusals,
) -> Answer<()>
    ensures linked { MatchResult result (λ _. Linked pointed.now number effective.now links.old links.new) (StopsAt (least (refusals_in pointed.now number effective.now))) }
    ensures told { IfErr result (TellsFirst (refusals_in pointed.now number effective.now) refusals.new) }
{
    refusals.clear();
    note_faults(refusals, pointed, number, effective);
    refusals.settle()?;
    add_links(links, pointed, number, effective)?;
    Ok(())
}

/// Refuses where all components have too many connections and user paths alone, and notes that.
fn test_links(profile: Profile, pointed: &Pointed, refusals: &mut Refusals) -> Answer<()>
    ensures few { OnOk result (count_links pointed.now.instance ≤ 1048576) }
    ensures limit { IfErr result (StopsAt (limit_refusal profile pointed.now)) }
    ensures told { IfErr result (λ stop. TellsFirst (alone stop) refusals.new stop) }
{
    match within_links(profile, pointed) {
        Ok(()) => Ok(()),
        Err(refusal) => Err(refusals.only(Stop::Refused(refusal))),
    }
}

/// Refuses where all components have too many connections and user paths alone.
fn within_links(profile: Profile, pointed: &Pointed) -> Result<(), Refusal>
    ensures { MatchResult result (λ _. count_links pointed.now.instance ≤ 1048576) (λ refusal. limit_refusal profile pointed.now ≡ Some refusal) }
{
    Refusal::over_limit(
        count_links(pointed) > 1_048_576,
        Code::TooManyLinks,
        Place::Words,
    )
}

/// Refuses where all components have too many connections, user paths and references of these bindings, and notes that.
fn test_limit(
    profile: Profile,
    pointed: &Pointed,
    bounds: &[BoundTo],
    further: &Further,
    refusals: &mut Refusals,
) -> Answer<()>
    requires bounds { bounds.now ≡ all_bounds pointed.now.instance }
    requires few { length bounds.now ≤ 8192 }
    requires further { IsFurther profile pointed.now.instance further.now }
    requires few_further { AreFew further.now }
    ensures limit { MatchResult result (λ _. limit_refusal profile pointed.now ≡ None) (StopsAt (limit_refusal profile pointed.now)) }
    ensures told { IfErr result (λ stop. TellsFirst (alone stop) refusals.new stop) }
{
    match within_limit(profile, pointed, bounds, further) {
        Ok(()) => Ok(()),
        Err(refusal) => Err(refusals.only(Stop::Refused(refusal))),
    }
}

/// Refuses where all components have too many connections, user paths and references of these bindings.
fn within_limit(
    profile: Profile,
    pointed: &Pointed,
    bounds: &[BoundTo],
    further: &Further,
) -> Result<(), Refusal>
    requires bounds { bounds.now ≡ all_bounds pointed.now.instance }
    requires few { length bounds.now ≤ 8192 }
    requires further { IsFurther profile pointed.now.instance further.now }
    requires few_further { AreFew further.now }
    ensures { MatchResult result (λ _. limit_refusal profile pointed.now ≡ None) (λ refusal. limit_refusal profile pointed.now ≡ Some refusal) }
{
    let count = count_links(pointed) + (count_references(bounds) + further.count());
    Refusal::over_limit(count > 1_048_576, Code::TooManyLinks, Place::Words)
}

/// How many connections and user paths all components have.
fn count_links(pointed: &Pointed) -> usize
    ensures count { result ≡ count_links pointed.now.instance }
    ensures few { result < 2 ^ 46 }
{
    let mut count = 0;
    for number in 0..pointed.instance().components().len() {
        count += count_at(pointed, number as u32);
    }
    count
}

fn count_at(pointed: &Pointed, number: u32) -> usize
    ensures count { result ≡ count_in (effective_in pointed.now.instance number) }
    ensures few { result < 2 ^ 33 }
{
    match pointed.instance().effective(number) {
        Some(effective) => count_in(effective),
        None => 0,
    }
}
