//! How many places formulas have, told before they are made; one over the limit stands for all that are greater.

ghost use Rattle.std.specs.Prelude.{◌≡◌, ◌+◌, ◌∷◌, [], ℕ, filter, flat_map, length, map};
ghost use Rattle.propagation_points.specs.Uses.{covers};
ghost use Rattle.model_facts.specs.Facts.{outward_of};
ghost use Rattle.fact_formulas.specs.Facts.{enter_formula, exit_formula, flow_or_link, kind_formula, linked_formula, linked_from, meaning_of, perhaps_at, state_formula};
ghost use Rattle.fact_formulas.specs.Flat.{all_places, places};
ghost use Rattle.fact_formulas.specs.Formulas.{all_flow_formulas, cause_formula, emission_formula, emission_formulas, flow_formula, flow_formulas, held_formula, origin_formula, step_formula};
ghost use Rattle.fact_formulas.specs.Numbered.{reached_inward, some_entering};
ghost use Rattle.flattener.specs.inner.Tables.{capped, flow_seen, places_of};

use crate::exits::covers;
use crate::facts::{arrival, inward_of, outward_of};
use crate::numbers::Numbers;
use crate::site::Site;
use error_behavior::{Emission, Origin, Step};
use error_conditions::Cause;
use error_flows::FlowMeaning;
use model_facts::{FactKey, FactKind};
use propagation_links::PointAt;
use propagation_points::{Held, ReachedPoint};

/// How many places all formulas of a model have.
pub(crate) fn all_places(numbers: &Numbers) -> u32
    ensures { result ≡ capped (all_places numbers.now) }
{
    let mut count = 0;
    for fact in numbers.facts() {
        count = plus(count, meaning_places(numbers, *fact));
    }
    count
}

/// Of two numbers of places the sum.
#[tactic(auto, using(crate::proofs::Caps::plus_over, crate::proofs::Caps::plus_within))]
fn plus(a: u32, b: u32) -> u32
    ensures { (m n : ℕ) → a ≡ capped m → b ≡ capped n → result ≡ capped (m + n) }
{
    let count = a as u64 + b as u64;
    if count > 4_194_304 {
        return 4_194_305;
    }
    count as u32
}

/// One place more.
fn one_more(count: u32) -> u32
    ensures { (n : ℕ) → count ≡ capped n → result ≡ capped (1 + n) }
{
    plus(1, count)
}

fn meaning_places(numbers: &Numbers, fact: FactKey) -> u32
    ensures { result ≡ capped (places (meaning_of numbers.now fact)) }
{
    let site = numbers.site(fact.owner);
    kind_places(&site, fact.kind)
}

fn kind_places(site: &Site, kind: FactKind) -> u32
    ensures { result ≡ capped (places (kind_formula site.now kind)) }
{
    match kind {
        FactKind::State(state) => state_places(site, state),
        FactKind::Enters(point, number) => enter_places(site, point, number),
        FactKind::Exits(point, number) => exit_places(site, point, number),
    }
}

fn state_places(site: &Site, state: u32) -> u32
    ensures { result ≡ capped (places (state_formula site.now state)) }
{
    let kind = site.kind();
    if kind.is_initial(state) {
        return 1;
    }
    if kind.model().is_composite {
        one_more(conditions_places(site, kind.conditions_to(state)))
    } else {
        one_more(steps_places(site, kind.steps_to(state)))
    }
}

fn conditions_places(site: &Site, causes: &[&Cause]) -> u32
    ensures { result ≡ capped (places_of (map (cause_formula site.now) (map (λ cause. cause.now) causes.now))) }
{
    let mut count = 0;
    for cause in causes {
        count = plus(count, cause_places(site, cause));
    }
    count
}

fn steps_places(site: &Site, steps: &[&Step]) -> u32
    ensures { result ≡ capped (places_of (map (step_formula site.now) (map (λ step. step.now) steps.now))) }
{
    let mut count = 0;
    for step in steps {
        count = plus(count, step_places(site, step));
    }
    count
}

fn step_places(site: &Site, step: &Step) -> u32
    ensures { result ≡ capped (places (step_formula site.now step.now)) }
{
    let origin = origin_places(site, &step.origin);
    one_more(plus(origin, cause_places(site, &step.trigger)))
}

fn origin_places(site: &Site, origin: &Origin) -> u32
    ensures { result ≡ capped (places (origin_formula site.now origin.now)) }
{
    match origin {
        Origin::Always => 1,
        Origin::From(held) => held_places(site, held),
    }
}

fn held_places(site: &Site, held: &Held) -> u32
    ensures { result ≡ capped (places (held_formula site.now held.now)) }
{
    match held {
        Held::One(_) => 1,
        Held::Any(states) => one_more(count_capped(states.items())),
    }
}

#[tactic(auto, using(crate::proofs::Caps::count_over, crate::proofs::Caps::count_within))]
fn count_capped(states: &[u32]) -> u32
    ensures { result ≡ capped (length states.now) }
{
    let count = states.len();
    if count > 4_194_304 {
        return 4_194_305;
    }
    count as u32
}

#[cycle(places)]
fn cause_places(site: &Site, cause: &Cause) -> u32
    ensures { result ≡ capped (places (cause_formula site.now cause.now)) }
{
    match cause {
        Cause::Event(_) => 1,
        Cause::State(_) => 1,
        Cause::Point(reached) => entering_places(site, reached),
        Cause::All(parts) => one_more(causes_places(site, parts.items())),
        Cause::Any(parts) => one_more(causes_places(site, parts.items())),
        Cause::AtLeast(_, parts) => one_more(causes_places(site, parts.items())),
    }
}

#[cycle(places)]
fn causes_places(site: &Site, causes: &[Cause]) -> u32
    ensures { result ≡ capped (places_of (map (cause_formula site.now) causes.now)) }
{
    let mut count = 0;
    for cause in causes {
        count = plus(count, cause_places(site, cause));
    }
    count
}

fn entering_places(site: &Site, reached: &ReachedPoint) -> u32
    ensures { result ≡ capped (places (some_entering site.now reached.now)) }
{
    one_more(reached_count(site, reached))
}

/// How many types are reached at the inward side of a point.
fn reached_count(site: &Site, reached: &ReachedPoint) -> u32
    ensures { result ≡ capped (length (reached_inward site.now reached.now)) }
{
    let mut count = 0;
    for number in site.inward_types(reached.point) {
        count = plus(count, covered(reached, *number));
    }
    count
}

/// One where a type is reached, and else none.
fn covered(reached: &ReachedPoint, number: u32) -> u32
    ensures { result ≡ capped (length (filter (covers reached.now.types) (number ∷ []))) }
{
    if reached.types.covers(number) { 1 } else { 0 }
}

fn enter_places(site: &Site, point: u32, number: u32) -> u32
    ensures { result ≡ capped (places (enter_formula site.now point number)) }
{
    match arrival(site, point, number) {
        Some(_) => 1,
        None => linked_places(site.numbers(), number, inward_of(site.owner(), point)),
    }
}

fn linked_places(numbers: &Numbers, number: u32, side: PointAt) -> u32
    ensures { result ≡ capped (places (linked_formula numbers.now number side)) }
{
    one_more(from_places(numbers, number, side))
}

fn from_places(numbers: &Numbers, number: u32, side: PointAt) -> u32
    ensures { result ≡ capped (places_of (flat_map (perhaps_at numbers.now number) (linked_from side numbers.now.assembly.links))) }
{
    let mut count = 0;
    for from in numbers.linked_from(side) {
        count = plus(count, places_at(numbers, number, *from));
    }
    count
}

/// One where a type may be at a side, and else none.
fn places_at(numbers: &Numbers, number: u32, side: PointAt) -> u32
    ensures { result ≡ capped (places_of (perhaps_at numbers.now number side)) }
{
    match numbers.number_at(number, side) {
        Some(_) => 1,
        None => 0,
    }
}

fn exit_places(site: &Site, point: u32, number: u32) -> u32
    ensures { result ≡ capped (places (exit_formula site.now point number)) }
{
    let emitted = emissions_places(site, number, site.kind().emissions_at(point));
    if emitted == 0 {
        return flow_or_link_places(site, point, number);
    }
    one_more(emitted)
}

fn emissions_places(site: &Site, number: u32, emissions: &[&Emission]) -> u32
    ensures { result ≡ capped (places_of (emission_formulas site.now number (map (λ emission. emission.now) emissions.now))) }
{
    let mut count = 0;
    for emission in emissions {
        count = plus(count, emission_part(site, number, emission));
    }
    count
}

/// How many places an outgoing condition adds, if it covers a type.
fn emission_part(site: &Site, number: u32, emission: &Emission) -> u32
    ensures { result ≡ capped (places_of (emission_formulas site.now number (emission.now ∷ []))) }
{
    if emission.reached.types.covers(number) {
        emission_places(site, emission)
    } else {
        0
    }
}

fn emission_places(site: &Site, emission: &Emission) -> u32
    ensures { result ≡ capped (places (emission_formula site.now emission.now)) }
{
    let origin = origin_places(site, &emission.origin);
    match &emission.trigger {
        Some(trigger) => one_more(plus(origin, cause_places(site, trigger))),
        None => one_more(origin),
    }
}

fn flow_or_link_places(site: &Site, point: u32, number: u32) -> u32
    ensures { result ≡ capped (places (flow_or_link site.now point number)) }
{
    let flowing = flows_places(site, number, site.kind().flows_at(point));
    if flowing == 0 {
        return link_places(site, point, number);
    }
    one_more(flowing)
}

/// How many places it has that a type comes along links to the outward side of a point.
fn link_places(site: &Site, point: u32, number: u32) -> u32
    ensures { result ≡ capped (places (linked_formula site.now.numbered number (outward_of site.now.owner point))) }
{
    linked_places(site.numbers(), number, outward_of(site.owner(), point))
}

fn flows_places(site: &Site, number: u32, flows: &[(u32, &FlowMeaning)]) -> u32
    ensures { result ≡ capped (places_of (all_flow_formulas site.now number (map flow_seen flows.now))) }
{
    let mut count = 0;
    for (place, flow) in flows {
        count = plus(count, flow_part(site, number, *place, flow));
    }
    count
}

/// How many places a flow adds, if it covers a type.
fn flow_part(site: &Site, number: u32, place: u32, flow: &FlowMeaning) -> u32
    ensures { result ≡ capped (places_of (flow_formulas site.now number place flow.now)) }
{
    if covers(site, number, flow) {
        flow_places(site, number, place, flow)
    } else {
        0
    }
}

fn flow_places(site: &Site, number: u32, place: u32, flow: &FlowMeaning) -> u32
    ensures { result ≡ capped (places (flow_formula site.now number place flow.now)) }
{
    match flow {
        FlowMeaning::Event(_, _) => 1,
        FlowMeaning::State(held, _) => held_places(site, held),
        FlowMeaning::Carry(_, _) => 1,
        FlowMeaning::Change(start, _, _) => entering_places(site, start),
    }
}
