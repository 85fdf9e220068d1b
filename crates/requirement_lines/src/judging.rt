//! The verdicts on requirements whose names are numbers.

ghost use Rattle.std.specs.Prelude.{◌≡◌, ◌<◌, ◌≤◌, ◌↔◌, ℕ, IfErr, IfOk, IfSome, MatchOption, OnOk, length, take};
ghost use Rattle.std.specs.List.{AllByRecursion, AllZip};
ghost use Rattle.fault_system.specs.Truth.{Has, member};
ghost use Rattle.backward_slice.specs.Slices.{IsServed, IsSlice};
ghost use Rattle.requirement_names.specs.inner.Named.{FitsModel, FitsSentence, FitsSets};
ghost use Rattle.requirement_names.specs.declared.named.NamedSentence.TheVariants.{OfSets, Probability};
ghost use Rattle.requirement_verdicts.specs.Meanings.{HoldsAnyway, MayHold};
ghost use Rattle.requirement_verdicts.specs.Verdicts.{IsVerdict};
ghost use Rattle.probability_verdicts.specs.Verdicts.{IsProbabilityVerdict};
ghost use Rattle.requirement_lines.specs.Rulings.{IsRulingOn};
ghost use Rattle.requirement_lines.specs.inner.Found.{IsFoundFor};
ghost use Rattle.requirement_lines.specs.inner.Judged.{AreUnjudged, IsAt, IsJudgedSo, IsLarge, KnowsFacts};

use crate::found::{Found, forget_if_full};
use crate::judgement::Judgement;
use crate::ruling::Ruling;
use crate::told::RequirementFault;
use backward_slice::{Slice, slice};
use dependency_blocks::{Blocks, blocks};
use fault_system::{Bits, FaultSystem};
use forbidden_sets::{Judged, first_forbidden};
use plain_values::{List, Mem, Stop, copied};
use probability_verdicts::{ProbabilityVerdict, early_probability, late_probability};
use property_reader::Rate;
use requirement_names::{NamedRequirement, NamedSentence, SetSentence};
use requirement_verdicts::{Verdict, early_verdict, late_verdict};
use requirements::PlacedWord;
use std::alloc::Global;

/// What is known of a system.
#[derive(Clone, Copy)]
pub(crate) struct Known<'a> {
    /// The rates of its events.
    pub rates: &'a [Rate],
    /// The facts that hold under no event.
    pub always: &'a Bits,
    /// The facts that hold under some events.
    pub perhaps: &'a Bits,
}

/// The verdicts on some requirements, in their order.
pub(crate) fn all_judged(
    alloc: Global,
    system: &FaultSystem,
    rates: &[Rate],
    all: &[NamedRequirement],
) -> Result<List<Judgement>, RequirementFault>
    requires { AllByRecursion (FitsModel system.now) all.now }
    ensures judged { IfOk result (λ judgements. AllZip (IsJudgedSo system.now rates.now) all.now judgements) }
    ensures unjudged { IfErr result (AreUnjudged system.now rates.now all.now) }
{
    let always = anyway_facts(alloc, system)?;
    let perhaps = possible_facts(alloc, system)?;
    let known = Known {
        rates,
        always: &always,
        perhaps: &perhaps,
    };
    each_judged(alloc, system, &known, all)
}

/// The facts that hold under no event.
fn anyway_facts(alloc: Global, system: &FaultSystem) -> Mem<Bits>
    ensures { IfOk result (λ facts. (n : ℕ) → Has (member facts) n ↔ HoldsAnyway system.now n) }
{
    let none = Bits::new(alloc, system.events())?;
    let facts = system.holds(alloc, &none)?;
    Ok(facts)
}

/// The facts that hold under some events.
fn possible_facts(alloc: Global, system: &FaultSystem) -> Mem<Bits>
    ensures { IfOk result (λ facts. (n : ℕ) → Has (member facts) n ↔ MayHold system.now n) }
{
    let all = all_events(alloc, system)?;
    let facts = system.holds(alloc, &all)?;
    Ok(facts)
}

/// All events of a system.
fn all_events(alloc: Global, system: &FaultSystem) -> Mem<Bits>
    ensures size { IfOk result (λ bits. length bits ≡ length system.now.events) }
    ensures all { IfOk result (λ bits. (n : ℕ) → n < length system.now.events → Has (member bits) n) }
{
    let count = system.events();
    let mut events = Bits::new(alloc, count)?;
    for event in 0..count {
        events.put(event);
    }
    Ok(events)
}

/// The verdicts on some requirements, in their order, where this is known of the facts.
fn each_judged(
    alloc: Global,
    system: &FaultSystem,
    known: &Known<'_>,
    all: &[NamedRequirement],
) -> Result<List<Judgement>, RequirementFault>
    requires fits { AllByRecursion (FitsModel system.now) all.now }
    requires known { KnowsFacts system.now known.now }
    ensures judged { IfOk result (λ judgements. AllZip (IsJudgedSo system.now known.now.rates.now) all.now judgements) }
    ensures unjudged { IfErr result (AreUnjudged system.now known.now.rates.now all.now) }
{
    let mut found = Found::new(alloc);
    let mut judgements = List::new(alloc);
    while let Some(named) = next_of(all, &judgements) {
        judge_next(
            alloc,
            system,
            known,
            named,
            all,
            &mut judgements,
            &mut found,
        )?;
    }
    Ok(judgements)
}

/// Adds the verdicts on the next requirement and on those behind it that speak of the same target, of which the slice is made once.
fn judge_next(
    alloc: Global,
    system: &FaultSystem,
    known: &Known<'_>,
    named: &NamedRequirement,
    all: &[NamedRequirement],
    judgements: &mut List<Judgement>,
    found: &mut Found,
) -> Result<(), RequirementFault>
    requires fits { AllByRecursion (FitsModel system.now) all.now }
    requires known { KnowsFacts system.now known.now }
    requires found { IsFoundFor system.now found.old }
    requires next { IsAt all.now (length judgements.old) named.now }
    requires judged { AllZip (IsJudgedSo system.now known.now.rates.now) (take (length judgements.old) all.now) judgements.old }
    ensures found { IsFoundFor system.now found.new }
    ensures more { OnOk result (length judgements.old < length judgements.new) }
    ensures judged { OnOk result (AllZip (IsJudgedSo system.now known.now.rates.now) (take (length judgements.new) all.now) judgements.new) }
    ensures unjudged { IfErr result (AreUnjudged system.now known.now.rates.now all.now) }
{
    let part = slice_for(alloc, system, named.target, named.name.at)?;
    let parts = blocks(alloc, system, &part)?;
    let judgement = judge_part(alloc, system, known, &part, &parts, named, found)?;
    judgements.push(judgement)?;
    judge_further(alloc, system, known, &part, &parts, all, judgements, found)?;
    Ok(())
}

/// Adds the verdicts on the next requirements, as long as they speak of the target of this slice.
fn judge_further(
    alloc: Global,
    system: &FaultSystem,
    known: &Known<'_>,
    part: &Slice,
    parts: &Blocks,
    all: &[NamedRequirement],
    judgements: &mut List<Judgement>,
    found: &mut Found,
) -> Mem<()>
    requires slice { IsServed system.now part.now.target part.now }
    requires fits { AllByRecursion (FitsModel system.now) all.now }
    requires known { KnowsFacts system.now known.now }
    requires found { IsFoundFor system.now found.old }
    requires judged { AllZip (IsJudgedSo system.now known.now.rates.now) (take (length judgements.old) all.now) judgements.old }
    ensures found { IsFoundFor system.now found.new }
    ensures more { length judgements.old ≤ length judgements.new }
    ensures judged { AllZip (IsJudgedSo system.now known.now.rates.now) (take (length judgements.new) all.now) judgements.new }
{
    while let Some(named) = further(all, judgements, part.target) {
        let judgement = judge_part(alloc, system, known, part, parts, named, found)?;
        judgements.push(judgement)?;
    }
    Ok(())
}

/// The first requirement that is not judged, where it speaks of the target.
fn further<'a>(
    all: &'a [NamedRequirement],
    judgements: &List<Judgement>,
    target: u32,
) -> Option<&'a NamedRequirement>
    ensures there { IfSome result (λ named. IsAt all.now (length judgements.now) named.now) }
    ensures target { IfSome result (λ named. named.now.target ≡ target) }
{
    let named = next_of(all, judgements)?;
    if named.target == target {
        Some(named)
    } else {
        None
    }
}

/// The first requirement that is not judged, if there is one.
fn next_of<'a>(
    all: &'a [NamedRequirement],
    judgements: &List<Judgement>,
) -> Option<&'a NamedRequirement>
    ensures { MatchOption result (length all.now ≤ length judgements.now) (λ named. IsAt all.now (length judgements.now) named.now) }
{
    let made = judgements.items();
    requirement_at(all, made.len())
}

/// The requirement of this number, if there is one.
fn requirement_at(all: &[NamedRequirement], number: usize) -> Option<&NamedRequirement>
    ensures { MatchOption result (length all.now ≤ number) (λ named. IsAt all.now number named.now) }
{
    all.get(number)
}

/// The verdict on a requirement whose target has this slice with these blocks.
fn judge_part(
    alloc: Global,
    system: &FaultSystem,
    known: &Known<'_>,
    part: &Slice,
    parts: &Blocks,
    named: &NamedRequirement,
    found: &mut Found,
) -> Mem<Judgement>
    requires slice { IsServed system.now named.now.target part.now }
    requires fits { FitsModel system.now named.now }
    requires known { KnowsFacts system.now known.now }
    requires found { IsFoundFor system.now found.old }
    ensures found { IsFoundFor system.now found.new }
    ensures judged { IfOk result (IsJudgedSo system.now known.now.rates.now named.now) }
{
    forget_if_full(alloc, found);
    let name = copied(alloc, named.name.text.items())?;
    let ruling = ruling_on(alloc, system, known, part, parts, &named.sentence, found)?;
    Ok(Judgement { name, ruling })
}

/// The verdict on what a sentence says of the target of a slice.
fn ruling_on(
    alloc: Global,
    system: &FaultSystem,
    known: &Known<'_>,
    part: &Slice,
    parts: &Blocks,
    sentence: &NamedSentence,
    found: &mut Found,
) -> Mem<Ruling>
    requires slice { IsSlice system.now part.now.target part.now }
    requires fits { FitsSentence system.now sentence.now }
    requires known { KnowsFacts system.now known.now }
    requires found { IsFoundFor system.now found.old }
    ensures found { IsFoundFor system.now found.new }
    ensures ruling { IfOk result (IsRulingOn system.now known.now.rates.now part.now.target part.now.events sentence.now) }
{
    match sentence {
        NamedSentence::OfSets(sentence) => {
            sets_ruling(alloc, system, known, part, parts, sentence, found)
        }
        NamedSentence::Probability(most, hours) => {
            probability_ruling(alloc, system, known, part, most, hours)
        }
    }
}

/// The same, where the sentence speaks of sets of events.
fn sets_ruling(
    alloc: Global,
    system: &FaultSystem,
    known: &Known<'_>,
    part: &Slice,
    parts: &Blocks,
    sentence: &SetSentence,
    found: &mut Found,
) -> Mem<Ruling>
    requires slice { IsSlice system.now part.now.target part.now }
    requires fits { FitsSets system.now sentence.now }
    requires known { KnowsFacts system.now known.now }
    requires found { IsFoundFor system.now found.old }
    ensures found { IsFoundFor system.now found.new }
    ensures ruling { IfOk result (IsRulingOn system.now known.now.rates.now part.now.target part.now.events (OfSets sentence.now)) }
{
    let verdict = verdict_on(alloc, system, known, part, parts, sentence, found)?;
    Ok(Ruling::OfSets(verdict))
}

/// The same, where it speaks of a probability within so many hours.
fn probability_ruling(
    alloc: Global,
    system: &FaultSystem,
    known: &Known<'_>,
    part: &Slice,
    most: &PlacedWord,
    hours: &PlacedWord,
) -> Mem<Ruling>
    requires slice { IsSlice system.now part.now.target part.now }
    requires known { KnowsFacts system.now known.now }
    ensures { IfOk result (IsRulingOn system.now known.now.rates.now part.now.target part.now.events (Probability most.now hours.now)) }
{
    let verdict = verdict_within(alloc, system, known, part, most, hours)?;
    Ok(Ruling::OfProbability(verdict))
}

/// The verdict on the requirement that the target of a slice is at most as probable as this number says, within so many hours.
fn verdict_within(
    alloc: Global,
    system: &FaultSystem,
    known: &Known<'_>,
    part: &Slice,
    most: &PlacedWord,
    hours: &PlacedWord,
) -> Mem<ProbabilityVerdict>
    requires slice { IsSlice system.now part.now.target part.now }
    requires known { KnowsFacts system.now known.now }
    ensures { IfOk result (IsProbabilityVerdict system.now known.now.rates.now part.now.target part.now.events most.now.text hours.now.text) }
{
    let anyway = known.always.has(part.target);
    let possible = known.perhaps.has(part.target);
    if let Some(verdict) = early_probability(anyway, possible) {
        return Ok(verdict);
    }
    let number = most.text.items();
    let time = hours.text.items();
    late_probability(alloc, system, known.rates, part, number, time)
}

/// The slice of the target of a requirement whose name stands at this place.
fn slice_for(
    alloc: Global,
    system: &FaultSystem,
    target: u32,
    at: usize,
) -> Result<Slice, RequirementFault>
    requires { target < length system.now.facts }
    ensures slice { IfOk result (IsServed system.now target) }
    ensures large { IfErr result (IsLarge system.now target at) }
{
    match slice(alloc, system, target) {
        Ok(part) => Ok(part),
        Err(Stop::Memory) => Err(RequirementFault::Memory),
        Err(Stop::Refused(refusal)) => Err(RequirementFault::TooLarge(refusal, at)),
    }
}

/// The verdict on what a sentence says of the target of a slice.
fn verdict_on(
    alloc: Global,
    system: &FaultSystem,
    known: &Known<'_>,
    part: &Slice,
    parts: &Blocks,
    sentence: &SetSentence,
    found: &mut Found,
) -> Mem<Verdict>
    requires slice { IsSlice system.now part.now.target part.now }
    requires fits { FitsSets system.now sentence.now }
    requires known { KnowsFacts system.now known.now }
    requires found { IsFoundFor system.now found.old }
    ensures found { IsFoundFor system.now found.new }
    ensures verdict { IfOk result (IsVerdict system.now part.now.target sentence.now) }
{
    let always = known.always.has(part.target);
    let perhaps = known.perhaps.has(part.target);
    if let Some(verdict) = early_verdict(alloc, always, perhaps, sentence) {
        return Ok(verdict);
    }
    let judged = Judged {
        system,
        slice: part,
        blocks: parts,
    };
    let first = first_forbidden(
        alloc,
        &judged,
        sentence,
        &mut found.families,
        &mut found.store,
    )?;
    late_verdict(alloc, system, part.target, sentence, first)
}
