//! The verdict on a requirement over a probability.

ghost use Rattle.std.specs.Prelude.{◌≡◌, ◌↔◌, ℕ, IfOk, IsTrue, MatchOption, find, option_copied, slice_index_or};
ghost use Rattle.fault_system.specs.Systems.{System};
ghost use Rattle.backward_slice.specs.Slices.{IsSlice};
ghost use Rattle.decimals.specs.DecimalTexts.{decimal_text};
ghost use Rattle.decimals.specs.Numerals.{number_of};
ghost use Rattle.event_probabilities.specs.declared.finding.Found.TheVariants.{Rated};
ghost use Rattle.requirement_verdicts.specs.Meanings.{HoldsAnyway, MayHold};
ghost use Rattle.probability_verdicts.specs.inner.Verdicts.{IsEarlyVerdict};
ghost use Rattle.probability_verdicts.specs.Verdicts.{IsProbabilityVerdict, IsVerdictOfBound, IsVerdictOfBounds, first_unrated, is_unrated, is_without};

use crate::verdict::ProbabilityVerdict;
use backward_slice::Slice;
use compared_numbers::is_at_most;
use decimals::Decimal;
use event_probabilities::Found;
use fault_system::FaultSystem;
use plain_values::{List, Mem, Name};
use probabilities::Bounds;
use property_reader::Rate;
use std::alloc::Global;
use target_probabilities::{TargetBounds, target_bounds};

/// The verdict on a requirement over a probability, where no bounds need be found: its target never holds, or it holds without any event. It
/// is known whether it does.
pub fn early_probability(always: bool, perhaps: bool) -> Option<ProbabilityVerdict>
    ensures { (system : System) (target : ℕ) → (IsTrue always ↔ HoldsAnyway system target) → (IsTrue perhaps ↔ MayHold system target)
        → MatchOption result (MayHold system target × (HoldsAnyway system target → ⊥)) (IsEarlyVerdict system target) }
{
    if !perhaps {
        return Some(ProbabilityVerdict::Vacuous);
    }
    if always {
        return Some(ProbabilityVerdict::Anyway);
    }
    None
}

/// The verdict on the requirement that the target of a slice of a system, whose events have these rates, is at most as probable as this
/// number says, within so many hours; where the target holds under some events, and not without any.
pub fn late_probability(
    alloc: Global,
    system: &FaultSystem,
    rates: &[Rate],
    part: &Slice,
    most: &[u8],
    hours: &[u8],
) -> Mem<ProbabilityVerdict>
    requires slice { IsSlice system.now part.now.target part.now }
    requires perhaps { MayHold system.now part.now.target }
    requires some { HoldsAnyway system.now part.now.target → ⊥ }
    ensures { IfOk result (IsProbabilityVerdict system.now rates.now part.now.target part.now.events most.now hours.now) }
{
    let its = target_bounds(alloc, system, rates, part, Some(hours), false)?;
    verdict_of_bounds(alloc, part.events.items(), &its, most)
}

/// The verdict where these bounds are found, or none are.
fn verdict_of_bounds(
    alloc: Global,
    events: &[u32],
    its: &TargetBounds,
    most: &[u8],
) -> Mem<ProbabilityVerdict>
    ensures { IfOk result (IsVerdictOfBounds its.now.whole (number_of most.now) (first_unrated its.now.found.items events.now) its.now.bounds) }
{
    match its.bounds {
        None => Ok(ProbabilityVerdict::Large),
        Some(bounds) => {
            let event = first_unrated(its.found.as_slice(), events);
            verdict_of_bound(alloc, bounds.upper, its.whole, event, most)
        }
    }
}

/// The verdict where this is the upper bound, and this the first event without a probability.
fn verdict_of_bound(
    alloc: Global,
    upper: Decimal,
    whole: u32,
    event: Option<u32>,
    most: &[u8],
) -> Mem<ProbabilityVerdict>
    ensures { IfOk result (IsVerdictOfBound whole (number_of most.now) event upper) }
{
    if is_at_most(upper, most, whole) {
        return Ok(ProbabilityVerdict::Met);
    }
    let text = text_of(alloc, upper, whole)?;
    Ok(ProbabilityVerdict::Above(text, event))
}

/// The text of a decimal.
fn text_of(alloc: Global, decimal: Decimal, whole: u32) -> Mem<Name>
    ensures { IfOk result (λ text. text ≡ decimal_text whole decimal) }
{
    let mut text = Vec::new(alloc);
    decimal.push_to(&mut text, whole)?;
    List::of(text)
}

/// The first of some events that has no probability.
fn first_unrated(found: &[Found], events: &[u32]) -> Option<u32>
    ensures { result ≡ first_unrated found.now events.now }
{
    where_unrated(found, events).copied()
}

/// The same, where it stands.
fn where_unrated<'e>(found: &[Found], events: &'e [u32]) -> Option<&'e u32>
    ensures { option_copied result ≡ find (is_unrated found.now) events.now }
{
    events.iter().find(|event| is_unrated(found, **event))
}

/// Whether an event has no probability, by what is found of each.
fn is_unrated(found: &[Found], event: u32) -> bool
    ensures { result ≡ is_unrated found.now event }
{
    is_without(found_at(found, event))
}

/// Whether an event has no probability, by what is found of it.
fn is_without(found: Found) -> bool
    ensures { result ≡ is_without found }
{
    match found {
        Found::Rated => false,
        Found::WithoutRate => true,
        Found::WithoutHours => true,
        Found::NoProbability => true,
    }
}

/// What is found of an event by its number.
fn found_at(found: &[Found], number: u32) -> Found
    ensures { result ≡ slice_index_or found.now number Rated }
{
    match found.get(number as usize) {
        Some(found) => *found,
        None => Found::Rated,
    }
}
