//! The probability of a target.

ghost use Rattle.std.specs.Prelude.{◌≡◌, Bool, IfOk, None, Some, option_copied};
ghost use Rattle.backward_slice.specs.Slices.{IsSlice};
ghost use Rattle.phases.specs.inner.Meets.{IsMemory, MeetsBut};
ghost use Rattle.probability_lines.specs.Gathered.{lines_of};
ghost use Rattle.probability_lines.specs.ProbabilityText.{lines_text};
ghost use Rattle.system_answers.specs.Probability.{TellsProbability};
ghost use Rattle.system_answers.specs.Texts.{probability_text};

use crate::cut_sets::find_slice;
use crate::target::find_target;
use backward_slice::Slice;
use fault_system::FaultSystem;
use order_bounds::target_bounds_to_order;
use phases::Status;
use plain_values::{Mem, Name};
use probability_lines::{lines_of, text_of};
use property_reader::Rate;
use std::alloc::Global;
use target_probabilities::{TargetBounds, target_bounds};

/// What is asked of a probability.
#[derive(Clone, Copy)]
pub struct ProbabilityForm<'a> {
    /// The hours, where they are given.
    pub hours: &'a Option<Name>,
    /// Whether the importance of each event is told.
    pub events: bool,
    /// The greatest number of events of a set, where the bounds are by such sets alone.
    pub max_order: Option<u32>,
}

/// The text of the probability of a target in a system whose events have these rates, in so many hours, if they are given: by all minimal cut
/// sets, with the importance of each event on which it depends, where that is asked for; or by those of at most so many events. Events without
/// a probability are named.
pub fn probability(
    alloc: Global,
    system: &FaultSystem,
    rates: &[Rate],
    target: &Name,
    form: ProbabilityForm<'_>,
) -> Result<Vec<u8>, Status>
    ensures { MeetsBut IsMemory (λ text. text.items) (probability_text target.now form.entry.hours.now form.entry.events form.entry.max_order system.now rates.now) result }
{
    let number = find_target(system, target)?;
    let part = find_slice(alloc, system, number)?;
    let text = text_for(alloc, system, rates, &part, form, false)?;
    Ok(text)
}

/// The text of the hours, where they are given.
fn hours_text(hours: &Option<Name>) -> Option<&[u8]>
    ensures { option_copied result ≡ hours.now }
{
    match hours {
        Some(text) => Some(text.items()),
        None => None,
    }
}

/// The text of the probability of the target of a slice, in which names may stand in quotes.
pub(crate) fn text_for(
    alloc: Global,
    system: &FaultSystem,
    rates: &[Rate],
    part: &Slice,
    form: ProbabilityForm<'_>,
    quoted: bool,
) -> Mem<Vec<u8>>
    requires { IsSlice system.now part.now.target part.now }
    ensures { IfOk result (λ text. TellsProbability quoted system.now rates.now part.now.target part.now.events form.entry.hours.now form.entry.events form.entry.max_order text.items) }
{
    let hours = hours_text(form.hours);
    match form.max_order {
        None => text_of_all(alloc, system, rates, part, hours, form.events, quoted),
        Some(most) => text_to_order(alloc, system, rates, part, hours, most, quoted),
    }
}

/// The text by all minimal cut sets.
fn text_of_all(
    alloc: Global,
    system: &FaultSystem,
    rates: &[Rate],
    part: &Slice,
    hours: Option<&[u8]>,
    asked: bool,
    quoted: bool,
) -> Mem<Vec<u8>>
    requires { IsSlice system.now part.now.target part.now }
    ensures { IfOk result (λ text. TellsProbability quoted system.now rates.now part.now.target part.now.events (option_copied hours.entry) asked None text.items) }
{
    let told = target_bounds(alloc, system, rates, part, hours, asked)?;
    text_told(alloc, system, part, hours, None, &told, quoted)
}

/// The text by those of at most so many events.
fn text_to_order(
    alloc: Global,
    system: &FaultSystem,
    rates: &[Rate],
    part: &Slice,
    hours: Option<&[u8]>,
    most: u32,
    quoted: bool,
) -> Mem<Vec<u8>>
    requires { IsSlice system.now part.now.target part.now }
    ensures { (asked : Bool) → IfOk result (λ text. TellsProbability quoted system.now rates.now part.now.target part.now.events (option_copied hours.entry) asked (Some most) text.items) }
{
    let told = target_bounds_to_order(alloc, system, rates, part, hours, most)?;
    text_told(alloc, system, part, hours, Some(most), &told, quoted)
}

/// The text of what is told of the target of a slice.
fn text_told(
    alloc: Global,
    system: &FaultSystem,
    part: &Slice,
    hours: Option<&[u8]>,
    most: Option<u32>,
    told: &TargetBounds,
    quoted: bool,
) -> Mem<Vec<u8>>
    ensures { IfOk result (λ text. text.items ≡ lines_text quoted told.now.whole (lines_of system.now (option_copied hours.entry) part.now.events told.now.found.items most told.now.bounds told.now.importances.items)) }
{
    let lines = lines_of(
        alloc,
        system,
        hours,
        part.events.items(),
        told.found.as_slice(),
        most,
        told.bounds,
        told.importances.as_slice(),
    )?;
    text_of(alloc, lines.items(), told.whole, quoted)
}
