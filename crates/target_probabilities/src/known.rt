//! What is known of the probabilities of events.

ghost use Rattle.std.specs.Prelude.{◌≡◌, ◌≤◌, ℕ, List as Items, Option as Maybe, IfOk, length, map, option_copied, slice_get};
ghost use Rattle.decimals.specs.Numerals.{Number};
ghost use Rattle.decimals.specs.inner.Figures.{IsReadAs};
ghost use Rattle.galileo_writer.specs.TreeText.{rate_of};
ghost use Rattle.probabilities.specs.Decided.{FitsWhole};
ghost use Rattle.property_reader.specs.Rates.{conservative_rate};
ghost use Rattle.target_probabilities.specs.Probability.{AreKnown, IsRateKnown, all_found, bounds_known, hours_of};
ghost use Rattle.target_probabilities.specs.inner.Probable.{IsWellKnown};

use decimals::Numeral;
use dot_writer::is_mark;
use event_probabilities::{EventRate, Found, event_rate};
use fault_system::FaultSystem;
use plain_values::Mem;
use probabilities::Rate as EventBounds;
use property_reader::Rate;
use std::alloc::Global;

/// The number that the hours are, where they are given.
pub fn numeral_of(hours: Option<&[u8]>) -> Option<Numeral>
    ensures { IsReadAs (hours_of (option_copied hours.entry)) result }
{
    match hours {
        Some(text) => Numeral::read(text),
        None => None,
    }
}

/// Nothing is known of an event without a rate.
fn without_rate(whole: u32) -> EventRate
    ensures fits { FitsWhole whole result.rate }
    ensures known { (given : Maybe Number) → IsRateKnown whole conservative_rate given result }
{
    EventRate {
        rate: EventBounds::unknown(whole),
        found: Found::WithoutRate,
    }
}

/// What is known of an event of this rate.
fn rate_known(rate: &Rate, hours: Option<Numeral>, whole: u32) -> EventRate
    requires { whole ≤ 4000000000 }
    ensures fits { FitsWhole whole result.rate }
    ensures known { (given : Maybe Number) → IsReadAs given hours → IsRateKnown whole rate.now given result }
{
    if is_mark(rate.kind, rate.text.items()) {
        return EventRate {
            rate: EventBounds::unknown(whole),
            found: Found::WithoutRate,
        };
    }
    event_rate(rate.kind, rate.text.items(), hours, whole)
}

/// What is known of an event by its number.
fn event_known(rates: &[Rate], event: u32, hours: Option<Numeral>, whole: u32) -> EventRate
    requires { whole ≤ 4000000000 }
    ensures fits { FitsWhole whole result.rate }
    ensures known { (given : Maybe Number) → IsReadAs given hours → IsRateKnown whole (rate_of rates.now event) given result }
{
    match rate_at(rates, event) {
        Some(rate) => rate_known(rate, hours, whole),
        None => without_rate(whole),
    }
}

/// The rate of an event, by its number.
fn rate_at(rates: &[Rate], event: u32) -> Option<&Rate>
    ensures { option_copied result ≡ slice_get rates.now event }
{
    rates.get(event as usize)
}

/// What is known of each event of a system, by its number, from the rates and so many hours.
pub fn all_known(
    alloc: Global,
    system: &FaultSystem,
    rates: &[Rate],
    hours: Option<Numeral>,
    whole: u32,
) -> Mem<Vec<EventRate>>
    requires { whole ≤ 4000000000 }
    ensures { IfOk result (λ known. IsWellKnown whole system.now rates.now hours known.items) }
{
    let mut known = Vec::new(alloc);
    for event in 0..system.events() {
        known.push(event_known(rates, event, hours, whole))?;
    }
    Ok(known)
}

/// The bounds of the events' probabilities.
pub fn bounds_in(alloc: Global, known: &[EventRate]) -> Mem<Vec<EventBounds>>
    ensures { IfOk result (λ bounds. bounds.items ≡ bounds_known known.now) }
{
    let mut bounds = Vec::new(alloc);
    for its in known {
        bounds.push(its.rate)?;
    }
    Ok(bounds)
}

/// Whether the events have a probability.
pub fn found_in(alloc: Global, known: &[EventRate]) -> Mem<Vec<Found>>
    ensures { IfOk result (λ found. found.items ≡ all_found known.now) }
{
    let mut found = Vec::new(alloc);
    for its in known {
        found.push(its.found)?;
    }
    Ok(found)
}
