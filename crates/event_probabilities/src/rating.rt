//! The rate of an event as bounds of its probability.

ghost use Rattle.std.specs.Prelude.{ℕ, ◌≡◌, ◌≤◌, ◌^◌, Option, Some};
ghost use Rattle.decimals.specs.Decimals.{parts};
ghost use Rattle.decimals.specs.Numerals.{Number, number_of};
ghost use Rattle.decimals.specs.inner.Figures.{IsRead, IsReadAs};
ghost use Rattle.property_reader.specs.declared.rate.RateKind.TheVariants.{Lambda, Prob};
ghost use Rattle.event_probabilities.specs.EventRates.{IsFound, IsNarrowFound, IsSharpWhereShort, IsUnknown};
ghost use Rattle.probabilities.specs.Decided.{FitsWhole};

use crate::finding::Found;
use crate::lambda::lambda_rate;
use decimals::Numeral;
use probabilities::Rate;
use property_reader::RateKind;

/// The bounds of an event's probability, and whether it has one; without one they are nothing and the whole.
#[derive(Clone, Copy)]
pub struct EventRate {
    pub rate: Rate,
    pub found: Found,
}

/// Nothing is known.
fn without(found: Found, whole: u32) -> EventRate
    ensures fits { FitsWhole whole result.rate }
    ensures sharp { IsSharpWhereShort whole result.rate }
    ensures unknown { IsUnknown whole result.rate }
    ensures found { result.found ≡ found }
{
    EventRate {
        rate: Rate::unknown(whole),
        found,
    }
}

/// What a number says as a probability.
fn prob_rate(number: Numeral, whole: u32) -> EventRate
    requires { whole ≤ 4000000000 }
    ensures fits { FitsWhole whole result.rate }
    ensures sharp { IsSharpWhereShort whole result.rate }
    ensures found { (read : Number) (hours : Option Number) → IsRead read number → IsFound whole Prob (Some read) hours result.found result.rate }
    ensures narrow { (read : Number) (hours : Option Number) → IsRead read number → IsNarrowFound whole Prob (Some read) hours result.found result.rate }
{
    let Some(high) = number.up(whole) else {
        return without(Found::NoProbability, whole);
    };
    if !high.is_part(whole) {
        return without(Found::NoProbability, whole);
    }
    let Some(low) = number.down(whole) else {
        return without(Found::NoProbability, whole);
    };
    EventRate {
        rate: Rate::between(low.within(whole), high, whole),
        found: Found::Rated,
    }
}

/// What a number says as a failure rate.
fn hourly_rate(number: Numeral, hours: Option<Numeral>, whole: u32) -> EventRate
    requires { whole ≤ 4000000000 }
    ensures fits { FitsWhole whole result.rate }
    ensures sharp { IsSharpWhereShort whole result.rate }
    ensures found { (read : Number) (given : Option Number) → IsRead read number → IsReadAs given hours → IsFound whole Lambda (Some read) given result.found result.rate }
    ensures narrow { (read : Number) (given : Option Number) → IsRead read number → IsReadAs given hours → IsNarrowFound whole Lambda (Some read) given result.found result.rate }
{
    match hours {
        Some(hours) => EventRate {
            rate: lambda_rate(number, hours, whole),
            found: Found::Rated,
        },
        None => without(Found::WithoutHours, whole),
    }
}

/// What a number says as a probability, or as a failure rate.
fn number_rate(kind: RateKind, number: Numeral, hours: Option<Numeral>, whole: u32) -> EventRate
    requires { whole ≤ 4000000000 }
    ensures fits { FitsWhole whole result.rate }
    ensures sharp { IsSharpWhereShort whole result.rate }
    ensures found { (read : Number) (given : Option Number) → IsRead read number → IsReadAs given hours → IsFound whole kind (Some read) given result.found result.rate }
    ensures narrow { (read : Number) (given : Option Number) → IsRead read number → IsReadAs given hours → IsNarrowFound whole kind (Some read) given result.found result.rate }
{
    match kind {
        RateKind::Prob => prob_rate(number, whole),
        RateKind::Lambda => hourly_rate(number, hours, whole),
    }
}

/// The bounds of the probability of an event, from its rate and so many hours, if they are given: of a probability its number,
/// of a failure rate 1 - e^(-lambda hours).
pub fn event_rate(kind: RateKind, text: &[u8], hours: Option<Numeral>, whole: u32) -> EventRate
    requires { whole ≤ 4000000000 }
    ensures fits { FitsWhole whole result.rate }
    ensures sharp { IsSharpWhereShort whole result.rate }
    ensures found { (given : Option Number) → IsReadAs given hours → IsFound whole kind (number_of text.now) given result.found result.rate }
    ensures narrow { (given : Option Number) → IsReadAs given hours → IsNarrowFound whole kind (number_of text.now) given result.found result.rate }
{
    match Numeral::read(text) {
        Some(number) => number_rate(kind, number, hours, whole),
        None => without(Found::NoProbability, whole),
    }
}
