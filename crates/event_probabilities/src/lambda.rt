//! The probability of an event that fails so often an hour.

ghost use Rattle.std.specs.Prelude.{ℕ, ◌≡◌, ◌≤◌, ◌+◌, ◌*◌, ◌^◌, IfSome, IsSomeAnd, min};
ghost use Rattle.decimals.specs.Decimals.{parts};
ghost use Rattle.decimals.specs.Numerals.{Number};
ghost use Rattle.decimals.specs.inner.Figures.{IsRead};
ghost use Rattle.exponentials.specs.inner.Spans.{AreChances, IsWithin};
ghost use Rattle.event_probabilities.specs.EventRates.{IsLambdaRate, IsModest, IsNarrowLambda, IsSharpWhereShort, IsSmallExposure, over, under};
ghost use Rattle.event_probabilities.specs.inner.EventRates.{IsNarrowExposure, IsNarrowSpan, IsSpanOf};
ghost use Rattle.exponentials.specs.inner.Widths.{IsNarrow};
ghost use Rattle.probabilities.specs.Decided.{FitsWhole};
ghost use Rattle.probabilities.specs.Widths.{IsNarrowRate};

use crate::numbers::span_of;
use decimals::Numeral;
use exponentials::{Chance, Span, chance_of};
use probabilities::Rate;

/// The bounds of a product, of which the second factor is in parts of a whole that is 20 zeros wider. None where it is above
/// 10,000,000,000,000.
fn product_of(lambda: Span, hours: Span, whole: u32) -> Option<Span>
    requires { whole ≤ 4000000000 }
    ensures product { (first second : Number) → IsSpanOf whole first lambda → IsSpanOf (whole + 20) second hours
        → IfSome result (IsWithin whole (over first second) (under first second)) }
    ensures narrow { (first second : Number) (p q : ℕ) → IsNarrowSpan whole p first lambda → IsNarrowSpan (whole + 20) q second hours → p + q ≤ whole
        → IsSmallExposure first second → IsSomeAnd result (IsNarrowExposure whole (p + q)) }
{
    let high = lambda.high.times_up(hours.high, whole + 20);
    if !high.is_part(whole + 13) {
        return None;
    }
    Some(Span {
        low: lambda.low.times_down(hours.low, whole + 20),
        high,
    })
}

/// The bounds of lambda times hours. None where one of them is more than any decimal, or the product is above 10,000,000,000,000.
fn exposure(lambda: Numeral, hours: Numeral, whole: u32) -> Option<Span>
    requires { whole ≤ 4000000000 }
    ensures exposure { (first second : Number) → IsRead first lambda → IsRead second hours
        → IfSome result (IsWithin whole (over first second) (under first second)) }
    ensures narrow { (first second : Number) (places : ℕ) → IsRead first lambda → IsRead second hours → first.lowered + second.lowered ≤ places → places ≤ whole
        → IsModest first → IsModest second → IsSmallExposure first second → IsSomeAnd result (IsNarrowExposure whole places) }
{
    let Some(first) = span_of(lambda, whole) else {
        return None;
    };
    let Some(second) = span_of(hours, whole + 20) else {
        return None;
    };
    product_of(first, second, whole)
}

/// The rate that bounds make, within the whole.
fn held(chance: Chance, whole: u32) -> Rate
    ensures fits { FitsWhole whole result }
    ensures low { parts result.low ≡ min (parts chance.span.low) (10 ^ whole) }
    ensures high { parts result.high ≡ min (parts chance.span.high) (10 ^ whole) }
    ensures sharp { IsSharpWhereShort whole result }
    ensures narrow { (places units : ℕ) → 36 ≤ places → 2 ≤ units → IsNarrow whole places units chance.span → IsNarrowRate whole places units result }
{
    Rate::between(
        chance.span.low.within(whole),
        chance.span.high.within(whole),
        whole,
    )
}

/// The rate of an event that fails so often an hour, within so many hours.
pub fn lambda_rate(lambda: Numeral, hours: Numeral, whole: u32) -> Rate
    requires { whole ≤ 4000000000 }
    ensures fits { FitsWhole whole result }
    ensures rate { (first second : Number) → IsRead first lambda → IsRead second hours → IsLambdaRate whole first second result }
    ensures narrow { (first second : Number) → IsRead first lambda → IsRead second hours → IsNarrowLambda whole first second result }
    ensures sharp { IsSharpWhereShort whole result }
{
    match exposure(lambda, hours, whole) {
        Some(x) => held(chance_of(x, whole), whole),
        None => Rate::unknown(whole),
    }
}
