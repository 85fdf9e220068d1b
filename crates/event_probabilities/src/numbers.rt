//! Bounds of numbers, as a text has them.

ghost use Rattle.std.specs.Prelude.{ℕ, ◌≤◌, ◌*◌, ◌^◌, IfSome, IsSomeAnd};
ghost use Rattle.decimals.specs.Decimals.{parts};
ghost use Rattle.decimals.specs.Numerals.{Number};
ghost use Rattle.decimals.specs.inner.Figures.{IsRead};
ghost use Rattle.event_probabilities.specs.EventRates.{IsModest};
ghost use Rattle.event_probabilities.specs.inner.EventRates.{IsNarrowSpan, IsSpanOf};

use decimals::Numeral;
use exponentials::Span;

/// The bounds of a number, in parts of the whole. None where it is more than any decimal.
pub fn span_of(number: Numeral, whole: u32) -> Option<Span>
    ensures span { (read : Number) → IsRead read number → IfSome result (IsSpanOf whole read) }
    ensures narrow { (read : Number) (places : ℕ) → IsRead read number → read.lowered ≤ places → places ≤ whole → whole ≤ 4000000020 → IsModest read
        → IsSomeAnd result (IsNarrowSpan whole places read) }
{
    let Some(low) = number.down(whole) else {
        return None;
    };
    let Some(high) = number.up(whole) else {
        return None;
    };
    Some(Span { low, high })
}
