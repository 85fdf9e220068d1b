//! What a number of a text comes to as decimals.

ghost use Rattle.std.specs.Prelude.{ℕ, ◌≡◌, ◌≤◌, ◌<◌, ◌+◌, ◌*◌, ◌^◌, ◌⊎◌, IfSome, None};
ghost use Rattle.decimals.specs.Numerals.{Number};
ghost use Rattle.decimals.specs.Decimals.{decimal_parts, number_parts};
ghost use Rattle.decimals.specs.inner.Figures.{AreFigures, IsRead};
ghost use Rattle.decimals.specs.Decimals.{parts, HasPlaces};
ghost use Rattle.decimals.specs.inner.Decimals.{IsCut, IsNear};

use crate::decimal::Decimal;
use crate::numeral::Numeral;
use crate::rounding::Side;

impl Numeral {
    /// At most the number, in parts of the whole; exactly it where it has 18 digits at most and no more places than the whole. None
    /// where it is more than any decimal.
    pub fn down(self, whole: u32) -> Option<Decimal>
        ensures down { (number : Number) → IsRead number self → IfSome result (λ x. decimal_parts number x ≤ number_parts whole number) }
        ensures exact { (number : Number) → IsRead number self → number.digits ≤ 999999999999999999 → number.lowered ≤ number.raised + whole
            → IfSome result (λ x. decimal_parts number x ≡ number_parts whole number) }
        ensures near { (number : Number) → IsRead number self → number.lowered ≤ number.raised + whole
            → IfSome result (λ x. IsNear (number_parts whole number) (decimal_parts number x)) }
        ensures places { (number : Number) → IsRead number self → number.lowered ≤ number.raised + whole → IfSome result (HasPlaces whole number.lowered) }
        ensures none { (number : Number) (k : ℕ) → IsRead number self → result ≡ None → k ≤ 4294967296
            → 10 ^ number.lowered * 10 ^ k ≤ number_parts whole number }
    {
        placed(
            Side::Down,
            self.figures.mantissa,
            self.figures.dropped + self.raised + whole as u64,
            self.lowered,
        )
    }

    /// At least the number, in parts of the whole; exactly it where it has 18 digits at most and no more places than the whole. None
    /// where it is more than any decimal.
    pub fn up(self, whole: u32) -> Option<Decimal>
        ensures up { (number : Number) → IsRead number self → IfSome result (λ x. number_parts whole number ≤ decimal_parts number x) }
        ensures exact { (number : Number) → IsRead number self → number.digits ≤ 999999999999999999 → number.lowered ≤ number.raised + whole
            → IfSome result (λ x. decimal_parts number x ≡ number_parts whole number) }
        ensures near { (number : Number) → IsRead number self → number.lowered ≤ number.raised + whole
            → IfSome result (λ x. IsNear (decimal_parts number x) (number_parts whole number)) }
        ensures places { (number : Number) → IsRead number self → number.lowered ≤ number.raised + whole → IfSome result (HasPlaces whole number.lowered) }
        ensures none { (number : Number) (k : ℕ) → IsRead number self → result ≡ None → k ≤ 4294967296
            → 10 ^ number.lowered * 10 ^ k ≤ number_parts whole number }
    {
        placed(
            Side::Up,
            self.figures.above(),
            self.figures.dropped + self.raised + whole as u64,
            self.lowered,
        )
    }
}

/// A mantissa with so many zeros behind it, without so many digits, rounded to one side. None where it is more than any decimal.
pub fn placed(side: Side, mantissa: u64, raised: u64, lowered: u64) -> Option<Decimal>
    requires { mantissa ≤ 1000000000000000000 }
    ensures cut { IfSome result (λ x. IsCut side (mantissa * 10 ^ raised) (parts x) (10 ^ lowered)) }
    ensures exact { lowered ≤ raised → IfSome result (λ x. parts x * 10 ^ lowered ≡ mantissa * 10 ^ raised) }
    ensures places { lowered ≤ raised → IfSome result (λ x. (x.mantissa ≡ 0) ⊎ (raised ≤ x.exponent + lowered)) }
    ensures none { result ≡ None → 0 < mantissa }
    ensures great { result ≡ None → lowered + 4294967296 ≤ raised }
{
    if mantissa == 0 {
        return Some(Decimal {
            mantissa: 0,
            exponent: 0,
        });
    }
    if lowered <= raised {
        let exponent = raised - lowered;
        if exponent > 4_294_967_295 {
            return None;
        }
        return Some(Decimal {
            mantissa,
            exponent: exponent as u32,
        });
    }
    let count = lowered - raised;
    if count > 18 {
        return Some(Decimal {
            mantissa: side.least(1),
            exponent: 0,
        });
    }
    Some(Decimal {
        mantissa: side.cut(mantissa, count as u32),
        exponent: 0,
    })
}
