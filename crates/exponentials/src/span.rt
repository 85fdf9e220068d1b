//! Bounds of numbers, in parts of the whole.

ghost use Rattle.std.specs.Prelude.{ℕ, ◌≡◌, ◌≤◌, ◌<◌, ◌+◌, ◌-◌, ◌*◌, ◌^◌};
ghost use Rattle.decimals.specs.Decimals.{parts};
ghost use Rattle.exponentials.specs.inner.Spans.{IsAbove, IsBelow};
ghost use Rattle.exponentials.specs.inner.Terms.{IsNextTerm, IsProduct, IsSum};
ghost use Rattle.exponentials.specs.inner.Widths.{IsNarrow};

use decimals::Decimal;

/// The bounds of a number, in parts of the whole.
#[derive(Clone, Copy)]
pub struct Span {
    pub low: Decimal,
    pub high: Decimal,
}

impl Span {
    /// Nothing.
    pub(crate) fn nothing() -> Span
        ensures low { parts result.low ≡ 0 }
        ensures high { parts result.high ≡ 0 }
        ensures narrow { (whole places units : ℕ) → IsNarrow whole places units result }
    {
        let none = Decimal {
            mantissa: 0,
            exponent: 0,
        };
        Span {
            low: none,
            high: none,
        }
    }

    /// The whole.
    pub(crate) fn all(whole: u32) -> Span
        ensures low { parts result.low ≡ 10 ^ whole }
        ensures high { parts result.high ≡ 10 ^ whole }
        ensures narrow { (places units : ℕ) → IsNarrow whole places units result }
    {
        let all = Decimal {
            mantissa: 1,
            exponent: whole,
        };
        Span {
            low: all,
            high: all,
        }
    }

    /// All that may be.
    pub(crate) fn unknown(whole: u32) -> Span
        ensures low { parts result.low ≡ 0 }
        ensures high { parts result.high ≡ 10 ^ whole }
    {
        Span {
            low: Span::nothing().low,
            high: Span::all(whole).high,
        }
    }

    /// One of so many equal parts of the product.
    pub(crate) fn next_term(self, x: Span, count: u32, whole: u32) -> Span
        requires { 0 < count }
        ensures next { IsNextTerm whole count self x result }
        ensures narrow { (p q i j : ℕ) → IsNarrow whole p i self → IsNarrow whole q j x → parts self.low ≤ 10 ^ whole → parts x.low ≤ 10 ^ whole → count ≤ 1000
            → p + q + 18 ≤ whole → IsNarrow whole (p + q + 18) (i + j + 2 + 2 * count) result }
    {
        Span {
            low: self.low.times_down(x.low, whole).over_down(count),
            high: self.high.times_up(x.high, whole).over_up(count),
        }
    }

    /// The sum, up to the whole.
    pub(crate) fn plus(self, other: Span, whole: u32) -> Span
        ensures sum { IsSum whole self other result }
        ensures narrow { (p i : ℕ) → IsNarrow whole p i self → IsNarrow whole p i other → parts self.low + parts other.low ≤ 10 ^ whole
            → IsNarrow whole p (i + 2) result }
    {
        Span {
            low: self.low.plus_down(other.low, whole),
            high: self.high.plus_up(other.high, whole),
        }
    }

    /// The product, up to the whole.
    pub(crate) fn times(self, other: Span, whole: u32) -> Span
        ensures { IsProduct whole self other result }
    {
        Span {
            low: self.low.times_down(other.low, whole),
            high: self.high.times_up(other.high, whole),
        }
    }

    /// What is left of the whole.
    pub(crate) fn rest(self, whole: u32) -> Span
        ensures low { (n d : ℕ) → n ≤ d → IsBelow whole n d self → IsAbove whole (d - n) d result }
        ensures high { (n d : ℕ) → n ≤ d → IsAbove whole n d self → IsBelow whole (d - n) d result }
    {
        Span {
            low: self.high.within(whole).rest_down(whole),
            high: self.low.within(whole).rest_up(whole),
        }
    }

    /// One half.
    pub(crate) fn half(self) -> Span
        ensures low { parts result.low * 2 ≤ parts self.low }
        ensures high { parts self.high ≤ parts result.high * 2 }
    {
        Span {
            low: self.low.over_down(2),
            high: self.high.over_up(2),
        }
    }
}
