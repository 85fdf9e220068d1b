//! Bounds of the probabilities of events and of families, as decimals.

ghost use Rattle.std.specs.Prelude.{ℕ, ◌≤◌, ◌≡◌, ◌^◌, ◌-◌};
ghost use Rattle.decimals.specs.Decimals.{parts, AreNear, HasPlaces};
ghost use Rattle.decimals.specs.inner.Decimals.{IsNear};
ghost use Rattle.probabilities.specs.Decided.{FitsWhole};
ghost use Rattle.probabilities.specs.inner.Certain.{IsCertain};
ghost use Rattle.probabilities.specs.Widths.{IsNarrowRate};
ghost use Rattle.probabilities.specs.Sharp.{IsSharpRate};

use decimals::Decimal;

/// The bounds of an event's probability, and of its absence, in parts of the whole.
#[derive(Clone, Copy)]
pub struct Rate {
    pub low: Decimal,
    pub high: Decimal,
    pub low_not: Decimal,
    pub high_not: Decimal,
}

/// The bounds of a probability, in parts of the whole.
#[derive(Clone, Copy)]
pub struct Bounds {
    pub lower: Decimal,
    pub upper: Decimal,
}

impl Rate {
    /// The rate of an event whose probability lies between these two.
    pub fn between(low: Decimal, high: Decimal, whole: u32) -> Rate
        requires low { parts low ≤ 10 ^ whole }
        requires high { parts high ≤ 10 ^ whole }
        ensures low { result.low ≡ low }
        ensures high { result.high ≡ high }
        ensures fits { FitsWhole whole result }
        ensures low_near { IsNear (10 ^ whole - parts low) (parts result.low_not) }
        ensures high_near { IsNear (parts result.high_not) (10 ^ whole - parts high) }
        ensures low_places { HasPlaces whole 36 result.low_not }
        ensures high_places { HasPlaces whole 36 result.high_not }
        ensures narrow { (places units : ℕ) → 36 ≤ places → 2 ≤ units → HasPlaces whole places low → HasPlaces whole places high → parts low ≤ parts high
            → AreNear units (parts high) (parts low) → IsNarrowRate whole places units result }
        ensures sharp { (places : ℕ) → 36 ≤ places → HasPlaces whole places low → HasPlaces whole places high → IsSharpRate whole places result }
    {
        Rate {
            low,
            high,
            low_not: low.rest_down(whole),
            high_not: high.rest_up(whole),
        }
    }

    /// The rate of an event of this probability.
    pub fn exact(probability: Decimal, whole: u32) -> Rate
        requires { parts probability ≤ 10 ^ whole }
        ensures low { result.low ≡ probability }
        ensures high { result.high ≡ probability }
        ensures fits { FitsWhole whole result }
        ensures narrow { (places units : ℕ) → 36 ≤ places → 2 ≤ units → HasPlaces whole places probability → IsNarrowRate whole places units result }
        ensures sharp { (places : ℕ) → 36 ≤ places → HasPlaces whole places probability → IsSharpRate whole places result }
    {
        Rate::between(probability, probability, whole)
    }

    /// The rate of an event of which nothing is known.
    pub fn unknown(whole: u32) -> Rate
        ensures low { parts result.low ≡ 0 }
        ensures high { parts result.high ≡ 10 ^ whole }
        ensures low_not { parts result.low_not ≡ 10 ^ whole }
        ensures high_not { parts result.high_not ≡ 0 }
        ensures sharp { (places : ℕ) → IsSharpRate whole places result }
        ensures fits { FitsWhole whole result }
    {
        let never = Decimal {
            mantissa: 0,
            exponent: 0,
        };
        let always = Decimal {
            mantissa: 1,
            exponent: whole,
        };
        Rate {
            low: never,
            high: always,
            low_not: always,
            high_not: never,
        }
    }

    /// The rate of an event that never occurs.
    pub fn never(whole: u32) -> Rate
        ensures certain { IsCertain whole 0 result }
        ensures narrow { (places units : ℕ) → IsNarrowRate whole places units result }
        ensures sharp { (places : ℕ) → IsSharpRate whole places result }
    {
        let none = Decimal {
            mantissa: 0,
            exponent: 0,
        };
        let all = Decimal {
            mantissa: 1,
            exponent: whole,
        };
        Rate {
            low: none,
            high: none,
            low_not: all,
            high_not: all,
        }
    }

    /// The rate of an event that always occurs.
    pub fn always(whole: u32) -> Rate
        ensures certain { IsCertain whole (10 ^ whole) result }
        ensures narrow { (places units : ℕ) → IsNarrowRate whole places units result }
        ensures sharp { (places : ℕ) → IsSharpRate whole places result }
    {
        let none = Decimal {
            mantissa: 0,
            exponent: 0,
        };
        let all = Decimal {
            mantissa: 1,
            exponent: whole,
        };
        Rate {
            low: all,
            high: all,
            low_not: none,
            high_not: none,
        }
    }
}
