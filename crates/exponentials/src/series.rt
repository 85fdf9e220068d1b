//! The series of 1 - e^(-x), for x up to 1.

ghost use Rattle.std.specs.Prelude.{ℕ, ◌≡◌, ◌≤◌, ◌<◌, ◌+◌, ◌-◌, ◌*◌, ◌^◌, min};
ghost use Rattle.decimals.specs.Decimals.{parts, AreNear, HasPlaces};
ghost use Rattle.exponentials.specs.declared.span.Span.{Span};
ghost use Rattle.exponentials.specs.Exponentials.{IsAtLeastChance, IsAtMostChance};
ghost use Rattle.exponentials.specs.inner.Spans.{IsAbove, IsBelow, IsWithin};
ghost use Rattle.exponentials.specs.inner.Terms.{AreTerms, IsSum};
ghost use Rattle.exponentials.specs.Widths.{chance_places, chance_units};
ghost use Rattle.exponentials.specs.inner.Widths.{AreNarrowTerms, IsNarrow};

use crate::span::Span;
use decimals::Decimal;

/// The last term so far, and the sums of the terms that have its sign, and of the others.
#[derive(Clone, Copy)]
pub struct Terms {
    pub term: Span,
    pub latest: Span,
    pub other: Span,
}

impl Terms {
    /// Before the first term.
    fn first(whole: u32) -> Terms
        ensures terms { (x : Span) → AreTerms whole x 0 result }
        ensures narrow { (places units : ℕ) → AreNarrowTerms whole places units 0 result }
    {
        Terms {
            term: Span::all(whole),
            latest: Span::nothing(),
            other: Span::nothing(),
        }
    }

    /// With a term more, the last times x, divided by a count.
    fn next(self, x: Span, count: u32, whole: u32) -> Terms
        requires { 0 < count }
        ensures terms { (n : ℕ) → n + 2 ≡ count → AreTerms whole x n self → AreTerms whole x (n + 1) result }
        ensures narrow { (n places units : ℕ) → n + 2 ≡ count → n ≤ 21 → IsNarrow whole places units x → parts x.low ≤ 10 ^ whole
            → 22 * (places + 18) ≤ whole → AreNarrowTerms whole places units n self → AreNarrowTerms whole places units (n + 1) result }
        ensures sum { IsSum whole self.other result.term result.latest }
        ensures other { result.other ≡ self.latest }
    {
        let term = self.term.next_term(x, count, whole);
        Terms {
            term,
            latest: self.other.plus(term, whole),
            other: self.latest,
        }
    }

    /// So many terms.
    fn many(x: Span, count: u32, whole: u32) -> Terms
        requires { count ≤ 100 }
        ensures terms { AreTerms whole x count result }
        ensures narrow { (places units : ℕ) → count ≤ 22 → IsNarrow whole places units x → parts x.low ≤ 10 ^ whole
            → 22 * (places + 18) ≤ whole → AreNarrowTerms whole places units count result }
    {
        let mut terms = Terms::first(whole);
        for index in 0..count {
            terms = terms.next(x, index + 2, whole);
        }
        terms
    }
}

/// At most the whole without the terms that are taken from it, with those that are added.
fn without_low(taken: Decimal, added: Decimal, whole: u32) -> Decimal
    ensures low { parts result + min (parts taken) (10 ^ whole) ≤ 10 ^ whole + parts added }
    ensures near { parts taken ≤ 10 ^ whole → parts added ≤ 10 ^ whole → AreNear 2 (10 ^ whole - parts taken + parts added) (parts result) }
    ensures places { (places : ℕ) → 36 ≤ places → HasPlaces whole places added → HasPlaces whole places result }
{
    taken.within(whole).rest_down(whole).plus_down(added, whole)
}

/// At least the same, or the whole.
fn without_high(taken: Decimal, added: Decimal, whole: u32) -> Decimal
    ensures high { min (10 ^ whole + min (parts taken) (10 ^ whole)) (10 ^ whole + parts added) ≤ parts result + min (parts taken) (10 ^ whole) }
    ensures near { parts taken ≤ 10 ^ whole → AreNear 2 (parts result) (10 ^ whole - parts taken + parts added) }
    ensures places { (places : ℕ) → 36 ≤ places → HasPlaces whole places added → HasPlaces whole places result }
{
    taken.within(whole).rest_up(whole).plus_up(added, whole)
}

/// The bounds of 1 - e^(-x) by 22 terms of x (1 - x/2 + x^2/6 - ..), for x up to 1.
pub fn series(x: Span, whole: u32) -> Span
    requires { parts x.high ≤ 10 ^ whole }
    ensures low { (a b d m : ℕ) → 0 < b → IsWithin whole a b x → IsAtLeastChance a b d m → IsAbove whole m d result }
    ensures high { (a b d m : ℕ) → 0 < b → IsWithin whole a b x → IsAtMostChance a b d m → IsBelow whole m d result }
    ensures narrow { (places units : ℕ) → units ≤ 1000000000000 → IsNarrow whole places units x → chance_places places ≤ whole
        → IsNarrow whole (chance_places places) (chance_units units) result }
{
    let odd = Terms::many(x, 21, whole);
    let even = odd.next(x, 23, whole);
    Span {
        low: x
            .low
            .times_down(without_low(odd.latest.high, odd.other.low, whole), whole),
        high: x.high.times_up(without_high(even.other.low, even.latest.high, whole), whole),
    }
}
