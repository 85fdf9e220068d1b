//! The step from the bounds of a family's parts to those of the family.

ghost use Rattle.std.specs.Prelude.{◌≤◌, ◌<◌, ◌≡◌, ◌*◌, ◌+◌, ◌^◌, min, ℕ, IfSome, slice_get, length};
ghost use Rattle.decimals.specs.Decimals.{parts, HasPlaces};
ghost use Rattle.zdd_store.specs.inner.Family.{Family};
ghost use Rattle.zdd_store.specs.inner.Store.{family_of};
ghost use Rattle.probabilities.specs.Rates.{Rates};
ghost use Rattle.probabilities.specs.inner.Decided.{AreBoundsOf, AreEnds, IsStep};
ghost use Rattle.probabilities.specs.Widths.{AreNarrow, IsNarrowRate};
ghost use Rattle.probabilities.specs.inner.Widths.{IsNearBelow, IsNearAbove};
ghost use Rattle.probabilities.specs.inner.Remembered.{IsBounded};
ghost use Rattle.probabilities.specs.inner.Sharp.{IsSharpStep};

use crate::rates::{Bounds, Rate};
use decimals::Decimal;
use zdd_store::{Id, Store};

/// A lower bound of a family, from those of its first event, of the event's absence and of its parts.
fn lower_step(rate: Rate, lo: Decimal, hi: Decimal, whole: u32) -> Decimal
    ensures down { 10 ^ whole * parts result ≤ parts rate.low_not * parts lo + parts rate.low * parts hi }
    ensures near { (p q : ℕ) → HasPlaces whole p rate.low_not → HasPlaces whole p rate.low → HasPlaces whole q lo → HasPlaces whole q hi → p + q ≤ whole
        → parts rate.low_not + parts rate.low ≤ 10 ^ whole → parts lo ≤ 10 ^ whole → parts hi ≤ 10 ^ whole
        → IsNearBelow whole (p + q) (parts rate.low_not * parts lo + parts rate.low * parts hi) result }
{
    let without = rate.low_not.times_down(lo, whole);
    let with = rate.low.times_down(hi, whole);
    without.plus_down(with, whole)
}

/// An upper bound of a family, from those of its first event, of the event's absence and of its parts. It is the whole at most.
fn upper_step(rate: Rate, lo: Decimal, hi: Decimal, whole: u32) -> Decimal
    ensures most { parts result ≤ 10 ^ whole }
    ensures up { min (10 ^ whole * 10 ^ whole) (parts rate.high_not * parts lo + parts rate.high * parts hi) ≤ 10 ^ whole * parts result }
    ensures near { (p q : ℕ) → HasPlaces whole p rate.high_not → HasPlaces whole p rate.high → HasPlaces whole q lo → HasPlaces whole q hi → p + q ≤ whole
        → IsNearAbove whole (p + q) (parts rate.high_not * parts lo + parts rate.high * parts hi) result }
{
    let without = rate.high_not.times_up(lo, whole);
    let with = rate.high.times_up(hi, whole);
    without.plus_up(with, whole).within(whole)
}

/// The bounds of a family from those of its parts at its first event.
pub(crate) fn family_step(rate: Rate, lo: Bounds, hi: Bounds, whole: u32) -> Bounds
    ensures bounds { (rates : Rates) (end event : ℕ) (family low high : Family) → IsStep whole rate lo hi rates end event family low high
        → AreBoundsOf whole rates end family result }
    ensures narrow { (places units count : ℕ) → IsNarrowRate whole places units rate → AreNarrow whole places units count lo → AreNarrow whole places units count hi
        → places + places * count ≤ whole → AreNarrow whole places units (count + 1) result }
    ensures sharp { IsSharpStep whole rate lo hi result }
{
    Bounds {
        lower: lower_step(rate, lo.lower, hi.lower, whole),
        upper: upper_step(rate, lo.upper, hi.upper, whole),
    }
}

/// The bounds of EMPTY, which no event covers, and of UNIT, which each does.
pub(crate) fn end_bounds(store: &Store, rates: &[Rate], id: Id, whole: u32) -> Bounds
    requires { id.position < 2 }
    ensures bounds { IsBounded whole rates.now (family_of store.now id) result }
    ensures ends { AreEnds whole (family_of store.now id) result }
{
    store.laws();
    let _count = rates.len();
    if id.position == 0 {
        let none = Decimal {
            mantissa: 0,
            exponent: 0,
        };
        return Bounds {
            lower: none,
            upper: none,
        };
    }
    let all = Decimal {
        mantissa: 1,
        exponent: whole,
    };
    Bounds {
        lower: all,
        upper: all,
    }
}

/// The rate of an event, where there is one.
pub(crate) fn rate_of(rates: &[Rate], event: u32) -> Option<Rate>
    ensures rate { result ≡ slice_get rates.now event }
    ensures inside { IfSome result (λ rate. event < length rates.now) }
{
    rates.get(event as usize).copied()
}
