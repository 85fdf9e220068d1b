//! 1 - e^(-x) for any x, by halving x and squaring e^(-x/2).

ghost use Rattle.std.specs.Prelude.{ℕ, ◌≡◌, ◌≤◌, ◌<◌, ◌-◌, ◌*◌, ◌^◌};
ghost use Rattle.decimals.specs.Decimals.{parts};
ghost use Rattle.exponentials.specs.Exponentials.{IsAtLeastChance, IsAtMostChance};
ghost use Rattle.exponentials.specs.inner.Spans.{AreChances, IsAbove, IsBelow, IsWithin};
ghost use Rattle.exponentials.specs.Widths.{chance_places, chance_units};
ghost use Rattle.exponentials.specs.inner.Widths.{IsNarrow};

use crate::series::series;
use crate::span::Span;

/// The bounds of 1 - e^(-x), in parts of the whole, and how often x was halved for them.
#[derive(Clone, Copy)]
pub struct Chance {
    pub span: Span,
    pub halvings: u32,
}

/// Bounds that were halved so often.
#[derive(Clone, Copy)]
struct HalvedSpan {
    x: Span,
    halvings: u32,
}

/// The bounds, halved until they are the whole at most, or 40 times.
fn halved(x: Span, whole: u32) -> HalvedSpan
    ensures low { parts result.x.low * 2 ^ result.halvings ≤ parts x.low }
    ensures high { parts x.high ≤ parts result.x.high * 2 ^ result.halvings }
{
    let mut half = x;
    let mut halvings = 0_u32;
    while halvings < 40 && !half.high.is_part(whole) {
        half = half.half();
        halvings += 1;
    }
    HalvedSpan { x: half, halvings }
}

/// The bounds of a number that is squared so often.
fn squared(number: Span, times: u32, whole: u32) -> Span
    ensures low { (n d : ℕ) → n ≤ d → IsAbove whole n d number → IsAbove whole (n ^ (2 ^ times)) (d ^ (2 ^ times)) result }
    ensures high { (n d : ℕ) → n ≤ d → IsBelow whole n d number → IsBelow whole (n ^ (2 ^ times)) (d ^ (2 ^ times)) result }
{
    let mut power = number;
    for _time in 0..times {
        power = power.times(power, whole);
    }
    power
}

/// The bounds of 1 - e^(-x) from x that was halved so often, and is 1 at most.
fn squared_chance(x: Span, halvings: u32, whole: u32) -> Span
    requires { parts x.high ≤ 10 ^ whole }
    ensures low { (a b d m : ℕ) → 0 < b → IsWithin whole a b x → IsAtLeastChance a b d m
        → IsAbove whole (d ^ (2 ^ halvings) - (d - m) ^ (2 ^ halvings)) (d ^ (2 ^ halvings)) result }
    ensures high { (a b d m : ℕ) → 0 < b → IsWithin whole a b x → IsAtMostChance a b d m
        → IsBelow whole (d ^ (2 ^ halvings) - (d - m) ^ (2 ^ halvings)) (d ^ (2 ^ halvings)) result }
{
    squared(series(x, whole).rest(whole), halvings, whole).rest(whole)
}

/// The bounds of 1 - e^(-x), from bounds of x in parts of the whole.
pub fn chance_of(x: Span, whole: u32) -> Chance
    ensures chances { AreChances whole x result }
    ensures narrow { (places units : ℕ) → units ≤ 1000000000000 → IsNarrow whole places units x → parts x.high ≤ 10 ^ whole
        → chance_places places ≤ whole → IsNarrow whole (chance_places places) (chance_units units) result.span }
{
    if x.high.is_part(whole) {
        return Chance {
            span: series(x, whole),
            halvings: 0,
        };
    }
    let half = halved(x, whole);
    if half.x.high.is_part(whole) {
        return Chance {
            span: squared_chance(half.x, half.halvings, whole),
            halvings: half.halvings,
        };
    }
    Chance {
        span: Span::unknown(whole),
        halvings: half.halvings,
    }
}
