//! How many events it takes at least to make a formula true, by what it takes to make each fact hold.
//!
//! Events have places, and a bound counts those of a range of places alone: where the ranges of two parts are apart, a set
//! that makes both parts true has the events of both.

ghost use Rattle.std.specs.Prelude.{◌≡◌, ◌+◌, ◌*◌, ◌<◌, ◌≤◌, ◌⊎◌, ℕ, Bool, List, IsTrue, if◌then◌else◌, map, slice_index_or, true};
ghost use Rattle.std.specs.List.{list_all, list_any};
ghost use Rattle.fault_system.specs.Truth.{count_true, set_of, truth};
ghost use Rattle.fault_system.specs.Rounds.{time_of};
ghost use Rattle.target_orders.specs.inner.Bounds.{IsMet, IsTally, IsWithin, met_facts};

use fault_system::Formula;

/// At least so many events have their places in a range: from one place on, and before another.
#[derive(Clone, Copy)]
pub(crate) struct Bound {
    pub low: u32,
    pub from: u32,
    pub to: u32,
}

/// What the parts of a gate need at least that counts its true parts: each of them the bound, and so many of them so often
/// as much where they are apart.
#[derive(Clone, Copy)]
struct Tally {
    bound: Bound,
    apart: bool,
}

/// The place of an event; 0 where it has none.
fn place_at(places: &[u32], event: u32) -> u32
    ensures { result ≡ time_of places.now event }
{
    places.get(event as usize).copied().unwrap_or(0)
}

/// The bound of a fact; that of no event where it has none.
pub(crate) fn bound_at(bounds: &[Bound], fact: u32) -> Bound
    ensures { result ≡ slice_index_or bounds.now fact (record { low = 0; from = 0; to = 0 }) }
{
    let none = Bound {
        low: 0,
        from: 0,
        to: 0,
    };
    bounds.get(fact as usize).copied().unwrap_or(none)
}

/// A bound over the ranges of two others.
pub(crate) fn over_both(low: u32, a: Bound, b: Bound) -> Bound
    ensures low { result.low ≡ low }
    ensures first { IsWithin a result }
    ensures second { IsWithin b result }
{
    if a.from >= a.to {
        return Bound {
            low,
            from: b.from,
            to: b.to,
        };
    }
    if b.from >= b.to {
        return Bound {
            low,
            from: a.from,
            to: a.to,
        };
    }
    Bound {
        low,
        from: a.from.min(b.from),
        to: a.to.max(b.to),
    }
}

/// Whether no place is in the ranges of both.
fn are_apart(a: Bound, b: Bound) -> bool
    ensures { IsTrue result → (a.to ≤ b.from) ⊎ (b.to ≤ a.from) }
{
    a.to <= b.from || b.to <= a.from
}

/// No more than the sum of two numbers.
fn sum_of(a: u32, b: u32) -> u32
    ensures { result ≤ a + b }
{
    a.saturating_add(b)
}

/// No more than the product of two numbers.
fn product_of(a: u32, b: u32) -> u32
    ensures { result ≤ a * b }
{
    a.saturating_mul(b)
}

/// The smaller one of two numbers.
pub(crate) fn smaller(a: u32, b: u32) -> u32
    ensures first { result ≤ a }
    ensures second { result ≤ b }
{
    a.min(b)
}

/// What it takes where both are met.
fn both(a: Bound, b: Bound) -> Bound
    ensures { (places set : List ℕ) → IsMet places set a → IsMet places set b → IsMet places set result }
{
    if are_apart(a, b) {
        return over_both(sum_of(a.low, b.low), a, b);
    }
    if a.low < b.low {
        return b;
    }
    a
}

/// What it takes where one of two is met.
fn either(a: Bound, b: Bound) -> Bound
    ensures { (places set : List ℕ) → IsMet places set a ⊎ IsMet places set b → IsMet places set result }
{
    over_both(smaller(a.low, b.low), a, b)
}

/// Whether all parts are apart where one more comes.
fn stays_apart(tally: Tally, part: Bound) -> bool
    ensures { IsTrue result → (tally.apart ≡ true) × ((tally.bound.to ≤ part.from) ⊎ (part.to ≤ tally.bound.from)) }
{
    if are_apart(tally.bound, part) {
        return tally.apart;
    }
    false
}

/// The tally with one part more.
fn more(tally: Tally, part: Bound) -> Tally
    ensures { (places set : List ℕ) (count : ℕ) (is_true : Bool) → IsTally places set count tally → (is_true ≡ true → IsMet places set part)
        → IsTally places set (if is_true then count + 1 else count) result }
{
    let apart = stays_apart(tally, part);
    let bound = over_both(smaller(tally.bound.low, part.low), tally.bound, part);
    Tally { bound, apart }
}

/// What it takes where at least so many parts are true.
fn of_tally(tally: Tally, least: u32) -> Bound
    ensures { (places set : List ℕ) (count : ℕ) → IsTally places set count tally → least ≤ count → IsMet places set result }
{
    if least == 0 {
        return Bound {
            low: 0,
            from: 0,
            to: 0,
        };
    }
    of_some(tally, least)
}

/// The same, of one part at least.
fn of_some(tally: Tally, least: u32) -> Bound
    requires { 0 < least }
    ensures { (places set : List ℕ) (count : ℕ) → IsTally places set count tally → least ≤ count → IsMet places set result }
{
    if is_apart(tally) {
        return Bound {
            low: product_of(tally.bound.low, least),
            from: tally.bound.from,
            to: tally.bound.to,
        };
    }
    tally.bound
}

fn is_apart(tally: Tally) -> bool
    ensures { result ≡ tally.apart }
{
    tally.apart
}

/// What it takes that an event occurs.
fn event_bound(places: &[u32], event: u32) -> Bound
    ensures { (set : List ℕ) → set_of set event ≡ true → IsMet places.now set result }
{
    let place = place_at(places, event);
    if place == 4_294_967_295 {
        return Bound {
            low: 0,
            from: 0,
            to: 0,
        };
    }
    Bound {
        low: 1,
        from: place,
        to: place + 1,
    }
}

/// What it takes that a formula is true, where each fact takes what its bound says.
#[cycle(bound)]
pub(crate) fn bound_of(places: &[u32], bounds: &[Bound], formula: &Formula) -> Bound
    ensures { (set : List ℕ) → truth (set_of set) (met_facts places.now bounds.now set) formula.now ≡ true → IsMet places.now set result }
{
    match formula {
        Formula::True => Bound {
            low: 0,
            from: 0,
            to: 0,
        },
        Formula::Event(number) => event_bound(places, *number),
        Formula::Fact(number) => bound_at(bounds, *number),
        Formula::And(parts) => bound_of_all(places, bounds, parts.items()),
        Formula::Or(parts) => bound_of_any(places, bounds, parts.items()),
        Formula::AtLeast(least, parts) => of_tally(tally_of(places, bounds, parts.items()), *least),
    }
}

#[cycle(bound)]
fn bound_of_all(places: &[u32], bounds: &[Bound], parts: &[Formula]) -> Bound
    ensures { (set : List ℕ) → list_all (λ part. part) (map (truth (set_of set) (met_facts places.now bounds.now set)) parts.now) ≡ true → IsMet places.now set result }
{
    let mut bound = Bound {
        low: 0,
        from: 0,
        to: 0,
    };
    for part in parts {
        bound = both(bound, bound_of(places, bounds, part));
    }
    bound
}

#[cycle(bound)]
fn bound_of_any(places: &[u32], bounds: &[Bound], parts: &[Formula]) -> Bound
    ensures { (set : List ℕ) → list_any (λ part. part) (map (truth (set_of set) (met_facts places.now bounds.now set)) parts.now) ≡ true → IsMet places.now set result }
{
    let mut bound = Bound {
        low: 4_294_967_295,
        from: 0,
        to: 0,
    };
    for part in parts {
        bound = either(bound, bound_of(places, bounds, part));
    }
    bound
}

#[cycle(bound)]
fn tally_of(places: &[u32], bounds: &[Bound], parts: &[Formula]) -> Tally
    ensures { (set : List ℕ) → IsTally places.now set (count_true (map (truth (set_of set) (met_facts places.now bounds.now set)) parts.now)) result }
{
    let mut tally = Tally {
        bound: Bound {
            low: 4_294_967_295,
            from: 0,
            to: 0,
        },
        apart: true,
    };
    for part in parts {
        tally = more(tally, bound_of(places, bounds, part));
    }
    tally
}
