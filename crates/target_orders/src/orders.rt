ghost use Rattle.std.specs.Prelude.{◌≡◌, ◌<◌, ◌≤◌, ◌^◌, ◌⊎◌, ◌↔◌, ◌++◌, [], All, IfOk, OnOk, IsTrue, length};
ghost use Rattle.fault_system.specs.Systems.{System};
ghost use Rattle.fault_system.specs.CutSets.{IsCutSet};
ghost use Rattle.backward_slice.specs.Slices.{IsSlice};
ghost use Rattle.target_orders.specs.Orders.{HoldsWithin, IsOrder, MayHold, NeedsAtLeast};
ghost use Rattle.target_orders.specs.Text.{TellsOrders, order_line, order_text};
ghost use Rattle.target_orders.specs.inner.Alone.{AreAlone};
ghost use Rattle.target_orders.specs.inner.Cuts.{AreCuts};
ghost use Rattle.target_orders.specs.inner.Known.{Knows};

use crate::alone::alone;
use crate::cuts::{is_known, set_at};
use crate::known::{Known, known_of};
use crate::lows::low_of;
use crate::order::Order;
use backward_slice::{Slice, slice};
use cutset_engine::{Asked, family};
use dependency_blocks::{Blocks, blocks};
use fault_system::{Bits, FaultSystem};
use itoa::Buffer;
use plain_values::{List, Mem, Stop};
use std::alloc::{AllocError, Global};
use zdd_store::{Id, Store};

/// The text of what it takes to make each of some facts hold, a line each, in their order, and the line `end`.
///
/// Sets are sought for a fact alone where it is not large, and a set is not known that has as few events as the fact takes at
/// least.
pub fn orders_text(alloc: Global, system: &FaultSystem, facts: &[u32]) -> Mem<Vec<u8>>
    requires { All (λ fact. fact < length system.now.facts) facts.now }
    ensures { IfOk result (λ text. TellsOrders system.now facts.now text.items) }
{
    let known = known_of(alloc, system, facts)?;
    let alone = alone_of(alloc, system, &known, facts)?;
    text_of(alloc, system, &known, &alone, facts)
}

/// The text, where this is known of the facts, and these hold under one event alone.
fn text_of(
    alloc: Global,
    system: &FaultSystem,
    known: &Known,
    alone: &Bits,
    facts: &[u32],
) -> Mem<Vec<u8>>
    requires facts { All (λ fact. fact < length system.now.facts) facts.now }
    requires known { Knows system.now known.now }
    requires alone { AreAlone system.now alone.now }
    ensures { IfOk result (λ text. TellsOrders system.now facts.now text.items) }
{
    let mut text = Vec::new(alloc);
    for fact in facts {
        let order = order_of(alloc, system, known, alone, *fact)?;
        push_line(&mut text, system, *fact, order)?;
    }
    text.extend_from_slice(b"end\n")?;
    Ok(text)
}

/// Facts that hold under one event alone, asked of those of some facts whose bounds do not tell what they take.
fn alone_of(alloc: Global, system: &FaultSystem, known: &Known, facts: &[u32]) -> Mem<Bits>
    requires { Knows system.now known.now }
    ensures { IfOk result (AreAlone system.now) }
{
    let rest = untold(alloc, known, facts)?;
    alone(alloc, system, known, rest.as_slice())
}

/// Those of some facts whose bounds do not tell what they take.
fn untold(alloc: Global, known: &Known, facts: &[u32]) -> Mem<Vec<u32>> {
    let mut rest = Vec::new(alloc);
    for fact in facts {
        if is_untold(known, *fact) {
            rest.push(*fact)?;
        }
    }
    Ok(rest)
}

/// Adds the line of a fact.
fn push_line(text: &mut Vec<u8>, system: &FaultSystem, fact: u32, order: Order) -> Mem<()>
    requires { fact < length system.now.facts }
    ensures { OnOk result (text.new.items ≡ text.old.items ++ order_line system.now fact order) }
{
    text.extend_from_slice(system.fact_name(fact))?;
    text.push(b' ')?;
    push_order(text, order)?;
    text.push(b'\n')?;
    Ok(())
}

/// Adds what it takes to make a fact hold.
fn push_order(text: &mut Vec<u8>, order: Order) -> Mem<()>
    ensures { OnOk result (text.new.items ≡ text.old.items ++ order_text order) }
{
    let mut buffer = Buffer::new();
    text.extend_from_slice(match order {
        Order::Always => b"always",
        Order::Never => b"never",
        Order::Large => b"large",
        Order::Least(count) => buffer.format(count).as_bytes(),
    })?;
    Ok(())
}

/// What it takes to make a fact hold, where this is known of the facts, and these hold under one event alone.
fn order_of(
    alloc: Global,
    system: &FaultSystem,
    known: &Known,
    alone: &Bits,
    fact: u32,
) -> Mem<Order>
    requires fact { fact < length system.now.facts }
    requires known { Knows system.now known.now }
    requires alone { AreAlone system.now alone.now }
    ensures { IfOk result (IsOrder system.now fact) }
{
    let is_always = known.always.has(fact);
    if is_always {
        return Ok(Order::Always);
    }
    let may_hold = known.perhaps.has(fact);
    if may_hold {
        return reached_order(alloc, system, known, alone, fact);
    }
    Ok(Order::Never)
}

/// What it takes to make a fact hold that holds under some events, and not under none.
fn reached_order(
    alloc: Global,
    system: &FaultSystem,
    known: &Known,
    alone: &Bits,
    fact: u32,
) -> Mem<Order>
    requires fact { fact < length system.now.facts }
    requires known { Knows system.now known.now }
    requires alone { AreAlone system.now alone.now }
    requires some { IsCutSet system.now fact [] → ⊥ }
    requires perhaps { MayHold system.now fact }
    ensures { IfOk result (IsOrder system.now fact) }
{
    let is_large = known.sizes.large.has(fact);
    if is_large {
        return Ok(Order::Large);
    }
    let low = first_count(known, fact);
    let high = last_count(system, known, alone, fact);
    let is_small = known.sizes.small.has(fact);
    let is_told = are_equal(low, high);
    if is_small && is_told {
        return Ok(Order::Least(low));
    }
    searched(alloc, system, fact, low, high)
}

fn are_equal(a: u32, b: u32) -> bool
    ensures { IsTrue result → a ≡ b }
{
    a == b
}

/// What it takes to make a fact hold by its slice, where it is between two numbers if the slice is not too large.
fn searched(alloc: Global, system: &FaultSystem, fact: u32, low: u32, high: u32) -> Mem<Order>
    requires fact { fact < length system.now.facts }
    requires some { IsCutSet system.now fact [] → ⊥ }
    requires perhaps { MayHold system.now fact }
    requires within { HoldsWithin system.now fact high }
    requires fewest { NeedsAtLeast system.now fact low }
    ensures { IfOk result (IsOrder system.now fact) }
{
    match slice(alloc, system, fact) {
        Ok(part) => Ok(Order::Least(least(alloc, system, &part, low, high)?)),
        Err(Stop::Refused(_)) => Ok(Order::Large),
        Err(Stop::Memory) => Err(AllocError),
    }
}

/// Whether no set is known that has as few events as a fact takes at least.
fn is_untold(known: &Known, fact: u32) -> bool {
    let set = set_at(known.limits.cuts.sets.as_slice(), fact);
    set.len() != first_count(known, fact) as usize
}

/// So many events at least a fact takes that does not hold under none.
fn first_count(known: &Known, fact: u32) -> u32
    ensures { (system : System) → Knows system known.now → (IsCutSet system fact [] → ⊥) → NeedsAtLeast system fact result }
{
    at_least_one(low_of(&known.limits.lows, fact))
}

fn at_least_one(low: u32) -> u32
    ensures { (result ≡ low) ⊎ (result ≡ 1) }
{
    if low == 0 {
        return 1;
    }
    low
}

/// Under some set of so many events a fact holds that holds under some.
fn last_count(system: &FaultSystem, known: &Known, alone: &Bits, fact: u32) -> u32
    requires known { Knows system.now known.now }
    requires alone { AreAlone system.now alone.now }
    requires perhaps { MayHold system.now fact }
    ensures { HoldsWithin system.now fact result }
{
    let is_alone = alone.has(fact);
    if is_alone {
        return 1;
    }
    set_count(system, known.limits.cuts.sets.as_slice(), fact)
}

/// How many events the set has that is known of a fact; all where none is.
fn set_count(system: &FaultSystem, sets: &[List<u32>], fact: u32) -> u32
    requires cuts { AreCuts system.now sets.now }
    requires perhaps { MayHold system.now fact }
    ensures { HoldsWithin system.now fact result }
{
    let set = set_at(sets, fact);
    if is_known(set) {
        return count_of(set);
    }
    system.events()
}

fn count_of(set: &[u32]) -> u32
    requires { length set.now < 2 ^ 32 }
    ensures { result ≡ length set.now }
{
    set.len() as u32
}

/// The least number of events that make the target of a slice hold, where it is between two.
fn least(alloc: Global, system: &FaultSystem, part: &Slice, low: u32, high: u32) -> Mem<u32>
    requires slice { IsSlice system.now part.now.target part.now }
    requires within { HoldsWithin system.now part.now.target high }
    requires fewest { NeedsAtLeast system.now part.now.target low }
    ensures within { IfOk result (HoldsWithin system.now part.now.target) }
    ensures fewest { IfOk result (NeedsAtLeast system.now part.now.target) }
{
    if is_no_more(high, low) {
        return Ok(low);
    }
    let found = blocks(alloc, system, part)?;
    let mut count = low;
    while count < high {
        if holds_within(alloc, system, part, &found, count)? {
            return Ok(count);
        }
        count += 1;
    }
    Ok(count)
}

fn is_no_more(a: u32, b: u32) -> bool
    ensures { IsTrue result → a ≤ b }
{
    a <= b
}

/// Whether some set of at most so many events makes the target of a slice hold.
fn holds_within(
    alloc: Global,
    system: &FaultSystem,
    part: &Slice,
    found: &Blocks,
    count: u32,
) -> Mem<bool>
    requires { IsSlice system.now part.now.target part.now }
    ensures { IfOk result (λ answer. IsTrue answer ↔ HoldsWithin system.now part.now.target count) }
{
    let mut store = Store::new(alloc);
    let asked = Asked {
        system,
        slice: part,
        blocks: found,
        most: Some(count),
    };
    let sets = family(alloc, &asked, &mut store)?;
    store.laws();
    let is_empty = sets == Id::EMPTY;
    Ok(!is_empty)
}
