//! Settles which facts are large, by few slices.
//!
//! The facts are gone through block by block: first from those on that no other depends on, and then so that each comes behind
//! those on which it depends. What the facts from one place on depend on is gathered for as many at once as together stay small;
//! on the second way, where the next fact alone is too much, its slice decides, and what depends on a large fact is large. So a
//! slice is made for a large fact that depends on no other one, and the time goes with the number of such facts, and of groups of
//! small ones, times the size of the system.

ghost use Rattle.std.specs.Prelude.{◌≡◌, ◌<◌, ℕ, IsTrue, OnOk, map, true};
ghost use Rattle.std.specs.List.{list_any};
ghost use Rattle.fault_system.specs.Truth.{Has, member, occurs};
ghost use Rattle.dependency_blocks.specs.Blocks.{number_of};
ghost use Rattle.dependency_blocks.specs.inner.Blocks.{AreAllBlocks};
ghost use Rattle.target_orders.specs.Orders.{IsLarge};
ghost use Rattle.target_orders.specs.inner.Sizes.{AreLarge, KnowsSizes};

use crate::closing::{is_open, small_part};
use crate::marks::{put, put_all, put_list};
use crate::sizes::Sizes;
use backward_slice::slice;
use dependency_blocks::Blocks;
use fault_system::{Bits, FaultSystem, Formula};
use plain_values::{Mem, Stop};
use std::alloc::{AllocError, Global};

/// Of which facts of a system it is asked whether they are large.
#[derive(Clone, Copy)]
pub(crate) struct Question<'a> {
    /// The system.
    pub system: &'a FaultSystem,
    /// The blocks of all its facts.
    pub blocks: &'a Blocks,
    /// The facts that are asked of.
    pub asked: &'a Bits,
}

fn value(values: &[u32], at: u32) -> u32 {
    values.get(at as usize).copied().unwrap_or(4_294_967_295)
}

fn write(values: &mut [u32], at: u32, new: u32) {
    if (at as usize) < values.len() {
        values[at as usize] = new;
    }
}

/// The facts of a system, block by block, the lowest block first.
pub(crate) fn order_of_blocks(
    alloc: Global,
    system: &FaultSystem,
    blocks: &Blocks,
) -> Mem<Vec<u32>> {
    let mut places = places_of_blocks(alloc, system, blocks)?;
    let mut order = vec![in alloc; 0u32; system.facts() as usize]?;
    fill_places(order.as_mut_slice(), places.as_mut_slice(), system, blocks);
    Ok(order)
}

// Where each block begins.
fn places_of_blocks(alloc: Global, system: &FaultSystem, blocks: &Blocks) -> Mem<Vec<u32>> {
    let mut places = Vec::new(alloc);
    let mut place = 0u32;
    for block in 0..system.facts() {
        places.push(place)?;
        place = place.saturating_add(blocks.size(block).unwrap_or(0));
    }
    Ok(places)
}

fn fill_places(order: &mut [u32], places: &mut [u32], system: &FaultSystem, blocks: &Blocks) {
    for fact in 0..system.facts() {
        fill_place(order, places, blocks, fact);
    }
}

fn fill_place(order: &mut [u32], places: &mut [u32], blocks: &Blocks, fact: u32) {
    if let Some(block) = blocks.block_of(fact) {
        let place = value(places, block);
        write(order, place, fact);
        write(places, block, place.saturating_add(1));
    }
}

/// Settles which of the facts that are asked of are large.
pub(crate) fn settle(
    alloc: Global,
    question: &Question<'_>,
    order: &[u32],
    sizes: &mut Sizes,
) -> Mem<()>
    requires numbered { AreAllBlocks question.now.system.now question.now.blocks.now }
    requires before { KnowsSizes question.now.system.now sizes.old }
    ensures { OnOk result (KnowsSizes question.now.system.now sizes.new) }
{
    settle_from_top(alloc, question, order, sizes)?;
    settle_in_order(alloc, question, order, sizes)
}

fn settle_in_order(
    alloc: Global,
    question: &Question<'_>,
    order: &[u32],
    sizes: &mut Sizes,
) -> Mem<()>
    requires numbered { AreAllBlocks question.now.system.now question.now.blocks.now }
    requires before { KnowsSizes question.now.system.now sizes.old }
    ensures { OnOk result (KnowsSizes question.now.system.now sizes.new) }
{
    let mut width = order.len();
    for at in 0..order.len() {
        width = settle_first(alloc, question, &order[at..], width, sizes)?;
    }
    Ok(())
}

/// How many facts to gather for the next time, and how many more may be found too large.
#[derive(Clone, Copy)]
struct Tries {
    width: usize,
    left: u32,
}

/// Finds small facts, those on which most depend last: what a small one depends on is small with it, and is gathered once.
/// It ends where many were too large alone.
fn settle_from_top(
    alloc: Global,
    question: &Question<'_>,
    order: &[u32],
    sizes: &mut Sizes,
) -> Mem<()>
    requires { KnowsSizes question.now.system.now sizes.old }
    ensures { OnOk result (KnowsSizes question.now.system.now sizes.new) }
{
    let facts = reversed(alloc, order)?;
    settle_small(alloc, question, facts.as_slice(), sizes)
}

fn reversed(alloc: Global, order: &[u32]) -> Mem<Vec<u32>> {
    let mut facts = Vec::new(alloc);
    for fact in order.iter().rev() {
        facts.push(*fact)?;
    }
    Ok(facts)
}

fn settle_small(alloc: Global, question: &Question<'_>, facts: &[u32], sizes: &mut Sizes) -> Mem<()>
    requires { KnowsSizes question.now.system.now sizes.old }
    ensures { OnOk result (KnowsSizes question.now.system.now sizes.new) }
{
    let mut tries = Tries {
        width: facts.len(),
        left: 64,
    };
    for at in 0..facts.len() {
        if tries.left == 0 {
            return Ok(());
        }
        tries = try_first(alloc, question, &facts[at..], tries, sizes)?;
    }
    Ok(())
}

/// Finds that the first of some facts is small, and others with it, where it is.
fn try_first(
    alloc: Global,
    question: &Question<'_>,
    rest: &[u32],
    tries: Tries,
    sizes: &mut Sizes,
) -> Mem<Tries>
    requires { KnowsSizes question.now.system.now sizes.old }
    ensures { OnOk result (KnowsSizes question.now.system.now sizes.new) }
{
    let Some(fact) = rest.first().copied() else {
        return Ok(tries);
    };
    if !is_open(question.asked, sizes, fact) {
        return Ok(tries);
    }
    let settled = settle_many(alloc, question, rest, tries.width, sizes)?;
    if settled > 0 {
        return Ok(wider(tries, settled));
    }
    let is_small = are_found_small(alloc, question, front(rest, 1), sizes)?;
    Ok(narrow(tries, is_small))
}

fn wider(tries: Tries, settled: usize) -> Tries {
    Tries {
        width: settled.saturating_mul(2),
        left: tries.left,
    }
}

fn narrow(tries: Tries, is_small: bool) -> Tries {
    if is_small {
        return Tries {
            width: 2,
            left: tries.left,
        };
    }
    Tries {
        width: 2,
        left: tries.left.saturating_sub(1),
    }
}

/// Settles the first of some facts, and others with it; how many to gather for the next time.
fn settle_first(
    alloc: Global,
    question: &Question<'_>,
    rest: &[u32],
    width: usize,
    sizes: &mut Sizes,
) -> Mem<usize>
    requires numbered { AreAllBlocks question.now.system.now question.now.blocks.now }
    requires before { KnowsSizes question.now.system.now sizes.old }
    ensures { OnOk result (KnowsSizes question.now.system.now sizes.new) }
{
    let Some(fact) = rest.first().copied() else {
        return Ok(width);
    };
    if !is_open(question.asked, sizes, fact) {
        return Ok(width);
    }
    let settled = settle_many(alloc, question, rest, width, sizes)?;
    if settled > 0 {
        return Ok(settled.saturating_mul(2));
    }
    if settle_by_slice(alloc, question.system, fact, sizes)? {
        pass_on(question.system, question.blocks, rest, sizes);
    }
    Ok(2)
}

/// Finds that the first of some facts are small, at most so many, by halves; how many, or 0 where it is one at most.
fn settle_many(
    alloc: Global,
    question: &Question<'_>,
    rest: &[u32],
    width: usize,
    sizes: &mut Sizes,
) -> Mem<usize>
    requires { KnowsSizes question.now.system.now sizes.old }
    ensures { OnOk result (KnowsSizes question.now.system.now sizes.new) }
{
    let mut width = width;
    for half in 0..64u32 {
        if width < 2 {
            return Ok(0);
        }
        if are_found_small(alloc, question, front(rest, width), sizes)? {
            return Ok(width);
        }
        width /= 2;
    }
    Ok(0)
}

fn front(facts: &[u32], most: usize) -> &[u32] {
    &facts[..most.min(facts.len())]
}

/// Gathers what some facts depend on, and finds that all of it is small, where it is not too much.
fn are_found_small(
    alloc: Global,
    question: &Question<'_>,
    facts: &[u32],
    sizes: &mut Sizes,
) -> Mem<bool>
    requires { KnowsSizes question.now.system.now sizes.old }
    ensures { OnOk result (KnowsSizes question.now.system.now sizes.new) }
{
    let found = small_part(alloc, question.system, question.asked, sizes, facts)?;
    match found {
        Some(part) => {
            put_all(&mut sizes.small, &part);
            Ok(true)
        }
        None => Ok(false),
    }
}

// Makes the slice of a fact: it is large, or all that it depends on is small. Whether it is large.
fn settle_by_slice(alloc: Global, system: &FaultSystem, fact: u32, sizes: &mut Sizes) -> Mem<bool>
    requires { KnowsSizes system.now sizes.old }
    ensures { OnOk result (KnowsSizes system.now sizes.new) }
{
    if fact >= system.facts() {
        return Ok(false);
    }
    match slice(alloc, system, fact) {
        Ok(part) => {
            put_list(&mut sizes.small, part.facts.items());
            Ok(false)
        }
        Err(Stop::Refused(_)) => {
            put(&mut sizes.large, fact);
            Ok(true)
        }
        Err(Stop::Memory) => Err(AllocError),
    }
}

// Goes through some facts: one is large if it depends on a large one.
fn pass_on(system: &FaultSystem, blocks: &Blocks, rest: &[u32], sizes: &mut Sizes)
    requires numbered { AreAllBlocks system.now blocks.now }
    requires before { KnowsSizes system.now sizes.old }
    ensures { KnowsSizes system.now sizes.new }
{
    let mut last = 4_294_967_295u32;
    for fact in rest {
        pass_on_to(system, blocks, last, *fact, sizes);
        last = *fact;
    }
}

fn pass_on_to(system: &FaultSystem, blocks: &Blocks, last: u32, fact: u32, sizes: &mut Sizes)
    requires numbered { AreAllBlocks system.now blocks.now }
    requires before { KnowsSizes system.now sizes.old }
    ensures { KnowsSizes system.now sizes.new }
{
    if depends_on_large(system, blocks, &sizes.large, last, fact) {
        put(&mut sizes.large, fact);
    }
}

// Whether a fact is large, since it is of one block with a large one, or a large one is in its formula.
fn depends_on_large(
    system: &FaultSystem,
    blocks: &Blocks,
    large: &Bits,
    last: u32,
    fact: u32,
) -> bool
    requires numbered { AreAllBlocks system.now blocks.now }
    requires large { AreLarge system.now large.now }
    ensures { IsTrue result → IsLarge system.now fact }
{
    if fact >= system.facts() {
        return false;
    }
    if large.has(last) && are_one_block(blocks, fact, last) {
        return true;
    }
    match system.fact(fact) {
        Some(info) => has_large(large, &info.formula),
        None => false,
    }
}

fn are_one_block(blocks: &Blocks, one: u32, other: u32) -> bool
    ensures { IsTrue result
        → (number_of blocks.now one < 4294967295) × (number_of blocks.now one ≡ number_of blocks.now other) }
{
    let Some(block) = blocks.block_of(one) else {
        return false;
    };
    let Some(same) = blocks.block_of(other) else {
        return false;
    };
    block == same
}

// Whether a marked fact is in a formula.
#[cycle(large)]
fn has_large(large: &Bits, formula: &Formula) -> bool
    ensures { IsTrue result → (m : ℕ) × (occurs m formula.now ≡ true) × Has (member large.now) m }
{
    match formula {
        Formula::True | Formula::Event(_) => false,
        Formula::Fact(number) => large.has(*number),
        Formula::And(parts) | Formula::Or(parts) | Formula::AtLeast(_, parts) => {
            have_large(large, parts.items())
        }
    }
}

#[cycle(large)]
fn have_large(large: &Bits, parts: &[Formula]) -> bool
    ensures { IsTrue result
        → (m : ℕ) × (list_any (λ part. part) (map (occurs m) parts.now) ≡ true) × Has (member large.now) m }
{
    for part in parts {
        if has_large(large, part) {
            return true;
        }
    }
    false
}
