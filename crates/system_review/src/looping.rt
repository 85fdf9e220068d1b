//! Loops of facts.

ghost use Rattle.std.specs.Prelude.{◌≡◌, ◌<◌, ◌++◌, ◌∷◌, ◌&&◌, [], IfOk, OnOk, cond, map, nat_eq};
ghost use Rattle.std.specs.HashSet.{contains};
ghost use Rattle.std.specs.List.{list_any};
ghost use Rattle.fault_system.specs.Truth.{occurs};
ghost use Rattle.dependency_blocks.specs.Blocks.{number_of, size_of};
ghost use Rattle.dependency_blocks.specs.inner.Blocks.{AreAllBlocks};
ghost use Rattle.system_review.specs.Loops.{AreLoops};
ghost use Rattle.system_review.specs.inner.Loops.{HasOneMeaning};
ghost use Rattle.system_review.specs.inner.Steps.{AddsLoop, is_looped, occurs_in_own};

use dependency_blocks::{Blocks, all_blocks};
use fault_system::{FaultSystem, Formula};
use plain_values::{List, Mem};
use std::alloc::Global;
use std::collections::HashSet;

/// Facts that depend on one another: how many they are, and the first of them. A fact alone is one if it occurs in its own
/// formula.
#[derive(Clone, Copy)]
pub struct Loop {
    pub size: u32,
    pub first: u32,
}

/// The loops of a system, in the order of their first facts.
pub fn loops(alloc: Global, system: &FaultSystem) -> Mem<List<Loop>>
    ensures loops { IfOk result (AreLoops system.now) }
    ensures one { IfOk result (λ loops. loops ≡ [] → HasOneMeaning system.now) }
{
    let blocks = all_blocks(alloc, system)?;
    let loops = loops_among(alloc, system, &blocks)?;
    Ok(loops)
}

fn loops_among(alloc: Global, system: &FaultSystem, blocks: &Blocks) -> Mem<List<Loop>>
    requires { AreAllBlocks system.now blocks.now }
    ensures loops { IfOk result (AreLoops system.now) }
    ensures one { IfOk result (λ loops. loops ≡ [] → HasOneMeaning system.now) }
{
    let mut seen = HashSet::new(alloc);
    let mut loops = List::new(alloc);
    for number in 0..system.facts() {
        add_loop(&mut loops, system, blocks, &mut seen, number)?;
    }
    Ok(loops)
}

// Adds the loop of which a fact is the first, unless an earlier fact is of its block.
fn add_loop(
    loops: &mut List<Loop>,
    system: &FaultSystem,
    blocks: &Blocks,
    seen: &mut HashSet<u32>,
    number: u32,
) -> Mem<()>
    requires { number_of blocks.now number < 4294967295 }
    ensures { OnOk result (AddsLoop system.now blocks.now number (contains nat_eq seen.old) (contains nat_eq seen.new) loops.old loops.new) }
{
    match blocks.block_of(number) {
        Some(block) => {
            let found = loop_at(blocks, number, block);
            let is_new = seen.insert(block)?;
            push_loop(loops, system, found, is_new)?;
            Ok(())
        }
        None => Ok(()),
    }
}

// Adds the facts of a block that is new, if they are a loop.
fn push_loop(loops: &mut List<Loop>, system: &FaultSystem, found: Loop, is_new: bool) -> Mem<()>
    ensures { OnOk result (loops.new ≡ loops.old ++ cond (is_new && is_looped system.now found) (found ∷ []) []) }
{
    if is_new {
        let is_loop = is_loop(system, found);
        loops.push_if(found, is_loop)?;
    }
    Ok(())
}

// The facts of a block, one of which is this.
fn loop_at(blocks: &Blocks, number: u32, block: u32) -> Loop
    requires { block < 4294967295 }
    ensures { result ≡ record { size = size_of blocks.now block; first = number } }
{
    let size = match blocks.size(block) {
        Some(size) => size,
        None => 0,
    };
    Loop {
        size,
        first: number,
    }
}

// Whether these are more than one, or the one occurs in its own formula.
fn is_loop(system: &FaultSystem, found: Loop) -> bool
    ensures { result ≡ is_looped system.now found }
{
    found.size > 1 || occurs_in_own(system, found.first)
}

// Whether a fact occurs in its own formula.
fn occurs_in_own(system: &FaultSystem, number: u32) -> bool
    ensures { result ≡ occurs_in_own system.now number }
{
    match system.fact(number) {
        Some(fact) => has_fact(&fact.formula, number),
        None => false,
    }
}

// Whether a fact occurs in a formula.
#[cycle(has)]
fn has_fact(formula: &Formula, number: u32) -> bool
    ensures { result ≡ occurs number formula.now }
{
    match formula {
        Formula::True | Formula::Event(_) => false,
        Formula::Fact(other) => *other == number,
        Formula::And(parts) | Formula::Or(parts) | Formula::AtLeast(_, parts) => {
            has_fact_in(parts.items(), number)
        }
    }
}

#[cycle(has)]
fn has_fact_in(parts: &[Formula], number: u32) -> bool
    ensures { result ≡ list_any (λ part. part) (map (occurs number) parts.now) }
{
    for part in parts {
        if has_fact(part, number) {
            return true;
        }
    }
    false
}
