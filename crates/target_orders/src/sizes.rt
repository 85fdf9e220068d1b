//! Which facts are too large to be listed.

ghost use Rattle.std.specs.Prelude.{◌<◌, ◌≤◌, All, IfOk, length};
ghost use Rattle.target_orders.specs.inner.Sizes.{KnowsSizes};

use crate::marks::full;
use crate::settling::{Question, order_of_blocks, settle};
use dependency_blocks::all_blocks;
use fault_system::{Bits, FaultSystem};
use plain_values::Mem;
use std::alloc::Global;

/// Facts that are known to be too large to be listed, and facts that are known not to be.
#[derive(Drop)]
pub(crate) struct Sizes {
    pub large: Bits,
    pub small: Bits,
}

/// What is known of the sizes of facts that hold under some events, and not under none: of no other is it asked whether it is
/// large.
pub(crate) fn reached_sizes(
    alloc: Global,
    system: &FaultSystem,
    always: &Bits,
    perhaps: &Bits,
    facts: &[u32],
) -> Mem<Sizes>
    ensures { IfOk result (KnowsSizes system.now) }
{
    let reached = reached_facts(alloc, system, always, perhaps, facts)?;
    known_sizes(alloc, system, reached.as_slice())
}

// Those of some facts that hold under some events, and not under none.
fn reached_facts(
    alloc: Global,
    system: &FaultSystem,
    always: &Bits,
    perhaps: &Bits,
    facts: &[u32],
) -> Mem<Vec<u32>>
    ensures { IfOk result (λ found. All (λ n. n < length system.now.facts) found.items) }
{
    let mut found = Vec::new(alloc);
    for fact in facts {
        if *fact < system.facts() && is_reached(always, perhaps, *fact) {
            found.push(*fact)?;
        }
    }
    Ok(found)
}

fn is_reached(always: &Bits, perhaps: &Bits, fact: u32) -> bool {
    perhaps.has(fact) && !always.has(fact)
}

// What is known of the sizes of facts. It is meant to say of each of these facts whether it is large; where it does not,
// the slice of the fact does.
//
// Where no slice can be too large, all facts are small. Else a few slices tell most: what depends on a large fact is
// large, and facts that depend on few facts and events together are all small. For few facts nothing is sought.
fn known_sizes(alloc: Global, system: &FaultSystem, facts: &[u32]) -> Mem<Sizes>
    requires { All (λ fact. fact < length system.now.facts) facts.now }
    ensures { IfOk result (KnowsSizes system.now) }
{
    if system.facts() <= 32_768 && system.events() <= 1_024 {
        return all_small(alloc, system);
    }
    if facts.len() < 16 {
        return none_known(alloc, system);
    }
    let asked = Bits::of(alloc, system.facts(), facts)?;
    found_sizes(alloc, system, &asked)
}

// All facts of a system are small that has no more facts and events than a slice may have.
fn all_small(alloc: Global, system: &FaultSystem) -> Mem<Sizes>
    requires facts { length system.now.facts ≤ 32768 }
    requires events { length system.now.events ≤ 1024 }
    ensures { IfOk result (KnowsSizes system.now) }
{
    let large = Bits::new(alloc, 0)?;
    let small = full(alloc, system.facts())?;
    Ok(Sizes { large, small })
}

// The sizes of the facts that are asked of.
fn found_sizes(alloc: Global, system: &FaultSystem, asked: &Bits) -> Mem<Sizes>
    ensures { IfOk result (KnowsSizes system.now) }
{
    let blocks = all_blocks(alloc, system)?;
    let order = order_of_blocks(alloc, system, &blocks)?;
    let mut sizes = none_known(alloc, system)?;
    let question = Question {
        system,
        blocks: &blocks,
        asked,
    };
    settle(alloc, &question, order.as_slice(), &mut sizes)?;
    Ok(sizes)
}

// Nothing is known yet.
fn none_known(alloc: Global, system: &FaultSystem) -> Mem<Sizes>
    ensures { IfOk result (KnowsSizes system.now) }
{
    let large = Bits::new(alloc, system.facts())?;
    let small = Bits::new(alloc, system.facts())?;
    Ok(Sizes { large, small })
}
