ghost use Rattle.std.specs.Prelude.{◌≡◌, ◌<◌, ◌⊎◌, ◌^◌, ℕ, All, Contains, IfOk, IsTrue, length};
ghost use Rattle.plain_values.specs.Numbered.{numbers_below};
ghost use Rattle.fault_system.specs.Truth.{set_of};
ghost use Rattle.backward_slice.specs.Slices.{HasItsCauses, IsSlice};
ghost use Rattle.dependency_blocks.specs.Blocks.{IsBlocks, number_of};
ghost use Rattle.dependency_blocks.specs.inner.Blocks.{AreAllBlocks};
ghost use Rattle.dependency_blocks.specs.inner.Checks.{HasNumbers, IsTable};
ghost use Rattle.dependency_blocks.specs.inner.Sizes.{AreSmall};

use crate::block_table::Blocks;
use crate::checks::{Way, all_marked, fall, number_at, tied};
use crate::finder::{Proposal, propose};
use crate::ranking::{ranks_of, reaches_of};
use backward_slice::Slice;
use fault_system::FaultSystem;
use plain_values::{List, Mem};
use std::alloc::Global;

/// The blocks of a slice.
pub fn blocks(alloc: Global, system: &FaultSystem, slice: &Slice) -> Mem<Blocks>
    requires { IsSlice system.now slice.now.target slice.now }
    ensures { IfOk result (IsBlocks system.now slice.now.facts) }
{
    blocks_of(alloc, system, slice.facts.items(), &[slice.target])
}

/// The blocks of all facts of a system.
pub fn all_blocks(alloc: Global, system: &FaultSystem) -> Mem<Blocks>
    ensures { IfOk result (AreAllBlocks system.now) }
{
    let facts = all_facts(alloc, system.facts())?;
    blocks_of(alloc, system, facts.items(), facts.items())
}

/// The numbers of all facts of a system that has so many.
pub fn all_facts(alloc: Global, count: u32) -> Mem<List<u32>>
    ensures { IfOk result (λ facts. facts ≡ numbers_below count) }
{
    let mut facts = List::new(alloc);
    for fact in 0..count {
        facts.push(fact)?;
    }
    Ok(facts)
}

// The blocks of some facts, among which are all on which they depend; some of them lead to all.
//
// They are proposed by a search along paths and then tested, both in a time that goes with the facts of the system and
// their formulas. Should the tests say no, they are found by plain reach. That is slow, since each formula may be looked
// at once for each fact, and takes memory that goes with the square of the facts; no system is known for which
// it comes to that. The numbers of blocks have gaps then.
fn blocks_of(alloc: Global, system: &FaultSystem, facts: &[u32], starts: &[u32]) -> Mem<Blocks>
    requires ranged { All (λ n. n < length system.now.facts) facts.now }
    requires causes { HasItsCauses system.now (set_of facts.now) }
    ensures { IfOk result (IsBlocks system.now facts.now) }
{
    let proposal = propose(alloc, system, facts, starts)?;
    let numbers = table(alloc, system.facts(), facts, proposal.numbers.as_slice())?;
    if are_right(alloc, system, facts, numbers.as_slice(), &proposal)? {
        return Blocks::of(alloc, numbers);
    }
    blocks_by_reach(alloc, system, facts)
}

// The same by plain reach.
fn blocks_by_reach(alloc: Global, system: &FaultSystem, facts: &[u32]) -> Mem<Blocks>
    requires ranged { All (λ n. n < length system.now.facts) facts.now }
    requires causes { HasItsCauses system.now (set_of facts.now) }
    ensures { IfOk result (IsBlocks system.now facts.now) }
{
    let count = system.facts();
    let reaches = reaches_of(alloc, system, facts)?;
    let ranks = ranks_of(alloc, reaches.as_slice())?;
    let numbers = table(alloc, count, facts, ranks.as_slice())?;
    Blocks::of(alloc, numbers)
}

/// Whether the tests show that the numbers are those of blocks.
fn are_right(
    alloc: Global,
    system: &FaultSystem,
    facts: &[u32],
    numbers: &[u32],
    proposal: &Proposal,
) -> Mem<bool>
    requires { IsTable facts.now numbers.now }
    ensures { IfOk result (λ yes. IsTrue yes → IsBlocks system.now facts.now numbers.now) }
{
    if !fall(system, numbers, facts) || !all_numbered(numbers, facts) {
        return Ok(false);
    }
    let leaders = proposal.leaders.as_slice();
    let towards = proposal.towards.as_slice();
    let leads = tied(alloc, system, numbers, leaders, towards, Way::Towards)?;
    let onward = proposal.onward.as_slice();
    let comes = tied(alloc, system, numbers, leaders, onward, Way::Onward)?;
    if !all_marked(&leads, facts) {
        return Ok(false);
    }
    Ok(all_marked(&comes, facts))
}

/// Whether each of some facts has a number.
fn all_numbered(numbers: &[u32], facts: &[u32]) -> bool
    ensures { IsTrue result → (n : ℕ) → Contains facts.now n → number_of numbers.now n < 4294967295 }
{
    for fact in facts {
        if number_at(numbers, *fact) == 4_294_967_295 {
            return false;
        }
    }
    true
}

/// The proposed numbers of some facts, and none for all other facts.
fn table(alloc: Global, count: u32, facts: &[u32], proposed: &[u32]) -> Mem<Vec<u32>>
    ensures table { IfOk result (λ numbers. IsTable facts.now numbers.items) }
    ensures small { IfOk result (λ numbers. AreSmall numbers.items) }
    ensures few { IfOk result (λ numbers. length numbers.items < 2 ^ 32) }
    ensures exact { IfOk result (λ numbers. HasNumbers count facts.now proposed.now numbers.items) }
{
    let mut numbers = vec![in alloc; 4_294_967_295u32; count as usize]?;
    write_all(numbers.as_mut_slice(), facts, proposed);
    Ok(numbers)
}

fn write_all(numbers: &mut [u32], facts: &[u32], proposed: &[u32])
    requires { (n : ℕ) → number_of numbers.old n ≡ 4294967295 }
    ensures long { length numbers.new ≡ length numbers.old }
    ensures table { IsTable facts.now numbers.new }
    ensures small { AreSmall numbers.new }
    ensures exact { HasNumbers (length numbers.old) facts.now proposed.now numbers.new }
{
    for fact in facts {
        write(numbers, *fact, number_at(proposed, *fact));
    }
}

fn write(numbers: &mut [u32], fact: u32, number: u32)
    ensures long { length numbers.new ≡ length numbers.old }
    ensures others { (n : ℕ) → (n ≡ fact) ⊎ (number_of numbers.new n ≡ number_of numbers.old n) }
    ensures small { AreSmall numbers.old → AreSmall numbers.new }
    ensures written { fact < length numbers.old → number < length numbers.old → number_of numbers.new fact ≡ number }
{
    if (fact as usize) < numbers.len() && (number as usize) < numbers.len() {
        numbers[fact as usize] = number;
    }
}
