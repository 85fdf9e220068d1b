//! Blocks by plain reach: a fact's number is that of the facts whose reach comes before its own.

ghost use Rattle.std.specs.Prelude.{◌≡◌, ◌<◌, ◌^◌, [], ℕ, All, IfOk, length, map, slice_index_or, true};
ghost use Rattle.fault_system.specs.Truth.{Has, member};
ghost use Rattle.dependency_blocks.specs.inner.Reach.{HaveReaches, IsReach, comes_before, rank_of};

use backward_slice::reach;
use fault_system::{Bits, FaultSystem};
use plain_values::Mem;
use std::alloc::Global;

/// The facts on which each of some facts depends, and an empty set for each other fact of the system.
pub(crate) fn reaches_of(alloc: Global, system: &FaultSystem, facts: &[u32]) -> Mem<Vec<Bits>>
    requires { All (λ n. n < length system.now.facts) facts.now }
    ensures { IfOk result (λ reaches. HaveReaches system.now facts.now reaches.items) }
{
    let wanted = Bits::of(alloc, system.facts(), facts)?;
    reaches_in(alloc, system, &wanted)
}

fn reaches_in(alloc: Global, system: &FaultSystem, wanted: &Bits) -> Mem<Vec<Bits>>
    ensures { IfOk result (λ reaches. (length reaches.items ≡ length system.now.facts)
        × ((n : ℕ) → n < length system.now.facts → Has (member wanted.now) n → IsReach system.now n (slice_index_or reaches.items n []))) }
{
    let mut reaches = Vec::new(alloc);
    for number in 0..system.facts() {
        reaches.push(reach_if(alloc, system, number, wanted.has(number))?)?;
    }
    Ok(reaches)
}

fn reach_if(alloc: Global, system: &FaultSystem, number: u32, is_wanted: bool) -> Mem<Bits>
    requires { number < length system.now.facts }
    ensures { IfOk result (λ marks. is_wanted ≡ true → IsReach system.now number marks) }
{
    if is_wanted {
        let found = reach(alloc, system, &[number])?;
        Ok(found.facts)
    } else {
        Bits::new(alloc, 0)
    }
}

/// How many of these come before each.
pub(crate) fn ranks_of(alloc: Global, reaches: &[Bits]) -> Mem<Vec<u32>>
    requires { length reaches.now < 2 ^ 32 }
    ensures { IfOk result (λ ranks. ranks.items ≡ map (rank_of reaches.now) reaches.now) }
{
    let mut ranks = Vec::new(alloc);
    for own in reaches {
        ranks.push(rank(reaches, own))?;
    }
    Ok(ranks)
}

fn rank(reaches: &[Bits], own: &Bits) -> u32
    requires { length reaches.now < 2 ^ 32 }
    ensures { result ≡ rank_of reaches.now own.now }
{
    let mut rank = 0;
    for other in reaches {
        if comes_before(other, own) {
            rank += 1;
        }
    }
    rank
}

// Whether a set comes before another: the first number that only one of the two has is in the other.
fn comes_before(one: &Bits, other: &Bits) -> bool
    ensures { result ≡ comes_before one.now other.now }
{
    for number in 0..one.size() {
        if number >= other.size() {
            return false;
        }
        if one.has(number) != other.has(number) {
            return other.has(number);
        }
    }
    one.size() < other.size()
}
