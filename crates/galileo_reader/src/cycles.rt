//! The first gate that reaches itself.

ghost use Rattle.std.specs.Prelude.{◌≡◌, ◌<◌, ◌^◌, IfOk, MatchOption, length};
ghost use Rattle.dependency_blocks.specs.Blocks.{number_of};
ghost use Rattle.galileo_reader.specs.inner.Cycles.{HasOwn, NoneHasOwn, has_own, is_with};
ghost use Rattle.galileo_reader.specs.Trees.{IsAcyclic, IsFirstCyclic};
ghost use Rattle.galileo_reader.specs.inner.Trees.{IsNamedTree};

use crate::system::to_system;
use crate::tree::{NamedGate, NamedTree};
use dependency_blocks::{Blocks, all_blocks};
use plain_values::Mem;
use round_gates::Input;
use std::alloc::Global;

fn number_of(blocks: &Blocks, fact: u32) -> u32
    ensures { result ≡ number_of blocks.now fact }
{
    match blocks.block_of(fact) {
        Some(block) => block,
        None => 4_294_967_295,
    }
}

/// Whether an input is a gate in one block with a gate.
fn is_with(blocks: &Blocks, gate: u32, input: Input) -> bool
    ensures { result ≡ is_with blocks.now gate input }
{
    match input {
        Input::Event(_) => false,
        Input::Gate(number) => number_of(blocks, number) == number_of(blocks, gate),
    }
}

fn has_own(blocks: &Blocks, gate: u32, inputs: &[Input]) -> bool
    ensures { result ≡ has_own blocks.now gate inputs.now }
{
    inputs.iter().any(|input| is_with(blocks, gate, *input))
}

/// The first gate that has an input in its own block.
fn first_with_own(blocks: &Blocks, gates: &[NamedGate]) -> Option<u32>
    requires { length gates.now < 2 ^ 32 }
    ensures { MatchOption result (NoneHasOwn blocks.now gates.now (length gates.now))
        (λ n. HasOwn blocks.now gates.now n × NoneHasOwn blocks.now gates.now n) }
{
    for (i, gate) in gates.iter().enumerate() {
        if has_own(blocks, i as u32, gate.inputs.items()) {
            return Some(i as u32);
        }
    }
    None
}

/// The first gate of a tree that reaches itself.
pub(crate) fn first_cyclic(alloc: Global, tree: &NamedTree) -> Mem<Option<u32>>
    requires { IsNamedTree tree.now }
    ensures { IfOk result (λ found. MatchOption found (IsAcyclic tree.now.gates) (IsFirstCyclic tree.now.gates)) }
{
    let (system, _) = to_system(alloc, tree)?;
    let blocks = all_blocks(alloc, &system)?;
    Ok(first_with_own(&blocks, tree.gates.items()))
}
