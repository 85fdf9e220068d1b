//! The stages of all blocks, one after another, from the lowest block on.

ghost use Rattle.std.specs.Prelude.{◌≡◌, ◌+◌, ◌<◌, ◌≤◌, ◌++◌, ◌∷◌, [], ℕ, All, IfOk, IfSome, OnOk, length, map, flat_map, slice_index_or};
ghost use Rattle.dependency_blocks.specs.Blocks.{IsBlocks, number_of, size_of};
ghost use Rattle.round_gates.specs.inner.Walks.{node_in};
ghost use Rattle.round_gates.specs.Stages.{fact_walk};
ghost use Rattle.round_gates.specs.inner.Unrolled.{AreUnrolledBelow, IsSliced, IsSmall, IsUnrolling, found_in, lines_in, members_in, members_of, written};

use crate::node::{Line, Node, Part, Stage};
use crate::walking::walk_formula;
use backward_slice::Slice;
use dependency_blocks::Blocks;
use fault_system::FaultSystem;
use plain_values::{List, Mem};
use std::alloc::Global;

/// The last nodes of the facts of a slice, by number, and the gates of their stages, each behind those that it names.
#[derive(Drop)]
pub(crate) struct Unrolling {
    pub nodes: Vec<Node>,
    pub lines: Vec<Line>,
}

/// The node of a fact in a stage; its gates go to the lines.
fn walk_fact(
    alloc: Global,
    system: &FaultSystem,
    stage: Stage,
    looks: &[Node],
    lines: &mut Vec<Line>,
) -> Mem<Node>
    requires { IsSmall system.now stage.fact }
    ensures node { IfOk result (λ node. node ≡ (fact_walk system.now (node_in looks.now) stage).node) }
    ensures lines { OnOk result (lines.new.items
        ≡ lines.old.items ++ (fact_walk system.now (node_in looks.now) stage).lines) }
{
    match system.fact(stage.fact) {
        Some(info) => Ok(walk_formula(alloc, stage, looks, &info.formula, 0, lines)?.node),
        None => Ok(Node::Never),
    }
}

/// The nodes of some facts in a stage; their gates go to the lines.
fn walk_facts(
    alloc: Global,
    system: &FaultSystem,
    stage: u32,
    members: &[u32],
    looks: &[Node],
    lines: &mut Vec<Line>,
) -> Mem<Vec<Part>>
    requires { All (IsSmall system.now) members.now }
    ensures found { IfOk result (λ found. found.items ≡ map (found_in system.now (node_in looks.now) stage) members.now) }
    ensures lines { OnOk result (lines.new.items
        ≡ lines.old.items ++ flat_map (lines_in system.now (node_in looks.now) stage) members.now) }
{
    let mut found = Vec::new(alloc);
    for fact in members {
        let node = walk_fact(alloc, system, Stage { fact: *fact, stage }, looks, lines)?;
        found.push(Part { place: *fact, node })?;
    }
    Ok(found)
}

/// Gives each of these facts its node.
fn write_all(nodes: &mut [Node], found: &[Part])
    requires { All (λ part. part.place < length nodes.old) found.now }
    ensures { (fact : ℕ) → node_in nodes.new fact ≡ written found.now (node_in nodes.old) fact }
{
    for part in found {
        nodes[part.place as usize] = part.node;
    }
}

/// One stage of some facts.
fn run_stage(
    alloc: Global,
    system: &FaultSystem,
    stage: u32,
    members: &[u32],
    nodes: &mut [Node],
    lines: &mut Vec<Line>,
) -> Mem<()>
    requires small { All (IsSmall system.now) members.now }
    requires inside { All (λ fact. fact < length nodes.old) members.now }
    ensures nodes { OnOk result ((fact : ℕ) → node_in nodes.new fact
        ≡ written (map (found_in system.now (node_in nodes.old) stage) members.now) (node_in nodes.old) fact) }
    ensures lines { OnOk result (lines.new.items
        ≡ lines.old.items ++ flat_map (lines_in system.now (node_in nodes.old) stage) members.now) }
{
    let found = walk_facts(alloc, system, stage, members, nodes, lines)?;
    write_all(nodes, found.as_slice());
    Ok(())
}

/// How many facts are in a block.
fn size_of(blocks: &Blocks, block: u32) -> u32
    ensures { block < 4294967295 → result ≡ size_of blocks.now block }
{
    match blocks.size(block) {
        Some(size) => size,
        None => 0,
    }
}

/// What is unrolled: a slice of a system, with its blocks.
#[derive(Clone, Copy)]
struct Sliced<'a> {
    /// The system.
    system: &'a FaultSystem,
    /// The slice of a target.
    slice: &'a Slice,
    /// The blocks of its facts.
    blocks: &'a Blocks,
}

/// All stages of a block.
fn run_block(
    alloc: Global,
    sliced: &Sliced<'_>,
    block: u32,
    members: &[u32],
    nodes: &mut [Node],
    lines: &mut Vec<Line>,
) -> Mem<()>
    requires sliced { IsSliced sliced.now }
    requires block { block < 4294967295 }
    requires members { members.now ≡ members_in sliced.now block }
    requires before { AreUnrolledBelow sliced.now block nodes.old lines.old.items }
    ensures { OnOk result (AreUnrolledBelow sliced.now (block + 1) nodes.new lines.new.items) }
{
    let _facts = sliced.system.facts();
    let count = size_of(sliced.blocks, block);
    for stage in 0..count {
        run_stage(alloc, sliced.system, stage + 1, members, nodes, lines)?;
    }
    Ok(())
}

/// All blocks, from the lowest on.
fn run_blocks(
    alloc: Global,
    sliced: &Sliced<'_>,
    lists: &[List<u32>],
    nodes: &mut [Node],
    lines: &mut Vec<Line>,
) -> Mem<()>
    requires sliced { IsSliced sliced.now }
    requires few { length lists.now ≤ 4294967295 }
    requires members { (block : ℕ) → block < length lists.now
        → slice_index_or lists.now block [] ≡ members_in sliced.now block }
    requires before { AreUnrolledBelow sliced.now 0 nodes.old lines.old.items }
    ensures { OnOk result (AreUnrolledBelow sliced.now (length lists.now) nodes.new lines.new.items) }
{
    for (block, members) in lists.iter().enumerate() {
        run_block(alloc, sliced, block as u32, members.items(), nodes, lines)?;
    }
    Ok(())
}

/// A number above those of the blocks of some facts.
fn bound_of(blocks: &Blocks, facts: &[u32]) -> u32
    ensures above { All (λ fact. number_of blocks.now fact < 4294967295 → number_of blocks.now fact < result) facts.now }
{
    let mut bound = 0;
    for fact in facts {
        bound = above(bound, blocks.block_of(*fact));
    }
    bound
}

fn above(bound: u32, block: Option<u32>) -> u32
    requires { IfSome block (λ number. number < 4294967295) }
    ensures bound { bound ≤ result }
    ensures block { IfSome block (λ number. number < result) }
{
    match block {
        Some(number) if number >= bound => number + 1,
        _ => bound,
    }
}

/// So many empty lists.
fn empty_lists(alloc: Global, count: u32) -> Mem<Vec<List<u32>>>
    ensures count { IfOk result (λ lists. length lists.items ≡ count) }
    ensures empty { IfOk result (λ lists. (k : ℕ) → slice_index_or lists.items k [] ≡ []) }
{
    let mut lists = Vec::new(alloc);
    for _ in 0..count {
        lists.push(List::new(alloc))?;
    }
    Ok(lists)
}

/// Puts a fact behind the others of its block.
fn add_member(lists: &mut [List<u32>], blocks: &Blocks, fact: u32) -> Mem<()>
    ensures long { length lists.new ≡ length lists.old }
    ensures added { OnOk result ((block : ℕ) → block < length lists.old → block < 4294967295 → slice_index_or lists.new block []
        ≡ slice_index_or lists.old block [] ++ members_of blocks.now block (fact ∷ [])) }
{
    match blocks.block_of(fact) {
        Some(block) if (block as usize) < lists.len() => lists[block as usize].push(fact),
        _ => Ok(()),
    }
}

fn add_members(lists: &mut [List<u32>], blocks: &Blocks, facts: &[u32]) -> Mem<()>
    requires { (block : ℕ) → slice_index_or lists.old block [] ≡ [] }
    ensures long { length lists.new ≡ length lists.old }
    ensures added { OnOk result ((block : ℕ) → block < length lists.old → block < 4294967295
        → slice_index_or lists.new block [] ≡ members_of blocks.now block facts.now) }
{
    for fact in facts {
        add_member(lists, blocks, *fact)?;
    }
    Ok(())
}

/// The facts of each block below a number.
fn lists_of(alloc: Global, blocks: &Blocks, facts: &[u32], bound: u32) -> Mem<Vec<List<u32>>>
    ensures count { IfOk result (λ lists. length lists.items ≡ bound) }
    ensures members { IfOk result (λ lists. (block : ℕ) → block < bound
        → slice_index_or lists.items block [] ≡ members_of blocks.now block facts.now) }
{
    let mut lists = empty_lists(alloc, bound)?;
    add_members(lists.as_mut_slice(), blocks, facts)?;
    Ok(lists)
}

/// So many nodes, all false.
fn false_nodes(alloc: Global, count: u32) -> Mem<Vec<Node>>
    ensures count { IfOk result (λ nodes. length nodes.items ≡ count) }
    ensures never { IfOk result (λ nodes. (fact : ℕ) → node_in nodes.items fact ≡ Node.Never) }
{
    let mut nodes = Vec::new(alloc);
    for _ in 0..count {
        nodes.push(Node::Never)?;
    }
    Ok(nodes)
}

/// The last nodes of the facts of a slice, and the gates of their stages, each behind those that it names.
pub(crate) fn unroll(
    alloc: Global,
    system: &FaultSystem,
    slice: &Slice,
    blocks: &Blocks,
) -> Mem<Unrolling>
    requires blocks { IsBlocks system.now slice.now.facts blocks.now }
    requires small { All (IsSmall system.now) slice.now.facts }
    requires inside { All (λ fact. fact < length system.now.facts) slice.now.facts }
    ensures { IfOk result (λ all. IsUnrolling system.now slice.now.facts blocks.now all.nodes.items all.lines.items) }
{
    let facts = slice.facts.items();
    let bound = bound_of(blocks, facts);
    let lists = lists_of(alloc, blocks, facts, bound)?;
    let mut nodes = false_nodes(alloc, system.facts())?;
    let mut lines = Vec::new(alloc);
    let sliced = Sliced {
        system,
        slice,
        blocks,
    };
    run_blocks(
        alloc,
        &sliced,
        lists.as_slice(),
        nodes.as_mut_slice(),
        &mut lines,
    )?;
    Ok(Unrolling { nodes, lines })
}
