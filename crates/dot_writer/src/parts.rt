//! The parts in which a large tree is drawn, each by the box at its head.

ghost use Rattle.std.specs.Prelude.{◌≡◌, IfOk, map};
ghost use Rattle.dot_writer.specs.TreePicture.{above, head_at, heads_of, is_parted, part_of};
ghost use Rattle.dot_writer.specs.inner.DotText.{above_at, climbed};

use crate::sheet::Sheet;
use crate::usages::Usage;
use plain_values::{List, Mem};
use round_gates::Gate;
use std::alloc::Global;

/// Whether a tree is drawn in several parts: one of more than 40 boxes is.
pub(crate) fn is_parted(gates: &List<Gate>) -> bool
    ensures { result ≡ is_parted gates.now }
{
    gates.len_u32() > 40
}

/// The part in which a box stands, by the box at its head; none in a tree that is drawn in one part, and of the top.
pub(crate) fn part_of(sheet: &Sheet, position: u32) -> Option<u32>
    ensures { result ≡ part_of sheet.now position }
{
    if !is_parted(&sheet.tree.gates) {
        return None;
    }
    let head = head_at(sheet.heads.items(), position);
    if head == sheet.tree.top {
        None
    } else {
        Some(head)
    }
}

/// The gate at the head of the part of each gate. Each round goes twice as far up as the one before.
pub(crate) fn heads_of(alloc: Global, usages: &List<Usage>) -> Mem<List<u32>>
    ensures { IfOk result (λ heads. heads ≡ heads_of usages.now) }
{
    let mut heads = all_above(alloc, usages)?;
    for _round in 0..32_u32 {
        heads = twice(alloc, heads.items())?;
    }
    Ok(heads)
}

/// Of each gate the one above it, or itself.
fn all_above(alloc: Global, usages: &List<Usage>) -> Mem<List<u32>>
    ensures { IfOk result (λ all. all ≡ climbed usages.now 1) }
{
    let mut all = List::new(alloc);
    for position in 0..usages.len_u32() {
        all.push(above_at(usages.items(), position))?;
    }
    Ok(all)
}

/// The gate above one that a single gate uses, and else itself.
fn above_at(usages: &[Usage], position: u32) -> u32
    ensures { result ≡ above_at usages.now position }
{
    match usages.get(position as usize) {
        Some(usage) => above(*usage).unwrap_or(position),
        None => position,
    }
}

/// The gate above one that a single gate uses.
fn above(usage: Usage) -> Option<u32>
    ensures { result ≡ above usage }
{
    match usage {
        Usage::Once(first) => Some(first),
        Usage::Unused | Usage::Shared(_) => None,
    }
}

/// Of each gate what is at the head of its head.
fn twice(alloc: Global, heads: &[u32]) -> Mem<List<u32>>
    ensures { IfOk result (λ made. made ≡ map (head_at heads.now) heads.now) }
{
    let mut made = List::new(alloc);
    for head in heads {
        made.push(head_at(heads, *head))?;
    }
    Ok(made)
}

/// The head of the gate at a position.
fn head_at(heads: &[u32], position: u32) -> u32
    ensures { result ≡ head_at heads.now position }
{
    match heads.get(position as usize) {
        Some(head) => *head,
        None => position,
    }
}
