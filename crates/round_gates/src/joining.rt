//! The rules by which the nodes of a formula's parts become a node or a gate.

ghost use Rattle.std.specs.Prelude.{◌≡◌, ◌++◌, ◌∷◌, [], IfOk, OnOk};
ghost use Rattle.round_gates.specs.Nodes.{has_node, without, each_once, gathered, all_of, any_of, always_in, varying, least_left, least_of};
ghost use Rattle.round_gates.specs.inner.Nodes.{kept_key};

use crate::node::{GateKind, Join, Node};
use indexmap::IndexSet;
use plain_values::{List, Mem};
use std::alloc::Global;

/// Whether a node is one of a list.
fn has_node(nodes: &[Node], node: Node) -> bool
    ensures { result ≡ has_node nodes.now node }
{
    for other in nodes {
        if node == *other {
            return true;
        }
    }
    false
}

/// The greatest number of nodes that are compared one by one.
const FEW: usize = 8;

/// The nodes of a list, each once, without one of them.
fn distinct(alloc: Global, nodes: &[Node], dropped: Node) -> Mem<List<Node>>
    ensures { IfOk result (λ kept. kept ≡ each_once (without dropped nodes.now)) }
{
    if nodes.len() <= FEW {
        distinct_few(alloc, nodes, dropped)
    } else {
        distinct_many(alloc, nodes, dropped)
    }
}

/// The same by comparing each node with all that are kept.
fn distinct_few(alloc: Global, nodes: &[Node], dropped: Node) -> Mem<List<Node>>
    ensures { IfOk result (λ kept. kept ≡ each_once (without dropped nodes.now)) }
{
    let mut kept = Vec::with_capacity(alloc, nodes.len())?;
    for node in nodes {
        keep(&mut kept, *node, dropped)?;
    }
    List::of(kept)
}

fn keep(kept: &mut Vec<Node>, node: Node, dropped: Node) -> Mem<()>
    ensures { OnOk result (kept.new.items ≡ kept_key kept.old.items node dropped) }
{
    if dropped == node || has_node(kept.as_slice(), node) {
        return Ok(());
    }
    kept.push(node)?;
    Ok(())
}

/// The same by a set of those that are kept.
fn distinct_many(alloc: Global, nodes: &[Node], dropped: Node) -> Mem<List<Node>>
    ensures { IfOk result (λ kept. kept ≡ each_once (without dropped nodes.now)) }
{
    let mut seen = IndexSet::new(alloc);
    for node in nodes {
        add_unless(&mut seen, *node, dropped)?;
    }
    let kept = Vec::from_slice(alloc, seen.as_slice())?;
    List::of(kept)
}

fn add_unless(seen: &mut IndexSet<Node>, node: Node, dropped: Node) -> Mem<()>
    ensures { OnOk result (seen.new.keys ≡ kept_key seen.old.keys node dropped) }
{
    if dropped != node {
        seen.insert(node)?;
    }
    Ok(())
}

/// With no node left it is the constant, with one it is that node, with more a gate of this kind.
fn gathered(kind: GateKind, none: Node, nodes: List<Node>) -> Join
    ensures { result ≡ gathered kind none nodes }
{
    let count = nodes.items().len();
    if count == 0 {
        return Join::Plain(none);
    }
    if count == 1 {
        return Join::Plain(nodes.items()[0]);
    }
    Join::Made(kind, nodes)
}

/// The rule of `And`.
pub(crate) fn all_of(alloc: Global, nodes: &[Node]) -> Mem<Join>
    ensures { IfOk result (λ join. join ≡ all_of nodes.now) }
{
    if has_node(nodes, Node::Never) {
        return Ok(Join::Plain(Node::Never));
    }
    let left = distinct(alloc, nodes, Node::Always)?;
    Ok(gathered(GateKind::And, Node::Always, left))
}

/// The rule of `Or`.
pub(crate) fn any_of(alloc: Global, nodes: &[Node]) -> Mem<Join>
    ensures { IfOk result (λ join. join ≡ any_of nodes.now) }
{
    if has_node(nodes, Node::Always) {
        return Ok(Join::Plain(Node::Always));
    }
    let left = distinct(alloc, nodes, Node::Never)?;
    Ok(gathered(GateKind::Or, Node::Never, left))
}

/// How many nodes of a list are true.
fn always_in(nodes: &[Node]) -> usize
    ensures { result ≡ always_in nodes.now }
{
    let mut count = 0;
    for node in nodes {
        if Node::Always == *node {
            count += 1;
        }
    }
    count
}

/// The nodes of a list that are not constant.
fn varying(alloc: Global, nodes: &[Node]) -> Mem<List<Node>>
    ensures { IfOk result (λ left. left ≡ varying nodes.now) }
{
    let mut left = List::new(alloc);
    for node in nodes {
        push_varying(&mut left, *node)?;
    }
    Ok(left)
}

fn push_varying(left: &mut List<Node>, node: Node) -> Mem<()>
    ensures { OnOk result (left.new ≡ left.old ++ varying (node ∷ [])) }
{
    if node != Node::Always && node != Node::Never {
        left.push(node)?;
    }
    Ok(())
}

/// At least `least` of some nodes that are not constant.
fn least_left(alloc: Global, least: u32, nodes: List<Node>) -> Mem<Join>
    ensures { IfOk result (λ join. join ≡ least_left least nodes) }
{
    let count = nodes.items().len();
    if least == 0 {
        return Ok(Join::Plain(Node::Always));
    }
    if count < least as usize {
        return Ok(Join::Plain(Node::Never));
    }
    if least == 1 {
        return any_of(alloc, nodes.items());
    }
    if least as usize == count {
        return all_of(alloc, nodes.items());
    }
    Ok(Join::Made(GateKind::AtLeast(least), nodes))
}

/// The rule of `AtLeast`.
pub(crate) fn least_of(alloc: Global, least: u32, nodes: &[Node]) -> Mem<Join>
    ensures { IfOk result (λ join. join ≡ least_of least nodes.now) }
{
    let lowered = (least as usize).saturating_sub(always_in(nodes)) as u32;
    let left = varying(alloc, nodes)?;
    least_left(alloc, lowered, left)
}
