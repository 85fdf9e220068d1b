//! The nodes and the gates of one stage of a fact.

ghost use Rattle.std.specs.Prelude.{◌≡◌, ◌+◌, ◌<◌, ◌^◌, ◌++◌, ◌∷◌, [], IfOk, OnOk, map};
ghost use Rattle.round_gates.specs.Walks.{walk, parts_of, places, total, key_at, node_at, line_at, counted_lines, with_seen, input_of, repeat_of, wrapped, repeats, varying_parts, nodes_of};
ghost use Rattle.round_gates.specs.inner.Walks.{node_in, IsWalked, ArePartsOf};

use crate::joining::{all_of, any_of, least_of};
use crate::node::{GateKey, GateKind, Join, Line, Node, Part, Stage};
use fault_system::Formula;
use indexmap::IndexSet;
use plain_values::{List, Mem};
use std::alloc::Global;

/// What a formula gives: its node, and the place behind its last one.
#[derive(Clone, Copy)]
pub(crate) struct Found {
    pub node: Node,
    pub next: u32,
}

/// What the parts of a formula give.
#[derive(Drop)]
struct FoundParts {
    parts: List<Part>,
    next: u32,
}

/// The node at a number.
pub(crate) fn node_in(nodes: &[Node], fact: u32) -> Node
    ensures { result ≡ node_in nodes.now fact }
{
    match nodes.get(fact as usize) {
        Some(node) => *node,
        None => Node::Never,
    }
}

fn key_at(stage: Stage, place: u32) -> GateKey
    ensures { result ≡ key_at stage place }
{
    GateKey {
        fact: stage.fact,
        stage: stage.stage,
        place,
    }
}

/// The nodes of parts.
fn nodes_of(alloc: Global, parts: &[Part]) -> Mem<List<Node>>
    ensures { IfOk result (λ nodes. nodes ≡ nodes_of parts.now) }
{
    let mut nodes = Vec::with_capacity(alloc, parts.len())?;
    for part in parts {
        nodes.push(part.node)?;
    }
    List::of(nodes)
}

/// The node that a rule gives at a place; a gate that it makes goes to the lines.
fn settle(stage: Stage, place: u32, join: Join, lines: &mut Vec<Line>) -> Mem<Node>
    ensures node { IfOk result (λ node. node ≡ node_at stage place join) }
    ensures lines { OnOk result (lines.new.items ≡ lines.old.items ++ line_at stage place join) }
{
    match join {
        Join::Plain(node) => Ok(node),
        Join::Made(kind, inputs) => {
            let key = key_at(stage, place);
            lines.push(Line { key, kind, inputs })?;
            Ok(Node::Gate(key))
        }
    }
}

/// The parts whose nodes are not constant.
fn varying_parts(alloc: Global, parts: &[Part]) -> Mem<List<Part>>
    ensures { IfOk result (λ left. left ≡ varying_parts parts.now) }
{
    let mut left = List::new(alloc);
    for part in parts {
        push_varying(&mut left, *part)?;
    }
    Ok(left)
}

fn push_varying(left: &mut List<Part>, part: Part) -> Mem<()>
    ensures { OnOk result (left.new ≡ left.old ++ varying_parts (part ∷ [])) }
{
    if Node::Always != part.node && Node::Never != part.node {
        left.push(part)?;
    }
    Ok(())
}

/// The inputs of a gate that counts them; a gate that stands for a repeated input goes to the lines.
fn wrap_repeats(
    alloc: Global,
    stage: Stage,
    parts: &[Part],
    lines: &mut Vec<Line>,
) -> Mem<List<Node>>
    ensures inputs { IfOk result (λ inputs. inputs ≡ wrapped stage [] parts.now) }
    ensures lines { OnOk result (lines.new.items ≡ lines.old.items ++ repeats stage [] parts.now) }
{
    let mut seen = IndexSet::new(alloc);
    let mut inputs = List::new(alloc);
    for part in parts {
        inputs.push(input_of(alloc, stage, &mut seen, *part, lines)?)?;
    }
    Ok(inputs)
}

/// The input for a part; the gate that stands for a repeated one goes to the lines.
fn input_of(
    alloc: Global,
    stage: Stage,
    seen: &mut IndexSet<Node>,
    part: Part,
    lines: &mut Vec<Line>,
) -> Mem<Node>
    ensures node { IfOk result (λ node. node ≡ input_of stage seen.old.keys part) }
    ensures seen { OnOk result (seen.new.keys ≡ with_seen seen.old.keys part.node) }
    ensures lines { OnOk result (lines.new.items ≡ lines.old.items ++ repeat_of stage seen.old.keys part) }
{
    let is_new = seen.insert(part.node)?;
    if is_new {
        return Ok(part.node);
    }
    wrap(alloc, stage, part, lines)
}

/// The gate at a part's place, an `or` of its one node, which goes to the lines.
fn wrap(alloc: Global, stage: Stage, part: Part, lines: &mut Vec<Line>) -> Mem<Node>
    ensures node { IfOk result (λ node. node ≡ Node.Gate (key_at stage part.place)) }
    ensures lines { OnOk result (lines.new.items ≡ lines.old.items
        ++ record { key = key_at stage part.place; kind = GateKind.Or; inputs = part.node ∷ [] } ∷ []) }
{
    let mut inputs = List::new(alloc);
    inputs.push(part.node)?;
    settle(stage, part.place, Join::Made(GateKind::Or, inputs), lines)
}

/// The node that the rule of a formula that counts its parts gives at a place; the gates that it makes go to the lines.
fn settle_counted(
    alloc: Global,
    stage: Stage,
    place: u32,
    parts: &[Part],
    join: Join,
    lines: &mut Vec<Line>,
) -> Mem<Node>
    ensures node { IfOk result (λ node. node ≡ node_at stage place join) }
    ensures lines { OnOk result (lines.new.items ≡ lines.old.items ++ counted_lines stage place parts.now join) }
{
    match join {
        Join::Made(GateKind::AtLeast(least), _) => {
            settle_least(alloc, stage, place, parts, least, lines)
        }
        join => settle(stage, place, join, lines),
    }
}

fn settle_least(
    alloc: Global,
    stage: Stage,
    place: u32,
    parts: &[Part],
    least: u32,
    lines: &mut Vec<Line>,
) -> Mem<Node>
    ensures node { IfOk result (λ node. node ≡ Node.Gate (key_at stage place)) }
    ensures lines { OnOk result (lines.new.items ≡ lines.old.items ++ (repeats stage [] (varying_parts parts.now)
        ++ record { key = key_at stage place; kind = GateKind.AtLeast least; inputs = wrapped stage [] (varying_parts parts.now) } ∷ [])) }
{
    let left = varying_parts(alloc, parts)?;
    let inputs = wrap_repeats(alloc, stage, left.items(), lines)?;
    settle(
        stage,
        place,
        Join::Made(GateKind::AtLeast(least), inputs),
        lines,
    )
}

/// What a formula gives in a stage from a place on, where `looks` has the node for which each fact stands.
#[cycle(walk)]
pub(crate) fn walk_formula(
    alloc: Global,
    stage: Stage,
    looks: &[Node],
    formula: &Formula,
    place: u32,
    lines: &mut Vec<Line>,
) -> Mem<Found>
    requires { place + places formula.now < 2 ^ 32 }
    ensures walked { IfOk result (λ found. IsWalked (walk stage (node_in looks.now) formula.now place)
        found.node found.next lines.old.items lines.new.items) }
    ensures next { IfOk result (λ found. found.next ≡ place + places formula.now) }
{
    match formula {
        Formula::True => Ok(with_next(Node::Always, place + 1)),
        Formula::Event(number) => Ok(with_next(Node::Basic(*number), place + 1)),
        Formula::Fact(number) => Ok(with_next(node_in(looks, *number), place + 1)),
        Formula::And(parts) => {
            let all = walk_parts(alloc, stage, looks, parts.items(), place + 1, lines)?;
            let join = all_of(alloc, nodes_of(alloc, all.parts.items())?.items())?;
            Ok(with_next(settle(stage, place, join, lines)?, all.next))
        }
        Formula::Or(parts) => {
            let all = walk_parts(alloc, stage, looks, parts.items(), place + 1, lines)?;
            let join = any_of(alloc, nodes_of(alloc, all.parts.items())?.items())?;
            Ok(with_next(settle(stage, place, join, lines)?, all.next))
        }
        Formula::AtLeast(least, parts) => {
            let all = walk_parts(alloc, stage, looks, parts.items(), place + 1, lines)?;
            let join = least_of(alloc, *least, nodes_of(alloc, all.parts.items())?.items())?;
            Ok(with_next(
                settle_counted(alloc, stage, place, all.parts.items(), join, lines)?,
                all.next,
            ))
        }
    }
}

fn with_next(node: Node, next: u32) -> Found
    ensures { result ≡ record { node = node; next = next } }
{
    Found { node, next }
}

/// What the parts of a formula give, one after another.
#[cycle(walk)]
fn walk_parts(
    alloc: Global,
    stage: Stage,
    looks: &[Node],
    parts: &[Formula],
    place: u32,
    lines: &mut Vec<Line>,
) -> Mem<FoundParts>
    requires { place + total (map places parts.now) < 2 ^ 32 }
    ensures walked { IfOk result (λ found. ArePartsOf (parts_of (map (walk stage (node_in looks.now)) parts.now) place)
        found.parts found.next lines.old.items lines.new.items) }
    ensures next { IfOk result (λ found. found.next ≡ place + total (map places parts.now)) }
{
    let mut list = Vec::with_capacity(alloc, parts.len())?;
    let mut next = place;
    for part in parts {
        let one = walk_formula(alloc, stage, looks, part, next, lines)?;
        list.push(Part {
            place: next,
            node: one.node,
        })?;
        next = one.next;
    }
    let parts = List::of(list)?;
    Ok(FoundParts { parts, next })
}
