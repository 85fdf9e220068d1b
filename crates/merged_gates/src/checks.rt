//! What is tested of a merged tree before it is handed out.

ghost use Rattle.std.specs.Prelude.{◌≡◌, ◌∷◌, ◌<◌, ◌^◌, ◌+◌, [], ℕ, IfOk, IsTrue, Some, length, map, slice_get, true};
ghost use Rattle.std.specs.List.{AllByRecursion};
ghost use Rattle.fault_system.specs.Truth.{member};
ghost use Rattle.fault_system.specs.Systems.{NamesDiffer};
ghost use Rattle.round_gates.specs.declared.tree.Gate.{Gate as AGate};
ghost use Rattle.round_gates.specs.declared.tree.Input.{Input as AnInput};
ghost use Rattle.std.specs.declared.cmp.Ordering.TheVariants.{Less};
ghost use Rattle.round_gates.specs.Trees.{key_cmp, key_of};
ghost use Rattle.round_gates.specs.inner.Targets.{IsWellMadeGate, IsWithin, MayHave};
ghost use Rattle.merged_gates.specs.Merged.{HasKindOf, InputsRise, IsReached, MayHaveOne, joins};
ghost use Rattle.merged_gates.specs.inner.Tests.{AreParentsOf, AreRight, HasSource, IsCopy, IsRight, IsTested, RisesAt, StaysApart, is_an_event, moved, number_at};

use crate::gates::{joins, same_kind};
use crate::inputs::{rise, same_input};
use crate::ordering::{all_later, number_at, parents_first, ranks_of};
use crate::parents::{counted, has_other, parents_of, reached};
use crate::shapes::all_differ;
use fault_system::{Bits, FaultSystem};
use plain_values::Mem;
use round_gates::{Gate, GateKind, Input, Tree};
use std::alloc::Global;

/// Whether an input is one of so many events, or one of so many gates.
fn is_within(events: u32, gates: u32, input: Input) -> bool
    ensures { IsTrue result → IsWithin events gates input }
{
    match input {
        Input::Event(n) => n < events,
        Input::Gate(n) => n < gates,
    }
}

fn are_within(events: u32, gates: u32, inputs: &[Input]) -> bool
    ensures { IsTrue result → AllByRecursion (IsWithin events gates) inputs.now }
{
    for input in inputs {
        if !is_within(events, gates, *input) {
            return false;
        }
    }
    true
}

/// Whether a gate of this kind may have so many inputs.
fn may_have(kind: GateKind, count: usize) -> bool
    ensures { IsTrue result → MayHave kind count }
{
    match kind {
        GateKind::And => 2 <= count,
        GateKind::Or => 1 <= count,
        GateKind::AtLeast(least) => 2 <= least && (least as usize) < count,
    }
}

/// Whether a gate of a tree of so many gates is well made, and its inputs rise.
fn is_made(system: &FaultSystem, gates: u32, gate: &Gate) -> bool
    ensures made { IsTrue result → IsWellMadeGate system.now gates gate.now }
    ensures rise { IsTrue result → InputsRise gate.now.inputs }
{
    let inputs = gate.inputs.items();
    let (fact, _stage, _place) = (gate.fact, gate.stage, gate.place);
    if fact >= system.facts() {
        return false;
    }
    if !are_within(system.events(), gates, inputs) {
        return false;
    }
    if !may_have(gate.kind, inputs.len()) {
        return false;
    }
    rise(inputs)
}

/// An input under the number that its gate had before.
fn moved(from: &[u32], input: Input) -> Input
    ensures { result ≡ moved from.now input }
{
    match input {
        Input::Event(n) => Input::Event(n),
        Input::Gate(n) => Input::Gate(number_at(from, n)),
    }
}

/// Whether inputs, under the numbers from before, are these.
fn are_moved(from: &[u32], inputs: &[Input], old: &[Input]) -> bool
    ensures { IsTrue result → map (moved from.now) inputs.now ≡ old.now }
{
    if inputs.len() != old.len() {
        return false;
    }
    for i in 0..inputs.len() {
        if !same_input(moved(from, inputs[i]), old[i]) {
            return false;
        }
    }
    true
}

/// Whether a gate is one of some gates, with other numbers.
fn is_copy(gates: &[Gate], from: &[u32], n: u32, gate: &Gate) -> bool
    ensures { IsTrue result → IsCopy gates.now from.now n gate.now }
{
    match gates.get(number_at(from, n) as usize) {
        Some(old) => {
            same_kind(gate.kind, old.kind)
                && are_moved(from, gate.inputs.items(), old.inputs.items())
        }
        None => false,
    }
}

/// Whether a gate has the kind of another, or is an `or` of one input.
fn has_kind_of(gate: &Gate, written: &Gate) -> bool
    ensures { IsTrue result → HasKindOf gate.now written.now }
{
    same_kind(gate.kind, written.kind)
        || same_kind(gate.kind, GateKind::Or) && gate.inputs.items().len() == 1
}

/// Whether two gates have one name.
fn has_key_of(gate: &Gate, written: &Gate) -> bool
    ensures { IsTrue result → key_of gate.now ≡ key_of written.now }
{
    gate.fact == written.fact && gate.stage == written.stage && gate.place == written.place
}

/// Whether a gate has the name of a written gate, and its kind.
fn has_source(written: &[Gate], from: &[u32], n: u32, gate: &Gate) -> bool
    ensures { IsTrue result → HasSource written.now from.now n gate.now }
{
    match written.get(number_at(from, n) as usize) {
        Some(source) => has_key_of(gate, source) && has_kind_of(gate, source),
        None => false,
    }
}

/// For each gate of a tree its first and its last parent, and the gates that are counted beside their input.
#[derive(Drop)]
struct Parents {
    first: Vec<Option<u32>>,
    last: Vec<Option<u32>>,
    twice: Bits,
}

fn parents_in(alloc: Global, gates: &[Gate]) -> Mem<Parents>
    requires { length gates.now < 2 ^ 32 }
    ensures { IfOk result (λ parents. AreParentsOf gates.now parents.first.items parents.last.items parents.twice) }
{
    Ok(Parents {
        first: parents_of(alloc, gates, true)?,
        last: parents_of(alloc, gates, false)?,
        twice: counted(alloc, gates)?,
    })
}

/// Whether an input that is a gate of a kind that may be joined has another parent.
fn is_apart(gates: &[Gate], parents: &Parents, n: u32, kind: GateKind, input: Input) -> bool
    requires { AreParentsOf gates.now parents.now.first.items parents.now.last.items parents.now.twice }
    ensures { IsTrue result → StaysApart gates.now n kind input }
{
    match input {
        Input::Event(_) => true,
        Input::Gate(m) => {
            !joins_at(gates, kind, m)
                || has_other(parents.first.as_slice(), n, m)
                || has_other(parents.last.as_slice(), n, m)
        }
    }
}

/// Whether the gate at a position may be joined to one of a kind.
fn joins_at(gates: &[Gate], kind: GateKind, m: u32) -> bool
    ensures { (inner : AGate) → slice_get gates.now m ≡ Some inner → joins kind inner.kind ≡ result }
{
    match gates.get(m as usize) {
        Some(inner) => joins(kind, inner.kind),
        None => false,
    }
}

fn are_apart(gates: &[Gate], parents: &Parents, n: u32, kind: GateKind, inputs: &[Input]) -> bool
    requires { AreParentsOf gates.now parents.now.first.items parents.now.last.items parents.now.twice }
    ensures { IsTrue result → AllByRecursion (StaysApart gates.now n kind) inputs.now }
{
    for input in inputs {
        if !is_apart(gates, parents, n, kind, *input) {
            return false;
        }
    }
    true
}

fn is_event(input: Input) -> bool
    ensures { result ≡ is_an_event input }
{
    match input {
        Input::Event(_) => true,
        Input::Gate(_) => false,
    }
}

/// Whether a gate of a tree has more inputs than one, or may have one.
fn may_have_one(tree: &Tree, parents: &Parents, n: u32, gate: &Gate) -> bool
    requires parents { AreParentsOf tree.now.gates parents.now.first.items parents.now.last.items parents.now.twice }
    requires gate { slice_get tree.now.gates n ≡ Some gate.now }
    ensures { IsTrue result → (input : AnInput) → gate.now.inputs ≡ input ∷ [] → MayHaveOne tree.now n input }
{
    let inputs = gate.inputs.items();
    inputs.len() != 1 || parents.twice.has(n) || n == tree.top && is_event(inputs[0])
}

/// What is tested: a system, the gates of a written tree, gates that are left of them, which of them the gates of a tree are, and
/// that tree.
#[derive(Clone, Copy)]
pub(crate) struct Merge<'a> {
    pub system: &'a FaultSystem,
    pub written: &'a [Gate],
    pub gates: &'a [Gate],
    pub from: &'a [u32],
    pub tree: &'a Tree,
}

/// Whether the gate at a position is right.
fn right_at(merge: &Merge<'_>, parents: &Parents, n: u32) -> bool
    requires { AreParentsOf merge.now.tree.now.gates parents.now.first.items parents.now.last.items parents.now.twice }
    ensures { IsTrue result → (gate : AGate) → slice_get merge.now.tree.now.gates n ≡ Some gate
        → IsRight merge.now.system.now merge.now.written.now merge.now.gates.now merge.now.from.now merge.now.tree.now n gate }
{
    let gates = merge.tree.gates.items();
    match gates.get(n as usize) {
        Some(gate) => is_right(merge, parents, n, gate),
        None => true,
    }
}

/// Whether a gate is right.
fn is_right(merge: &Merge<'_>, parents: &Parents, n: u32, gate: &Gate) -> bool
    requires parents { AreParentsOf merge.now.tree.now.gates parents.now.first.items parents.now.last.items parents.now.twice }
    requires gate { slice_get merge.now.tree.now.gates n ≡ Some gate.now }
    ensures { IsTrue result
        → IsRight merge.now.system.now merge.now.written.now merge.now.gates.now merge.now.from.now merge.now.tree.now n gate.now }
{
    let gates = merge.tree.gates.items();
    is_made(merge.system, merge.tree.gates.len_u32(), gate)
        && is_copy(merge.gates, merge.from, n, gate)
        && has_source(merge.written, merge.from, n, gate)
        && are_apart(gates, parents, n, gate.kind, gate.inputs.items())
        && may_have_one(merge.tree, parents, n, gate)
}

fn all_right(merge: &Merge<'_>, parents: &Parents) -> bool
    requires { AreParentsOf merge.now.tree.now.gates parents.now.first.items parents.now.last.items parents.now.twice }
    ensures { IsTrue result → (n : ℕ) (gate : AGate) → slice_get merge.now.tree.now.gates n ≡ Some gate
        → IsRight merge.now.system.now merge.now.written.now merge.now.gates.now merge.now.from.now merge.now.tree.now n gate }
{
    for n in 0..merge.tree.gates.len_u32() {
        if !right_at(merge, parents, n) {
            return false;
        }
    }
    true
}

/// Whether the name of one gate comes before that of another.
fn is_before(a: &Gate, b: &Gate) -> bool
    ensures { IsTrue result → key_cmp (key_of a.now) (key_of b.now) ≡ Less }
{
    a.fact < b.fact
        || a.fact == b.fact && (a.stage < b.stage || a.stage == b.stage && a.place < b.place)
}

fn rises_at(gates: &[Gate], n: usize) -> bool
    requires { n < 2 ^ 32 }
    ensures { IsTrue result → RisesAt gates.now n }
{
    match (gates.get(n), gates.get(n + 1)) {
        (Some(a), Some(b)) => is_before(a, b),
        _ => true,
    }
}

/// Whether gates rise by their names.
fn names_rise(gates: &[Gate]) -> bool
    requires { length gates.now < 2 ^ 32 }
    ensures { IsTrue result → (n : ℕ) → n < length gates.now → RisesAt gates.now n }
{
    for n in 0..gates.len() {
        if !rises_at(gates, n) {
            return false;
        }
    }
    true
}

/// Whether all numbers below one are in a set.
fn is_full(marks: &Bits, count: u32) -> bool
    ensures { IsTrue result → (n : ℕ) → n < count → member marks.now n ≡ true }
{
    for n in 0..count {
        if !marks.has(n) {
            return false;
        }
    }
    true
}

/// Whether all gates of a tree are reached from its top, by an order.
fn all_reached(alloc: Global, tree: &Tree, order: &[u32]) -> Mem<bool>
    ensures { IfOk result (λ yes. IsTrue yes → IsReached tree.now) }
{
    let gates = tree.gates.items();
    let marks = reached(alloc, gates, order, tree.top)?;
    Ok(is_full(&marks, tree.gates.len_u32()))
}

/// Whether the top of a tree is a gate, which had this number before.
fn is_top(tree: &Tree, from: &[u32], top: u32) -> bool
    ensures inside { IsTrue result → tree.now.top < length tree.now.gates }
    ensures is { IsTrue result → number_at from.now tree.now.top ≡ top }
{
    tree.top < tree.gates.len_u32() && number_at(from, tree.top) == top
}

/// Whether the gates of a tree are right, and rise by their names and by ranks.
fn are_right(merge: &Merge<'_>, parents: &Parents, ranks: &[u32]) -> bool
    requires { AreParentsOf merge.now.tree.now.gates parents.now.first.items parents.now.last.items parents.now.twice }
    ensures { IsTrue result → AreRight merge.now.system.now merge.now.written.now merge.now.gates.now merge.now.from.now merge.now.tree.now ranks.now }
{
    let gates = merge.tree.gates.items();
    if !names_rise(gates) {
        return false;
    }
    if !all_later(gates, ranks) {
        return false;
    }
    all_right(merge, parents)
}

/// Whether a tree is a merged tree.
pub(crate) fn is_tested(alloc: Global, merge: &Merge<'_>, top: u32) -> Mem<bool>
    ensures { IfOk result (λ yes. IsTrue yes
        → IsTested merge.now.system.now merge.now.written.now merge.now.gates.now top merge.now.from.now merge.now.tree.now) }
{
    let gates = merge.tree.gates.items();
    let order = parents_first(alloc, gates)?;
    let ranks = ranks_of(alloc, order.as_slice(), gates.len())?;
    let reached = all_reached(alloc, merge.tree, order.as_slice())?;
    let differ = all_differ(alloc, gates)?;
    let parents = parents_in(alloc, gates)?;
    let numbers = ranks.as_slice();
    if reached && differ && is_top(merge.tree, merge.from, top) {
        return Ok(are_right(merge, &parents, numbers));
    }
    Ok(false)
}
